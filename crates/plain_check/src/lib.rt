//! The full check of an image from its first block to its last, without an index: the disk's bytes with the pending writes over them.
#![tactic(auto)]

mod check;
mod judging;
mod kept;
mod law;
mod primary;
mod takers;
mod volume;

pub use block_source::{Fault, read_under};
pub use judging::{judge, judge_within};
pub use law::opening_law;
pub use verdict::Verdict;
pub use volume::Volume;
