//! The records of an image: what its superblock, its blocks and its items say, and who takes them.
#![tactic(auto)]

mod law;
mod rec;
mod roots;
mod same;
mod take;

pub use law::{high_leaves, visits_decide};
pub use rec::{ItemAt, OwnedRec, PointerAt, Rec, RecAt, Record, WalkedBlock, read_item};
pub use roots::{named_root, roots_fault};
pub use take::{Both, Nothing, Taker};
