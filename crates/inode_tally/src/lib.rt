//! The sums of inodes and of their types, kept apart from all other accounts.
#![tactic(auto)]

mod class;
mod tally;

pub use class::{Gathered, InodeClass};
pub use tally::{InodeTally, Own};
