//! The table of live pairs, made of the records of walks and changed by lists of pairs.
#![tactic(auto)]

mod lives;
mod tables;

pub use lives::{Lives, lives_made_law};
pub use tables::{put_pairs, take_pairs};
