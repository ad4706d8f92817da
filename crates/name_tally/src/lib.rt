//! The sums of names in directories and of links, kept apart in a compact form.
#![tactic(auto)]

mod index;
mod slot;
mod tally;

pub use tally::NameTally;
