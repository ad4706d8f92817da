//! What a record says of the space of the volume and of the device, as postings to accounts.
#![tactic(auto)]

mod place;
mod rows;
mod sectors;

pub use rows::{post, post_rest, run_of};
