//! The checking machine: it holds writes back, judges each commit, and lets it reach the disk only
//! where the full check accepts the image that it would make.
#![tactic(auto)]

mod checker;
mod fetching;
mod judging;
mod laws;
mod send;

pub use checker::{Checker, Started};
pub use laws::{order_law, stop_law};
