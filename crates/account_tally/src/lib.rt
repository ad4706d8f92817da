//! The sums of all accounts of an image: what its records say, and whether others say it too.
#![tactic(auto)]

mod apart;
mod context;
mod shown;
mod summing;

pub use summing::{Accounts, least_finding};
