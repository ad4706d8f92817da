//! Kernels in lanes: the first place where two blocks differ, the checksum of a block, and those of up to eight.
#![tactic(auto)]

mod difference;
mod eight;
mod folded;

pub use difference::first_difference;
pub use eight::{Eight, EightSums, Refused};
pub use folded::folded_sum;

#[cfg(test)]
mod tests;
