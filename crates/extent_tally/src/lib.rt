//! The sums of extents, of their forms and of who refers to them.
#![tactic(auto)]

mod class;
mod tally;

pub use class::ExtentClass;
pub use tally::ExtentTally;
