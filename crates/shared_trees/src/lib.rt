//! The walk of a tree that keeps the blocks that two images share, and what says which these are.
#![tactic(auto)]

mod changed;
mod keeps;
mod known;
mod old;
mod starts;
mod stops;

pub use changed::walk_changed;
pub use keeps::Keeps;
pub use known::KnownTree;
pub use old::OldTree;
pub use starts::Starts;
pub use stops::Stops;
pub use tree_laws::{Ended, Met, Start};
