//! The measure of work, and laws that bound by it what a commit changes. Each stands on a function that does nothing.
#![tactic(auto)]

mod blocks;
mod housed;
mod named;
mod pieces;
mod postings;

pub use blocks::blocks_counted_law;
pub use housed::housed_law;
pub use named::named_law;
pub use pieces::pieces_law;
pub use postings::postings_law;
