//! The writes that are pending before a commit, seen as one finite map from the offset of a byte on
//! the device to the byte that is to stand there.
#![tactic(auto)]

mod cache;
mod joined;
mod pieces;
mod run;
mod runs;

pub use cache::WriteCache;
pub use joined::Joined;
pub use pieces::Pieces;
