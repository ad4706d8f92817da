//! The chunk map: which bytes of the device hold a range of logical addresses, and the rules that the
//! map keeps.
#![tactic(auto)]

mod array;
mod bases;
mod copies;
mod home;
mod laws;
mod map;
mod order;
mod rules;
mod turned;

pub use bases::Bases;
pub use laws::{array_law, order_by_start_law};
pub use map::{ChunkMap, Sys};
pub use verdict::{Chunk, Place};
