//! The live pairs of an accepted image that pending writes touch, with all that stand above them in their trees.
#![tactic(auto)]

mod leaving;
mod mark;
mod marks;
mod moved;
mod moves;
mod own;
mod pending;
mod range;
mod spot;
mod test;
mod written;

pub use mark::parent_of;
pub use marks::{Marks, PairPlace};
pub use moved::Move;
pub use moves::{moved_pairs, moved_pairs_of};
pub use own::touched_of;
pub use pending::touches_place;
pub use test::AddressTest;
pub use written::touched_blocks;
