//! The volume that a workload builds on the base image: its files, directories, subvolumes and extents, the items
//! that say so, and the trees of blocks that hold them.
#![tactic(auto)]

mod block;
mod contents;
mod item_bytes;
mod items;
mod kinds;
mod names;
mod space;
mod tree;
mod trees;
mod volume;

pub use block::{Block, BlockAt};
pub use space::{COPY, block_address, sector_place};
pub use tree::Tree;
pub use trees::Trees;
pub use volume::{Extent, FileAt, SubvolumeAt, Volume, inode_of};
