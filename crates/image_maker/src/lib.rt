//! Makes tree blocks and whole images: the fields of on-disk structures, leaves and nodes with their headers and
//! checksums, the items of each tree, the base image of 32 MiB, and the writes that make a file in it.
#![tactic(auto)]

mod base;
mod block;
mod create;
mod fields;
mod items;
mod leaf;
mod leaf_item;
mod node;
mod superblock;
mod trees;

pub use base::{BASE_BLOCKS, BASE_CHUNKS, BASE_LENGTH, base_image};
pub use block::{FSID, with_checksum};
pub use create::{create_writes, create_writes_with};
pub use fields::Fields;
pub use items::{
    ChunkAt, chunk_item, dev_extent_item, device_item, dir_entry, extent_item_of_block, group_item,
    inode_item, inode_ref_item, root_item,
};
pub use leaf::LeafMaker;
pub use leaf_item::LeafItem;
pub use node::{ChildPointer, node_block};
pub use superblock::{base_superblock, superblock_of};
pub use trees::{NODESIZE, TreeBlock};
