//! The kinds of items that the maker writes, and the ids that they have.

pub use verdict::kinds::{
    BLOCK_GROUP_ITEM, DIR_INDEX, DIR_ITEM, EXTENT_CSUM, EXTENT_DATA, EXTENT_DATA_REF, EXTENT_ITEM,
    INODE_ITEM, INODE_REF, METADATA_ITEM, ROOT_BACKREF, ROOT_ITEM, ROOT_REF,
};
pub use verdict::trees::FS_TREE;

/// The inode of the top directory in each tree of files.
pub const TOP: u64 = 256;
/// The objectid of sums, -10.
pub const SUMS_OBJECTID: u64 = 18_446_744_073_709_551_606;
