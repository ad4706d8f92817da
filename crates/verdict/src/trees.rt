//! The ids of the trees that each file system has, by the names of the on-disk format.

/// The tree of the roots of all other trees.
pub const ROOT_TREE: u64 = 1;
/// The tree of the extents: which ranges of logical addresses are taken, and by whom.
pub const EXTENT_TREE: u64 = 2;
/// The tree of the chunks: where logical addresses stand on the device.
pub const CHUNK_TREE: u64 = 3;
/// The tree of the device's extents: which of its ranges chunks take.
pub const DEV_TREE: u64 = 4;
/// The first tree of files, which each file system has; subvolumes have ids from 256 on.
pub const FS_TREE: u64 = 5;
/// The tree of the checksums of file data.
pub const CSUM_TREE: u64 = 7;
/// The tree of quotas.
pub const QUOTA_TREE: u64 = 8;
/// The tree by which subvolumes are found by their UUID.
pub const UUID_TREE: u64 = 9;
/// The tree of free space.
pub const FREE_SPACE_TREE: u64 = 10;
/// The tree of the block groups, where they have one of their own.
pub const BLOCK_GROUP_TREE: u64 = 11;
/// The tree of files in which the driver moves data: -9.
pub const DATA_RELOC_TREE: u64 = 18_446_744_073_709_551_607;
