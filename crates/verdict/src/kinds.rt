//! The kinds of items, by the names that the on-disk format gives them: the second part of an item's key; and in which
//! trees each is read.

ghost use Rattle.std.specs.Prelude.{◌≡◌};
ghost use Rattle.verdict.specs.Items.{is_kind_of};

use crate::TreeSort;

/// An inode: (inode, 1, 0) in a tree of files.
pub const INODE_ITEM: u8 = 1;
/// Names of an inode in one directory: (inode, 12, directory) in a tree of files.
pub const INODE_REF: u8 = 12;
/// Names of an inode whose directories stand in the item: (inode, 13, hash) in a tree of files.
pub const INODE_EXTREF: u8 = 13;
/// Extended attributes of an inode: (inode, 24, hash) in a tree of files.
pub const XATTR_ITEM: u8 = 24;
/// An inode without a name that is still to be removed: (-5, 48, inode) in a tree of files.
pub const ORPHAN_ITEM: u8 = 48;
/// The entries of a directory whose names have one hash: (directory, 84, hash) in a tree of files.
pub const DIR_ITEM: u8 = 84;
/// An entry of a directory by its index: (directory, 96, index) in a tree of files.
pub const DIR_INDEX: u8 = 96;
/// A range of a file: (inode, 108, file offset) in a tree of files.
pub const EXTENT_DATA: u8 = 108;
/// Checksums of sectors: (-10, 128, address) in the tree of checksums.
pub const EXTENT_CSUM: u8 = 128;
/// The root of a tree: (tree, 132, any) in the root tree.
pub const ROOT_ITEM: u8 = 132;
/// The name of a subvolume, at the subvolume: (child, 144, parent) in the root tree.
pub const ROOT_BACKREF: u8 = 144;
/// The name of a subvolume, at the tree in which it stands: (parent, 156, child) in the root tree.
pub const ROOT_REF: u8 = 156;
/// An extent of file data: (address, 168, length) in the extent tree.
pub const EXTENT_ITEM: u8 = 168;
/// The extent of a tree block: (address, 169, level) in the extent tree.
pub const METADATA_ITEM: u8 = 169;
/// A reference to a tree block by a tree: (address, 176, root), or inside the extent's item.
pub const TREE_BLOCK_REF: u8 = 176;
/// A reference to file data by a file: (address, 178, hash), or inside the extent's item.
pub const EXTENT_DATA_REF: u8 = 178;
/// A reference to a tree block by the block above: (address, 182, parent), or inside the extent's item.
pub const SHARED_BLOCK_REF: u8 = 182;
/// A reference to file data by a leaf: (address, 184, parent), or inside the extent's item.
pub const SHARED_DATA_REF: u8 = 184;
/// What is used of a block group: (start, 192, length) in the extent tree.
pub const BLOCK_GROUP_ITEM: u8 = 192;
/// A range of a device that a chunk takes: (device, 204, physical offset) in the device tree.
pub const DEV_EXTENT: u8 = 204;
/// A device: (1, 216, device) in the chunk tree.
pub const DEV_ITEM: u8 = 216;
/// A chunk: (256, 228, start) in the chunk tree.
pub const CHUNK_ITEM: u8 = 228;
/// Statistics of a device: (0, 249, device) in the device tree.
pub const PERSISTENT_ITEM: u8 = 249;

impl TreeSort {
    /// Whether items of this kind are read in a tree of this sort.
    pub fn has_kind(self, kind: u8) -> bool
        ensures { result ≡ is_kind_of self kind }
    {
        match self {
            TreeSort::Root => matches!(kind, ROOT_ITEM | ROOT_BACKREF | ROOT_REF),
            TreeSort::Extent => matches!(
                kind,
                EXTENT_ITEM
                    | METADATA_ITEM
                    | TREE_BLOCK_REF
                    | EXTENT_DATA_REF
                    | SHARED_BLOCK_REF
                    | SHARED_DATA_REF
                    | BLOCK_GROUP_ITEM
            ),
            TreeSort::Chunk => matches!(kind, DEV_ITEM | CHUNK_ITEM),
            TreeSort::Device => kind == DEV_EXTENT,
            TreeSort::File => matches!(
                kind,
                INODE_ITEM
                    | INODE_REF
                    | INODE_EXTREF
                    | XATTR_ITEM
                    | ORPHAN_ITEM
                    | DIR_ITEM
                    | DIR_INDEX
                    | EXTENT_DATA
            ),
            TreeSort::Sums => kind == EXTENT_CSUM,
            TreeSort::Groups => kind == BLOCK_GROUP_ITEM,
            TreeSort::Unread => false,
        }
    }
}
