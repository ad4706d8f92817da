//! Where things stand: an item in the trees, a tree among its sorts, and logical addresses on the
//! device.

ghost use Rattle.std.specs.Prelude.{◌≡◌};
ghost use Rattle.verdict.specs.Items.{item_finding, is_file_objectid, is_free_id, is_listed, is_multiple};
ghost use Rattle.verdict.specs.Trees.{has_group_tree, is_node_size, sort_of};

use crate::kinds::ORPHAN_ITEM;
use crate::trees::{
    BLOCK_GROUP_TREE, CHUNK_TREE, CSUM_TREE, DEV_TREE, EXTENT_TREE, FREE_SPACE_TREE, QUOTA_TREE,
    ROOT_TREE,
};
use crate::{Family, Finding, Key, Rule};

/// The sorts of trees, by the items that they hold.
#[derive(Clone, Copy, Debug, PartialEq, Eq)]
pub enum TreeSort {
    /// The tree of the roots of all trees, 1.
    Root,
    /// The tree of the extents, 2.
    Extent,
    /// The tree of the chunks, 3.
    Chunk,
    /// The tree of the device's extents, 4.
    Device,
    /// A tree of files: 5, a subvolume, or -9.
    File,
    /// The tree of the checksums of file data, 7.
    Sums,
    /// The tree of the block groups, 11, where they have one of their own.
    Groups,
    /// A tree whose items stay unread: 8, 9 or 10.
    Unread,
}

impl TreeSort {
    /// The sort of the tree with this id.
    pub fn of(tree: u64) -> TreeSort
        ensures { result ≡ sort_of tree }
    {
        match tree {
            ROOT_TREE => TreeSort::Root,
            EXTENT_TREE => TreeSort::Extent,
            CHUNK_TREE => TreeSort::Chunk,
            DEV_TREE => TreeSort::Device,
            CSUM_TREE => TreeSort::Sums,
            QUOTA_TREE..=FREE_SPACE_TREE => TreeSort::Unread,
            BLOCK_GROUP_TREE => TreeSort::Groups,
            _ => TreeSort::File,
        }
    }

    /// Whether a tree of this sort lists the item with this key: its kind, and in a tree of files its
    /// objectid, which is that of a file or directory, or -5 in an orphan item.
    pub fn lists(self, key: Key) -> bool
        ensures { result ≡ is_listed self key }
    {
        match self {
            TreeSort::File => self.has_kind(key.kind) && has_file_objectid(key),
            _ => self.has_kind(key.kind),
        }
    }
}

// Whether an item may have this objectid in a tree of files.
fn has_file_objectid(key: Key) -> bool
    ensures { result ≡ is_file_objectid key }
{
    is_free_id(key.objectid) || (key.kind == ORPHAN_ITEM && key.objectid == ORPHAN_OBJECTID)
}

/// The objectid -5, which orphan items have.
pub const ORPHAN_OBJECTID: u64 = 18_446_744_073_709_551_611;

/// The size of a sector in bytes, the only one that the profile has.
pub const SECTOR: u64 = 4096;

/// Whether a number is a multiple of a sector, which has 4096 bytes.
pub fn is_multiple(n: u64) -> bool
    ensures { result ≡ is_multiple n }
{
    n % SECTOR == 0
}

/// Whether an id is one of those from 256 to 2^64 - 256, which subvolumes, files and directories have.
pub fn is_free_id(id: u64) -> bool
    ensures { result ≡ is_free_id id }
{
    256 <= id && id <= 18_446_744_073_709_551_360
}

/// Whether a tree block may have this size in bytes.
pub fn is_node_size(size: u32) -> bool
    ensures { result ≡ is_node_size size }
{
    matches!(size, 4096 | 8192 | 16384 | 32768 | 65536)
}

// The compat_ro bit of block groups in a tree of their own.
const GROUP_TREE: u64 = 1 << 3;

/// Whether the block groups have a tree of their own, 11, and do not stand in that of the extents: bit 3 of the
/// superblock's compat_ro word.
pub fn has_group_tree(compat_ro: u64) -> bool
    ensures { result ≡ has_group_tree compat_ro }
{
    compat_ro & GROUP_TREE == GROUP_TREE
}

/// The place of an item, and what the superblock says that its readers ask for.
#[derive(Clone, Copy, Debug, PartialEq, Eq)]
pub struct At {
    /// The id of the tree.
    pub tree: u64,
    /// The sort of the tree.
    pub sort: TreeSort,
    /// The logical address of the leaf in bytes, 0 for a chunk of the system array.
    pub block: u64,
    /// The generation of the leaf's header.
    pub generation: u64,
    /// The size of a tree block in bytes.
    pub nodesize: u32,
    /// The id of the device.
    pub devid: u64,
    /// The superblock's set of features without which the image can not be read, a bit each.
    pub incompat: u64,
    /// The superblock's set of features without which the image can not be written, a bit each.
    pub compat_ro: u64,
}

impl At {
    /// The finding of a rule on the item with this key.
    pub fn finding(&self, key: Key, family: Family, number: u8, detail: u64) -> Finding
        ensures { result ≡ item_finding self.now key family number detail }
    {
        Finding {
            rule: Rule { family, number },
            tree: self.tree,
            block: self.block,
            key,
            detail,
        }
    }
}

/// A chunk: a range of logical addresses, and where its one or two copies begin on the device.
#[derive(Clone, Copy, Debug, PartialEq, Eq)]
pub struct Chunk {
    /// The logical address in bytes where it begins.
    pub start: u64,
    /// Its length in bytes, which is also that of each copy.
    pub length: u64,
    /// Its type, a bit each: 1 data, 2 system, 4 metadata, 32 dup.
    pub class: u64,
    /// The byte of the device where the first copy begins.
    pub first: u64,
    /// The byte of the device where the second copy begins, where there is one.
    pub second: Option<u64>,
}

/// Where a range of logical addresses stands on the device.
#[derive(Clone, Copy, Debug, PartialEq, Eq)]
pub enum Place {
    /// No chunk holds the range whole, or a copy passes the end of the device.
    Nowhere,
    /// The byte of the device where the only copy begins.
    One(u64),
    /// The bytes of the device where the two copies begin.
    Two(u64, u64),
}
