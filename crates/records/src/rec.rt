//! Records: what an item, a block or the superblock says, in the bytes that it was read from or in bytes of its own; and
//! the reader of any item, the one place that knows the kinds of items.

ghost use Rattle.std.specs.Prelude.{◌≡◌, ◌↔◌, IfOk, IsTrue};
ghost use Rattle.verdict.specs.Items.{item_finding};
ghost use Rattle.records.specs.Part.{IsLawful, located, owned_part, part_of};
ghost use Rattle.records.specs.Seen.{block_record};
ghost use Rattle.records.specs.Context.{sum_free_inode};
ghost use Rattle.records.specs.Reads.{Reads};
ghost use Rattle.records.specs.Item.{
  chunk_tree_record,
  device_tree_record,
  extent_tree_record,
  file_tree_record,
  groups_tree_record,
  inode_record,
  item_record,
  root_tree_record,
  sums_tree_record,
};

use crate::same::{same_chunk, same_entries, same_extent, same_names};
use extent_items::{ExtentItem, GroupItem, KeyedRef, read_extent, read_group, read_keyed};
use fs_items::{
    DirItem, FileExtent, InodeItem, InodeRef, Orphan, SumRun, Xattr, read_dir, read_file_extent,
    read_inode, read_inode_ref, read_orphan, read_sums, read_xattr,
};
use node_reader::Pointer;
use std::alloc::Global;
use verdict::kinds::{
    BLOCK_GROUP_ITEM, CHUNK_ITEM, DEV_EXTENT, DEV_ITEM, DIR_INDEX, DIR_ITEM, EXTENT_CSUM,
    EXTENT_DATA, EXTENT_DATA_REF, EXTENT_ITEM, INODE_EXTREF, INODE_ITEM, INODE_REF, METADATA_ITEM,
    ORPHAN_ITEM, PERSISTENT_ITEM, ROOT_BACKREF, ROOT_ITEM, ROOT_REF, SHARED_BLOCK_REF,
    SHARED_DATA_REF, TREE_BLOCK_REF, XATTR_ITEM,
};
use verdict::{At, Bytes, Family, Finding, Key, NoMemory, TreeSort};
use volume_items::{
    ChunkItem, DevExtent, DeviceItem, RootItem, RootLink, read_chunk, read_dev_extent, read_device,
    read_root, read_root_link,
};

/// What one item, block or superblock says, in the bytes that it was read from.
#[derive(Clone, Copy, Debug)]
pub enum Rec<'a> {
    /// A root item.
    RootItem(RootItem),
    /// The name of a subvolume, from one of its two sides.
    RootLink(RootLink<'a>),
    /// A device item.
    DeviceItem(DeviceItem),
    /// A chunk item.
    ChunkItem(ChunkItem<'a>),
    /// A range of the device that a chunk takes.
    DevExtent(DevExtent),
    /// An extent: file data or a tree block.
    ExtentItem(ExtentItem<'a>),
    /// A reference to an extent, with an item of its own.
    KeyedRef(KeyedRef),
    /// A block group.
    GroupItem(GroupItem),
    /// An inode.
    InodeItem(InodeItem),
    /// The names of a file in a directory.
    InodeRef(InodeRef<'a>),
    /// An extended attribute.
    Xattr(Xattr),
    /// An orphan: an inode that waits to be removed.
    Orphan(Orphan),
    /// The entries of a directory.
    DirItem(DirItem<'a>),
    /// A range of a file.
    FileExtent(FileExtent),
    /// Checksums of file data.
    SumRun(SumRun<'a>),
    /// An item that stays unread: its bytes.
    Unread(&'a [u8]),
    /// The superblock. No item is read as one.
    Super {
        /// The bytes that extents and tree blocks use.
        bytes_used: u64,
    },
    /// A block of a tree. No item is read as one.
    Block {
        /// Its logical address in bytes.
        address: u64,
        /// Its level, 0 for a leaf.
        level: u8,
    },
}

/// A record where it stands, as accounts see it.
#[derive(Clone, Copy, Debug)]
pub struct RecAt<'a> {
    /// The id of the tree, 0 for the superblock.
    pub tree: u64,
    /// The logical address in bytes of the block, and of an item of its leaf; 0 for the superblock.
    pub block: u64,
    /// The key of an item, (0, 0, 0) for a block and the superblock.
    pub key: Key,
    /// What it says.
    pub part: Rec<'a>,
}

/// A block where a walk came to it: what was expected of it but for its high key, and what its bytes say of their
/// owner and their first key.
#[derive(Clone, Copy, Debug)]
pub struct WalkedBlock {
    /// The id of the tree.
    pub tree: u64,
    /// The block's logical address in bytes.
    pub address: u64,
    /// Its level, 0 for a leaf.
    pub level: u8,
    /// The generation in which it was written.
    pub generation: u64,
    /// Its low key, or `None` for the root of a tree.
    pub low: Option<Key>,
    /// The logical address in bytes of the node above, 0 for the root of a tree.
    pub parent: u64,
    /// The id of the tree that its header names as the owner.
    pub owner: u64,
    /// The key of its first pointer or item, or `None` for an empty leaf.
    pub first: Option<Key>,
}

impl WalkedBlock {
    /// The block as accounts see it: its address and its level.
    pub fn record(&self) -> RecAt<'static>
        ensures { located result ≡ block_record self.now }
    {
        RecAt {
            tree: self.tree,
            block: self.address,
            key: Key::none(),
            part: Rec::Block {
                address: self.address,
                level: self.level,
            },
        }
    }
}

/// A pointer where a walk came to it.
#[derive(Clone, Copy, Debug)]
pub struct PointerAt {
    /// The id of the tree.
    pub tree: u64,
    /// The logical address in bytes of the node.
    pub block: u64,
    /// The node's level, which is above 0.
    pub level: u8,
    /// The pointer.
    pub pointer: Pointer,
}

/// What a walk gives of each block: the block, then a node's pointers or a leaf's items. The superblock's record is one
/// of the last sort, of no tree.
#[derive(Clone, Copy, Debug)]
pub enum Record<'a> {
    /// A block.
    Block(WalkedBlock),
    /// A pointer of a node.
    Pointer(PointerAt),
    /// An item of a leaf, or the superblock.
    Item(RecAt<'a>),
}

/// The flag of an inode whose data has no checksums.
const NODATASUM: u64 = 1;

impl<'a> RecAt<'a> {
    /// The tree and the number of the inode, where this is an inode item with the flag NODATASUM: the inode's
    /// data has no checksums.
    pub fn sum_free(&self) -> Option<(u64, u64)>
        ensures { result ≡ sum_free_inode (located self.now) }
    {
        match self.part {
            Rec::InodeItem(item) if item.flags & NODATASUM == NODATASUM => {
                Some((self.tree, item.key.objectid))
            }
            _ => None,
        }
    }
}

/// A record that owns its bytes. Its variants are those of [`Rec`].
#[derive(Debug, Drop)]
pub enum OwnedRec {
    /// A root item.
    RootItem(RootItem),
    /// The name of a subvolume, from one of its two sides.
    RootLink {
        /// The item's key.
        key: Key,
        /// The inode number of the directory that has the name.
        dirid: u64,
        /// The index of the name in that directory.
        sequence: u64,
        /// The name.
        name: Bytes,
    },
    /// A device item.
    DeviceItem(DeviceItem),
    /// A chunk item.
    ChunkItem {
        /// The item's key.
        key: Key,
        /// The chunk's length in bytes.
        length: u64,
        /// The chunk's type.
        class: u64,
        /// The bytes of the stripes.
        stripes: Bytes,
    },
    /// A range of the device that a chunk takes.
    DevExtent(DevExtent),
    /// An extent.
    ExtentItem {
        /// The item's key.
        key: Key,
        /// How often the extent is used.
        refs: u64,
        /// The generation in which the extent was allocated.
        generation: u64,
        /// The flags.
        flags: u64,
        /// The bytes of the references.
        references: Bytes,
    },
    /// A reference to an extent, with an item of its own.
    KeyedRef(KeyedRef),
    /// A block group.
    GroupItem(GroupItem),
    /// An inode.
    InodeItem(InodeItem),
    /// The names of a file in a directory.
    InodeRef {
        /// The item's key.
        key: Key,
        /// The item's bytes.
        bytes: Bytes,
    },
    /// An extended attribute.
    Xattr(Xattr),
    /// An orphan.
    Orphan(Orphan),
    /// The entries of a directory.
    DirItem {
        /// The item's key.
        key: Key,
        /// The item's bytes.
        bytes: Bytes,
    },
    /// A range of a file.
    FileExtent(FileExtent),
    /// Checksums of file data.
    SumRun {
        /// The item's key.
        key: Key,
        /// The bytes of the sums.
        sums: Bytes,
    },
    /// An item that stays unread: its bytes.
    Unread(Bytes),
    /// The superblock.
    Super {
        /// The bytes that extents and tree blocks use.
        bytes_used: u64,
    },
    /// A block of a tree.
    Block {
        /// Its logical address in bytes.
        address: u64,
        /// Its level, 0 for a leaf.
        level: u8,
    },
}

/// A record that owns its bytes, where it stands.
#[derive(Debug, Drop)]
pub struct ItemAt {
    /// The id of the tree.
    pub tree: u64,
    /// The logical address in bytes of the leaf.
    pub block: u64,
    /// The item's key.
    pub key: Key,
    /// What it says.
    pub part: OwnedRec,
}

impl<'a> Rec<'a> {
    /// A copy of the record that owns its bytes.
    pub fn to_owned(&self, alloc: Global) -> Result<OwnedRec, NoMemory>
        ensures { IfOk result (λ owned. owned_part owned ≡ part_of self.now) }
    {
        Ok(match *self {
            Rec::RootItem(item) => OwnedRec::RootItem(item),
            Rec::RootLink(item) => OwnedRec::RootLink {
                key: item.key,
                dirid: item.dirid,
                sequence: item.sequence,
                name: Bytes::of(alloc, item.name)?,
            },
            Rec::DeviceItem(item) => OwnedRec::DeviceItem(item),
            Rec::ChunkItem(item) => OwnedRec::ChunkItem {
                key: item.key,
                length: item.length,
                class: item.class,
                stripes: Bytes::of(alloc, item.stripes)?,
            },
            Rec::DevExtent(item) => OwnedRec::DevExtent(item),
            Rec::ExtentItem(item) => OwnedRec::ExtentItem {
                key: item.key,
                refs: item.refs,
                generation: item.generation,
                flags: item.flags,
                references: Bytes::of(alloc, item.references)?,
            },
            Rec::KeyedRef(item) => OwnedRec::KeyedRef(item),
            Rec::GroupItem(item) => OwnedRec::GroupItem(item),
            Rec::InodeItem(item) => OwnedRec::InodeItem(item),
            Rec::InodeRef(item) => OwnedRec::InodeRef {
                key: item.key,
                bytes: Bytes::of(alloc, item.bytes)?,
            },
            Rec::Xattr(item) => OwnedRec::Xattr(item),
            Rec::Orphan(item) => OwnedRec::Orphan(item),
            Rec::DirItem(item) => OwnedRec::DirItem {
                key: item.key,
                bytes: Bytes::of(alloc, item.bytes)?,
            },
            Rec::FileExtent(item) => OwnedRec::FileExtent(item),
            Rec::SumRun(item) => OwnedRec::SumRun {
                key: item.key,
                sums: Bytes::of(alloc, item.sums)?,
            },
            Rec::Unread(bytes) => OwnedRec::Unread(Bytes::of(alloc, bytes)?),
            Rec::Super { bytes_used } => OwnedRec::Super { bytes_used },
            Rec::Block { address, level } => OwnedRec::Block { address, level },
        })
    }
}

impl<'a> Rec<'a> {
    /// Whether two records say the same: the bytes that no reader looks at are not among it.
    pub fn says_the_same(self, other: Rec<'_>) -> bool
        ensures { IsTrue result ↔ (part_of self.entry ≡ part_of other.entry) }
    {
        match self {
            Rec::RootItem(item) => matches!(other, Rec::RootItem(its) if its == item),
            Rec::RootLink(item) => matches!(other, Rec::RootLink(its) if its == item),
            Rec::DeviceItem(item) => matches!(other, Rec::DeviceItem(its) if its == item),
            Rec::ChunkItem(item) => matches!(other, Rec::ChunkItem(its) if same_chunk(item, its)),
            Rec::DevExtent(item) => matches!(other, Rec::DevExtent(its) if its == item),
            Rec::ExtentItem(item) =>
                matches!(other, Rec::ExtentItem(its) if same_extent(item, its)),
            Rec::KeyedRef(item) => matches!(other, Rec::KeyedRef(its) if its == item),
            Rec::GroupItem(item) => matches!(other, Rec::GroupItem(its) if its == item),
            Rec::InodeItem(item) => matches!(other, Rec::InodeItem(its) if its == item),
            Rec::InodeRef(item) => matches!(other, Rec::InodeRef(its) if same_names(item, its)),
            Rec::Xattr(item) => matches!(other, Rec::Xattr(its) if its == item),
            Rec::Orphan(item) => matches!(other, Rec::Orphan(its) if its == item),
            Rec::DirItem(item) => matches!(other, Rec::DirItem(its) if same_entries(item, its)),
            Rec::FileExtent(item) => matches!(other, Rec::FileExtent(its) if its == item),
            Rec::SumRun(item) => matches!(other, Rec::SumRun(its) if its == item),
            Rec::Unread(bytes) => matches!(other, Rec::Unread(its) if its == bytes),
            Rec::Super { bytes_used } =>
                matches!(other, Rec::Super { bytes_used: its } if its == bytes_used),
            Rec::Block { address, level } => {
                matches!(other, Rec::Block { address: its, level: at } if its == address && at == level)
            }
        }
    }
}

impl OwnedRec {
    /// The same of two records that own their bytes.
    pub fn says_the_same(&self, other: &OwnedRec) -> bool
        ensures { IsTrue result ↔ (owned_part self.now ≡ owned_part other.now) }
    {
        self.lend().says_the_same(other.lend())
    }

    /// The record, lent: what was copied.
    pub fn lend(&self) -> Rec<'_>
        ensures { part_of result ≡ owned_part self.now }
    {
        match self {
            OwnedRec::RootItem(item) => Rec::RootItem(*item),
            OwnedRec::RootLink {
                key,
                dirid,
                sequence,
                name,
            } => Rec::RootLink(RootLink {
                key: *key,
                dirid: *dirid,
                sequence: *sequence,
                name: name.as_slice(),
            }),
            OwnedRec::DeviceItem(item) => Rec::DeviceItem(*item),
            OwnedRec::ChunkItem {
                key,
                length,
                class,
                stripes,
            } => Rec::ChunkItem(ChunkItem {
                key: *key,
                length: *length,
                class: *class,
                stripes: stripes.as_slice(),
            }),
            OwnedRec::DevExtent(item) => Rec::DevExtent(*item),
            OwnedRec::ExtentItem {
                key,
                refs,
                generation,
                flags,
                references,
            } => Rec::ExtentItem(ExtentItem {
                key: *key,
                refs: *refs,
                generation: *generation,
                flags: *flags,
                references: references.as_slice(),
            }),
            OwnedRec::KeyedRef(item) => Rec::KeyedRef(*item),
            OwnedRec::GroupItem(item) => Rec::GroupItem(*item),
            OwnedRec::InodeItem(item) => Rec::InodeItem(*item),
            OwnedRec::InodeRef { key, bytes } => Rec::InodeRef(InodeRef {
                key: *key,
                bytes: bytes.as_slice(),
            }),
            OwnedRec::Xattr(item) => Rec::Xattr(*item),
            OwnedRec::Orphan(item) => Rec::Orphan(*item),
            OwnedRec::DirItem { key, bytes } => Rec::DirItem(DirItem {
                key: *key,
                bytes: bytes.as_slice(),
            }),
            OwnedRec::FileExtent(item) => Rec::FileExtent(*item),
            OwnedRec::SumRun { key, sums } => Rec::SumRun(SumRun {
                key: *key,
                sums: sums.as_slice(),
            }),
            OwnedRec::Unread(bytes) => Rec::Unread(bytes.as_slice()),
            OwnedRec::Super { bytes_used } => Rec::Super {
                bytes_used: *bytes_used,
            },
            OwnedRec::Block { address, level } => Rec::Block {
                address: *address,
                level: *level,
            },
        }
    }
}

// ---- the reader

/// The record of the item with this key in these bytes, or the finding of the first rule of its kind that it
/// breaks. In the trees 8, 9 and 10 all items stay unread, in the root tree the kinds 1, 12 and 84, in the device
/// tree the kind 249. An item of a kind that its tree does not list is U9.
#[tactic(auto, unfolding(crate::specs::Item::item_record))]
pub fn read_item<'a>(at: &At, key: Key, bytes: &'a [u8]) -> Result<Rec<'a>, Finding>
    ensures row { Reads result (item_record at.now key bytes.now) }
    ensures lawful { IfOk result (λ one. IsLawful (part_of one)) }
{
    match at.sort {
        TreeSort::Root => in_root_tree(at, key, bytes),
        TreeSort::Extent => in_extent_tree(at, key, bytes),
        TreeSort::Chunk => in_chunk_tree(at, key, bytes),
        TreeSort::Device => in_device_tree(at, key, bytes),
        TreeSort::File => in_file_tree(at, key, bytes),
        TreeSort::Sums => in_sums_tree(at, key, bytes),
        TreeSort::Groups => in_groups_tree(at, key, bytes),
        TreeSort::Unread => Ok(Rec::Unread(bytes)),
    }
}

// The finding of an item that its tree does not list.
fn unlisted(at: &At, key: Key) -> Finding
    ensures { result ≡ item_finding at.now key Family.U 9 key.kind }
{
    at.finding(key, Family::U, 9, u64::from(key.kind))
}

// The record of an item of the root tree.
#[tactic(auto, unfolding(crate::specs::Item::root_tree_record))]
fn in_root_tree<'a>(at: &At, key: Key, bytes: &'a [u8]) -> Result<Rec<'a>, Finding>
    ensures row { Reads result (root_tree_record at.now key bytes.now) }
    ensures lawful { IfOk result (λ one. IsLawful (part_of one)) }
{
    match key.kind {
        ROOT_ITEM => Ok(Rec::RootItem(read_root(at, key, bytes)?)),
        ROOT_BACKREF | ROOT_REF => Ok(Rec::RootLink(read_root_link(at, key, bytes)?)),
        INODE_ITEM | INODE_REF | DIR_ITEM => Ok(Rec::Unread(bytes)),
        _ => Err(unlisted(at, key)),
    }
}

// The record of an item of the extent tree.
#[tactic(auto, unfolding(crate::specs::Item::extent_tree_record))]
fn in_extent_tree<'a>(at: &At, key: Key, bytes: &'a [u8]) -> Result<Rec<'a>, Finding>
    ensures row { Reads result (extent_tree_record at.now key bytes.now) }
    ensures lawful { IfOk result (λ one. IsLawful (part_of one)) }
{
    match key.kind {
        EXTENT_ITEM | METADATA_ITEM => Ok(Rec::ExtentItem(read_extent(at, key, bytes)?)),
        TREE_BLOCK_REF | EXTENT_DATA_REF | SHARED_BLOCK_REF | SHARED_DATA_REF => Ok(Rec::KeyedRef(
            read_keyed(at, key, bytes)?,
        )),
        BLOCK_GROUP_ITEM => Ok(Rec::GroupItem(read_group(at, key, bytes)?)),
        _ => Err(unlisted(at, key)),
    }
}

// The record of an item of the chunk tree.
#[tactic(auto, unfolding(crate::specs::Item::chunk_tree_record))]
fn in_chunk_tree<'a>(at: &At, key: Key, bytes: &'a [u8]) -> Result<Rec<'a>, Finding>
    ensures row { Reads result (chunk_tree_record at.now key bytes.now) }
    ensures lawful { IfOk result (λ one. IsLawful (part_of one)) }
{
    match key.kind {
        DEV_ITEM => Ok(Rec::DeviceItem(read_device(at, key, bytes)?)),
        CHUNK_ITEM => Ok(Rec::ChunkItem(read_chunk(at, key, bytes)?)),
        _ => Err(unlisted(at, key)),
    }
}

// The record of an item of the device tree.
#[tactic(auto, unfolding(crate::specs::Item::device_tree_record))]
fn in_device_tree<'a>(at: &At, key: Key, bytes: &'a [u8]) -> Result<Rec<'a>, Finding>
    ensures row { Reads result (device_tree_record at.now key bytes.now) }
    ensures lawful { IfOk result (λ one. IsLawful (part_of one)) }
{
    match key.kind {
        DEV_EXTENT => Ok(Rec::DevExtent(read_dev_extent(at, key, bytes)?)),
        PERSISTENT_ITEM => Ok(Rec::Unread(bytes)),
        _ => Err(unlisted(at, key)),
    }
}

// The record of an item of a tree of files.
#[tactic(auto, unfolding(crate::specs::Item::file_tree_record))]
fn in_file_tree<'a>(at: &At, key: Key, bytes: &'a [u8]) -> Result<Rec<'a>, Finding>
    ensures row { Reads result (file_tree_record at.now key bytes.now) }
    ensures lawful { IfOk result (λ one. IsLawful (part_of one)) }
{
    match key.kind {
        DIR_ITEM | DIR_INDEX => Ok(Rec::DirItem(read_dir(at, key, bytes)?)),
        EXTENT_DATA => Ok(Rec::FileExtent(read_file_extent(at, key, bytes)?)),
        _ => of_inode(at, key, bytes),
    }
}

// The record of an item of an inode by itself.
#[tactic(auto, unfolding(crate::specs::Item::inode_record))]
fn of_inode<'a>(at: &At, key: Key, bytes: &'a [u8]) -> Result<Rec<'a>, Finding>
    ensures row { Reads result (inode_record at.now key bytes.now) }
    ensures lawful { IfOk result (λ one. IsLawful (part_of one)) }
{
    match key.kind {
        INODE_ITEM => Ok(Rec::InodeItem(read_inode(at, key, bytes)?)),
        INODE_REF | INODE_EXTREF => Ok(Rec::InodeRef(read_inode_ref(at, key, bytes)?)),
        XATTR_ITEM => Ok(Rec::Xattr(read_xattr(at, key, bytes)?)),
        ORPHAN_ITEM => Ok(Rec::Orphan(read_orphan(at, key, bytes)?)),
        _ => Err(unlisted(at, key)),
    }
}

// The record of an item of the tree of checksums.
#[tactic(auto, unfolding(crate::specs::Item::sums_tree_record))]
fn in_sums_tree<'a>(at: &At, key: Key, bytes: &'a [u8]) -> Result<Rec<'a>, Finding>
    ensures row { Reads result (sums_tree_record at.now key bytes.now) }
    ensures lawful { IfOk result (λ one. IsLawful (part_of one)) }
{
    match key.kind {
        EXTENT_CSUM => Ok(Rec::SumRun(read_sums(at, key, bytes)?)),
        _ => Err(unlisted(at, key)),
    }
}

// The record of an item of the tree of block groups.
#[tactic(auto, unfolding(crate::specs::Item::groups_tree_record))]
fn in_groups_tree<'a>(at: &At, key: Key, bytes: &'a [u8]) -> Result<Rec<'a>, Finding>
    ensures row { Reads result (groups_tree_record at.now key bytes.now) }
    ensures lawful { IfOk result (λ one. IsLawful (part_of one)) }
{
    match key.kind {
        BLOCK_GROUP_ITEM => Ok(Rec::GroupItem(read_group(at, key, bytes)?)),
        _ => Err(unlisted(at, key)),
    }
}
