//! The accounts, a kind each, in the order of their numbers: the number of a kind is that of the rule A that its sums have to
//! keep. The sums go by what they count, up to nine, from 0 on.

ghost use Rattle.std.specs.Prelude.{◌≡◌, [], IfOk};
ghost use Rattle.accounts.specs.Kinds as kinds;

use crate::{Account, Home};
use std::alloc::Global;
use verdict::kinds::{
    BLOCK_GROUP_ITEM, DEV_EXTENT, DEV_ITEM, DIR_ITEM, EXTENT_DATA_REF, INODE_ITEM, INODE_REF,
    ROOT_BACKREF, ROOT_ITEM, ROOT_REF, SHARED_BLOCK_REF, SHARED_DATA_REF, TREE_BLOCK_REF,
};
use verdict::trees::{CHUNK_TREE, DEV_TREE, EXTENT_TREE, ROOT_TREE};
use verdict::{Bytes, Key, NoMemory};

/// A1: references to a tree block, by a tree or by the block above.
pub const BLOCK_REF: u8 = 1;
/// A2: references to an extent of file data, by a file or by a leaf.
pub const DATA_REF: u8 = 2;
/// A3: an extent.
pub const EXTENT: u8 = 3;
/// A4: the form of an extent, its length or its level.
pub const EXTENT_FORM: u8 = 4;
/// A5: a sector.
pub const SECTOR: u8 = 5;
/// A6: a block group, and its chunk.
pub const GROUP: u8 = 6;
/// A7: an extent in a group of another class.
pub const GROUP_CLASS: u8 = 7;
/// A8: an extent outside every chunk.
pub const OUTSIDE: u8 = 8;
/// A9: an inode.
pub const INODE: u8 = 9;
/// A10: a type of an inode.
pub const INODE_TYPE: u8 = 10;
/// A11: a name in a directory.
pub const NAME_ENTRY: u8 = 11;
/// A12: a link, which is a name of an inode.
pub const LINK: u8 = 12;
/// A13: the entry of a subvolume in a directory.
pub const SUBVOLUME_ENTRY: u8 = 13;
/// A14: the name of a subvolume, from its parent and from itself.
pub const SUBVOLUME_PAIR: u8 = 14;
/// A15: a stripe of a chunk.
pub const STRIPE: u8 = 15;
/// A16: the bytes that all groups use.
pub const BYTES_USED: u8 = 16;
/// A17: the references to a subvolume.
pub const SUBVOLUME: u8 = 17;
/// A18: the bytes of a device that its ranges take.
pub const DEVICE: u8 = 18;

// ---- the sums

/// A1 and A2: the references that the extent tree has.
pub const REFERENCES: u8 = 0;
/// A1 and A2: the uses that there are.
pub const USES: u8 = 1;

/// A3: the items of the extent.
pub const EXTENT_ITEMS: u8 = 0;
/// A3: the references to it that its item says.
pub const EXTENT_REFS_SAID: u8 = 1;
/// A3: the references to it that there are.
pub const EXTENT_REFS_FOUND: u8 = 2;

/// A4: the items that say the form.
pub const FORM_ITEMS: u8 = 0;
/// A4: the uses that say the form.
pub const FORM_USES: u8 = 1;

/// A5: the extents that have the sector.
pub const SECTOR_EXTENTS: u8 = 0;
/// A5: the extents of file data that have it.
pub const SECTOR_DATA: u8 = 1;
/// A5: its checksums.
pub const SECTOR_SUMS: u8 = 2;
/// A5: the ranges of files that show it and want a checksum.
pub const SECTOR_SHOWN: u8 = 3;

/// A6: the items of the group.
pub const GROUP_ITEMS: u8 = 0;
/// A6: the chunks of the group.
pub const GROUP_CHUNKS: u8 = 1;
/// A6: the bytes that the group says it uses.
pub const GROUP_USED: u8 = 2;
/// A6: the bytes that its extents take.
pub const GROUP_TAKEN: u8 = 3;

/// A7: the extents in a group of another class.
pub const OTHER_CLASS: u8 = 0;

/// A8: the extents outside every chunk.
pub const OUTSIDE_CHUNKS: u8 = 0;

/// A9: the items of the inode.
pub const INODE_ITEMS: u8 = 0;
/// A9: what else is of the inode.
pub const INODE_OTHERS: u8 = 1;
/// A9: the links that its item says.
pub const INODE_LINKS: u8 = 2;
/// A9: its names.
pub const INODE_NAMES: u8 = 3;
/// A9: its orphan items.
pub const INODE_ORPHANS: u8 = 4;
/// A9: its size as a directory.
pub const DIR_SIZE: u8 = 5;
/// A9: the lengths of the names in it as a directory.
pub const DIR_NAMES: u8 = 6;
/// A9: the bytes that its item says its data takes.
pub const FILE_BYTES: u8 = 7;
/// A9: the bytes of the ranges of its data.
pub const FILE_RANGES: u8 = 8;

/// A10: the entries that say the type.
pub const TYPE_ENTRIES: u8 = 0;
/// A10: the items that say the type.
pub const TYPE_ITEMS: u8 = 1;

/// A11: the entries of the name by its hash.
pub const ENTRIES_BY_HASH: u8 = 0;
/// A11: the entries of the name by its index.
pub const ENTRIES_BY_INDEX: u8 = 1;

/// A12: the entries of the directory that are the link.
pub const LINK_ENTRIES: u8 = 0;
/// A12: the names of the inode that are the link.
pub const LINK_NAMES: u8 = 1;

/// A13: the names of the subvolume in the root tree.
pub const SUBVOLUME_REFS: u8 = 0;
/// A13: its entries in the directory.
pub const SUBVOLUME_ENTRIES: u8 = 1;

/// A14: the names from the parent.
pub const FROM_PARENT: u8 = 0;
/// A14: the names from the child.
pub const FROM_CHILD: u8 = 1;

/// A15: the stripes of the chunk.
pub const CHUNK_STRIPES: u8 = 0;
/// A15: the ranges of the device.
pub const DEVICE_RANGES: u8 = 1;

/// A16: the bytes that the superblock says are used.
pub const BYTES_SAID: u8 = 0;
/// A16: the bytes that the groups use.
pub const BYTES_IN_GROUPS: u8 = 1;

/// A17: the references that the subvolume's item says.
pub const ROOT_REFS_SAID: u8 = 0;
/// A17: the references that there are.
pub const ROOT_REFS_FOUND: u8 = 1;

/// A18: the bytes that the device says are taken.
pub const DEVICE_SAID: u8 = 0;
/// A18: the bytes of its ranges.
pub const DEVICE_TAKEN: u8 = 1;

// ---- what accounts are made of

// The key of three numbers.
fn key_by(objectid: u64, kind: u8, offset: u64) -> Key
    ensures { result ≡ kinds.key_by objectid kind offset }
{
    Key {
        objectid,
        kind,
        offset,
    }
}

// An account without a tail.
fn plain(alloc: Global, kind: u8, tree: u64, block: u64, key: Key, detail: u64) -> Account
    ensures { result ≡ kinds.plain kind tree block key detail }
{
    Account {
        kind,
        tree,
        block,
        key,
        detail,
        tail: Bytes::from(Vec::new(alloc)),
    }
}

// An account that is of no block, whose tail is a name.
fn named(
    alloc: Global,
    kind: u8,
    tree: u64,
    key: Key,
    detail: u64,
    name: &[u8],
) -> Result<Account, NoMemory>
    ensures { IfOk result (λ account. account ≡ kinds.named kind tree 0 key detail name.now) }
{
    Ok(Account {
        kind,
        tree,
        block: 0,
        key,
        detail,
        tail: Bytes::of(alloc, name)?,
    })
}

impl Account {
    /// A1: the tree with this root id refers to the tree block at a logical address.
    pub fn block_ref(alloc: Global, root: u64, address: u64) -> Account
        ensures { result ≡ kinds.block_ref root address }
    {
        plain(
            alloc,
            BLOCK_REF,
            root,
            address,
            key_by(address, TREE_BLOCK_REF, root),
            0,
        )
    }

    /// A1: the block at a logical address refers to the tree block at another.
    pub fn shared_block_ref(alloc: Global, parent: u64, address: u64) -> Account
        ensures { result ≡ kinds.shared_block_ref parent address }
    {
        plain(
            alloc,
            BLOCK_REF,
            0,
            address,
            key_by(address, SHARED_BLOCK_REF, parent),
            0,
        )
    }

    /// A2: an inode of the tree with this root id refers to the extent at a logical address, whose first byte would
    /// be the file's byte `origin`.
    pub fn data_ref(alloc: Global, root: u64, address: u64, ino: u64, origin: u64) -> Account
        ensures { result ≡ kinds.data_ref root address ino origin }
    {
        plain(
            alloc,
            DATA_REF,
            root,
            address,
            key_by(ino, EXTENT_DATA_REF, origin),
            0,
        )
    }

    /// A2: the leaf at a logical address refers to the extent at another.
    pub fn shared_data_ref(alloc: Global, parent: u64, address: u64) -> Account
        ensures { result ≡ kinds.shared_data_ref parent address }
    {
        plain(
            alloc,
            DATA_REF,
            0,
            address,
            key_by(parent, SHARED_DATA_REF, 0),
            0,
        )
    }

    /// A3: the extent at a logical address.
    pub fn extent(alloc: Global, address: u64) -> Account
        ensures { result ≡ kinds.extent address }
    {
        plain(alloc, EXTENT, EXTENT_TREE, address, Key::none(), 0)
    }

    /// A4: the form of the extent at a logical address: of kind 168 its length in bytes, of kind 169 its level.
    pub fn extent_form(alloc: Global, address: u64, kind: u8, form: u64) -> Account
        ensures { result ≡ kinds.extent_form address kind form }
    {
        plain(
            alloc,
            EXTENT_FORM,
            EXTENT_TREE,
            address,
            key_by(0, kind, form),
            0,
        )
    }

    /// A5: the sector at a logical address.
    pub fn sector(alloc: Global, address: u64) -> Account
        ensures { result ≡ kinds.sector address }
    {
        plain(alloc, SECTOR, 0, address, Key::none(), 0)
    }

    /// A6: the block group, and the chunk, from a logical address on with a length in bytes and a type.
    pub fn group(alloc: Global, start: u64, length: u64, class: u64) -> Account
        ensures { result ≡ kinds.group start length class }
    {
        plain(
            alloc,
            GROUP,
            0,
            0,
            key_by(start, BLOCK_GROUP_ITEM, length),
            class,
        )
    }

    /// A6: the group of a home.
    pub fn group_of(alloc: Global, home: &Home) -> Account
        ensures { result ≡ kinds.group_of home.now }
    {
        Account::group(alloc, home.start, home.length, home.class)
    }

    /// A7: the extent at a logical address, in a group of another class.
    pub fn group_class(alloc: Global, address: u64) -> Account
        ensures { result ≡ kinds.group_class address }
    {
        plain(alloc, GROUP_CLASS, EXTENT_TREE, address, Key::none(), 0)
    }

    /// A8: the extent at a logical address, outside every chunk.
    pub fn outside(alloc: Global, address: u64) -> Account
        ensures { result ≡ kinds.outside address }
    {
        plain(alloc, OUTSIDE, EXTENT_TREE, address, Key::none(), 0)
    }

    /// A9: an inode of a tree.
    pub fn inode(alloc: Global, tree: u64, ino: u64) -> Account
        ensures { result ≡ kinds.inode tree ino }
    {
        plain(alloc, INODE, tree, 0, key_by(ino, INODE_ITEM, 0), 0)
    }

    /// A10: a type of an inode, 1 regular file to 7 symbolic link.
    pub fn inode_type(alloc: Global, tree: u64, ino: u64, sort: u8) -> Account
        ensures { result ≡ kinds.inode_type tree ino sort }
    {
        plain(
            alloc,
            INODE_TYPE,
            tree,
            0,
            key_by(ino, INODE_ITEM, 0),
            u64::from(sort),
        )
    }

    /// A11: a name in a directory, with its hash: where it leads to, and the type of that.
    pub fn name_entry(
        alloc: Global,
        tree: u64,
        dir: u64,
        hash: u32,
        location: Key,
        name: &[u8],
        sort: u8,
    ) -> Result<Account, NoMemory>
        ensures { IfOk result (λ account.
            account ≡ kinds.name_entry tree dir hash location name.now sort) }
    {
        let mut tail = Bytes::of(alloc, name)?;
        tail.push(sort)?;
        tail.push(location.kind)?;
        Ok(Account {
            kind: NAME_ENTRY,
            tree,
            block: 0,
            key: key_by(dir, DIR_ITEM, u64::from(hash)),
            detail: location.objectid,
            tail,
        })
    }

    /// A12: a name of an inode, at an index of a directory.
    pub fn link(
        alloc: Global,
        tree: u64,
        ino: u64,
        dir: u64,
        index: u64,
        name: &[u8],
    ) -> Result<Account, NoMemory>
        ensures { IfOk result (λ account. account ≡ kinds.link tree ino dir index name.now) }
    {
        named(alloc, LINK, tree, key_by(ino, INODE_REF, dir), index, name)
    }

    /// A13: the name of the subvolume `child`, at an index of a directory of the tree `parent`.
    pub fn subvolume_entry(
        alloc: Global,
        parent: u64,
        child: u64,
        dir: u64,
        index: u64,
        name: &[u8],
    ) -> Result<Account, NoMemory>
        ensures { IfOk result (λ account.
            account ≡ kinds.subvolume_entry parent child dir index name.now) }
    {
        named(
            alloc,
            SUBVOLUME_ENTRY,
            parent,
            key_by(child, ROOT_REF, dir),
            index,
            name,
        )
    }

    /// A14: the same name, from the parent and from the child.
    pub fn subvolume_pair(
        alloc: Global,
        parent: u64,
        child: u64,
        dir: u64,
        index: u64,
        name: &[u8],
    ) -> Result<Account, NoMemory>
        ensures { IfOk result (λ account.
            account ≡ kinds.subvolume_pair parent child dir index name.now) }
    {
        named(
            alloc,
            SUBVOLUME_PAIR,
            parent,
            key_by(child, ROOT_BACKREF, dir),
            index,
            name,
        )
    }

    /// A15: a stripe of the chunk at a logical address, on a device from a physical offset on, of a length in bytes.
    pub fn stripe(alloc: Global, start: u64, devid: u64, physical: u64, length: u64) -> Account
        ensures { result ≡ kinds.stripe start devid physical length }
    {
        plain(
            alloc,
            STRIPE,
            DEV_TREE,
            start,
            key_by(devid, DEV_EXTENT, physical),
            length,
        )
    }

    /// A16: the bytes that all groups use.
    pub fn bytes_used(alloc: Global) -> Account
        ensures { result ≡ kinds.bytes_used }
    {
        plain(alloc, BYTES_USED, 0, 0, Key::none(), 0)
    }

    /// A17: the references to a subvolume.
    pub fn subvolume(alloc: Global, id: u64) -> Account
        ensures { result ≡ kinds.subvolume id }
    {
        plain(alloc, SUBVOLUME, ROOT_TREE, 0, key_by(id, ROOT_ITEM, 0), 0)
    }

    /// A18: the bytes of a device that its ranges take.
    pub fn device(alloc: Global, devid: u64) -> Account
        ensures { result ≡ kinds.device devid }
    {
        plain(alloc, DEVICE, CHUNK_TREE, 0, key_by(1, DEV_ITEM, devid), 0)
    }
}
