//! What the names of inodes and the entries of directories post.

ghost use Rattle.std.specs.Prelude.{◌≡◌, ◌==◌, [], ◌∷◌, flat_map, if◌then◌else◌};
ghost use Rattle.accounts.specs.Kinds as kinds;
ghost use Rattle.accounts.specs.declared.kinds.TheConstants.{LINK_ENTRIES, SUBVOLUME_ENTRIES};
ghost use Rattle.fs_items.specs.Lent.{dir_in, entry_fields, inode_ref_in, name_fields};
ghost use Rattle.records.specs.DirPostings.{dir_entry_postings, entry_posting, indexed_postings, is_root_name, link_postings, names_postings};
ghost use Rattle.accounts.specs.Lent.{to};

use crate::way::NameWay;
use accounts::kinds::{
    ENTRIES_BY_HASH, ENTRIES_BY_INDEX, LINK_ENTRIES, LINK_NAMES, SUBVOLUME_ENTRIES,
};
use accounts::{Account, NameAccount, Poster, Posting};
use fs_items::{DirEntry, DirItem, InodeRef, NameAt};
use recon_crc::name_hash;
use std::alloc::Global;
use verdict::kinds::{DIR_ITEM, INODE_ITEM, INODE_REF, ROOT_ITEM};
use verdict::{Key, NoMemory};

// Posts an amount to one sum of an account.
pub fn add<P: Poster>(
    account: Account,
    field: u8,
    amount: u64,
    into: &mut P,
) -> Result<(), NoMemory>
    ensures { P.Leaves into.old into.new result (to account field amount ∷ []) }
{
    into.put(Posting {
        account,
        field,
        amount,
    })
}

// The names of an inode, but for those of a tree's root directory, which no directory of the tree has.
pub fn post_names<P: Poster, W: NameWay<P>>(
    alloc: Global,
    way: &W,
    tree: u64,
    item: &InodeRef<'_>,
    into: &mut P,
) -> Result<(), NoMemory>
    ensures { P.Leaves into.old into.new result (names_postings tree (inode_ref_in item.now)) }
{
    if is_root_name(item.key) {
        return Ok(());
    }
    post_links(alloc, way, tree, item, into)
}

// Whether this is the key of the names of a tree's root directory, which no directory of the tree has.
fn is_root_name(key: Key) -> bool
    ensures { result ≡ is_root_name key }
{
    key.objectid == 256 && key.kind == INODE_REF && key.offset == 256
}

// The names of an inode.
fn post_links<P: Poster, W: NameWay<P>>(
    alloc: Global,
    way: &W,
    tree: u64,
    item: &InodeRef<'_>,
    into: &mut P,
) -> Result<(), NoMemory>
    ensures { P.Leaves into.old into.new result
        (flat_map (link_postings tree item.now.key.objectid) (inode_ref_in item.now).names) }
{
    for name in item.names() {
        way.put_link(alloc, tree, item.key.objectid, &name, into)?;
    }
    Ok(())
}

/// Posts a name of an inode of a tree, to the sum of those that the inode has.
pub fn post_link<P: Poster>(
    alloc: Global,
    tree: u64,
    ino: u64,
    name: &NameAt<'_>,
    into: &mut P,
) -> Result<(), NoMemory>
    ensures { P.Leaves into.old into.new result (link_postings tree ino (name_fields name.now)) }
{
    let link = NameAccount::Link {
        tree,
        ino,
        dir: name.parent,
        index: name.index,
        name: name.name,
    };
    into.put_name(alloc, &link, LINK_NAMES, 1)
}

// The entries of a directory.
pub fn post_entries<P: Poster, W: NameWay<P>>(
    alloc: Global,
    way: &W,
    tree: u64,
    item: &DirItem<'_>,
    into: &mut P,
) -> Result<(), NoMemory>
    ensures { P.Leaves into.old into.new result
        (flat_map (W.of_entry tree item.now.key) (dir_in item.now).entries) }
{
    for entry in item.entries() {
        way.put_entry(alloc, tree, item.key, &entry, into)?;
    }
    Ok(())
}

/// Posts an entry of a directory in the item with this key, to the sum of those by their hash or by their index; one
/// by its index besides to the link of the inode, or to the entry of the subvolume. Out of memory, a first part of the
/// postings may be handed on.
pub fn post_entry<P: Poster>(
    alloc: Global,
    tree: u64,
    key: Key,
    entry: &DirEntry<'_>,
    into: &mut P,
) -> Result<(), NoMemory>
    ensures { P.Leaves into.old into.new result
        (dir_entry_postings tree key (entry_fields entry.now)) }
{
    if key.kind == DIR_ITEM {
        post_name(alloc, tree, key.objectid, ENTRIES_BY_HASH, entry, into)
    } else {
        post_indexed(alloc, tree, key, entry, into)
    }
}

// The name of an entry of a directory, to the sum of those by their hash or by their index.
fn post_name<P: Poster>(
    alloc: Global,
    tree: u64,
    dir: u64,
    field: u8,
    entry: &DirEntry<'_>,
    into: &mut P,
) -> Result<(), NoMemory>
    ensures { P.Leaves into.old into.new result
        (entry_posting tree dir field (entry_fields entry.now) ∷ []) }
{
    let name = NameAccount::Entry {
        tree,
        dir,
        hash: name_hash(entry.name),
        location: entry.location,
        name: entry.name,
        sort: entry.sort,
    };
    into.put_name(alloc, &name, field, 1)
}

// The entry of a directory by its index.
fn post_indexed<P: Poster>(
    alloc: Global,
    tree: u64,
    key: Key,
    entry: &DirEntry<'_>,
    into: &mut P,
) -> Result<(), NoMemory>
    ensures { P.Leaves into.old into.new result
        (indexed_postings tree key.objectid key.offset (entry_fields entry.now)) }
{
    post_name(alloc, tree, key.objectid, ENTRIES_BY_INDEX, entry, into)?;
    post_target(alloc, tree, key, entry, into)
}

// Whose name an entry by its index is: of an inode of the same tree, or of a subvolume.
fn post_target<P: Poster>(
    alloc: Global,
    tree: u64,
    key: Key,
    entry: &DirEntry<'_>,
    into: &mut P,
) -> Result<(), NoMemory>
    ensures { let at = entry.now.location in let name = entry.now.name.now in
        P.Leaves into.old into.new result
        (if at.kind == INODE_ITEM then
        to (kinds.link tree at.objectid key.objectid key.offset name) LINK_ENTRIES 1 ∷ []
        else (if at.kind == ROOT_ITEM then
        to (kinds.subvolume_entry tree at.objectid key.objectid key.offset name)
        SUBVOLUME_ENTRIES 1 ∷ []
        else [])) }
{
    let (dir, index, target) = (key.objectid, key.offset, entry.location.objectid);
    match entry.location.kind {
        INODE_ITEM => {
            let link = NameAccount::Link {
                tree,
                ino: target,
                dir,
                index,
                name: entry.name,
            };
            into.put_name(alloc, &link, LINK_ENTRIES, 1)
        }
        ROOT_ITEM => {
            let account = Account::subvolume_entry(alloc, tree, target, dir, index, entry.name)?;
            add(account, SUBVOLUME_ENTRIES, 1, into)
        }
        _ => Ok(()),
    }
}
