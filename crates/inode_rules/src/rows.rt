//! What records of a kind each post.

ghost use Rattle.std.specs.Prelude.{◌≡◌, [], ◌∷◌, flat_map, length};
ghost use Rattle.accounts.specs.Kinds as kinds;
ghost use Rattle.accounts.specs.declared.kinds.TheConstants.{INODE_NAMES, INODE_OTHERS};
ghost use Rattle.records.specs.InodePostings.{data_postings, inode_entry_postings, inode_item_postings, inode_name_postings, size_postings, target_postings, type_of_mode, own_entry_postings};
ghost use Rattle.fs_items.specs.Lent.{dir_in, entry_fields, inode_ref_in};
ghost use Rattle.accounts.specs.Lent.{to};

use accounts::Poster;
use accounts::kinds::{
    DIR_NAMES, DIR_SIZE, FILE_BYTES, FILE_RANGES, INODE_ITEMS, INODE_LINKS, INODE_NAMES,
    INODE_OTHERS,
};
use fs_items::{DirEntry, DirItem, FileExtent, INLINE, InodeItem, InodeRef};
use std::alloc::Global;
use verdict::NoMemory;
use verdict::kinds::INODE_ITEM;

// The address of the extent of a hole.
const HOLE: u64 = 0;

// A range of a file's data: it is of the inode, and takes bytes unless it is a hole.
pub fn post_file_extent<P: Poster>(
    alloc: Global,
    tree: u64,
    range: &FileExtent,
    into: &mut P,
) -> Result<(), NoMemory>
    ensures { let inode = kinds.inode tree range.now.key.objectid in
        P.Leaves into.old into.new result (to inode INODE_OTHERS 1 ∷ data_postings tree range.now) }
{
    into.put_inode(alloc, tree, range.key.objectid, INODE_OTHERS, 1)?;
    post_data(alloc, tree, range, into)
}

// The bytes of a file's data that a range of it takes.
fn post_data<P: Poster>(
    alloc: Global,
    tree: u64,
    range: &FileExtent,
    into: &mut P,
) -> Result<(), NoMemory>
    ensures { P.Leaves into.old into.new result (data_postings tree range.now) }
{
    let ino = range.key.objectid;
    if range.sort == INLINE {
        into.put_inode(alloc, tree, ino, FILE_RANGES, range.ram_bytes)
    } else if range.extent == HOLE {
        Ok(())
    } else {
        into.put_inode(alloc, tree, ino, FILE_RANGES, range.length)
    }
}

// An inode's item: it is there, with its links, its size or its bytes, and its type.
pub fn post_inode<P: Poster>(
    alloc: Global,
    tree: u64,
    item: &InodeItem,
    into: &mut P,
) -> Result<(), NoMemory>
    ensures { P.Leaves into.old into.new result (inode_item_postings tree item.now) }
{
    let ino = item.key.objectid;
    let sort = type_of_mode(item.mode);
    into.put_inode(alloc, tree, ino, INODE_ITEMS, 1)?;
    into.put_inode(alloc, tree, ino, INODE_LINKS, u64::from(item.nlink))?;
    post_size(alloc, tree, item, into)?;
    into.put_typed(alloc, tree, ino, sort)
}

// The size of a directory, or the bytes that a regular file's or a symbolic link's data takes.
fn post_size<P: Poster>(
    alloc: Global,
    tree: u64,
    item: &InodeItem,
    into: &mut P,
) -> Result<(), NoMemory>
    ensures { P.Leaves into.old into.new result (size_postings tree item.now) }
{
    let ino = item.key.objectid;
    match type_of_mode(item.mode) {
        2 => into.put_inode(alloc, tree, ino, DIR_SIZE, item.size),
        1 | 7 => into.put_inode(alloc, tree, ino, FILE_BYTES, item.nbytes),
        _ => Ok(()),
    }
}

/// The type that a mode's type bits say, as directory entries number the types; 0 for bits that no inode has.
pub fn type_of_mode(mode: u32) -> u8
    ensures { result ≡ type_of_mode mode }
{
    match mode & 0o170000 {
        0o100000 => 1,
        0o040000 => 2,
        0o020000 => 3,
        0o060000 => 4,
        0o010000 => 5,
        0o140000 => 6,
        0o120000 => 7,
        _ => 0,
    }
}

// The names of an inode.
pub fn post_names<P: Poster>(
    alloc: Global,
    tree: u64,
    item: &InodeRef<'_>,
    into: &mut P,
) -> Result<(), NoMemory>
    ensures { P.Leaves into.old into.new result
        (flat_map (inode_name_postings tree item.now.key.objectid) (inode_ref_in item.now).names) }
{
    for _name in item.names() {
        post_link(alloc, tree, item.key.objectid, into)?;
    }
    Ok(())
}

// A name of an inode: it is of the inode, and is one of its links.
fn post_link<P: Poster>(alloc: Global, tree: u64, ino: u64, into: &mut P) -> Result<(), NoMemory>
    ensures { let inode = kinds.inode tree ino in
        P.Leaves into.old into.new result (to inode INODE_OTHERS 1 ∷ to inode INODE_NAMES 1 ∷ []) }
{
    into.put_inode(alloc, tree, ino, INODE_OTHERS, 1)?;
    into.put_inode(alloc, tree, ino, INODE_NAMES, 1)
}

// The entries of a directory.
pub fn post_entries<P: Poster>(
    alloc: Global,
    tree: u64,
    item: &DirItem<'_>,
    into: &mut P,
) -> Result<(), NoMemory>
    ensures { P.Leaves into.old into.new result
        (flat_map (inode_entry_postings tree item.now.key.objectid) (dir_in item.now).entries) }
{
    for entry in item.entries() {
        post_entry(alloc, tree, item.key.objectid, &entry, into)?;
    }
    Ok(())
}

// An entry of a directory: what it says of the directory, and it leads somewhere.
fn post_entry<P: Poster>(
    alloc: Global,
    tree: u64,
    dir: u64,
    entry: &DirEntry<'_>,
    into: &mut P,
) -> Result<(), NoMemory>
    ensures { P.Leaves into.old into.new result
        (inode_entry_postings tree dir (entry_fields entry.now)) }
{
    post_own_entry(alloc, tree, dir, entry, into)?;
    post_target(alloc, tree, entry, into)
}

// The entries of a directory, but for what they lead to.
pub fn post_own_entries<P: Poster>(
    alloc: Global,
    tree: u64,
    item: &DirItem<'_>,
    into: &mut P,
) -> Result<(), NoMemory>
    ensures { P.Leaves into.old into.new result
        (flat_map (own_entry_postings tree item.now.key.objectid) (dir_in item.now).entries) }
{
    for entry in item.entries() {
        post_own_entry(alloc, tree, item.key.objectid, &entry, into)?;
    }
    Ok(())
}

// An entry of a directory: it is of the directory, and its name counts in the directory's size.
fn post_own_entry<P: Poster>(
    alloc: Global,
    tree: u64,
    dir: u64,
    entry: &DirEntry<'_>,
    into: &mut P,
) -> Result<(), NoMemory>
    ensures { P.Leaves into.old into.new result
        (own_entry_postings tree dir (entry_fields entry.now)) }
{
    let size = entry.name.len() as u64;
    into.put_inode(alloc, tree, dir, INODE_OTHERS, 1)?;
    into.put_inode(alloc, tree, dir, DIR_NAMES, size)
}

// What an entry leads to, where that is an inode of the same tree: it is there, and of the entry's type.
fn post_target<P: Poster>(
    alloc: Global,
    tree: u64,
    entry: &DirEntry<'_>,
    into: &mut P,
) -> Result<(), NoMemory>
    ensures { P.Leaves into.old into.new result (target_postings tree (entry_fields entry.now)) }
{
    match entry.location.kind {
        INODE_ITEM => into.put_target(alloc, tree, entry.location.objectid, entry.sort),
        _ => Ok(()),
    }
}
