//! Measures the pairing of changed items: two lists of COUNT items of one tree, inodes and directory entries in turn,
//! each of which differs between the lists, are paired ROUNDS times. The words are `COUNT ROUNDS`. Prints the number
//! of changes of all rounds.

use change_records::pair;
use fs_items::InodeItem;
use image_maker::dir_entry;
use records::{ItemAt, OwnedRec};
use std::alloc::Global;
use std::io;
use verdict::{Bytes, Key, NoMemory};

/// Finds what changed among `count` items so many times.
pub fn measure(rt: &HostRuntime, count: u64, rounds: u64) -> io::Result<()> {
    match changes(rt.alloc(), count, rounds) {
        Ok(changes) => println!(rt; "{changes}"),
        Err(_) => println!(rt; "no memory"),
    }
}

/// The number of changes of all rounds.
fn changes(alloc: Global, count: u64, rounds: u64) -> Result<usize, NoMemory> {
    let old = items(alloc, count, 1)?;
    let new = items(alloc, count, 2)?;
    let mut sum = 0usize;
    for _ in 0..rounds {
        sum = sum.wrapping_add(pair(alloc, &old, &new)?.len());
    }
    Ok(sum)
}

/// The first `count` items with something in each that is `other`.
fn items(alloc: Global, count: u64, other: u8) -> Result<Vec<ItemAt>, NoMemory> {
    let mut items = Vec::new(alloc);
    for index in 0..count {
        if items.push(item(alloc, index, other)?).is_err() {
            return Err(NoMemory);
        }
    }
    Ok(items)
}

/// The item with this number.
fn item(alloc: Global, index: u64, other: u8) -> Result<ItemAt, NoMemory> {
    let kind = if index % 2 == 0 { 1 } else { 96 };
    let key = Key {
        objectid: index,
        kind,
        offset: 0,
    };
    let part = if kind == 1 {
        inode(key, other)
    } else {
        entry(alloc, key, other)?
    };
    Ok(ItemAt {
        tree: 5,
        block: u64::from(other),
        key,
        part,
    })
}

fn inode(key: Key, other: u8) -> OwnedRec {
    OwnedRec::InodeItem(InodeItem {
        key,
        size: u64::from(other),
        nbytes: 0,
        nlink: 1,
        mode: 0o100644,
        flags: 0,
    })
}

/// A directory entry with a name of 20 bytes.
fn entry(alloc: Global, key: Key, other: u8) -> Result<OwnedRec, NoMemory> {
    let mut name = [97; 20];
    name[19] = other;
    let bytes = dir_entry(alloc, key, 0, 1, &name)?;
    let bytes = Bytes::of(alloc, bytes.as_slice())?;
    Ok(OwnedRec::DirItem { key, bytes })
}
