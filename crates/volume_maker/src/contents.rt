//! The items of each tree.

ghost use Rattle.std.specs.Prelude.{◌<◌, ◌^◌, string_len};

use crate::block::BlockAt;
use crate::item_bytes::{
    InodeAt, extent_bytes, extent_length, file_extent_bytes, inode_bytes, reference_bytes,
    root_link_bytes, sums_bytes,
};
use crate::items::Items;
use crate::kinds::*;
use crate::names::{Entry, directory_size, entries_of};
use crate::space::{NODESIZE, block_address, sector_address};
use crate::volume::{Extent, FileAt, Volume, inode_of};
use image_maker::{
    BASE_CHUNKS, LeafItem, dir_entry, extent_item_of_block, group_item, inode_ref_item, root_item,
};
use recon_crc::name_hash;
use std::alloc::Global;
use verdict::NoMemory;

/// How many references to an extent stand in its own item; further ones have items of their own.
const INLINE: usize = 4;

// The generation that commit k writes.
fn generation_of(commit: u32) -> u64 {
    u64::from(commit) + 1
}

// Adds the items of the top directory, whose names have so many bytes counted twice.
fn add_top(alloc: Global, items: &mut Items, size: u64) -> Result<(), NoMemory> {
    let top = InodeAt {
        generation: 1,
        size,
        nbytes: 16384,
        mode: 0o40755,
        flags: 0,
    };
    items.add(TOP, INODE_ITEM, 0, inode_bytes(alloc, &top)?)?;
    items.add(TOP, INODE_REF, TOP, inode_ref_item(alloc, 0, b"..")?)
}

/// The items of a tree of files that has nothing in its top directory.
pub fn empty_files(alloc: Global) -> Result<Vec<LeafItem>, NoMemory> {
    let mut items = Items::new(alloc);
    add_top(alloc, &mut items, 0)?;
    items.finish()
}

// Adds the items of a name.
fn add_entry(alloc: Global, items: &mut Items, entry: &Entry) -> Result<(), NoMemory> {
    let name = entry.name.as_bytes();
    let generation = generation_of(entry.commit);
    let by_hash = dir_entry(alloc, entry.location, generation, entry.sort, name)?;
    let by_index = dir_entry(alloc, entry.location, generation, entry.sort, name)?;
    items.add(entry.dir, DIR_ITEM, u64::from(name_hash(name)), by_hash)?;
    items.add(entry.dir, DIR_INDEX, generation, by_index)?;
    if entry.location.kind == INODE_ITEM {
        let link = inode_ref_item(alloc, generation, name)?;
        items.add(entry.location.objectid, INODE_REF, entry.dir, link)?;
    }
    Ok(())
}

// Adds the inode of a file, and its extent.
fn add_file(alloc: Global, items: &mut Items, file: &FileAt) -> Result<(), NoMemory> {
    let ino = inode_of(file.commit);
    let generation = generation_of(file.commit);
    let length = match &file.extent {
        Some(extent) => extent_length(extent),
        None => 0,
    };
    let inode = InodeAt {
        generation,
        size: length,
        nbytes: length,
        mode: 0o100644,
        flags: if file.sum_free { 1 } else { 0 },
    };
    items.add(ino, INODE_ITEM, 0, inode_bytes(alloc, &inode)?)?;
    if let Some(extent) = &file.extent {
        let bytes = file_extent_bytes(alloc, generation, extent)?;
        items.add(ino, EXTENT_DATA, 0, bytes)?;
    }
    Ok(())
}

/// The items of the file tree.
pub fn file_items(alloc: Global, volume: &Volume) -> Result<Vec<LeafItem>, NoMemory> {
    let mut items = Items::new(alloc);
    let entries = entries_of(alloc, volume)?;
    add_top(alloc, &mut items, directory_size(&entries, TOP))?;
    for commit in &volume.directories {
        let ino = inode_of(*commit);
        let inode = InodeAt {
            generation: generation_of(*commit),
            size: directory_size(&entries, ino),
            nbytes: 0,
            mode: 0o40755,
            flags: 0,
        };
        items.add(ino, INODE_ITEM, 0, inode_bytes(alloc, &inode)?)?;
    }
    for file in &volume.files {
        add_file(alloc, &mut items, file)?;
    }
    for entry in &entries {
        add_entry(alloc, &mut items, entry)?;
    }
    items.finish()
}

/// The items of the sums tree.
pub fn sum_items(alloc: Global, volume: &Volume) -> Result<Vec<LeafItem>, NoMemory> {
    let mut items = Items::new(alloc);
    for extent in &volume.extents {
        if let Some(sum) = extent.sum {
            let bytes = sums_bytes(alloc, sum, extent.sectors)?;
            items.add(
                SUMS_OBJECTID,
                EXTENT_CSUM,
                sector_address(extent.sector),
                bytes,
            )?;
        }
    }
    items.finish()
}

// The files that have an extent.
fn users_of(alloc: Global, volume: &Volume, extent: &Extent) -> Result<Vec<u64>, NoMemory> {
    let mut users = Vec::new(alloc);
    for file in &volume.files {
        if file.has(extent) {
            users.push(inode_of(file.commit))?;
        }
    }
    Ok(users)
}

// Adds the items of an extent: its own, and those of the references that do not stand in it.
fn add_extent(
    alloc: Global,
    items: &mut Items,
    volume: &Volume,
    extent: &Extent,
) -> Result<(), NoMemory> {
    let address = sector_address(extent.sector);
    let users = users_of(alloc, volume, extent)?;
    let (inline, keyed) = users.split_at(users.len().min(INLINE));
    let count = users.len() as u64;
    let bytes = extent_bytes(alloc, generation_of(extent.commit), count, inline)?;
    items.add(address, EXTENT_ITEM, extent_length(extent), bytes)?;
    for ino in keyed {
        let bytes = reference_bytes(alloc, *ino)?;
        items.add(address, EXTENT_DATA_REF, *ino, bytes)?;
    }
    Ok(())
}

/// How many bytes the extents have.
pub fn data_used(volume: &Volume) -> u64 {
    let mut used = 0u64;
    for extent in &volume.extents {
        used = used.saturating_add(extent_length(extent));
    }
    used
}

/// How many bytes so many tree blocks have.
pub fn metadata_used(blocks: usize) -> u64 {
    u64::from(NODESIZE).saturating_mul(blocks as u64)
}

/// The items of the extent tree, where these are the blocks of the metadata chunk.
pub fn extent_items(
    alloc: Global,
    volume: &Volume,
    blocks: &[BlockAt],
) -> Result<Vec<LeafItem>, NoMemory> {
    let mut items = Items::new(alloc);
    let used = [16384, metadata_used(blocks.len()), data_used(volume)];
    for (chunk, used) in BASE_CHUNKS.iter().zip(used.iter()) {
        let bytes = group_item(alloc, *used, chunk.class)?;
        items.add(chunk.start, BLOCK_GROUP_ITEM, chunk.length, bytes)?;
    }
    items.add(
        1_048_576,
        METADATA_ITEM,
        0,
        extent_item_of_block(alloc, 1, 3)?,
    )?;
    for block in blocks {
        let bytes = extent_item_of_block(alloc, block.generation, block.tree)?;
        let level = u64::from(block.level);
        items.add(block_address(block.number), METADATA_ITEM, level, bytes)?;
    }
    for extent in &volume.extents {
        add_extent(alloc, &mut items, volume, extent)?;
    }
    items.finish()
}

/// The items of the root tree, where these are the root blocks of all other trees.
pub fn root_items(
    alloc: Global,
    volume: &Volume,
    roots: &[BlockAt],
) -> Result<Vec<LeafItem>, NoMemory> {
    let mut items = Items::new(alloc);
    for root in roots {
        let dirid = if root.tree == FS_TREE || root.tree >= TOP {
            TOP
        } else {
            0
        };
        let address = block_address(root.number);
        let bytes = root_item(alloc, root.generation, dirid, address, root.level)?;
        items.add(root.tree, ROOT_ITEM, 0, bytes)?;
    }
    for entry in &entries_of(alloc, volume)? {
        if entry.location.kind == ROOT_ITEM {
            let (id, sequence) = (entry.location.objectid, generation_of(entry.commit));
            let there = root_link_bytes(alloc, sequence, entry.name.as_bytes())?;
            let back = root_link_bytes(alloc, sequence, entry.name.as_bytes())?;
            items.add(FS_TREE, ROOT_REF, id, there)?;
            items.add(id, ROOT_BACKREF, FS_TREE, back)?;
        }
    }
    items.finish()
}
