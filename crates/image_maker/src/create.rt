//! The writes that make an empty file in the base image.

ghost use Rattle.std.specs.Prelude.{◌≡◌, ◌+◌, ◌≤◌, [], ◌∷◌, ◌++◌, length, IfOk, OnOk};
ghost use Rattle.image_maker.specs.Leaf.{space_of};
ghost use Rattle.image_maker.specs.Maker.{items_of, nodesize_of, header_of};
ghost use Rattle.image_maker.specs.Create.{new_file_items, new_file_leaf, new_extent_leaf, new_root_leaf, write_at, create_events};

use crate::base::{CHUNKS, DATA, DEVICES, METADATA, SUMS, SYSTEM};
use crate::items::{dir_entry, inode_item, inode_ref_item};
use crate::leaf::LeafMaker;
use crate::leaf_item::LeafItem;
use crate::superblock::superblock_of;
use crate::trees::{ExtentRow, TreeBlock, add, add_top_directory, extent_tree, leaf_of, root_tree};
use recon_crc::name_hash;
use std::alloc::Global;
use verdict::kinds::{DIR_INDEX, DIR_ITEM, INODE_ITEM, INODE_REF};
use verdict::{Bytes, Event, Key, NoMemory};

// The three new blocks, of the file tree, the extent tree and the root tree.
const FILES: TreeBlock = TreeBlock {
    tree: 5,
    address: 5_324_800,
    generation: 2,
};

const EXTENTS: TreeBlock = TreeBlock {
    tree: 2,
    address: 5_341_184,
    generation: 2,
};

const ROOT: TreeBlock = TreeBlock {
    tree: 1,
    address: 5_357_568,
    generation: 2,
};

// The file tree's leaf with the file `hello` in the top directory, and with these items behind the file's.
#[tactic(auto, unfolding(crate::specs::Create::new_file_leaf, crate::specs::Trees::tree_leaf))]
fn files_with(alloc: Global, more: &[LeafItem]) -> Result<Bytes, NoMemory>
    ensures { IfOk result (λ b. space_of more.now ≤ 15716 → b ≡ new_file_leaf more.now) }
{
    let mut leaf = leaf_of(alloc, &FILES);
    add_file(alloc, &mut leaf)?;
    add_items(&mut leaf, more)?;
    leaf.finish()
}

// Appends the items of the top directory and of the file `hello` in it.
#[tactic(auto, using(crate::proofs::Sizes::file_sizes), unfolding(crate::specs::Create::new_file_items, crate::specs::Create::hello, crate::specs::Create::hello_entry))]
fn add_file(alloc: Global, leaf: &mut LeafMaker) -> Result<(), NoMemory>
    requires empty { items_of leaf.old ≡ [] }
    requires fits { 4096 ≤ nodesize_of leaf.old }
    ensures size { nodesize_of leaf.new ≡ nodesize_of leaf.old }
    ensures header { header_of leaf.new ≡ header_of leaf.old }
    ensures items { OnOk result (items_of leaf.new ≡ new_file_items) }
    ensures space { OnOk result (space_of (items_of leaf.new) ≡ 567) }
{
    add_top_directory(alloc, leaf, 10)?;
    let name = b"hello";
    let location = Key {
        objectid: 257,
        kind: 1,
        offset: 0,
    };
    let entry = dir_entry(alloc, location, 2, 1, name)?;
    add(leaf, 256, DIR_ITEM, u64::from(name_hash(name)), &entry)?;
    add(leaf, 256, DIR_INDEX, 2, &entry)?;
    let inode = inode_item(alloc, 2, 0, 0, 33188)?;
    add(leaf, 257, INODE_ITEM, 0, &inode)?;
    let link = inode_ref_item(alloc, 2, name)?;
    add(leaf, 257, INODE_REF, 256, &link)
}

// Appends items, each where it fits.
fn add_items(leaf: &mut LeafMaker, items: &[LeafItem]) -> Result<(), NoMemory>
    ensures size { nodesize_of leaf.new ≡ nodesize_of leaf.old }
    ensures header { header_of leaf.new ≡ header_of leaf.old }
    ensures items { OnOk result (
        101 + (space_of (items_of leaf.old) + space_of items.now) ≤ nodesize_of leaf.old
        → items_of leaf.new ≡ items_of leaf.old ++ items.now) }
{
    for item in items {
        leaf.push(item.key, item.bytes.as_slice())?;
    }
    Ok(())
}

// The extent tree's leaf.
#[tactic(auto, unfolding(crate::specs::Create::new_extent_leaf, crate::specs::Trees::extent_entry))]
fn extents(alloc: Global) -> Result<Bytes, NoMemory>
    ensures { IfOk result (λ b. b ≡ new_extent_leaf) }
{
    let rows = [
        ExtentRow::Block(CHUNKS),
        ExtentRow::Group(SYSTEM, 16384),
        ExtentRow::Group(METADATA, 81920),
        ExtentRow::Block(DEVICES),
        ExtentRow::Block(SUMS),
        ExtentRow::Block(FILES),
        ExtentRow::Block(EXTENTS),
        ExtentRow::Block(ROOT),
        ExtentRow::Group(DATA, 0),
    ];
    extent_tree(alloc, &EXTENTS, &rows)
}

// The root tree's leaf.
#[tactic(auto, unfolding(crate::specs::Create::new_root_leaf))]
fn roots(alloc: Global) -> Result<Bytes, NoMemory>
    ensures { IfOk result (λ b. b ≡ new_root_leaf) }
{
    root_tree(alloc, &ROOT, &[EXTENTS, DEVICES, FILES, SUMS])
}

// Appends a write of a copy of these bytes.
fn add_write(alloc: Global, events: &mut Vec<Event>, at: u64, bytes: &[u8]) -> Result<(), NoMemory>
    ensures { OnOk result (events.new.items ≡ events.old.items ++ write_at at bytes.now ∷ []) }
{
    let write = Event::Write {
        submitter: 0,
        at,
        bytes: Bytes::of(alloc, bytes)?,
    };
    Ok(events.push(write)?)
}

/// The writes that make an empty file `hello` in the top directory of the base image, as one commit of
/// generation 2: three new blocks, their second copies, and the superblock.
pub fn create_writes(alloc: Global) -> Result<Vec<Event>, NoMemory>
    ensures { IfOk result (λ events. events.items ≡ create_events []) }
{
    create_writes_with(alloc, &[])
}

/// The same writes with further items behind those of the file, the inode 257, in the file tree's leaf.
/// They fit where their bytes and 25 for each of them come to 15,716 at most.
#[tactic(auto, unfolding(crate::specs::Create::create_events))]
pub fn create_writes_with(alloc: Global, more: &[LeafItem]) -> Result<Vec<Event>, NoMemory>
    ensures { IfOk result (λ events.
        space_of more.now ≤ 15716 → events.items ≡ create_events more.now) }
{
    let files = files_with(alloc, more)?;
    let extents = extents(alloc)?;
    let roots = roots(alloc)?;
    let mut events = Vec::new(alloc);
    add_write(alloc, &mut events, 5_324_800, files.as_slice())?;
    add_write(alloc, &mut events, 5_341_184, extents.as_slice())?;
    add_write(alloc, &mut events, 5_357_568, roots.as_slice())?;
    add_write(alloc, &mut events, 13_713_408, files.as_slice())?;
    add_write(alloc, &mut events, 13_729_792, extents.as_slice())?;
    add_write(alloc, &mut events, 13_746_176, roots.as_slice())?;
    add_write(alloc, &mut events, 65536, &superblock_of(2, ROOT.address))?;
    Ok(events)
}
