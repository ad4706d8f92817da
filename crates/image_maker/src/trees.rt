//! The leaves of the trees of the made images.

ghost use Rattle.std.specs.Prelude.{◌≡◌, ◌+◌, ◌*◌, ◌≤◌, [], ◌∷◌, ◌++◌, length, map, IfOk, OnOk};
ghost use Rattle.image_maker.specs.Leaf.{space_of};
ghost use Rattle.image_maker.specs.Maker.{items_of, nodesize_of, header_of};
ghost use Rattle.image_maker.specs.Trees.{entry, root_entry, metadata_entry, group_entry, extent_entry, chunk_entry, dev_extent_entry, directory_inode, directory_ref, block_header, tree_leaf};

use crate::block::FSID;
use crate::items::{
    ChunkAt, chunk_item, dev_extent_item, extent_item_of_block, group_item, inode_item,
    inode_ref_item, root_item,
};
use crate::leaf::LeafMaker;
use std::alloc::Global;
use verdict::kinds::{
    BLOCK_GROUP_ITEM, CHUNK_ITEM, DEV_EXTENT, INODE_ITEM, INODE_REF, METADATA_ITEM, ROOT_ITEM,
};
use verdict::{Bytes, Key, NoMemory};

/// The size of the tree blocks of the made images in bytes.
pub const NODESIZE: u32 = 16384;

/// A tree's one block.
#[derive(Clone, Copy, Debug, PartialEq, Eq)]
pub struct TreeBlock {
    /// The tree.
    pub tree: u64,
    /// The block's logical address in bytes.
    pub address: u64,
    /// The block's generation.
    pub generation: u64,
}

/// An item of an extent tree.
#[derive(Clone, Copy)]
pub enum ExtentRow {
    /// The METADATA_ITEM of a block.
    Block(TreeBlock),
    /// The BLOCK_GROUP_ITEM of a chunk, with its used bytes.
    Group(ChunkAt, u64),
}

/// An empty leaf that is to be the one block of a tree.
#[tactic(auto, unfolding(crate::specs::Ids::fsid))]
pub fn leaf_of(alloc: Global, block: &TreeBlock) -> LeafMaker
    ensures empty { items_of result ≡ [] }
    ensures size { nodesize_of result ≡ 16384 }
    ensures header { header_of result ≡ block_header block.now }
{
    LeafMaker::new(
        alloc,
        NODESIZE,
        &FSID,
        block.address,
        block.tree,
        block.generation,
    )
}

/// Appends an item that fits.
#[tactic(auto, using(crate::proofs::Space::space_after_item))]
pub fn add(
    leaf: &mut LeafMaker,
    objectid: u64,
    kind: u8,
    offset: u64,
    bytes: &Bytes,
) -> Result<(), NoMemory>
    requires fits { 126 + space_of (items_of leaf.old) + length bytes.now ≤ nodesize_of leaf.old }
    ensures size { nodesize_of leaf.new ≡ nodesize_of leaf.old }
    ensures header { header_of leaf.new ≡ header_of leaf.old }
    ensures items { OnOk result (items_of leaf.new
        ≡ items_of leaf.old ++ entry objectid kind offset bytes.now ∷ []) }
    ensures space { OnOk result (space_of (items_of leaf.new)
        ≡ 25 + length bytes.now + space_of (items_of leaf.old)) }
{
    let key = Key {
        objectid,
        kind,
        offset,
    };
    leaf.push(key, bytes.as_slice())?;
    Ok(())
}

/// The root tree's leaf, with the root items of these trees, which ascend.
#[tactic(auto, unfolding(crate::specs::Trees::tree_leaf))]
pub fn root_tree(alloc: Global, at: &TreeBlock, trees: &[TreeBlock]) -> Result<Bytes, NoMemory>
    requires { length trees.now ≤ 16 }
    ensures exact { IfOk result (λ b. b ≡ tree_leaf at.now (map root_entry trees.now)) }
    ensures long { IfOk result (λ b. length b ≡ 16384) }
{
    let mut leaf = leaf_of(alloc, at);
    add_roots(alloc, &mut leaf, trees)?;
    leaf.finish()
}

// Appends the root items of these trees.
#[tactic(auto, using(crate::proofs::Rows::root_rows))]
fn add_roots(alloc: Global, leaf: &mut LeafMaker, trees: &[TreeBlock]) -> Result<(), NoMemory>
    requires fits { 101 + space_of (items_of leaf.old) + 464 * length trees.now
        ≤ nodesize_of leaf.old }
    ensures size { nodesize_of leaf.new ≡ nodesize_of leaf.old }
    ensures header { header_of leaf.new ≡ header_of leaf.old }
    ensures items { OnOk result (items_of leaf.new
        ≡ items_of leaf.old ++ map root_entry trees.now) }
    ensures space { OnOk result (space_of (items_of leaf.new)
        ≡ space_of (items_of leaf.old) + 464 * length trees.now) }
{
    for block in trees {
        add_root(alloc, leaf, block)?;
    }
    Ok(())
}

/// Appends the root item of a tree.
#[tactic(auto, using(crate::proofs::Sizes::length_root), unfolding(crate::specs::Trees::root_entry))]
pub fn add_root(alloc: Global, leaf: &mut LeafMaker, block: &TreeBlock) -> Result<(), NoMemory>
    requires fits { 565 + space_of (items_of leaf.old) ≤ nodesize_of leaf.old }
    ensures size { nodesize_of leaf.new ≡ nodesize_of leaf.old }
    ensures header { header_of leaf.new ≡ header_of leaf.old }
    ensures items { OnOk result (items_of leaf.new
        ≡ items_of leaf.old ++ root_entry block.now ∷ []) }
    ensures space { OnOk result (space_of (items_of leaf.new)
        ≡ space_of (items_of leaf.old) + 464) }
{
    let dirid = if block.tree == 5 { 256 } else { 0 };
    let item = root_item(alloc, block.generation, dirid, block.address, 0)?;
    add(leaf, block.tree, ROOT_ITEM, 0, &item)
}

/// The extent tree's leaf, with the items of these rows, which ascend.
#[tactic(auto, using(crate::proofs::Rows::extent_rows), unfolding(crate::specs::Trees::tree_leaf))]
pub fn extent_tree(alloc: Global, at: &TreeBlock, rows: &[ExtentRow]) -> Result<Bytes, NoMemory>
    requires { length rows.now ≤ 128 }
    ensures exact { IfOk result (λ b. b ≡ tree_leaf at.now (map extent_entry rows.now)) }
    ensures long { IfOk result (λ b. length b ≡ 16384) }
{
    let mut leaf = leaf_of(alloc, at);
    for row in rows {
        add_extent(alloc, &mut leaf, row)?;
    }
    leaf.finish()
}

// Appends the item of a row.
#[tactic(auto, using(crate::proofs::Sizes::length_metadata, crate::proofs::Sizes::length_group), unfolding(crate::specs::Trees::extent_entry, crate::specs::Trees::metadata_entry, crate::specs::Trees::group_entry))]
fn add_extent(alloc: Global, leaf: &mut LeafMaker, row: &ExtentRow) -> Result<(), NoMemory>
    requires fits { 159 + space_of (items_of leaf.old) ≤ nodesize_of leaf.old }
    ensures size { nodesize_of leaf.new ≡ nodesize_of leaf.old }
    ensures header { header_of leaf.new ≡ header_of leaf.old }
    ensures items { OnOk result (items_of leaf.new
        ≡ items_of leaf.old ++ extent_entry row.now ∷ []) }
    ensures space { OnOk result (space_of (items_of leaf.new)
        ≤ space_of (items_of leaf.old) + 58) }
{
    match row {
        ExtentRow::Block(block) => {
            let item = extent_item_of_block(alloc, block.generation, block.tree)?;
            add(leaf, block.address, METADATA_ITEM, 0, &item)
        },
        ExtentRow::Group(chunk, used) => {
            let item = group_item(alloc, *used, chunk.class)?;
            add(leaf, chunk.start, BLOCK_GROUP_ITEM, chunk.length, &item)
        },
    }
}

/// Appends the CHUNK_ITEM of a chunk.
#[tactic(auto, using(crate::proofs::Sizes::length_chunk), unfolding(crate::specs::Trees::chunk_entry))]
pub fn add_chunk(alloc: Global, leaf: &mut LeafMaker, chunk: &ChunkAt) -> Result<(), NoMemory>
    requires fits { 238 + space_of (items_of leaf.old) ≤ nodesize_of leaf.old }
    ensures size { nodesize_of leaf.new ≡ nodesize_of leaf.old }
    ensures header { header_of leaf.new ≡ header_of leaf.old }
    ensures items { OnOk result (items_of leaf.new
        ≡ items_of leaf.old ++ chunk_entry chunk.now ∷ []) }
    ensures space { OnOk result (space_of (items_of leaf.new)
        ≤ space_of (items_of leaf.old) + 137) }
{
    let item = chunk_item(alloc, chunk)?;
    add(leaf, 256, CHUNK_ITEM, chunk.start, &item)
}

/// Appends the DEV_EXTENT of a chunk's stripe at a device offset.
#[tactic(auto, using(crate::proofs::Sizes::length_dev_extent), unfolding(crate::specs::Trees::dev_extent_entry))]
pub fn add_dev_extent(
    alloc: Global,
    leaf: &mut LeafMaker,
    chunk: &ChunkAt,
    physical: u64,
) -> Result<(), NoMemory>
    requires fits { 174 + space_of (items_of leaf.old) ≤ nodesize_of leaf.old }
    ensures size { nodesize_of leaf.new ≡ nodesize_of leaf.old }
    ensures header { header_of leaf.new ≡ header_of leaf.old }
    ensures items { OnOk result (items_of leaf.new
        ≡ items_of leaf.old ++ dev_extent_entry chunk.now physical ∷ []) }
    ensures space { OnOk result (space_of (items_of leaf.new)
        ≡ space_of (items_of leaf.old) + 73) }
{
    let item = dev_extent_item(alloc, chunk)?;
    add(leaf, 1, DEV_EXTENT, physical, &item)
}

/// Appends the top directory's INODE_ITEM, with names of so many bytes in it, and its INODE_REF.
#[tactic(auto, using(crate::proofs::Sizes::directory_sizes), unfolding(crate::specs::Trees::directory_inode, crate::specs::Trees::directory_ref))]
pub fn add_top_directory(alloc: Global, leaf: &mut LeafMaker, size: u64) -> Result<(), NoMemory>
    requires fits { 400 + space_of (items_of leaf.old) ≤ nodesize_of leaf.old }
    ensures size { nodesize_of leaf.new ≡ nodesize_of leaf.old }
    ensures header { header_of leaf.new ≡ header_of leaf.old }
    ensures items { OnOk result (items_of leaf.new
        ≡ items_of leaf.old ++ directory_inode size ∷ [] ++ directory_ref ∷ []) }
    ensures space { OnOk result (space_of (items_of leaf.new)
        ≡ space_of (items_of leaf.old) + 222) }
{
    let inode = inode_item(alloc, 1, size, 16384, 16877)?;
    add(leaf, 256, INODE_ITEM, 0, &inode)?;
    let name = inode_ref_item(alloc, 0, b"..")?;
    add(leaf, 256, INODE_REF, 256, &name)
}
