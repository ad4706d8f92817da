//! The base image: a file system of 32 MiB with nodes of 16 KiB, an empty top directory and nothing
//! else.

ghost use Rattle.std.specs.Prelude.{◌≡◌, ◌+◌, ◌≤◌, ◌∷◌, [], length, IfOk, OnOk};
ghost use Rattle.verdict.specs.Image.{written, applied};
ghost use Rattle.image_maker.specs.Trees.{directory_inode, directory_ref, tree_leaf};
ghost use Rattle.image_maker.specs.BaseImage.{root_leaf, extent_leaf, chunk_leaf, device_leaf, file_leaf, sum_leaf, base_parts, base_image_bytes};

use crate::fields::zero_bytes;
use crate::items::{ChunkAt, device_item};
use crate::superblock::base_superblock;
use crate::trees::{
    ExtentRow, TreeBlock, add, add_chunk, add_dev_extent, add_top_directory, extent_tree, leaf_of,
    root_tree,
};
use std::alloc::Global;
use verdict::kinds::DEV_ITEM;
use verdict::{Bytes, NoMemory};

/// The length of the base image in bytes.
pub const BASE_LENGTH: usize = 33_554_432;

/// The system chunk of the base image.
pub const SYSTEM: ChunkAt = ChunkAt {
    start: 1_048_576,
    length: 4_194_304,
    class: 2,
    first: 1_048_576,
    second: None,
};

/// The metadata chunk of the base image, in two copies.
pub const METADATA: ChunkAt = ChunkAt {
    start: 5_242_880,
    length: 8_388_608,
    class: 36,
    first: 5_242_880,
    second: Some(13_631_488),
};

/// The data chunk of the base image.
pub const DATA: ChunkAt = ChunkAt {
    start: 13_631_488,
    length: 8_388_608,
    class: 1,
    first: 22_020_096,
    second: None,
};

/// The chunks of the base image: system, metadata in two copies, data.
pub const BASE_CHUNKS: [ChunkAt; 3] = [SYSTEM, METADATA, DATA];

/// The root tree's block of the base image.
pub const ROOT: TreeBlock = TreeBlock {
    tree: 1,
    address: 5_242_880,
    generation: 1,
};

/// The extent tree's block of the base image.
pub const EXTENTS: TreeBlock = TreeBlock {
    tree: 2,
    address: 5_259_264,
    generation: 1,
};

/// The chunk tree's block of the base image.
pub const CHUNKS: TreeBlock = TreeBlock {
    tree: 3,
    address: 1_048_576,
    generation: 1,
};

/// The device tree's block of the base image.
pub const DEVICES: TreeBlock = TreeBlock {
    tree: 4,
    address: 5_275_648,
    generation: 1,
};

/// The file tree's block of the base image.
pub const FILES: TreeBlock = TreeBlock {
    tree: 5,
    address: 5_292_032,
    generation: 1,
};

/// The sums tree's block of the base image.
pub const SUMS: TreeBlock = TreeBlock {
    tree: 7,
    address: 5_308_416,
    generation: 1,
};

/// The blocks of the base image, in the order of their trees.
pub const BASE_BLOCKS: [TreeBlock; 6] = [ROOT, EXTENTS, CHUNKS, DEVICES, FILES, SUMS];

// The root tree's leaf.
#[tactic(auto, unfolding(crate::specs::BaseImage::root_leaf))]
fn roots(alloc: Global) -> Result<Bytes, NoMemory>
    ensures exact { IfOk result (λ b. b ≡ root_leaf) }
    ensures long { IfOk result (λ b. length b ≡ 16384) }
{
    root_tree(alloc, &ROOT, &[EXTENTS, DEVICES, FILES, SUMS])
}

// The extent tree's leaf.
#[tactic(auto, unfolding(crate::specs::BaseImage::extent_leaf, crate::specs::Trees::extent_entry))]
fn extents(alloc: Global) -> Result<Bytes, NoMemory>
    ensures exact { IfOk result (λ b. b ≡ extent_leaf) }
    ensures long { IfOk result (λ b. length b ≡ 16384) }
{
    let rows = [
        ExtentRow::Block(CHUNKS),
        ExtentRow::Group(SYSTEM, 16384),
        ExtentRow::Block(ROOT),
        ExtentRow::Group(METADATA, 81920),
        ExtentRow::Block(EXTENTS),
        ExtentRow::Block(DEVICES),
        ExtentRow::Block(FILES),
        ExtentRow::Block(SUMS),
        ExtentRow::Group(DATA, 0),
    ];
    extent_tree(alloc, &EXTENTS, &rows)
}

// The chunk tree's leaf.
#[tactic(auto, using(crate::proofs::Sizes::length_device), unfolding(crate::specs::BaseImage::chunk_leaf, crate::specs::Trees::tree_leaf))]
fn chunks(alloc: Global) -> Result<Bytes, NoMemory>
    ensures exact { IfOk result (λ b. b ≡ chunk_leaf) }
    ensures long { IfOk result (λ b. length b ≡ 16384) }
{
    let mut leaf = leaf_of(alloc, &CHUNKS);
    let device = device_item(alloc, 33_554_432, 29_360_128)?;
    add(&mut leaf, 1, DEV_ITEM, 1, &device)?;
    add_chunk(alloc, &mut leaf, &SYSTEM)?;
    add_chunk(alloc, &mut leaf, &METADATA)?;
    add_chunk(alloc, &mut leaf, &DATA)?;
    leaf.finish()
}

// The device tree's leaf.
#[tactic(auto, unfolding(crate::specs::BaseImage::device_leaf, crate::specs::Trees::tree_leaf))]
fn devices(alloc: Global) -> Result<Bytes, NoMemory>
    ensures exact { IfOk result (λ b. b ≡ device_leaf) }
    ensures long { IfOk result (λ b. length b ≡ 16384) }
{
    let mut leaf = leaf_of(alloc, &DEVICES);
    add_dev_extent(alloc, &mut leaf, &SYSTEM, 1_048_576)?;
    add_dev_extent(alloc, &mut leaf, &METADATA, 5_242_880)?;
    add_dev_extent(alloc, &mut leaf, &METADATA, 13_631_488)?;
    add_dev_extent(alloc, &mut leaf, &DATA, 22_020_096)?;
    leaf.finish()
}

/// The leaf of a tree of files, with an empty top directory.
#[tactic(auto, unfolding(crate::specs::Trees::tree_leaf))]
pub fn file_tree(alloc: Global, at: &TreeBlock) -> Result<Bytes, NoMemory>
    ensures exact { IfOk result (λ b.
        b ≡ tree_leaf at.now (directory_inode 0 ∷ directory_ref ∷ [])) }
    ensures long { IfOk result (λ b. length b ≡ 16384) }
{
    let mut leaf = leaf_of(alloc, at);
    add_top_directory(alloc, &mut leaf, 0)?;
    leaf.finish()
}

/// The leaf of a tree without items.
#[tactic(auto, unfolding(crate::specs::Trees::tree_leaf))]
pub fn empty_tree(alloc: Global, at: &TreeBlock) -> Result<Bytes, NoMemory>
    ensures exact { IfOk result (λ b. b ≡ tree_leaf at.now []) }
    ensures long { IfOk result (λ b. length b ≡ 16384) }
{
    leaf_of(alloc, at).finish()
}

/// Puts bytes at an offset of the image.
#[tactic(auto, using(crate::proofs::Puts::put_part))]
pub fn put(image: &mut [u8], at: usize, bytes: &[u8])
    requires { at + length bytes.now ≤ length image.old }
    ensures { image.new ≡ written image.old at bytes.now }
{
    image[at..at + bytes.len()].copy_from_slice(bytes);
}

/// Puts both copies of a block of the metadata chunk.
#[tactic(auto, using(crate::proofs::Puts::long_written))]
pub fn put_copies(image: &mut [u8], at: usize, block: &Bytes)
    requires { at + 8388608 + length block.now ≤ length image.old }
    ensures { image.new ≡ written (written image.old at block.now) (at + 8388608) block.now }
{
    put(image, at, block.as_slice());
    put(image, at + 8_388_608, block.as_slice());
}

/// The base image, 33,554,432 bytes.
pub fn base_image(alloc: Global) -> Result<Bytes, NoMemory>
    ensures exact { IfOk result (λ b. b ≡ base_image_bytes) }
    ensures long { IfOk result (λ b. length b ≡ 33554432) }
{
    filled(alloc)
}

// The bytes of the base image.
#[tactic(auto, using(crate::proofs::Numbers::length_zeros), unfolding(crate::specs::BaseImage::base_image_bytes))]
fn filled(alloc: Global) -> Result<Bytes, NoMemory>
    ensures { IfOk result (λ b. b ≡ base_image_bytes) }
{
    let mut image = zero_bytes(alloc, BASE_LENGTH)?;
    put_all(alloc, &mut image)?;
    Ok(Bytes::from(image))
}

// Puts all that stands in the base image.
#[tactic(auto, unfolding(crate::specs::BaseImage::base_parts, crate::specs::BaseImage::file_leaf, crate::specs::BaseImage::sum_leaf))]
fn put_all(alloc: Global, image: &mut [u8]) -> Result<(), NoMemory>
    requires { length image.old ≡ 33554432 }
    ensures { OnOk result (image.new ≡ applied image.old base_parts) }
{
    put(image, 65536, &base_superblock());
    put(image, 1_048_576, chunks(alloc)?.as_slice());
    put_copies(image, 5_242_880, &roots(alloc)?);
    put_copies(image, 5_259_264, &extents(alloc)?);
    put_copies(image, 5_275_648, &devices(alloc)?);
    put_copies(image, 5_292_032, &file_tree(alloc, &FILES)?);
    put_copies(image, 5_308_416, &empty_tree(alloc, &SUMS)?);
    Ok(())
}
