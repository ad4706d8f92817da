//! The bytes of items.

ghost use Rattle.std.specs.Prelude.{◌≡◌, ◌<◌, ◌^◌, ◌++◌, length, IfOk, OnOk};
ghost use Rattle.image_maker.specs.Items.{stripe_bytes, stripes_bytes, chunk_bytes, device_bytes, dev_extent_bytes, root_bytes, metadata_bytes, group_bytes, inode_bytes, inode_ref_bytes, dir_entry_bytes};

use crate::block::{CHUNK_TREE_UUID, DEVICE_UUID, FSID};
use crate::fields::Fields;
use std::alloc::Global;
use verdict::kinds::TREE_BLOCK_REF;
use verdict::{Bytes, Key, NoMemory};

/// Where a chunk lies. Offsets and lengths are in bytes.
#[derive(Clone, Copy, Debug, PartialEq, Eq)]
pub struct ChunkAt {
    /// The logical address where it starts.
    pub start: u64,
    /// Its length.
    pub length: u64,
    /// Its type bits: data 1, system 2, metadata 4, dup 32.
    pub class: u64,
    /// The device offset of its first copy.
    pub first: u64,
    /// The device offset of its second copy, of a dup chunk.
    pub second: Option<u64>,
}

// The stripes of a chunk, behind their number.
#[tactic(auto, unfolding(crate::specs::Items::stripes_bytes))]
fn stripes(alloc: Global, first: u64, second: Option<u64>) -> Result<Bytes, NoMemory>
    ensures { IfOk result (λ b. b ≡ stripes_bytes first second) }
{
    let mut fields = Fields::new(alloc);
    match second {
        None => {
            fields.two(1)?;
            fields.two(0)?;
            put_stripe(&mut fields, first)?;
        },
        Some(second) => {
            fields.two(2)?;
            fields.two(0)?;
            put_stripe(&mut fields, first)?;
            put_stripe(&mut fields, second)?;
        },
    }
    Ok(fields.finish())
}

// Appends a stripe.
#[tactic(auto, using(crate::proofs::Parts::stripe_joined), unfolding(crate::specs::Ids::device_uuid))]
fn put_stripe(fields: &mut Fields, physical: u64) -> Result<(), NoMemory>
    ensures { OnOk result (fields.new ≡ fields.old ++ stripe_bytes physical) }
{
    fields.eight(1)?;
    fields.eight(physical)?;
    fields.bytes(&DEVICE_UUID)
}

/// A CHUNK_ITEM with owner 2, lengths of 65536 and sectors of 4096 bytes, on the device 1.
#[tactic(auto, unfolding(crate::specs::Items::chunk_bytes))]
pub fn chunk_item(alloc: Global, chunk: &ChunkAt) -> Result<Bytes, NoMemory>
    ensures { IfOk result (λ b. b ≡ chunk_bytes chunk.now) }
{
    let stripes = stripes(alloc, chunk.first, chunk.second)?;
    let mut fields = Fields::new(alloc);
    fields.eight(chunk.length)?;
    fields.eight(2)?;
    fields.eight(65536)?;
    fields.eight(chunk.class)?;
    fields.four(65536)?;
    fields.four(65536)?;
    fields.four(4096)?;
    fields.bytes(stripes.as_slice())?;
    Ok(fields.finish())
}

/// The DEV_ITEM of the device 1, 98 bytes.
#[tactic(auto, unfolding(crate::specs::Items::device_bytes, crate::specs::Ids::device_uuid, crate::specs::Ids::fsid))]
pub fn device_item(alloc: Global, total_bytes: u64, bytes_used: u64) -> Result<Bytes, NoMemory>
    ensures { IfOk result (λ b. b ≡ device_bytes total_bytes bytes_used) }
{
    let mut fields = Fields::new(alloc);
    fields.eight(1)?;
    fields.eight(total_bytes)?;
    fields.eight(bytes_used)?;
    fields.zeros(alloc, 42)?;
    fields.bytes(&DEVICE_UUID)?;
    fields.bytes(&FSID)?;
    Ok(fields.finish())
}

/// A DEV_EXTENT of 48 bytes, of a stripe of this chunk.
#[tactic(auto, unfolding(crate::specs::Items::dev_extent_bytes, crate::specs::Ids::chunk_tree_uuid))]
pub fn dev_extent_item(alloc: Global, chunk: &ChunkAt) -> Result<Bytes, NoMemory>
    ensures { IfOk result (λ b. b ≡ dev_extent_bytes chunk.now) }
{
    let mut fields = Fields::new(alloc);
    fields.eight(3)?;
    fields.eight(256)?;
    fields.eight(chunk.start)?;
    fields.eight(chunk.length)?;
    fields.bytes(&CHUNK_TREE_UUID)?;
    Ok(fields.finish())
}

/// A ROOT_ITEM of 439 bytes with one reference, of a tree whose root block stands at `bytenr`. `dirid`
/// is the inode of its root directory, 0 where it has none.
#[tactic(auto, unfolding(crate::specs::Items::root_bytes))]
pub fn root_item(
    alloc: Global,
    generation: u64,
    dirid: u64,
    bytenr: u64,
    level: u8,
) -> Result<Bytes, NoMemory>
    ensures { IfOk result (λ b. b ≡ root_bytes generation dirid bytenr level) }
{
    let mut fields = Fields::new(alloc);
    fields.zeros(alloc, 160)?;
    fields.eight(generation)?;
    fields.eight(dirid)?;
    fields.eight(bytenr)?;
    fields.zeros(alloc, 32)?;
    fields.four(1)?;
    fields.zeros(alloc, 18)?;
    fields.one(level)?;
    fields.zeros(alloc, 200)?;
    Ok(fields.finish())
}

/// A METADATA_ITEM of a tree block, with the tree as its one reference, inline.
#[tactic(auto, unfolding(crate::specs::Items::metadata_bytes))]
pub fn extent_item_of_block(alloc: Global, generation: u64, tree: u64) -> Result<Bytes, NoMemory>
    ensures { IfOk result (λ b. b ≡ metadata_bytes generation tree) }
{
    let mut fields = Fields::new(alloc);
    fields.eight(1)?;
    fields.eight(generation)?;
    fields.eight(2)?;
    fields.one(TREE_BLOCK_REF)?;
    fields.eight(tree)?;
    Ok(fields.finish())
}

/// A BLOCK_GROUP_ITEM of a chunk of this class, in which so many bytes are used.
#[tactic(auto, unfolding(crate::specs::Items::group_bytes))]
pub fn group_item(alloc: Global, used: u64, class: u64) -> Result<Bytes, NoMemory>
    ensures { IfOk result (λ b. b ≡ group_bytes used class) }
{
    let mut fields = Fields::new(alloc);
    fields.eight(used)?;
    fields.eight(256)?;
    fields.eight(class)?;
    Ok(fields.finish())
}

/// An INODE_ITEM of 160 bytes with one link.
#[tactic(auto, unfolding(crate::specs::Items::inode_bytes))]
pub fn inode_item(
    alloc: Global,
    generation: u64,
    size: u64,
    nbytes: u64,
    mode: u32,
) -> Result<Bytes, NoMemory>
    ensures { IfOk result (λ b. b ≡ inode_bytes generation size nbytes mode) }
{
    let mut fields = Fields::new(alloc);
    fields.eight(generation)?;
    fields.eight(0)?;
    fields.eight(size)?;
    fields.eight(nbytes)?;
    fields.eight(0)?;
    fields.four(1)?;
    fields.eight(0)?;
    fields.four(mode)?;
    fields.zeros(alloc, 104)?;
    Ok(fields.finish())
}

/// An INODE_REF with one entry. A name has at most 65,535 bytes.
#[tactic(auto, unfolding(crate::specs::Items::inode_ref_bytes))]
pub fn inode_ref_item(alloc: Global, index: u64, name: &[u8]) -> Result<Bytes, NoMemory>
    requires { length name.now < 2 ^ 16 }
    ensures { IfOk result (λ b. b ≡ inode_ref_bytes index name.now) }
{
    let mut fields = Fields::new(alloc);
    fields.eight(index)?;
    fields.two(name.len() as u16)?;
    fields.bytes(name)?;
    Ok(fields.finish())
}

/// An entry of a DIR_ITEM or a DIR_INDEX: a name, and the key and the type of what it leads to.
#[tactic(auto, unfolding(crate::specs::Items::dir_entry_bytes))]
pub fn dir_entry(
    alloc: Global,
    location: Key,
    transid: u64,
    sort: u8,
    name: &[u8],
) -> Result<Bytes, NoMemory>
    requires { length name.now < 2 ^ 16 }
    ensures { IfOk result (λ b. b ≡ dir_entry_bytes location transid sort name.now) }
{
    let mut fields = Fields::new(alloc);
    fields.eight(location.objectid)?;
    fields.one(location.kind)?;
    fields.eight(location.offset)?;
    fields.eight(transid)?;
    fields.two(0)?;
    fields.two(name.len() as u16)?;
    fields.one(sort)?;
    fields.bytes(name)?;
    Ok(fields.finish())
}
