//! The header of a tree block, and its checksum.

ghost use Rattle.std.specs.Prelude.{◌≡◌, ◌≤◌, ◌++◌, length, drop, IfOk, OnOk};
ghost use Rattle.recon_bytes.specs.Field.{with_field};
ghost use Rattle.recon_crc.specs.Checksum.{crc32c_of};
ghost use Rattle.image_maker.specs.Sizes.{IsKey};
ghost use Rattle.image_maker.specs.Blocks.{header_bytes, key_bytes, with_sum};

use crate::fields::Fields;
use recon_bytes::put_u32;
use recon_crc::crc32c;
use std::alloc::Global;
use verdict::{Bytes, Key, NoMemory};

/// The fsid of the base image: the bytes 1 to 16.
pub const FSID: [u8; 16] = [1, 2, 3, 4, 5, 6, 7, 8, 9, 10, 11, 12, 13, 14, 15, 16];

/// The chunk tree uuid of each block.
pub const CHUNK_TREE_UUID: [u8; 16] = [0x22; 16];

/// The uuid of the device.
pub const DEVICE_UUID: [u8; 16] = [0x33; 16];

/// What a tree block's header says of it.
#[derive(Clone, Copy)]
pub struct BlockHeader {
    /// The file system's id.
    pub fsid: [u8; 16],
    /// The logical address in bytes.
    pub address: u64,
    /// The tree that owns the block.
    pub owner: u64,
    /// The generation in which it was written.
    pub generation: u64,
    /// 0 of a leaf, above 0 of a node.
    pub level: u8,
}

/// Puts the CRC-32C of the bytes from 32 on into the first four, lowest byte first, as superblocks and
/// tree blocks have it.
pub fn with_checksum(block: &mut [u8])
    requires { 32 ≤ length block.old }
    ensures { block.new ≡ with_field 4 block.old 0 (crc32c_of (drop 32 block.old)) }
{
    let sum = crc32c(&block[32..]);
    put_u32(block, 0, sum);
}

/// The block whose bytes from 32 on these are, with the right checksum in front.
#[tactic(auto, unfolding(crate::specs::Blocks::with_sum))]
pub fn block_of(alloc: Global, fields: Fields) -> Result<Bytes, NoMemory>
    ensures { IfOk result (λ b. b ≡ with_sum fields) }
{
    let bytes = fields.finish();
    let mut block = Fields::new(alloc);
    block.four(crc32c(bytes.as_slice()))?;
    block.zeros(alloc, 28)?;
    block.bytes(bytes.as_slice())?;
    Ok(block.finish())
}

/// A header but for the checksum: flags 1, backref revision 1.
#[tactic(auto, unfolding(crate::specs::Blocks::header_bytes, crate::specs::Ids::chunk_tree_uuid))]
pub fn header_fields(alloc: Global, header: &BlockHeader, count: u32) -> Result<Fields, NoMemory>
    ensures { IfOk result (λ f. f ≡ header_bytes header.now count) }
{
    let mut fields = Fields::new(alloc);
    fields.bytes(&header.fsid)?;
    fields.eight(header.address)?;
    fields.one(1)?;
    fields.zeros(alloc, 6)?;
    fields.one(1)?;
    fields.bytes(&CHUNK_TREE_UUID)?;
    fields.eight(header.generation)?;
    fields.eight(header.owner)?;
    fields.four(count)?;
    fields.one(header.level)?;
    Ok(fields)
}

/// Appends a key of 17 bytes.
#[tactic(auto, using(crate::proofs::Parts::key_joined, crate::proofs::Keys::key_sizes))]
pub fn put_key(fields: &mut Fields, key: Key) -> Result<(), NoMemory>
    ensures put { OnOk result (fields.new ≡ fields.old ++ key_bytes key) }
    ensures sizes { IsKey key }
{
    fields.eight(key.objectid)?;
    fields.one(key.kind)?;
    fields.eight(key.offset)
}
