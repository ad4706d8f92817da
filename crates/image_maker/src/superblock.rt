//! The superblock of the base image.

ghost use Rattle.std.specs.Prelude.{◌≡◌, ◌+◌, ◌≤◌, length};
ghost use Rattle.verdict.specs.Image.{written, applied};
ghost use Rattle.image_maker.specs.Numbers.{u8, u16, u32, u64};
ghost use Rattle.image_maker.specs.Superblock.{front_parts, device_parts, system_parts, superblock_bytes};

use crate::block::{DEVICE_UUID, FSID, with_checksum};
use recon_bytes::{put_u16, put_u32, put_u64};
use verdict::kinds::CHUNK_ITEM;

/// The superblock of the base image, with its checksum.
pub fn base_superblock() -> [u8; 4096]
    ensures { result ≡ superblock_bytes 1 5242880 }
{
    superblock_of(1, 5_242_880)
}

/// The superblock of the base image with another generation and another root block of the root tree,
/// with its checksum.
pub fn superblock_of(generation: u64, root: u64) -> [u8; 4096]
    ensures { result ≡ superblock_bytes generation root }
{
    let mut bytes = [0u8; 4096];
    put_front(&mut bytes, generation, root);
    put_device(&mut bytes);
    put_system_chunk(&mut bytes);
    with_checksum(&mut bytes);
    bytes
}

// The fields in front of the device's item.
#[tactic(auto, unfolding(crate::specs::Superblock::front_parts, crate::specs::Ids::fsid, crate::specs::Superblock::magic))]
fn put_front(bytes: &mut [u8; 4096], generation: u64, root: u64)
    ensures { bytes.new ≡ applied bytes.old (front_parts generation root) }
{
    put(bytes, 0x20, &FSID);
    put_eight(bytes, 0x30, 65536);
    put_eight(bytes, 0x38, 1);
    put(bytes, 0x40, b"_BHRfS_M");
    put_eight(bytes, 0x48, generation);
    put_eight(bytes, 0x50, root);
    put_eight(bytes, 0x58, 1_048_576);
    put_eight(bytes, 0x70, 33_554_432);
    put_eight(bytes, 0x78, 98_304);
    put_eight(bytes, 0x80, 6);
    put_eight(bytes, 0x88, 1);
    put_four(bytes, 0x90, 4096);
    put_four(bytes, 0x94, 16384);
    put_four(bytes, 0xa0, 97);
    put_eight(bytes, 0xa4, 1);
    put_eight(bytes, 0xbc, 865);
}

// The device's item.
#[tactic(auto, unfolding(crate::specs::Superblock::device_parts, crate::specs::Ids::fsid, crate::specs::Ids::device_uuid))]
fn put_device(bytes: &mut [u8; 4096])
    ensures { bytes.new ≡ applied bytes.old device_parts }
{
    put_eight(bytes, 0xc9, 1);
    put_eight(bytes, 0xd1, 33_554_432);
    put_eight(bytes, 0xd9, 29_360_128);
    put(bytes, 0x10b, &DEVICE_UUID);
    put(bytes, 0x11b, &FSID);
}

// The system chunk array with the first chunk, of one stripe.
#[tactic(auto, unfolding(crate::specs::Superblock::system_parts, crate::specs::Ids::device_uuid))]
fn put_system_chunk(bytes: &mut [u8; 4096])
    ensures { bytes.new ≡ applied bytes.old system_parts }
{
    put_eight(bytes, 0x32b, 256);
    put_one(bytes, 0x333, CHUNK_ITEM);
    put_eight(bytes, 0x334, 1_048_576);
    put_eight(bytes, 0x33c, 4_194_304);
    put_eight(bytes, 0x344, 2);
    put_eight(bytes, 0x34c, 65536);
    put_eight(bytes, 0x354, 2);
    put_four(bytes, 0x35c, 65536);
    put_four(bytes, 0x360, 65536);
    put_four(bytes, 0x364, 4096);
    put_two(bytes, 0x368, 1);
    put_eight(bytes, 0x36c, 1);
    put_eight(bytes, 0x374, 1_048_576);
    put(bytes, 0x37c, &DEVICE_UUID);
}

// Puts bytes at an offset.
#[tactic(auto, using(crate::proofs::Puts::put_part))]
fn put(bytes: &mut [u8; 4096], at: usize, part: &[u8])
    requires { at + length part.now ≤ 4096 }
    ensures { bytes.new ≡ written bytes.old at part.now }
{
    bytes[at..at + part.len()].copy_from_slice(part);
}

// Puts a field of one byte.
#[tactic(auto, unfolding(crate::specs::Numbers::u8))]
fn put_one(bytes: &mut [u8; 4096], at: usize, n: u8)
    requires { at + 1 ≤ 4096 }
    ensures { bytes.new ≡ written bytes.old at (u8 n) }
{
    put(bytes, at, &[n]);
}

// Puts a field of two bytes.
#[tactic(auto, using(crate::proofs::Puts::put_two))]
fn put_two(bytes: &mut [u8; 4096], at: usize, n: u16)
    requires { at + 2 ≤ 4096 }
    ensures { bytes.new ≡ written bytes.old at (u16 n) }
{
    put_u16(bytes, at, n);
}

// Puts a field of four bytes.
#[tactic(auto, using(crate::proofs::Puts::put_four))]
fn put_four(bytes: &mut [u8; 4096], at: usize, n: u32)
    requires { at + 4 ≤ 4096 }
    ensures { bytes.new ≡ written bytes.old at (u32 n) }
{
    put_u32(bytes, at, n);
}

/// Puts a field of eight bytes.
#[tactic(auto, using(crate::proofs::Puts::put_eight))]
pub fn put_eight(bytes: &mut [u8; 4096], at: usize, n: u64)
    requires { at + 8 ≤ 4096 }
    ensures { bytes.new ≡ written bytes.old at (u64 n) }
{
    put_u64(bytes, at, n);
}
