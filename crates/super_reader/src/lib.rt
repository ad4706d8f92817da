//! The superblock of a Btrfs image: the rules that it must keep, and its fields.
#![tactic(auto)]

ghost use Rattle.std.specs.Prelude.{◌≡◌, drop, IfOk};
ghost use Rattle.recon_crc.specs.Checksum.{crc32c_of};
ghost use Rattle.verdict.specs.Image.{range};
ghost use Rattle.verdict.specs.Rules.{first_failing};
ghost use Rattle.super_reader.specs.Superblock.{
  identity_rules,
  feature_rules,
  limit_rules,
  superblock_rules,
  superblock_fields,
  superblock_of,
  item_place,
  IsReadable,
};

use recon_bytes::{get_u16, get_u32, get_u64};
use recon_crc::crc32c;
use verdict::{At, Family, Finding, TreeSort, is_node_size};

/// The eight bytes `_BHRfS_M` at 0x40, as a number whose lowest byte is the first.
const MAGIC: u64 = 0x4D5F_5366_5248_425F;

/// The incompat bits that must be set: 0 mixed backref and 8 skinny metadata.
const NEEDED_INCOMPAT: u64 = 1 << 0 | 1 << 8;

/// The incompat bits that may be set: those two, 1 default subvolume, 2 mixed groups, 5 big metadata,
/// 6 extended iref and 9 no holes.
const ALLOWED_INCOMPAT: u64 = NEEDED_INCOMPAT | 1 << 1 | 1 << 2 | 1 << 5 | 1 << 6 | 1 << 9;

/// The compat_ro bits that may be set: 0 free space tree, 1 free space tree valid and 3 block group tree.
const ALLOWED_COMPAT_RO: u64 = 1 << 0 | 1 << 1 | 1 << 3;

/// The fields of a superblock that the check reads. Each comment ends with the field's offset in
/// bytes in the superblock, which lies at byte 65,536 of the device.
#[derive(Clone, Copy, Debug, PartialEq, Eq)]
pub struct Super {
    /// The id of the file system, which each of its tree blocks repeats: 16 bytes at 0x20.
    pub fsid: [u8; 16],
    /// The generation of the root tree's root block, at 0x48.
    pub generation: u64,
    /// The logical address in bytes of the root tree's root block, at 0x50.
    pub root: u64,
    /// The logical address in bytes of the chunk tree's root block, at 0x58.
    pub chunk_root: u64,
    /// The logical address in bytes of the log tree's root block, 0 where there is none, at 0x60.
    pub log_root: u64,
    /// The bytes that extents and tree blocks use, at 0x78.
    pub bytes_used: u64,
    /// The size of a tree block in bytes, at 0x94.
    pub nodesize: u32,
    /// The set of features without which the image can not be read, a bit each, at 0xbc.
    pub incompat: u64,
    /// The set of features without which the image can not be written, a bit each, at 0xb4.
    pub compat_ro: u64,
    /// The generation of the chunk tree's root block, at 0xa4.
    pub chunk_root_generation: u64,
    /// The level of the root tree's root block, 0 for a leaf, at 0xc6.
    pub root_level: u8,
    /// The level of the chunk tree's root block, at 0xc7.
    pub chunk_root_level: u8,
    /// The level of the log tree's root block, at 0xc8.
    pub log_root_level: u8,
    /// The id of the device, the first field of the device item at 0xc9.
    pub devid: u64,
    /// How many bytes of the system chunk array are used, at 0xa0.
    pub array_size: u32,
    /// The system chunk array, pairs of a key and a chunk item back to back: 2048 bytes at 0x32b.
    pub array: [u8; 2048],
}

impl Super {
    /// The place of an item of a tree, in the leaf at a logical address whose header has a generation.
    pub fn place(&self, tree: u64, block: u64, generation: u64) -> At
        ensures { result ≡ item_place self.now tree block generation }
    {
        At {
            tree,
            sort: TreeSort::of(tree),
            block,
            generation,
            nodesize: self.nodesize,
            devid: self.devid,
            incompat: self.incompat,
            compat_ro: self.compat_ro,
        }
    }
}

/// The fields of the superblock in these bytes, or the finding of the first rule that they break, in
/// the order magic (S2), checksum kind (U1), checksum (S3), own place (S4), incompat bits (U2),
/// compat_ro bits (U3), sector size (U4), node size (S5), number of devices (U5), levels (S6) and size
/// of the system chunk array (S8).
#[tactic(auto, unfolding(crate::specs::Superblock::superblock_of))]
pub fn read_super(bytes: &[u8; 4096]) -> Result<Super, Finding>
    ensures rules { result ≡ superblock_of bytes.now }
    ensures readable { IfOk result IsReadable }
{
    match fault_of(bytes) {
        Some(finding) => Err(finding),
        None => Ok(fields_of(bytes)),
    }
}

/// The finding of the first rule of the superblock that the bytes break.
#[tactic(auto, using(verdict::proofs::Tables::first_failing_joined))]
fn fault_of(bytes: &[u8; 4096]) -> Option<Finding>
    ensures { result ≡ first_failing (superblock_rules bytes.now) }
{
    if let Some(found) = identity_fault(bytes) {
        return Some(found);
    }
    if let Some(found) = feature_fault(bytes) {
        return Some(found);
    }
    limit_fault(bytes)
}

/// The first finding of what tells that this is a superblock of this kind, whole and in its place.
#[tactic(auto, unfolding(crate::specs::Superblock::identity_rules))]
fn identity_fault(bytes: &[u8; 4096]) -> Option<Finding>
    ensures { result ≡ first_failing (identity_rules bytes.now) }
{
    if get_u64(bytes, 0x40) != MAGIC {
        return Some(Finding::of_image(Family::S, 2, 0));
    }
    let kind = get_u16(bytes, 0xc4);
    if kind != 0 {
        return Some(Finding::of_image(Family::U, 1, u64::from(kind)));
    }
    let sum = sum_of(bytes);
    if sum != get_u32(bytes, 0) {
        return Some(Finding::of_image(Family::S, 3, u64::from(sum)));
    }
    let place = get_u64(bytes, 0x30);
    if place != 65536 {
        return Some(Finding::of_image(Family::S, 4, place));
    }
    None
}

/// The first finding of what lies outside the supported features.
#[tactic(auto, unfolding(crate::specs::Superblock::feature_rules))]
fn feature_fault(bytes: &[u8; 4096]) -> Option<Finding>
    ensures { result ≡ first_failing (feature_rules bytes.now) }
{
    let incompat = get_u64(bytes, 0xbc);
    if incompat & NEEDED_INCOMPAT != NEEDED_INCOMPAT || incompat & ALLOWED_INCOMPAT != incompat {
        return Some(Finding::of_image(Family::U, 2, incompat));
    }
    let compat_ro = get_u64(bytes, 0xb4);
    if compat_ro & ALLOWED_COMPAT_RO != compat_ro {
        return Some(Finding::of_image(Family::U, 3, compat_ro));
    }
    let sectorsize = get_u32(bytes, 0x90);
    if sectorsize != 4096 {
        return Some(Finding::of_image(Family::U, 4, u64::from(sectorsize)));
    }
    let nodesize = get_u32(bytes, 0x94);
    if !is_node_size(nodesize) {
        return Some(Finding::of_image(Family::S, 5, u64::from(nodesize)));
    }
    let devices = get_u64(bytes, 0x88);
    if devices != 1 {
        return Some(Finding::of_image(Family::U, 5, devices));
    }
    None
}

/// The first finding of a number above its greatest value.
#[tactic(auto, unfolding(crate::specs::Superblock::limit_rules))]
fn limit_fault(bytes: &[u8; 4096]) -> Option<Finding>
    ensures { result ≡ first_failing (limit_rules bytes.now) }
{
    if bytes[0xc6] > 7 {
        return Some(Finding::of_image(Family::S, 6, u64::from(bytes[0xc6])));
    }
    if bytes[0xc7] > 7 {
        return Some(Finding::of_image(Family::S, 6, u64::from(bytes[0xc7])));
    }
    let array_size = get_u32(bytes, 0xa0);
    if array_size > 2048 {
        return Some(Finding::of_image(Family::S, 8, u64::from(array_size)));
    }
    None
}

/// The fields at their offsets.
fn fields_of(bytes: &[u8; 4096]) -> Super
    ensures { result ≡ superblock_fields bytes.now }
{
    Super {
        fsid: fsid_of(bytes),
        generation: get_u64(bytes, 0x48),
        root: get_u64(bytes, 0x50),
        chunk_root: get_u64(bytes, 0x58),
        log_root: get_u64(bytes, 0x60),
        bytes_used: get_u64(bytes, 0x78),
        nodesize: get_u32(bytes, 0x94),
        incompat: get_u64(bytes, 0xbc),
        compat_ro: get_u64(bytes, 0xb4),
        chunk_root_generation: get_u64(bytes, 0xa4),
        root_level: bytes[0xc6],
        chunk_root_level: bytes[0xc7],
        log_root_level: bytes[0xc8],
        devid: get_u64(bytes, 0xc9),
        array_size: get_u32(bytes, 0xa0),
        array: array_of(bytes),
    }
}

/// The 16 bytes of the file system's id.
fn fsid_of(bytes: &[u8; 4096]) -> [u8; 16]
    ensures { result ≡ range 0x20 16 bytes.now }
{
    let mut fsid = [0; 16];
    fsid.copy_from_slice(&bytes[0x20..0x30]);
    fsid
}

/// The 2048 bytes of the system chunk array.
fn array_of(bytes: &[u8; 4096]) -> [u8; 2048]
    ensures { result ≡ range 0x32b 2048 bytes.now }
{
    let mut array = [0; 2048];
    array.copy_from_slice(&bytes[0x32b..0xb2b]);
    array
}

/// The checksum of the 4064 bytes behind the field that holds it.
fn sum_of(bytes: &[u8; 4096]) -> u32
    ensures { result ≡ crc32c_of (drop 0x20 bytes.now) }
{
    crc32c(&bytes[0x20..])
}
