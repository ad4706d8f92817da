//! Extents of files.

ghost use Rattle.std.specs.Prelude.{◌≡◌, ◌≤◌, length, slice_index, IsNone};
ghost use Rattle.verdict.specs.Rules.{first_failing};
ghost use Rattle.fs_items.specs.FileExtentRow.{disk_rows, file_extent_row, head_rows, inline_rows, range_rows};

use recon_bytes::{get_u16, get_u64};
use verdict::{At, Family, Finding, Key, is_multiple};

/// A range of a file, EXTENT_DATA, that keeps its rules.
#[derive(Clone, Copy, Debug, PartialEq, Eq)]
pub struct FileExtent {
    /// The item's key: the inode's number, and the byte of the file where the range begins.
    pub key: Key,
    /// The size in bytes of the data that the extent was made of: u64 at byte 8. Of an inline extent it is
    /// the number of data bytes in the item.
    pub ram_bytes: u64,
    /// The type: 0 inline, 1 regular, 2 preallocated: the byte 20.
    pub sort: u8,
    /// The logical address of the extent in bytes, 0 of a hole: u64 at byte 21, 0 where it is inline.
    pub extent: u64,
    /// The length of the extent in bytes: u64 at byte 29, 0 where it is inline.
    pub extent_length: u64,
    /// The byte of the extent where the range begins: u64 at byte 37, 0 where it is inline.
    pub offset: u64,
    /// The length of the range in bytes: u64 at byte 45, 0 where it is inline.
    pub length: u64,
}

/// The type of a range of a file whose data stands in the item.
pub const INLINE: u8 = 0;

/// The type of extents that are reserved and not written yet.
const PREALLOCATED: u8 = 2;

/// The bytes of the item before inline data.
const HEAD_SIZE: usize = 21;

/// The size of an item that is not inline.
const SIZE: usize = 53;

/// The file extent with this key in these bytes, or the finding of the first rule that it breaks, in the
/// order tree (U9), head (I1), compression (U13), encryption and other encoding (U14), type (I3). Inline
/// there follow file offset (I2) and size (I1); else file offset (I2), size (I1), disk_bytenr,
/// disk_num_bytes, offset, num_bytes (I3), the range of the file, a hole of type 2, and, unless it is a
/// hole, the extent and the part of it that the file shows (I3).
#[tactic(auto, unfolding(crate::specs::FileExtentRow::file_extent_row), using(verdict::proofs::Tables::first_failing_joined))]
pub fn read_file_extent(at: &At, key: Key, bytes: &[u8]) -> Result<FileExtent, Finding>
    ensures { result ≡ file_extent_row at.now key bytes.now }
{
    if let Some(found) = head_fault(at, key, bytes) {
        return Err(found);
    }
    let sort = bytes[20];
    let ram_bytes = get_u64(bytes, 8);
    if sort == INLINE {
        if let Some(found) = inline_fault(at, key, bytes) {
            return Err(found);
        }
        return Ok(FileExtent {
            key,
            ram_bytes,
            sort,
            extent: 0,
            extent_length: 0,
            offset: 0,
            length: 0,
        });
    }
    if let Some(found) = disk_fault(at, key, bytes) {
        return Err(found);
    }
    if let Some(found) = range_fault(at, key, bytes) {
        return Err(found);
    }
    Ok(FileExtent {
        key,
        ram_bytes,
        sort,
        extent: get_u64(bytes, 21),
        extent_length: get_u64(bytes, 29),
        offset: get_u64(bytes, 37),
        length: get_u64(bytes, 45),
    })
}

/// The first finding on the head of a file extent, whatever its type.
#[tactic(auto, unfolding(crate::specs::FileExtentRow::head_rows))]
fn head_fault(at: &At, key: Key, bytes: &[u8]) -> Option<Finding>
    ensures found { result ≡ first_failing (head_rows at.now key bytes.now) }
    ensures sized { IsNone result → 21 ≤ length bytes.now }
{
    if !at.sort.lists(key) {
        return Some(at.finding(key, Family::U, 9, u64::from(key.kind)));
    }
    if bytes.len() < HEAD_SIZE {
        return Some(at.finding(key, Family::I, 1, bytes.len() as u64));
    }
    let compression = bytes[16];
    if compression != 0 {
        return Some(at.finding(key, Family::U, 13, u64::from(compression)));
    }
    let encryption = bytes[17];
    if encryption != 0 {
        return Some(at.finding(key, Family::U, 14, u64::from(encryption)));
    }
    let other_encoding = get_u16(bytes, 18);
    if other_encoding != 0 {
        return Some(at.finding(key, Family::U, 14, u64::from(other_encoding)));
    }
    if bytes[20] > PREALLOCATED {
        return Some(at.finding(key, Family::I, 3, 20));
    }
    None
}

/// The first finding on an inline extent behind its head.
#[tactic(auto, unfolding(crate::specs::FileExtentRow::inline_rows))]
fn inline_fault(at: &At, key: Key, bytes: &[u8]) -> Option<Finding>
    requires { 21 ≤ length bytes.now }
    ensures { result ≡ first_failing (inline_rows at.now key bytes.now) }
{
    if key.offset != 0 {
        return Some(at.finding(key, Family::I, 2, 0));
    }
    if (bytes.len() - HEAD_SIZE) as u64 != get_u64(bytes, 8) {
        return Some(at.finding(key, Family::I, 1, bytes.len() as u64));
    }
    None
}

/// The first finding on the key, the size and the fields of an extent that is not inline.
#[tactic(auto, unfolding(crate::specs::FileExtentRow::disk_rows))]
fn disk_fault(at: &At, key: Key, bytes: &[u8]) -> Option<Finding>
    ensures found { result ≡ first_failing (disk_rows at.now key bytes.now) }
    ensures sized { IsNone result → 53 ≤ length bytes.now }
{
    if !is_multiple(key.offset) {
        return Some(at.finding(key, Family::I, 2, 0));
    }
    if bytes.len() != SIZE {
        return Some(at.finding(key, Family::I, 1, bytes.len() as u64));
    }
    if !is_multiple(get_u64(bytes, 21)) {
        return Some(at.finding(key, Family::I, 3, 21));
    }
    if !is_multiple(get_u64(bytes, 29)) {
        return Some(at.finding(key, Family::I, 3, 29));
    }
    if !is_multiple(get_u64(bytes, 37)) {
        return Some(at.finding(key, Family::I, 3, 37));
    }
    if !is_multiple(get_u64(bytes, 45)) {
        return Some(at.finding(key, Family::I, 3, 45));
    }
    None
}

/// The first finding on the ranges of an extent that is not inline: that of the file, and unless it is a
/// hole, that of the extent.
#[tactic(auto, unfolding(crate::specs::FileExtentRow::range_rows))]
fn range_fault(at: &At, key: Key, bytes: &[u8]) -> Option<Finding>
    requires { 53 ≤ length bytes.now }
    ensures { result ≡ first_failing (range_rows at.now key bytes.now) }
{
    let length = get_u64(bytes, 45);
    if length > u64::MAX - key.offset {
        return Some(at.finding(key, Family::I, 3, 45));
    }
    let extent = get_u64(bytes, 21);
    if extent == 0 {
        let reserved = bytes[20] == PREALLOCATED;
        return reserved.then_some(at.finding(key, Family::I, 3, 21));
    }
    let extent_length = get_u64(bytes, 29);
    if extent_length > u64::MAX - extent {
        return Some(at.finding(key, Family::I, 3, 29));
    }
    let offset = get_u64(bytes, 37);
    if offset > extent_length || length > extent_length - offset {
        return Some(at.finding(key, Family::I, 3, 45));
    }
    None
}
