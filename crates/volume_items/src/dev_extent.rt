//! Device extents.

ghost use Rattle.std.specs.Prelude.{◌≡◌, ◌≤◌, length, IsNone};
ghost use Rattle.verdict.specs.Rules.{first_failing};
ghost use Rattle.volume_items.specs.DevExtentRow.{dev_extent_row, dev_extent_rows};

use recon_bytes::get_u64;
use verdict::{At, Family, Finding, Key};

/// A device extent (`DEV_EXTENT`) that keeps its rules: a range of the device that a chunk has.
#[derive(Clone, Copy, Debug, PartialEq, Eq)]
pub struct DevExtent {
    /// The item's key: the id of the device, and the byte of the device where the range begins.
    pub key: Key,
    /// The logical address in bytes where the chunk begins: u64 at byte 16.
    pub chunk_offset: u64,
    /// The length of the range in bytes: u64 at byte 24.
    pub length: u64,
}

/// The device extent with this key in these bytes, or the finding of the first rule that it breaks, in
/// the order kind (U9), the key's devid (U5), size (I1).
#[tactic(auto, unfolding(crate::specs::DevExtentRow::dev_extent_row))]
pub fn read_dev_extent(at: &At, key: Key, bytes: &[u8]) -> Result<DevExtent, Finding>
    ensures { result ≡ dev_extent_row at.now key bytes.now }
{
    if let Some(found) = dev_extent_fault(at, key, bytes) {
        return Err(found);
    }
    Ok(DevExtent {
        key,
        chunk_offset: get_u64(bytes, 16),
        length: get_u64(bytes, 24),
    })
}

// The first finding on a device extent.
#[tactic(auto, unfolding(crate::specs::DevExtentRow::dev_extent_rows))]
fn dev_extent_fault(at: &At, key: Key, bytes: &[u8]) -> Option<Finding>
    ensures found { result ≡ first_failing (dev_extent_rows at.now key bytes.now) }
    ensures sized { IsNone result → 48 ≤ length bytes.now }
{
    if !at.sort.lists(key) {
        return Some(at.finding(key, Family::U, 9, u64::from(key.kind)));
    }
    if key.objectid != at.devid {
        return Some(at.finding(key, Family::U, 5, key.objectid));
    }
    let size = bytes.len() as u64;
    if size != 48 {
        return Some(at.finding(key, Family::I, 1, size));
    }
    None
}
