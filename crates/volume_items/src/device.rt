//! Device items.

ghost use Rattle.std.specs.Prelude.{◌≡◌, ◌≤◌, length, IsNone};
ghost use Rattle.verdict.specs.Rules.{first_failing};
ghost use Rattle.volume_items.specs.DeviceRow.{device_row, device_rows};

use recon_bytes::get_u64;
use verdict::{At, Family, Finding, Key};

/// A device item (`DEV_ITEM`) that keeps its rules: how much of the device is in use.
#[derive(Clone, Copy, Debug, PartialEq, Eq)]
pub struct DeviceItem {
    /// The item's key, whose offset is the id of the device.
    pub key: Key,
    /// The id of the device: u64 at byte 0.
    pub devid: u64,
    /// How many bytes of the device its extents have: u64 at byte 16.
    pub bytes_used: u64,
}

/// The device item with this key in these bytes, or the finding of the first rule that it breaks, in
/// the order kind (U9), key (I2), size (I1), devid, which is the key's (I3) and the superblock's (U5).
#[tactic(auto, unfolding(crate::specs::DeviceRow::device_row))]
pub fn read_device(at: &At, key: Key, bytes: &[u8]) -> Result<DeviceItem, Finding>
    ensures { result ≡ device_row at.now key bytes.now }
{
    if let Some(found) = device_fault(at, key, bytes) {
        return Err(found);
    }
    Ok(DeviceItem {
        key,
        devid: get_u64(bytes, 0),
        bytes_used: get_u64(bytes, 16),
    })
}

// The first finding on a device item.
#[tactic(auto, unfolding(crate::specs::DeviceRow::device_rows))]
fn device_fault(at: &At, key: Key, bytes: &[u8]) -> Option<Finding>
    ensures found { result ≡ first_failing (device_rows at.now key bytes.now) }
    ensures sized { IsNone result → 98 ≤ length bytes.now }
{
    if !at.sort.lists(key) {
        return Some(at.finding(key, Family::U, 9, u64::from(key.kind)));
    }
    if key.objectid != 1 {
        return Some(at.finding(key, Family::I, 2, 0));
    }
    let size = bytes.len() as u64;
    if size != 98 {
        return Some(at.finding(key, Family::I, 1, size));
    }
    let devid = get_u64(bytes, 0);
    if devid != key.offset {
        return Some(at.finding(key, Family::I, 3, 0));
    }
    if devid != at.devid {
        return Some(at.finding(key, Family::U, 5, devid));
    }
    None
}
