//! Inode items.

ghost use Rattle.std.specs.Prelude.{◌≡◌};
ghost use Rattle.fs_items.specs.InodeRow.{has_inode_type, inode_row};

use recon_bytes::{get_u32, get_u64};
use verdict::{At, Family, Finding, Key};

/// An inode, INODE_ITEM, that keeps its rules: a file, a directory or a special file.
#[derive(Clone, Copy, Debug, PartialEq, Eq)]
pub struct InodeItem {
    /// The item's key, whose objectid is the inode's number.
    pub key: Key,
    /// The size in bytes: u64 at byte 16.
    pub size: u64,
    /// The bytes that its data takes: u64 at byte 24.
    pub nbytes: u64,
    /// The number of its names: u32 at byte 40.
    pub nlink: u32,
    /// Its type and permissions, as `stat` gives them: u32 at byte 52.
    pub mode: u32,
    /// Its flags, a bit each, of which bit 0 says that its data has no checksums: u64 at byte 64.
    pub flags: u64,
}

/// The size of an inode item in bytes.
const SIZE: usize = 160;

/// The inode with this key in these bytes, or the finding of the first rule that it breaks, in the
/// order tree (U9), key (I2), size (I1), type bits of the mode (I3).
#[tactic(auto, unfolding(crate::specs::InodeRow::inode_row))]
pub fn read_inode(at: &At, key: Key, bytes: &[u8]) -> Result<InodeItem, Finding>
    ensures { result ≡ inode_row at.now key bytes.now }
{
    if !at.sort.lists(key) {
        return Err(at.finding(key, Family::U, 9, u64::from(key.kind)));
    }
    if key.offset != 0 {
        return Err(at.finding(key, Family::I, 2, 0));
    }
    if bytes.len() != SIZE {
        return Err(at.finding(key, Family::I, 1, bytes.len() as u64));
    }
    let mode = get_u32(bytes, 52);
    if !has_inode_type(mode) {
        return Err(at.finding(key, Family::I, 3, 52));
    }
    Ok(InodeItem {
        key,
        size: get_u64(bytes, 16),
        nbytes: get_u64(bytes, 24),
        nlink: get_u32(bytes, 40),
        mode,
        flags: get_u64(bytes, 64),
    })
}

/// Whether a mode's type bits are those of a type that an inode may have.
fn has_inode_type(mode: u32) -> bool
    ensures { result ≡ has_inode_type mode }
{
    matches!(
        mode & 0o170000,
        0o100000 | 0o040000 | 0o020000 | 0o060000 | 0o010000 | 0o140000 | 0o120000
    )
}
