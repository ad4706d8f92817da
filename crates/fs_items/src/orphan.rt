//! Orphan items.

ghost use Rattle.std.specs.Prelude.{◌≡◌};
ghost use Rattle.fs_items.specs.OrphanRow.{orphan_row};

use verdict::{At, Family, Finding, Key, ORPHAN_OBJECTID};

/// The mark of an inode without a name, ORPHAN_ITEM.
#[derive(Clone, Copy, Debug, PartialEq, Eq)]
pub struct Orphan {
    /// The item's key, whose objectid is -5 and whose offset is the inode's number.
    pub key: Key,
}

/// The orphan item with this key in these bytes, or the finding of the first rule that it breaks, in
/// the order tree (U9), key (I2), size (I1), which is 0.
#[tactic(auto, unfolding(crate::specs::OrphanRow::orphan_row))]
pub fn read_orphan(at: &At, key: Key, bytes: &[u8]) -> Result<Orphan, Finding>
    ensures { result ≡ orphan_row at.now key bytes.now }
{
    if !at.sort.lists(key) {
        return Err(at.finding(key, Family::U, 9, u64::from(key.kind)));
    }
    if key.objectid != ORPHAN_OBJECTID {
        return Err(at.finding(key, Family::I, 2, 0));
    }
    if !bytes.is_empty() {
        return Err(at.finding(key, Family::I, 1, bytes.len() as u64));
    }
    Ok(Orphan { key })
}
