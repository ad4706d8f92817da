//! Extended attributes.

ghost use Rattle.std.specs.Prelude.{◌≡◌};
ghost use Rattle.fs_items.specs.XattrRow.{xattr_row};

use verdict::{At, Family, Finding, Key};

/// An extended attribute, XATTR_ITEM, whose bytes stay unread.
#[derive(Clone, Copy, Debug, PartialEq, Eq)]
pub struct Xattr {
    /// The item's key, whose objectid is the inode's number.
    pub key: Key,
}

/// The extended attribute with this key, or the finding U9 where the tree does not list it. Its bytes
/// are free.
#[tactic(auto, unfolding(crate::specs::XattrRow::xattr_row))]
pub fn read_xattr(at: &At, key: Key, bytes: &[u8]) -> Result<Xattr, Finding>
    ensures { result ≡ xattr_row at.now key bytes.now }
{
    if !at.sort.lists(key) {
        return Err(at.finding(key, Family::U, 9, u64::from(key.kind)));
    }
    Ok(Xattr { key })
}
