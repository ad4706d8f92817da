//! Root links: the name of a subvolume in its parent.

ghost use Rattle.std.specs.Prelude.{◌≡◌, ◌≤◌, length, MatchResult, Ok, Err, IsNone};
ghost use Rattle.verdict.specs.Rules.{first_failing};
ghost use Rattle.volume_items.specs.RootLinkItems.{link_fields_in};
ghost use Rattle.volume_items.specs.RootLinkRow.{root_link_row, root_link_rows};

use recon_bytes::{get_u16, get_u64};
use verdict::{At, Family, Finding, Key};

/// A root link that keeps its rules, in the bytes of its leaf: a `ROOT_REF` (parent, 156, child) or
/// a `ROOT_BACKREF` (child, 144, parent).
#[derive(Clone, Copy, Debug, PartialEq, Eq)]
pub struct RootLink<'a> {
    /// The item's key, which has the ids of both trees.
    pub key: Key,
    /// The inode number of the directory of the parent that has the name: u64 at byte 0.
    pub dirid: u64,
    /// The index of the name in that directory: u64 at byte 8.
    pub sequence: u64,
    /// The name, 1 to 255 bytes from byte 18 on.
    pub name: &'a [u8],
}

/// The root link with this key in these bytes, or the finding of the first rule that it breaks, in
/// the order kind (U9), size (I1), name_len (I3), size with the name (I1).
#[tactic(auto, unfolding(crate::specs::RootLinkRow::root_link_row))]
pub fn read_root_link<'a>(at: &At, key: Key, bytes: &'a [u8]) -> Result<RootLink<'a>, Finding>
    ensures { MatchResult result
        (λ link. root_link_row at.now key bytes.now ≡ Ok (link_fields_in link))
        (λ finding. root_link_row at.now key bytes.now ≡ Err finding) }
{
    if let Some(found) = link_fault(at, key, bytes) {
        return Err(found);
    }
    Ok(RootLink {
        key,
        dirid: get_u64(bytes, 0),
        sequence: get_u64(bytes, 8),
        name: &bytes[18..],
    })
}

// The first finding on a root link.
#[tactic(auto, unfolding(crate::specs::RootLinkRow::root_link_rows))]
fn link_fault(at: &At, key: Key, bytes: &[u8]) -> Option<Finding>
    ensures found { result ≡ first_failing (root_link_rows at.now key bytes.now) }
    ensures sized { IsNone result → 18 ≤ length bytes.now }
{
    if !at.sort.lists(key) {
        return Some(at.finding(key, Family::U, 9, u64::from(key.kind)));
    }
    let size = bytes.len() as u64;
    if size < 18 {
        return Some(at.finding(key, Family::I, 1, size));
    }
    let name_len = u64::from(get_u16(bytes, 16));
    if name_len == 0 || name_len > 255 {
        return Some(at.finding(key, Family::I, 3, 16));
    }
    if size != 18 + name_len {
        return Some(at.finding(key, Family::I, 1, size));
    }
    None
}
