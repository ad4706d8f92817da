//! Root items.

ghost use Rattle.std.specs.Prelude.{◌≡◌, ◌+◌, ◌≤◌, length, bytes_eq, replicate, IsNone};
ghost use Rattle.recon_bytes.specs.Field.{field};
ghost use Rattle.verdict.specs.Image.{range};
ghost use Rattle.verdict.specs.Rules.{first_failing};
ghost use Rattle.volume_items.specs.RootRow.{is_root_id, root_row, root_rows};

use recon_bytes::{get_u32, get_u64};
use verdict::trees::{
    BLOCK_GROUP_TREE, CSUM_TREE, DATA_RELOC_TREE, DEV_TREE, EXTENT_TREE, FREE_SPACE_TREE, FS_TREE,
    QUOTA_TREE, UUID_TREE,
};
use verdict::{At, Family, Finding, Key, has_group_tree, is_free_id};

/// A root item that keeps its rules: where a tree begins.
#[derive(Clone, Copy, Debug, PartialEq, Eq)]
pub struct RootItem {
    /// The item's key, whose objectid is the id of the tree.
    pub key: Key,
    /// The generation of the tree's root block: u64 at byte 160.
    pub generation: u64,
    /// The logical address of the root block in bytes: u64 at byte 176.
    pub bytenr: u64,
    /// How often the tree is named: u32 at byte 216.
    pub refs: u32,
    /// The level of the root block, 0 to 7: the byte 238.
    pub level: u8,
}

/// The bytes that the key of a deletion in progress has.
const NO_PROGRESS: [u8; 17] = [0; 17];

/// The root item with this key in these bytes, or the finding of the first rule that it breaks, in the
/// order kind (U9), id (U7), size (I1), generation (I3), drop_progress (U8), level (I3).
#[tactic(auto, unfolding(crate::specs::RootRow::root_row))]
pub fn read_root(at: &At, key: Key, bytes: &[u8]) -> Result<RootItem, Finding>
    ensures { result ≡ root_row at.now key bytes.now }
{
    if let Some(found) = root_fault(at, key, bytes) {
        return Err(found);
    }
    Ok(RootItem {
        key,
        generation: get_u64(bytes, 160),
        bytenr: get_u64(bytes, 176),
        refs: get_u32(bytes, 216),
        level: bytes[238],
    })
}

// The first finding on a root item.
#[tactic(auto, unfolding(crate::specs::RootRow::root_rows))]
fn root_fault(at: &At, key: Key, bytes: &[u8]) -> Option<Finding>
    ensures found { result ≡ first_failing (root_rows at.now key bytes.now) }
    ensures sized { IsNone result → 239 ≤ length bytes.now }
{
    if !at.sort.lists(key) {
        return Some(at.finding(key, Family::U, 9, u64::from(key.kind)));
    }
    if !may_be_root(at.compat_ro, key.objectid) {
        return Some(at.finding(key, Family::U, 7, key.objectid));
    }
    let size = bytes.len() as u64;
    if size != 439 && size != 239 {
        return Some(at.finding(key, Family::I, 1, size));
    }
    if get_u64(bytes, 160) > at.generation {
        return Some(at.finding(key, Family::I, 3, 160));
    }
    if !is_at_rest(bytes) {
        return Some(at.finding(key, Family::U, 8, 0));
    }
    if bytes[238] > 7 {
        return Some(at.finding(key, Family::I, 3, 238));
    }
    None
}

// Whether a root item may have this id.
fn may_be_root(compat_ro: u64, id: u64) -> bool
    ensures { result ≡ is_root_id compat_ro id }
{
    id == EXTENT_TREE
        || id == DEV_TREE
        || id == FS_TREE
        || id == CSUM_TREE
        || id == QUOTA_TREE
        || id == UUID_TREE
        || id == FREE_SPACE_TREE
        || id == DATA_RELOC_TREE
        || is_free_id(id)
        || id == BLOCK_GROUP_TREE && has_group_tree(compat_ro)
}

// Whether no deletion of the tree is in progress.
fn is_at_rest(bytes: &[u8]) -> bool
    requires { 239 ≤ length bytes.now }
    ensures { result ≡ bytes_eq (range 220 17 bytes.now) (replicate 17 0) }
{
    &bytes[220..237] == NO_PROGRESS.as_slice()
}
