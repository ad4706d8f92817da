//! Block group items.

ghost use Rattle.std.specs.Prelude.{◌≡◌, ◌≤◌, length, IsNone};
ghost use Rattle.verdict.specs.Rules.{first_failing};
ghost use Rattle.extent_items.specs.GroupRow.{group_row, group_rows, lists_group};

use recon_bytes::get_u64;
use verdict::{At, Family, Finding, Key, TreeSort, has_group_tree};

/// A block group item (`BLOCK_GROUP_ITEM`) that keeps its rules: how much of a chunk is in use.
#[derive(Clone, Copy, Debug, PartialEq, Eq)]
pub struct GroupItem {
    /// The item's key: the logical address where the group begins, and its length, both in bytes.
    pub key: Key,
    /// How many bytes of the group are in use: u64 at byte 0.
    pub used: u64,
    /// The type of the group's chunk, a bit each: u64 at byte 16.
    pub flags: u64,
}

/// The block group item with this key in these bytes, or the finding of the first rule that it breaks,
/// in the order tree and kind (U9), the key's length (I2), size (I1).
#[tactic(auto, unfolding(crate::specs::GroupRow::group_row))]
pub fn read_group(at: &At, key: Key, bytes: &[u8]) -> Result<GroupItem, Finding>
    ensures { result ≡ group_row at.now key bytes.now }
{
    if let Some(found) = group_fault(at, key, bytes) {
        return Err(found);
    }
    Ok(GroupItem {
        key,
        used: get_u64(bytes, 0),
        flags: get_u64(bytes, 16),
    })
}

// Whether a tree lists the block group with this key: that of the extents, unless block groups have one of their own.
fn lists(at: &At, key: Key) -> bool
    ensures { result ≡ lists_group at.now key }
{
    let is_elsewhere = match at.sort {
        TreeSort::Extent => has_group_tree(at.compat_ro),
        _ => false,
    };
    at.sort.lists(key) && !is_elsewhere
}

// The first finding on a block group item.
#[tactic(auto, unfolding(crate::specs::GroupRow::group_rows))]
fn group_fault(at: &At, key: Key, bytes: &[u8]) -> Option<Finding>
    ensures found { result ≡ first_failing (group_rows at.now key bytes.now) }
    ensures sized { IsNone result → 24 ≤ length bytes.now }
{
    if !lists(at, key) {
        return Some(at.finding(key, Family::U, 9, u64::from(key.kind)));
    }
    if key.offset == 0 {
        return Some(at.finding(key, Family::I, 2, 0));
    }
    let size = bytes.len() as u64;
    if size != 24 {
        return Some(at.finding(key, Family::I, 1, size));
    }
    None
}
