//! References that are items of their own.

ghost use Rattle.std.specs.Prelude.{◌≡◌, ◌≤◌, length};
ghost use Rattle.extent_items.specs.KeyedRow.{keyed_count_at, keyed_reference, keyed_row, keyed_rows, keyed_size};

use crate::Reference;
use recon_bytes::get_u32;
use verdict::kinds::{EXTENT_DATA_REF, SHARED_BLOCK_REF, SHARED_DATA_REF, TREE_BLOCK_REF};
use verdict::{At, Family, Finding, Key};

/// A reference that is an item of its own and keeps its rules: a `TREE_BLOCK_REF` (address, 176, root),
/// an `EXTENT_DATA_REF` (address, 178, any), a `SHARED_BLOCK_REF` (address, 182, parent) or a
/// `SHARED_DATA_REF` (address, 184, parent).
#[derive(Clone, Copy, Debug, PartialEq, Eq)]
pub struct KeyedRef {
    /// The item's key, whose objectid is the logical address in bytes of the extent.
    pub key: Key,
    /// The reference.
    pub reference: Reference,
}

/// The keyed reference with this key in these bytes, or the finding of the first rule that it breaks,
/// in the order kind (U9), a reference by a block (U11), size (I1), count (I3).
#[tactic(auto, unfolding(crate::specs::KeyedRow::keyed_row, crate::specs::KeyedRow::keyed_rows))]
pub fn read_keyed(at: &At, key: Key, bytes: &[u8]) -> Result<KeyedRef, Finding>
    ensures { result ≡ keyed_row at.now key bytes.now }
{
    if !at.sort.lists(key) {
        return Err(at.finding(key, Family::U, 9, u64::from(key.kind)));
    }
    if key.kind == SHARED_BLOCK_REF || key.kind == SHARED_DATA_REF {
        return Err(at.finding(key, Family::U, 11, u64::from(key.kind)));
    }
    let size = bytes.len();
    if size != keyed_size(key.kind) {
        return Err(at.finding(key, Family::I, 1, size as u64));
    }
    let reference = keyed_reference(key, bytes);
    if reference.count == 0 {
        return Err(at.finding(key, Family::I, 3, keyed_count_at(key.kind)));
    }
    Ok(KeyedRef { key, reference })
}

/// The size in bytes of a keyed reference of a kind.
fn keyed_size(kind: u8) -> usize
    ensures { result ≡ keyed_size kind }
{
    match kind {
        TREE_BLOCK_REF | SHARED_BLOCK_REF => 0,
        EXTENT_DATA_REF => 28,
        _ => 4,
    }
}

/// Where a keyed reference to data has its count.
fn keyed_count_at(kind: u8) -> u64
    ensures { result ≡ keyed_count_at kind }
{
    match kind {
        EXTENT_DATA_REF => 24,
        _ => 0,
    }
}

/// The reference with this key in these bytes.
#[tactic(auto, unfolding(crate::specs::KeyedRow::keyed_reference))]
fn keyed_reference(key: Key, bytes: &[u8]) -> Reference
    requires { keyed_size key.kind ≤ length bytes.now }
    ensures { result ≡ keyed_reference key bytes.now }
{
    match key.kind {
        TREE_BLOCK_REF => Reference::by_tree(key.offset),
        EXTENT_DATA_REF => Reference::by_file(bytes),
        SHARED_BLOCK_REF => Reference::by_node(key.offset),
        _ => Reference::by_leaf(key.offset, get_u32(bytes, 0)),
    }
}
