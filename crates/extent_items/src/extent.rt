//! Items of extents: of file data, and of tree blocks.

ghost use Rattle.std.specs.Prelude.{◌≡◌, ◌+◌, ◌≤◌, ◌<◌, length, drop, MatchResult, Ok, Err, IsNone};
ghost use Rattle.verdict.specs.Rules.{first_failing};
ghost use Rattle.extent_items.specs.ExtentItems.{extent_fields_in, references_left};
ghost use Rattle.extent_items.specs.ExtentRow.{block_head_rows, data_head_rows, extent_row, head_rows};
ghost use Rattle.extent_items.specs.ReferenceRows.{block_reference_rows, data_reference_rows, one_reference_rows, reference_rows};
ghost use Rattle.extent_items.specs.References.{body_size};

use crate::References;
use crate::reference::{body_size, count_at, inline_reference};
use recon_bytes::get_u64;
use verdict::kinds::{
    EXTENT_DATA_REF, EXTENT_ITEM, SHARED_BLOCK_REF, SHARED_DATA_REF, TREE_BLOCK_REF,
};
use verdict::{At, Family, Finding, Key, is_multiple};

/// The flag of an extent with file data.
const DATA: u64 = 1;

/// The flag of an extent that is a tree block.
const TREE_BLOCK: u64 = 2;

/// The flag of a tree block whose children are referred to by its address.
const FULL_BACKREF: u64 = 256;

/// The item of an extent that keeps its rules, in the bytes of its leaf: an `EXTENT_ITEM` (address, 168,
/// length) of file data or a `METADATA_ITEM` (address, 169, level) of a tree block.
#[derive(Clone, Copy, Debug)]
pub struct ExtentItem<'a> {
    /// The item's key, whose objectid is the logical address in bytes where the extent begins.
    pub key: Key,
    /// How often the extent is used: u64 at byte 0.
    pub refs: u64,
    /// The generation in which the extent was allocated: u64 at byte 8.
    pub generation: u64,
    /// The flags, a bit each: 1 data, 2 tree block. u64 at byte 16.
    pub flags: u64,
    /// The bytes of the references, which `references` reads.
    pub references: &'a [u8],
}

impl<'a> ExtentItem<'a> {
    /// The references in the item, from byte 24 on, in the order of the bytes.
    pub fn references(&self) -> References<'a>
        ensures { references_left result ≡ (extent_fields_in self.now).references }
    {
        References {
            left: self.references,
        }
    }
}

/// The item of an extent with this key in these bytes, or the finding of the first rule that it breaks,
/// in the order kind (U9), key (I2), size (I1), flags (U10 or U11, I3), and for each reference of data
/// its type (I3), body (I1), count (I3) and whether a block refers (U11), of a tree block whether a
/// block refers (U11), its type (I3) and body (I1).
#[tactic(auto, unfolding(crate::specs::ExtentRow::extent_row), using(crate::proofs::Behind::extent_steps))]
pub fn read_extent<'a>(at: &At, key: Key, bytes: &'a [u8]) -> Result<ExtentItem<'a>, Finding>
    ensures { MatchResult result
        (λ item. extent_row at.now key bytes.now ≡ Ok (extent_fields_in item))
        (λ finding. extent_row at.now key bytes.now ≡ Err finding) }
{
    if let Some(found) = head_fault(at, key, bytes) {
        return Err(found);
    }
    if let Some(found) = references_fault(at, key, bytes) {
        return Err(found);
    }
    Ok(ExtentItem {
        key,
        refs: get_u64(bytes, 0),
        generation: get_u64(bytes, 8),
        flags: get_u64(bytes, 16),
        references: &bytes[24..],
    })
}

/// The first finding on what stands before the references.
fn head_fault(at: &At, key: Key, bytes: &[u8]) -> Option<Finding>
    ensures found { result ≡ first_failing (head_rows at.now key bytes.now) }
    ensures sized { IsNone result → 24 ≤ length bytes.now }
{
    match key.kind {
        EXTENT_ITEM => data_head_fault(at, key, bytes),
        _ => block_head_fault(at, key, bytes),
    }
}

/// The first finding on an `EXTENT_ITEM` before its references.
#[tactic(auto, unfolding(crate::specs::ExtentRow::data_head_rows))]
fn data_head_fault(at: &At, key: Key, bytes: &[u8]) -> Option<Finding>
    ensures found { result ≡ first_failing (data_head_rows at.now key bytes.now) }
    ensures sized { IsNone result → 24 ≤ length bytes.now }
{
    if !at.sort.lists(key) {
        return Some(at.finding(key, Family::U, 9, u64::from(key.kind)));
    }
    let fits = key.offset <= u64::MAX - key.objectid;
    if !is_multiple(key.objectid) || !is_multiple(key.offset) || key.offset == 0 || !fits {
        return Some(at.finding(key, Family::I, 2, 0));
    }
    let size = bytes.len() as u64;
    if size < 24 {
        return Some(at.finding(key, Family::I, 1, size));
    }
    let flags = get_u64(bytes, 16);
    if flags & TREE_BLOCK == TREE_BLOCK {
        return Some(at.finding(key, Family::U, 10, flags));
    }
    if flags != DATA {
        return Some(at.finding(key, Family::I, 3, 16));
    }
    None
}

/// The first finding on a `METADATA_ITEM` before its references.
#[tactic(auto, unfolding(crate::specs::ExtentRow::block_head_rows))]
fn block_head_fault(at: &At, key: Key, bytes: &[u8]) -> Option<Finding>
    ensures found { result ≡ first_failing (block_head_rows at.now key bytes.now) }
    ensures sized { IsNone result → 24 ≤ length bytes.now }
{
    if !at.sort.lists(key) {
        return Some(at.finding(key, Family::U, 9, u64::from(key.kind)));
    }
    let fits = u64::from(at.nodesize) <= u64::MAX - key.objectid;
    if !is_multiple(key.objectid) || key.offset > 7 || !fits {
        return Some(at.finding(key, Family::I, 2, 0));
    }
    let size = bytes.len() as u64;
    if size < 24 {
        return Some(at.finding(key, Family::I, 1, size));
    }
    let flags = get_u64(bytes, 16);
    if flags == TREE_BLOCK | FULL_BACKREF {
        return Some(at.finding(key, Family::U, 11, FULL_BACKREF));
    }
    if flags != TREE_BLOCK {
        return Some(at.finding(key, Family::I, 3, 16));
    }
    None
}

/// The first finding on the references, the first of which begins at byte 24 of the item.
#[tactic(auto, using(crate::proofs::Behind::reference_steps))]
fn references_fault(at: &At, key: Key, bytes: &[u8]) -> Option<Finding>
    requires { 24 ≤ length bytes.now }
    ensures { result ≡ first_failing (reference_rows at.now key 24 (drop 24 bytes.now)) }
{
    let mut offset = 24;
    while offset < bytes.len() {
        let kind = bytes[offset];
        let body = &bytes[offset + 1..];
        if let Some(found) = reference_fault(at, key, offset as u64, kind, body) {
            return Some(found);
        }
        offset += 1 + body_size(kind);
    }
    None
}

/// The first finding on a reference whose type stands at this byte of the item.
fn reference_fault(at: &At, key: Key, offset: u64, kind: u8, body: &[u8]) -> Option<Finding>
    requires { offset + 1 + length body.now ≤ 18446744073709551615 }
    ensures found { result ≡ first_failing (one_reference_rows at.now key offset kind body.now) }
    ensures sized { IsNone result → body_size kind ≤ length body.now }
{
    match key.kind {
        EXTENT_ITEM => data_reference_fault(at, key, offset, kind, body),
        _ => block_reference_fault(at, key, offset, kind, body),
    }
}

/// The first finding on a reference of an `EXTENT_ITEM`.
#[tactic(auto, unfolding(crate::specs::ReferenceRows::data_reference_rows))]
fn data_reference_fault(at: &At, key: Key, offset: u64, kind: u8, body: &[u8]) -> Option<Finding>
    requires { offset + 1 + length body.now ≤ 18446744073709551615 }
    ensures found { result ≡ first_failing (data_reference_rows at.now key offset kind body.now) }
    ensures sized { IsNone result → body_size kind ≤ length body.now }
{
    if kind != EXTENT_DATA_REF && kind != SHARED_DATA_REF {
        return Some(at.finding(key, Family::I, 3, offset));
    }
    if body.len() < body_size(kind) {
        return Some(at.finding(key, Family::I, 1, offset + 1));
    }
    if inline_reference(kind, body).count == 0 {
        return Some(at.finding(key, Family::I, 3, offset + 1 + count_at(kind)));
    }
    if kind == SHARED_DATA_REF {
        return Some(at.finding(key, Family::U, 11, u64::from(kind)));
    }
    None
}

/// The first finding on a reference of a `METADATA_ITEM`.
#[tactic(auto, unfolding(crate::specs::ReferenceRows::block_reference_rows))]
fn block_reference_fault(at: &At, key: Key, offset: u64, kind: u8, body: &[u8]) -> Option<Finding>
    requires { offset + 1 + length body.now ≤ 18446744073709551615 }
    ensures found { result ≡ first_failing (block_reference_rows at.now key offset kind body.now) }
    ensures sized { IsNone result → body_size kind ≤ length body.now }
{
    if kind == SHARED_BLOCK_REF {
        return Some(at.finding(key, Family::U, 11, u64::from(kind)));
    }
    if kind != TREE_BLOCK_REF {
        return Some(at.finding(key, Family::I, 3, offset));
    }
    if body.len() < body_size(kind) {
        return Some(at.finding(key, Family::I, 1, offset + 1));
    }
    None
}
