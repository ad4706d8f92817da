//! The rules on a chunk map as a whole.

ghost use Rattle.std.specs.Prelude.{◌≡◌, ◌+◌, ◌≤◌, ◌<◌, nat_lt, [], true, take};
ghost use Rattle.std.specs.List.{list_any};
ghost use Rattle.verdict.specs.Rules.{first_failing};
ghost use Rattle.volume_items.specs.MapRules.{chunk_finding, same_chunk, array_rows, meets_chunk, rows_of_chunk, rows_by_start, second_rows, starts_inside, last_before};
ghost use Rattle.chunk_map.specs.Order.{AllClear, MeetsNone};

use crate::copies::{common, ends_by, meets};
use verdict::kinds::CHUNK_ITEM;
use verdict::trees::CHUNK_TREE;
use verdict::{Chunk, Family, Finding, Key, Rule};

/// The finding on the first chunk of the system array that is not one of the chunk tree (S10).
pub fn array_fault(chunks: &[Chunk], array: &[Chunk]) -> Option<Finding>
    ensures { result ≡ first_failing (array_rows chunks.now array.now) }
{
    for chunk in array {
        if !contains(chunks, chunk) {
            return Some(finding(Family::S, 10, chunk.start, 0));
        }
    }
    None
}

/// Whether a chunk is one of these.
fn contains(chunks: &[Chunk], chunk: &Chunk) -> bool
    ensures { result ≡ list_any (same_chunk chunk.now) chunks.now }
{
    chunks.iter().any(|other| same(chunk, other))
}

/// Whether two chunks have the same start, length, type and physical offsets.
fn same(chunk: &Chunk, other: &Chunk) -> bool
    ensures { result ≡ same_chunk chunk.now other.now }
{
    chunk.start == other.start
        && chunk.length == other.length
        && chunk.class == other.class
        && chunk.first == other.first
        && chunk.second == other.second
}

/// The first finding on chunks by start (M1, M3, M2), on a device of `end` bytes, where no two copies of the
/// first `front` chunks meet. Only the copies of those behind are compared with all before.
pub fn sorted_fault(chunks: &[Chunk], front: usize, end: u64) -> Option<Finding>
    requires { AllClear (take front chunks.now) }
    ensures { result ≡ first_failing (rows_by_start [] chunks.now end) }
{
    for (place, chunk) in chunks.iter().enumerate() {
        if let Some(found) = fault_behind(&chunks[..place], chunk, place < front, end) {
            return Some(found);
        }
    }
    None
}

/// The first finding on a chunk behind those that start before it, where it may be known that none of
/// its copies meets an earlier one.
fn fault_behind(before: &[Chunk], chunk: &Chunk, clear: bool, end: u64) -> Option<Finding>
    requires { clear ≡ true → MeetsNone before.now chunk.now }
    ensures { result ≡ first_failing (rows_of_chunk before.now chunk.now end) }
{
    if clear {
        bounds_fault(before, chunk, end)
    } else {
        chunk_fault(before, chunk, end)
    }
}

/// The first finding on a chunk none of whose copies meets an earlier one.
fn bounds_fault(before: &[Chunk], chunk: &Chunk, end: u64) -> Option<Finding>
    requires { MeetsNone before.now chunk.now }
    ensures { result ≡ first_failing (rows_of_chunk before.now chunk.now end) }
{
    if let Some(last) = before.last() {
        if inside(last, chunk) {
            return Some(finding(Family::M, 1, chunk.start, last.start));
        }
    }
    if !ends_by(chunk.first, chunk.length, end) {
        return Some(finding(Family::M, 3, chunk.start, chunk.first));
    }
    second_bound_fault(before, chunk, end)
}

/// The first finding on the second copy of a chunk, which meets no earlier one.
fn second_bound_fault(before: &[Chunk], chunk: &Chunk, end: u64) -> Option<Finding>
    requires { MeetsNone before.now chunk.now }
    ensures { result ≡ first_failing (second_rows before.now chunk.now chunk.now.second end) }
{
    match chunk.second {
        Some(second) if !ends_by(second, chunk.length, end) => {
            Some(finding(Family::M, 3, chunk.start, second))
        }
        _ => None,
    }
}

/// The first finding on a chunk behind those that start before it.
fn chunk_fault(before: &[Chunk], chunk: &Chunk, end: u64) -> Option<Finding>
    ensures { result ≡ first_failing (rows_of_chunk before.now chunk.now end) }
{
    if let Some(last) = before.last() {
        if inside(last, chunk) {
            return Some(finding(Family::M, 1, chunk.start, last.start));
        }
    }
    if !ends_by(chunk.first, chunk.length, end) {
        return Some(finding(Family::M, 3, chunk.start, chunk.first));
    }
    if meets_any(before, chunk.first, chunk.length) {
        return Some(finding(Family::M, 2, chunk.start, chunk.first));
    }
    second_fault(before, chunk, end)
}

/// Whether a chunk starts before the end of the one before it.
pub fn inside(last: &Chunk, chunk: &Chunk) -> bool
    ensures { result ≡ nat_lt chunk.now.start (last.now.start + last.now.length) }
{
    chunk.start < last.start || chunk.start - last.start < last.length
}

/// The first finding on the second copy of a chunk.
fn second_fault(before: &[Chunk], chunk: &Chunk, end: u64) -> Option<Finding>
    ensures { result ≡ first_failing (second_rows before.now chunk.now chunk.now.second end) }
{
    let second = chunk.second?;
    if !ends_by(second, chunk.length, end) {
        return Some(finding(Family::M, 3, chunk.start, second));
    }
    if meets_any(before, second, chunk.length)
        || common(second, chunk.length, chunk.first, chunk.length)
    {
        return Some(finding(Family::M, 2, chunk.start, second));
    }
    None
}

/// Whether `len` bytes from a physical offset on meet a copy of one of these chunks.
fn meets_any(chunks: &[Chunk], at: u64, len: u64) -> bool
    ensures { result ≡ list_any (meets_chunk at len) chunks.now }
{
    chunks.iter().any(|chunk| meets(at, len, chunk))
}

/// A finding on the chunk that begins at a logical address.
fn finding(family: Family, number: u8, start: u64, detail: u64) -> Finding
    ensures { result ≡ chunk_finding family number start detail }
{
    Finding {
        rule: Rule { family, number },
        tree: CHUNK_TREE,
        block: 0,
        key: Key {
            objectid: 256,
            kind: CHUNK_ITEM,
            offset: start,
        },
        detail,
    }
}
