//! Ranges of logical addresses at which only blocks stand that move.

ghost use Rattle.std.specs.Prelude.{◌≡◌, ◌+◌, ◌≤◌, ◌<◌, ◌^◌, ◌||◌, ℕ, true, false, nat_le, nat_lt, [], IfOk, IfSome, OnOk, MatchOption};
ghost use Rattle.std.specs.List.{Contains, sum_by};
ghost use Rattle.std.specs.List.Sorted.{IsNonDecreasingBy, IsPermutation};
ghost use Rattle.verdict.specs.Chunks.{holds_range};
ghost use Rattle.verdict.specs.declared.place.Chunk.{Chunk as AChunk};
ghost use Rattle.touched_blocks.specs.declared.range.Range.{Range as ARange};
ghost use Rattle.touched_blocks.specs.Adding.{AreAdded};
ghost use Rattle.touched_blocks.specs.Leaving.{HasRoom, IsMoving, IsPassed, both_hold, is_past, leaves, leaves_one, lie_alike, meet_by, ranges_left, same_offset};
ghost use Rattle.touched_blocks.specs.Moves.{is_kept_chunk, same_chunk};
ghost use Rattle.touched_blocks.specs.Spots.{LiesIn, has_address};

use crate::moved::Move;
use crate::range::{Range, push, sort_ranges};
use chunk_map::ChunkMap;
use std::alloc::Global;
use verdict::{Chunk, NoMemory};

/// The ranges of the addresses in old chunks at which a block moves, in the order of where they begin. An old chunk that is not the same
/// among the new ones has all its addresses in them at which no new chunk holds a block at the same place. The list takes its memory from
/// this allocator.
#[tactic(auto, using(crate::proofs::Gaps::all_start))]
pub(crate) fn ranges_left(alloc: Global, test: &Move<'_>) -> Result<Vec<Range>, NoMemory>
    ensures ok { IfOk result (λ ranges. AreAdded (IsMoving test.now) (leaves_one test.now)
        (sum_by (ranges_left (test.now).nodesize (test.now).new.now) (test.now).old.now)
        [] ranges.items) }
    ensures order { IfOk result (λ ranges.
        IsNonDecreasingBy (λ (range : ARange). range.from) ranges.items) }
{
    let new = by_start(alloc, test.new.chunks())?;
    let mut ranges = Vec::new(alloc);
    for chunk in test.old.chunks() {
        add_left(test, new.as_slice(), chunk, &mut ranges)?;
    }
    sort_ranges(&mut ranges);
    Ok(ranges)
}

// Chunks in the order of where they begin. The list takes its memory from this allocator.
fn by_start(alloc: Global, chunks: &[Chunk]) -> Result<Vec<Chunk>, NoMemory>
    ensures all { IfOk result (λ sorted. IsPermutation chunks.now sorted.items) }
    ensures ascend { IfOk result (λ sorted.
        IsNonDecreasingBy (λ (chunk : AChunk). chunk.start) sorted.items) }
{
    let mut sorted = chunks.iter().copied().collect::<Vec<Chunk>>(alloc)?;
    sorted.sort_unstable_by_key(|chunk| chunk.start);
    Ok(sorted)
}

// Puts behind a list the ranges of one old chunk. The new chunks come in the order of where they begin.
fn add_left(
    test: &Move<'_>,
    new: &[Chunk],
    chunk: &Chunk,
    into: &mut Vec<Range>,
) -> Result<(), NoMemory>
    requires all { IsPermutation (test.now).new.now new.now }
    requires ascend { IsNonDecreasingBy (λ (chunk : AChunk). chunk.start) new.now }
    requires one { Contains (test.now).old.now chunk.now }
    ensures { OnOk result (AreAdded (IsMoving test.now) (λ a. leaves test.now a chunk.now)
        (ranges_left (test.now).nodesize (test.now).new.now chunk.now)
        into.old.items into.new.items) }
{
    if is_kept(test.new, chunk) {
        return Ok(());
    }
    let mut cursor = Some(chunk.start);
    for other in new {
        cursor = add_gap(chunk, other, test.nodesize, cursor, into)?;
    }
    match rest_of(chunk, test.nodesize, cursor) {
        None => Ok(()),
        Some(range) => push(into, range),
    }
}

// Puts behind a list the range of those addresses in a chunk from a cursor on that lie in front of where another chunk holds blocks at the
// same place. It gives the cursor behind these.
fn add_gap(
    chunk: &Chunk,
    other: &Chunk,
    nodesize: u32,
    cursor: Option<u64>,
    into: &mut Vec<Range>,
) -> Result<Option<u64>, NoMemory>
    ensures { IfOk result (λ next.
        IsPassed nodesize chunk.now other.now cursor next into.old.items into.new.items) }
{
    let Some(at) = cursor else {
        return Ok(None);
    };
    let Some(both) = both_held(chunk, other, nodesize) else {
        return Ok(Some(at));
    };
    if at < both.from {
        push(
            into,
            Range {
                from: at,
                last: both.from - 1,
            },
        )?;
    }
    Ok(behind(at, both.last))
}

// The cursor behind an address, but not in front of another.
fn behind(at: u64, last: u64) -> Option<u64>
    ensures value { (a : ℕ) → a < 2 ^ 64 →
        is_past result a ≡ (nat_lt a at || nat_le a last) }
    ensures on { (a : ℕ) → a < at → is_past result a ≡ true }
{
    let next = last.checked_add(1)?;
    Some(next.max(at))
}

// The addresses from a cursor on at which a chunk still holds blocks.
fn rest_of(chunk: &Chunk, nodesize: u32, cursor: Option<u64>) -> Option<Range>
    ensures all { (a : ℕ) → a < 2 ^ 64 → is_past cursor a ≡ false →
        holds_range chunk.now a nodesize ≡ true → LiesIn result a }
    ensures past { IfSome result (λ range. (a : ℕ) → has_address a range ≡ true →
        is_past cursor a ≡ false) }
    ensures room { IfSome result (λ range. (a : ℕ) → has_address a range ≡ true →
        HasRoom nodesize chunk.now a) }
{
    let from = cursor?;
    let room = chunk.length.checked_sub(u64::from(nodesize))?;
    let last = chunk.start.saturating_add(room);
    if from <= last {
        Some(Range { from, last })
    } else {
        None
    }
}

// The addresses at which two chunks both hold blocks, at the same places.
fn both_held(chunk: &Chunk, other: &Chunk, nodesize: u32) -> Option<Range>
    ensures all { (a : ℕ) → a < 2 ^ 64 →
        both_hold nodesize chunk.now a other.now ≡ true → LiesIn result a }
    ensures only { IfSome result (λ range. (a : ℕ) → has_address a range ≡ true →
        both_hold nodesize chunk.now a other.now ≡ true) }
    ensures low { IfSome result (λ range. (a : ℕ) → chunk.now.start ≤ a → a < range.from →
        a < other.now.start) }
    ensures room { IfSome result (λ range.
        range.from + nodesize ≤ chunk.now.start + chunk.now.length) }
    ensures meets { IfSome result (λ _. meet_by nodesize chunk.now other.now ≡ true) }
{
    if !lie_alike(chunk, other) {
        return None;
    }
    let from = chunk.start.max(other.start);
    let size = u64::from(nodesize);
    let room = room_from(chunk, from, size)?;
    let other_room = room_from(other, from, size)?;
    let last = from.saturating_add(room.min(other_room));
    Some(Range { from, last })
}

// How far behind an address of a chunk, or its end, the chunk holds blocks of a size.
fn room_from(chunk: &Chunk, from: u64, size: u64) -> Option<u64>
    requires { chunk.now.start ≤ from }
    ensures { MatchOption result (chunk.now.start + chunk.now.length < from + size)
        (λ room. from + room + size ≡ chunk.now.start + chunk.now.length) }
{
    chunk
        .length
        .checked_sub(from - chunk.start)?
        .checked_sub(size)
}

// Whether two chunks give an address that both have the same place.
fn lie_alike(one: &Chunk, other: &Chunk) -> bool
    ensures { result ≡ lie_alike one.now other.now }
{
    same_offset(one.start, one.first, other.start, other.first)
        && match (one.second, other.second) {
            (None, None) => true,
            (Some(a), Some(b)) => same_offset(one.start, a, other.start, b),
            _ => false,
        }
}

// Whether addresses from one on and those from another on stand equally far from where their copies begin.
fn same_offset(start: u64, at: u64, other: u64, to: u64) -> bool
    ensures { result ≡ same_offset start at other to }
{
    if start <= other {
        at <= to && to - at == other - start
    } else {
        to <= at && at - to == start - other
    }
}

// Whether a chunk is the same in a list.
fn is_kept(new: &ChunkMap, chunk: &Chunk) -> bool
    ensures { result ≡ is_kept_chunk new.now chunk.now }
{
    match new.home(chunk.start, chunk.length) {
        None => false,
        Some(other) => same_chunk(chunk, &other),
    }
}

// Whether two chunks hold the same addresses at the same places.
fn same_chunk(one: &Chunk, other: &Chunk) -> bool
    ensures { result ≡ same_chunk one.now other.now }
{
    one.start == other.start
        && one.length == other.length
        && one.first == other.first
        && match (one.second, other.second) {
            (None, None) => true,
            (Some(a), Some(b)) => a == b,
            _ => false,
        }
}
