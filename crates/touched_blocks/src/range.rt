//! Ranges of logical addresses at which blocks may stand that pending writes touch.

ghost use Rattle.std.specs.Prelude.{◌≡◌, [], ◌∷◌, ◌++◌, if◌then◌else◌, IfOk, OnOk};
ghost use Rattle.std.specs.List.{Contains};
ghost use Rattle.std.specs.List.Sorted.{IsNonDecreasingBy, IsPermutation};
ghost use Rattle.touched_blocks.specs.declared.range.Range.{Range as ARange};
ghost use Rattle.touched_blocks.specs.Adding.{AreAdded, IsCopyOf, IsTouched, IsWrittenIn};
ghost use Rattle.touched_blocks.specs.Looks.{in_copies, in_one_copy, range_count};
ghost use Rattle.touched_blocks.specs.Pending.{touches, touches_in_chunk, touches_in_copy};
ghost use Rattle.touched_blocks.specs.Spots.{meets_in_copy, ranges_meet};

use crate::pending::Pending;
use crate::spot::{Spot, spots_in};
use std::alloc::Global;
use verdict::{Chunk, NoMemory};

/// Logical addresses from one on up to another.
#[derive(Clone, Copy)]
pub(crate) struct Range {
    /// The least of them.
    pub(crate) from: u64,
    /// The greatest.
    pub(crate) last: u64,
}

/// The ranges of the addresses at which pending writes may touch a block, in the order of where they begin: for each copy of a chunk, one
/// for each piece of the writes that meets it. The list takes its memory from this allocator.
#[tactic(auto, using(crate::proofs::Adding::chunks))]
pub(crate) fn ranges_of(alloc: Global, pending: &Pending<'_>) -> Result<Vec<Range>, NoMemory>
    ensures ok { IfOk result (λ ranges. AreAdded (IsTouched pending.now) (touches pending.now)
        (range_count (pending.now).spots.items (pending.now).map.now) [] ranges.items) }
    ensures order { IfOk result (λ ranges.
        IsNonDecreasingBy (λ (range : ARange). range.from) ranges.items) }
{
    let mut ranges = Vec::new(alloc);
    for chunk in pending.map.chunks() {
        add_chunk(pending, chunk, &mut ranges)?;
    }
    sort_ranges(&mut ranges);
    Ok(ranges)
}

// Puts behind a list the ranges of those addresses at which the writes may touch a block in a chunk.
#[tactic(auto, using(crate::proofs::Adding::copies))]
fn add_chunk(pending: &Pending<'_>, chunk: &Chunk, into: &mut Vec<Range>) -> Result<(), NoMemory>
    requires { Contains (pending.now).map.now chunk.now }
    ensures { OnOk result (AreAdded (IsTouched pending.now)
        (touches_in_chunk pending.now chunk.now) (in_copies (pending.now).spots.items chunk.now) into.old.items into.new.items) }
{
    add_copy(pending, chunk, chunk.first, into)?;
    match chunk.second {
        None => Ok(()),
        Some(second) => add_copy(pending, chunk, second, into),
    }
}

// The same in the chunk's copy that begins at an offset of the device.
#[tactic(auto, using(crate::proofs::Adding::spots_start))]
fn add_copy(
    pending: &Pending<'_>,
    chunk: &Chunk,
    copy: u64,
    into: &mut Vec<Range>,
) -> Result<(), NoMemory>
    requires { IsCopyOf (pending.now).map.now chunk.now copy }
    ensures { OnOk result (AreAdded (IsTouched pending.now)
        (touches_in_copy pending.now chunk.now copy)
        (in_one_copy (pending.now).spots.items chunk.now.length copy)
        into.old.items into.new.items) }
{
    for spot in spots_in(pending.spots.as_slice(), copy, chunk.length) {
        add_spot(pending, spot, chunk, copy, into)?;
    }
    Ok(())
}

// The same of those blocks alone that a piece of the writes meets there.
#[tactic(auto, using(crate::proofs::Adding::none_added))]
fn add_spot(
    pending: &Pending<'_>,
    spot: &Spot,
    chunk: &Chunk,
    copy: u64,
    into: &mut Vec<Range>,
) -> Result<(), NoMemory>
    requires copy { IsCopyOf (pending.now).map.now chunk.now copy }
    requires written { IsWrittenIn pending.now spot.now copy chunk.now.length }
    ensures { OnOk result (AreAdded (IsTouched pending.now)
        (meets_in_copy spot.now (pending.now).nodesize chunk.now copy)
        (if ranges_meet spot.now.at spot.now.len copy chunk.now.length then 1 else 0)
        into.old.items into.new.items) }
{
    match spot.blocks_in(chunk, copy, pending.nodesize) {
        None => Ok(()),
        Some(range) => push(into, range),
    }
}

/// Puts a range behind a list.
pub(crate) fn push(into: &mut Vec<Range>, range: Range) -> Result<(), NoMemory>
    ensures { OnOk result (into.new.items ≡ into.old.items ++ range ∷ []) }
{
    Ok(into.push(range)?)
}

/// Puts ranges in the order of where they begin.
pub(crate) fn sort_ranges(ranges: &mut Vec<Range>)
    ensures all { IsPermutation ranges.old.items ranges.new.items }
    ensures ascend { IsNonDecreasingBy (λ (range : ARange). range.from) ranges.new.items }
{
    ranges.sort_unstable_by_key(|range| range.from);
}
