//! Ranges of bytes of the device, and the blocks of which they meet a copy.

ghost use Rattle.std.specs.Prelude.{◌≡◌, ◌+◌, ◌≤◌, ◌<◌, ◌^◌, ◌==◌, ◌++◌, ℕ, Bool, true, nat_le, nat_lt, List, [], map, IfOk, IfSome, OnOk};
ghost use Rattle.std.specs.List.{count_by, list_any};
ghost use Rattle.verdict.specs.Chunks.{holds_range};
ghost use Rattle.write_cache.specs.Pieces.{ArePiecesOf, Piece};
ghost use Rattle.touched_blocks.specs.declared.spot.Spot.{Spot as ASpot};
ghost use Rattle.touched_blocks.specs.Joining.{IsJoined, joined_from};
ghost use Rattle.touched_blocks.specs.Looks.{spot_of};
ghost use Rattle.touched_blocks.specs.Spots.{AreSpotsOf, LiesIn, StandApart, has_address, has_offset, meets_in_copy, ranges_meet};
ghost use Rattle.touched_blocks.specs.Touched.{written_in};

use crate::range::Range;
use std::alloc::Global;
use verdict::{Chunk, NoMemory};
use write_cache::WriteCache;

/// A range of bytes of a device.
#[derive(Clone, Copy)]
pub(crate) struct Spot {
    /// The offset of its first byte on the device.
    pub(crate) at: u64,
    /// How many bytes it has.
    pub(crate) len: u64,
}

impl Spot {
    /// The addresses that a block of a chunk, of `nodesize` bytes, may have that the range meets in the chunk's copy that begins at an
    /// offset of the device, `None` where it meets nothing of that copy. The least does not lie in front of the chunk, and the greatest
    /// not behind it.
    pub(crate) fn blocks_in(&self, chunk: &Chunk, copy: u64, nodesize: u32) -> Option<Range>
        ensures met { (a : ℕ) → a < 2 ^ 64 →
            meets_in_copy self.now nodesize chunk.now copy a ≡ true → LiesIn result a }
        ensures low { IfSome result (λ range. chunk.now.start ≤ range.from) }
        ensures high { IfSome result (λ range.
            range.last < chunk.now.start + chunk.now.length) }
        ensures only { IfSome result (λ range. (a : ℕ) → 0 < nodesize →
            has_address a range ≡ true → holds_range chunk.now a nodesize ≡ true →
            meets_in_copy self.now nodesize chunk.now copy a ≡ true) }
        ensures meets { IfSome result (λ range.
            ranges_meet self.now.at self.now.len copy chunk.now.length ≡ true) }
    {
        let inside = chunk.length.checked_sub(1)?;
        let more = self.len.checked_sub(1)?;
        let skip = self.at.saturating_sub(copy);
        if skip > inside {
            return None;
        }
        let reach = if self.at < copy {
            more.checked_sub(copy - self.at)?
        } else {
            skip.saturating_add(more)
        };
        let begin = skip.saturating_sub(u64::from(nodesize.saturating_sub(1)));
        let from = chunk.start.checked_add(begin)?;
        let last = chunk.start.saturating_add(reach.min(inside));
        Some(Range { from, last })
    }

    // Whether it ends at an offset or before it.
    fn ends_by(&self, offset: u64) -> bool
        ensures { result ≡ nat_le (self.now.at + self.now.len) offset }
    {
        self.at <= offset && self.len <= offset - self.at
    }

    // Whether it ends just at an offset.
    fn ends_at(&self, offset: u64) -> bool
        ensures { result ≡ (self.now.at + self.now.len == offset) }
    {
        self.at <= offset && offset - self.at == self.len
    }

    // Whether it begins before the end of `len` bytes from an offset on.
    fn begins_before(&self, from: u64, len: u64) -> bool
        ensures { result ≡ nat_lt self.now.at (from + len) }
    {
        self.at < from || self.at - from < len
    }
}

/// Those of some ranges in rising order that may have one of the `len` bytes from an offset on. They are found by two binary searches.
pub(crate) fn spots_in(spots: &[Spot], from: u64, len: u64) -> &[Spot]
    requires { StandApart spots.now }
    ensures any { (o : ℕ) → from ≤ o → o < from + len →
        list_any (has_offset o) result.now ≡ list_any (has_offset o) spots.now }
    ensures fewer { (test : ASpot → Bool) → count_by test result.now ≤ count_by test spots.now }
{
    let first = spots.partition_point(|spot| spot.ends_by(from));
    let rest = &spots[first..];
    let count = rest.partition_point(|spot| spot.begins_before(from, len));
    &rest[..count]
}

/// The ranges of the bytes that pending writes have, in rising order: their maximal runs, no two of which touch. It costs a pass over the
/// parts of the writes, and joins those that touch. The list takes its memory from this allocator.
pub(crate) fn spots_of(alloc: Global, cache: &WriteCache) -> Result<Vec<Spot>, NoMemory>
    ensures spots { IfOk result (λ spots. AreSpotsOf (written_in cache.now) spots.items) }
    ensures pieces { IfOk result (λ spots. (pieces : List Piece) →
        ArePiecesOf cache.now pieces → spots.items ≡ map spot_of pieces) }
{
    let mut spots = Vec::new(alloc);
    let mut last: Option<Spot> = None;
    for (at, bytes) in cache.parts() {
        let len = bytes.len() as u64;
        last = Some(join_part(&mut spots, last, Spot { at, len })?);
    }
    put_last(&mut spots, last)?;
    Ok(spots)
}

// The last range after one part more. A part that begins where the last one ends lengthens it. Else the last one is put behind a list, and
// the part is the last. No memory holds so many bytes that the length passes 64 bits.
fn join_part(spots: &mut Vec<Spot>, last: Option<Spot>, part: Spot) -> Result<Spot, NoMemory>
    ensures { IfOk result (λ next. IsJoined last part next spots.old.items spots.new.items) }
{
    let Some(spot) = last else {
        return Ok(part);
    };
    if !spot.ends_at(part.at) {
        put_last(spots, last)?;
        return Ok(part);
    }
    match spot.len.checked_add(part.len) {
        Some(len) => Ok(Spot { at: spot.at, len }),
        None => Err(NoMemory),
    }
}

// Puts a range behind a list, where there is one.
fn put_last(spots: &mut Vec<Spot>, last: Option<Spot>) -> Result<(), NoMemory>
    ensures { OnOk result (spots.new.items ≡ spots.old.items ++ joined_from last []) }
{
    let Some(spot) = last else {
        return Ok(());
    };
    Ok(spots.push(spot)?)
}
