//! The spans that a change of chunks or of flags reaches.

ghost use Rattle.std.specs.Prelude.{◌+◌, ◌≤◌, List, length, OnOk};
ghost use Rattle.live_index.specs.Table.{pairs_of};
ghost use Rattle.span_index.specs.Table.{times_of};
ghost use Rattle.span_index.specs.declared.span.Span.{Span as ASpan};
ghost use Rattle.change_records.specs.Passes.{AreSpansOf, AreStopsOf, chunk_looks, chunks_looks, inodes_looks, is_searched};
ghost use Rattle.change_records.specs.Search.{AreAlone, AreLawful, MeetsChanged, MeetsChunk, Searched, ShowsChanged, known, new_flags};

use crate::ItemRef;
use crate::homes::is_searched;
use crate::kept::Inode;
use crate::search::{Range, Sides, take_file, take_range};
use chunk_map::{Bases, ChunkMap};
use live_index::LiveIndex;
use recon_disk::Steps;
use span_index::{SortName, SpanIndex};
use std::collections::BTreeSet;
use verdict::{Chunk, NoMemory};

/// A list of chunks, and the list that it is compared with.
#[derive(Drop)]
pub(crate) struct Chunks<'a> {
    /// The chunks.
    pub(crate) list: &'a [Chunk],
    /// The other list.
    pub(crate) others: &'a ChunkMap,
    /// Whether the chunks of the new list stand apart: else each chunk is searched.
    pub(crate) apart: bool,
    /// Whether they are the new chunks: of those the ones count that no old chunk holds whole.
    pub(crate) is_new: bool,
}

/// Puts the items among some, of all spans that meet a chunk which is searched, that post otherwise and that no
/// change names.
pub(crate) fn take_chunks<L, B: Bases<Table = LiveIndex<L>>>(
    sides: &Sides<'_, B>,
    spans: &SpanIndex<L>,
    chunks: &Chunks<'_>,
    refs: &mut BTreeSet<ItemRef>,
    steps: &mut Steps<L>,
) -> Result<(), NoMemory>
    ensures searched { let b = sides.now.bases.now in
        let k = known (B.chunks b) (B.superblock b).nodesize (B.is_sum_free b)
        (pairs_of (B.table b))
        sides.now.fresh.now sides.now.made.now in
        let list = chunks.now.list.now in
        AreLawful (B.superblock b).nodesize (times_of spans.now) →
        OnOk result (Searched k (times_of spans.now)
        (MeetsChanged list (is_searched chunks.now.others.now chunks.now.apart chunks.now.is_new)
        (length list))
        refs.old refs.new) }
    ensures looks { let c = chunks.now in
        (stops : List ASpan) → AreStopsOf (times_of spans.now) stops →
        steps.new ≤ steps.old
        + chunks_looks (is_searched c.others.now c.apart c.is_new) stops c.list.now }
{
    for chunk in chunks.list {
        if is_searched(chunk, chunks.others, chunks.apart, chunks.is_new) {
            take_chunk(sides, spans, chunk, refs, steps)?;
        }
    }
    Ok(())
}

// The same of one chunk.
fn take_chunk<L, B: Bases<Table = LiveIndex<L>>>(
    sides: &Sides<'_, B>,
    spans: &SpanIndex<L>,
    chunk: &Chunk,
    refs: &mut BTreeSet<ItemRef>,
    steps: &mut Steps<L>,
) -> Result<(), NoMemory>
    ensures searched { let b = sides.now.bases.now in
        let k = known (B.chunks b) (B.superblock b).nodesize (B.is_sum_free b)
        (pairs_of (B.table b))
        sides.now.fresh.now sides.now.made.now in
        AreLawful (B.superblock b).nodesize (times_of spans.now) →
        OnOk result (Searched k (times_of spans.now) (MeetsChunk chunk.now) refs.old refs.new) }
    ensures looks { (stops : List ASpan) → AreStopsOf (times_of spans.now) stops →
        steps.new ≤ steps.old + chunk_looks stops chunk.now }
{
    let from = chunk.start;
    let until = from.saturating_add(chunk.length);
    let sort = SortName::Owned;
    take_range(sides, spans, &Range { sort, from, until }, refs, steps)?;
    let sort = SortName::Shown;
    take_range(sides, spans, &Range { sort, from, until }, refs, steps)?;
    Ok(())
}

/// Puts the items among some, of all spans that one of some inodes shows whose flag the changes turned, that post
/// otherwise and that no change names.
pub(crate) fn take_inodes<L, B: Bases<Table = LiveIndex<L>>>(
    sides: &Sides<'_, B>,
    spans: &SpanIndex<L>,
    inodes: &[Inode],
    refs: &mut BTreeSet<ItemRef>,
    steps: &mut Steps<L>,
) -> Result<(), NoMemory>
    ensures searched { let b = sides.now.bases.now in
        let made = sides.now.made.now in
        let k = known (B.chunks b) (B.superblock b).nodesize (B.is_sum_free b)
        (pairs_of (B.table b))
        sides.now.fresh.now made in
        let list = inodes.now in
        AreLawful (B.superblock b).nodesize (times_of spans.now) → AreAlone (times_of spans.now) →
        OnOk result (Searched k (times_of spans.now)
        (ShowsChanged list (B.is_sum_free b) (new_flags made (B.is_sum_free b)) (length list))
        refs.old refs.new) }
    ensures looks { let free = B.is_sum_free sides.now.bases.now in
        (all : List ASpan) → AreSpansOf (times_of spans.now) all →
        steps.new ≤ steps.old
        + inodes_looks free (new_flags sides.now.made.now free) all inodes.now }
{
    for inode in inodes {
        let was = sides.bases.sum_free(inode.tree, inode.ino);
        if sides.made.flag(inode.tree, inode.ino, was) != was {
            take_file(sides, spans, inode, refs, steps)?;
        }
    }
    Ok(())
}
