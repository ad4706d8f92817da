//! The items of spans that post otherwise.

ghost use Rattle.std.specs.Prelude.{◌≡◌, ◌↔◌, ◌+◌, ◌*◌, ◌<◌, ◌≤◌, ◌^◌, IsTrue, List, OnOk};
ghost use Rattle.std.specs.List.{count_by};
ghost use Rattle.live_index.specs.Table.{pairs_of};
ghost use Rattle.span_index.specs.Spans.{offset_of};
ghost use Rattle.span_index.specs.Table.{times_of};
ghost use Rattle.change_records.specs.Affected.{context_with};
ghost use Rattle.span_index.specs.declared.span.Span.{Span as ASpan};
ghost use Rattle.change_records.specs.Passes.{AreSpansOf, AreStopsOf, inode_looks, overlaps};
ghost use Rattle.change_records.specs.Search.{AreAlone, AreLawful, IsLawfulSpan, IsNameOf, IsShownBy, Overlaps, Searched, SpanDiffers, Takes, known, new_flags, owned_bytes};

use crate::ItemRef;
use crate::homes::are_alike;
use crate::kept::{Inode, Made};
use chunk_map::{Bases, ChunkMap};
use live_index::LiveIndex;
use recon_disk::Steps;
use span_index::{SortName, Span, SpanIndex, SpanSort};
use std::collections::BTreeSet;
use verdict::kinds::{EXTENT_DATA, EXTENT_ITEM, METADATA_ITEM};
use verdict::trees::EXTENT_TREE;
use verdict::{Key, NoMemory, SECTOR};

/// A range of the volume, and the sort of spans that are looked for in it.
#[derive(Clone, Copy)]
pub(crate) struct Range {
    /// The sort of the spans.
    pub(crate) sort: SortName,
    /// The logical address in bytes after which they end.
    pub(crate) from: u64,
    /// The logical address in bytes before which they begin.
    pub(crate) until: u64,
}

/// The two sides that postings are compared by.
#[derive(Drop)]
pub(crate) struct Sides<'a, B> {
    /// What is known of the old image.
    pub(crate) bases: &'a B,
    /// The new list of chunks.
    pub(crate) fresh: &'a ChunkMap,
    /// What the changes name and make of flags.
    pub(crate) made: &'a Made,
}

/// Whether the item of a span posts otherwise.
pub(crate) fn differs<B: Bases>(sides: &Sides<'_, B>, span: &Span) -> bool
    ensures { let b = sides.now.bases.now in
        let before = context_with (B.chunks b) (B.superblock b).nodesize (B.is_sum_free b) in
        let after = context_with sides.now.fresh.now (B.superblock b).nodesize
        (new_flags sides.now.made.now (B.is_sum_free b)) in
        IsLawfulSpan (B.superblock b).nodesize span.now →
        IsTrue result ↔ SpanDiffers before after span.now }
{
    match span.sort {
        SpanSort::Owned { of_data } => {
            let bytes = owned_bytes(sides.bases, of_data, span.sectors);
            !are_alike(
                sides.bases.map().home(span.first, bytes),
                sides.fresh.home(span.first, bytes),
            )
        }
        SpanSort::Summed => false,
        SpanSort::Shown {
            tree,
            ino,
            extent,
            length,
            ..
        } => {
            let was = sides.bases.sum_free(tree, ino);
            let is = sides.made.flag(tree, ino, was);
            let counted = !was && sides.bases.map().home(extent, length).is_some();
            let counts = !is && sides.fresh.home(extent, length).is_some();
            span.sectors > 0 && counted != counts
        }
    }
}

// The bytes of an extent by its sectors, or those of a tree block.
fn owned_bytes<B: Bases>(bases: &B, of_data: bool, sectors: u64) -> u64
    ensures { sectors * 4096 < 2 ^ 64 →
        result ≡ owned_bytes (B.superblock bases.now).nodesize of_data sectors }
{
    if of_data {
        sectors.saturating_mul(SECTOR)
    } else {
        u64::from(bases.sup().nodesize)
    }
}

// The name of the item of a span, where it has one.
fn name_of<L>(live: &LiveIndex<L>, span: &Span, steps: &mut Steps<L>) -> Option<ItemRef>
    ensures name { span.now.sectors * 4096 < 2 ^ 64 →
        IsNameOf (pairs_of live.now) span.now result }
    ensures looks { steps.new ≤ steps.old + 1 }
{
    let (tree, objectid, kind, offset) = match span.sort {
        SpanSort::Owned { of_data: true } => (
            EXTENT_TREE,
            span.first,
            EXTENT_ITEM,
            span.sectors.saturating_mul(SECTOR),
        ),
        SpanSort::Owned { of_data: false } => {
            let block = live.at_or_after(span.first, 0, steps)?;
            if block.address != span.first {
                return None;
            }
            (
                EXTENT_TREE,
                span.first,
                METADATA_ITEM,
                u64::from(block.level),
            )
        }
        SpanSort::Summed => return None,
        SpanSort::Shown {
            tree,
            ino,
            file_offset,
            ..
        } => (tree, ino, EXTENT_DATA, file_offset),
    };
    let key = Key {
        objectid,
        kind,
        offset,
    };
    Some(ItemRef { tree, key })
}

// Puts the item of a span among some, where it posts otherwise and no change names it.
fn take<L, B: Bases<Table = LiveIndex<L>>>(
    sides: &Sides<'_, B>,
    span: &Span,
    refs: &mut BTreeSet<ItemRef>,
    steps: &mut Steps<L>,
) -> Result<(), NoMemory>
    ensures takes { let b = sides.now.bases.now in
        let k = known (B.chunks b) (B.superblock b).nodesize (B.is_sum_free b)
        (pairs_of (B.table b))
        sides.now.fresh.now sides.now.made.now in
        IsLawfulSpan (B.superblock b).nodesize span.now →
        OnOk result (Takes k span.now refs.old refs.new) }
    ensures looks { steps.new ≤ steps.old + 1 }
{
    if !differs(sides, span) {
        return Ok(());
    }
    let Some(name) = name_of(sides.bases.live(), span, steps) else {
        return Ok(());
    };
    if sides.made.names(&name) {
        return Ok(());
    }
    refs.insert(name)?;
    Ok(())
}

/// Puts the items among some, of all spans of a sort that end after one address and begin before another,
/// that post otherwise and that no change names.
pub(crate) fn take_range<L, B: Bases<Table = LiveIndex<L>>>(
    sides: &Sides<'_, B>,
    spans: &SpanIndex<L>,
    range: &Range,
    refs: &mut BTreeSet<ItemRef>,
    steps: &mut Steps<L>,
) -> Result<(), NoMemory>
    ensures searched { let b = sides.now.bases.now in
        let k = known (B.chunks b) (B.superblock b).nodesize (B.is_sum_free b)
        (pairs_of (B.table b))
        sides.now.fresh.now sides.now.made.now in
        AreLawful (B.superblock b).nodesize (times_of spans.now) →
        OnOk result (Searched k (times_of spans.now)
        (Overlaps range.now.sort range.now.from range.now.until) refs.old refs.new) }
    ensures looks { let range = range.now in
        (stops : List ASpan) → AreStopsOf (times_of spans.now) stops →
        steps.new ≤ steps.old + 1
        + 2 * count_by (overlaps range.sort range.from range.until) stops }
{
    let mut from = range.from;
    let mut after = None;
    // No table holds so many spans.
    'spans: for _ in 0..u64::MAX {
        let Some(span) = spans.meeting(range.sort, from, after.as_ref(), steps) else {
            return Ok(());
        };
        if span.first >= range.until {
            return Ok(());
        }
        take(sides, &span, refs, steps)?;
        // What is still to come and ends where this one begins has no sector: it posts nothing that could differ.
        from = from.max(span.first);
        after = Some(span);
    }
    Err(NoMemory)
}

/// Puts the items among some, of all spans that an inode shows, that post otherwise and that no change
/// names.
pub(crate) fn take_file<L, B: Bases<Table = LiveIndex<L>>>(
    sides: &Sides<'_, B>,
    spans: &SpanIndex<L>,
    inode: &Inode,
    refs: &mut BTreeSet<ItemRef>,
    steps: &mut Steps<L>,
) -> Result<(), NoMemory>
    ensures searched { let b = sides.now.bases.now in
        let k = known (B.chunks b) (B.superblock b).nodesize (B.is_sum_free b)
        (pairs_of (B.table b))
        sides.now.fresh.now sides.now.made.now in
        AreLawful (B.superblock b).nodesize (times_of spans.now) → AreAlone (times_of spans.now) →
        OnOk result (Searched k (times_of spans.now) (IsShownBy inode.now.tree inode.now.ino)
        refs.old refs.new) }
    ensures looks { (all : List ASpan) → AreSpansOf (times_of spans.now) all →
        steps.new ≤ steps.old + inode_looks all inode.now }
{
    let mut after = None;
    // No table holds so many spans.
    'spans: for _ in 0..u64::MAX {
        let Some(span) = spans.shown_of(inode.tree, inode.ino, after, steps) else {
            return Ok(());
        };
        take(sides, &span, refs, steps)?;
        after = Some(offset_of(&span));
    }
    Err(NoMemory)
}

// The offset in the file of what a span shows.
fn offset_of(span: &Span) -> u64
    ensures { result ≡ offset_of span.now.sort }
{
    match span.sort {
        SpanSort::Shown { file_offset, .. } => file_offset,
        _ => 0,
    }
}
