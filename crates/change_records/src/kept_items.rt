//! The kept items that post otherwise.

ghost use Rattle.std.specs.Prelude.{◌≡◌, ◌+◌, ◌≤◌, false, List, length, IfOk, OnOk};
ghost use Rattle.live_index.specs.Table.{pairs_of};
ghost use Rattle.records.specs.Part.{Located};
ghost use Rattle.span_index.specs.Table.{times_of};
ghost use Rattle.change_records.specs.declared.item_ref.ItemRef.{ItemRef as ARef};
ghost use Rattle.std.specs.BTreeSet as set;
ghost use Rattle.std.specs.List.Sorted.{IsStrictlySortedBy};
ghost use Rattle.change_records.specs.Affected.{AreAffected, context_with};
ghost use Rattle.span_index.specs.declared.span.Span.{Span as ASpan};
ghost use Rattle.change_records.specs.Homes.{StandApart};
ghost use Rattle.change_records.specs.Looks.{AreHoused, HaveStops, most_looks, spans_of};
ghost use Rattle.change_records.specs.Passes.{AreSpansOf, AreStopsOf, search_looks};
ghost use Rattle.change_records.specs.Refs.{is_named, ref_cmp};
ghost use Rattle.change_records.specs.Search.{AreAlone, AreLawful, IsFound, known, new_flags};
ghost use Rattle.change_records.specs.Spans.{AreItemsOf};
ghost use Rattle.change_records.specs.SumFree.{flags_after};

use crate::homes::stand_apart;
use crate::kept::Made;
use crate::reached::{Chunks, take_chunks, take_inodes};
use crate::search::Sides;
use crate::{ItemChange, ItemRef};
use chunk_map::{Bases, ChunkMap};
use live_index::LiveIndex;
use recon_disk::Steps;
use records::ItemAt;
use span_index::SpanIndex;
use std::alloc::Global;
use std::collections::BTreeSet;
use verdict::NoMemory;

/// The kept items whose postings differ, by tree and key, none twice: those that `spans` names and no
/// change names, and that post something else because the chunk that holds their extent came, went or
/// changed its start, length or class, or because the flag `NODATASUM` of their inode was turned.
///
/// `changes` are from the list `old` to the list `new`; a place outside its list names nothing. The old
/// chunks, flags and size of a tree block are those of `bases`; the new chunks are `fresh`, and the new
/// flags are what the changes make of the old ones. The level in the key of a tree block is that of the
/// live table, and a tree block without a live pair names no item. No block is read; each span that is
/// asked for counts a look, and so does the live pair of a tree block.
///
/// Let the chunks of each list stand apart, and let each span that an extent owns, and the extent of each
/// that a file shows, lie whole in an old chunk. Then there are at most six looks for each such span whose
/// extent lies in a chunk that the new list does not keep, two for each span that an inode shows whose flag
/// changes, two for each chunk of both lists, and two for each change. Of the spans without a sector that
/// files show at one address, which are of ranges of no bytes, one alone counts in the first of these. This
/// holds out of memory too.
pub fn affected<L, B: Bases<Table = LiveIndex<L>>>(
    alloc: Global,
    bases: &B,
    spans: &SpanIndex<L>,
    changes: &[ItemChange],
    old: &[ItemAt],
    new: &[ItemAt],
    fresh: &ChunkMap,
    steps: &mut Steps<L>,
) -> Result<Vec<ItemRef>, NoMemory>
    ensures value { let b = bases.now in
        let n = (B.superblock b).nodesize in
        let flags = flags_after old.now new.now changes.now (B.is_sum_free b) in
        (items : List Located) → AreItemsOf n (times_of spans.now) items →
        IfOk result (λ refs. AreAffected (pairs_of (B.table b))
        (context_with (B.chunks b) n (B.is_sum_free b)) (context_with fresh.now n flags)
        (is_named old.now new.now changes.now) items refs.items) }
    ensures looks { let b = bases.now in
        let n = (B.superblock b).nodesize in
        let free = B.is_sum_free b in
        let flags = flags_after old.now new.now changes.now free in
        (items : List Located) → AreItemsOf n (times_of spans.now) items →
        (stops : List ASpan) → HaveStops (spans_of n items) stops →
        StandApart (B.chunks b) → StandApart fresh.now → AreHoused (B.chunks b) stops →
        steps.new ≤ steps.old
        + most_looks (B.chunks b) fresh.now free flags (spans_of n items) stops
        (length changes.now) }
{
    let made = Made::of(alloc, changes, old, new)?;
    let sides = Sides {
        bases,
        fresh,
        made: &made,
    };
    let mut refs = BTreeSet::new(alloc);
    search(&sides, spans, &mut refs, steps)?;
    listed(alloc, &refs)
}

// Puts the items of all spans among some, of which there are none yet, that post otherwise and that no
// change names.
fn search<L, B: Bases<Table = LiveIndex<L>>>(
    sides: &Sides<'_, B>,
    spans: &SpanIndex<L>,
    refs: &mut BTreeSet<ItemRef>,
    steps: &mut Steps<L>,
) -> Result<(), NoMemory>
    ensures found { let b = sides.now.bases.now in
        let k = known (B.chunks b) (B.superblock b).nodesize (B.is_sum_free b)
        (pairs_of (B.table b))
        sides.now.fresh.now sides.now.made.now in
        ((at : ARef) → set.contains ref_cmp refs.old at ≡ false) →
        AreLawful (B.superblock b).nodesize (times_of spans.now) → AreAlone (times_of spans.now) →
        OnOk result (IsFound k (times_of spans.now) refs.new) }
    ensures looks { let b = sides.now.bases.now in
        let made = sides.now.made.now in
        let news = sides.now.fresh.now in
        let free = B.is_sum_free b in
        (all : List ASpan) → AreSpansOf (times_of spans.now) all →
        (stops : List ASpan) → AreStopsOf (times_of spans.now) stops → StandApart news →
        steps.new ≤ steps.old
        + search_looks (B.chunks b) news free (new_flags made free) all stops made.inodes.items }
{
    let apart = stand_apart(sides.fresh.chunks());
    let old = Chunks {
        list: sides.bases.map().chunks(),
        others: sides.fresh,
        apart,
        is_new: false,
    };
    take_chunks(sides, spans, &old, refs, steps)?;
    let new = Chunks {
        list: sides.fresh.chunks(),
        others: sides.bases.map(),
        apart,
        is_new: true,
    };
    take_chunks(sides, spans, &new, refs, steps)?;
    take_inodes(sides, spans, &sides.made.inodes, refs, steps)?;
    Ok(())
}

// The items of a set, in their order.
fn listed(alloc: Global, refs: &BTreeSet<ItemRef>) -> Result<Vec<ItemRef>, NoMemory>
    ensures same { IfOk result (λ list. list.items ≡ refs.now.keys) }
    ensures ascend { IfOk result (λ list. IsStrictlySortedBy ref_cmp list.items) }
{
    let mut list = Vec::new(alloc);
    for at in refs {
        list.push(*at)?;
    }
    Ok(list)
}
