//! The spans of the items that a commit changes.

ghost use Rattle.std.specs.Prelude.{◌≡◌, ◌+◌, ◌-◌, ◌<◌, ◌≤◌, ◌++◌, not, List, length, Some, None, IfOk, IfSome, OnOk, option_map, option_to_list, slice_get, if◌then◌else◌};
ghost use Rattle.std.specs.List.{Contains};
ghost use Rattle.records.specs.Part.{IsLawful, part_of};
ghost use Rattle.records.specs.Part.Part.{FileExtentPart};
ghost use Rattle.records.specs.declared.rec.ItemAt.{ItemAt as AnItem};
ghost use Rattle.extent_items.specs.ExtentItems.{extent_fields_in};
ghost use Rattle.live_index.specs.Pairs.{Pairs};
ghost use Rattle.live_index.specs.declared.live.Live.{Live as ALive};
ghost use Rattle.super_reader.specs.declared.Super.{Super as ASuper};
ghost use Rattle.span_index.specs.Spans.{offset_of};
ghost use Rattle.span_index.specs.Table.{times_of};
ghost use Rattle.span_index.specs.declared.span.Span.{Span as ASpan};
ghost use Rattle.span_index.specs.declared.span.SpanSort.TheVariants.{Owned as OwnedSort};
ghost use Rattle.change_records.specs.Search.{AreAlone, AreLawful, IsShownAt, SpanNames};
ghost use Rattle.change_records.specs.Spans.{extent_span, span_in, span_of};
ghost use Rattle.change_records.specs.declared.item_ref.ItemRef.{ItemRef as ARef};
ghost use Rattle.commit_laws.specs.Paired.{came_items, came_of, gone_items, gone_of};
ghost use Rattle.commit_laws.specs.Sectors.{AreSound};
ghost use Rattle.commit_laws.specs.Steps.{change_records, spans_of};
ghost use Rattle.tree_change.specs.Gathered.{located_item};
ghost use Rattle.commit_judge.specs.Moves.{HaveNames, NameSpans};
ghost use Rattle.commit_judge.specs.Tables.{with_spans, without_spans};

use change_records::{ItemChange, ItemRef};
use extent_items::ExtentItem;
use fs_items::FileExtent;
use recon_disk::Steps;
use records::{ItemAt, Rec};
use span_index::{SortName, Span, SpanIndex, SpanSort};
use std::alloc::Global;
use verdict::kinds::{EXTENT_DATA, EXTENT_ITEM, METADATA_ITEM};
use verdict::{NoMemory, SECTOR};

// The bytes of a checksum.
const SUM: u64 = 4;

// The type of a range of a file whose extent was written.
const REGULAR: u8 = 1;

/// The span of an item of a tree, where it has one. The reader of items sees to it that the item is lawful.
pub(crate) fn span_of(nodesize: u32, tree: u64, part: &Rec<'_>) -> Option<Span>
    ensures { IsLawful (part_of part.now) → result ≡ span_in nodesize tree (part_of part.now) }
{
    match part {
        Rec::ExtentItem(item) => Some(extent_span(nodesize, item)),
        Rec::FileExtent(range) => range_span(tree, range),
        Rec::SumRun(run) => Some(Span {
            first: run.key.offset,
            sectors: run.sums.len() as u64 / SUM,
            sort: SpanSort::Summed,
        }),
        _ => None,
    }
}

// The range of an extent.
fn extent_span(nodesize: u32, item: &ExtentItem<'_>) -> Span
    ensures { result ≡ extent_span nodesize (extent_fields_in item.now) }
{
    let of_data = item.key.kind == EXTENT_ITEM;
    let bytes = if of_data {
        item.key.offset
    } else {
        u64::from(nodesize)
    };
    Span {
        first: item.key.objectid,
        sectors: bytes / SECTOR,
        sort: SpanSort::Owned { of_data },
    }
}

// What a range of a file shows of its extent, where this was written.
fn range_span(tree: u64, range: &FileExtent) -> Option<Span>
    ensures { IsLawful (FileExtentPart range.now) →
        result ≡ span_in 0 tree (FileExtentPart range.now) }
{
    if range.sort != REGULAR || range.extent == 0 {
        return None;
    }
    Some(Span {
        first: range.extent.checked_add(range.offset)?,
        sectors: range.length / SECTOR,
        sort: SpanSort::Shown {
            tree,
            ino: range.key.objectid,
            file_offset: range.key.offset,
            extent: range.extent,
            length: range.extent_length,
        },
    })
}

/// The spans of the items that changes take away.
pub(crate) fn gone_spans(
    alloc: Global,
    nodesize: u32,
    items: &[ItemAt],
    changes: &[ItemChange],
) -> Result<Vec<Span>, NoMemory>
    ensures { (sup : ASuper) (blocks : List ALive) →
        let records = change_records sup blocks (gone_items items.now changes.now) in
        AreSound nodesize records → IfOk result (λ spans. spans.items ≡ spans_of nodesize records) }
{
    let mut spans = Vec::new(alloc);
    for change in changes {
        push_some(&mut spans, item_span(nodesize, gone_item(items, change)))?;
    }
    Ok(spans)
}

/// The spans of the items that changes bring.
pub(crate) fn came_spans(
    alloc: Global,
    nodesize: u32,
    items: &[ItemAt],
    changes: &[ItemChange],
) -> Result<Vec<Span>, NoMemory>
    ensures { (sup : ASuper) (blocks : List ALive) →
        let records = change_records sup blocks (came_items items.now changes.now) in
        AreSound nodesize records → IfOk result (λ spans. spans.items ≡ spans_of nodesize records) }
{
    let mut spans = Vec::new(alloc);
    for change in changes {
        push_some(&mut spans, item_span(nodesize, came_item(items, change)))?;
    }
    Ok(spans)
}

// The old item that a change takes away, where it does.
fn gone_item<'a>(items: &'a [ItemAt], change: &ItemChange) -> Option<&'a ItemAt>
    ensures { option_map (λ a. a.now) result ≡ gone_of items.now change.now }
{
    match *change {
        ItemChange::Added { .. } => None,
        ItemChange::Removed { old } | ItemChange::Altered { old, .. } => item_at(items, old),
    }
}

// The new item that a change brings, where it does.
fn came_item<'a>(items: &'a [ItemAt], change: &ItemChange) -> Option<&'a ItemAt>
    ensures { option_map (λ a. a.now) result ≡ came_of items.now change.now }
{
    match *change {
        ItemChange::Removed { .. } => None,
        ItemChange::Added { new } | ItemChange::Altered { new, .. } => item_at(items, new),
    }
}

// The item at a place of a list, where there is one.
fn item_at(items: &[ItemAt], place: u64) -> Option<&ItemAt>
    ensures { option_map (λ a. a.now) result ≡ slice_get items.now place }
{
    items.get(place as usize)
}

// The span of an item, where there is an item and it has one.
fn item_span(nodesize: u32, item: Option<&ItemAt>) -> Option<Span>
    ensures some { (one : AnItem) → option_map (λ a. a.now) item.entry ≡ Some one →
        IsLawful (located_item one).part → result ≡ span_of nodesize (located_item one) }
    ensures none { option_map (λ a. a.now) item.entry ≡ None → result ≡ None }
{
    let item = item?;
    span_of(nodesize, item.tree, &item.part.lend())
}

/// Puts one behind others, where there is one.
pub(crate) fn push_some<T: Copy>(into: &mut Vec<T>, one: Option<T>) -> Result<(), NoMemory>
    ensures { OnOk result (into.new.items ≡ into.old.items ++ option_to_list one) }
{
    if let Some(one) = one
        && into.push(one).is_err()
    {
        return Err(NoMemory);
    }
    Ok(())
}

/// The spans in a table that have one of some names, with a look for each name. Of a table
/// that no accepted image has, some may be missing.
pub(crate) fn found_spans<L>(
    alloc: Global,
    table: &SpanIndex<L>,
    nodesize: u32,
    refs: &[ItemRef],
    steps: &mut Steps<L>,
) -> Result<Vec<Span>, NoMemory>
    ensures found { AreLawful nodesize (times_of table.now) → AreAlone (times_of table.now) →
        IfOk result (λ found. (pairs : Pairs) (span : ASpan) (at : ARef) →
        0 < times_of table.now span → SpanNames pairs span at → Contains refs.now at →
        Contains found.items span) }
    ensures stand { IfOk result (λ found.
        (span : ASpan) → Contains found.items span → 0 < times_of table.now span) }
    ensures named { AreLawful nodesize (times_of table.now) → AreAlone (times_of table.now) →
        IfOk result (λ found. (pairs : Pairs) → NameSpans (times_of table.now) pairs refs.now →
        HaveNames pairs refs.now found.items) }
    ensures few { IfOk result (λ found. length found.items ≤ length refs.now) }
    ensures looks { steps.new ≤ steps.old + length refs.now }
{
    let mut found = Vec::new(alloc);
    for at in refs {
        push_some(&mut found, named_span(table, nodesize, at, steps))?;
    }
    Ok(found)
}

// The span in a table that has a name, where there is one.
fn named_span<L>(
    table: &SpanIndex<L>,
    nodesize: u32,
    at: &ItemRef,
    steps: &mut Steps<L>,
) -> Option<Span>
    ensures found { AreLawful nodesize (times_of table.now) → AreAlone (times_of table.now) →
        (pairs : Pairs) (span : ASpan) → 0 < times_of table.now span →
        SpanNames pairs span at.now → result ≡ Some span }
    ensures stands { IfSome result (λ span. 0 < times_of table.now span) }
    ensures looks { steps.new ≤ steps.old + 1 }
{
    let key = at.key;
    match key.kind {
        EXTENT_ITEM => owned_span(table, key.objectid, key.offset / SECTOR, true, steps),
        METADATA_ITEM => {
            let sectors = u64::from(nodesize) / SECTOR;
            owned_span(table, key.objectid, sectors, false, steps)
        }
        EXTENT_DATA => shown_span(table, at.tree, key.objectid, key.offset, steps),
        _ => None,
    }
}

// The span that an extent owns, of data or a tree block, where it stands in a table.
fn owned_span<L>(
    table: &SpanIndex<L>,
    first: u64,
    sectors: u64,
    of_data: bool,
    steps: &mut Steps<L>,
) -> Option<Span>
    ensures found { let owned : ASpan =
        record { first = first; sectors = sectors; sort = OwnedSort of_data } in
        0 < sectors → 0 < times_of table.now owned → result ≡ Some owned }
    ensures stands { IfSome result (λ span. 0 < times_of table.now span) }
    ensures looks { steps.new ≤ steps.old + 1 }
{
    let below = span_below(first, sectors, of_data);
    let span = table.meeting(SortName::Owned, first, Some(&below), steps)?;
    if span.first == first && span.sectors == sectors {
        Some(span)
    } else {
        None
    }
}

// The greatest span of an extent below that of another, of data or a tree block.
fn span_below(first: u64, sectors: u64, of_data: bool) -> Span
    ensures { result ≡ record {
      first = first;
      sectors = (if of_data then sectors else sectors - 1);
      sort = OwnedSort (not of_data);
    } }
{
    let sectors = if of_data {
        sectors
    } else {
        sectors.saturating_sub(1)
    };
    Span {
        first,
        sectors,
        sort: SpanSort::Owned { of_data: !of_data },
    }
}

// The span that an inode of a tree shows at an offset of its file.
fn shown_span<L>(
    table: &SpanIndex<L>,
    tree: u64,
    ino: u64,
    offset: u64,
    steps: &mut Steps<L>,
) -> Option<Span>
    ensures found { AreAlone (times_of table.now) → (span : ASpan) →
        0 < times_of table.now span → IsShownAt tree ino offset span → result ≡ Some span }
    ensures stands { IfSome result (λ span. 0 < times_of table.now span) }
    ensures looks { steps.new ≤ steps.old + 1 }
{
    let span = table.shown_of(tree, ino, offset.checked_sub(1), steps)?;
    if file_offset(&span) == offset {
        Some(span)
    } else {
        None
    }
}

// The offset in the file of what a span shows, 0 where it is of no file.
fn file_offset(span: &Span) -> u64
    ensures { result ≡ offset_of span.now.sort }
{
    match span.sort {
        SpanSort::Shown { file_offset, .. } => file_offset,
        _ => 0,
    }
}

/// Puts spans into a table, with a look each. Out of memory, some of them are put.
pub(crate) fn put_spans<L>(
    table: &mut SpanIndex<L>,
    spans: &[Span],
    steps: &mut Steps<L>,
) -> Result<(), NoMemory>
    ensures spans { OnOk result (times_of table.new ≡ with_spans (times_of table.old) spans.now) }
    ensures looks { steps.new ≤ steps.old + length spans.now }
{
    for span in spans {
        table.insert(*span, steps)?;
    }
    Ok(())
}

/// Takes spans out of a table, each once, where it stands, with a look each.
pub(crate) fn take_spans<L>(table: &mut SpanIndex<L>, spans: &[Span], steps: &mut Steps<L>)
    ensures spans { times_of table.new ≡ without_spans (times_of table.old) spans.now }
    ensures looks { steps.new ≤ steps.old + length spans.now }
{
    for span in spans {
        table.remove(span, steps);
    }
}
