//! The pairs above touched blocks that no write touches themselves. They are not shared, though no walk reads them.

ghost use Rattle.std.specs.Prelude.{◌≡◌, ℕ, ◌+◌, ◌≤◌, ◌++◌, List, length, not, Some, None, if◌then◌else◌, IfOk, OnOk};
ghost use Rattle.std.specs.List.{filter, filter_map};
ghost use Rattle.live_index.specs.Table.{pairs_of};
ghost use Rattle.touched_blocks.specs.Marks.{in_lives, marked_by};
ghost use Rattle.touched_blocks.specs.declared.marks.PairPlace.{PairPlace as APlace};
ghost use Rattle.tree_change.specs.Making.{parts_by};
ghost use Rattle.tree_change.specs.Rising.{IsRisen, is_free, is_marked, risen_by, unmoved_by};

use crate::lives::push_some;
use crate::trees::TreeParts;
use live_index::{Live, LiveIndex};
use recon_disk::Steps;
use std::alloc::Global;
use touched_blocks::{Marks, PairPlace};
use verdict::NoMemory;

/// Puts those marked pairs behind the ones that changed which are not among them: as the table has them behind the old ones, and as they are
/// now behind the new ones. Each looks once into the table. Where nothing is marked, nothing is done.
pub(crate) fn rise<L>(
    alloc: Global,
    table: &LiveIndex<L>,
    marks: &Marks,
    parts: TreeParts,
    steps: &mut Steps<L>,
) -> Result<TreeParts, NoMemory>
    ensures { IfOk result (λ made. (places : List APlace) × ((count : ℕ) →
        IsRisen (pairs_of table.now) (marked_by marks.now) places (parts_by parts count)
        (parts_by made count) steps.old steps.new)) }
{
    let places = marks.places(alloc)?;
    if places.is_empty() {
        return Ok(parts);
    }
    let changed = places_of(alloc, &parts.old_blocks)?;
    let shifted = places_of(alloc, &parts.shifted)?;
    let mut new_blocks = parts.new_blocks;
    let mut rest = Vec::new(alloc);
    split(marks, &parts.shifted, &mut new_blocks, &mut rest)?;
    let mut old_blocks = parts.old_blocks;
    put_left(
        table,
        &changed,
        &shifted,
        &places,
        &mut old_blocks,
        &mut new_blocks,
        steps,
    )?;
    Ok(TreeParts {
        old_blocks,
        new_blocks,
        shifted: rest,
        old_items: parts.old_items,
        new_items: parts.new_items,
    })
}

// Marks on these pairs.
fn places_of(alloc: Global, lives: &[Live]) -> Result<Marks, NoMemory>
    ensures { IfOk result (λ marks. (tree address : ℕ) →
        marked_by marks tree address ≡ in_lives lives.now tree address) }
{
    let mut marks = Marks::new(alloc);
    for live in lives {
        marks.put(live.tree, live.address)?;
    }
    Ok(marks)
}

// Puts the marked ones of some pairs behind others, and the rest behind more.
fn split(
    marks: &Marks,
    lives: &[Live],
    into: &mut Vec<Live>,
    rest: &mut Vec<Live>,
) -> Result<(), NoMemory>
    ensures marked { OnOk result (into.new.items ≡
        into.old.items ++ filter (is_marked (marked_by marks.now)) lives.now) }
    ensures others { OnOk result (rest.new.items ≡
        rest.old.items ++ filter (λ live. not (is_marked (marked_by marks.now) live)) lives.now) }
{
    for live in lives {
        let marked = marks.has(live.tree, live.address);
        push_some(into, live_if(marked, live))?;
        push_some(rest, live_if(!marked, live))?;
    }
    Ok(())
}

// A pair, where a test passes.
fn live_if(passes: bool, live: &Live) -> Option<Live>
    ensures { result ≡ (if passes then Some live.now else None) }
{
    if passes { Some(*live) } else { None }
}

// Puts the pairs at those of these places that are not marked behind old and new pairs, behind the new ones where they did not shift.
fn put_left<L>(
    table: &LiveIndex<L>,
    changed: &Marks,
    shifted: &Marks,
    places: &[PairPlace],
    old_blocks: &mut Vec<Live>,
    new_blocks: &mut Vec<Live>,
    steps: &mut Steps<L>,
) -> Result<(), NoMemory>
    ensures old { OnOk result (old_blocks.new.items ≡ old_blocks.old.items
        ++ filter_map (risen_by (pairs_of table.now) (marked_by changed.now)) places.now) }
    ensures new { OnOk result (new_blocks.new.items ≡ new_blocks.old.items
        ++ filter_map (unmoved_by (pairs_of table.now) (marked_by changed.now)
        (marked_by shifted.now)) places.now) }
    ensures looks { OnOk result (steps.new ≤ steps.old
        + length (filter (is_free (marked_by changed.now)) places.now)) }
{
    for place in places {
        let live = left_at(table, changed, place, steps);
        push_some(old_blocks, live)?;
        push_some(new_blocks, where_free(shifted, place, live))?;
    }
    Ok(())
}

// The pair at a place that is not marked. It looks once into the table.
fn left_at<L>(
    table: &LiveIndex<L>,
    marks: &Marks,
    place: &PairPlace,
    steps: &mut Steps<L>,
) -> Option<Live>
    ensures pair { result ≡ risen_by (pairs_of table.now) (marked_by marks.now) place.now }
    ensures looks { steps.new ≤ steps.old
        + (if is_free (marked_by marks.now) place.now then 1 else 0) }
{
    if marks.has(place.tree, place.address) {
        return None;
    }
    table.get(place.tree, place.address, steps)
}

// A pair, where the place is not marked.
fn where_free(marks: &Marks, place: &PairPlace, live: Option<Live>) -> Option<Live>
    ensures { result ≡ (if is_free (marked_by marks.now) place.now then live else None) }
{
    if marks.has(place.tree, place.address) {
        None
    } else {
        live
    }
}
