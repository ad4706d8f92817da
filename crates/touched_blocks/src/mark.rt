//! The pairs of a table that are touched, with all that stand above them.

ghost use Rattle.std.specs.Prelude.{◌≡◌, ℕ, ◌+◌, ◌*◌, ◌<◌, ◌≤◌, ◌&&◌, not, Some, length, IfSome, IfOk, OnOk};
ghost use Rattle.std.specs.List.Sorted.{IsNonDecreasingBy};
ghost use Rattle.recon_disk.specs.Outside.{counted};
ghost use Rattle.live_index.specs.Pairs.{Stands, comes_before, is_above};
ghost use Rattle.live_index.specs.Table.{pairs_of};
ghost use Rattle.touched_blocks.specs.declared.range.Range.{Range as ARange};
ghost use Rattle.touched_blocks.specs.Going.{AllPass, AreGone, AreLooks, IsFirst, IsNext, met, reached};
ghost use Rattle.touched_blocks.specs.Marking.{AreMarked, AreMarkedFrom, parent_of};
ghost use Rattle.touched_blocks.specs.Marks.{count_of, is_pair, marked_by};
ghost use Rattle.touched_blocks.specs.OneTree.{chosen, in_chosen};
ghost use Rattle.touched_blocks.specs.Spots.{has_address, is_in};

use crate::marks::Marks;
use crate::range::Range;
use crate::test::AddressTest;
use live_index::{Live, LiveIndex};
use recon_disk::Steps;
use verdict::NoMemory;

/// Marks a pair of a table and all that stand above it in its tree. It looks at most once for each pair that it newly marks.
#[tactic(auto, using(crate::proofs::Marking::steps))]
pub fn mark_above<L>(
    table: &LiveIndex<L>,
    live: &Live,
    marks: &mut Marks,
    steps: &mut Steps<L>,
) -> Result<(), NoMemory>
    requires { Stands (pairs_of table.now) live.now }
    ensures ok { OnOk result (AreMarked (pairs_of table.now)
        (is_pair (live.now).tree (live.now).address) (marked_by marks.old) (marked_by marks.new)) }
    ensures looks { OnOk result
        (steps.new + count_of marks.old ≤ steps.old + count_of marks.new) }
{
    if marks.has(live.tree, live.address) {
        return Ok(());
    }
    match parent_of(table, live, steps) {
        Some(up) => {
            mark_above(table, &up, marks, steps)?;
            marks.put(live.tree, live.address)
        }
        None => marks.put(live.tree, live.address),
    }
}

/// The pair of the node above a pair. `None` exactly where there is none, as of a root. It looks once into the table.
pub fn parent_of<L>(table: &LiveIndex<L>, live: &Live, steps: &mut Steps<L>) -> Option<Live>
    ensures value { result ≡ parent_of (pairs_of table.now) (live.now).tree live.now }
    ensures higher { IfSome result (λ up. (live.now).level < up.level) }
    ensures own { IfSome result (λ up.
        (up.tree ≡ (live.now).tree) × (up.address ≡ (live.now).parent)
        × (pairs_of table.now (live.now).tree (live.now).parent ≡ Some up)) }
    ensures looks { steps.new ≡ counted steps.old }
{
    let up = table.get(live.tree, live.parent, steps)?;
    if up.level > live.level {
        Some(up)
    } else {
        None
    }
}

/// Marks the pairs of a table at the addresses of some ranges that pass a test, and all that stand above them in their trees. The ranges
/// are in the order of where they begin. Where a tree is given, it goes through that tree's pairs alone. Each pair of the
/// table is found at most once.
#[tactic(auto, using(crate::proofs::Ranges::ranges_start))]
pub(crate) fn mark_ranges<L, T: AddressTest>(
    table: &LiveIndex<L>,
    only: Option<u64>,
    test: &T,
    ranges: &[Range],
    marks: &mut Marks,
    steps: &mut Steps<L>,
) -> Result<(), NoMemory>
    requires { IsNonDecreasingBy (λ (range : ARange). range.from) ranges.now }
    ensures ok { OnOk result (AreMarkedFrom (pairs_of table.now)
        (in_chosen only (λ a. is_in ranges.now a && T.passes test.now a))
        (in_chosen only (T.passes test.now)) (marked_by marks.old) (marked_by marks.new)) }
    ensures looks { OnOk result (
        AllPass (chosen only (pairs_of table.now)) (is_in ranges.now) (T.passes test.now) →
        steps.new + count_of marks.old ≤
        steps.old + 2 * count_of marks.new + length ranges.now) }
{
    let mut cursor: Option<(u64, u64)> = Some((0, 0));
    for range in ranges {
        cursor = mark_range(table, only, test, range, cursor, marks, steps)?;
    }
    Ok(())
}

// The same of those in one range that a cursor has not passed. It gives the cursor behind them.
fn mark_range<L, T: AddressTest>(
    table: &LiveIndex<L>,
    only: Option<u64>,
    test: &T,
    range: &Range,
    cursor: Option<(u64, u64)>,
    marks: &mut Marks,
    steps: &mut Steps<L>,
) -> Result<Option<(u64, u64)>, NoMemory>
    ensures ok { IfOk result (λ _.
        AreGone (chosen only (pairs_of table.now)) (T.passes test.now) range.now.from cursor
        (marked_by marks.old) →
        AreMarked (pairs_of table.now)
        (in_chosen only (λ a. has_address a range.now && T.passes test.now a))
        (marked_by marks.old) (marked_by marks.new)) }
    ensures gone { IfOk result (λ next.
        AreGone (chosen only (pairs_of table.now)) (T.passes test.now) range.now.from cursor
        (marked_by marks.old) →
        AreGone (chosen only (pairs_of table.now)) (T.passes test.now) range.now.from next
        (marked_by marks.new)) }
    ensures looks { IfOk result (λ next.
        AllPass (chosen only (pairs_of table.now)) (λ a. has_address a range.now)
        (T.passes test.now) →
        AreLooks steps.old steps.new marks.old marks.new cursor next 1) }
{
    let mut at = reached(cursor, range.from);
    while let Some(live) = first_from(table, only, at, steps) {
        if live.address > range.last {
            return Ok(at);
        }
        mark_met(table, test, &live, marks, steps)?;
        at = behind(&live);
    }
    Ok(at)
}

// The first pair of a table that a cursor has not passed, or of the tree that is given. It looks at most once into the table.
#[tactic(auto, using(crate::proofs::Choosing::firsts))]
fn first_from<L>(
    table: &LiveIndex<L>,
    only: Option<u64>,
    cursor: Option<(u64, u64)>,
    steps: &mut Steps<L>,
) -> Option<Live>
    ensures value { IsFirst (chosen only (pairs_of table.now)) cursor result }
    ensures looks { steps.new ≤ steps.old + 1 }
{
    match (only, cursor) {
        (_, None) => None,
        (None, Some((address, tree))) => table.at_or_after(address, tree, steps),
        (Some(one), Some((address, tree))) => {
            table.next_of(one, last_passed(one, address, tree), steps)
        }
    }
}

// The greatest address at which a cursor, that stands at an address and a tree, has passed the pair of one tree. `None` where it has passed
// none.
fn last_passed(one: u64, address: u64, tree: u64) -> Option<u64>
    ensures { (a : ℕ) → is_above result a ≡ not (comes_before a one address tree) }
{
    if one < tree {
        Some(address)
    } else {
        address.checked_sub(1)
    }
}

// A cursor, moved on to an address where it has not come so far.
fn reached(cursor: Option<(u64, u64)>, from: u64) -> Option<(u64, u64)>
    ensures { result ≡ reached cursor from }
{
    match cursor {
        None => None,
        Some((address, tree)) => {
            if address < from {
                Some((from, 0))
            } else {
                Some((address, tree))
            }
        }
    }
}

// Marks a pair whose address passes a test, and all that stand above it.
#[tactic(auto, using(crate::proofs::Going::mets))]
fn mark_met<L, T: AddressTest>(
    table: &LiveIndex<L>,
    test: &T,
    live: &Live,
    marks: &mut Marks,
    steps: &mut Steps<L>,
) -> Result<(), NoMemory>
    requires { Stands (pairs_of table.now) live.now }
    ensures ok { OnOk result (AreMarked (pairs_of table.now)
        (met (T.passes test.now) live.now) (marked_by marks.old) (marked_by marks.new)) }
    ensures looks { OnOk result
        (steps.new + count_of marks.old ≤ steps.old + count_of marks.new) }
{
    if test.passes(live.address) {
        mark_above(table, live, marks, steps)
    } else {
        Ok(())
    }
}

// The address and the tree behind those of a pair, where there may be such a pair.
fn behind(live: &Live) -> Option<(u64, u64)>
    ensures { IsNext live.now result }
{
    if live.tree < u64::MAX {
        return Some((live.address, live.tree + 1));
    }
    let address = live.address.checked_add(1)?;
    Some((address, 0))
}
