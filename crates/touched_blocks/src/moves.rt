//! The pairs of a table whose blocks stand at another place under new chunks.

ghost use Rattle.std.specs.Prelude.{◌≡◌, ◌+◌, ◌*◌, ◌<◌, ◌≤◌, List, length, IfOk};
ghost use Rattle.live_index.specs.declared.live.Live.{Live};
ghost use Rattle.live_index.specs.Table.{pairs_of};
ghost use Rattle.touched_blocks.specs.Looks.{ArePlaced};
ghost use Rattle.touched_blocks.specs.Marking.{AreLow, AreMarkedFrom, HaveEach, marks_for};
ghost use Rattle.touched_blocks.specs.Marks.{count_of, marked_by, no_mark};
ghost use Rattle.touched_blocks.specs.Moves.{AreApart, held_and_moved, is_moved};
ghost use Rattle.touched_blocks.specs.OneTree.{chosen, in_chosen, in_tree, of_tree};
ghost use Rattle.touched_blocks.specs.Spots.{at_address};

use crate::leaving::ranges_left;
use crate::mark::mark_ranges;
use crate::marks::Marks;
use crate::moved::Move;
use chunk_map::ChunkMap;
use live_index::LiveIndex;
use recon_disk::Steps;
use std::alloc::Global;
use verdict::NoMemory;

/// Marks on the pairs of a table whose block stands at another place, or at none, under new chunks than under the old ones that hold
/// it, and on all pairs that stand above them in their trees. A block has `nodesize` bytes, and the device `end`. It costs a pass
/// over the chunks where both lists are the same, and then no look. Else it costs a sort of the new chunks, and for each old chunk a
/// search, and a pass over the new ones where it is not the same among them. Such a chunk gives ranges of addresses: those at which no new
/// chunk holds a block at the same place. It goes once through the table's pairs in these ranges, and finds none twice. So where each pair
/// has a place, and no two chunks of a list overlap, it looks at most twice for each mark and for each old chunk, and once for each new
/// chunk. No two of the new chunks may overlap. Where the pairs are on levels below 8, there is at most one mark for each pair of which
/// the block moves and that has no pair above it, and there are at most eight for each other one.
pub fn moved_pairs<L>(
    alloc: Global,
    table: &LiveIndex<L>,
    old: &ChunkMap,
    new: &ChunkMap,
    nodesize: u32,
    end: u64,
    steps: &mut Steps<L>,
) -> Result<Marks, NoMemory>
    ensures ok { AreApart new.now → 0 < nodesize → IfOk result (λ marks. AreMarkedFrom
        (pairs_of table.now)
        (at_address (held_and_moved old.now new.now nodesize end))
        (at_address (is_moved old.now new.now nodesize end)) no_mark (marked_by marks)) }
    ensures same { old.now ≡ new.now → steps.new ≡ steps.old }
    ensures looks { IfOk result (λ marks. ArePlaced (pairs_of table.now) old.now nodesize end →
        AreApart old.now → AreApart new.now → 0 < nodesize →
        steps.new ≤ steps.old + 2 * count_of marks + 2 * length old.now + length new.now) }
    ensures few_marks { IfOk result (λ marks. AreLow (pairs_of table.now) → (lives : List Live) →
        HaveEach (pairs_of table.now) (is_moved old.now new.now nodesize end) lives →
        count_of marks ≤ marks_for (pairs_of table.now) lives) }
{
    marks_of_moves(alloc, table, None, old, new, nodesize, end, steps)
}

/// Marks as `moved_pairs` does, but of the pairs of one tree alone. Other trees' pairs at the same addresses are not marked, and cost no
/// look: where each pair of the tree has a place, and no two chunks of a list overlap, it looks at most twice for each mark and for each
/// old chunk, and once for each new chunk. Where the pairs are on levels below 8, there is at most one mark for each pair of the tree of
/// which the block moves and that has no pair above it, and there are at most eight for each other one.
pub fn moved_pairs_of<L>(
    alloc: Global,
    table: &LiveIndex<L>,
    tree: u64,
    old: &ChunkMap,
    new: &ChunkMap,
    nodesize: u32,
    end: u64,
    steps: &mut Steps<L>,
) -> Result<Marks, NoMemory>
    ensures ok { AreApart new.now → 0 < nodesize → IfOk result (λ marks. AreMarkedFrom
        (pairs_of table.now)
        (in_tree tree (held_and_moved old.now new.now nodesize end))
        (in_tree tree (is_moved old.now new.now nodesize end)) no_mark (marked_by marks)) }
    ensures same { old.now ≡ new.now → steps.new ≡ steps.old }
    ensures looks { IfOk result (λ marks.
        ArePlaced (of_tree tree (pairs_of table.now)) old.now nodesize end →
        AreApart old.now → AreApart new.now → 0 < nodesize →
        steps.new ≤ steps.old + 2 * count_of marks + 2 * length old.now + length new.now) }
    ensures few_marks { IfOk result (λ marks. AreLow (pairs_of table.now) → (lives : List Live) →
        HaveEach (of_tree tree (pairs_of table.now))
        (is_moved old.now new.now nodesize end) lives →
        count_of marks ≤ marks_for (pairs_of table.now) lives) }
{
    marks_of_moves(alloc, table, Some(tree), old, new, nodesize, end, steps)
}

// The marks on the pairs of the tree that is given whose block moves, or of all trees where none is, and on all that stand above them.
fn marks_of_moves<L>(
    alloc: Global,
    table: &LiveIndex<L>,
    only: Option<u64>,
    old: &ChunkMap,
    new: &ChunkMap,
    nodesize: u32,
    end: u64,
    steps: &mut Steps<L>,
) -> Result<Marks, NoMemory>
    ensures ok { AreApart new.now → 0 < nodesize → IfOk result (λ marks. AreMarkedFrom
        (pairs_of table.now)
        (in_chosen only (held_and_moved old.now new.now nodesize end))
        (in_chosen only (is_moved old.now new.now nodesize end)) no_mark (marked_by marks)) }
    ensures same { old.now ≡ new.now → steps.new ≡ steps.old }
    ensures looks { IfOk result (λ marks.
        ArePlaced (chosen only (pairs_of table.now)) old.now nodesize end →
        AreApart old.now → AreApart new.now → 0 < nodesize →
        steps.new ≤ steps.old + 2 * count_of marks + 2 * length old.now + length new.now) }
    ensures few_marks { IfOk result (λ marks. AreLow (pairs_of table.now) → (lives : List Live) →
        HaveEach (chosen only (pairs_of table.now))
        (is_moved old.now new.now nodesize end) lives →
        count_of marks ≤ marks_for (pairs_of table.now) lives) }
{
    let mut marks = Marks::new(alloc);
    let test = Move::new(old, new, nodesize, end);
    if test.is_same {
        marks.count_law();
        return Ok(marks);
    }
    let ranges = ranges_left(alloc, &test)?;
    mark_ranges(table, only, &test, ranges.as_slice(), &mut marks, steps)?;
    marks.count_law();
    Ok(marks)
}
