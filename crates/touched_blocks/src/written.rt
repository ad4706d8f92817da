//! The pairs of a table that pending writes touch.

ghost use Rattle.std.specs.Prelude.{◌≡◌, ◌+◌, ◌*◌, ◌<◌, ◌≤◌, List, length, IfOk};
ghost use Rattle.live_index.specs.Table.{pairs_of};
ghost use Rattle.write_cache.specs.Pieces.{ArePiecesOf, Piece};
ghost use Rattle.touched_blocks.specs.Looks.{ArePlaced, NoneMeet, copies_of, meet_count};
ghost use Rattle.touched_blocks.specs.Marking.{AreMarked};
ghost use Rattle.touched_blocks.specs.Marks.{count_of, marked_by, no_mark};
ghost use Rattle.touched_blocks.specs.Moves.{AreApart};
ghost use Rattle.touched_blocks.specs.Spots.{at_address};
ghost use Rattle.touched_blocks.specs.Touched.{touches_block, written_in};

use crate::mark::mark_ranges;
use crate::marks::Marks;
use crate::pending::Pending;
use crate::range::ranges_of;
use crate::spot::spots_of;
use chunk_map::ChunkMap;
use live_index::LiveIndex;
use recon_disk::Steps;
use std::alloc::Global;
use verdict::NoMemory;
use write_cache::WriteCache;

/// Marks on the pairs of a table of whose blocks a pending write touches a byte of a copy, and on all pairs that stand above them in
/// their trees. A block has `nodesize` bytes, and its copies stand by the chunks of `map` on a device of `end` bytes. A piece is a maximal
/// run of written bytes. It costs a pass over the writes, and two binary searches among the pieces for each copy of a chunk. For each piece
/// that meets a copy it notes the addresses at which the piece may meet a block there, and it sorts these notes. Then it goes once through
/// the table's pairs at those addresses, and finds none twice. So where each pair has a place, and no two chunks overlap, it looks at most
/// twice for each mark, and once for each piece and each copy that the piece meets. Where no two copies overlap on the device, these are at
/// most as many as the pieces and two for each chunk.
pub fn touched_blocks<L>(
    alloc: Global,
    table: &LiveIndex<L>,
    cache: &WriteCache,
    map: &ChunkMap,
    nodesize: u32,
    end: u64,
    steps: &mut Steps<L>,
) -> Result<Marks, NoMemory>
    ensures ok { IfOk result (λ marks. AreMarked (pairs_of table.now)
        (at_address (touches_block (written_in cache.now) map.now nodesize end))
        no_mark (marked_by marks)) }
    ensures looks { IfOk result (λ marks. (pieces : List Piece) → ArePiecesOf cache.now pieces →
        ArePlaced (pairs_of table.now) map.now nodesize end → AreApart map.now → 0 < nodesize →
        steps.new ≤ steps.old + 2 * count_of marks + meet_count pieces map.now) }
    ensures few { IfOk result (λ marks. (pieces : List Piece) → ArePiecesOf cache.now pieces →
        ArePlaced (pairs_of table.now) map.now nodesize end → AreApart map.now → 0 < nodesize →
        NoneMeet (copies_of map.now) →
        steps.new ≤ steps.old + 2 * count_of marks + length pieces + 2 * length map.now) }
{
    let mut marks = Marks::new(alloc);
    let pending = Pending {
        cache,
        spots: spots_of(alloc, cache)?,
        map,
        nodesize,
        end,
    };
    let ranges = ranges_of(alloc, &pending)?;
    mark_ranges(table, None, &pending, ranges.as_slice(), &mut marks, steps)?;
    Ok(marks)
}
