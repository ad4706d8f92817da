//! The two images that are compared, and what changes from the one to the other.

ghost use Rattle.std.specs.Prelude.{OnOk};
ghost use Rattle.recon_disk.specs.Keeping.{Kept};
ghost use Rattle.block_source.specs.Gives.{is_disk_halt};
ghost use Rattle.block_source.specs.Takes.{handing};
ghost use Rattle.tree_change.specs.AllLooks.{LooksForMap, LooksForRest};
ghost use Rattle.tree_change.specs.Compared.{FitsCompared, TellsMap, TellsRest};

use crate::array::{lie_apart, refuse_map};
use crate::distinct::distinct_chunks;
use crate::sides::{Compared, Sides};
use crate::tops::{change_chunks, change_others};
use crate::trees::TreeParts;
use crate::walks::KnownTrees;
use block_source::{BlockSource, Halt, system_chunks};
use chunk_map::ChunkMap;
use recon_disk::{Disk, Steps};
use shared_trees::Starts;
use std::alloc::Global;
use touched_blocks::{Move, moved_pairs, moved_pairs_of};
use volume_items::RootAt;

/// The new chunks, by what changes in the chunk tree, which is put behind other parts. The new chunk tree is read by these chunks of
/// the new system array.
pub(crate) fn change_map<D: Disk, L>(
    alloc: Global,
    disk: &mut D,
    both: &Compared<'_, L>,
    array: &ChunkMap,
    steps: &mut Steps<L>,
    room: &mut Vec<u8>,
    all: &mut TreeParts,
) -> Result<ChunkMap, Halt>
    requires fit { FitsCompared both.now (D.len disk.old) }
    ensures tells { TellsMap D.Disk disk.old disk.new all.old all.new both.now array.now result }
    ensures looks { OnOk result (
        LooksForMap (D.bytes disk.old) steps.old steps.new both.now array.now) }
    ensures kept { Kept D.Disk disk.old disk.new (is_disk_halt result) }
{
    let (nodesize, end) = (both.was.sup.nodesize, both.was.end);
    let is = BlockSource {
        cache: both.cache,
        map: array,
        sup: both.fresh,
        end,
    };
    if !lie_apart(array) {
        return refuse_map(alloc, disk, &is);
    }
    let old_array = system_chunks(alloc, both.was.sup)?;
    let olds = distinct_chunks(alloc, &old_array)?;
    let some = distinct_chunks(alloc, array)?;
    let mut changing = moved_pairs_of(alloc, both.kept, 3, &olds, &some, nodesize, end, steps)?;
    changing.join(alloc, both.marks)?;
    let starts = Starts::listed(alloc, both.kept, &changing, steps)?;
    let moves = Move::new(both.was.map, array, nodesize, end);
    let sides = Sides {
        was: both.was,
        firsts: both.firsts,
        is,
        table: both.table,
        known: KnownTrees {
            table: both.kept,
            marks: both.touched,
            moves: &moves,
            starts: &starts,
        },
        is_same: both.is_same,
    };
    change_chunks(alloc, disk, &sides, steps, room, all)
}

/// Where the new trees begin. What changes in all trees but the chunk tree is put behind other parts. They are read by these new chunks.
pub(crate) fn change_rest<D: Disk, L>(
    alloc: Global,
    disk: &mut D,
    both: &Compared<'_, L>,
    map: &ChunkMap,
    steps: &mut Steps<L>,
    room: &mut Vec<u8>,
    all: &mut TreeParts,
) -> Result<Vec<RootAt>, Halt>
    requires fit { FitsCompared both.now (D.len disk.old) }
    ensures tells { TellsRest D.Disk disk.old disk.new all.old all.new both.now map.now
        (handing (λ roots. roots.items) result) }
    ensures looks { OnOk result (
        LooksForRest (D.bytes disk.old) steps.old steps.new both.now map.now) }
    ensures kept { Kept D.Disk disk.old disk.new (is_disk_halt result) }
{
    let (nodesize, end) = (both.was.sup.nodesize, both.was.end);
    let mut changing = moved_pairs(alloc, both.kept, both.was.map, map, nodesize, end, steps)?;
    changing.join(alloc, both.marks)?;
    let starts = Starts::listed(alloc, both.kept, &changing, steps)?;
    let moves = Move::new(both.was.map, map, nodesize, end);
    let sides = Sides {
        was: both.was,
        firsts: both.firsts,
        is: BlockSource {
            cache: both.cache,
            map,
            sup: both.fresh,
            end,
        },
        table: both.table,
        known: KnownTrees {
            table: both.kept,
            marks: both.touched,
            moves: &moves,
            starts: &starts,
        },
        is_same: both.is_same,
    };
    change_others(alloc, disk, &sides, steps, room, both.roots, all)
}
