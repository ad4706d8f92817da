//! What changes in the chunk tree and in the root tree, with the chunks and the roots that follow from it.

ghost use Rattle.std.specs.Prelude.{OnOk};
ghost use Rattle.recon_disk.specs.Keeping.{Kept};
ghost use Rattle.live_index.specs.Table.{pairs_of};
ghost use Rattle.block_source.specs.Gives.{is_disk_halt};
ghost use Rattle.block_source.specs.Takes.{handing};
ghost use Rattle.tree_change.specs.Looks.{LooksAtMost, OthersLookAtMost, chunk_looks_in, root_looks_in};
ghost use Rattle.tree_change.specs.Making.{FitSides, TellsChunks, TellsOthers, TellsRoots};
ghost use Rattle.tree_change.specs.Stays.{RootsStand};

use crate::merge::{merge_chunks, merge_roots};
use crate::sides::Sides;
use crate::trees::{TreeParts, change_all_gone, change_named, change_tree};
use block_source::{Halt, chunk_root, top_root};
use chunk_map::ChunkMap;
use recon_disk::{Disk, Steps};
use records::roots_fault;
use std::alloc::Global;
use volume_items::RootAt;

/// The new chunks, by what changes in the chunk tree, which is put behind other parts. The sides are read by the old chunks, and by
/// those of the new system array.
pub(crate) fn change_chunks<D: Disk, L>(
    alloc: Global,
    disk: &mut D,
    sides: &Sides<'_, L>,
    steps: &mut Steps<L>,
    room: &mut Vec<u8>,
    all: &mut TreeParts,
) -> Result<ChunkMap, Halt>
    requires fit { FitSides sides.now (D.len disk.old) }
    ensures tells { TellsChunks D.Disk disk.old disk.new all.old all.new sides.now result }
    ensures looks { OnOk result (
        LooksAtMost (D.bytes disk.old) steps.old steps.new (chunk_looks_in sides.now)) }
    ensures kept { Kept D.Disk disk.old disk.new (is_disk_halt result) }
{
    let before = chunk_root(sides.was.sup);
    let now = chunk_root(sides.is.sup);
    let made = change_tree(alloc, disk, sides, steps, room, Some(before), &now)?;
    let map = merge_chunks(alloc, sides.was.map, &made.old_items, &made.new_items)?;
    match map.map_fault(sides.is.map, sides.is.sup.devid, sides.is.end) {
        Some(found) => Err(Halt::Found(found)),
        None => {
            all.add(made)?;
            Ok(map)
        }
    }
}

/// Where the new trees begin, by what changes in the root tree, which is put behind other parts.
pub(crate) fn change_roots<D: Disk, L>(
    alloc: Global,
    disk: &mut D,
    sides: &Sides<'_, L>,
    steps: &mut Steps<L>,
    room: &mut Vec<u8>,
    olds: &[RootAt],
    all: &mut TreeParts,
) -> Result<Vec<RootAt>, Halt>
    requires fit { FitSides sides.now (D.len disk.old) }
    ensures tells { TellsRoots D.Disk disk.old disk.new all.old all.new sides.now olds.now
        (handing (λ roots. roots.items) result) }
    ensures looks { OnOk result (
        LooksAtMost (D.bytes disk.old) steps.old steps.new (root_looks_in sides.now)) }
    ensures kept { Kept D.Disk disk.old disk.new (is_disk_halt result) }
{
    let before = top_root(sides.was.sup);
    let now = top_root(sides.is.sup);
    let made = change_tree(alloc, disk, sides, steps, room, Some(before), &now)?;
    let roots = merge_roots(alloc, olds, &made.old_items, &made.new_items)?;
    match roots_fault(alloc, sides.is.sup.compat_ro, &roots)? {
        Some(found) => Err(Halt::Found(found)),
        None => {
            all.add(made)?;
            Ok(roots)
        }
    }
}

/// Where the new trees begin. What changes in the root tree, in the trees that are named now and in those that are gone is put behind other
/// parts.
pub(crate) fn change_others<D: Disk, L>(
    alloc: Global,
    disk: &mut D,
    sides: &Sides<'_, L>,
    steps: &mut Steps<L>,
    room: &mut Vec<u8>,
    olds: &[RootAt],
    all: &mut TreeParts,
) -> Result<Vec<RootAt>, Halt>
    requires fit { FitSides sides.now (D.len disk.old) }
    ensures tells { RootsStand (pairs_of (sides.now).table.now) olds.now
        → TellsOthers D.Disk disk.old disk.new all.old all.new sides.now olds.now
        (handing (λ roots. roots.items) result) }
    ensures looks { OnOk result (
        OthersLookAtMost (D.bytes disk.old) steps.old steps.new sides.now olds.now) }
    ensures kept { Kept D.Disk disk.old disk.new (is_disk_halt result) }
{
    let roots = change_roots(alloc, disk, sides, steps, room, olds, all)?;
    change_named(alloc, disk, sides, steps, room, olds, &roots, all)?;
    change_all_gone(alloc, disk, sides, steps, room, &roots, olds, all)?;
    Ok(roots)
}
