//! What changes from an accepted image to the image that pending writes make of it.

ghost use Rattle.std.specs.Prelude.{◌≡◌, ◌≤◌, false, IfOk, OnErr, OnOk};
ghost use Rattle.std.specs.FinMap.{empty};
ghost use Rattle.recon_disk.specs.Keeping.{Kept};
ghost use Rattle.live_index.specs.Table.{pairs_of};
ghost use Rattle.super_reader.specs.Superblock.{IsReadable};
ghost use Rattle.block_source.specs.Gives.{is_disk_fault, is_disk_halt};
ghost use Rattle.tree_laws.specs.Shared.{are_read_alike};
ghost use Rattle.tree_change.specs.AllLooks.{LooksFromOld, LooksToCompare};
ghost use Rattle.tree_change.specs.Change.{GivesDifference};
ghost use Rattle.tree_change.specs.FewLooks.{LooksFew, MovesFew};
ghost use Rattle.tree_change.specs.Compared.{FitsCompared, IsFinished, TellsChange, TellsOld};

use crate::change::{Change, Diff};
use crate::compared::{change_map, change_rest};
use crate::firsts::first_copies;
use crate::merge::{sort_items, sort_lives};
use crate::rising::rise;
use crate::sides::Compared;
use crate::trees::TreeParts;
use block_source::{BlockSource, Fault, Halt, system_chunks, told};
use chunk_map::{Bases, ChunkMap};
use live_index::LiveIndex;
use recon_disk::{Disk, Steps};
use std::alloc::Global;
use super_reader::Super;
use touched_blocks::{touched_blocks, touched_of};
use verdict::{Family, Finding, NoMemory, is_node_size};
use volume_items::RootAt;
use write_cache::WriteCache;

/// What changes from an accepted image to the image that the pending writes make of it, or the first finding of what that image holds. The
/// disk's bytes, `end` of them, are the accepted image, and the bases are what is known of it. `fresh` is the superblock of the new image. Its
/// reads of the disk are counted: at most one for each old pair of the change, and two for each new one. So a commit that writes nothing but
/// the superblock with its own bytes reads none. Of an old block the first copy is read, since an accepted image has the same in both. Where
/// the two superblocks do not read blocks alike, nothing is shared. Of the live table it asks for what the pending writes touch and what the
/// walks meet. Where the answer is a change, it counts at most 58 looks into that table for each old block
/// that changes and 35 for each new one, 56 for each pointer or item of the old ones and four for each of the new ones, one for each piece of
/// the writes (a maximal run of written bytes), four for each old chunk, one for each new one, and 77. A change has at most one shifted pair
/// for each pointer or item of its new blocks, eight for each new block, one for each old one, and two. The lists take their memory from this
/// allocator. `Disk` comes only where a call of the disk fails.
pub fn difference<D: Disk, L, B: Bases<Table = LiveIndex<L>>>(
    alloc: Global,
    disk: &mut D,
    cache: &WriteCache,
    end: u64,
    bases: &B,
    fresh: &Super,
    steps: &mut Steps<L>,
) -> Result<Diff, Fault>
    requires end { end ≡ D.len disk.old }
    ensures gives { let b = bases.now in
        GivesDifference D.Disk disk.old disk.new cache.now (B.superblock b) (B.chunks b)
        (B.root_items b) (B.is_sum_free b) (B.is_full b) (pairs_of (B.table b))
        fresh.now result }
    ensures looks { let b = bases.now in
        IfOk result (LooksFew (D.bytes disk.old) cache.now (B.superblock b) (B.chunks b)
        (B.root_items b) (B.is_sum_free b) (B.is_full b) (pairs_of (B.table b))
        fresh.now steps.old steps.new) }
    ensures moved { let b = bases.now in
        IfOk result (MovesFew (D.bytes disk.old) cache.now (B.superblock b) (B.chunks b)
        (B.root_items b) (B.is_sum_free b) (B.is_full b) (pairs_of (B.table b))
        fresh.now) }
    ensures kept { Kept D.Disk disk.old disk.new (is_disk_fault result) }
{
    let none = WriteCache::new(alloc);
    let was = BlockSource {
        cache: &none,
        map: bases.map(),
        sup: bases.sup(),
        end,
    };
    match told(change_from(
        alloc,
        disk,
        &was,
        cache,
        fresh,
        bases.roots(),
        bases.live(),
        steps,
    ))? {
        Ok(change) => Ok(Diff::Change(change)),
        Err(finding) => Ok(Diff::Found(finding)),
    }
}

// What changes from an image as it was, which is read so.
fn change_from<D: Disk, L>(
    alloc: Global,
    disk: &mut D,
    was: &BlockSource<'_>,
    cache: &WriteCache,
    fresh: &Super,
    roots: &[RootAt],
    table: &LiveIndex<L>,
    steps: &mut Steps<L>,
) -> Result<Change, Halt>
    requires end { was.now.end ≡ D.len disk.old }
    requires none { was.now.cache.now ≡ empty }
    ensures tells { TellsOld D.Disk disk.old disk.new was.now.sup.now was.now.map.now
        cache.now fresh.now roots.now (pairs_of table.now) result }
    ensures looks { OnOk result (
        LooksFromOld (D.bytes disk.old) steps.old steps.new was.now
        cache.now fresh.now roots.now table.now) }
    ensures kept { Kept D.Disk disk.old disk.new (is_disk_halt result) }
{
    check_readable(was.sup)?;
    check_readable(fresh)?;
    let nothing = LiveIndex::new(alloc);
    let is_same = are_read_alike(was.sup, fresh);
    let kept = if is_same { table } else { &nothing };
    let marks = touched_blocks(
        alloc,
        kept,
        cache,
        was.map,
        was.sup.nodesize,
        was.end,
        steps,
    )?;
    table.narrow_law();
    marks.count_law();
    let touched = touched_of(alloc, &marks, cache, was.map, was.sup.nodesize, was.end)?;
    let firsts = first_copies(alloc, was.map)?;
    let both = Compared {
        was: *was,
        firsts: &firsts,
        cache,
        fresh,
        roots,
        table,
        kept,
        is_same,
        marks: &marks,
        touched: &touched,
    };
    compare(alloc, disk, &both, steps)
}

// What changes from the one image to the other.
fn compare<D: Disk, L>(
    alloc: Global,
    disk: &mut D,
    both: &Compared<'_, L>,
    steps: &mut Steps<L>,
) -> Result<Change, Halt>
    requires fit { FitsCompared both.now (D.len disk.old) }
    requires array { (both.now).fresh.now.array_size ≤ 2048 }
    ensures tells { TellsChange D.Disk disk.old disk.new both.now result }
    ensures looks { OnOk result (
        LooksToCompare (D.bytes disk.old) steps.old steps.new both.now) }
    ensures kept { Kept D.Disk disk.old disk.new (is_disk_halt result) }
{
    let array = system_chunks(alloc, both.fresh)?;
    let mut room = Vec::new(alloc);
    let mut all = TreeParts::new(alloc);
    let map = change_map(alloc, disk, both, &array, steps, &mut room, &mut all)?;
    let roots = change_rest(alloc, disk, both, &map, steps, &mut room, &mut all)?;
    let risen = rise(alloc, both.table, both.marks, all, steps)?;
    Ok(finish(alloc, risen, map, roots)?)
}

// What changes, with its lists in order.
fn finish(
    alloc: Global,
    parts: TreeParts,
    map: ChunkMap,
    roots: Vec<RootAt>,
) -> Result<Change, NoMemory>
    ensures { IfOk result (λ change. IsFinished parts map roots.items change) }
{
    let mut moved = parts.shifted;
    sort_lives(alloc, &mut moved)?;
    let mut old_items = parts.old_items;
    sort_items(alloc, &mut old_items)?;
    let mut new_items = parts.new_items;
    sort_items(alloc, &mut new_items)?;
    Ok(Change {
        old_blocks: parts.old_blocks,
        new_blocks: parts.new_blocks,
        moved,
        old_items,
        new_items,
        map,
        roots,
    })
}

// Passes where a superblock is one that can be read: the size of a tree block is one of the five (S5), and the system array fits (S9).
fn check_readable(sup: &Super) -> Result<(), Halt>
    ensures sound { OnOk result (IsReadable sup.now) }
    ensures fails { OnErr result (IsReadable sup.now → ⊥) }
    ensures calm { is_disk_halt result ≡ false }
{
    if !is_node_size(sup.nodesize) {
        return Err(Halt::Found(Finding::of_image(Family::S, 5, u64::from(sup.nodesize))));
    }
    if sup.array_size > 2048 {
        return Err(Halt::Found(Finding::of_image(Family::S, 9, u64::from(sup.array_size))));
    }
    Ok(())
}

/// Whether blocks are read alike by both superblocks.
pub fn are_read_alike(a: &Super, b: &Super) -> bool
    ensures { result ≡ are_read_alike a.now b.now }
{
    a.fsid == b.fsid
        && a.nodesize == b.nodesize
        && a.incompat == b.incompat
        && a.compat_ro == b.compat_ro
        && a.devid == b.devid
}
