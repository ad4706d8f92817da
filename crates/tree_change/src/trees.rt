//! What changes in trees.

ghost use Rattle.std.specs.Prelude.{◌≡◌, ◌+◌, ◌*◌, ◌≤◌, ◌++◌, ℕ, true, length, IfOk, IfSome, OnOk};
ghost use Rattle.recon_disk.specs.Keeping.{Kept};
ghost use Rattle.live_index.specs.Table.{pairs_of};
ghost use Rattle.tree_laws.specs.Known.{AreMetBy, blocks_met};
ghost use Rattle.tree_laws.specs.Visits.{LooksFew};
ghost use Rattle.block_source.specs.Gives.{Gives, is_disk_halt};
ghost use Rattle.block_source.specs.Takes.{handing};
ghost use Rattle.tree_change.specs.AllTrees.{no_parts, with_parts};
ghost use Rattle.tree_change.specs.Gathered.{gathers};
ghost use Rattle.tree_change.specs.Looks.{LooksAtMost, gone_all_looks_in, gone_looks_in, looks_in, named_looks_in, old_visits_or};
ghost use Rattle.tree_change.specs.Stays.{RootsStand, Stays};
ghost use Rattle.tree_change.specs.Told.{known_by, side_with};
ghost use Rattle.tree_change.specs.Walks.{old_or_none};
ghost use Rattle.tree_change.specs.Making.{AddsParts, FitSides, TellsParts, gone_parts_in, gone_in, named_parts_in, parts_by, parts_in};

use crate::gather::Gathered;
use crate::lives::{add_known, add_new};
use crate::roots::ids_of;
use crate::sides::Sides;
use crate::walks::{walk_new, walk_old};
use block_source::Halt;
use live_index::Live;
use node_reader::Expect;
use recon_disk::{Disk, Steps};
use records::{ItemAt, named_root};
use shared_trees::Met;
use std::alloc::{AllocError, Global};
use touched_blocks::AddressTest;
use volume_items::RootAt;

/// What changes in trees: the pairs that changed, the other ones that are shifted, and the items of the first.
#[derive(Drop)]
pub(crate) struct TreeParts {
    /// The old pairs that changed.
    pub(crate) old_blocks: Vec<Live>,
    /// The new pairs that changed.
    pub(crate) new_blocks: Vec<Live>,
    /// The other pairs whose node above or greatest key is another.
    pub(crate) shifted: Vec<Live>,
    /// The items of the old pairs.
    pub(crate) old_items: Vec<ItemAt>,
    /// The items of the new pairs.
    pub(crate) new_items: Vec<ItemAt>,
}

impl TreeParts {
    /// No parts. They take their memory from this allocator.
    pub(crate) fn new(alloc: Global) -> TreeParts
        ensures { parts_by result 0 ≡ no_parts }
    {
        TreeParts {
            old_blocks: Vec::new(alloc),
            new_blocks: Vec::new(alloc),
            shifted: Vec::new(alloc),
            old_items: Vec::new(alloc),
            new_items: Vec::new(alloc),
        }
    }

    /// Puts what changes in other trees behind it.
    pub(crate) fn add(&mut self, more: TreeParts) -> Result<(), AllocError>
        ensures { OnOk result ((count other : ℕ) →
            parts_by self.new (count + other)
            ≡ with_parts (parts_by self.old count) (parts_by more other)) }
    {
        put_behind(&mut self.old_blocks, more.old_blocks)?;
        put_behind(&mut self.new_blocks, more.new_blocks)?;
        put_behind(&mut self.shifted, more.shifted)?;
        put_behind(&mut self.old_items, more.old_items)?;
        put_behind(&mut self.new_items, more.new_items)?;
        Ok(())
    }
}

// Puts a list behind another. Where that is empty, nothing is copied.
fn put_behind<T>(into: &mut Vec<T>, more: Vec<T>) -> Result<(), AllocError>
where
    T: Drop,
    ensures { OnOk result (into.new.items ≡ into.old.items ++ more.items) }
{
    if into.is_empty() {
        *into = more;
        return Ok(());
    }
    let mut more = more;
    into.append(&mut more)
}

// Walks a tree as it was, where it was, which stops at these blocks of the tree as it is.
#[tactic(auto, using(crate::proofs::Looking::few_none))]
fn walk_before<D: Disk, L>(
    alloc: Global,
    disk: &mut D,
    sides: &Sides<'_, L>,
    steps: &mut Steps<L>,
    room: &mut Vec<u8>,
    met: &[Met],
    before: Option<Expect>,
) -> Result<Gathered, Halt>
    requires fit { FitSides sides.now (D.len disk.old) }
    requires met { AreMetBy (pairs_of (sides.now).known.table.now) met.now }
    ensures gives { Gives D.Disk disk.old (sides.now).was.cache.now (handing gathers result)
        (λ image. old_or_none (known_by (sides.now).known) (blocks_met met.now)
        (side_with (sides.now).was image) before) }
    ensures reads { IfOk result (λ read. IfSome (D.bytes disk.old) (λ _.
        D.reads disk.new ≤ D.reads disk.old + length read.blocks.items)) }
    ensures looks { OnOk result (
        LooksFew (D.bytes disk.old) (sides.now).was.cache.now steps.old steps.new
        (λ image. old_visits_or (known_by (sides.now).known) (blocks_met met.now)
        (side_with (sides.now).was image) before)) }
    ensures kept { Kept D.Disk disk.old disk.new (is_disk_halt result) }
{
    match before {
        Some(e) => walk_old(
            alloc,
            disk,
            &sides.was,
            sides.firsts,
            &sides.known,
            met,
            steps,
            room,
            &e,
        ),
        None => Ok(Gathered::new(alloc)),
    }
}

/// What changes in a tree that is, and that was or was not. It looks into the table of live pairs at most three times for each block that a
/// walk comes to, once for each block that is read of the tree as it was, and once for each kept block.
pub(crate) fn change_tree<D: Disk, L>(
    alloc: Global,
    disk: &mut D,
    sides: &Sides<'_, L>,
    steps: &mut Steps<L>,
    room: &mut Vec<u8>,
    before: Option<Expect>,
    now: &Expect,
) -> Result<TreeParts, Halt>
    requires fit { FitSides sides.now (D.len disk.old) }
    ensures tells { TellsParts D.Disk disk.old disk.new result (parts_in sides.now before now.now) }
    ensures looks { OnOk result (
        LooksAtMost (D.bytes disk.old) steps.old steps.new (looks_in sides.now before now.now)) }
    ensures kept { Kept D.Disk disk.old disk.new (is_disk_halt result) }
{
    let new = walk_new(alloc, disk, &sides.is, &sides.known, steps, room, now)?;
    let old = walk_before(alloc, disk, sides, steps, room, &new.met, before)?;
    let mut old_blocks = Vec::new(alloc);
    add_known(sides.table, steps, &old.blocks, &mut old_blocks)?;
    let mut new_blocks = Vec::new(alloc);
    let mut shifted = Vec::new(alloc);
    add_new(
        alloc,
        sides.table,
        sides.is_same,
        steps,
        &new.read.blocks,
        &new.met,
        &new.ended,
        &mut new_blocks,
        &mut shifted,
    )?;
    Ok(TreeParts {
        old_blocks,
        new_blocks,
        shifted,
        old_items: old.items,
        new_items: new.read.items,
    })
}

/// What changes where a tree is gone.
fn change_gone<D: Disk, L>(
    alloc: Global,
    disk: &mut D,
    sides: &Sides<'_, L>,
    steps: &mut Steps<L>,
    room: &mut Vec<u8>,
    before: &Expect,
) -> Result<TreeParts, Halt>
    requires fit { FitSides sides.now (D.len disk.old) }
    ensures tells { TellsParts D.Disk disk.old disk.new result (gone_in sides.now before.now) }
    ensures looks { OnOk result (
        LooksAtMost (D.bytes disk.old) steps.old steps.new (gone_looks_in sides.now before.now)) }
    ensures kept { Kept D.Disk disk.old disk.new (is_disk_halt result) }
{
    let old = walk_old(
        alloc,
        disk,
        &sides.was,
        sides.firsts,
        &sides.known,
        &[],
        steps,
        room,
        before,
    )?;
    let mut old_blocks = Vec::new(alloc);
    add_known(sides.table, steps, &old.blocks, &mut old_blocks)?;
    Ok(TreeParts {
        old_blocks,
        new_blocks: Vec::new(alloc),
        shifted: Vec::new(alloc),
        old_items: old.items,
        new_items: Vec::new(alloc),
    })
}

// Whether a tree stays as it was, by what is known of its root. No pair is looked for in the table.
fn stays<L>(sides: &Sides<'_, L>, before: Option<Expect>, now: &Expect) -> bool
    ensures sound { result ≡ true → Stays (pairs_of (sides.now).table.now)
        (known_by (sides.now).known) before now.now }
    ensures complete { (sides.now).is_same ≡ true → Stays (pairs_of (sides.now).table.now)
        (known_by (sides.now).known) before now.now → result ≡ true }
{
    sides.is_same
        && before == Some(*now)
        && !sides.known.marks.has(now.tree, now.address)
        && !sides.known.moves.passes(now.address)
        && sides.known.starts.of(now.tree, now.address).is_empty()
}

/// Puts what changes in all trees that are named now behind other parts. Where blocks are kept by the old pairs, a tree is not walked
/// whose root item stays, of which no write touches a block, and of which no block moves: it costs no look into the table of live pairs.
pub(crate) fn change_named<D: Disk, L>(
    alloc: Global,
    disk: &mut D,
    sides: &Sides<'_, L>,
    steps: &mut Steps<L>,
    room: &mut Vec<u8>,
    olds: &[RootAt],
    news: &[RootAt],
    all: &mut TreeParts,
) -> Result<(), Halt>
    requires fit { FitSides sides.now (D.len disk.old) }
    ensures adds { RootsStand (pairs_of (sides.now).table.now) olds.now
        → AddsParts D.Disk disk.old disk.new all.old all.new result
        (named_parts_in sides.now olds.now news.now) }
    ensures looks { OnOk result (
        LooksAtMost (D.bytes disk.old) steps.old steps.new
        (named_looks_in sides.now olds.now news.now)) }
    ensures kept { Kept D.Disk disk.old disk.new (is_disk_halt result) }
{
    let ids = ids_of(alloc, olds)?;
    for root in news {
        let (before, now) = (ids.root_of(root.key.objectid), named_root(root));
        if !stays(sides, before, &now) {
            let made = change_tree(alloc, disk, sides, steps, room, before, &now)?;
            all.add(made)?;
        }
    }
    Ok(())
}

/// Puts what changes in all trees that are gone behind other parts.
pub(crate) fn change_all_gone<D: Disk, L>(
    alloc: Global,
    disk: &mut D,
    sides: &Sides<'_, L>,
    steps: &mut Steps<L>,
    room: &mut Vec<u8>,
    news: &[RootAt],
    olds: &[RootAt],
    all: &mut TreeParts,
) -> Result<(), Halt>
    requires fit { FitSides sides.now (D.len disk.old) }
    ensures adds { AddsParts D.Disk disk.old disk.new all.old all.new result
        (gone_parts_in sides.now news.now olds.now) }
    ensures looks { OnOk result (
        LooksAtMost (D.bytes disk.old) steps.old steps.new
        (gone_all_looks_in sides.now news.now olds.now)) }
    ensures kept { Kept D.Disk disk.old disk.new (is_disk_halt result) }
{
    let ids = ids_of(alloc, news)?;
    for root in olds {
        if !ids.has(root.key.objectid) {
            let made = change_gone(alloc, disk, sides, steps, room, &named_root(root))?;
            all.add(made)?;
        }
    }
    Ok(())
}
