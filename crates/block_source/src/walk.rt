//! The walk of a tree.

ghost use Rattle.std.specs.Prelude.{◌≡◌, ◌+◌, ◌-◌, ◌*◌, ◌<◌, ◌≤◌, ◌∷◌, length, true, IfOk};
ghost use Rattle.verdict.specs.Trees.{is_node_size};
ghost use Rattle.recon_disk.specs.Keeping.{Kept};
ghost use Rattle.node_reader.specs.Places.{each_from};
ghost use Rattle.node_reader.specs.Layout.{level_of, count_of, pointer_of};
ghost use Rattle.records.specs.Walk.{children_of, high_of, walk_in};
ghost use Rattle.block_source.specs.Counts.{ReadsCopies, ReadsCopiesAsTold};
ghost use Rattle.block_source.specs.Gives.{is_disk_fault, is_disk_halt};
ghost use Rattle.block_source.specs.Takes.{ReadsInto, TakesAsTold};
ghost use Rattle.block_source.specs.Private.{pointers_from};

use crate::Fault;
use crate::halt::{Halt, told};
use crate::own::take_own;
use crate::read::{BlockSource, read_block};
use node_reader::{Block, Expect};
use recon_disk::Disk;
use records::Taker;
use std::alloc::Global;
use verdict::{Finding, Key};

/// Walks the tree from the block on that is expected, and gives its records to a taker: a block's own, which are itself
/// and its pointers or items, before those of what is below it, and children in their order. It stops at the first
/// finding: of a block's copies, of the block, or of an item; what was taken before is with the taker then. Each copy of
/// each block is read once, but for those that the pending writes cover whole: of these the disk is not read.
pub fn walk_tree<D: Disk, T: Taker>(
    alloc: Global,
    disk: &mut D,
    source: &BlockSource<'_>,
    e: &Expect,
    into: &mut T,
) -> Result<Result<(), Finding>, Fault>
    requires size { is_node_size source.now.sup.now.nodesize ≡ true }
    requires end { source.now.end ≡ D.len disk.old }
    ensures taken { IfOk result (λ answer.
        TakesAsTold D.Disk T.Taker disk.old source.now.cache.now into.old into.new answer
        (walk_in source.now.sup.now source.now.map.now e.now)) }
    ensures reads { IfOk result (λ answer.
        ReadsCopiesAsTold D.Disk source.now disk.old disk.new answer
        (walk_in source.now.sup.now source.now.map.now e.now)) }
    ensures kept { Kept D.Disk disk.old disk.new (is_disk_fault result) }
{
    told(walk_into(alloc, disk, source, e, into))
}

/// The same as a step that may stop for a finding.
#[tactic(auto, using(crate::proofs::Copies::room_fits))]
pub fn walk_into<D: Disk, T: Taker>(
    alloc: Global,
    disk: &mut D,
    source: &BlockSource<'_>,
    e: &Expect,
    into: &mut T,
) -> Result<(), Halt>
    requires size { is_node_size source.now.sup.now.nodesize ≡ true }
    requires end { source.now.end ≡ D.len disk.old }
    ensures taken { ReadsInto D.Disk T.Taker disk.old source.now.cache.now into.old into.new result
        (walk_in source.now.sup.now source.now.map.now e.now) }
    ensures reads { ReadsCopies D.Disk source.now disk.old disk.new result
        (walk_in source.now.sup.now source.now.map.now e.now) }
    ensures kept { Kept D.Disk disk.old disk.new (is_disk_halt result) }
{
    let size = source.sup.nodesize as usize;
    let mut room = vec![in alloc; 0u8; (e.level as usize + 1) * size]?;
    let mut second = vec![in alloc; 0u8; size]?;
    walk(disk, source, e, &mut room, &mut second, into)
}

// The walk, with room for a block of each level from the expected one down, and for a second copy.
#[tactic(auto, using(crate::proofs::Walking::steps), unfolding(records::specs::Walk::walk_in))]
fn walk<D: Disk, T: Taker>(
    disk: &mut D,
    source: &BlockSource<'_>,
    e: &Expect,
    room: &mut [u8],
    second: &mut [u8],
    into: &mut T,
) -> Result<(), Halt>
    requires size { is_node_size source.now.sup.now.nodesize ≡ true }
    requires end { source.now.end ≡ D.len disk.old }
    requires room { length room.old ≡ (e.now.level + 1) * source.now.sup.now.nodesize }
    requires second { length second.old ≡ source.now.sup.now.nodesize }
    ensures taken { ReadsInto D.Disk T.Taker disk.old source.now.cache.now into.old into.new result
        (walk_in source.now.sup.now source.now.map.now e.now) }
    ensures reads { ReadsCopies D.Disk source.now disk.old disk.new result
        (walk_in source.now.sup.now source.now.map.now e.now) }
    ensures kept { Kept D.Disk disk.old disk.new (is_disk_halt result) }
{
    let (first, rest) = room.split_at_mut(source.sup.nodesize as usize);
    let block = read_block(disk, source, e, first, second)?;
    take_own(source.sup, e, &block, into)?;
    if e.level == 0 {
        return Ok(());
    }
    for i in 0..block.count() {
        let child = child_at(&block, e, i);
        walk(disk, source, &child, rest, second, into)?;
    }
    Ok(())
}

/// What is expected of the block of a node's pointer at a place, below the node of which this was expected.
#[tactic(auto, using(crate::proofs::Walking::children_left))]
pub fn child_at(block: &Block<'_>, e: &Expect, i: u32) -> Expect
    requires node { 0 < level_of block.now }
    requires same { level_of block.now ≡ e.now.level }
    requires below { i < count_of block.now }
    ensures next { children_of (e.now.level - 1) e.now (pointers_from block.now i) ≡
        result ∷ children_of (e.now.level - 1) e.now (pointers_from block.now (i + 1)) }
    ensures level { result.level ≡ e.now.level - 1 }
{
    // The place behind is at most the number of pointers.
    let _count = block.count();
    let pointer = block.pointer(i);
    Expect {
        tree: e.tree,
        address: pointer.address,
        generation: pointer.generation,
        level: e.level - 1,
        low: Some(pointer.key),
        high: high_at(block, e, i + 1),
        parent: e.address,
    }
}

// The key of a node's pointer at a place, or behind the last the node's own high key.
#[tactic(auto, using(crate::proofs::Walking::pointers_left))]
fn high_at(block: &Block<'_>, e: &Expect, i: u32) -> Option<Key>
    requires node { 0 < level_of block.now }
    ensures { result ≡ high_of (pointers_from block.now i) e.now.high }
{
    if i < block.count() {
        Some(block.pointer(i).key)
    } else {
        e.high
    }
}
