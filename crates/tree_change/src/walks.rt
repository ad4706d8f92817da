//! The walks of one tree: of the tree as it is, which keeps what is shared, and of the tree as it was, which stops there.

ghost use Rattle.std.specs.Prelude.{◌≡◌, ◌+◌, ◌*◌, ◌≤◌, length, true, IfOk, IfSome, OnOk};
ghost use Rattle.verdict.specs.Trees.{is_node_size};
ghost use Rattle.recon_disk.specs.Keeping.{Kept};
ghost use Rattle.live_index.specs.Table.{pairs_of};
ghost use Rattle.tree_laws.specs.Known.{AreMetBy, blocks_met};
ghost use Rattle.tree_laws.specs.Visits.{LooksFew};
ghost use Rattle.block_source.specs.Gives.{Gives, is_disk_halt};
ghost use Rattle.block_source.specs.Takes.{handing};
ghost use Rattle.tree_change.specs.Firsts.{first_copies};
ghost use Rattle.tree_change.specs.Gathered.{gathers};
ghost use Rattle.tree_change.specs.Looks.{new_visits, old_visits};
ghost use Rattle.tree_change.specs.Walks.{new_walk, old_walk};
ghost use Rattle.tree_change.specs.Told.{known_by, new_by, side_with};

use crate::gather::Gathered;
use block_source::{BlockSource, Halt};
use chunk_map::ChunkMap;
use live_index::LiveIndex;
use node_reader::Expect;
use recon_disk::{Disk, Steps};
use shared_trees::{Ended, KnownTree, Met, OldTree, Starts, Stops, walk_changed};
use std::alloc::Global;
use touched_blocks::{Marks, Move};

// For how many blocks there is room at first in the lists of those that a walk comes to. Nothing rests on it.
const CHILDREN: usize = 256;

/// What is known of trees as they were: their live pairs, the marks of those that writes touch, which blocks stand elsewhere now, and the
/// children that are touched or moved, or are above one of these.
#[derive(Clone, Copy)]
pub(crate) struct KnownTrees<'a, L> {
    /// The live pairs.
    pub(crate) table: &'a LiveIndex<L>,
    /// The pairs that a write touches.
    pub(crate) marks: &'a Marks,
    /// Which blocks stand elsewhere.
    pub(crate) moves: &'a Move<'a>,
    /// The children that are walked below kept blocks.
    pub(crate) starts: &'a Starts,
}

/// What the walk of a tree as it is gives.
#[derive(Drop)]
pub(crate) struct NewTree {
    /// The blocks and items that are not kept.
    pub(crate) read: Gathered,
    /// The kept blocks that it met, each with its pair.
    pub(crate) met: Vec<Met>,
    /// The blocks that it is done with, each with its greatest key.
    pub(crate) ended: Vec<Ended>,
}

/// Walks a tree as it is, and keeps what is known of it as it was. It looks at most three times into the table of live pairs for each
/// block that it comes to.
#[tactic(auto, using(crate::proofs::Gathering::gathered_none), unfolding(crate::specs::Walks::new_walk))]
pub(crate) fn walk_new<D: Disk, L>(
    alloc: Global,
    disk: &mut D,
    source: &BlockSource<'_>,
    known: &KnownTrees<'_, L>,
    steps: &mut Steps<L>,
    room: &mut Vec<u8>,
    e: &Expect,
) -> Result<NewTree, Halt>
    requires size { is_node_size source.now.sup.now.nodesize ≡ true }
    requires end { source.now.end ≡ D.len disk.old }
    ensures gives { Gives D.Disk disk.old source.now.cache.now (handing new_by result)
        (λ image. new_walk (known_by known.now) (side_with source.now image) e.now) }
    ensures met { IfOk result (λ made. AreMetBy (pairs_of (known.now).table.now) made.met.items) }
    ensures reads { IfOk result (λ made. IfSome (D.bytes disk.old) (λ _.
        D.reads disk.new ≤ D.reads disk.old + 2 * length made.read.blocks.items)) }
    ensures looks { OnOk result (
        LooksFew (D.bytes disk.old) source.now.cache.now steps.old steps.new
        (λ image. new_visits (known_by known.now) (side_with source.now image) e.now)) }
    ensures kept { Kept D.Disk disk.old disk.new (is_disk_halt result) }
{
    let mut read = Gathered::new(alloc);
    let mut keeps = KnownTree {
        table: known.table,
        marks: known.marks,
        moves: known.moves,
        starts: known.starts,
        steps: &mut *steps,
        met: Vec::with_capacity(alloc, CHILDREN)?,
        ended: Vec::with_capacity(alloc, CHILDREN)?,
        found: None,
        behind: None,
    };
    walk_changed(alloc, disk, source, &mut keeps, e, room, &mut read)?;
    let looks = keeps.steps.looks();
    let (met, ended) = (keeps.met, keeps.ended);
    // `keeps` owns memory, so no proof here sees that the counter which it was lent ends as it left it. It does, so this never stops.
    if steps.looks() != looks {
        return Err(Halt::NoMemory);
    }
    Ok(NewTree { read, met, ended })
}

/// Walks a tree as it was, which stops at these blocks of the tree as it is. Of each block that it reads it reads the first copy alone, by
/// chunks that have no other. It looks at most three times into the table of live pairs for each block that it comes to.
#[tactic(auto, unfolding(crate::specs::Walks::old_walk))]
pub(crate) fn walk_old<D: Disk, L>(
    alloc: Global,
    disk: &mut D,
    source: &BlockSource<'_>,
    firsts: &ChunkMap,
    known: &KnownTrees<'_, L>,
    met: &[Met],
    steps: &mut Steps<L>,
    room: &mut Vec<u8>,
    e: &Expect,
) -> Result<Gathered, Halt>
    requires size { is_node_size source.now.sup.now.nodesize ≡ true }
    requires end { source.now.end ≡ D.len disk.old }
    requires once { firsts.now ≡ first_copies source.now.map.now }
    requires met { AreMetBy (pairs_of (known.now).table.now) met.now }
    ensures gives { Gives D.Disk disk.old source.now.cache.now (handing gathers result)
        (λ image. old_walk (known_by known.now) (blocks_met met.now)
        (side_with source.now image) e.now) }
    ensures reads { IfOk result (λ read. IfSome (D.bytes disk.old) (λ _.
        D.reads disk.new ≤ D.reads disk.old + length read.blocks.items)) }
    ensures looks { OnOk result (
        LooksFew (D.bytes disk.old) source.now.cache.now steps.old steps.new
        (λ image. old_visits (known_by known.now) (blocks_met met.now)
        (side_with source.now image) e.now)) }
    ensures kept { Kept D.Disk disk.old disk.new (is_disk_halt result) }
{
    let stops = Stops::new(alloc, met)?;
    let mut read = Gathered::new(alloc);
    let mut keeps = OldTree {
        table: known.table,
        stops: &stops,
        starts: known.starts,
        steps: &mut *steps,
        next: 0,
    };
    let first = BlockSource {
        cache: source.cache,
        map: firsts,
        sup: source.sup,
        end: source.end,
    };
    walk_changed(alloc, disk, &first, &mut keeps, e, room, &mut read)?;
    Ok(read)
}
