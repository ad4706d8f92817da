//! The children that are walked below blocks that are not read.

ghost use Rattle.std.specs.Prelude.{◌≡◌, ℕ, ◌+◌, ◌*◌, ◌≤◌, IfOk, OnOk};
ghost use Rattle.live_index.specs.Table.{pairs_of};
ghost use Rattle.touched_blocks.specs.Marks.{count_of, marked_by, with_mark};
ghost use Rattle.tree_laws.specs.Keeping.{Marks as IsMarked};
ghost use Rattle.tree_laws.specs.Listed.{AreListedBy, is_before, up_to};
ghost use Rattle.tree_laws.specs.Listing.{IsChildAt, rank_of, with_child, with_start};
ghost use Rattle.shared_trees.specs.Under.{no_starts, under_of};

use live_index::LiveIndex;
use node_reader::Pointer;
use recon_disk::Steps;
use std::alloc::Global;
use std::collections::BTreeMap;
use touched_blocks::{Marks, PairPlace, parent_of};
use tree_laws::Start;
use verdict::{Key, NoMemory};

// The children that are walked below one block.
#[derive(Drop)]
pub(crate) struct Listed {
    starts: Vec<Start>,
}

/// The children that are walked below blocks that are not read, by the tree and the logical address of these blocks.
#[derive(Drop)]
pub struct Starts {
    under: BTreeMap<PairPlace, Listed>,
}

impl Starts {
    /// No children. They take their memory from this allocator.
    #[tactic(auto, unfolding(crate::specs::Under::under_of))]
    pub fn new(alloc: Global) -> Starts
        ensures { under_of result ≡ no_starts }
    {
        Starts {
            under: BTreeMap::new(alloc),
        }
    }

    /// The children by a table of live pairs and by marks on some of them and on all above these: each marked pair stands below
    /// the node above it, in the order of the keys. It looks into the table up to three times for each mark. The children, and a
    /// list of the marks meanwhile, take their memory from this allocator.
    #[tactic(auto, using(crate::proofs::Listed::list_steps))]
    pub fn listed<L>(
        alloc: Global,
        table: &LiveIndex<L>,
        moving: &Marks,
        steps: &mut Steps<L>,
    ) -> Result<Starts, NoMemory>
        ensures ok { IfOk result (λ starts.
            AreListedBy (pairs_of table.now) (marked_by moving.now) (under_of starts)) }
        ensures looks { steps.new ≤ steps.old + 3 * count_of moving.now }
    {
        let mut starts = Starts::new(alloc);
        let places = moving.places(alloc)?;
        for place in &places {
            starts.add(alloc, table, place, steps)?;
        }
        Ok(starts)
    }

    // Adds the child of a marked pair, where a node is above it.
    #[tactic(auto, using(crate::proofs::Listed::add_steps))]
    fn add<L>(
        &mut self,
        alloc: Global,
        table: &LiveIndex<L>,
        place: &PairPlace,
        steps: &mut Steps<L>,
    ) -> Result<(), NoMemory>
        ensures ok { OnOk result ((marked : IsMarked)
            → AreListedBy (pairs_of table.now) marked (under_of self.old)
            → AreListedBy (pairs_of table.now)
            (with_mark marked (place.now).tree (place.now).address)
            (under_of self.new)) }
        ensures looks { steps.new ≤ steps.old + 3 }
    {
        match child_of(table, place, steps) {
            None => Ok(()),
            Some((parent, start)) => self.put(alloc, place.tree, parent, start),
        }
    }

    // Puts a child below the block of a tree at an address.
    #[tactic(auto, unfolding(crate::specs::Under::under_of))]
    fn put(&mut self, alloc: Global, tree: u64, address: u64, start: Start) -> Result<(), NoMemory>
        ensures { OnOk result ((t a : ℕ) →
            under_of self.new t a ≡ with_child (under_of self.old) tree address start t a) }
    {
        let place = PairPlace { tree, address };
        let mut listed = match self.under.remove(&place) {
            Some(listed) => listed,
            None => Listed {
                starts: Vec::new(alloc),
            },
        };
        listed.put(start)?;
        self.under.insert(place, listed)?;
        Ok(())
    }

    /// The children that are walked below the block of a tree at a logical address.
    #[tactic(auto, unfolding(crate::specs::Under::under_of))]
    pub fn of(&self, tree: u64, address: u64) -> &[Start]
        ensures { result.now ≡ under_of self.now tree address }
    {
        match self.under.get(&PairPlace { tree, address }) {
            Some(listed) => listed.starts.as_slice(),
            None => &[],
        }
    }
}

impl Listed {
    // Puts a child at its place, where it does not stand there.
    #[tactic(auto, using(crate::proofs::Listed::put_steps))]
    fn put(&mut self, start: Start) -> Result<(), NoMemory>
        ensures { OnOk result (self.new.starts.items ≡ with_start start self.old.starts.items) }
    {
        let rank = rank_of(self.starts.as_slice(), &start);
        if rank < self.starts.len() && !is_before(&start, &self.starts[rank]) {
            return Ok(());
        }
        Ok(self.starts.insert(rank, start)?)
    }
}

// How many of the first children come before one.
#[tactic(auto, using(crate::proofs::Listed::rank_steps))]
fn rank_of(starts: &[Start], start: &Start) -> usize
    ensures { result ≡ rank_of start.now starts.now }
{
    for (i, one) in starts.iter().enumerate() {
        if !is_before(one, start) {
            return i;
        }
    }
    starts.len()
}

// Whether one child comes before another.
fn is_before(one: &Start, other: &Start) -> bool
    ensures { result ≡ is_before one.now other.now }
{
    let (a, b) = (one.pointer, other.pointer);
    a.key < b.key || (a.key == b.key && a.address < b.address)
}

// The pair at a place as a child, with the address of the node above it, where one is above it.
fn child_of<L>(
    table: &LiveIndex<L>,
    place: &PairPlace,
    steps: &mut Steps<L>,
) -> Option<(u64, Start)>
    ensures child { IsChildAt (pairs_of table.now) (place.now).tree (place.now).address result }
    ensures looks { steps.new ≤ steps.old + 3 }
{
    let live = table.get(place.tree, place.address, steps)?;
    let up = parent_of(table, &live, steps)?;
    let next = table.next_first(live.tree, live.level, live.first, steps);
    let start = Start {
        pointer: Pointer {
            key: live.first,
            address: live.address,
            generation: live.generation,
        },
        next: up_to(up.last, next),
    };
    Some((live.parent, start))
}

// A key that is not above another.
fn up_to(last: Key, key: Option<Key>) -> Option<Key>
    ensures { result ≡ up_to last key }
{
    match key {
        Some(key) if key <= last => Some(key),
        _ => None,
    }
}
