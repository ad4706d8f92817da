//! Marks on pairs of a tree and a block.

ghost use Rattle.std.specs.Prelude.{◌≡◌, ℕ, ◌+◌, ◌≤◌, ◌<◌, ◌^◌, ◌||◌, false, List, length, vec_len, if◌then◌else◌, IfOk, OnOk, OnErr};
ghost use Rattle.std.specs.List.Sorted.{IsStrictlySortedBy};
ghost use Rattle.live_index.specs.declared.live.Live.{Live};
ghost use Rattle.touched_blocks.specs.Marks.{AreAmong, by_pair, count_of, left_of, marked_by, marked_in, pair_place, with_mark};

use std::alloc::Global;
use std::collections::BTreeSet;
use verdict::NoMemory;

/// Where the mark of a pair stands: by tree, then by address.
#[derive(Clone, Copy, PartialEq, Eq, PartialOrd, Ord)]
pub struct PairPlace {
    /// The id of the tree.
    pub tree: u64,
    /// The logical address of the block in bytes.
    pub address: u64,
}

/// Marks on pairs of a tree and the logical address of a block.
#[derive(Drop)]
pub struct Marks {
    places: BTreeSet<PairPlace>,
}

impl Marks {
    /// No mark. The marks take their memory from this allocator.
    #[tactic(auto, unfolding(crate::specs::Marks::marked_by))]
    pub fn new(alloc: Global) -> Marks
        ensures { (tree address : ℕ) → marked_by result tree address ≡ false }
    {
        Marks {
            places: BTreeSet::new(alloc),
        }
    }

    /// Whether the pair of a tree at an address is marked.
    #[tactic(auto, unfolding(crate::specs::Marks::marked_by))]
    pub fn has(&self, tree: u64, address: u64) -> bool
        ensures { result ≡ marked_by self.now tree address }
    {
        self.places.contains(&place_of(tree, address))
    }

    /// Marks the pair of a tree at an address. Out of memory, nothing changes.
    #[tactic(auto, unfolding(crate::specs::Marks::marked_by))]
    pub fn put(&mut self, tree: u64, address: u64) -> Result<(), NoMemory>
        ensures ok { OnOk result ((t a : ℕ) →
            marked_by self.new t a ≡ with_mark (marked_by self.old) tree address t a) }
        ensures count { OnOk result (count_of self.new ≡
            count_of self.old + (if marked_by self.old tree address then 0 else 1)) }
        ensures err { OnErr result ((t a : ℕ) → marked_by self.new t a ≡ marked_by self.old t a) }
    {
        self.places.insert(place_of(tree, address))?;
        Ok(())
    }

    /// Puts other marks to these. A list of the other marks meanwhile takes its memory from this allocator. Out of memory, some of them may
    /// have been put.
    pub fn join(&mut self, alloc: Global, other: &Marks) -> Result<(), NoMemory>
        ensures ok { OnOk result ((tree address : ℕ) → marked_by self.new tree address ≡
            (marked_by self.old tree address || marked_by other.now tree address)) }
        ensures few { OnOk result ((lives : List Live) →
            AreAmong (left_of (marked_by self.old) (marked_by other.now)) lives →
            count_of self.new ≤ count_of self.old + length lives) }
    {
        let places = other.places(alloc)?;
        for place in &places {
            self.put(place.tree, place.address)?;
        }
        Ok(())
    }

    /// The marks are at most as many as live pairs among which each marked pair is. It costs no pass over the marks.
    pub fn count_law(&self)
        ensures { (lives : List Live) → AreAmong (marked_by self.now) lives →
            count_of self.now ≤ length lives }
    {
        // The set tells here that its places differ.
        let _ = self.places.len();
    }

    /// The places of all marks, each once, by tree and then by address. The list takes its memory from this allocator.
    #[tactic(auto, using(crate::proofs::MarkLaws::listed_marks), unfolding(crate::specs::Marks::count_of, crate::specs::Marks::marked_by))]
    pub fn places(&self, alloc: Global) -> Result<Vec<PairPlace>, NoMemory>
        ensures ok { IfOk result (λ places. (tree address : ℕ) →
            marked_by self.now tree address ≡ marked_in places.items tree address) }
        ensures count { IfOk result (λ places. vec_len places ≡ count_of self.now) }
        ensures order { IfOk result (λ places. IsStrictlySortedBy by_pair places.items) }
    {
        Ok(self.places.iter().copied().collect(alloc)?)
    }
}

// Where the mark of the pair of a tree at an address stands.
fn place_of(tree: u64, address: u64) -> PairPlace
    ensures { result ≡ pair_place tree address }
{
    PairPlace { tree, address }
}
