//! The table of live pairs.

ghost use Rattle.std.specs.Prelude.{◌≡◌, IfSome, OnOk, OnErr};
ghost use Rattle.recon_disk.specs.Outside.{counted};
ghost use Rattle.live_index.specs.Pairs.{AreNarrow, IsLeastFrom, IsNextFirst, IsNextOf, no_pairs, with_pair, without_pair};
ghost use Rattle.live_index.specs.InOrder.{place_of, start_of};
ghost use Rattle.live_index.specs.Table.{pairs_of};

use crate::Live;
use crate::kept::LiveIndex;
use crate::orders::Orders;
use crate::places::ByTree;
use recon_disk::Steps;
use std::alloc::Global;
use std::collections::BTreeMap;
use std::marker::PhantomData;
use std::ops::Bound;
use verdict::{Key, NoMemory};

impl<L> LiveIndex<L> {
    /// The empty table. It takes its memory from this allocator.
    pub fn new(alloc: Global) -> LiveIndex<L>
        ensures { pairs_of result ≡ no_pairs }
    {
        LiveIndex {
            pairs: BTreeMap::new(alloc),
            orders: Orders::new(alloc),
            mark: PhantomData,
        }
    }

    /// Puts a pair into the table, in the place of the one with its tree and address where one stands.
    /// Out of memory, nothing changes.
    pub fn insert(&mut self, live: Live, steps: &mut Steps<L>) -> Result<(), NoMemory>
        ensures ok { OnOk result (pairs_of self.new ≡ with_pair (pairs_of self.old) live) }
        ensures err { OnErr result (pairs_of self.new ≡ pairs_of self.old) }
        ensures looks { steps.new ≡ counted steps.old }
    {
        steps.look();
        let place = place_of(live.tree, live.address);
        match self.pairs.insert(place, live)? {
            None => match self.orders.add(&live) {
                Ok(()) => Ok(()),
                Err(_) => {
                    self.pairs.remove(&place);
                    Err(NoMemory)
                }
            },
            Some(old) => match self.orders.exchange(&old, &live) {
                Ok(()) => Ok(()),
                Err(_) => {
                    // A pair stands there, so that this takes no memory.
                    let _ = self.pairs.insert(place, old);
                    Err(NoMemory)
                }
            },
        }
    }

    /// Takes the pair of a tree at an address out of the table. `None` exactly where there is none.
    pub fn remove(&mut self, tree: u64, address: u64, steps: &mut Steps<L>) -> Option<Live>
        ensures value { result ≡ pairs_of self.old tree address }
        ensures own { IfSome result (λ live. (live.tree ≡ tree) × (live.address ≡ address)) }
        ensures left { pairs_of self.new ≡ without_pair (pairs_of self.old) tree address }
        ensures looks { steps.new ≡ counted steps.old }
    {
        steps.look();
        let live = self.pairs.remove(&place_of(tree, address))?;
        self.orders.take(&live);
        Some(live)
    }

    /// The pair of a tree at an address. `None` exactly where there is none.
    pub fn get(&self, tree: u64, address: u64, steps: &mut Steps<L>) -> Option<Live>
        ensures value { result ≡ pairs_of self.now tree address }
        ensures own { IfSome result (λ live. (live.tree ≡ tree) × (live.address ≡ address)) }
        ensures looks { steps.new ≡ counted steps.old }
    {
        steps.look();
        self.pairs.get(&place_of(tree, address)).copied()
    }

    /// The least pair by address, and at one address by tree, from this address and tree on. `None`
    /// exactly where there is none.
    pub fn at_or_after(&self, address: u64, tree: u64, steps: &mut Steps<L>) -> Option<Live>
        ensures value { IsLeastFrom (pairs_of self.now) address tree result }
        ensures looks { steps.new ≡ counted steps.old }
    {
        match self.orders.first_from(address, tree) {
            Some(place) => self.get(place.tree, place.address, steps),
            None => {
                steps.look();
                None
            }
        }
    }

    /// The pair of a tree with the least address, or with the least above `after`. `None` exactly where
    /// there is none.
    pub fn next_of(&self, tree: u64, after: Option<u64>, steps: &mut Steps<L>) -> Option<Live>
        ensures value { IsNextOf (pairs_of self.now) tree after result }
        ensures looks { steps.new ≡ counted steps.old }
    {
        steps.look();
        let start = start_of(tree, after);
        let (place, live) = self.pairs.range((start, Bound::Unbounded)).next()?;
        if place.tree == tree {
            Some(*live)
        } else {
            None
        }
    }

    /// The least first key above `first` of the pairs of a tree and a level. `None` exactly where there
    /// is none.
    pub fn next_first(&self, tree: u64, level: u8, first: Key, steps: &mut Steps<L>) -> Option<Key>
        ensures value { IsNextFirst (pairs_of self.now) tree level first result }
        ensures looks { steps.new ≡ counted steps.old }
    {
        steps.look();
        self.orders.next_key(tree, level, first)
    }

    /// Tree ids and addresses in a table have 64 bits.
    pub fn narrow_law(&self)
        ensures { AreNarrow (pairs_of self.now) }
    {}
}

// Where the pairs of a tree begin that stand above an address, where one is given.
fn start_of(tree: u64, after: Option<u64>) -> Bound<ByTree>
    ensures { result ≡ start_of tree after }
{
    match after {
        Some(address) => Bound::Excluded(place_of(tree, address)),
        None => Bound::Included(place_of(tree, 0)),
    }
}

// Where the pair of a tree at an address stands.
fn place_of(tree: u64, address: u64) -> ByTree
    ensures { result ≡ place_of tree address }
{
    ByTree { tree, address }
}
