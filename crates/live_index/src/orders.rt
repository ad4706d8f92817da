//! The pairs by address and by first key.

ghost use Rattle.std.specs.Prelude.{◌≡◌, ◌<◌, ◌^◌, ◌==◌, ◌&&◌, true, false, Some, None, OnOk, OnErr, if◌then◌else◌};
ghost use Rattle.live_index.specs.Orders.{AreAdded, AreKept, AreMoved, AreTaken, IsFirstFrom, IsNextKey, address_place, first_at, has_address, key_place};
ghost use Rattle.live_index.specs.declared.places.ByAddress.{ByAddress as AtAddress};
ghost use Rattle.live_index.specs.declared.places.ByFirst.{ByFirst as AtFirst};

use crate::Live;
use crate::places::{ByAddress, ByFirst};
use std::alloc::Global;
use std::collections::{BTreeMap, BTreeSet};
use std::ops::Bound;
use verdict::{Key, NoMemory};

/// The places of pairs in two orders. At its place by first key stands the pair itself.
#[derive(Drop)]
pub(crate) struct Orders {
    by_address: BTreeSet<ByAddress>,
    pub(crate) by_first: BTreeMap<ByFirst, Live>,
}

impl Orders {
    /// No places. They take their memory from this allocator.
    pub(crate) fn new(alloc: Global) -> Orders
        ensures addresses { (place : AtAddress) → has_address result place ≡ false }
        ensures keys { (place : AtFirst) → first_at result place ≡ None }
    {
        Orders {
            by_address: BTreeSet::new(alloc),
            by_first: BTreeMap::new(alloc),
        }
    }

    /// Adds the places of a pair that has none. Out of memory, nothing changes.
    pub(crate) fn add(&mut self, live: &Live) -> Result<(), NoMemory>
        requires { has_address self.old (address_place live.now) ≡ false }
        ensures ok { OnOk result (AreAdded self.old self.new live.now) }
        ensures err { OnErr result (AreKept self.old self.new) }
    {
        let address = address_of(live);
        self.by_address.insert(address)?;
        match self.by_first.insert(key_of(live), *live) {
            Ok(_) => Ok(()),
            Err(_) => {
                self.by_address.remove(&address);
                Err(NoMemory)
            }
        }
    }

    /// Takes the places of a pair away.
    pub(crate) fn take(&mut self, live: &Live)
        ensures { AreTaken self.old self.new live.now }
    {
        self.by_address.remove(&address_of(live));
        self.by_first.remove(&key_of(live));
    }

    /// Puts a pair at its key, in the place of the pair `from`, which has the same tree and address.
    /// Out of memory, nothing changes.
    pub(crate) fn exchange(&mut self, from: &Live, to: &Live) -> Result<(), NoMemory>
        ensures ok { OnOk result (AreMoved self.old self.new from.now to.now) }
        ensures err { OnErr result (AreKept self.old self.new) }
    {
        let old = key_of(from);
        let new = key_of(to);
        self.by_first.insert(new, *to)?;
        if old != new {
            self.by_first.remove(&old);
        }
        Ok(())
    }

    /// The least place by address from this address and tree on.
    pub(crate) fn first_from(&self, address: u64, tree: u64) -> Option<ByAddress>
        ensures { IsFirstFrom self.now address tree result }
    {
        let place = self.by_address.range(ByAddress { address, tree }..).next()?;
        Some(*place)
    }

    /// The least key above `first` of this tree and level.
    pub(crate) fn next_key(&self, tree: u64, level: u8, first: Key) -> Option<Key>
        ensures { IsNextKey self.now tree level first result }
    {
        let after = ByFirst {
            tree,
            level,
            first,
            address: u64::MAX,
        };
        let (place, _) = self
            .by_first
            .range((Bound::Excluded(after), Bound::Unbounded))
            .next()?;
        key_in(*place, tree, level)
    }
}

// The key of a place of this tree and level.
fn key_in(place: ByFirst, tree: u64, level: u8) -> Option<Key>
    ensures value { result ≡
        (if place.tree == tree && place.level == level then Some place.first else None) }
    ensures small { place.address < 2 ^ 64 }
{
    if place.tree == tree && place.level == level {
        Some(place.first)
    } else {
        None
    }
}

// Where a pair stands by address.
fn address_of(live: &Live) -> ByAddress
    ensures { result ≡ address_place live.now }
{
    ByAddress {
        address: live.address,
        tree: live.tree,
    }
}

// Where a pair stands by its first key.
pub(crate) fn key_of(live: &Live) -> ByFirst
    ensures { result ≡ key_place live.now }
{
    ByFirst {
        tree: live.tree,
        level: live.level,
        first: live.first,
        address: live.address,
    }
}
