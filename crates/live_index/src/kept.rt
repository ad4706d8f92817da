//! What is kept of live pairs.

ghost use Rattle.live_index.specs.InOrder.{pairs_in};
ghost use Rattle.live_index.specs.Orders.{AreAlike};
ghost use Rattle.live_index.specs.Pairs.{AreNarrow};

use crate::Live;
use crate::orders::Orders;
use crate::places::ByTree;
use std::collections::BTreeMap;
use std::marker::PhantomData;

/// The live pairs of an image, each under its tree and its logical address. Each call but `new` looks
/// once into the table, and counts that.
///
/// The mark `L` ties the table to its counter: code that is generic in `L` can make no counter of its
/// own.
#[derive(Drop)]
pub struct LiveIndex<L> {
    pub(crate) pairs: BTreeMap<ByTree, Live>,
    // The same pairs by address and by first key.
    pub(crate) orders: Orders,
    pub(crate) mark: PhantomData<L>,
    ghost alike: { AreAlike (pairs_in pairs) orders },
    ghost narrow: { AreNarrow (pairs_in pairs) },
}
