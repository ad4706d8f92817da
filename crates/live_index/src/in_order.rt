//! A walk over pairs in the order of their first keys.

ghost use Rattle.std.specs.List.{All};
ghost use Rattle.live_index.specs.Pairs.{Stands};
ghost use Rattle.live_index.specs.Table.{pairs_of};

use crate::Live;
use crate::kept::LiveIndex;
use crate::orders::key_of;
use crate::places::ByFirst;
use recon_disk::Steps;
use std::collections::btree_map::Range;
use std::ops::Bound;

/// A walk over pairs of a table in the order of their trees, levels and first keys. Each step looks
/// once into the table, and counts that.
///
/// Which pair a step gives is a matter of speed alone. Nothing is promised of it but that it stands
/// in the table.
#[derive(Drop)]
pub struct InKeyOrder<'a, L> {
    /// The table.
    pub table: &'a LiveIndex<L>,
    // What is left of the walk.
    rest: Range<'a, ByFirst, Live>,
    ghost stand: { All (λ one. Stands (pairs_of table.now) one.1) rest },
}

impl<L> LiveIndex<L> {
    ghost use Rattle.std.specs.Prelude.{◌≡◌};
    ghost use Rattle.recon_disk.specs.Outside.{counted};

    /// A walk over the pairs that come behind this one by tree, level and first key. It looks once into
    /// the table.
    pub fn behind(&self, live: &Live, steps: &mut Steps<L>) -> InKeyOrder<'_, L>
        ensures table { result.table.now ≡ self.now }
        ensures looks { steps.new ≡ counted steps.old }
    {
        steps.look();
        let place = key_of(live);
        InKeyOrder {
            table: self,
            rest: self
                .orders
                .by_first
                .range((Bound::Excluded(place), Bound::Unbounded)),
        }
    }
}

impl<'a, L> InKeyOrder<'a, L> {
    ghost use Rattle.std.specs.Prelude.{◌≡◌, IfSome};
    ghost use Rattle.recon_disk.specs.Outside.{counted};

    /// The next pair. `None` where the walk is at its end.
    pub fn next(&mut self, steps: &mut Steps<L>) -> Option<Live>
        ensures table { self.new.table.now ≡ self.old.table.now }
        ensures stands { IfSome result (λ live. Stands (pairs_of self.old.table.now) live) }
        ensures looks { steps.new ≡ counted steps.old }
    {
        steps.look();
        let (_, live) = self.rest.next()?;
        Some(*live)
    }
}
