//! What is kept of runs.

ghost use Rattle.std.specs.Ordering.{nat_cmp};
ghost use Rattle.std.specs.BTreeMap.{get};
ghost use Rattle.sector_runs.specs.Kept.{AreSound};

use crate::edge::Edges;
use std::collections::BTreeMap;

/// The sums of all sectors. Where runs of one use touch, nothing is kept between them.
#[derive(Debug, Drop)]
pub struct Sectors {
    // By address in bytes.
    pub(crate) edges: BTreeMap<u64, Edges>,
    ghost sound: { AreSound (get nat_cmp edges) },
}
