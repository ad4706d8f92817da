//! The sums of all sectors.

ghost use Rattle.std.specs.Prelude.{◌≡◌, ℕ, ◌+◌, ◌-◌, ◌*◌, ◌^◌, ◌≤◌, OnOk, OnErr};
ghost use Rattle.std.specs.Ordering.{nat_cmp};
ghost use Rattle.std.specs.BTreeMap.{get};
ghost use Rattle.accounts.specs.Sums.{sum_in};
ghost use Rattle.sector_runs.specs.Edges.{sums_of};
ghost use Rattle.sector_runs.specs.Kept.{IsMarked, begins, ends};
ghost use Rattle.sector_runs.specs.Runs.{IsFit, IsLeastBroken, no_sectors, with_run};
ghost use Rattle.accounts.specs.Kinds.{sector_keeps};

use crate::edge::{Edge, Edges};
use crate::kept::Sectors;
use crate::run::SectorRun;
use accounts::kinds::{SECTOR_DATA, SECTOR_EXTENTS, SECTOR_SHOWN, SECTOR_SUMS};
use accounts::{Totals, sector_keeps};
use std::alloc::Global;
use std::collections::BTreeMap;
use std::collections::btree_map::Entry;
use verdict::{NoMemory, SECTOR};

impl Sectors {
    /// The sums of no runs. They take their memory from this allocator.
    pub fn new(alloc: Global) -> Sectors
        ensures { sums_of result ≡ no_sectors }
    {
        Sectors {
            edges: BTreeMap::new(alloc),
        }
    }

    /// Adds a run. Want of memory, also where more runs begin or end at one sector than 64 bits count, may leave it
    /// added in part.
    pub fn add(&mut self, run: &SectorRun) -> Result<(), NoMemory>
        requires { IsFit run.now }
        ensures { OnOk result (sums_of self.new ≡ with_run (sums_of self.old) run.now) }
    {
        mark(&mut self.edges, run.first, Edges::of(run.sort, Edge::BEGIN))?;
        mark(&mut self.edges, end_of(run), Edges::of(run.sort, Edge::END))
    }

    /// The address in bytes of the least broken sector, or `None` exactly where none is.
    pub fn least_broken(&self) -> Option<u64>
        ensures { IsLeastBroken (sums_of self.now) result }
    {
        // The sums change at edges alone.
        let mut totals = Totals::zero();
        for (address, edges) in &self.edges {
            let address = *address;
            if !pass(&mut totals, edges) {
                return Some(address);
            }
        }
        None
    }
}

// The address in bytes behind the last sector of a run.
fn end_of(run: &SectorRun) -> u64
    requires { IsFit run.now }
    ensures { result ≡ run.now.first + run.now.count * 4096 }
{
    run.first + run.count * SECTOR
}

// Adds what begins and ends at an address. An entry goes away where all that it has cancels.
fn mark(edges: &mut BTreeMap<u64, Edges>, at: u64, more: Edges) -> Result<(), NoMemory>
    ensures ok { OnOk result (IsMarked (get nat_cmp edges.old) (get nat_cmp edges.new) at more) }
    ensures err { OnErr result ((q : ℕ) → get nat_cmp edges.new q ≡ get nat_cmp edges.old q) }
{
    match edges.entry(at)? {
        Entry::Occupied(mut entry) => {
            let joined = entry.get().joined(more)?;
            if joined == Edges::NONE {
                entry.remove();
            } else {
                entry.insert(joined);
            }
            Ok(())
        }
        Entry::Vacant(entry) => {
            entry.insert(more);
            Ok(())
        }
    }
}

// Makes the sums of the sectors before an address those of the sectors from it on, by what begins and ends there.
// Whether these keep the rule on a sector.
fn pass(totals: &mut Totals, edges: &Edges) -> bool
    requires ends { (field : ℕ) →
        ends field edges.now ≤ sum_in totals.old field + begins field edges.now }
    requires room { (field : ℕ) → sum_in totals.old field + 2 ^ 64 ≤ 2 ^ 128 }
    ensures sums { (field : ℕ) → sum_in totals.new field
        ≡ (sum_in totals.old field + begins field edges.now) - ends field edges.now }
    ensures most { (field : ℕ) → sum_in totals.new field ≤ sum_in totals.old field + 2 ^ 64 }
    ensures keeps { result ≡ sector_keeps (sum_in totals.new) }
{
    let f = &mut totals.f;
    f[SECTOR_EXTENTS as usize] = passed(f[SECTOR_EXTENTS as usize], edges.owned);
    f[SECTOR_DATA as usize] = passed(f[SECTOR_DATA as usize], edges.of_data);
    f[SECTOR_SUMS as usize] = passed(f[SECTOR_SUMS as usize], edges.summed);
    f[SECTOR_SHOWN as usize] = passed(f[SECTOR_SHOWN as usize], edges.shown);
    sector_keeps(totals)
}

// One sum with what begins and without what ends.
fn passed(sum: u128, edge: Edge) -> u128
    requires ends { edge.ends ≤ sum + edge.begins }
    requires room { sum + 2 ^ 64 ≤ 2 ^ 128 }
    ensures sum { result ≡ (sum + edge.begins) - edge.ends }
    ensures most { result ≤ sum + 2 ^ 64 }
{
    sum + u128::from(edge.begins) - u128::from(edge.ends)
}
