//! The least sector inside some runs whose account is broken.

ghost use Rattle.std.specs.Prelude.{◌≡◌, ℕ, ◌+◌, ◌<◌, ◌≤◌, ◌%◌, List, ◌∷◌, []};
ghost use Rattle.std.specs.BTreeMap.{IsOrdered};
ghost use Rattle.accounts.specs.Broken.{is_broken};
ghost use Rattle.accounts.specs.Context.{Context};
ghost use Rattle.accounts.specs.Kinds.{sector};
ghost use Rattle.accounts.specs.Sums.{sum_in};
ghost use Rattle.span_index.specs.Judging.{AreBeginning, AreBegun, AreCovered, ArePassing, ArePast, AreReached, AreStill, AreWalked, passed};
ghost use Rattle.span_index.specs.Places.{place_cmp};
ghost use Rattle.span_index.specs.Reach.{reaching};
ghost use Rattle.span_index.specs.Sectors.{AreRunsFrom, HasEach, IsFirstBad, IsRun, Judges, is_bad};
ghost use Rattle.span_index.specs.Spans.{Table};
ghost use Rattle.span_index.specs.Sweep.{passed_sum, spans_of};
ghost use Rattle.span_index.specs.Table.{times_of};
ghost use Rattle.span_index.specs.Walks.{IsWalked};
ghost use Rattle.span_index.specs.declared.span.Span.{Span};
ghost use Rattle.span_index.specs.declared.span.Run.{Run};

use crate::cursor::{Head, Walk};
use crate::kept::SpanIndex;
use crate::reach::Reach;
use crate::span::{Run, SortName};
use accounts::{Ctx, Totals, sector_keeps};
use recon_disk::Steps;

impl<L> SpanIndex<L> {
    /// The least multiple of 4096 inside one of some runs where the spans break the rule on a sector. The runs ascend
    /// and do not meet. `None` exactly where there is none. There are no more looks than spans that meet one of the
    /// runs, equal ones counted once, three for each run, and three more.
    pub fn first_bad<C: Ctx>(&self, ctx: &C, runs: &[Run], steps: &mut Steps<L>) -> Option<u64>
        requires { AreRunsFrom 0 runs.now }
        ensures { Judges (times_of self.now) (C.context ctx.now) runs.now result steps.old
            steps.new }
    {
        // A map that has told its length is known to be in order.
        let _ = self.spans.len();
        let mut walks = Walks::new();
        for run in runs {
            let begun = walks.begin(self, run.from, steps);
            let (next, bad) = begun.search(ctx, self, run, steps);
            if bad.is_some() {
                return bad;
            }
            walks = next;
        }
        None
    }
}

/// A walk over the spans of each sort.
#[derive(Clone, Copy)]
pub(crate) struct Walks {
    pub(crate) owned: Walk,
    pub(crate) summed: Walk,
    pub(crate) shown: Walk,
}

// A walk before all spans of a sort.
fn start(sort: SortName) -> Walk
    ensures sort { result.sort ≡ sort }
    ensures walked { (context : Context) (table : Table) (spans : List Span) →
        IsWalked context table spans 0 0 result }
    ensures passed { (value : Span → ℕ) (spans : List Span) →
        passed_sum value result.head spans ≡ 0 }
{
    Walk {
        sort,
        head: Head::Start,
        all: Reach::NONE,
        of_data: Reach::NONE,
    }
}

impl Walks {
    // Before all spans.
    fn new() -> Walks
        ensures walked { (context : Context) (table : Table) (spans : List Span) →
            AreWalked context table spans 0 0 result }
        ensures passed { (runs : List Run) (spans : List Span) → passed runs result spans ≡ 0 }
    {
        Walks {
            owned: start(SortName::Owned),
            summed: start(SortName::Summed),
            shown: start(SortName::Shown),
        }
    }

    // Goes on from an address: to the first spans that end after it, of those not passed yet.
    fn begin<L>(self, index: &SpanIndex<L>, address: u64, steps: &mut Steps<L>) -> Walks
        requires { IsOrdered place_cmp index.now.spans }
        ensures { (context : Context) (low from : ℕ) → from ≤ address →
            AreWalked context (times_of index.now) (spans_of index.now) low from self →
            AreBeginning context (times_of index.now) (spans_of index.now) address self result
            steps.old steps.new }
    {
        Walks {
            owned: self.owned.begin(index, address, steps),
            summed: self.summed.begin(index, address, steps),
            shown: self.shown.begin(index, address, steps),
        }
    }

    // Passes all spans that begin at an address or before it.
    fn pass<L, C: Ctx>(
        self,
        ctx: &C,
        index: &SpanIndex<L>,
        address: u64,
        steps: &mut Steps<L>,
    ) -> Walks
        ghost low: { ℕ }
        requires ordered { IsOrdered place_cmp index.now.spans }
        requires low { low ≤ address }
        requires begun { AreBegun self }
        requires walked { AreWalked (C.context ctx.now) (times_of index.now) (spans_of index.now)
            low address self }
        ensures { ArePassing (C.context ctx.now) (times_of index.now) (spans_of index.now) low
            address self result steps.old steps.new }
    {
        Walks {
            owned: self.owned.pass(ctx, index, address, steps),
            summed: self.summed.pass(ctx, index, address, steps),
            shown: self.shown.pass(ctx, index, address, steps),
        }
    }

    // The sums of the sector at an address, counted up to two, by the spans that have been passed.
    fn totals(&self, address: u64) -> Totals
        ensures owned { sum_in result 0 ≡ reaching self.now.owned.all address }
        ensures of_data { sum_in result 1 ≡ reaching self.now.owned.of_data address }
        ensures summed { sum_in result 2 ≡ reaching self.now.summed.all address }
        ensures shown { sum_in result 3 ≡ reaching self.now.shown.all address }
    {
        let owned = self.owned.all.past(address);
        let of_data = self.owned.of_data.past(address);
        let summed = self.summed.all.past(address);
        let shown = self.shown.all.past(address);
        Totals {
            f: [owned, of_data, summed, shown, 0, 0, 0, 0, 0],
        }
    }

    // Whether the account of the sector at an address is broken.
    fn is_broken(&self, address: u64) -> bool
        ensures { (sums : ℕ → ℕ) → AreReached address self.now sums →
            result ≡ is_broken (sector address) sums }
    {
        !sector_keeps(&self.totals(address))
    }

    // The sector where a sum can change next, behind that at an address, or the end of a run where that comes first.
    fn bound(&self, address: u64, until: u64) -> u64
        requires inside { address < until }
        requires sectors { until % 4096 ≡ 0 }
        requires past { ArePast address self.now }
        ensures after { address < result }
        ensures most { result ≤ until }
        ensures sectors { result % 4096 ≡ 0 }
        ensures still { (later : ℕ) → later % 4096 ≡ 0 → address ≤ later → later < result →
            AreStill address later self.now }
    {
        let most = self.owned.bound(address, u128::from(until));
        let most = self.summed.bound(address, most);
        self.shown.bound(address, most).next_multiple_of(4096) as u64
    }

    // Goes on through a run that begins where the walks stand: the least broken sector of it.
    fn search<L, C: Ctx>(
        self,
        ctx: &C,
        index: &SpanIndex<L>,
        run: &Run,
        steps: &mut Steps<L>,
    ) -> (Walks, Option<u64>)
        ghost low: { ℕ }
        requires ordered { IsOrdered place_cmp index.now.spans }
        requires run { IsRun run.now }
        requires low { low ≤ run.now.from }
        requires begun { AreBegun self }
        requires walked { AreWalked (C.context ctx.now) (times_of index.now) (spans_of index.now)
            low run.now.from self }
        ensures walked { AreWalked (C.context ctx.now) (times_of index.now) (spans_of index.now)
            low run.now.until result.0 }
        ensures first { IsFirstBad (is_bad (C.context ctx.now) (spans_of index.now)) (run.now ∷ [])
            result.1 }
        ensures looks { (each : List Span) → HasEach (times_of index.now) each →
            (runs : List Run) → AreCovered runs low run.now.until →
            steps.new + passed runs self each ≤ steps.old + passed runs result.0 each }
    {
        let mut walks = self;
        let mut at = run.from;
        while at < run.until {
            walks = walks.pass(ctx, index, at, steps);
            if walks.is_broken(at) {
                return (walks, Some(at));
            }
            at = walks.bound(at, run.until);
        }
        (walks, None)
    }
}
