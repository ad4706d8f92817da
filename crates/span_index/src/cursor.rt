//! A walk over the spans of one sort, in their order.

ghost use Rattle.std.specs.Prelude.{◌≡◌, ℕ, ◌+◌, ◌*◌, ◌%◌, ◌<◌, ◌≤◌, nat_le, None, true, ◌&&◌, ◌==◌, min, if◌then◌else◌};
ghost use Rattle.accounts.specs.Context.{Context};
ghost use Rattle.recon_disk.specs.Outside.{counted};
ghost use Rattle.std.specs.BTreeMap.{IsOrdered};
ghost use Rattle.span_index.specs.Places.{place_cmp};
ghost use Rattle.span_index.specs.Reach.{reaching};
ghost use Rattle.span_index.specs.Sectors.{adds, counts};
ghost use Rattle.span_index.specs.Spans.{end_of, is_sort};
ghost use Rattle.span_index.specs.Sweep.{IsBegun, IsHead, IsOpen, IsStep, above_of, spans_of};
ghost use Rattle.span_index.specs.Table.{times_of};
ghost use Rattle.span_index.specs.Walks.{IsBeginning, IsBeyond, IsPassing, IsWalked, due, is_data, is_field, is_settled, reach_in};

use crate::kept::SpanIndex;
use crate::reach::Reach;
use crate::span::{SortName, Span, SpanSort};
use accounts::Ctx;
use recon_disk::Steps;

/// Where a walk stands.
#[derive(Clone, Copy)]
pub(crate) enum Head {
    /// Before all spans.
    Start,
    /// At a span, which stands so often.
    At(Span, u64),
    /// Behind all spans.
    End,
}

impl Head {
    // The span that a walk stands at.
    fn above(self) -> Option<Span>
        ensures { result ≡ above_of self }
    {
        match self {
            Head::At(span, _) => Some(span),
            _ => None,
        }
    }

    // Whether a walk needs no look to go on from an address.
    fn is_settled(self, address: u64) -> bool
        ensures { result ≡ is_settled address self }
    {
        match self {
            Head::Start => false,
            Head::At(span, _) => end_of(&span) > u128::from(address),
            Head::End => true,
        }
    }

    // The span that a walk stands at, with how often it stands, where it begins at an address or before it.
    fn due(self, address: u64) -> Option<(Span, u64)>
        ensures { result ≡ due address self }
    {
        match self {
            Head::At(span, times) if span.first <= address => Some((span, times)),
            _ => None,
        }
    }
}

impl<L> SpanIndex<L> {
    // The next of a walk over the spans of a sort that have a sector and end after an address.
    pub(crate) fn step(
        &self,
        head: Head,
        sort: SortName,
        address: u64,
        steps: &mut Steps<L>,
    ) -> Head
        requires { IsOpen head }
        ensures begun { IsBegun result }
        ensures head { IsHead (times_of self.now) sort address result }
        ensures step { IsStep (times_of self.now) sort address head result }
        ensures looks { steps.new ≡ counted steps.old }
    {
        steps.look();
        match self.next_meeting(1, sort, address, head.above()) {
            Some((span, times)) => Head::At(span, times),
            None => Head::End,
        }
    }
}

/// A walk over the spans of a sort, and how far those reach that it has passed and that count.
#[derive(Clone, Copy)]
pub(crate) struct Walk {
    pub(crate) sort: SortName,
    pub(crate) head: Head,
    // All of them.
    pub(crate) all: Reach,
    // Those of file data.
    pub(crate) of_data: Reach,
}

impl Walk {
    // With what a span reaches that stands so often.
    fn reaching<C: Ctx>(self, ctx: &C, span: &Span, times: u64) -> Walk
        requires order { self.all.near ≤ self.all.far }
        requires data_order { self.of_data.near ≤ self.of_data.far }
        requires sort { is_sort self.sort span.now.sort ≡ true }
        ensures order { result.all.near ≤ result.all.far }
        ensures data_order { result.of_data.near ≤ result.of_data.far }
        ensures sort { result.sort ≡ self.sort }
        ensures head { result.head ≡ self.head }
        ensures sums { (field later : ℕ) → is_field self.sort field ≡ true → later % 4096 ≡ 0 →
            span.now.first ≤ later → reaching (reach_in result field) later
            ≡ min (reaching (reach_in self field) later
            + times * adds (C.context ctx.now) later field span.now) 2 }
    {
        let end = end_of(span);
        let all = counting(ctx, span, times);
        let of_data = of_data(span, all);
        Walk {
            all: self.all.with(end, all),
            of_data: self.of_data.with(end, of_data),
            ..self
        }
    }
}

impl Walk {
    // Goes on from an address: to the first span that ends after it, of those not passed yet.
    pub(crate) fn begin<L>(self, index: &SpanIndex<L>, address: u64, steps: &mut Steps<L>) -> Walk
        requires { IsOrdered place_cmp index.now.spans }
        ensures { (context : Context) (low from : ℕ) → from ≤ address →
            IsWalked context (times_of index.now) (spans_of index.now) low from self →
            IsBeginning context (times_of index.now) (spans_of index.now) address self result
            steps.old steps.new }
    {
        if self.head.is_settled(address) {
            self
        } else {
            Walk {
                head: index.step(self.head, self.sort, address, steps),
                ..self
            }
        }
    }

    // Passes all spans that begin at an address or before it.
    pub(crate) fn pass<L, C: Ctx>(
        self,
        ctx: &C,
        index: &SpanIndex<L>,
        address: u64,
        steps: &mut Steps<L>,
    ) -> Walk
        ghost low: { ℕ }
        requires ordered { IsOrdered place_cmp index.now.spans }
        requires low { low ≤ address }
        requires begun { IsBegun self.head }
        requires walked { IsWalked (C.context ctx.now) (times_of index.now) (spans_of index.now)
            low address self }
        ensures passing { IsPassing (C.context ctx.now) (times_of index.now) (spans_of index.now)
            low address self result steps.old steps.new }
        ensures beyond { due address result.head ≡ None }
    {
        let mut walk = self;
        while let Some((span, times)) = walk.head.due(address) {
            let head = index.step(walk.head, walk.sort, address, steps);
            walk = Walk {
                head,
                ..walk.reaching(ctx, &span, times)
            };
        }
        walk
    }
}

impl Walk {
    // The lesser of an address and where a sum can change next, behind another address.
    pub(crate) fn bound(&self, address: u64, most: u128) -> u128
        requires most { address < most }
        requires beyond { due address self.now.head ≡ None }
        ensures after { address < result }
        ensures most { result ≤ most }
        ensures head { IsBeyond result self.now.head }
        ensures all { (later : ℕ) → address ≤ later → later < result →
            reaching self.now.all later ≡ reaching self.now.all address }
        ensures of_data { (later : ℕ) → address ≤ later → later < result →
            reaching self.now.of_data later ≡ reaching self.now.of_data address }
    {
        let most = self.all.bound(address, most);
        let most = self.of_data.bound(address, most);
        match self.head {
            Head::At(span, _) if u128::from(span.first) < most => u128::from(span.first),
            _ => most,
        }
    }
}

// The address behind the last byte of a span.
fn end_of(span: &Span) -> u128
    ensures { result ≡ end_of span.now }
{
    u128::from(span.first) + u128::from(span.sectors) * 4096
}

// How often a span stands that counts and that has sectors at multiples of their size.
fn counting<C: Ctx>(ctx: &C, span: &Span, times: u64) -> u64
    ensures { result ≡ (if counts (C.context ctx.now) span.now span.now.sort
        && span.now.first % 4096 == 0 then times else 0) }
{
    if counts(ctx, span) && span.first % 4096 == 0 {
        times
    } else {
        0
    }
}

// How often a span stands that is of file data.
fn of_data(span: &Span, times: u64) -> u64
    ensures { result ≡ (if is_data span.now.sort then times else 0) }
{
    match span.sort {
        SpanSort::Owned { of_data: true } => times,
        _ => 0,
    }
}

// Whether what a span is of counts.
fn counts<C: Ctx>(ctx: &C, span: &Span) -> bool
    ensures { result ≡ counts (C.context ctx.now) span.now span.now.sort }
{
    match span.sort {
        SpanSort::Owned { .. } => match span.sectors.checked_mul(4096) {
            Some(bytes) => ctx.home(span.first, bytes).is_some(),
            None => false,
        },
        SpanSort::Summed => true,
        SpanSort::Shown {
            tree,
            ino,
            extent,
            length,
            ..
        } => !ctx.sum_free(tree, ino) && ctx.home(extent, length).is_some(),
    }
}
