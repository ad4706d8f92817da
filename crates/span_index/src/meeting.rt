//! The next span that ends after an address.

ghost use Rattle.std.specs.Prelude.{◌≡◌, ◌==◌, ◌<◌, ◌^◌, ◌*◌, ◌-◌, IfSome, Some, true, option_map, nat_le, nat_lt, if◌then◌else◌};
ghost use Rattle.std.specs.BTreeMap.{IsOrdered};
ghost use Rattle.std.specs.BTreeMap.Range.{entries_between};
ghost use Rattle.std.specs.List.{find};
ghost use Rattle.std.specs.declared.ops.Bound.TheVariants.{Unbounded};
ghost use Rattle.span_index.specs.Places.{IsClassFrom, IsMetWhere, StartsClass, is_of, is_stop, lesser, place_cmp};
ghost use Rattle.span_index.specs.Spans.{end_of};
ghost use Rattle.span_index.specs.Table.{times_of};

use crate::kept::SpanIndex;
use crate::places::Place;
use crate::span::{SortName, Span, SpanSort};
use std::ops::Bound;

impl<L> SpanIndex<L> {
    /// The least span of a sort, of the classes from one on, that ends after an address and is above `after` where
    /// one is given, and how often it stands.
    pub(crate) fn next_meeting(
        &self,
        lowest: u8,
        sort: SortName,
        address: u64,
        after: Option<Span>,
    ) -> Option<(Span, u64)>
        requires { lowest < 65 }
        ensures value { IsMetWhere (nat_le lowest) (times_of self.now) sort address after
            (option_map (λ p. p.0) result) }
        ensures times { IfSome result (λ p. p.1 ≡ times_of self.now p.0) }
    {
        let mut least = None;
        let mut class = lowest;
        while let Some(next) = self.class_from(sort, class) {
            least = lesser(least, self.met_in(sort, next, address, after));
            class = next + 1;
        }
        least
    }

    // The first class from one on of which spans of a sort stand.
    fn class_from(&self, sort: SortName, class: u8) -> Option<u8>
        ensures { IsClassFrom (times_of self.now) sort class result }
    {
        let start = Place {
            sort,
            class,
            span: Span::LEAST,
        };
        let (place, _) = self.spans.range(start..).next()?;
        if place.sort == sort {
            Some(place.class)
        } else {
            None
        }
    }

    // The least such span of one class, and how often it stands.
    fn met_in(
        &self,
        sort: SortName,
        class: u8,
        address: u64,
        after: Option<Span>,
    ) -> Option<(Span, u64)>
        requires { class < 65 }
        ensures value { IsMetWhere (λ c. c == class) (times_of self.now) sort address after
            (option_map (λ p. p.0) result) }
        ensures times { IfSome result (λ p. p.1 ≡ times_of self.now p.0) }
    {
        let start = start_in(sort, class, address, after);
        let (place, times) = self.first_stop(start, sort, class, address)?;
        if is_of(&place, sort, class) {
            Some((place.span, times))
        } else {
            None
        }
    }

    // The first place from a bound on that is of another sort or class, or whose span ends after an address, and
    // how often its span stands.
    fn first_stop(
        &self,
        start: Bound<Place>,
        sort: SortName,
        class: u8,
        address: u64,
    ) -> Option<(Place, u64)>
        ensures value { result ≡ find (λ e. is_stop sort class address e.0)
            (entries_between place_cmp start Unbounded self.now.spans.entries) }
        ensures ordered { IsOrdered place_cmp self.now.spans }
    {
        let (place, times) = self
            .spans
            .range((start, Bound::Unbounded))
            .find(|(place, _)| is_stop(place, sort, class, address))?;
        Some((*place, *times))
    }
}

// Whether a place is of another sort or class, or its span ends after an address.
fn is_stop(place: &Place, sort: SortName, class: u8, address: u64) -> bool
    ensures { result ≡ is_stop sort class address place.now }
{
    !is_of(place, sort, class) || ends_after(&place.span, address)
}

// Whether a place is of a sort and a class.
fn is_of(place: &Place, sort: SortName, class: u8) -> bool
    ensures { result ≡ is_of sort class place.now }
{
    place.sort == sort && place.class == class
}

// Whether a span ends after an address.
fn ends_after(span: &Span, address: u64) -> bool
    ensures { result ≡ nat_lt address (end_of span.now) }
{
    (address as u128) < span.first as u128 + span.sectors as u128 * 4096
}

// The lesser of two spans that are there, each with how often it stands.
fn lesser(one: Option<(Span, u64)>, other: Option<(Span, u64)>) -> Option<(Span, u64)>
    ensures { result ≡ lesser one other }
{
    match (one, other) {
        (Some(first), Some(second)) => {
            if second.0.cmp(&first.0).is_lt() {
                other
            } else {
                one
            }
        }
        (Some(_), None) => one,
        (None, _) => other,
    }
}

// Where in a class to begin the search for spans that end after an address and are above `after`. In class k they
// have fewer than 2^k sectors, so that each begins less than as many sectors before the address.
fn start_in(sort: SortName, class: u8, address: u64, after: Option<Span>) -> Bound<Place>
    requires { class < 65 }
    ensures { StartsClass sort class address after result }
{
    let reach = (1_u128 << class) * 4096;
    let low = (address as u128).saturating_sub(reach) as u64;
    match after {
        Some(span) if span.first >= low => Bound::Excluded(Place { sort, class, span }),
        _ => Bound::Included(Place {
            sort,
            class,
            span: Span {
                first: low,
                ..Span::LEAST
            },
        }),
    }
}
