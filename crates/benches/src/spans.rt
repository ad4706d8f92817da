//! Measures the table of spans: puts COUNT spans of scattered places into it, asks ROUNDS times for the span that meets
//! each place, and takes each out again where the first word is `remove`. The words are `keep COUNT ROUNDS` or
//! `remove COUNT ROUNDS`. Prints the sum of the places found, and the number of spans taken out.

ghost use Rattle.std.specs.Prelude.{◌≤◌};

use recon_disk::Steps;
use span_index::{SortName, Span, SpanIndex, SpanSort};
use std::alloc::Global;
use std::io;
use verdict::NoMemory;

/// The number of places, 262144 bytes from one to the next.
const PLACES: u64 = 1_048_576;

/// Puts `count` entries into a table, looks each up so many times, and takes each out again.
pub fn measure(rt: &HostRuntime, removes: bool, count: u64, rounds: u64) -> io::Result<()> {
    let mut steps = Steps::new(());
    let Ok(mut index) = filled(rt.alloc(), count, &mut steps) else {
        return println!(rt; "no memory");
    };
    let found = found(&index, count, rounds, &mut steps);
    let taken = if removes {
        taken(&mut index, count, &mut steps)
    } else {
        0
    };
    println!(rt; "{found} {taken}")
}

/// A place of its own for each of the first 1,048,576 numbers, in no order.
fn scattered(index: u64) -> u64
    ensures { result ≤ 274877906944 }
{
    index.wrapping_mul(0x9E37_79B9_7F4A_7C15) % PLACES * 262_144
}

/// The span with this number, of 1 to 61 sectors. Each second one is of an extent, and the others are of checksums.
fn span(index: u64) -> Span {
    Span {
        first: scattered(index),
        sectors: index % 61 + 1,
        sort: if index % 2 == 0 {
            SpanSort::Owned { of_data: true }
        } else {
            SpanSort::Summed
        },
    }
}

/// A table of the first `count` spans.
fn filled(alloc: Global, count: u64, steps: &mut Steps<()>) -> Result<SpanIndex<()>, NoMemory> {
    let mut index = SpanIndex::new(alloc);
    for number in 0..count {
        index.insert(span(number), steps)?;
    }
    Ok(index)
}

/// The sum of the places found when the span of an extent that meets each place is asked for.
fn found(index: &SpanIndex<()>, count: u64, rounds: u64, steps: &mut Steps<()>) -> u64 {
    let mut sum = 0u64;
    for _ in 0..rounds {
        for number in 0..count {
            if let Some(span) = index.meeting(SortName::Owned, scattered(number), None, steps) {
                sum = sum.wrapping_add(span.first);
            }
        }
    }
    sum
}

/// The number of spans that are taken out.
fn taken(index: &mut SpanIndex<()>, count: u64, steps: &mut Steps<()>) -> u64 {
    let mut sum = 0u64;
    for number in 0..count {
        if index.remove(&span(number), steps) {
            sum = sum.wrapping_add(1);
        }
    }
    sum
}
