//! Measures the table of live pairs: puts COUNT pairs at scattered addresses into it, looks each up ROUNDS times, and
//! takes each out again where the first word is `remove`. The words are `keep COUNT ROUNDS` or `remove COUNT ROUNDS`.
//! Prints the sum of the generations found, and that of those taken out.

ghost use Rattle.std.specs.Prelude.{◌≤◌};

use live_index::{Live, LiveIndex};
use recon_disk::Steps;
use std::alloc::Global;
use std::io;
use verdict::{Key, NoMemory};

/// The number of addresses, 16384 bytes from one to the next.
const PLACES: u64 = 1_048_576;

/// Puts `count` entries into a table, looks each up so many times, and takes each out again.
pub fn measure(rt: &HostRuntime, removes: bool, count: u64, rounds: u64) -> io::Result<()> {
    let mut steps = Steps::new(());
    let Ok(mut index) = filled(rt.alloc(), count, &mut steps) else {
        return println!(rt; "no memory");
    };
    let found = found(&index, count, rounds, &mut steps);
    let taken = if removes {
        taken(&mut index, count, &mut steps)
    } else {
        0
    };
    println!(rt; "{found} {taken}")
}

/// An address of its own for each of the first 1,048,576 numbers, in no order.
fn scattered(index: u64) -> u64
    ensures { result ≤ 17179869184 }
{
    index.wrapping_mul(0x9E37_79B9_7F4A_7C15) % PLACES * 16384
}

/// The pair with this number. Each eighth is a node.
fn pair(index: u64) -> Live {
    let first = Key {
        objectid: scattered(index.wrapping_mul(3)),
        kind: 1,
        offset: index,
    };
    Live {
        tree: 5,
        address: scattered(index),
        level: if index % 8 == 0 { 1 } else { 0 },
        generation: index,
        first,
        last: first,
        parent: 0,
        owner: 5,
    }
}

/// A table of the first `count` pairs.
fn filled(alloc: Global, count: u64, steps: &mut Steps<()>) -> Result<LiveIndex<()>, NoMemory> {
    let mut index = LiveIndex::new(alloc);
    for number in 0..count {
        index.insert(pair(number), steps)?;
    }
    Ok(index)
}

/// The sum of the generations found when each pair is looked up.
fn found(index: &LiveIndex<()>, count: u64, rounds: u64, steps: &mut Steps<()>) -> u64 {
    let mut sum = 0u64;
    for _ in 0..rounds {
        for number in 0..count {
            if let Some(live) = index.get(5, scattered(number), steps) {
                sum = sum.wrapping_add(live.generation);
            }
        }
    }
    sum
}

/// The sum of the generations of the pairs when each is taken out.
fn taken(index: &mut LiveIndex<()>, count: u64, steps: &mut Steps<()>) -> u64 {
    let mut sum = 0u64;
    for number in 0..count {
        if let Some(live) = index.remove(5, scattered(number), steps) {
            sum = sum.wrapping_add(live.generation);
        }
    }
    sum
}
