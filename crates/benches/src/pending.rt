//! Measures the cache of pending writes: takes COUNT writes of SIZE bytes in an order, then lays them over ROUNDS
//! scattered buffers of 16384 bytes. The words are `ORDER COUNT ROUNDS SIZE`, and SIZE is 4096 where it is left out.
//! Prints the number of pieces, the sum of their lengths, and a sum of bytes laid over.

ghost use Rattle.std.specs.Prelude.{◌≤◌};

use std::alloc::Global;
use std::io;
use verdict::NoMemory;
use write_cache::WriteCache;

/// The greatest size of a write in bytes.
const WRITE: usize = 4096;

/// The number of places where a scattered write may begin, 8192 bytes from one to the next.
const PLACES: u64 = 1_048_576;

/// The last offset at which a write may begin.
const LAST: u64 = 1 << 40;

/// The order in which the writes come.
#[derive(Clone, Copy)]
enum Order {
    /// Each at a place of its own, touching no other.
    Scattered,
    /// Each behind the one before.
    Rising,
    /// Each before the one before.
    Falling,
    /// Pieces of 127 writes with a place between each two, then these places in an order in which each write joins
    /// two pieces of about the same length.
    Joining,
}

/// Takes `count` writes in an order, each of so many bytes, and lays them over a read so many times.
pub fn measure(
    rt: &HostRuntime,
    order: &str,
    count: u64,
    rounds: u64,
    size: u64,
) -> io::Result<()> {
    let order = named(order);
    let size = match size as usize {
        0 => WRITE,
        size => size.min(WRITE),
    };
    let Ok(mut cache) = taken(rt.alloc(), order, count, size) else {
        return println!(rt; "no memory");
    };
    let (pieces, length) = sizes(&mut cache);
    let laid = laid_over(&cache, rounds);
    println!(rt; "{pieces} {length} {laid}")
}

/// The order that a word names.
fn named(word: &str) -> Order {
    match word {
        "rising" => Order::Rising,
        "falling" => Order::Falling,
        "joining" => Order::Joining,
        _ => Order::Scattered,
    }
}

/// A place of its own for each of the first 1,048,576 numbers, in no order.
fn scattered(index: u64) -> u64
    ensures { result ≤ 8589934592 }
{
    index.wrapping_mul(0x9E37_79B9_7F4A_7C15) % PLACES * 8192
}

/// The number of the place at which the write with this number comes, of `count` places that touch.
fn place(order: Order, index: u64, count: u64) -> u64 {
    match order {
        Order::Scattered | Order::Rising => index,
        Order::Falling => count.saturating_sub(index.saturating_add(1)),
        Order::Joining => {
            let between = count / 128;
            match index.checked_sub(count - between) {
                Some(later) => halving(later, between)
                    .saturating_mul(128)
                    .saturating_add(127),
                None => index.saturating_add(index / 127),
            }
        }
    }
}

/// A place of its own for each of the first `count` numbers: 0, 2, 4 .. come first, then 1, 5, 9 .., then 3, 11, 19 ..
fn halving(index: u64, count: u64) -> u64 {
    let mut left = index;
    let mut first = 0u64;
    for level in 1..64u32 {
        let step = 1u64.wrapping_shl(level).max(1);
        let places = count.saturating_sub(first).div_ceil(step);
        if left < places {
            return first.saturating_add(left.saturating_mul(step));
        }
        left -= places;
        first = step - 1;
    }
    0
}

/// A cache that has taken `count` writes.
fn taken(alloc: Global, order: Order, count: u64, size: usize) -> Result<WriteCache, NoMemory>
    requires { size ≤ 4096 }
{
    let mut cache = WriteCache::new(alloc);
    for index in 0..count {
        let at = match order {
            Order::Scattered => scattered(index),
            _ => place(order, index, count)
                .saturating_mul(size as u64)
                .min(LAST),
        };
        let mut bytes = [7; WRITE];
        bytes[0] = (index % 256) as u8;
        cache.put(at, &bytes[..size])?;
    }
    Ok(cache)
}

/// How many pieces are pending, and the sum of their lengths.
fn sizes(cache: &mut WriteCache) -> (u64, u64) {
    let mut count = 0u64;
    let mut length = 0u64;
    if let Ok(joined) = cache.join() {
        for (_, bytes) in joined.pieces() {
            count = count.wrapping_add(1);
            length = length.wrapping_add(bytes.len() as u64);
        }
    }
    (count, length)
}

/// The sum of the first bytes of both halves of each buffer, after the pending writes are laid over it.
fn laid_over(cache: &WriteCache, rounds: u64) -> u64 {
    let mut sum = 0u64;
    for round in 0..rounds {
        let mut block = [0; 16384];
        cache.overlay(scattered(round), &mut block);
        sum = sum.wrapping_add(u64::from(block[0]));
        sum = sum.wrapping_add(u64::from(block[8192]));
    }
    sum
}
