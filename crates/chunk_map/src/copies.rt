//! The copies of one chunk.

ghost use Rattle.std.specs.Prelude.{◌≡◌, ◌+◌, ◌-◌, ◌≤◌, ◌<◌, ◌^◌, nat_le, IsTrue};
ghost use Rattle.verdict.specs.Chunks.{holds_range, place_of_copies, logical_in_copies, logical_of};
ghost use Rattle.volume_items.specs.MapRules.{have_common, meets_chunk};
ghost use Rattle.chunk_map.specs.Order.{AllFit};

use verdict::{Chunk, Place};

/// Whether a chunk holds `len` bytes from a logical address on whole.
pub fn holds(chunk: &Chunk, addr: u64, len: u64) -> bool
    ensures held { result ≡ holds_range chunk.now addr len }
    ensures low { IsTrue result → chunk.now.start ≤ addr }
    ensures room { IsTrue result → addr - chunk.now.start + len < 2 ^ 64 }
{
    chunk.start <= addr
        && addr - chunk.start <= chunk.length
        && len <= chunk.length - (addr - chunk.start)
}

/// Where `len` bytes at an offset in the chunk stand on a device of `end` bytes.
pub fn place_of(chunk: &Chunk, offset: u64, len: u64, end: u64) -> Place
    requires { offset + len < 2 ^ 64 }
    ensures { result ≡ place_of_copies chunk.now.first chunk.now.second offset len end }
{
    let reach = offset + len;
    if !ends_by(chunk.first, reach, end) {
        return Place::Nowhere;
    }
    match chunk.second {
        None => Place::One(chunk.first + offset),
        Some(second) => {
            if ends_by(second, reach, end) {
                Place::Two(chunk.first + offset, second + offset)
            } else {
                Place::Nowhere
            }
        }
    }
}

/// Whether `len` bytes from an offset on end at most at `end`.
pub fn ends_by(at: u64, len: u64, end: u64) -> bool
    ensures { result ≡ nat_le (at + len) end }
{
    len <= end && at <= end - len
}

/// The logical address whose copy in this chunk stands at a physical offset.
fn logical_in(chunk: &Chunk, physical: u64) -> Option<u64>
    requires { chunk.now.start + chunk.now.length < 2 ^ 64 }
    ensures { let chunk = chunk.now in
        result ≡ logical_in_copies chunk.start chunk.length chunk.first chunk.second physical }
{
    if chunk.first <= physical && physical - chunk.first < chunk.length {
        return Some(chunk.start + (physical - chunk.first));
    }
    match chunk.second {
        Some(second) if second <= physical && physical - second < chunk.length => {
            Some(chunk.start + (physical - second))
        }
        _ => None,
    }
}

/// The logical address whose copy stands at a physical offset, in the first chunk of a list that has one
/// there.
pub fn logical_in_list(chunks: &[Chunk], physical: u64) -> Option<u64>
    requires { AllFit chunks.now }
    ensures { result ≡ logical_of chunks.now physical }
{
    for chunk in chunks {
        if let Some(address) = logical_in(chunk, physical) {
            return Some(address);
        }
    }
    None
}

/// Whether two ranges of bytes have a byte in common.
pub fn common(at: u64, len: u64, other: u64, other_len: u64) -> bool
    ensures { result ≡ have_common at len other other_len }
{
    if at <= other {
        other - at < len && 0 < other_len
    } else {
        at - other < other_len && 0 < len
    }
}

/// Whether `len` bytes from a physical offset on meet a copy of the chunk.
pub fn meets(at: u64, len: u64, chunk: &Chunk) -> bool
    ensures { result ≡ meets_chunk at len chunk.now }
{
    if common(at, len, chunk.first, chunk.length) {
        return true;
    }
    match chunk.second {
        Some(second) => common(at, len, second, chunk.length),
        None => false,
    }
}
