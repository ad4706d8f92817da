//! The chunk that holds a range of logical addresses.

ghost use Rattle.std.specs.Prelude.{◌≡◌, ◌+◌, ◌-◌, ◌≤◌, ◌<◌, ◌^◌, IfSome};
ghost use Rattle.verdict.specs.Chunks.{home};
ghost use Rattle.chunk_map.specs.Order.{Ascend, AreApart, IsOnlyHome};

use crate::copies::holds;
use crate::order::rank_of;
use verdict::Chunk;

/// The first chunk of a list that holds `len` bytes from a logical address on whole.
pub fn home_in(chunks: &[Chunk], addr: u64, len: u64) -> Option<Chunk>
    ensures home { result ≡ home chunks.now addr len }
    ensures held { IfSome result (λ chunk.
        (chunk.start ≤ addr) × (addr - chunk.start + len < 2 ^ 64)) }
{
    for chunk in chunks {
        if holds(chunk, addr, len) {
            return Some(*chunk);
        }
    }
    None
}

/// The only one of some chunks by start, none of which begins before the end of the one before it, that
/// holds `len` bytes from a logical address on whole, at least one: the last that starts at most there.
pub fn home_apart(sorted: &[Chunk], addr: u64, len: u64) -> Option<Chunk>
    requires order { Ascend sorted.now }
    requires apart { AreApart sorted.now }
    requires some { 0 < len }
    ensures only { IsOnlyHome sorted.now addr len result }
    ensures held { IfSome result (λ chunk.
        (chunk.start ≤ addr) × (addr - chunk.start + len < 2 ^ 64)) }
{
    let rank = rank_of(sorted, addr);
    if rank == 0 {
        return None;
    }
    let chunk = sorted[rank - 1];
    if holds(&chunk, addr, len) {
        Some(chunk)
    } else {
        None
    }
}
