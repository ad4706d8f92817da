//! Chunks in the order of their starts.

ghost use Rattle.std.specs.Prelude.{◌≡◌, ◌+◌, ◌-◌, ◌≤◌, ◌<◌, length, slice_index_or, IsTrue};
ghost use Rattle.chunk_map.specs.Order.{Ascend, rank_by_start};

use crate::rules::inside;
use verdict::Chunk;

/// The place that a chunk with this start takes among chunks by start: behind those that do not start
/// behind it. It is found by a binary search.
pub fn rank_of(sorted: &[Chunk], start: u64) -> usize
    requires { Ascend sorted.now }
    ensures rank { result ≡ rank_by_start start sorted.now }
    ensures low { result ≤ length sorted.now }
{
    sorted.partition_point(|chunk| chunk.start <= start)
}

/// Whether a chunk at a place among chunks by start begins at or behind the end of the one before, and
/// ends at or before the start of the one behind.
pub fn stands_apart(sorted: &[Chunk], rank: usize, chunk: &Chunk) -> bool
    requires { rank ≤ length sorted.now }
    ensures before { let last = slice_index_or sorted.now (rank - 1) chunk.now in
        IsTrue result → 0 < rank → last.start + last.length ≤ chunk.now.start }
    ensures behind { let next = slice_index_or sorted.now rank chunk.now in
        IsTrue result → rank < length sorted.now → chunk.now.start + chunk.now.length ≤ next.start }
{
    (rank == 0 || !inside(&sorted[rank - 1], chunk))
        && (rank == sorted.len() || !inside(chunk, &sorted[rank]))
}
