//! The chunks of a system array, each once.

ghost use Rattle.std.specs.Prelude.{◌≡◌, ℕ, ◌+◌, ◌<◌, ◌≤◌, ◌^◌, length, IfOk};
ghost use Rattle.std.specs.List.{AllByRecursion};
ghost use Rattle.verdict.specs.Chunks.{home, place};
ghost use Rattle.verdict.specs.declared.place.Chunk.{Chunk as AChunk};
ghost use Rattle.touched_blocks.specs.Moves.{AreApart};
ghost use Rattle.tree_laws.specs.ArrayMoves.{LieApartOrSame};

use chunk_map::ChunkMap;
use std::alloc::Global;
use verdict::NoMemory;

/// The chunks of a list, each once: those that end at an address of 64 bits and whose first byte no kept chunk before them has. Where
/// any two chunks of the list lie apart or are the same, no two are left that overlap, the same chunk holds each range as before, and
/// all addresses stand at the same places. It costs a binary search for each chunk. The list takes its memory from this allocator.
pub(crate) fn distinct_chunks(alloc: Global, map: &ChunkMap) -> Result<ChunkMap, NoMemory>
    ensures apart { IfOk result (λ some.
        AllByRecursion (λ c. AllByRecursion (LieApartOrSame c) map.now) map.now
        → AllByRecursion (λ (c : AChunk). (0 < c.length) × (c.start + c.length < 2 ^ 64)) map.now
        → AreApart some × ((address n end : ℕ) →
        place some address n end ≡ place map.now address n end)) }
    ensures homes { IfOk result (λ some.
        AllByRecursion (λ c. AllByRecursion (LieApartOrSame c) map.now) map.now
        → AllByRecursion (λ (c : AChunk). (0 < c.length) × (c.start + c.length < 2 ^ 64)) map.now
        → (address n : ℕ) → home some address n ≡ home map.now address n) }
    ensures few { IfOk result (λ some. length some ≤ length map.now) }
{
    let mut some = ChunkMap::new(alloc);
    for chunk in map.chunks() {
        if chunk.start.checked_add(chunk.length).is_none() {
            continue;
        }
        if some.home(chunk.start, 1).is_some() {
            continue;
        }
        some.add(chunk)?;
    }
    Ok(some)
}
