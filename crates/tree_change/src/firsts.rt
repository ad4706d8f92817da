//! Chunks by which the first copy of each block is read alone.

ghost use Rattle.std.specs.Prelude.{◌≡◌, IfOk};
ghost use Rattle.tree_change.specs.Firsts.{first_copies, first_copy};

use chunk_map::{Chunk, ChunkMap};
use std::alloc::Global;
use verdict::NoMemory;

/// These chunks, each with its first copy alone: by them one copy is read of each block. An accepted image has the same in both. It costs as
/// much as the list, which takes its memory from this allocator.
pub(crate) fn first_copies(alloc: Global, map: &ChunkMap) -> Result<ChunkMap, NoMemory>
    ensures { IfOk result (λ some. some ≡ first_copies map.now) }
{
    let mut some = ChunkMap::new(alloc);
    for chunk in map.chunks() {
        // No list has a chunk that ends behind the addresses of 64 bits.
        if chunk.start.checked_add(chunk.length).is_none() {
            return Err(NoMemory);
        }
        some.add(&first_copy(chunk))?;
    }
    Ok(some)
}

// A chunk with its first copy alone.
fn first_copy(chunk: &Chunk) -> Chunk
    ensures { result ≡ first_copy chunk.now }
{
    Chunk {
        second: None,
        ..*chunk
    }
}
