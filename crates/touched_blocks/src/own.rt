//! Of marked blocks those that pending writes touch themselves.

ghost use Rattle.std.specs.Prelude.{◌≡◌, ℕ, ◌&&◌, IfOk};
ghost use Rattle.touched_blocks.specs.Marks.{marked_by};
ghost use Rattle.touched_blocks.specs.Touched.{touches_block, written_in};

use crate::marks::Marks;
use crate::pending::is_touched;
use chunk_map::ChunkMap;
use std::alloc::Global;
use verdict::NoMemory;
use write_cache::WriteCache;

/// Of marks on pairs those of blocks of which a pending write touches a byte of a copy. A block has `nodesize` bytes, and its copies stand
/// by the chunks of `map` on a device of `end` bytes. It costs for each mark a search among the chunks, and one among the writes for each
/// copy. The marks that it gives, and a list of all marks meanwhile, take their memory from this allocator. It gives none where that is out
/// of memory.
#[tactic(auto, using(crate::proofs::Putting::passing))]
pub fn touched_of(
    alloc: Global,
    marks: &Marks,
    cache: &WriteCache,
    map: &ChunkMap,
    nodesize: u32,
    end: u64,
) -> Result<Marks, NoMemory>
    ensures { IfOk result (λ touched. (tree address : ℕ) → marked_by touched tree address ≡
        (marked_by marks.now tree address
        && touches_block (written_in cache.now) map.now nodesize end address)) }
{
    let mut touched = Marks::new(alloc);
    let places = marks.places(alloc)?;
    for place in &places {
        if is_touched(cache, map, nodesize, end, place.address) {
            touched.put(place.tree, place.address)?;
        }
    }
    Ok(touched)
}
