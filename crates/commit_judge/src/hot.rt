//! How many old blocks a stop may harm.

ghost use Rattle.std.specs.Prelude.{◌≡◌, ◌||◌, not};
ghost use Rattle.std.specs.List.{count_by};
ghost use Rattle.live_index.specs.declared.live.Live.{Live as ALive};
ghost use Rattle.touched_blocks.specs.Touched.{same_place, stays_in_place, touches_block, written_in};

use chunk_map::ChunkMap;
use live_index::Live;
use touched_blocks::touches_place;
use verdict::Place;
use write_cache::WriteCache;

/// Of how many live pairs of the old image a pending write touches a byte of a copy, or the new chunks have no place or another. The device
/// has `end` bytes, and a tree block `nodesize`.
pub(crate) fn count_hot(
    cache: &WriteCache,
    old: &ChunkMap,
    new: &ChunkMap,
    nodesize: u32,
    end: u64,
    lives: &[Live],
) -> u64
    ensures { result ≡ count_by (λ (live : ALive).
        touches_block (written_in cache.now) old.now nodesize end live.address
        || not (stays_in_place old.now new.now nodesize end live.address)) lives.now }
{
    let mut hot = 0;
    for live in lives {
        if is_hot(cache, old, new, nodesize, end, live.address) {
            hot += 1;
        }
    }
    hot
}

// Whether that is so of the block at a logical address.
fn is_hot(
    cache: &WriteCache,
    old: &ChunkMap,
    new: &ChunkMap,
    nodesize: u32,
    end: u64,
    address: u64,
) -> bool
    ensures { result ≡ (touches_block (written_in cache.now) old.now nodesize end address
        || not (stays_in_place old.now new.now nodesize end address)) }
{
    let size = u64::from(nodesize);
    let was = old.place(address, size, end);
    let is = new.place(address, size, end);
    touches_place(cache, &was, nodesize) || !are_same(&was, &is)
}

// Whether two places are the same.
fn are_same(one: &Place, other: &Place) -> bool
    ensures { result ≡ same_place one.now other.now }
{
    one == other
}
