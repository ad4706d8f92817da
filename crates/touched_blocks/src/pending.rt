//! Pending writes, and the blocks of which they touch a copy.

ghost use Rattle.std.specs.Prelude.{◌≡◌};
ghost use Rattle.touched_blocks.specs.Spots.{AreSpotsOf};
ghost use Rattle.touched_blocks.specs.Touched.{any_written, copy_written, touches_block, written_in};

use crate::spot::Spot;
use crate::test::AddressTest;
use chunk_map::ChunkMap;
use verdict::Place;
use write_cache::WriteCache;

/// Pending writes, and by which chunks blocks stand on the device.
#[derive(Drop)]
pub(crate) struct Pending<'a> {
    /// The writes.
    pub(crate) cache: &'a WriteCache,
    /// The ranges of their bytes, in rising order.
    pub(crate) spots: Vec<Spot>,
    /// The chunks.
    pub(crate) map: &'a ChunkMap,
    /// The size of a tree block in bytes.
    pub(crate) nodesize: u32,
    /// The device's length in bytes.
    pub(crate) end: u64,
    ghost listed: { AreSpotsOf (written_in cache.now) spots.items },
}

impl<'a> AddressTest for Pending<'a> {
    ghost use Rattle.touched_blocks.specs.Pending.{touches};

    ghost passes = { touches };

    /// Whether one of the writes touches a byte of a copy of the block at a logical address.
    #[tactic(auto, unfolding(crate::specs::Pending::touches))]
    fn passes(&self, address: u64) -> bool {
        is_touched(self.cache, self.map, self.nodesize, self.end, address)
    }
}

/// Whether one of pending writes touches a byte of a copy of the block at a logical address. A block has `nodesize` bytes, and its copies
/// stand by the chunks of `map` on a device of `end` bytes. It costs a search among the chunks, and one among the writes for each copy.
pub(crate) fn is_touched(
    cache: &WriteCache,
    map: &ChunkMap,
    nodesize: u32,
    end: u64,
    address: u64,
) -> bool
    ensures { result ≡ touches_block (written_in cache.now) map.now nodesize end address }
{
    touches_place(
        cache,
        &map.place(address, u64::from(nodesize), end),
        nodesize,
    )
}

/// Whether one of pending writes touches a byte of a copy of the block, of `nodesize` bytes, that stands at a place. It costs a search among
/// the writes for each copy.
pub fn touches_place(cache: &WriteCache, place: &Place, nodesize: u32) -> bool
    ensures { result ≡ copy_written (written_in cache.now) nodesize place.now }
{
    match *place {
        Place::Nowhere => false,
        Place::One(first) => touches_copy(cache, nodesize, first),
        Place::Two(first, second) => {
            touches_copy(cache, nodesize, first) || touches_copy(cache, nodesize, second)
        }
    }
}

// Whether one of the writes touches a byte of the block that stands at an offset of the device.
fn touches_copy(cache: &WriteCache, nodesize: u32, at: u64) -> bool
    ensures { result ≡ any_written (written_in cache.now) at nodesize }
{
    cache.touches(at, u64::from(nodesize))
}
