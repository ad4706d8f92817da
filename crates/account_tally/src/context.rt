//! The context that records are read in.

ghost use Rattle.account_tally.specs.Sums.{context_with, none_free};

use accounts::{Ctx, Home};
use chunk_map::ChunkMap;

// The chunks of an image and its size of a tree block. Which inodes' data has no checksums is known only when all
// records are read: until then all has.
#[derive(Clone, Copy, Debug)]
pub struct ImageContext<'a> {
    // The chunks.
    pub map: &'a ChunkMap,
    // The size of a tree block in bytes.
    pub nodesize: u32,
}

impl<'a> Ctx for ImageContext<'a> {
    ghost context = { λ c. context_with c.map.now c.nodesize none_free };

    fn home(&self, addr: u64, len: u64) -> Option<Home> {
        match self.map.home(addr, len) {
            Some(chunk) => Some(Home {
                start: chunk.start,
                length: chunk.length,
                class: chunk.class,
            }),
            None => None,
        }
    }

    fn sum_free(&self, _tree: u64, _ino: u64) -> bool {
        false
    }

    fn nodesize(&self) -> u32 {
        self.nodesize
    }

    fn full(&self, _address: u64) -> bool {
        false
    }
}
