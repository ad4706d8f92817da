//! The index of an accepted image.

ghost use Rattle.std.specs.Prelude.{◌≡◌};
ghost use Rattle.chunk_map.specs.Roots.{KeysAscend};
ghost use Rattle.commit_judge.specs.Ascending.{KeysAscend-prop};

use change_records::Inode;
use chunk_map::{Bases, ChunkMap};
use ledger_index::LedgerIndex;
use live_index::LiveIndex;
use span_index::SpanIndex;
use std::collections::BTreeSet;
use super_reader::Super;
use volume_items::RootAt;

/// What is known of an accepted image, so that a commit is judged by what it changes.
///
/// The mark `L` ties the tables to their counter of looks.
#[derive(Drop)]
pub struct Index<L> {
    // The bytes of the superblock place, from byte 65,536 on, and what they say.
    pub(crate) raw: [u8; 4096],
    pub(crate) sup: Super,
    // All chunks, in the order of the chunk tree.
    pub(crate) map: ChunkMap,
    // Where trees begin, in the order of the keys of their root items.
    pub(crate) roots: Vec<RootAt>,
    // The inodes whose data has no checksums.
    pub(crate) sum_free: BTreeSet<Inode>,
    // The tree blocks that refer to what is below them by their address, by the addresses.
    pub(crate) full: BTreeSet<u64>,
    // The live pairs.
    pub(crate) live: LiveIndex<L>,
    // The sums of all accounts but sectors.
    pub(crate) totals: LedgerIndex<L>,
    // The sectors that extents own, that checksums cover and that files show.
    pub(crate) spans: SpanIndex<L>,
    ghost ascend: { KeysAscend roots.items } by { KeysAscend-prop roots.items },
}

impl<L> Index<L> {
    /// The bytes of the superblock place, from byte 65,536 on.
    pub fn superblock(&self) -> &[u8; 4096]
        ensures { result.now ≡ self.now.raw }
    {
        &self.raw
    }
}

impl<L> Bases for Index<L> {
    type Table = LiveIndex<L>;

    ghost use Rattle.commit_judge.specs.Flags.{free_in, full_in};

    ghost superblock = { λ index. index.sup };

    ghost chunks = { λ index. index.map };

    ghost root_items = { λ index. index.roots.items };

    ghost is_sum_free = { λ index. free_in index.sum_free };

    ghost is_full = { λ index. full_in index.full };

    ghost table = { λ index. index.live };

    fn sup(&self) -> &Super {
        &self.sup
    }

    fn map(&self) -> &ChunkMap {
        &self.map
    }

    fn roots(&self) -> &[RootAt] {
        self.roots.as_slice()
    }

    fn sum_free(&self, tree: u64, ino: u64) -> bool {
        self.sum_free.contains(&Inode { tree, ino })
    }

    fn full(&self, address: u64) -> bool {
        self.full.contains(&address)
    }

    fn live(&self) -> &LiveIndex<L> {
        &self.live
    }
}
