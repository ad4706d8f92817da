//! What is known of the accepted image when a changed image is judged.

ghost use Rattle.std.specs.Prelude.{◌≡◌, ℕ, Bool, List};
ghost use Rattle.verdict.specs.declared.place.Chunk.{Chunk as AChunk};
ghost use Rattle.volume_items.specs.declared.root_at.RootAt.{RootAt as ARoot};
ghost use Rattle.super_reader.specs.declared.Super.{Super as ASuper};
ghost use Rattle.chunk_map.specs.Roots.{KeysAscend};

use crate::ChunkMap;
use super_reader::Super;
use volume_items::RootAt;

/// What is known of the accepted image, the old one, when a changed image is judged against it. No call
/// takes memory.
pub trait Bases {
    /// The table of the old image's live pairs.
    type Table;

    /// The fields of the old superblock.
    ghost superblock: { Self → ASuper };
    /// The old list of chunks.
    ghost chunks: { Self → List AChunk };
    /// The old root items.
    ghost root_items: { Self → List ARoot };
    /// Whether the flag `NODATASUM` of an inode of a tree is set in the old image.
    ghost is_sum_free: { Self → ℕ → ℕ → Bool };
    /// Whether the tree block at a logical address refers to what is below it by its address.
    ghost is_full: { Self → ℕ → Bool };
    /// The live pairs of the old image.
    ghost table: { Self → Self.Table };

    /// The fields of the old superblock.
    fn sup(&self) -> &Super
        ensures { result.now ≡ superblock self.now };

    /// The old chunk map.
    fn map(&self) -> &ChunkMap
        ensures { result.now ≡ chunks self.now };

    /// The old root items in the order of their keys.
    fn roots(&self) -> &[RootAt]
        ensures items { result.now ≡ root_items self.now }
        ensures ascend { KeysAscend (root_items self.now) };

    /// Whether the flag `NODATASUM` of an inode of this tree is set in the old image, so that its data
    /// has no checksums.
    fn sum_free(&self, tree: u64, ino: u64) -> bool
        ensures { result ≡ is_sum_free self.now tree ino };

    /// Whether the tree block at this logical address refers to what is below it by its address.
    fn full(&self, address: u64) -> bool
        ensures { result ≡ is_full self.now address };

    /// The table of the old image's live pairs.
    fn live(&self) -> &Self::Table
        ensures { result.now ≡ table self.now };
}
