//! The two images that are compared, and what is known of the first.

ghost use Rattle.std.specs.Prelude.{◌≡◌, true};
ghost use Rattle.tree_change.specs.Firsts.{first_copies};

use crate::walks::KnownTrees;
use block_source::BlockSource;
use chunk_map::ChunkMap;
use live_index::LiveIndex;
use super_reader::Super;
use touched_blocks::Marks;
use volume_items::RootAt;
use write_cache::WriteCache;

/// The image as it was, and the new image that pending writes make of it.
#[derive(Drop)]
pub(crate) struct Compared<'a, L> {
    /// The image as it was, by its superblock and its chunks, without pending writes.
    pub(crate) was: BlockSource<'a>,
    /// Its chunks, each with its first copy alone.
    pub(crate) firsts: &'a ChunkMap,
    /// The pending writes.
    pub(crate) cache: &'a WriteCache,
    /// The superblock of the new image.
    pub(crate) fresh: &'a Super,
    /// Where the old trees begin, in the order of their keys.
    pub(crate) roots: &'a [RootAt],
    /// The old live pairs.
    pub(crate) table: &'a LiveIndex<L>,
    /// The pairs by which blocks are kept: the old ones, or none where blocks are not read alike in both images.
    pub(crate) kept: &'a LiveIndex<L>,
    /// Whether blocks are kept by the old pairs.
    pub(crate) is_same: bool,
    /// Of these the pairs that a write touches, and all above them.
    pub(crate) marks: &'a Marks,
    /// Of these the ones that a write touches.
    pub(crate) touched: &'a Marks,
    ghost same: { is_same ≡ true → kept.now ≡ table.now },
    ghost once: { firsts.now ≡ first_copies was.map.now },
}

/// An image and the image that pending writes make of it, by the chunks of each, and what is known of the first.
#[derive(Drop)]
pub(crate) struct Sides<'a, L> {
    /// The image as it was.
    pub(crate) was: BlockSource<'a>,
    /// Its chunks, each with its first copy alone.
    pub(crate) firsts: &'a ChunkMap,
    /// The image as it is, with the pending writes.
    pub(crate) is: BlockSource<'a>,
    /// Its live pairs as it was.
    pub(crate) table: &'a LiveIndex<L>,
    /// What is known of its trees as they were, for what is kept.
    pub(crate) known: KnownTrees<'a, L>,
    /// Whether that is of the same table.
    pub(crate) is_same: bool,
    ghost same: { is_same ≡ true → known.table.now ≡ table.now },
    ghost once: { firsts.now ≡ first_copies was.map.now },
}
