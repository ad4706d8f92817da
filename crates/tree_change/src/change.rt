//! What changes between the trees of two images.

use chunk_map::ChunkMap;
use live_index::Live;
use records::ItemAt;
use verdict::Finding;
use volume_items::RootAt;

/// What changes from an accepted image, the old one, to a judged image without a finding of its contents, the new
/// one. Pairs of a tree and a block that both have and that nothing touched are shared, and are not here.
#[derive(Debug, Drop)]
pub struct Change {
    /// The live pairs of the old image that are not shared.
    pub old_blocks: Vec<Live>,
    /// The live pairs of the new image that are not shared.
    pub new_blocks: Vec<Live>,
    /// The pairs of the new image that are shared, but whose node above or greatest key was another, ascending by
    /// address and tree.
    pub moved: Vec<Live>,
    /// The items of the old image in blocks that are not shared, ascending by tree and key.
    pub old_items: Vec<ItemAt>,
    /// The items of the new image in blocks that are not shared, ascending by tree and key.
    pub new_items: Vec<ItemAt>,
    /// The chunks of the new image.
    pub map: ChunkMap,
    /// Where the trees of the new image begin, in the order of the keys of their root items.
    pub roots: Vec<RootAt>,
}

/// What a judged image is beside an accepted one.
#[derive(Debug, Drop)]
pub enum Diff {
    /// The first finding of its contents.
    Found(Finding),
    /// What changes.
    Change(Change),
}
