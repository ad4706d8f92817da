//! What is kept of a tree block.

use verdict::Key;

/// A live pair: a tree, and a block that a walk of it visits.
#[derive(Clone, Copy, Debug, PartialEq, Eq)]
pub struct Live {
    /// The id of the tree.
    pub tree: u64,
    /// The block's logical address in bytes.
    pub address: u64,
    /// The block's level, 0 for a leaf.
    pub level: u8,
    /// The generation in the block's header.
    pub generation: u64,
    /// The block's first key. An empty leaf has the greatest key, (2^64 - 1, 255, 2^64 - 1).
    pub first: Key,
    /// The greatest key of an item in the block or in a leaf below it. An empty leaf has (0, 0, 0).
    pub last: Key,
    /// The logical address of the node above in that tree, 0 for a root.
    pub parent: u64,
    /// The owner in the block's header: the id of a tree.
    pub owner: u64,
}
