//! Where an item stands.

use verdict::Key;

/// The tree and the key of an item. They are ordered by the tree and then by the key.
#[derive(Clone, Copy, Debug, PartialEq, Eq, PartialOrd, Ord)]
pub struct ItemRef {
    /// The id of the tree.
    pub tree: u64,
    /// The item's key.
    pub key: Key,
}
