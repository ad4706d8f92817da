//! An item of a leaf.

use verdict::{Bytes, Key};

/// An item of a leaf: its key, and its bytes.
#[derive(Drop)]
pub struct LeafItem {
    /// The key.
    pub key: Key,
    /// The bytes.
    pub bytes: Bytes,
}
