//! What the walk of a tree knows of a block before it reads it.

ghost use Rattle.std.specs.Prelude.{◌≡◌};
ghost use Rattle.node_reader.specs.Faults.{block_finding};

use verdict::{Family, Finding, Key, Rule};

/// What is expected of a tree block by whatever points to it.
#[derive(Clone, Copy, Debug, PartialEq, Eq)]
pub struct Expect {
    /// The id of the tree that is walked.
    pub tree: u64,
    /// The block's logical address in bytes.
    pub address: u64,
    /// The generation in which it was written.
    pub generation: u64,
    /// Its level, 0 for a leaf.
    pub level: u8,
    /// Its first key, or `None` for the root of a tree.
    pub low: Option<Key>,
    /// The key that all its keys are below, or `None` on the rightmost path of a tree.
    pub high: Option<Key>,
    /// The logical address in bytes of the node above, 0 for the root of a tree. No rule looks at it.
    pub parent: u64,
}

impl Expect {
    /// The finding of a rule on the block that is expected: its tree, its address, and its low key or
    /// (0, 0, 0).
    pub fn finding(&self, family: Family, number: u8, detail: u64) -> Finding
        ensures { result ≡ block_finding self.now family number detail }
    {
        Finding {
            rule: Rule { family, number },
            tree: self.tree,
            block: self.address,
            key: self.low.unwrap_or(Key::none()),
            detail,
        }
    }
}

/// A pointer of a node to a block one level below: 33 bytes of the node.
#[derive(Clone, Copy, Debug, PartialEq, Eq)]
pub struct Pointer {
    /// The first key of the block that it points to, at byte 0 of the pointer.
    pub key: Key,
    /// That block's logical address in bytes, at byte 17.
    pub address: u64,
    /// The generation in which that block was written, at byte 25.
    pub generation: u64,
}
