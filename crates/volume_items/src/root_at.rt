//! Where a tree begins.

ghost use Rattle.std.specs.Prelude.{◌≡◌};
ghost use Rattle.volume_items.specs.RootPlace.{root_at};

use crate::RootItem;
use verdict::Key;

/// What the root item of a tree says of its root block.
#[derive(Clone, Copy, Debug, PartialEq, Eq)]
pub struct RootAt {
    /// The key of the root item, whose objectid is the id of the tree.
    pub key: Key,
    /// The logical address of the root block in bytes.
    pub address: u64,
    /// The generation of the root block.
    pub generation: u64,
    /// The level of the root block, 0 to 7.
    pub level: u8,
}

impl RootAt {
    /// Where the tree of a root item begins.
    pub fn of(item: &RootItem) -> RootAt
        ensures { result ≡ root_at item.now }
    {
        RootAt {
            key: item.key,
            address: item.bytenr,
            generation: item.generation,
            level: item.level,
        }
    }
}
