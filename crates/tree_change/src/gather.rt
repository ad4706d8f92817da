//! What is gathered of the records of walks.

ghost use Rattle.std.specs.Prelude.{◌≡◌, OnOk};
ghost use Rattle.records.specs.Part.{located};
ghost use Rattle.records.specs.Seen.Seen.{ItemSeen};
ghost use Rattle.tree_change.specs.Gathered.{gathers, with_seen};
ghost use Rattle.tree_change.specs.Walks.{no_tree};

use records::{ItemAt, RecAt, Record, Taker, WalkedBlock};
use std::alloc::Global;
use verdict::NoMemory;

// For how many items room is made where the first block is taken, and where another is, so that those of some leaves seldom move.
// Nothing rests on it.
const FIRST_ITEMS: usize = 512;

const ITEMS: usize = 128;

/// The blocks and the items of walks, in their order.
#[derive(Drop)]
pub(crate) struct Gathered {
    /// What they take their memory from.
    pub(crate) alloc: Global,
    /// The blocks.
    pub(crate) blocks: Vec<WalkedBlock>,
    /// The items.
    pub(crate) items: Vec<ItemAt>,
}

impl Gathered {
    /// None yet. They take their memory from this allocator.
    pub(crate) fn new(alloc: Global) -> Gathered
        ensures { gathers result ≡ no_tree }
    {
        Gathered {
            alloc,
            blocks: Vec::new(alloc),
            items: Vec::new(alloc),
        }
    }

    // Puts a copy of an item behind the others.
    fn add(&mut self, one: &RecAt<'_>) -> Result<(), NoMemory>
        ensures { OnOk result (
            gathers self.new ≡ with_seen (gathers self.old) (ItemSeen (located one.now))) }
    {
        let item = ItemAt {
            tree: one.tree,
            block: one.block,
            key: one.key,
            part: one.part.to_owned(self.alloc)?,
        };
        if self.items.push(item).is_err() {
            return Err(NoMemory);
        }
        Ok(())
    }
}

impl Taker for Gathered {
    ghost use Rattle.tree_change.specs.Gathered.{Gathers};

    ghost Held = { Gathers };

    ghost held = { gathers };

    ghost with = { with_seen };

    fn take(&mut self, one: &Record<'_>) -> Result<(), NoMemory> {
        match one {
            Record::Block(block) => {
                let room = if self.blocks.is_empty() {
                    FIRST_ITEMS
                } else {
                    ITEMS
                };
                if self.blocks.push(*block).is_err() || self.items.reserve(room).is_err() {
                    return Err(NoMemory);
                }
                Ok(())
            }
            Record::Pointer(_) => Ok(()),
            Record::Item(item) => self.add(item),
        }
    }
}
