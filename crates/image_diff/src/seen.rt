//! What the walks of an image give: its chunks, its root items, and its live pairs.

ghost use Rattle.records.specs.Part.{IsLawful, located};

use chunk_map::ChunkMap;
use live_index::Live;
use records::{Rec, RecAt, Record, Taker, WalkedBlock};
use std::alloc::Global;
use verdict::{Key, NoMemory};
use volume_items::RootAt;

/// An inode of a tree.
#[derive(Clone, Copy, Debug, PartialEq, Eq)]
pub struct InodeAt {
    /// The id of the tree.
    pub tree: u64,
    /// The number of the inode.
    pub ino: u64,
}

/// What walks gave so far.
#[derive(Drop)]
pub struct Seen {
    /// The chunks of chunk items, in their order.
    pub map: ChunkMap,
    /// What root items name, in their order.
    pub roots: Vec<RootAt>,
    /// The live pairs of the blocks, in their order.
    pub lives: Vec<Live>,
    /// The inodes whose data has no checksums.
    pub free: Vec<InodeAt>,
    // The places among the pairs of the last block and of those above it, from the root on.
    path: Vec<usize>,
}

impl Seen {
    /// Nothing so far.
    pub fn new(alloc: Global) -> Seen {
        Seen {
            map: ChunkMap::new(alloc),
            roots: Vec::new(alloc),
            lives: Vec::new(alloc),
            free: Vec::new(alloc),
            path: Vec::new(alloc),
        }
    }

    // Puts the pair of a block, of which no item is known yet. No more is below the blocks that it is beside.
    fn put_block(&mut self, block: &WalkedBlock) -> Result<(), NoMemory> {
        let lives = &self.lives;
        self.path.retain(|place| match lives.get(*place) {
            Some(live) => live.tree == block.tree && live.level > block.level,
            None => false,
        });
        let place = self.lives.len();
        if self.lives.push(live_of(block)).is_err() || self.path.push(place).is_err() {
            return Err(NoMemory);
        }
        Ok(())
    }

    // Each block on the path has an item with this key.
    fn put_key(&mut self, key: Key) {
        for place in self.path.iter() {
            if let Some(live) = self.lives.get_mut(*place) {
                if live.last < key {
                    live.last = key;
                }
            }
        }
    }

    // Puts what an item says.
    fn put_part(&mut self, one: &RecAt<'_>) -> Result<(), NoMemory>
        requires { IsLawful (located one.now).part }
    {
        if let Some((tree, ino)) = one.sum_free()
            && self.free.push(InodeAt { tree, ino }).is_err()
        {
            return Err(NoMemory);
        }
        match &one.part {
            Rec::ChunkItem(item) => self.map.add(&item.chunk()),
            Rec::RootItem(item) => Ok(self.roots.push(RootAt::of(item))?),
            _ => Ok(()),
        }
    }
}

// The pair of a block without items.
fn live_of(block: &WalkedBlock) -> Live {
    Live {
        tree: block.tree,
        address: block.address,
        level: block.level,
        generation: block.generation,
        first: match block.first {
            Some(key) => key,
            None => Key {
                objectid: u64::MAX,
                kind: u8::MAX,
                offset: u64::MAX,
            },
        },
        last: Key::none(),
        parent: block.parent,
        owner: block.owner,
    }
}

impl Taker for Seen {
    ghost Held = { Unit {0} };

    ghost held = { λ _. tt {0} };

    ghost with = { λ _ _. tt {0} };

    fn take(&mut self, one: &Record<'_>) -> Result<(), NoMemory> {
        match one {
            Record::Block(block) => self.put_block(block),
            Record::Item(item) => {
                self.put_key(item.key);
                self.put_part(item)
            }
            Record::Pointer(_) => Ok(()),
        }
    }
}
