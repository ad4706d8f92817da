//! The greatest keys of the blocks that a walk is done with.

ghost use Rattle.std.specs.Prelude.{◌≡◌, map, IfOk};
ghost use Rattle.std.specs.List.Sorted.{IsNonDecreasingBy};
ghost use Rattle.tree_change.specs.LastKeys.{last_key_of};
ghost use Rattle.tree_change.specs.declared.lasts.LastKey.{LastKey};

use shared_trees::Ended;
use std::alloc::Global;
use verdict::{Key, NoMemory};

/// A block's logical address in bytes and its greatest key.
#[derive(Clone, Copy)]
pub(crate) struct LastKey {
    address: u64,
    key: Key,
}

/// The greatest keys of the blocks that a walk was done with, in the order of the blocks' addresses. Those of one block stand in the order
/// in which they were told.
#[derive(Drop)]
pub(crate) struct Lasts {
    keys: Vec<LastKey>,
    ghost order: { IsNonDecreasingBy (λ (one : LastKey). one.address) keys.items },
}

impl Lasts {
    ghost use Rattle.std.specs.Prelude.{ℕ, ◌<◌, ◌≤◌, length};
    ghost use Rattle.std.specs.List.Sorted.{IsPartitionPoint};
    ghost use Rattle.tree_change.specs.Walks.{last_at};
    ghost use Rattle.tree_change.specs.Leaves.{last_in};

    /// The greatest keys of these blocks. They take their memory from this allocator.
    pub(crate) fn new(alloc: Global, ended: &[Ended]) -> Result<Lasts, NoMemory>
        ensures { IfOk result (λ lasts. (address : ℕ) →
            last_in lasts address ≡ last_at ended.now address) }
    {
        let mut keys = last_keys(alloc, ended)?;
        // The sort is stable, so that the key of a block that was told last stays behind its other keys.
        match keys.sort_by_key(|one| one.address) {
            Ok(()) => Ok(Lasts { keys }),
            Err(_) => Err(NoMemory),
        }
    }

    /// The greatest key that was told last of the block at an address, (0, 0, 0) where none was. It is found by a binary search.
    pub(crate) fn of(&self, address: u64) -> Key
        ensures { result ≡ last_in self.now address }
    {
        let count = self.count_up_to(address);
        if count == 0 {
            return Key::none();
        }
        let one = &self.keys[count - 1];
        if one.address == address {
            one.key
        } else {
            Key::none()
        }
    }

    // How many of the blocks stand at an address or before it.
    fn count_up_to(&self, address: u64) -> usize
        ensures count { result ≤ length self.now.keys.items }
        ensures parted { IsPartitionPoint
            (λ (one : LastKey). one.address ≤ address) (λ (one : LastKey). address < one.address)
            self.now.keys.items result }
    {
        self.keys.partition_point(|one| one.address <= address)
    }
}

// The greatest keys of blocks, in the order of the blocks.
fn last_keys(alloc: Global, ended: &[Ended]) -> Result<Vec<LastKey>, NoMemory>
    ensures { IfOk result (λ keys. keys.items ≡ map last_key_of ended.now) }
{
    let Ok(mut keys) = Vec::with_capacity(alloc, ended.len()) else {
        return Err(NoMemory);
    };
    for one in ended {
        let key = LastKey {
            address: one.expect.address,
            key: one.last,
        };
        if keys.push(key).is_err() {
            return Err(NoMemory);
        }
    }
    Ok(keys)
}
