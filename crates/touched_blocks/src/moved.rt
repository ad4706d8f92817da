//! Two lists of chunks, by which a block may stand at two places.

ghost use Rattle.std.specs.Prelude.{◌≡◌, true};
ghost use Rattle.touched_blocks.specs.Touched.{same_place};

use crate::test::AddressTest;
use chunk_map::ChunkMap;
use verdict::Place;

/// Two lists of chunks, by which a block may stand at two places.
#[derive(Drop)]
pub struct Move<'a> {
    /// The old chunks.
    pub old: &'a ChunkMap,
    /// The new ones.
    pub new: &'a ChunkMap,
    /// The size of a tree block in bytes.
    pub nodesize: u32,
    /// The device's length in bytes.
    pub end: u64,
    // Whether both lists are known to be the same, so that no block moves.
    pub(crate) is_same: bool,
    ghost same: { is_same ≡ true → old.now ≡ new.now },
}

impl<'a> Move<'a> {
    ghost use Rattle.std.specs.Prelude.{◌≡◌, true};

    /// The move from old chunks to new ones, of blocks of `nodesize` bytes on a device of `end` bytes. It costs a pass over the chunks.
    pub fn new(old: &'a ChunkMap, new: &'a ChunkMap, nodesize: u32, end: u64) -> Move<'a>
        ensures old { result.old.now ≡ old.now }
        ensures new { result.new.now ≡ new.now }
        ensures nodesize { result.nodesize ≡ nodesize }
        ensures end { result.end ≡ end }
        ensures same { old.now ≡ new.now → result.is_same ≡ true }
    {
        Move {
            old,
            new,
            nodesize,
            end,
            is_same: old.chunks() == new.chunks(),
        }
    }
}

impl<'a> AddressTest for Move<'a> {
    ghost use Rattle.touched_blocks.specs.Moves.{move_passes};

    ghost passes = { move_passes };

    /// Whether the block at a logical address stands at another place under the new chunks. Where the lists are known to be the same, no
    /// chunk is looked for.
    #[tactic(auto, unfolding(crate::specs::Moves::move_passes))]
    fn passes(&self, address: u64) -> bool {
        if self.is_same {
            return false;
        }
        let size = u64::from(self.nodesize);
        let old = self.old.place(address, size, self.end);
        let new = self.new.place(address, size, self.end);
        !same_place(old, new)
    }
}

// Whether two places are the same.
fn same_place(one: Place, other: Place) -> bool
    ensures { result ≡ same_place one other }
{
    match (one, other) {
        (Place::Nowhere, Place::Nowhere) => true,
        (Place::One(a), Place::One(b)) => a == b,
        (Place::Two(a, b), Place::Two(c, d)) => a == c && b == d,
        _ => false,
    }
}
