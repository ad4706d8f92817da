//! Up to eight blocks of one length, lent, and their checksums.

ghost use Rattle.std.specs.Prelude.{◌≡◌, ℕ, ◌<◌, ◌≤◌, ◌++◌, [], ◌∷◌, length, slice_index_or, OnOk, OnErr};
ghost use Rattle.recon_crc.specs.Checksum.{crc32c_of};
ghost use Rattle.recon_lanes.specs.Lent.{Lent, eight_sums, with_block};

use crate::folded::folded_sum;
use std::marker::Model;

/// Up to eight blocks of one length, which are lent and not copied.
#[derive(Drop)]
pub struct Eight<'a> {
    size: usize,
    count: u8,
    blocks: [&'a [u8]; 8],
}

impl<'a> Model for Eight<'a> {
    ghost use Rattle.std.specs.Prelude.{ℕ, List, ◌≤◌, take, map};
    ghost use Rattle.recon_lanes.specs.Lent.{Lent};

    ghost Value = { Lent };

    ghost view = { λ e. record { size = e.size; blocks = take e.count (map (λ b. b.now) e.blocks) } };

    ghost invariant = { λ e. e.count ≤ 8 };
}

/// Why a block was not taken: eight stand.
#[derive(Clone, Copy, Debug, PartialEq, Eq, Drop)]
pub struct Refused;

/// The checksums of up to eight blocks.
#[derive(Clone, Copy, Debug, PartialEq, Eq, Drop)]
pub struct EightSums {
    /// How many blocks there are.
    pub count: u8,
    /// The CRC-32C of each block in order. Places from `count` on are 0.
    pub sums: [u32; 8],
}

impl<'a> Eight<'a> {
    /// No block yet. Each that comes has `len` bytes.
    pub fn new(len: usize) -> Eight<'a>
        ensures { result ≡ record { size = len; blocks = [] } }
    {
        Eight {
            size: len,
            count: 0,
            blocks: [&[]; 8],
        }
    }

    /// Takes one more block behind those that stand. `Refused` comes exactly where eight stand, and then
    /// all stays as it was.
    pub fn push(&mut self, block: &'a [u8]) -> Result<(), Refused>
        requires { length block.now ≡ self.old.size }
        ensures takes { OnOk result ((length self.old.blocks < 8)
            × (self.new ≡ with_block self.old block.now)) }
        ensures full { OnErr result ((length self.old.blocks ≡ 8) × (self.new ≡ self.old)) }
    {
        if self.count == 8 {
            return Err(Refused);
        }
        self.blocks[self.count as usize] = block;
        self.count += 1;
        Ok(())
    }

    /// How many blocks there are, and the checksum of each in order.
    pub fn sums(&self) -> EightSums
        ensures most { length self.now.blocks ≤ 8 }
        ensures count { result.count ≡ length self.now.blocks }
        ensures sums { result.sums ≡ eight_sums self.now.blocks }
    {
        let count = self.standing();
        let mut sums = [0; 8];
        for place in 0..count as usize {
            sums[place] = self.sum_at(place);
        }
        EightSums { count, sums }
    }

    /// Gives all blocks back. The length of a block stays.
    pub fn clear(&mut self)
        ensures { self.new ≡ record { size = self.old.size; blocks = [] } }
    {
        self.count = 0;
    }

    /// How many blocks stand.
    #[tactic(auto, using(crate::proofs::Eights::counted))]
    fn standing(&self) -> u8
        ensures count { result ≡ length self.now.blocks }
        ensures most { result ≤ 8 }
    {
        self.count
    }

    /// The checksum of the block at `place`.
    fn sum_at(&self, place: usize) -> u32
        requires stands { place < length self.now.blocks }
        requires few { place < 8 }
        ensures { result ≡ crc32c_of (slice_index_or self.now.blocks place []) }
    {
        folded_sum(self.blocks[place])
    }
}
