//! The counter of looks into an index.

ghost use Rattle.std.specs.Prelude.{◌≡◌};
ghost use Rattle.recon_disk.specs.Outside.{counted};

use std::marker::Model;

/// Counts looks into an index. It belongs to the index with the same mark `L`: code that is generic
/// in `L` has no mark, so it can make no counter of its own and cannot replace the one lent to it.
#[derive(Drop)]
pub struct Steps<L> {
    count: u64,
    seed: [u8; 16],
    mark: L,
}

impl<L> Model for Steps<L> {
    ghost use Rattle.std.specs.Prelude.{ℕ};

    ghost Value = { ℕ };

    ghost view = { λ s. s.count };
}

impl<L> Steps<L> {
    /// A counter with no look yet, and a fixed seed.
    pub fn new(mark: L) -> Steps<L>
        ensures { result ≡ 0 }
    {
        Steps::seeded(mark, [0; 16])
    }

    /// A counter with no look yet, and a seed for the hashes of the index. Who does not know the seed
    /// picks no keys that collide.
    pub fn seeded(mark: L, seed: [u8; 16]) -> Steps<L>
        ensures { result ≡ 0 }
    {
        Steps {
            count: 0,
            seed,
            mark,
        }
    }

    /// The seed for the hashes of the index. Nothing that is answered rests on it.
    pub fn seed(&self) -> [u8; 16] {
        self.seed
    }

    /// Counts one look, or stays at the greatest value.
    pub fn look(&mut self)
        ensures { self.new ≡ counted self.old }
    {
        self.count = self.count.saturating_add(1);
    }

    /// The looks so far.
    pub fn looks(&self) -> u64
        ensures { result ≡ self.now }
    {
        self.count
    }
}
