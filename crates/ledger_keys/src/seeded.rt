//! The hash by which accounts are found.

use std::hash::{BuildHasher, DefaultHasher, Hasher};

/// Makes each hasher as one that was fed a seed: who does not know the seed picks no accounts that collide.
#[derive(Clone, Copy)]
pub struct Seeded {
    fed: DefaultHasher,
}

impl Seeded {
    /// From a seed on.
    pub fn of(seed: &[u8; 16]) -> Seeded {
        let mut fed = DefaultHasher::new();
        fed.write(seed);
        Seeded { fed }
    }
}

impl BuildHasher for Seeded {
    type Hasher = DefaultHasher;

    ghost build_hasher = { λ s. s.fed };

    fn build_hasher(&self) -> DefaultHasher {
        self.fed
    }
}
