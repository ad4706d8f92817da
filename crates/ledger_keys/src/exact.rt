//! Keys under which sums are kept.

ghost use Rattle.std.specs.Prelude.{◌≡◌, ℕ, IsTrue};

use std::hash::Hash;

/// Keys of which equal ones are one and the same.
pub trait Exact: Eq + Hash + Copy {
    /// The number of the part of a table that has the key's entry.
    ghost part_of: { Self → ℕ };

    /// A number that keys seldom have in common. It costs less than a hash, and nothing rests on it.
    fn mixed(&self) -> u64;

    /// The number of the part of a table that has the key's entry, below 1,024.
    fn part(&self) -> usize
        ensures { result ≡ part_of self.now };

    ghost exact: { (x y : Self) → IsTrue (Self.eq x y) → x ≡ y };
}
