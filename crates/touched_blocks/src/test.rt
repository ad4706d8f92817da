//! Tests of logical addresses.

ghost use Rattle.std.specs.Prelude.{◌≡◌, ℕ, Bool};

/// A test of the logical addresses of blocks.
pub trait AddressTest {
    /// Whether an address passes.
    ghost passes: { Self → ℕ → Bool };

    /// Whether an address passes.
    fn passes(&self, address: u64) -> bool
        ensures { result ≡ passes self.now address };
}
