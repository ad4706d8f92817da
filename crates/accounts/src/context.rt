//! What the postings of one record rest on beside the record itself.

ghost use Rattle.std.specs.Prelude.{◌≡◌, ◌+◌, ◌<◌, ◌^◌, IfSome};
ghost use Rattle.accounts.specs.Context.{Context as AContext, home_of};

/// The chunk that holds a range of logical addresses whole.
#[derive(Clone, Copy, Debug, PartialEq, Eq)]
pub struct Home {
    /// The logical address in bytes where the chunk begins.
    pub start: u64,
    /// Its length in bytes.
    pub length: u64,
    /// Its type, a bit each: 1 data, 2 system, 4 metadata, 32 two copies.
    pub class: u64,
}

/// The context of an image: its chunks, its inodes whose data has no checksums, and its size of a tree block.
pub trait Ctx {
    /// What it tells.
    ghost context: { Self → AContext };

    /// The first chunk that holds `len` bytes from a logical address on whole, or `None` exactly where there is
    /// none. No chunk passes the end of 64 bits.
    fn home(&self, addr: u64, len: u64) -> Option<Home>
        ensures home { result ≡ home_of (context self.now) addr len }
        ensures fits { IfSome result (λ _. addr + len < 2 ^ 64) };

    /// Whether the flag `NODATASUM` of an inode of this tree is set, so that its data has no checksums.
    fn sum_free(&self, tree: u64, ino: u64) -> bool
        ensures { result ≡ (context self.now).sum_free tree ino };

    /// The size of a tree block in bytes.
    fn nodesize(&self) -> u32
        ensures { result ≡ (context self.now).nodesize };

    /// Whether the tree block at this logical address refers to what is below it by its address, and not by its
    /// owner.
    fn full(&self, address: u64) -> bool
        ensures { result ≡ (context self.now).full address };
}
