//! What is told of blocks that a walk keeps, and of those that it is done with.

use live_index::Live;
use node_reader::{Expect, Pointer};
use verdict::Key;

/// A child that is walked below a block that is not read.
#[derive(Clone, Copy, Debug, PartialEq, Eq)]
pub struct Start {
    /// Its pointer in that block.
    pub pointer: Pointer,
    /// The key of the next pointer, where one follows.
    pub next: Option<Key>,
}

/// A block that a walk is done with, and the greatest key of an item in it or below it, (0, 0, 0) where there is none.
#[derive(Clone, Copy, Debug, PartialEq, Eq)]
pub struct Ended {
    /// The block as it was expected.
    pub expect: Expect,
    /// The greatest key.
    pub last: Key,
}

/// A kept block that a walk met, and what a table of live pairs has of it.
#[derive(Clone, Copy, Debug, PartialEq, Eq)]
pub struct Met {
    /// The block as it was expected.
    pub expect: Expect,
    /// Its pair in the table.
    pub live: Option<Live>,
}
