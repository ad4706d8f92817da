//! Where a pair stands in each of the three orders.

use crate::Live;
use verdict::Key;

/// By tree, then by address.
#[derive(Clone, Copy, PartialEq, Eq, PartialOrd, Ord)]
pub(crate) struct ByTree {
    pub(crate) tree: u64,
    pub(crate) address: u64,
}

/// By address, then by tree.
#[derive(Clone, Copy, PartialEq, Eq, PartialOrd, Ord)]
pub(crate) struct ByAddress {
    pub(crate) address: u64,
    pub(crate) tree: u64,
}

/// By tree, then by level and first key. Pairs that have these alike stand by address.
#[derive(Clone, Copy, PartialEq, Eq, PartialOrd, Ord)]
pub(crate) struct ByFirst {
    pub(crate) tree: u64,
    pub(crate) level: u8,
    pub(crate) first: Key,
    pub(crate) address: u64,
}
