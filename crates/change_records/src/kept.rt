//! What is kept of changes.

ghost use Rattle.change_records.specs.Listed.{AreListed};

use crate::ItemRef;
use std::collections::{BTreeMap, BTreeSet};

/// An inode of a tree. Inodes are ordered by the tree and then by the number.
#[derive(Clone, Copy, Debug, PartialEq, Eq, PartialOrd, Ord)]
pub struct Inode {
    /// The id of the tree.
    pub tree: u64,
    /// The inode's number.
    pub ino: u64,
}

/// What changes between two lists of items name, and what they make of the flag `NODATASUM` of inodes.
#[derive(Drop)]
pub struct Made {
    // The items that the changes name.
    pub(crate) named: BTreeSet<ItemRef>,
    // Of each inode whose item the changes name, whether its data has no checksums behind them.
    pub(crate) flags: BTreeMap<Inode, bool>,
    // These inodes.
    pub(crate) inodes: Vec<Inode>,
    ghost listed: { AreListed flags inodes.items },
}
