//! What a record posts.

ghost use Rattle.inode_rules.specs.Own.{own_postings};
ghost use Rattle.records.specs.InodePostings.{inode_postings};
ghost use Rattle.records.specs.Part.{part_of};

use crate::rows::{post_entries, post_file_extent, post_inode, post_names, post_own_entries};
use accounts::kinds::{INODE_ORPHANS, INODE_OTHERS};
use accounts::{Ctx, Poster};
use records::Rec;
use std::alloc::Global;
use verdict::NoMemory;

/// Hands on what a record of a tree says of inodes: its postings to the accounts A9 and A10, in the order of the
/// record's parts. `tree` is the id of the tree that holds the record.
///
/// An inode's item, its names, its attributes, its ranges of data and the entries that lead to it say that the inode
/// is there; a name beside counts as one of its links, and an entry's name in the size of its directory. Out of
/// memory, a first part of the postings may be handed on; in a list, that part stands behind the old ones.
#[tactic(auto, unfolding(records::specs::InodePostings::inode_postings, crate::specs::Own::own_postings))]
pub fn post<C: Ctx, P: Poster>(
    alloc: Global,
    _ctx: &C,
    tree: u64,
    part: &Rec<'_>,
    into: &mut P,
) -> Result<(), NoMemory>
    ensures { P.Leaves into.old into.new result (inode_postings tree (part_of part.now)) }
{
    match part {
        Rec::DirItem(item) => post_entries(alloc, tree, item, into),
        _ => post_own(alloc, tree, part, into),
    }
}

/// Hands on the same postings without those to the inodes that the entries of a directory lead to. Out of memory, a
/// first part of them may be handed on.
#[tactic(auto, unfolding(records::specs::InodePostings::inode_postings, crate::specs::Own::own_postings))]
pub fn post_own<P: Poster>(
    alloc: Global,
    tree: u64,
    part: &Rec<'_>,
    into: &mut P,
) -> Result<(), NoMemory>
    ensures { P.Leaves into.old into.new result (own_postings tree (part_of part.now)) }
{
    match *part {
        Rec::FileExtent(range) => post_file_extent(alloc, tree, &range, into),
        Rec::InodeItem(item) => post_inode(alloc, tree, &item, into),
        Rec::InodeRef(item) => post_names(alloc, tree, &item, into),
        Rec::Xattr(item) => into.put_inode(alloc, tree, item.key.objectid, INODE_OTHERS, 1),
        Rec::Orphan(item) => into.put_inode(alloc, tree, item.key.offset, INODE_ORPHANS, 1),
        Rec::DirItem(item) => post_own_entries(alloc, tree, &item, into),
        _ => Ok(()),
    }
}
