//! What a record posts.

ghost use Rattle.dir_rules.specs.Named.{named_postings};
ghost use Rattle.records.specs.DirPostings.{dir_postings};
ghost use Rattle.records.specs.Part.{part_of};

use crate::entries::{post_entries, post_names};
use crate::subvolumes::{post_root, post_root_link};
use crate::way::{NameWay, OneByOne};
use accounts::{Ctx, Poster};
use records::Rec;
use std::alloc::Global;
use verdict::NoMemory;

/// Hands on what a record of a tree says of names in directories and of subvolumes: its postings to the accounts A11 to
/// A14 and A17, in the order of the record's parts. `tree` is the id of the tree that holds the record.
///
/// The name of an inode and the entry by its index say the same link, and so do the two entries of a name say the same
/// name; a subvolume is named from the root tree twice, and by an entry of its parent. Out of memory, a first part of
/// the postings may be handed on; in a list, that part stands behind the old ones.
pub fn post<C: Ctx, P: Poster>(
    alloc: Global,
    _ctx: &C,
    tree: u64,
    part: &Rec<'_>,
    into: &mut P,
) -> Result<(), NoMemory>
    ensures { P.Leaves into.old into.new result (dir_postings tree (part_of part.now)) }
{
    post_by(alloc, &OneByOne, tree, part, into)
}

/// Hands on the same, where entries of directories and names of inodes go their own way. Out of memory, a first part of
/// the postings may be handed on.
#[tactic(auto, unfolding(crate::specs::Named::named_postings))]
pub fn post_by<P: Poster, W: NameWay<P>>(
    alloc: Global,
    way: &W,
    tree: u64,
    part: &Rec<'_>,
    into: &mut P,
) -> Result<(), NoMemory>
    ensures { P.Leaves into.old into.new result
        (named_postings W.of_entry tree (part_of part.now)) }
{
    match *part {
        Rec::InodeRef(item) => post_names(alloc, way, tree, &item, into),
        Rec::DirItem(item) => post_entries(alloc, way, tree, &item, into),
        Rec::RootItem(item) => post_root(alloc, &item, into),
        Rec::RootLink(item) => post_root_link(alloc, &item, into),
        _ => Ok(()),
    }
}
