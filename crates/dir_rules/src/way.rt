//! How what a record says of names is handed on.

ghost use Rattle.fs_items.specs.Lent.{entry_fields, name_fields};
ghost use Rattle.records.specs.DirPostings.{dir_entry_postings, link_postings};

use crate::entries::{post_entry, post_link};
use accounts::Poster;
use fs_items::{DirEntry, NameAt};
use std::alloc::Global;
use verdict::{Key, NoMemory};

/// How entries of directories and names of inodes are handed on: posting by posting, or as what keeps the sums of names
/// takes them.
pub trait NameWay<P: Poster> {
    ghost use Rattle.std.specs.Prelude.{ℕ, List};
    ghost use Rattle.accounts.specs.declared.postings.Posting.{Posting};
    ghost use Rattle.fs_items.specs.DirRow.{EntryFields};
    ghost use Rattle.verdict.specs.declared.key.Key.{Key as AKey};

    /// What an entry of a directory of a tree posts, in the item with this key.
    ghost of_entry: { ℕ → AKey → EntryFields → List Posting };

    /// Hands on an entry of a directory in the item with this key. Out of memory, a first part of its postings may be
    /// handed on.
    fn put_entry(
        &self,
        alloc: Global,
        tree: u64,
        key: Key,
        entry: &DirEntry<'_>,
        into: &mut P,
    ) -> Result<(), NoMemory>
        ensures { P.Leaves into.old into.new result (of_entry tree key (entry_fields entry.now)) };

    /// Hands on a name of an inode of a tree.
    fn put_link(
        &self,
        alloc: Global,
        tree: u64,
        ino: u64,
        name: &NameAt<'_>,
        into: &mut P,
    ) -> Result<(), NoMemory>
        ensures { P.Leaves into.old into.new result
            (link_postings tree ino (name_fields name.now)) };
}

/// Posting by posting.
#[derive(Clone, Copy, Debug)]
pub struct OneByOne;

impl<P: Poster> NameWay<P> for OneByOne {
    ghost of_entry = { dir_entry_postings };

    fn put_entry(
        &self,
        alloc: Global,
        tree: u64,
        key: Key,
        entry: &DirEntry<'_>,
        into: &mut P,
    ) -> Result<(), NoMemory> {
        post_entry(alloc, tree, key, entry, into)
    }

    fn put_link(
        &self,
        alloc: Global,
        tree: u64,
        ino: u64,
        name: &NameAt<'_>,
        into: &mut P,
    ) -> Result<(), NoMemory> {
        post_link(alloc, tree, ino, name, into)
    }
}
