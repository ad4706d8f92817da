//! The accounts of names, as what they are made of.

ghost use Rattle.std.specs.Prelude.{◌≡◌, IfOk};
ghost use Rattle.accounts.specs.Lent.{account_lent};

use crate::Account;
use std::alloc::Global;
use verdict::{Key, NoMemory};

/// An account of a name of an inode, as what it is made of. The name is lent, so that no memory is taken for it.
#[derive(Clone, Copy, Debug)]
pub enum NameAccount<'a> {
    /// The entry of a directory, by its hash and by its index.
    Entry {
        /// The id of the tree.
        tree: u64,
        /// The inode number of the directory.
        dir: u64,
        /// The hash of the name.
        hash: u32,
        /// The key of what the entry leads to.
        location: Key,
        /// The name, as bytes.
        name: &'a [u8],
        /// The type of what the entry leads to.
        sort: u8,
    },
    /// The link of an inode, from its directory and from itself.
    Link {
        /// The id of the tree.
        tree: u64,
        /// The number of the inode.
        ino: u64,
        /// The inode number of the directory.
        dir: u64,
        /// The index in the directory.
        index: u64,
        /// The name, as bytes.
        name: &'a [u8],
    },
}

impl NameAccount<'_> {
    /// The account. Its name takes its memory from this allocator.
    pub fn account(&self, alloc: Global) -> Result<Account, NoMemory>
        ensures { IfOk result (λ account. account ≡ account_lent self.now) }
    {
        match *self {
            NameAccount::Entry {
                tree,
                dir,
                hash,
                location,
                name,
                sort,
            } => Account::name_entry(alloc, tree, dir, hash, location, name, sort),
            NameAccount::Link {
                tree,
                ino,
                dir,
                index,
                name,
            } => Account::link(alloc, tree, ino, dir, index, name),
        }
    }
}
