//! Who refers to an extent, as what their accounts are made of.

ghost use Rattle.std.specs.Prelude.{◌≡◌};
ghost use Rattle.accounts.specs.Lent.{user_account};

use crate::Account;
use std::alloc::Global;

/// Who refers to an extent.
#[derive(Clone, Copy, Debug, PartialEq, Eq)]
pub enum User {
    /// A tree, to a tree block.
    Tree {
        /// The id of the tree.
        root: u64,
    },
    /// The tree block above, to a tree block.
    Block {
        /// Its logical address in bytes.
        parent: u64,
    },
    /// An inode of a tree, to file data.
    File {
        /// The id of the tree.
        root: u64,
        /// The number of the inode.
        ino: u64,
        /// The byte of the file at which the extent would begin, modulo 2^64.
        origin: u64,
    },
    /// A leaf, to file data.
    Leaf {
        /// Its logical address in bytes.
        parent: u64,
    },
}

impl User {
    /// The account of its references to the extent at a logical address, A1 or A2.
    pub fn account(&self, alloc: Global, address: u64) -> Account
        ensures { result ≡ user_account address self.now }
    {
        match *self {
            User::Tree { root } => Account::block_ref(alloc, root, address),
            User::Block { parent } => Account::shared_block_ref(alloc, parent, address),
            User::File { root, ino, origin } => {
                Account::data_ref(alloc, root, address, ino, origin)
            }
            User::Leaf { parent } => Account::shared_data_ref(alloc, parent, address),
        }
    }
}
