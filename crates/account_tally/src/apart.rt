//! The sums of extents, of names and of inodes, each in a form of its own.

ghost use Rattle.std.specs.Prelude.{◌≡◌, ◌+◌, [], ℕ, OnOk};
ghost use Rattle.accounts.specs.Broken.{is_broken};
ghost use Rattle.accounts.specs.Tally.{sums_in};
ghost use Rattle.accounts.specs.declared.account.Account.{Account as AnAccount};
ghost use Rattle.name_tally.specs.Names.{entry_row};
ghost use Rattle.account_tally.specs.Apart.{Adds, sums_apart};
ghost use Rattle.account_tally.specs.ApartLaws.{adds_pass};

use accounts::{NameAccount, Poster, Posting, Postings, Tally, User};
use dir_rules::NameWay;
use extent_tally::ExtentTally;
use fs_items::{DirEntry, NameAt};
use inode_tally::InodeTally;
use name_tally::NameTally;
use std::alloc::Global;
use verdict::{Key, NoMemory};

/// The sums of extents, of names and of inodes, each in a form of its own, and a list of what has no such form. As one
/// that postings are handed to it makes no account of what it keeps.
#[derive(Debug, Drop)]
pub struct Apart {
    /// Those of extents, of their forms, and of who refers to them.
    pub extents: ExtentTally,
    /// Those of names, and of the entries that lead to inodes.
    pub names: NameTally,
    /// Those of inodes and of their types.
    pub inodes: InodeTally,
    /// What has no form of its own there.
    pub waiting: Postings,
}

impl Apart {
    // No sums. They take their memory from this allocator.
    pub fn new(alloc: Global) -> Apart
        ensures sums { (account : AnAccount) (n : ℕ) → sums_apart result account n ≡ 0 }
        ensures waiting { result.waiting ≡ [] }
    {
        Apart {
            extents: ExtentTally::new(alloc),
            names: NameTally::new(alloc),
            inodes: InodeTally::new(alloc),
            waiting: Postings::new(alloc),
        }
    }

    // Moves the sums of the accounts that may be broken to a tally. Nothing may be added behind it.
    pub fn settle(&mut self, rest: &mut Tally) -> Result<(), NoMemory>
        ensures { OnOk result ((account : AnAccount) →
            is_broken account (sums_in rest.new account) ≡ is_broken account
            (λ n. sums_in rest.old account n + sums_apart self.old account n)) }
    {
        self.names.settle(rest)?;
        self.extents.settle(rest)?;
        self.inodes.settle(rest)
    }
}

impl Poster for Apart {
    ghost Leaves = { λ old new result postings. Adds old new result postings };

    ghost passes = { adds_pass };

    fn put(&mut self, posting: Posting) -> Result<(), NoMemory> {
        self.waiting.push(posting)
    }

    fn put_name(
        &mut self,
        alloc: Global,
        name: &NameAccount<'_>,
        field: u8,
        amount: u64,
    ) -> Result<(), NoMemory> {
        self.waiting.put_name(alloc, name, field, amount)
    }

    fn put_inode(
        &mut self,
        _alloc: Global,
        tree: u64,
        ino: u64,
        field: u8,
        amount: u64,
    ) -> Result<(), NoMemory> {
        self.inodes
            .add(tree, ino, usize::from(field), amount, &mut self.waiting)
    }

    fn put_typed(&mut self, _alloc: Global, tree: u64, ino: u64, sort: u8) -> Result<(), NoMemory> {
        self.inodes.add_type(tree, ino, sort, &mut self.waiting)
    }

    fn put_target(
        &mut self,
        _alloc: Global,
        tree: u64,
        ino: u64,
        sort: u8,
    ) -> Result<(), NoMemory> {
        self.inodes
            .add_targets(tree, ino, sort, 1, &mut self.waiting)
    }

    fn put_extent(&mut self, _alloc: Global, key: Key, refs: u64) -> Result<(), NoMemory> {
        self.extents.put_extent(key, refs, &mut self.waiting)
    }

    fn put_reference(
        &mut self,
        _alloc: Global,
        address: u64,
        user: &User,
        count: u64,
    ) -> Result<(), NoMemory> {
        self.extents
            .put_reference(address, user, count, &mut self.waiting)
    }

    fn put_use(
        &mut self,
        _alloc: Global,
        address: u64,
        user: &User,
        kind: u8,
        form: u64,
    ) -> Result<(), NoMemory> {
        self.extents
            .put_use(address, user, kind, form, &mut self.waiting)
    }
}

/// The way of names to what is kept apart: an entry of a directory goes with what it says of the inode that it leads to.
#[derive(Clone, Copy, Debug)]
pub struct WithTargets;

impl NameWay<Apart> for WithTargets {
    ghost of_entry = { entry_row };

    fn put_entry(
        &self,
        _alloc: Global,
        tree: u64,
        key: Key,
        entry: &DirEntry<'_>,
        into: &mut Apart,
    ) -> Result<(), NoMemory> {
        into.names
            .take_entry(tree, key, entry, &mut into.inodes, &mut into.waiting)
    }

    fn put_link(
        &self,
        _alloc: Global,
        tree: u64,
        ino: u64,
        name: &NameAt<'_>,
        into: &mut Apart,
    ) -> Result<(), NoMemory> {
        into.names
            .take_link(tree, ino, name, &mut into.inodes, &mut into.waiting)
    }
}
