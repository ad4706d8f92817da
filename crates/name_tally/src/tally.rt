//! The sums of all names.

ghost use Rattle.std.specs.Prelude.{◌≡◌, ◌+◌, ℕ, OnOk};
ghost use Rattle.std.specs.List.{flat_map};
ghost use Rattle.accounts.specs.declared.account.Account.{Account as AAccount};
ghost use Rattle.accounts.specs.Apart.{AddsUp};
ghost use Rattle.accounts.specs.Tally.{kept, sums_in, with_postings};
ghost use Rattle.inode_tally.specs.Held.{inodes_apart};
ghost use Rattle.fs_items.specs.Lent.{entry_fields, name_fields};
ghost use Rattle.records.specs.DirPostings.{link_postings};
ghost use Rattle.records.specs.InodePostings.{target_postings};
ghost use Rattle.name_tally.specs.Names.{both, entry_row, names_apart, slot_postings};
ghost use Rattle.name_tally.specs.Slots.{AreSame, KeepsBut, kept_of, led_in, led_of};

use crate::index::{NameIndex, Spot, hash_of};
use crate::slot::{Led, NAME_SIZE, NameSlot, post_slot};
use accounts::{Postings, Tally};
use dir_rules::{post_entry, post_link};
use fs_items::{DirEntry, NameAt};
use inode_tally::InodeTally;
use std::alloc::Global;
use verdict::kinds::INODE_ITEM;
use verdict::{Key, NoMemory};

/// The sums of names in directories, A11, and of links, A12, kept apart from a tally. Of the slots, up to 16,777,214 of
/// 80 bytes, each holds a name of up to 41 bytes until all that is said of it agrees, and the entries that lead to the
/// inode, A9, and say its type, A10. What finds no room there goes to postings.
#[derive(Debug, Drop)]
pub struct NameTally {
    alloc: Global,
    slots: Vec<NameSlot>,
    index: NameIndex,
}

impl NameTally {
    /// No sums. It takes its memory from this allocator.
    pub fn new(alloc: Global) -> NameTally
        ensures { (account : AAccount) (n : ℕ) → names_apart result account n ≡ 0 }
    {
        NameTally {
            alloc,
            slots: Vec::new(alloc),
            index: NameIndex::new(alloc),
        }
    }

    /// Moves all to a tally. Nothing may be added behind it. Out of memory, any part of it may be there.
    pub fn settle(&mut self, rest: &mut Tally) -> Result<(), NoMemory>
        ensures { OnOk result ((account : AAccount) →
            sums_in rest.new account ≡ kept account.kind
            (λ n. sums_in rest.old account n + names_apart self.old account n)) }
    {
        settle_all(self.alloc, &self.slots, rest)
    }

    /// Adds a name of an inode of a tree. The inode is told of the entries that lead to it when all is said of the name.
    /// What has no compact form is put behind the postings. Out of memory, any part of it may be added.
    pub fn take_link(
        &mut self,
        tree: u64,
        ino: u64,
        name: &NameAt<'_>,
        inodes: &mut InodeTally,
        into: &mut Postings,
    ) -> Result<(), NoMemory>
        ensures { OnOk result (AddsUp (both self.old inodes.old) (both self.new inodes.new)
            into.old into.new (link_postings tree ino (name_fields name.now))) }
    {
        if name.name.len() > NAME_SIZE {
            return post_link(self.alloc, tree, ino, name, into);
        }
        let spot = self.spot(tree, ino, name.parent, name.name)?;
        match self.keep_link(spot, tree, ino, name) {
            Some(led) => tell(led, inodes, into),
            None => post_link(self.alloc, tree, ino, name, into),
        }
    }

    // Adds a name of an inode to a slot, and gives what entries lead to the inode if all is said; or gives `None` where
    // there is no slot that takes it.
    fn keep_link(
        &mut self,
        spot: Option<Spot>,
        tree: u64,
        ino: u64,
        name: &NameAt<'_>,
    ) -> Option<Led>
        ensures { KeepsBut (names_apart self.old) (names_apart self.new) (led_of result)
            (kept_of result (link_postings tree ino (name_fields name.now))) }
    {
        let Some(spot) = spot else {
            return None;
        };
        let Some(slot) = self.slots.get_mut(spot.place) else {
            return None;
        };
        if !slot.add_link(tree, ino, name) {
            return None;
        }
        let led = slot.take_led();
        self.index.leave_if(slot.is_free(), spot);
        Some(led)
    }

    /// Adds an entry of a directory of a tree in the item with this key, and what it says of the inode that it leads to,
    /// which is told when all is said of the name. What has no compact form, and what is said of subvolumes, is put
    /// behind the postings. Out of memory, any part of it may be added.
    pub fn take_entry(
        &mut self,
        tree: u64,
        key: Key,
        entry: &DirEntry<'_>,
        inodes: &mut InodeTally,
        into: &mut Postings,
    ) -> Result<(), NoMemory>
        ensures { OnOk result (AddsUp (both self.old inodes.old) (both self.new inodes.new)
            into.old into.new (entry_row tree key (entry_fields entry.now))) }
    {
        if entry.location.kind != INODE_ITEM || entry.name.len() > NAME_SIZE {
            return pass_entry(self.alloc, tree, key, entry, inodes, into);
        }
        let spot = self.spot(tree, entry.location.objectid, key.objectid, entry.name)?;
        match self.keep_entry(spot, tree, key, entry) {
            Some(led) => tell(led, inodes, into),
            None => pass_entry(self.alloc, tree, key, entry, inodes, into),
        }
    }

    // Adds an entry to a slot, and gives what entries lead to the inode if all is said; or gives `None` where there is no
    // slot that takes it.
    fn keep_entry(
        &mut self,
        spot: Option<Spot>,
        tree: u64,
        key: Key,
        entry: &DirEntry<'_>,
    ) -> Option<Led>
        ensures { KeepsBut (names_apart self.old) (names_apart self.new) (led_of result)
            (kept_of result (entry_row tree key (entry_fields entry.now))) }
    {
        let Some(spot) = spot else {
            return None;
        };
        let Some(slot) = self.slots.get_mut(spot.place) else {
            return None;
        };
        if !slot.add_entry(tree, key, entry) {
            return None;
        }
        let led = slot.take_led();
        self.index.leave_if(slot.is_free(), spot);
        Some(led)
    }

    // Where the slot of a name of an inode in a directory is, or one that may become its own. `None` where there is no
    // room.
    fn spot(&mut self, tree: u64, ino: u64, dir: u64, name: &[u8]) -> Result<Option<Spot>, NoMemory>
        ensures { OnOk result (AreSame (names_apart self.old) (names_apart self.new)) }
    {
        let hash = hash_of(tree, ino, dir);
        let found = self.index.find(&self.slots, hash, tree, ino, dir, name);
        if found.is_some() {
            return Ok(found);
        }
        self.index.make(&mut self.slots, hash)
    }
}

// Tells an inode of the entries that lead to it.
fn tell(led: Led, inodes: &mut InodeTally, into: &mut Postings) -> Result<(), NoMemory>
    ensures { OnOk result (AddsUp (inodes_apart inodes.old) (inodes_apart inodes.new)
        into.old into.new (led_in led)) }
{
    if led.count == 0 {
        return Ok(());
    }
    inodes.add_targets(led.tree, led.ino, led.sort, led.count, into)
}

// Adds an entry that no slot takes.
fn pass_entry(
    alloc: Global,
    tree: u64,
    key: Key,
    entry: &DirEntry<'_>,
    inodes: &mut InodeTally,
    into: &mut Postings,
) -> Result<(), NoMemory>
    ensures { OnOk result (AddsUp (inodes_apart inodes.old) (inodes_apart inodes.new)
        into.old into.new (entry_row tree key (entry_fields entry.now))) }
{
    post_entry(alloc, tree, key, entry, into)?;
    tell_entry(tree, entry, inodes, into)
}

// Tells the inode that an entry leads to of it.
#[tactic(auto, using(accounts::proofs::Apart::adds_nothing))]
fn tell_entry(
    tree: u64,
    entry: &DirEntry<'_>,
    inodes: &mut InodeTally,
    into: &mut Postings,
) -> Result<(), NoMemory>
    ensures { OnOk result (AddsUp (inodes_apart inodes.old) (inodes_apart inodes.new)
        into.old into.new (target_postings tree (entry_fields entry.now))) }
{
    if entry.location.kind == INODE_ITEM {
        return inodes.add_targets(tree, entry.location.objectid, entry.sort, 1, into);
    }
    Ok(())
}

// Adds the sums of slots to a tally.
fn settle_all(alloc: Global, slots: &[NameSlot], rest: &mut Tally) -> Result<(), NoMemory>
    ensures { OnOk result (sums_in rest.new ≡
        with_postings (sums_in rest.old) (flat_map slot_postings slots.now)) }
{
    for slot in slots {
        settle_slot(alloc, slot, rest)?;
    }
    Ok(())
}

// Adds the sums of a slot to a tally.
fn settle_slot(alloc: Global, slot: &NameSlot, rest: &mut Tally) -> Result<(), NoMemory>
    ensures { OnOk result (sums_in rest.new ≡
        with_postings (sums_in rest.old) (slot_postings slot.now)) }
{
    if slot.is_free() {
        return Ok(());
    }
    let mut postings = Postings::new(alloc);
    post_slot(alloc, slot, &mut postings)?;
    rest.add_all(&mut postings)
}
