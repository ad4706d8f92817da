//! What changes name, and what they make of the flags of inodes.

ghost use Rattle.std.specs.Prelude.{◌≡◌, ℕ, Bool, false, ◌&&◌, ◌||◌, ◌==◌, [], ◌∷◌, ◌++◌, IfOk, OnOk, Some, is_some, option_map, slice_get, if◌then◌else◌};
ghost use Rattle.std.specs.List.{Contains};
ghost use Rattle.std.specs.BTreeMap.{get};
ghost use Rattle.std.specs.BTreeSet.{Updates, contains};
ghost use Rattle.change_records.specs.Listed.{inode_cmp};
ghost use Rattle.change_records.specs.Made.{AreOnce, IsApplied, IsMade, IsPut, IsTaken, ListsOneMore, flag_by, has_name};
ghost use Rattle.change_records.specs.Refs.{stands_at};
ghost use Rattle.change_records.specs.declared.item_ref.ItemRef.{ItemRef as ARef};

use crate::kept::{Inode, Made};
use crate::{ItemChange, ItemRef};
use records::{ItemAt, OwnedRec};
use std::alloc::Global;
use std::collections::{BTreeMap, BTreeSet};
use verdict::NoMemory;

/// The bit of an inode's flags that says that its data has no checksums.
const NODATASUM: u64 = 1;

impl Made {
    /// What changes from one list of items to another name and make of flags. A place outside its list names nothing. It takes its memory
    /// from this allocator.
    pub fn of(
        alloc: Global,
        changes: &[ItemChange],
        old: &[ItemAt],
        new: &[ItemAt],
    ) -> Result<Made, NoMemory>
        ensures { IfOk result (λ made. IsMade old.now new.now changes.now made) }
    {
        let mut made = Made::new(alloc);
        for change in changes {
            made.apply(change, old, new)?;
        }
        Ok(made)
    }

    // A change more. A place that lies outside its list names nothing.
    fn apply(&mut self, change: &ItemChange, old: &[ItemAt], new: &[ItemAt]) -> Result<(), NoMemory>
        ensures { OnOk result (IsApplied old.now new.now change.now self.old self.new) }
    {
        match *change {
            ItemChange::Added { new: is } => self.put(item_at(new, is)),
            ItemChange::Removed { old: was } => self.take(item_at(old, was)),
            ItemChange::Altered { old: was, new: is } => {
                self.take(item_at(old, was))?;
                self.put(item_at(new, is))
            }
        }
    }

    // Nothing.
    #[tactic(auto, unfolding(crate::specs::Made::has_name, crate::specs::Made::flag_by))]
    fn new(alloc: Global) -> Made
        ensures names { (at : ARef) → has_name result at ≡ false }
        ensures flags { (tree ino : ℕ) (free : Bool) → flag_by result tree ino free ≡ free }
        ensures once { AreOnce result.flags result.inodes.items 0 }
    {
        Made {
            named: BTreeSet::new(alloc),
            flags: BTreeMap::new(alloc),
            inodes: Vec::new(alloc),
        }
    }

    // An item of the new list.
    fn put(&mut self, item: Option<&ItemAt>) -> Result<(), NoMemory>
        ensures { OnOk result (IsPut self.old self.new (option_map (λ a. a.now) item.entry)) }
    {
        let Some(item) = item else {
            return Ok(());
        };
        self.name(item)?;
        match &item.part {
            OwnedRec::InodeItem(inode) => {
                self.set(
                    item.tree,
                    inode.key.objectid,
                    inode.flags & NODATASUM == NODATASUM,
                )
            }
            _ => Ok(()),
        }
    }

    // An item of the old list.
    fn take(&mut self, item: Option<&ItemAt>) -> Result<(), NoMemory>
        ensures { OnOk result (IsTaken self.old self.new (option_map (λ a. a.now) item.entry)) }
    {
        let Some(item) = item else {
            return Ok(());
        };
        self.name(item)?;
        match &item.part {
            OwnedRec::InodeItem(inode) => self.set(item.tree, inode.key.objectid, false),
            _ => Ok(()),
        }
    }

    // Puts the item among those that are named.
    fn name(&mut self, item: &ItemAt) -> Result<(), NoMemory>
        ensures names { OnOk result ((at : ARef)
            → has_name self.new at ≡ (stands_at at (Some item.now) || has_name self.old at)) }
        ensures flags { OnOk result ((tree ino : ℕ) (free : Bool)
            → flag_by self.new tree ino free ≡ flag_by self.old tree ino free) }
        ensures kept { self.new.flags ≡ self.old.flags }
        ensures inodes { self.new.inodes ≡ self.old.inodes }
    {
        let (tree, key) = (item.tree, item.key);
        self.named.insert(ItemRef { tree, key })?;
        Ok(())
    }

    // Sets the flag of an inode.
    fn set(&mut self, tree: u64, ino: u64, free: bool) -> Result<(), NoMemory>
        ensures names { OnOk result ((at : ARef) → has_name self.new at ≡ has_name self.old at) }
        ensures flags { OnOk result ((t i : ℕ) (f : Bool) → flag_by self.new t i f
            ≡ (if tree == t && ino == i then free else flag_by self.old t i f)) }
        ensures once { OnOk result (ListsOneMore self.old self.new) }
    {
        let inode = Inode { tree, ino };
        self.list(inode)?;
        self.flags.insert(inode, free)?;
        Ok(())
    }

    // Puts an inode on the list, where it has no flag yet.
    fn list(&mut self, inode: Inode) -> Result<(), NoMemory>
        ensures there { OnOk result ((Contains self.new.inodes.items inode → ⊥) → ⊥) }
        ensures named { self.new.named ≡ self.old.named }
        ensures flags { self.new.flags ≡ self.old.flags }
        ensures inodes { OnOk result (self.new.inodes.items
            ≡ (if is_some (get inode_cmp self.old.flags inode) then self.old.inodes.items
            else self.old.inodes.items ++ inode ∷ [])) }
    {
        if self.flags.contains_key(&inode) {
            return Ok(());
        }
        Ok(self.inodes.push(inode)?)
    }

    /// Whether the changes name an item.
    #[tactic(auto, unfolding(crate::specs::Made::has_name))]
    pub(crate) fn names(&self, at: &ItemRef) -> bool
        ensures { result ≡ has_name self.now at.now }
    {
        self.named.contains(at)
    }

    /// The flag of an inode by the changes, or `free`, which it had, where none is of it.
    #[tactic(auto, unfolding(crate::specs::Made::flag_by))]
    pub fn flag(&self, tree: u64, ino: u64, free: bool) -> bool
        ensures { result ≡ flag_by self.now tree ino free }
    {
        self.flags
            .get(&Inode { tree, ino })
            .copied()
            .unwrap_or(free)
    }

    /// Turns the flags in a set of the inodes whose data has no checksums: an inode of which the changes have a flag is in the set then
    /// where that is set, and any other stays as it was. Out of memory, some may be turned.
    pub fn turn(&self, set: &mut BTreeSet<Inode>) -> Result<(), NoMemory>
        ensures { OnOk result ((tree ino : ℕ) →
            contains inode_cmp set.new (record { tree = tree; ino = ino })
            ≡ flag_by self.now tree ino
            (contains inode_cmp set.old (record { tree = tree; ino = ino }))) }
    {
        for inode in &self.inodes {
            let free = self.flag(inode.tree, inode.ino, set.contains(inode));
            keep(set, *inode, free)?;
        }
        Ok(())
    }
}

// Puts an inode in a set, or takes it out.
fn keep(set: &mut BTreeSet<Inode>, inode: Inode, there: bool) -> Result<(), NoMemory>
    ensures { OnOk result (Updates inode_cmp set.old set.new inode there) }
{
    if !there {
        set.remove(&inode);
        return Ok(());
    }
    set.insert(inode)?;
    Ok(())
}

// The item at a place of a list, where there is one.
fn item_at(items: &[ItemAt], place: u64) -> Option<&ItemAt>
    ensures { option_map (λ a. a.now) result ≡ slice_get items.now place }
{
    items.get(place as usize)
}
