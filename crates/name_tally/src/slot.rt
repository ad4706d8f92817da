//! The sums of one name.

ghost use Rattle.std.specs.Prelude.{◌≡◌, ◌+◌, ◌++◌, IfSome, OnOk, true, [], ◌∷◌, if◌then◌else◌};
ghost use Rattle.fs_items.specs.Lent.{entry_fields, name_fields};
ghost use Rattle.records.specs.DirPostings.{dir_entry_postings, hashed_postings, indexed_postings, link_postings};
ghost use Rattle.records.specs.InodePostings.{target_postings};
ghost use Rattle.accounts.specs.declared.kinds.TheConstants.{ENTRIES_BY_HASH, ENTRIES_BY_INDEX, LINK_ENTRIES, LINK_NAMES};
ghost use Rattle.name_tally.specs.Names.{entry_of, leads, link_of, name_of, slot_postings};
ghost use Rattle.name_tally.specs.Slots.{Agrees, AreSame, HasSums, IsAt, IsFree, KeepsBut, KeepsUp, led_in, slot_sums};
ghost use Rattle.accounts.specs.Lent.{to};

use accounts::kinds::{
    ENTRIES_BY_HASH, ENTRIES_BY_INDEX, INODE_OTHERS, LINK_ENTRIES, LINK_NAMES, TYPE_ENTRIES,
};
use accounts::{Account, Posting, Postings};
use fs_items::{DirEntry, NameAt};
use recon_crc::name_hash;
use std::alloc::Global;
use verdict::kinds::{DIR_ITEM, INODE_ITEM};
use verdict::{Key, NoMemory};

/// The longest name of a slot, in bytes.
pub const NAME_SIZE: usize = 41;

/// The sums of a name of an inode in a directory, and of the link that it is: of each two sums, with what is common to
/// both taken from both. Besides, the entries that lead to the inode and say its type, until the inode is told of them.
/// Where all five are zero the slot is free, whatever else it has.
#[derive(Clone, Copy, Debug)]
pub struct NameSlot {
    /// The id of the tree.
    pub tree: u64,
    /// The number of the inode.
    pub ino: u64,
    /// The number of the directory.
    pub dir: u64,
    /// The index of the name in the directory. It counts for the link alone.
    pub index: u64,
    /// The bytes of the name, and others behind them.
    pub name: [u8; 41],
    /// How many bytes the name has.
    pub size: u8,
    /// The type that the directory says, as directory entries number the types. It counts for the name and for the
    /// entries that lead to the inode.
    pub sort: u8,
    /// The entries of the name by its hash.
    pub hashed: u8,
    /// The entries of the name by its index.
    pub indexed: u8,
    /// The links that the directory has.
    pub listed: u8,
    /// The links that the inode has.
    pub linked: u8,
    /// The entries that lead to the inode.
    pub led: u8,
}

/// So many entries that lead to an inode and say its type.
#[derive(Clone, Copy, Debug)]
pub struct Led {
    /// The id of the tree.
    pub tree: u64,
    /// The number of the inode.
    pub ino: u64,
    /// The type, as directory entries number the types.
    pub sort: u8,
    /// How many entries.
    pub count: u8,
}

impl NameSlot {
    // A slot without sums.
    pub fn free() -> NameSlot
        ensures { IsFree result }
    {
        NameSlot {
            tree: 0,
            ino: 0,
            dir: 0,
            index: 0,
            name: [0; 41],
            size: 0,
            sort: 0,
            hashed: 0,
            indexed: 0,
            listed: 0,
            linked: 0,
            led: 0,
        }
    }

    // Whether all sums are zero.
    pub fn is_free(&self) -> bool
        ensures { result ≡ true → IsFree self.now }
    {
        self.agrees() && self.led == 0
    }

    // Whether all is said of the name and of the link that was to be said.
    fn agrees(&self) -> bool
        ensures { result ≡ true → Agrees self.now }
    {
        self.hashed == 0 && self.indexed == 0 && self.listed == 0 && self.linked == 0
    }

    // The bytes of the name.
    pub fn name(&self) -> &[u8]
        ensures { result.now ≡ name_of self.now }
    {
        match self.name.get(..usize::from(self.size)) {
            Some(name) => name,
            None => &self.name,
        }
    }

    // Adds an entry of a directory in the item with this key, or gives `false` where the slot is of another name or
    // full, or the entry leads to no inode.
    pub fn add_entry(&mut self, tree: u64, key: Key, entry: &DirEntry<'_>) -> bool
        ensures { KeepsUp (slot_sums self.old) (slot_sums self.new)
            (if result then dir_entry_postings tree key (entry_fields entry.now)
            ++ target_postings tree (entry_fields entry.now) else []) }
    {
        if key.kind == DIR_ITEM {
            self.add_by_hash(tree, key.objectid, entry)
        } else {
            self.add_by_index(tree, key.objectid, key.offset, entry)
        }
    }

    // Adds an entry by its hash.
    fn add_by_hash(&mut self, tree: u64, dir: u64, entry: &DirEntry<'_>) -> bool
        ensures { KeepsUp (slot_sums self.old) (slot_sums self.new)
            (if result then hashed_postings tree dir (entry_fields entry.now)
            ++ target_postings tree (entry_fields entry.now) else []) }
    {
        if !self.claim_entry(tree, dir, entry) {
            return false;
        }
        self.more_hashed()
    }

    // Adds an entry by its index.
    fn add_by_index(&mut self, tree: u64, dir: u64, index: u64, entry: &DirEntry<'_>) -> bool
        ensures { KeepsUp (slot_sums self.old) (slot_sums self.new)
            (if result then indexed_postings tree dir index (entry_fields entry.now)
            ++ target_postings tree (entry_fields entry.now) else []) }
    {
        if !self.claim_entry(tree, dir, entry) {
            return false;
        }
        if !self.claim_index(index) {
            return false;
        }
        self.more_indexed()
    }

    // Adds a name of an inode, or gives `false` where the slot is of another or full.
    pub fn add_link(&mut self, tree: u64, ino: u64, name: &NameAt<'_>) -> bool
        ensures { KeepsUp (slot_sums self.old) (slot_sums self.new)
            (if result then link_postings tree ino (name_fields name.now) else []) }
    {
        if !self.claim(tree, ino, name.parent, name.name) {
            return false;
        }
        if !self.claim_index(name.index) {
            return false;
        }
        self.more_linked()
    }

    // Makes the slot one of an entry's name, if it is free or is so already.
    fn claim_entry(&mut self, tree: u64, dir: u64, entry: &DirEntry<'_>) -> bool
        ensures same { AreSame (slot_sums self.old) (slot_sums self.new) }
        ensures kind { result ≡ true → entry.now.location.kind ≡ INODE_ITEM }
        ensures at { result ≡ true →
            IsAt self.new tree entry.now.location.objectid dir entry.now.name.now }
        ensures sort { result ≡ true → self.new.sort ≡ entry.now.sort }
    {
        if entry.location.kind != INODE_ITEM {
            return false;
        }
        if !self.claim(tree, entry.location.objectid, dir, entry.name) {
            return false;
        }
        self.claim_sort(entry.sort)
    }

    // Makes the slot one of a name, if it is free or is so already.
    fn claim(&mut self, tree: u64, ino: u64, dir: u64, name: &[u8]) -> bool
        ensures same { AreSame (slot_sums self.old) (slot_sums self.new) }
        ensures at { result ≡ true → IsAt self.new tree ino dir name.now }
    {
        if self.is_free() {
            self.fill(tree, ino, dir, name)
        } else {
            self.is_at(tree, ino, dir, name)
        }
    }

    // Whether the slot is one of a name.
    pub fn is_at(&self, tree: u64, ino: u64, dir: u64, name: &[u8]) -> bool
        ensures { result ≡ true → IsAt self.now tree ino dir name.now }
    {
        self.ino == ino && self.dir == dir && self.tree == tree && self.name() == name
    }

    // Makes the slot one of a name, unless that is too long.
    fn fill(&mut self, tree: u64, ino: u64, dir: u64, name: &[u8]) -> bool
        ensures sums { HasSums self.old self.new }
        ensures at { result ≡ true → IsAt self.new tree ino dir name.now }
    {
        let size = name.len();
        if size > NAME_SIZE {
            return false;
        }
        self.name[..size].copy_from_slice(name);
        self.size = size as u8;
        self.tree = tree;
        self.ino = ino;
        self.dir = dir;
        true
    }

    // Makes the name one of a type, if it has no sums and none leads to the inode, or it is so already.
    fn claim_sort(&mut self, sort: u8) -> bool
        ensures same { AreSame (slot_sums self.old) (slot_sums self.new) }
        ensures at { IsAt self.new self.old.tree self.old.ino self.old.dir (name_of self.old) }
        ensures sort { result ≡ true → self.new.sort ≡ sort }
    {
        if self.hashed == 0 && self.indexed == 0 && self.led == 0 {
            self.sort = sort;
            return true;
        }
        self.sort == sort
    }

    // Makes the link one by an index, if it has no sums or is so already.
    fn claim_index(&mut self, index: u64) -> bool
        ensures same { AreSame (slot_sums self.old) (slot_sums self.new) }
        ensures at { IsAt self.new self.old.tree self.old.ino self.old.dir (name_of self.old) }
        ensures sort { self.new.sort ≡ self.old.sort }
        ensures index { result ≡ true → self.new.index ≡ index }
    {
        if self.listed == 0 && self.linked == 0 {
            self.index = index;
            return true;
        }
        self.index == index
    }

    // Adds an entry by its hash, or gives `false` where a sum would pass 255.
    fn more_hashed(&mut self) -> bool
        ensures { KeepsUp (slot_sums self.old) (slot_sums self.new)
            (if result then to (entry_of self.old) ENTRIES_BY_HASH 1
            ∷ leads self.old.tree self.old.ino self.old.sort 1 else []) }
    {
        let Some(led) = self.led.checked_add(1) else {
            return false;
        };
        let Some((hashed, indexed)) = more(self.hashed, self.indexed) else {
            return false;
        };
        self.hashed = hashed;
        self.indexed = indexed;
        self.led = led;
        true
    }

    // Adds an entry by its index and the link that it is, or gives `false` where a sum would pass 255.
    fn more_indexed(&mut self) -> bool
        ensures { KeepsUp (slot_sums self.old) (slot_sums self.new)
            (if result then to (entry_of self.old) ENTRIES_BY_INDEX 1
            ∷ to (link_of self.old) LINK_ENTRIES 1
            ∷ leads self.old.tree self.old.ino self.old.sort 1 else []) }
    {
        let Some(led) = self.led.checked_add(1) else {
            return false;
        };
        let Some((indexed, hashed)) = more(self.indexed, self.hashed) else {
            return false;
        };
        let Some((listed, linked)) = more(self.listed, self.linked) else {
            return false;
        };
        self.hashed = hashed;
        self.indexed = indexed;
        self.led = led;
        self.listed = listed;
        self.linked = linked;
        true
    }

    // Adds a link of the inode, or gives `false` where the sum would pass 255.
    fn more_linked(&mut self) -> bool
        ensures { KeepsUp (slot_sums self.old) (slot_sums self.new)
            (if result then to (link_of self.old) LINK_NAMES 1 ∷ [] else []) }
    {
        let Some((linked, listed)) = more(self.linked, self.listed) else {
            return false;
        };
        self.listed = listed;
        self.linked = linked;
        true
    }

    // Takes out the entries that lead to the inode, once all else is said.
    pub fn take_led(&mut self) -> Led
        ensures { KeepsBut (slot_sums self.old) (slot_sums self.new) (led_in result) [] }
    {
        let mut led = Led {
            tree: self.tree,
            ino: self.ino,
            sort: self.sort,
            count: 0,
        };
        if self.agrees() {
            led.count = self.led;
            self.led = 0;
        }
        led
    }
}

// A sum with one more and another, what is common to both taken from both; or `None` where it would pass 255.
fn more(sum: u8, other: u8) -> Option<(u8, u8)>
    ensures { IfSome result (λ now. now.0 + other ≡ (sum + 1) + now.1) }
{
    if other > 0 {
        return Some((sum, other - 1));
    }
    Some((sum.checked_add(1)?, other))
}

// Posts the sums of a slot.
pub fn post_slot(alloc: Global, slot: &NameSlot, into: &mut Postings) -> Result<(), NoMemory>
    ensures { OnOk result (into.new ≡ into.old ++ slot_postings slot.now) }
{
    let (tree, ino, dir, sort) = (slot.tree, slot.ino, slot.dir, slot.sort);
    let name = slot.name();
    let hash = name_hash(name);
    let location = Key {
        objectid: ino,
        kind: INODE_ITEM,
        offset: 0,
    };
    into.push_all([
        Posting::to(
            Account::name_entry(alloc, tree, dir, hash, location, name, sort)?,
            ENTRIES_BY_HASH,
            u64::from(slot.hashed),
        ),
        Posting::to(
            Account::name_entry(alloc, tree, dir, hash, location, name, sort)?,
            ENTRIES_BY_INDEX,
            u64::from(slot.indexed),
        ),
        Posting::to(
            Account::link(alloc, tree, ino, dir, slot.index, name)?,
            LINK_ENTRIES,
            u64::from(slot.listed),
        ),
        Posting::to(
            Account::link(alloc, tree, ino, dir, slot.index, name)?,
            LINK_NAMES,
            u64::from(slot.linked),
        ),
        Posting::to(
            Account::inode(alloc, tree, ino),
            INODE_OTHERS,
            u64::from(slot.led),
        ),
        Posting::to(
            Account::inode_type(alloc, tree, ino, sort),
            TYPE_ENTRIES,
            u64::from(slot.led),
        ),
    ])
}
