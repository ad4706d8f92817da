//! Where the slots of names may be.

ghost use Rattle.std.specs.Prelude.{OnOk};
ghost use Rattle.name_tally.specs.Names.{slots_sums};
ghost use Rattle.name_tally.specs.Slots.{AreSame};

use crate::slot::NameSlot;
use std::alloc::Global;
use verdict::NoMemory;

/// Where the slots of names may be. Nothing rests on it: each slot is looked at before it is used.
#[derive(Debug, Drop)]
pub struct NameIndex {
    // 0, or bits of a name's hash above a place among the slots, counted from 1.
    entries: Vec<u32>,
    // The places of slots without sums.
    free: Vec<u32>,
    // How many entries there are.
    used: usize,
}

/// The place of a slot and of its entry in the index.
#[derive(Clone, Copy, Debug)]
pub struct Spot {
    /// The place among the entries.
    pub entry: usize,
    /// The place among the slots.
    pub place: usize,
}

// How many entries a name may have: 64 bytes of them.
const GROUP: usize = 16;

// How many entries there are at first.
const FIRST_ENTRIES: usize = 1024;

// How many slots there are at most.
const MOST_SLOTS: usize = 16_777_214;

// The bits of an entry that have the place.
const PLACE_BITS: u32 = 0xff_ffff;

/// A number for a name of an inode in a directory. Those of inodes that are numbered one after the other are far apart.
pub fn hash_of(tree: u64, ino: u64, dir: u64) -> u64 {
    let mixed = ino ^ dir.rotate_left(32) ^ tree.wrapping_mul(0x9e37_79b9_7f4a_7c15);
    let hash = mixed.wrapping_mul(0xff51_afd7_ed55_8ccd);
    (hash ^ hash >> 32).wrapping_mul(0xc4ce_b9fe_1a85_ec53)
}

impl NameIndex {
    /// An index without entries.
    pub fn new(alloc: Global) -> NameIndex {
        NameIndex {
            entries: Vec::new(alloc),
            free: Vec::new(alloc),
            used: 0,
        }
    }

    /// Where the slot of a name is, by the name's hash.
    pub fn find(
        &self,
        slots: &[NameSlot],
        hash: u64,
        tree: u64,
        ino: u64,
        dir: u64,
        name: &[u8],
    ) -> Option<Spot> {
        let start = self.start(hash);
        let tag = tag_of(hash);
        let group = self.entries.get(start..start.wrapping_add(GROUP))?;
        for (offset, entry) in group.iter().enumerate() {
            if *entry & !PLACE_BITS == tag {
                let place = (*entry & PLACE_BITS) as usize;
                let place = place.wrapping_sub(1);
                if is_used_by(slots, place, tree, ino, dir, name) {
                    let entry = start.wrapping_add(offset);
                    return Some(Spot { entry, place });
                }
            }
        }
        None
    }

    /// A slot for a name that has none, or `None` where there is no room.
    pub fn make(&mut self, slots: &mut Vec<NameSlot>, hash: u64) -> Result<Option<Spot>, NoMemory>
        ensures { OnOk result (AreSame (slots_sums slots.old.items) (slots_sums slots.new.items)) }
    {
        let Some(entry) = self.make_entry(slots, hash)? else {
            return Ok(None);
        };
        let Some(place) = free_place(&mut self.free, slots)? else {
            return Ok(None);
        };
        self.enter(entry, hash, place);
        Ok(Some(Spot { entry, place }))
    }

    /// Lets a slot go if it has no sums.
    pub fn leave_if(&mut self, is_free: bool, spot: Spot) {
        if is_free {
            self.leave(spot);
        }
    }

    // Lets a slot go.
    fn leave(&mut self, spot: Spot) {
        if let Some(entry) = self.entries.get_mut(spot.entry) {
            *entry = 0;
        }
        self.used = self.used.saturating_sub(1);
        let _ = self.free.push((spot.place & 0xff_ffff) as u32);
    }

    // An entry that is not in use, or `None` where there is no room. It makes more of them where too many are.
    fn make_entry(&mut self, slots: &[NameSlot], hash: u64) -> Result<Option<usize>, NoMemory> {
        let empty = self.empty(hash);
        let size = self.entries.len();
        if empty.is_some() || self.used < size / 2 {
            return Ok(empty);
        }
        self.grow(slots, FIRST_ENTRIES.max(size.saturating_mul(2)))?;
        Ok(self.empty(hash))
    }

    // An entry of a name that is not in use.
    fn empty(&self, hash: u64) -> Option<usize> {
        let start = self.start(hash);
        let group = self.entries.get(start..start.wrapping_add(GROUP))?;
        for (offset, entry) in group.iter().enumerate() {
            if *entry == 0 {
                return Some(start.wrapping_add(offset));
            }
        }
        None
    }

    // Where the entries of a name begin.
    fn start(&self, hash: u64) -> usize {
        (hash >> 32) as usize & self.entries.len().wrapping_sub(1) & !(GROUP - 1)
    }

    // Puts a place in an entry.
    fn enter(&mut self, entry: usize, hash: u64, place: usize) {
        if let Some(entry) = self.entries.get_mut(entry) {
            *entry = tag_of(hash) | (place.wrapping_add(1) & 0xff_ffff) as u32;
        }
        self.used = self.used.saturating_add(1);
    }

    // Makes an index of so many entries for the slots that are in use.
    fn grow(&mut self, slots: &[NameSlot], size: usize) -> Result<(), NoMemory> {
        self.entries.clear();
        self.entries.resize(size, 0)?;
        self.used = 0;
        for (place, slot) in slots.iter().enumerate() {
            if !slot.is_free() {
                self.enter_slot(place, slot);
            }
        }
        Ok(())
    }

    // Enters a slot, if it finds room.
    fn enter_slot(&mut self, place: usize, slot: &NameSlot) {
        let hash = hash_of(slot.tree, slot.ino, slot.dir);
        if let Some(entry) = self.empty(hash) {
            self.enter(entry, hash, place);
        }
    }
}

// The bits of a hash that an entry has.
fn tag_of(hash: u64) -> u32 {
    (hash & 0xff00_0000) as u32
}

// Whether a slot is in use and is one of a name.
fn is_used_by(
    slots: &[NameSlot],
    place: usize,
    tree: u64,
    ino: u64,
    dir: u64,
    name: &[u8],
) -> bool {
    match slots.get(place) {
        Some(slot) => slot.is_at(tree, ino, dir, name) && !slot.is_free(),
        None => false,
    }
}

// The place of a slot without sums, or `None` where there are too many.
fn free_place(free: &mut Vec<u32>, slots: &mut Vec<NameSlot>) -> Result<Option<usize>, NoMemory>
    ensures { OnOk result (AreSame (slots_sums slots.old.items) (slots_sums slots.new.items)) }
{
    if let Some(place) = free.pop() {
        return Ok(Some(place as usize));
    }
    let place = slots.len();
    if place >= MOST_SLOTS {
        return Ok(None);
    }
    slots.push(NameSlot::free())?;
    Ok(Some(place))
}
