//! Sums by short keys.

ghost use Rattle.std.specs.Prelude.{◌≡◌, ◌+◌, ◌<◌, ◌≤◌, false, None, Some, [], IfSome, IfOk, OnOk, OnErr};
ghost use Rattle.std.specs.Option.{option_copied};
ghost use Rattle.ledger_keys.specs.Sums.{greatest, lower, raise};
ghost use Rattle.ledger_keys.specs.Kept.{sums_at};
ghost use Rattle.ledger_keys.specs.LongPlace.{is_same_long, part_of as long_part};
ghost use Rattle.ledger_keys.specs.Link.{name_said, place_said};
ghost use Rattle.ledger_keys.specs.Name.{is_same_name};
ghost use Rattle.ledger_maps.specs.Names.{CountedIn, names_in};
ghost use Rattle.ledger_keys.specs.Place.{is_same_place, part_of as place_part, place_of};
ghost use Rattle.ledger_keys.specs.Shifts.{Posted, Rests, Shifts};
ghost use Rattle.ledger_keys.specs.Side.{has_sums};
ghost use Rattle.ledger_maps.specs.Entries.{AreEmpty, AreFit, Changes, StandsIn, Stays, by_parts, count_in};

use accounts::Account;
use indexmap::IndexMap;
use ledger_keys::{
    Exact, HINTS, Hint, Kept, LINK, Link, LongPlace, Name, Place, Seeded, bits_of, hint_of,
    mixed_of, part_at, slot_of,
};
use ledger_maps::{
    add_at, add_by_hash, find_in, is_at, kept_at, post_at, post_to, take_at, take_from,
};
use std::alloc::Global;
use verdict::NoMemory;

// How many parts there are.
const PARTS: usize = 1024;

/// The sums of accounts that have keys of this type. An entry stands for exactly those whose sums are not all zero.
#[derive(Drop)]
pub(crate) struct Table<K: Exact> {
    // None, or all of them. A walk posts to accounts of inodes and blocks that lie near each other, so what it needs of a large
    // table is in few of its parts, and stays in the caches of the processor.
    parts: Vec<IndexMap<K, Kept, Seeded>>,
    // Where entries stood that were last found, each at the slot of its key. Nothing rests on it.
    near: [Hint; HINTS],
    ghost fit: { AreFit K.eq K.part_of parts.items },
}

impl<K: Exact> Table<K> {
    /// No sums. They take their memory from this allocator.
    pub(crate) fn new(alloc: Global) -> Table<K>
        ensures { result.parts.items ≡ [] }
    {
        Table {
            parts: Vec::new(alloc),
            near: [Hint { at: 0, bits: 0 }; HINTS],
        }
    }

    /// Has parts, whose accounts are found by a hash with this seed, from now on.
    pub(crate) fn seed(&mut self, alloc: Global, seed: &[u8; 16]) -> Result<(), NoMemory>
        ensures same { (key : K) → by_parts K.eq K.part_of self.new.parts.items key
            ≡ by_parts K.eq K.part_of self.old.parts.items key }
        ensures count { count_in self.new.parts.items ≡ count_in self.old.parts.items }
    {
        if self.parts.is_empty() {
            self.parts = parts_of(alloc, seed)?;
        }
        Ok(())
    }

    /// What is kept of an account, if anything is.
    pub(crate) fn kept(&self, key: &K) -> Option<&Kept>
        ensures { option_copied result ≡ by_parts K.eq K.part_of self.now.parts.items key.now }
    {
        let part = self.parts.get(key.part())?;
        match self.hinted(key, key.mixed()) {
            Some(at) => kept_at(part, at, key),
            None => part.get(key),
        }
    }

    /// The parts, each with its entries in any order.
    pub(crate) fn parts(&self) -> &[IndexMap<K, Kept, Seeded>]
        ensures { result.now ≡ self.now.parts.items }
    {
        self.parts.as_slice()
    }

    /// Adds an amount to a sum of an account, or as much of it as there is room for in 128 bits, and tells whether the
    /// sum stands at the greatest number of 128 bits then. Out of memory, also where there are no parts, all sums stay.
    pub(crate) fn add(
        &mut self,
        alloc: Global,
        key: &K,
        field: u8,
        amount: u64,
    ) -> Result<bool, NoMemory>
        requires named { field < 9 }
        requires more { 0 < amount }
        ensures ok { OnOk result (Changes K.eq raise (by_parts K.eq K.part_of self.old.parts.items)
            (by_parts K.eq K.part_of self.new.parts.items) key.now field amount) }
        ensures full { IfOk result (λ full. full ≡ false →
            sums_at (by_parts K.eq K.part_of self.new.parts.items key.now) field < greatest) }
        ensures err { OnErr result (Stays (by_parts K.eq K.part_of self.old.parts.items)
            (by_parts K.eq K.part_of self.new.parts.items)) }
        ensures few { count_in self.new.parts.items ≤ count_in self.old.parts.items + 1 }
    {
        let mixed = key.mixed();
        if let Some(at) = self.hinted(key, mixed) {
            return self.add_at(alloc, key.part(), at, key, field, amount);
        }
        self.add_by_hash(alloc, key, mixed, field, amount)
    }

    /// Adds as `add` does, to an account whose entry stands at this index of the part with this number.
    pub(crate) fn add_at(
        &mut self,
        alloc: Global,
        number: usize,
        at: usize,
        key: &K,
        field: u8,
        amount: u64,
    ) -> Result<bool, NoMemory>
        requires home { number ≡ K.part_of key.now }
        requires there { StandsIn K.eq K.part_of self.old.parts.items at key.now }
        requires named { field < 9 }
        requires more { 0 < amount }
        ensures ok { OnOk result (Changes K.eq raise (by_parts K.eq K.part_of self.old.parts.items)
            (by_parts K.eq K.part_of self.new.parts.items) key.now field amount) }
        ensures full { IfOk result (λ full. full ≡ false →
            sums_at (by_parts K.eq K.part_of self.new.parts.items key.now) field < greatest) }
        ensures err { OnErr result (Stays (by_parts K.eq K.part_of self.old.parts.items)
            (by_parts K.eq K.part_of self.new.parts.items)) }
        ensures few { count_in self.new.parts.items ≤ count_in self.old.parts.items + 1 }
    {
        match self.parts.get_mut(number) {
            Some(part) => add_at(part, alloc, at, key, field, amount),
            None => Err(NoMemory),
        }
    }

    /// Adds as `add` does, and finds the account by its hash, which is computed once.
    #[inline(never)]
    pub(crate) fn add_by_hash(
        &mut self,
        alloc: Global,
        key: &K,
        mixed: u64,
        field: u8,
        amount: u64,
    ) -> Result<bool, NoMemory>
        requires named { field < 9 }
        requires more { 0 < amount }
        ensures ok { OnOk result (Changes K.eq raise (by_parts K.eq K.part_of self.old.parts.items)
            (by_parts K.eq K.part_of self.new.parts.items) key.now field amount) }
        ensures full { IfOk result (λ full. full ≡ false →
            sums_at (by_parts K.eq K.part_of self.new.parts.items key.now) field < greatest) }
        ensures err { OnErr result (Stays (by_parts K.eq K.part_of self.old.parts.items)
            (by_parts K.eq K.part_of self.new.parts.items)) }
        ensures few { count_in self.new.parts.items ≤ count_in self.old.parts.items + 1 }
    {
        match self.parts.get_mut(key.part()) {
            Some(part) => {
                let (full, at) = add_by_hash(part, alloc, key, field, amount)?;
                self.near[slot_of(mixed)] = hint_of(mixed, at);
                Ok(full)
            }
            None => Err(NoMemory),
        }
    }

    /// Takes an amount from a sum of an account, or all of it where it is less.
    pub(crate) fn take(&mut self, key: &K, field: u8, amount: u64)
        requires { field < 9 }
        ensures { Changes K.eq lower (by_parts K.eq K.part_of self.old.parts.items)
            (by_parts K.eq K.part_of self.new.parts.items) key.now field amount }
    {
        let Some(at) = self.index_of(key) else {
            return;
        };
        if let Some(part) = self.parts.get_mut(key.part()) {
            take_at(part, at, key, field, amount);
        }
    }

    // Where the entry of an account stands in its part, or `None` where it has none.
    fn index_of(&mut self, key: &K) -> Option<usize>
        ensures parts { self.new.parts ≡ self.old.parts }
        ensures found { IfSome result
            (λ i. StandsIn K.eq K.part_of self.old.parts.items i key.now) }
        ensures none { result ≡ None →
            by_parts K.eq K.part_of self.old.parts.items key.now ≡ None }
    {
        let mixed = key.mixed();
        if let Some(at) = self.hinted(key, mixed) {
            return Some(at);
        }
        let at = find_in(self.parts.get(key.part())?, key)?;
        self.near[slot_of(mixed)] = hint_of(mixed, at);
        Some(at)
    }

    // Where the entry of an account stands in its part, if it is the one that was last found for an account of the same slot. That one
    // is looked at without a hash, where its bits are those of the account: accounts come again soon, as those of the names in a
    // directory do.
    fn hinted(&self, key: &K, mixed: u64) -> Option<usize>
        ensures { IfSome result (λ i. StandsIn K.eq K.part_of self.now.parts.items i key.now) }
    {
        let hint = self.near[slot_of(mixed)];
        if hint.bits == bits_of(mixed)
            && let Some(part) = self.parts.get(key.part())
            && is_at(part, hint.at as usize, key)
        {
            return Some(hint.at as usize);
        }
        None
    }

    // The entry that was last found for an account of this slot, in the part with this number: its index there, and its key.
    fn seen(&self, number: usize, mixed: u64) -> Option<(usize, &K)>
        ensures { IfSome result (λ p. (number ≡ K.part_of p.1.now)
            × StandsIn K.eq K.part_of self.now.parts.items p.0 p.1.now) }
    {
        let hint = self.near[slot_of(mixed)];
        if hint.bits == bits_of(mixed)
            && let Some(part) = self.parts.get(number)
            && let Some((key, _)) = part.get_index(hint.at as usize)
        {
            return Some((hint.at as usize, key));
        }
        None
    }
}

impl Table<Place> {
    /// Where the entry of an account stands in its part, and its place, if it is the one that was last found for an account of the same
    /// slot. It is looked for in the part with this number. The place is not made of the account: the account is compared with what
    /// stands there.
    pub(crate) fn hinted_of(
        &self,
        account: &Account,
        number: usize,
        mixed: u64,
    ) -> Option<(usize, Place)>
        ensures { IfSome result (λ p. (place_of account.now ≡ Some p.1)
            × (number ≡ place_part p.1)
            × StandsIn is_same_place place_part self.now.parts.items p.0 p.1) }
    {
        let (at, place) = self.seen(number, mixed)?;
        if !place.is_of(account) {
            return None;
        }
        Some((at, *place))
    }
}

impl Table<LongPlace> {
    /// The two sums of an account of a name.
    pub(crate) fn sums(&self, name: &Name) -> (u128, u128)
        ensures first { result.0 ≡ names_in self.now.parts.items name.now 0 }
        ensures second { result.1 ≡ names_in self.now.parts.items name.now 1 }
    {
        match self.kept(&name.place) {
            Some(kept) => kept.sums(name.side),
            None => (0, 0),
        }
    }

    /// The name that a link is of, `None` where it takes more, and where its entry stands in its part, if it is the one that was
    /// last found for a name of the same slot. The place of that one is not made of the link: what the link says is compared with
    /// what stands there.
    pub(crate) fn name_said(&self, link: &Link) -> Option<(Name, Option<usize>)>
        ensures some { IfSome result (λ p. (name_said link.now ≡ Some p.0) × IfSome p.1
            (λ at. StandsIn is_same_long long_part self.now.parts.items at p.0.place)) }
        ensures none { result ≡ None → name_said link.now ≡ None }
    {
        if let Some((at, place)) = self.hinted_said(link) {
            let side = link.side;
            return Some((Name { place, side }, Some(at)));
        }
        match Name::said(link) {
            Some(name) => Some((name, None)),
            None => None,
        }
    }

    // Where the entry of a name stands in its part, and its place, as `name_said` tells them.
    fn hinted_said(&self, link: &Link) -> Option<(usize, LongPlace)>
        ensures { IfSome result (λ p. (place_said link.now ≡ Some p.1)
            × StandsIn is_same_long long_part self.now.parts.items p.0 p.1) }
    {
        let mixed = mixed_of(LINK, link.inode, link.dir);
        let (at, place) = self.seen(part_at(link.inode), mixed)?;
        if !place.is_of(link) {
            return None;
        }
        Some((at, *place))
    }

    /// Adds an amount to one of the two sums of an account of a name, or as much of it as there is room for in 128 bits, and
    /// tells whether the sum stands at the greatest number of 128 bits then. `None` where another account has its side of the
    /// name, or it has no sums and none may begin: all sums stay, also out of memory. The entry of the name stands at this index of
    /// its part, if it is known. The seed is that of the hash by which it is found otherwise, where there are no parts yet.
    pub(crate) fn post(
        &mut self,
        alloc: Global,
        seed: &[u8; 16],
        name: &Name,
        at: Option<usize>,
        field: u8,
        amount: u64,
        may_begin: bool,
    ) -> Result<Option<bool>, NoMemory>
        requires all { CountedIn self.old.parts.items }
        requires there { IfSome at
            (λ at. StandsIn is_same_long long_part self.old.parts.items at name.now.place) }
        requires named { field < 2 }
        requires more { 0 < amount }
        ensures ok { IfOk result (Posted is_same_name may_begin name.now field amount
            (names_in self.old.parts.items) (names_in self.new.parts.items)) }
        ensures none { IfOk result (λ full. full ≡ None →
            count_in self.new.parts.items ≤ count_in self.old.parts.items) }
        ensures err { OnErr result
            (Rests (names_in self.old.parts.items) (names_in self.new.parts.items)) }
        ensures counted { CountedIn self.new.parts.items }
        ensures few { count_in self.new.parts.items ≤ count_in self.old.parts.items + 1 }
    {
        if let Some(at) = at {
            return self.post_at(alloc, at, name, field, amount, may_begin);
        }
        self.seed(alloc, seed)?;
        self.post_by_hash(alloc, name, field, amount, may_begin)
    }

    // Adds as `post` does, to an account of a name whose entry stands at this index of its part.
    fn post_at(
        &mut self,
        alloc: Global,
        at: usize,
        name: &Name,
        field: u8,
        amount: u64,
        may_begin: bool,
    ) -> Result<Option<bool>, NoMemory>
        requires all { CountedIn self.old.parts.items }
        requires there { StandsIn is_same_long long_part self.old.parts.items at name.now.place }
        requires named { field < 2 }
        ensures ok { IfOk result (Posted is_same_name may_begin name.now field amount
            (names_in self.old.parts.items) (names_in self.new.parts.items)) }
        ensures err { OnErr result
            (Rests (names_in self.old.parts.items) (names_in self.new.parts.items)) }
        ensures counted { CountedIn self.new.parts.items }
        ensures few { count_in self.new.parts.items ≤ count_in self.old.parts.items }
    {
        match self.parts.get_mut(name.place.part()) {
            Some(part) => post_at(part, alloc, at, name, field, amount, may_begin),
            None => Err(NoMemory),
        }
    }

    // Adds as `post` does, and finds the entry by its hash, which is computed once.
    #[inline(never)]
    fn post_by_hash(
        &mut self,
        alloc: Global,
        name: &Name,
        field: u8,
        amount: u64,
        may_begin: bool,
    ) -> Result<Option<bool>, NoMemory>
        requires all { CountedIn self.old.parts.items }
        requires named { field < 2 }
        requires more { 0 < amount }
        ensures ok { IfOk result (Posted is_same_name may_begin name.now field amount
            (names_in self.old.parts.items) (names_in self.new.parts.items)) }
        ensures none { IfOk result (λ full. full ≡ None →
            count_in self.new.parts.items ≤ count_in self.old.parts.items) }
        ensures err { OnErr result
            (Rests (names_in self.old.parts.items) (names_in self.new.parts.items)) }
        ensures counted { CountedIn self.new.parts.items }
        ensures few { count_in self.new.parts.items ≤ count_in self.old.parts.items + 1 }
    {
        match self.parts.get_mut(name.place.part()) {
            Some(part) => {
                let (full, at) = post_to(part, alloc, name, field, amount, may_begin)?;
                let mixed = name.place.mixed();
                self.near[slot_of(mixed)] = hint_of(mixed, at);
                Ok(full)
            }
            None => Err(NoMemory),
        }
    }

    /// Takes an amount from one of the two sums of an account of a name, or all of it where it is less, and tells whether it had
    /// sums.
    pub(crate) fn lower(&mut self, name: &Name, field: u8, amount: u64) -> bool
        requires all { CountedIn self.old.parts.items }
        requires named { field < 2 }
        ensures had { result ≡ has_sums (names_in self.old.parts.items name.now) }
        ensures less { Shifts is_same_name lower (names_in self.old.parts.items)
            (names_in self.new.parts.items) name.now field amount }
        ensures counted { CountedIn self.new.parts.items }
    {
        let Some(at) = self.index_of(&name.place) else {
            return false;
        };
        match self.parts.get_mut(name.place.part()) {
            Some(part) => take_from(part, at, name, field, amount),
            None => false,
        }
    }
}

// Parts without entries, whose accounts are found by a hash with this seed.
fn parts_of<K: Exact>(
    alloc: Global,
    seed: &[u8; 16],
) -> Result<Vec<IndexMap<K, Kept, Seeded>>, NoMemory>
    ensures { IfOk result (λ parts. AreEmpty parts.items) }
{
    let mut parts = Vec::new(alloc);
    parts.reserve(PARTS)?;
    for _number in 0..PARTS {
        put_part(&mut parts, IndexMap::with_hasher(alloc, Seeded::of(seed)))?;
    }
    Ok(parts)
}

// Puts a part without entries behind others.
fn put_part<K: Exact>(
    parts: &mut Vec<IndexMap<K, Kept, Seeded>>,
    part: IndexMap<K, Kept, Seeded>,
) -> Result<(), NoMemory>
    ensures { part.entries ≡ [] → AreEmpty parts.old.items →
        OnOk result (AreEmpty parts.new.items) }
{
    Ok(parts.push(part)?)
}
