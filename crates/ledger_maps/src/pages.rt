//! The sums of inodes and of the types of regular files, those of eight inodes to a page.

ghost use Rattle.std.specs.Prelude.{◌≡◌, ◌+◌, ◌<◌, ◌≤◌, IsTrue, false, None, IfSome, IfOk, OnOk, OnErr};
ghost use Rattle.std.specs.Option.{option_copied};
ghost use Rattle.indexmap.specs.IndexMap.{index_map_len};
ghost use Rattle.ledger_keys.specs.declared.seat.Seat.{Seat as ASeat};
ghost use Rattle.ledger_keys.specs.Sums.{greatest, lower, raise};
ghost use Rattle.ledger_keys.specs.Kept.{sums_at};
ghost use Rattle.ledger_maps.specs.Entries.{Changes, StandsAt, Stays, by_key};
ghost use Rattle.ledger_maps.specs.Pages.{StandIn, seats_in};
ghost use Rattle.ledger_keys.specs.Seat.{is_same_page, is_same_seat};

use crate::page::Page;
use indexmap::IndexMap;
use indexmap::map::Entry;
use ledger_keys::{HINTS, Hint, Kept, PageKey, Seat, Seeded, bits_of, hint_of, slot_of};
use recon_disk::Steps;
use std::alloc::Global;
use verdict::NoMemory;

/// The sums of accounts that have seats. A page stands where the sums of one of its accounts are not all zero.
#[derive(Drop)]
pub struct Pages {
    map: IndexMap<PageKey, Page, Seeded>,
    // Where pages stood that were last found, each at the slot of its key. Nothing rests on it.
    near: [Hint; HINTS],
    ghost stand: { StandIn map },
}

impl Pages {
    /// No sums. They take their memory from this allocator, and none yet.
    pub fn new(alloc: Global) -> Pages
        ensures none { (seat : ASeat) → seats_in result.map seat ≡ None }
        ensures empty { index_map_len result.map ≡ 0 }
    {
        Pages {
            map: IndexMap::with_hasher(alloc, Seeded::of(&[0; 16])),
            near: [Hint { at: 0, bits: 0 }; HINTS],
        }
    }

    /// The pages by their keys, in any order.
    pub fn map(&self) -> &IndexMap<PageKey, Page, Seeded>
        ensures { result.now ≡ self.now.map }
    {
        &self.map
    }

    /// What is kept of the account of a seat, if its page stands.
    pub fn kept(&self, seat: &Seat) -> Option<&Kept>
        ensures { option_copied result ≡ seats_in self.now.map seat.now }
    {
        let page = match self.hinted(&seat.page, seat.page.mixed()) {
            Some(at) => page_at(&self.map, at, &seat.page),
            None => self.map.get(&seat.page),
        }?;
        page.kept(seat.slot)
    }

    /// Adds an amount to a sum of the account of a seat, or as much of it as there is room for in 128 bits, and tells
    /// whether the sum stands at the greatest number of 128 bits then. Out of memory, all sums stay.
    pub fn add<L>(
        &mut self,
        alloc: Global,
        seat: &Seat,
        field: u8,
        amount: u64,
        steps: &Steps<L>,
    ) -> Result<bool, NoMemory>
        requires within { seat.now.slot < 16 }
        requires named { field < 9 }
        requires more { 0 < amount }
        ensures ok { OnOk result (Changes is_same_seat raise (seats_in self.old.map)
            (seats_in self.new.map) seat.now field amount) }
        ensures full { IfOk result (λ full. full ≡ false →
            sums_at (seats_in self.new.map seat.now) field < greatest) }
        ensures err { OnErr result (Stays (seats_in self.old.map) (seats_in self.new.map)) }
        ensures few { index_map_len self.new.map ≤ index_map_len self.old.map + 1 }
    {
        let mixed = seat.page.mixed();
        if let Some(at) = self.hinted(&seat.page, mixed) {
            return self.add_at(alloc, at, seat, field, amount);
        }
        self.seed(alloc, &steps.seed());
        self.add_by_hash(alloc, seat, mixed, field, amount)
    }

    // Adds as `add` does, to an account whose page stands at this index.
    fn add_at(
        &mut self,
        alloc: Global,
        at: usize,
        seat: &Seat,
        field: u8,
        amount: u64,
    ) -> Result<bool, NoMemory>
        requires there { StandsAt is_same_page self.old.map at seat.now.page }
        requires within { seat.now.slot < 16 }
        requires named { field < 9 }
        requires more { 0 < amount }
        ensures ok { OnOk result (Changes is_same_seat raise (seats_in self.old.map)
            (seats_in self.new.map) seat.now field amount) }
        ensures full { IfOk result (λ full. full ≡ false →
            sums_at (seats_in self.new.map seat.now) field < greatest) }
        ensures err { OnErr result (Stays (seats_in self.old.map) (seats_in self.new.map)) }
        ensures few { index_map_len self.new.map ≡ index_map_len self.old.map }
    {
        let page = self.map.get_index_mut(at).unwrap();
        page.raise(alloc, seat.slot, field, amount)
    }

    // Adds as `add` does, and finds the page by its hash, which is computed once.
    #[inline(never)]
    fn add_by_hash(
        &mut self,
        alloc: Global,
        seat: &Seat,
        mixed: u64,
        field: u8,
        amount: u64,
    ) -> Result<bool, NoMemory>
        requires within { seat.now.slot < 16 }
        requires named { field < 9 }
        requires more { 0 < amount }
        ensures ok { OnOk result (Changes is_same_seat raise (seats_in self.old.map)
            (seats_in self.new.map) seat.now field amount) }
        ensures full { IfOk result (λ full. full ≡ false →
            sums_at (seats_in self.new.map seat.now) field < greatest) }
        ensures err { OnErr result (Stays (seats_in self.old.map) (seats_in self.new.map)) }
        ensures few { index_map_len self.new.map ≤ index_map_len self.old.map + 1 }
    {
        let (full, at) = add_to(&mut self.map, alloc, seat, field, amount)?;
        self.near[slot_of(mixed)] = hint_of(mixed, at);
        Ok(full)
    }

    // Pages are found by a hash with this seed from now on, where none stands yet.
    fn seed(&mut self, alloc: Global, seed: &[u8; 16])
        ensures same { (seat : ASeat) → seats_in self.new.map seat ≡ seats_in self.old.map seat }
        ensures count { index_map_len self.new.map ≡ index_map_len self.old.map }
    {
        if self.map.is_empty() {
            self.map = IndexMap::with_hasher(alloc, Seeded::of(seed));
        }
    }

    /// Takes an amount from a sum of the account of a seat, or all of it where it is less.
    pub fn take(&mut self, seat: &Seat, field: u8, amount: u64)
        requires within { seat.now.slot < 16 }
        requires named { field < 9 }
        ensures { Changes is_same_seat lower (seats_in self.old.map)
            (seats_in self.new.map) seat.now field amount }
    {
        if let Some(at) = self.index_of(&seat.page) {
            take_from(&mut self.map, at, seat, field, amount);
        }
    }

    // Where a page stands, or `None` where it does not.
    fn index_of(&mut self, page: &PageKey) -> Option<usize>
        ensures map { self.new.map ≡ self.old.map }
        ensures found { IfSome result (λ i. StandsAt is_same_page self.old.map i page.now) }
        ensures none { result ≡ None → by_key is_same_page self.old.map page.now ≡ None }
    {
        let mixed = page.mixed();
        if let Some(at) = self.hinted(page, mixed) {
            return Some(at);
        }
        let at = find_in(&self.map, page)?;
        self.near[slot_of(mixed)] = hint_of(mixed, at);
        Some(at)
    }

    // Where a page stands, if it is the one that was last found for a page of the same slot.
    fn hinted(&self, page: &PageKey, mixed: u64) -> Option<usize>
        ensures { IfSome result (λ i. StandsAt is_same_page self.now.map i page.now) }
    {
        let hint = self.near[slot_of(mixed)];
        if hint.bits == bits_of(mixed) && is_at(&self.map, hint.at as usize, page) {
            return Some(hint.at as usize);
        }
        None
    }
}

// The page with this key, which stands at an index.
fn page_at<'a>(
    map: &'a IndexMap<PageKey, Page, Seeded>,
    at: usize,
    key: &PageKey,
) -> Option<&'a Page>
    requires { StandsAt is_same_page map.now at key.now }
    ensures { option_copied result ≡ by_key is_same_page map.now key.now }
{
    let (_, page) = map.get_index(at)?;
    Some(page)
}

// Whether the page with this key stands at an index.
#[tactic(auto, using(ledger_keys::specs::SeatLaws::same_page))]
fn is_at(map: &IndexMap<PageKey, Page, Seeded>, at: usize, key: &PageKey) -> bool
    ensures { IsTrue result → StandsAt is_same_page map.now at key.now }
{
    match map.get_index(at) {
        Some((there, _)) => *there == *key,
        None => false,
    }
}

// Where the page with this key stands, or `None` where it does not.
fn find_in(map: &IndexMap<PageKey, Page, Seeded>, key: &PageKey) -> Option<usize>
    ensures found { IfSome result (λ i. StandsAt is_same_page map.now i key.now) }
    ensures none { result ≡ None → by_key is_same_page map.now key.now ≡ None }
{
    let (at, _, _) = map.get_full(key)?;
    Some(at)
}

// Adds as `Pages::add` does, and tells where the page stands too.
fn add_to(
    map: &mut IndexMap<PageKey, Page, Seeded>,
    alloc: Global,
    seat: &Seat,
    field: u8,
    amount: u64,
) -> Result<(bool, usize), NoMemory>
    requires within { seat.now.slot < 16 }
    requires named { field < 9 }
    requires more { 0 < amount }
    ensures ok { OnOk result (Changes is_same_seat raise (seats_in map.old)
        (seats_in map.new) seat.now field amount) }
    ensures full { IfOk result (λ made. made.0 ≡ false →
        sums_at (seats_in map.new seat.now) field < greatest) }
    ensures err { OnErr result (Stays (seats_in map.old) (seats_in map.new)) }
    ensures stand { StandIn map.old → StandIn map.new }
    ensures few { index_map_len map.new ≤ index_map_len map.old + 1 }
{
    match map.entry(seat.page)? {
        Entry::Occupied(entry) => {
            let at = entry.index();
            let full = entry.into_mut().raise(alloc, seat.slot, field, amount)?;
            Ok((full, at))
        }
        Entry::Vacant(entry) => match Page::one(alloc, seat.slot, field, amount) {
            Ok(page) => {
                let at = entry.index();
                entry.insert(page);
                Ok((false, at))
            }
            Err(_) => {
                entry.into_key();
                Err(NoMemory)
            }
        },
    }
}

// Takes as `Pages::take` does, from a page that stands at an index.
fn take_from(
    map: &mut IndexMap<PageKey, Page, Seeded>,
    at: usize,
    seat: &Seat,
    field: u8,
    amount: u64,
)
    requires there { StandsAt is_same_page map.old at seat.now.page }
    requires within { seat.now.slot < 16 }
    requires named { field < 9 }
    ensures changes { Changes is_same_seat lower (seats_in map.old)
        (seats_in map.new) seat.now field amount }
    ensures stand { StandIn map.old → StandIn map.new }
{
    let page = map.get_index_mut(at).unwrap();
    page.lower(seat.slot, field, amount);
    if page.is_zero() {
        map.swap_remove_index(at);
    }
}
