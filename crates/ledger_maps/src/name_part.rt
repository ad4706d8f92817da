//! A part of a table of names: the sums of their accounts, the two of a name in one entry.

ghost use Rattle.std.specs.Prelude.{◌≡◌, ◌+◌, ◌<◌, ◌≤◌, false, None, IfOk, OnErr};
ghost use Rattle.indexmap.specs.IndexMap.{index_map_len};
ghost use Rattle.ledger_keys.specs.declared.long_place.LongPlace.{LongPlace as ALongPlace};
ghost use Rattle.ledger_maps.specs.Entries.{StandsAt, by_key};
ghost use Rattle.ledger_keys.specs.LongPlace.{is_same_long};
ghost use Rattle.ledger_keys.specs.Name.{is_same_name};
ghost use Rattle.ledger_maps.specs.Names.{CountedOf, names_of};
ghost use Rattle.ledger_keys.specs.Shifts.{Posted, Rests, Shifts};
ghost use Rattle.ledger_keys.specs.Side.{has_sums};
ghost use Rattle.ledger_keys.specs.Sums.{lower};

use indexmap::IndexMap;
use indexmap::map::Entry;
use ledger_keys::{Kept, LongPlace, Name, Seeded};
use std::alloc::Global;
use verdict::NoMemory;

/// Adds an amount to one of the two sums of an account of the name whose entry stands at an index, or as much of it as there is room
/// for in 128 bits, and tells whether the sum stands at the greatest number of 128 bits then. `None` where another account has its
/// side of the name, or it has no sums and none may begin: all sums stay, also out of memory.
pub fn post_at(
    map: &mut IndexMap<LongPlace, Kept, Seeded>,
    alloc: Global,
    at: usize,
    name: &Name,
    field: u8,
    amount: u64,
    may_begin: bool,
) -> Result<Option<bool>, NoMemory>
    requires there { StandsAt is_same_long map.old at name.now.place }
    requires named { field < 2 }
    ensures ok { IfOk result (Posted is_same_name may_begin name.now field amount
        (names_of map.old) (names_of map.new)) }
    ensures err { OnErr result (Rests (names_of map.old) (names_of map.new)) }
    ensures others { (q : ALongPlace) → is_same_long name.now.place q ≡ false →
        by_key is_same_long map.new q ≡ by_key is_same_long map.old q }
    ensures counted { CountedOf map.old → CountedOf map.new }
    ensures few { index_map_len map.new ≡ index_map_len map.old }
{
    let kept = map.get_index_mut(at).unwrap();
    kept.post(alloc, name.side, field, amount, may_begin)
}

/// Adds as `post_at` does, finds the entry by its hash, which is computed once, and tells where it stands, if there is one.
pub fn post_to(
    map: &mut IndexMap<LongPlace, Kept, Seeded>,
    alloc: Global,
    name: &Name,
    field: u8,
    amount: u64,
    may_begin: bool,
) -> Result<(Option<bool>, usize), NoMemory>
    requires named { field < 2 }
    requires more { 0 < amount }
    ensures ok { IfOk result (λ made. Posted is_same_name may_begin name.now field amount
        (names_of map.old) (names_of map.new) made.0) }
    ensures none { IfOk result (λ made. made.0 ≡ None →
        index_map_len map.new ≤ index_map_len map.old) }
    ensures err { OnErr result (Rests (names_of map.old) (names_of map.new)) }
    ensures others { (q : ALongPlace) → is_same_long name.now.place q ≡ false →
        by_key is_same_long map.new q ≡ by_key is_same_long map.old q }
    ensures counted { CountedOf map.old → CountedOf map.new }
    ensures few { index_map_len map.new ≤ index_map_len map.old + 1 }
{
    match map.entry(name.place)? {
        Entry::Occupied(entry) => {
            let at = entry.index();
            let kept = entry.into_mut();
            let full = kept.post(alloc, name.side, field, amount, may_begin)?;
            Ok((full, at))
        }
        Entry::Vacant(entry) => {
            let mut kept = Kept::no_name();
            match kept.post(alloc, name.side, field, amount, may_begin) {
                Ok(Some(full)) => {
                    let at = entry.index();
                    entry.insert(kept);
                    Ok((Some(full), at))
                }
                Ok(None) => {
                    entry.into_key();
                    Ok((None, 0))
                }
                Err(_) => {
                    entry.into_key();
                    Err(NoMemory)
                }
            }
        }
    }
}

/// Takes an amount from one of the two sums of an account whose entry stands at an index, or all of it where it is less, and tells
/// whether it had sums.
pub fn take_from(
    map: &mut IndexMap<LongPlace, Kept, Seeded>,
    at: usize,
    name: &Name,
    field: u8,
    amount: u64,
) -> bool
    requires there { StandsAt is_same_long map.old at name.now.place }
    requires named { field < 2 }
    ensures had { result ≡ has_sums (names_of map.old name.now) }
    ensures less { Shifts is_same_name lower (names_of map.old) (names_of map.new)
        name.now field amount }
    ensures others { (q : ALongPlace) → is_same_long name.now.place q ≡ false →
        by_key is_same_long map.new q ≡ by_key is_same_long map.old q }
    ensures counted { CountedOf map.old → CountedOf map.new }
{
    let kept = map.get_index_mut(at).unwrap();
    let had = kept.lower_side(name.side, field, amount);
    if !kept.is_counted() {
        map.swap_remove_index(at);
    }
    had
}
