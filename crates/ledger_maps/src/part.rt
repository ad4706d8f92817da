//! A part of a table: the sums of accounts under keys, in one map.

ghost use Rattle.std.specs.Prelude.{◌≡◌, ◌+◌, ◌<◌, ◌≤◌, IsTrue, false, None, IfSome, IfOk, OnOk, OnErr};
ghost use Rattle.std.specs.Option.{option_copied};
ghost use Rattle.indexmap.specs.IndexMap.{index_map_len};
ghost use Rattle.ledger_keys.specs.Sums.{greatest, lower, raise};
ghost use Rattle.ledger_keys.specs.Kept.{sums_at};
ghost use Rattle.ledger_maps.specs.Entries.{AreTidy, Changes, StandsAt, Stays, by_key};

use indexmap::IndexMap;
use indexmap::map::Entry;
use ledger_keys::{Exact, Kept, Seeded};
use std::alloc::Global;
use verdict::NoMemory;

/// What is kept under a key, by its entry, which stands at an index.
pub fn kept_at<'a, K: Exact>(
    part: &'a IndexMap<K, Kept, Seeded>,
    at: usize,
    key: &K,
) -> Option<&'a Kept>
    requires { StandsAt K.eq part.now at key.now }
    ensures { option_copied result ≡ by_key K.eq part.now key.now }
{
    let (_, kept) = part.get_index(at)?;
    Some(kept)
}

/// Whether the entry at an index is that of a key.
pub fn is_at<K: Exact>(part: &IndexMap<K, Kept, Seeded>, at: usize, key: &K) -> bool
    ensures { IsTrue result → StandsAt K.eq part.now at key.now }
{
    match part.get_index(at) {
        Some((there, _)) => *there == *key,
        None => false,
    }
}

/// Where the entry of a key stands, or `None` where it has none.
pub fn find_in<K: Exact>(part: &IndexMap<K, Kept, Seeded>, key: &K) -> Option<usize>
    ensures found { IfSome result (λ i. StandsAt K.eq part.now i key.now) }
    ensures none { result ≡ None → by_key K.eq part.now key.now ≡ None }
{
    let (at, _, _) = part.get_full(key)?;
    Some(at)
}

/// Adds an amount to a sum of the account whose entry stands at an index, or as much of it as there is room for in 128 bits,
/// and tells whether the sum stands at the greatest number of 128 bits then. Out of memory, all sums stay.
pub fn add_at<K: Exact>(
    part: &mut IndexMap<K, Kept, Seeded>,
    alloc: Global,
    at: usize,
    key: &K,
    field: u8,
    amount: u64,
) -> Result<bool, NoMemory>
    requires there { StandsAt K.eq part.old at key.now }
    requires named { field < 9 }
    requires more { 0 < amount }
    ensures ok { OnOk result (Changes K.eq raise (by_key K.eq part.old)
        (by_key K.eq part.new) key.now field amount) }
    ensures full { IfOk result (λ full. full ≡ false →
        sums_at (by_key K.eq part.new key.now) field < greatest) }
    ensures err { OnErr result (Stays (by_key K.eq part.old) (by_key K.eq part.new)) }
    ensures tidy { AreTidy (by_key K.eq part.old) → AreTidy (by_key K.eq part.new) }
    ensures few { index_map_len part.new ≤ index_map_len part.old + 1 }
{
    let kept = part.get_index_mut(at).unwrap();
    kept.raise(alloc, field, amount)
}

/// Adds as `add_at` does, and finds the account by its hash, which is computed once. It tells where the entry stands too.
pub fn add_by_hash<K: Exact>(
    part: &mut IndexMap<K, Kept, Seeded>,
    alloc: Global,
    key: &K,
    field: u8,
    amount: u64,
) -> Result<(bool, usize), NoMemory>
    requires named { field < 9 }
    requires more { 0 < amount }
    ensures ok { OnOk result (Changes K.eq raise (by_key K.eq part.old)
        (by_key K.eq part.new) key.now field amount) }
    ensures full { IfOk result (λ made. made.0 ≡ false →
        sums_at (by_key K.eq part.new key.now) field < greatest) }
    ensures err { OnErr result (Stays (by_key K.eq part.old) (by_key K.eq part.new)) }
    ensures tidy { AreTidy (by_key K.eq part.old) → AreTidy (by_key K.eq part.new) }
    ensures few { index_map_len part.new ≤ index_map_len part.old + 1 }
{
    match part.entry(*key)? {
        Entry::Occupied(entry) => {
            let at = entry.index();
            let full = entry.into_mut().raise(alloc, field, amount)?;
            Ok((full, at))
        }
        Entry::Vacant(entry) => match Kept::one(alloc, field, amount) {
            Ok(kept) => {
                let at = entry.index();
                entry.insert(kept);
                Ok((false, at))
            }
            Err(_) => {
                entry.into_key();
                Err(NoMemory)
            }
        },
    }
}

/// Takes an amount from a sum of the account whose entry stands at an index, or all of it where it is less.
pub fn take_at<K: Exact>(
    part: &mut IndexMap<K, Kept, Seeded>,
    at: usize,
    key: &K,
    field: u8,
    amount: u64,
)
    requires there { StandsAt K.eq part.old at key.now }
    requires named { field < 9 }
    ensures changes { Changes K.eq lower (by_key K.eq part.old) (by_key K.eq part.new)
        key.now field amount }
    ensures tidy { AreTidy (by_key K.eq part.old) → AreTidy (by_key K.eq part.new) }
{
    let kept = part.get_index_mut(at).unwrap();
    kept.lower(field, amount);
    if kept.is_zero() {
        part.swap_remove_index(at);
    }
}
