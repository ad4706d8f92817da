//! The cache of the pending writes.

ghost use Rattle.std.specs.Prelude.{◌≡◌, ℕ, ◌+◌, ◌≤◌, ◌<◌, ◌^◌, ◌↔◌, List, length, IfOk, IfSome, OnOk, OnErr, IsTrue, IsSome};
ghost use Rattle.std.specs.FinMap as map;
ghost use Rattle.write_cache.specs.Cache.{with_bytes, overlaid};
ghost use Rattle.write_cache.specs.Lent.{pieces_left};
ghost use Rattle.write_cache.specs.Pieces.{ArePartsOf};

use crate::joined::Joined;
use crate::pieces::Pieces;
use crate::run::overwrite;
use crate::runs::{Runs, join_all, last_from, put_copy, put_own};
use std::alloc::Global;
use std::collections::BTreeMap;
use std::marker::Model;
use verdict::{HeldWrite, NoMemory};

/// The pending writes, seen as the map from each offset on the device, in bytes, that one of them
/// covers to the byte that the newest of these puts there.
#[derive(Drop)]
pub struct WriteCache {
    alloc: Global,
    // Under the offset where it begins, the bytes of each run.
    runs: Runs,
    // Whether it is known that no two runs touch.
    joined: bool,
}

impl Model for WriteCache {
    ghost use Rattle.std.specs.Prelude.{ℕ};
    ghost use Rattle.std.specs.Ordering.{nat_cmp};
    ghost use Rattle.std.specs.Coded.{coded_ℕ};
    ghost use Rattle.std.specs.FinMap as map;

    ghost Value = { map.FinMap nat_cmp ℕ };

    ghost coded = { map.code coded_ℕ coded_ℕ };

    ghost use Rattle.write_cache.specs.Pieces.{map_of};
    ghost use Rattle.std.specs.Prelude.{IsTrue};
    ghost use Rattle.write_cache.specs.Runs.{pieces_of, AreKept, AreJoined};

    ghost view = { λ c. map_of (pieces_of c.runs.entries) };

    ghost invariant = { λ c. AreKept c.runs.entries
        × (IsTrue c.joined → AreJoined c.runs.entries) };
}

impl WriteCache {
    ghost use Rattle.std.specs.Borrow.{sem};
    ghost use Rattle.write_cache.specs.Lending.{StaysAsItWas};

    /// A cache without pending writes. It takes its memory from this allocator.
    #[tactic(auto, using(crate::proofs::RunLaws::no_runs))]
    pub fn new(alloc: Global) -> WriteCache
        ensures { result ≡ map.empty }
    {
        WriteCache {
            alloc,
            runs: BTreeMap::new(alloc),
            joined: true,
        }
    }

    /// Puts a copy of these bytes from the offset `at` on, over what is pending there. Out of
    /// memory, nothing changes.
    #[tactic(auto, using(crate::proofs::CacheLaws::with_bytes_none))]
    pub fn put(&mut self, at: u64, bytes: &[u8]) -> Result<(), NoMemory>
        requires { at + length bytes.now < 2 ^ 64 }
        ensures ok { OnOk result (self.new ≡ with_bytes self.old at bytes.now) }
        ensures err { OnErr result (self.new ≡ self.old) }
    {
        if bytes.is_empty() {
            return Ok(());
        }
        self.joined = false;
        match put_copy(&mut self.runs, self.alloc, at, bytes) {
            Ok(()) => Ok(()),
            Err(_) => Err(NoMemory),
        }
    }

    /// Puts the bytes of this write over what is pending there. Bytes in memory of their own are not copied where nothing
    /// pending meets or touches them. Out of memory, nothing changes.
    #[tactic(auto, using(crate::proofs::CacheLaws::with_bytes_none))]
    pub fn hold(&mut self, write: HeldWrite) -> Result<(), NoMemory>
        requires { write.at + length write.bytes < 2 ^ 64 }
        ensures ok { OnOk result (self.new ≡ with_bytes self.old write.at write.bytes) }
        ensures err { OnErr result (self.new ≡ self.old) }
    {
        if write.bytes.as_slice().is_empty() {
            return Ok(());
        }
        self.joined = false;
        let bytes = write.bytes.into_vec()?;
        match put_own(&mut self.runs, self.alloc, write.at, bytes) {
            Ok(()) => Ok(()),
            Err(_) => Err(NoMemory),
        }
    }

    /// Puts the pending bytes over a buffer that begins at the offset `at` of the device.
    pub fn overlay(&self, at: u64, into: &mut [u8])
        ensures { into.new ≡ overlaid self.now at into.old }
    {
        if into.is_empty() {
            return;
        }
        let last = at.saturating_add(into.len() as u64 - 1);
        let mut runs = self.runs.range(..=last);
        while let Some((begin, bytes)) = runs.next_back() {
            if !overlay_run(*begin, bytes.as_slice(), at, into) {
                return;
            }
        }
    }

    /// Whether one of the `len` bytes from the offset `at` on is pending.
    pub fn touches(&self, at: u64, len: u64) -> bool
        ensures { IsTrue result
            ↔ ((i : ℕ) × (at ≤ i) × (i < at + len) × IsSome (map.get self.now i)) }
    {
        if len == 0 {
            return false;
        }
        match last_from(&self.runs, at.saturating_add(len - 1)) {
            Some((begin, bytes)) => at < begin + bytes.len() as u64,
            None => false,
        }
    }

    /// Whether each of the `len` bytes from the offset `at` on is pending.
    pub fn covers(&self, at: u64, len: u64) -> bool
        ensures { IsTrue result
            ↔ ((i : ℕ) → at ≤ i → i < at + len → IsSome (map.get self.now i)) }
    {
        let mut from = at;
        let mut left = len;
        while left > 0 {
            let Some((begin, bytes)) = last_from(&self.runs, from) else {
                return false;
            };
            let end = begin + bytes.len() as u64;
            if end <= from {
                return false;
            }
            if left <= end - from {
                return true;
            }
            left -= end - from;
            from = end;
        }
        true
    }

    /// The `len` bytes from the offset `at` on, lent, where one run of pending bytes has them all; `None`
    /// where no one run has.
    #[tactic(auto, using(crate::proofs::RunLaws::lent_bytes))]
    pub fn lend(&self, at: u64, len: usize) -> Option<&[u8]>
        ensures size { IfSome result (λ bytes. length bytes.now ≡ len) }
        ensures lent { (under : List ℕ) → length under ≡ len
            → IfSome result (λ bytes. overlaid self.now at under ≡ bytes.now) }
    {
        let (begin, bytes) = last_from(&self.runs, at)?;
        let (_, behind) = bytes.split_at_checked((at - begin) as usize)?;
        let (lent, _) = behind.split_at_checked(len)?;
        Some(lent)
    }

    /// Lets go of all pending writes.
    #[tactic(auto, using(crate::proofs::RunLaws::no_runs))]
    pub fn clear(&mut self)
        ensures { self.new ≡ map.empty }
    {
        self.runs.clear();
        self.joined = true;
    }

    /// Joins the runs that touch, and lends the cache as one in which no two do. A byte is moved a few times in
    /// all, however the writes came. Out of memory, the pending writes stay.
    pub fn join(&mut self) -> Result<Joined<'_>, NoMemory>
        ensures* stays { sem 𝓛 (StaysAsItWas self.entry) }
        ensures lent { IfOk result (λ joined. joined.cache.now ≡ self.old) }
    {
        if !self.joined && join_all(&mut self.runs, self.alloc).is_ok() {
            self.joined = true;
        }
        let cache: &WriteCache = self;
        if !cache.joined {
            return Err(NoMemory);
        }
        Ok(Joined {
            cache,
            runs: &cache.runs,
        })
    }

    /// The bytes of all pending writes, in disjoint runs in rising order, of which some may touch.
    pub fn parts(&self) -> Pieces<'_>
        ensures { ArePartsOf self.now (pieces_left result) }
    {
        Pieces::new(self.runs.iter())
    }
}

// Puts the bytes that begin at an offset over a buffer that begins at the offset `at`, and says whether they
// end behind `at`.
fn overlay_run(begin: u64, bytes: &[u8], at: u64, into: &mut [u8]) -> bool
    requires { begin + length bytes.now < 2 ^ 64 }
    ensures laid { into.new ≡ overlaid (with_bytes map.empty begin bytes.now) at into.old }
    ensures behind { IsTrue result ↔ (at < begin + length bytes.now) }
{
    let end = begin + bytes.len() as u64;
    if end <= at {
        return false;
    }
    let room = into.len() as u64;
    let low = at.max(begin);
    let high = if room < end - at { at + room } else { end };
    if low < high {
        let part = &bytes[(low - begin) as usize..(high - begin) as usize];
        overwrite(into, (low - at) as usize, part);
    }
    true
}
