//! The ordered map from the offset where a run of pending writes begins to the run's bytes.

ghost use Rattle.std.specs.Prelude.{◌≡◌, ◌≢◌, ℕ, ◌+◌, ◌-◌, ◌≤◌, ◌<◌, ◌^◌, ◌++◌, [], length, MatchOption, IsSome, Some, IfSome, IfOk, OnOk, OnErr};
ghost use Rattle.std.specs.Ordering.{nat_cmp};
ghost use Rattle.std.specs.BTreeMap.{IsOrdered};
ghost use Rattle.write_cache.specs.Runs.{AreKept, HoldPut, HoldStill, laid_over, run_at, NoneFrom, IsLast, Reaches, NoneReaches, AreCleared, Meet, JoinsAt, Replaces, AreSame, NoneBehind, IsFirst, Appends, IsGrown, JoinsAll};

use crate::run::Run;
use std::alloc::{AllocError, Global};
use std::collections::BTreeMap;
use std::mem;

/// Under the offset where it begins, the bytes of each piece.
pub(crate) type Runs = BTreeMap<u64, Run>;

/// The last piece that begins at the offset `to` or before it.
pub(crate) fn last_from(runs: &Runs, to: u64) -> Option<(u64, &[u8])>
    ensures found { MatchOption result (NoneFrom runs.now.entries to)
        (λ r. IsLast runs.now.entries to r.0 r.1.now) }
    ensures ordered { IsOrdered nat_cmp runs.now }
{
    let (at, bytes) = runs.range(..=to).next_back()?;
    Some((*at, bytes.as_slice()))
}

/// Puts a copy of these bytes from the offset `at` on, over the pieces. Out of memory, the
/// pieces stay.
pub(crate) fn put_copy(
    runs: &mut Runs,
    alloc: Global,
    at: u64,
    bytes: &[u8],
) -> Result<(), AllocError>
    requires kept { AreKept runs.old.entries }
    requires some { 0 < length bytes.now }
    requires fits { at + length bytes.now < 2 ^ 64 }
    ensures ok { OnOk result (HoldPut runs.old.entries runs.new.entries at bytes.now) }
    ensures err { OnErr result (HoldStill runs.old.entries runs.new.entries) }
{
    match reaching(runs, at, at + bytes.len() as u64) {
        Some(last) => put_over(runs, alloc, last, at, bytes),
        None => begin_at(runs, at, Vec::from_slice(alloc, bytes)?),
    }
}

/// The same, where the bytes become a piece of their own if no piece meets or touches them.
pub(crate) fn put_own(
    runs: &mut Runs,
    alloc: Global,
    at: u64,
    bytes: Vec<u8>,
) -> Result<(), AllocError>
    requires kept { AreKept runs.old.entries }
    requires some { 0 < length bytes.items }
    requires fits { at + length bytes.items < 2 ^ 64 }
    ensures ok { OnOk result (HoldPut runs.old.entries runs.new.entries at bytes.items) }
    ensures err { OnErr result (HoldStill runs.old.entries runs.new.entries) }
{
    match reaching(runs, at, at + bytes.len() as u64) {
        Some(last) => put_over(runs, alloc, last, at, bytes.as_slice()),
        None => begin_at(runs, at, bytes),
    }
}

// Where the last piece begins that begins at the offset `to` or before it and ends at `at` or behind it.
fn reaching(runs: &Runs, at: u64, to: u64) -> Option<u64>
    requires { AreKept runs.now.entries }
    ensures { MatchOption result (NoneReaches runs.now.entries at to)
        (λ begin. Reaches runs.now.entries at to begin) }
{
    let (begin, bytes) = last_from(runs, to)?;
    if at.saturating_sub(begin) <= bytes.len() as u64 {
        Some(begin)
    } else {
        None
    }
}

// Makes bytes a piece of their own, which no piece meets or touches.
fn begin_at(runs: &mut Runs, at: u64, bytes: Vec<u8>) -> Result<(), AllocError>
    requires kept { AreKept runs.old.entries }
    requires apart { NoneReaches runs.old.entries at (at + length bytes.items) }
    requires some { 0 < length bytes.items }
    requires fits { at + length bytes.items < 2 ^ 64 }
    ensures ok { OnOk result (HoldPut runs.old.entries runs.new.entries at bytes.items) }
    ensures err { OnErr result (HoldStill runs.old.entries runs.new.entries) }
{
    runs.insert(at, Run::of(bytes))?;
    Ok(())
}

// Lays bytes over the pieces that meet or touch them, the last of which begins at `last`.
fn put_over(
    runs: &mut Runs,
    alloc: Global,
    last: u64,
    at: u64,
    bytes: &[u8],
) -> Result<(), AllocError>
    requires kept { AreKept runs.old.entries }
    requires last { Reaches runs.old.entries at (at + length bytes.now) last }
    requires some { 0 < length bytes.now }
    requires fits { at + length bytes.now < 2 ^ 64 }
    ensures ok { OnOk result (HoldPut runs.old.entries runs.new.entries at bytes.now) }
    ensures err { OnErr result (HoldStill runs.old.entries runs.new.entries) }
{
    if last <= at {
        return lay_at(runs, last, (at - last) as usize, bytes);
    }
    match reaching(runs, at, at) {
        Some(begin) => bridge(runs, begin, last, at, bytes),
        None => join_new(runs, alloc, last, at, bytes),
    }
}

// Lays bytes over the piece that begins at an offset, from a place of it on.
#[tactic(auto, unfolding(crate::specs::Runs::run_at))]
fn lay_at(runs: &mut Runs, begin: u64, from: usize, bytes: &[u8]) -> Result<(), AllocError>
    requires place { IfSome (run_at runs.old.entries begin) (λ base. from ≤ length base) }
    requires here { IsSome (run_at runs.old.entries begin) }
    ensures ok { OnOk result (Replaces runs.old.entries runs.new.entries begin
        (λ base. laid_over base from bytes.now)) }
    ensures err { OnErr result (AreSame runs.old.entries runs.new.entries) }
    ensures ordered { IsOrdered nat_cmp runs.new }
{
    runs.get_mut(&begin).unwrap().lay(from, bytes)
}

// Lays bytes over the run that begins at `begin` and reaches the offset `at`, and over those behind it, the last
// of which begins at `last`. The bytes that lie in the last are written there if it ends behind them.
fn bridge(runs: &mut Runs, begin: u64, last: u64, at: u64, bytes: &[u8]) -> Result<(), AllocError>
    requires kept { AreKept runs.old.entries }
    requires first { Reaches runs.old.entries at at begin }
    requires last { Reaches runs.old.entries at (at + length bytes.now) last }
    requires behind { at < last }
    requires fits { at + length bytes.now < 2 ^ 64 }
    ensures ok { OnOk result (HoldPut runs.old.entries runs.new.entries at bytes.now) }
    ensures err { OnErr result (HoldStill runs.old.entries runs.new.entries) }
{
    let end = at + bytes.len() as u64;
    let from = (at - begin) as usize;
    if end_of(runs, last) <= end {
        lay_at(runs, begin, from, bytes)?;
        remove_between(runs, begin, last);
        return Ok(());
    }
    let (front, back) = bytes.split_at((last - at) as usize);
    lay_at(runs, begin, from, front)?;
    remove_between(runs, begin, last - 1);
    write_at(runs, last, back);
    Ok(())
}

// Where the run ends that begins at an offset.
#[tactic(auto, unfolding(crate::specs::Runs::run_at))]
fn end_of(runs: &Runs, begin: u64) -> u64
    requires kept { AreKept runs.now.entries }
    requires here { IsSome (run_at runs.now.entries begin) }
    ensures { IfSome (run_at runs.now.entries begin) (λ bytes. result ≡ begin + length bytes) }
{
    begin + runs.get(&begin).unwrap().len() as u64
}

// Writes bytes over the first of the run that begins at an offset.
#[tactic(auto, unfolding(crate::specs::Runs::run_at))]
fn write_at(runs: &mut Runs, begin: u64, bytes: &[u8])
    requires place { IfSome (run_at runs.old.entries begin)
        (λ base. length bytes.now ≤ length base) }
    requires here { IsSome (run_at runs.old.entries begin) }
    ensures written { Replaces runs.old.entries runs.new.entries begin
        (λ base. laid_over base 0 bytes.now) }
    ensures ordered { IsOrdered nat_cmp runs.new }
{
    runs.get_mut(&begin).unwrap().write(0, bytes);
}

// Joins the piece that begins at `begin` and reaches the offset `at`, bytes from there on, and what the piece
// that begins at `last` has behind them. The pieces between are let go of.
fn join_at(
    runs: &mut Runs,
    alloc: Global,
    begin: u64,
    last: u64,
    at: u64,
    bytes: &[u8],
) -> Result<(), AllocError>
    requires { Meet runs.old.entries begin last at (length bytes.now) }
    ensures ok { OnOk result (JoinsAt runs.old.entries runs.new.entries begin last at bytes.now) }
    ensures err { OnErr result (AreSame runs.old.entries runs.new.entries) }
    ensures ordered { IsOrdered nat_cmp runs.new }
{
    let end = at + bytes.len() as u64;
    let mut piece = take_out(runs, alloc, begin);
    let mut behind = take_out(runs, alloc, last);
    let joined = piece.join(
        alloc,
        (at - begin) as usize,
        bytes,
        &mut behind,
        (end - last) as usize,
    );
    put_back(runs, last, behind);
    put_back(runs, begin, piece);
    joined?;
    remove_between(runs, begin, end);
    Ok(())
}

// The same, where no piece reaches the offset `at`.
fn join_new(
    runs: &mut Runs,
    alloc: Global,
    last: u64,
    at: u64,
    bytes: &[u8],
) -> Result<(), AllocError>
    requires kept { AreKept runs.old.entries }
    requires apart { NoneReaches runs.old.entries at at }
    requires last { Reaches runs.old.entries at (at + length bytes.now) last }
    requires behind { at < last }
    requires some { 0 < length bytes.now }
    requires fits { at + length bytes.now < 2 ^ 64 }
    ensures ok { OnOk result (HoldPut runs.old.entries runs.new.entries at bytes.now) }
    ensures err { OnErr result (HoldStill runs.old.entries runs.new.entries) }
{
    runs.insert(at, Run::of(Vec::new(alloc)))?;
    let joined = join_at(runs, alloc, at, last, at, bytes);
    if joined.is_err() {
        runs.remove(&at);
    }
    joined
}

// Takes a piece's bytes out, and leaves none in their place.
#[tactic(auto, unfolding(crate::specs::Runs::run_at))]
fn take_out(runs: &mut Runs, alloc: Global, begin: u64) -> Run
    requires { IsSome (run_at runs.old.entries begin) }
    ensures taken { run_at runs.old.entries begin ≡ Some result }
    ensures left { run_at runs.new.entries begin ≡ Some [] }
    ensures others { (k : ℕ) → k ≢ begin → run_at runs.new.entries k ≡ run_at runs.old.entries k }
    ensures ordered { IsOrdered nat_cmp runs.new }
{
    mem::replace(runs.get_mut(&begin).unwrap(), Run::of(Vec::new(alloc)))
}

// Puts a piece's bytes in the place of those that stand there.
#[tactic(auto, unfolding(crate::specs::Runs::run_at))]
fn put_back(runs: &mut Runs, begin: u64, bytes: Run)
    requires { IsSome (run_at runs.old.entries begin) }
    ensures here { run_at runs.new.entries begin ≡ Some bytes }
    ensures others { (k : ℕ) → k ≢ begin → run_at runs.new.entries k ≡ run_at runs.old.entries k }
    ensures ordered { IsOrdered nat_cmp runs.new }
{
    *runs.get_mut(&begin).unwrap() = bytes;
}

// Lets go of the pieces that begin behind the offset `after` and no further than at `to`.
fn remove_between(runs: &mut Runs, after: u64, to: u64)
    ensures cleared { AreCleared runs.old.entries runs.new.entries after to }
    ensures ordered { IsOrdered nat_cmp runs.new }
{
    while let Some((begin, _)) = last_from(runs, to) {
        if begin <= after {
            return;
        }
        runs.remove(&begin);
    }
}

/// Joins the runs that touch, front to back, each appended to the one before. Out of memory, some may
/// still touch, and their bytes stay.
pub(crate) fn join_all(runs: &mut Runs, alloc: Global) -> Result<(), AllocError>
    requires kept { AreKept runs.old.entries }
    ensures ok { OnOk result (JoinsAll runs.old.entries runs.new.entries) }
    ensures err { OnErr result (HoldStill runs.old.entries runs.new.entries) }
{
    let mut from = 0;
    while let Some(begin) = first_from(runs, from) {
        from = join_run(runs, alloc, begin)?;
    }
    Ok(())
}

// Where the first run begins that begins at the offset `from` or behind it.
fn first_from(runs: &Runs, from: u64) -> Option<u64>
    ensures { MatchOption result (NoneBehind runs.now.entries from)
        (λ begin. IsFirst runs.now.entries from begin) }
{
    let (begin, _) = runs.range(from..).next()?;
    Some(*begin)
}

// Appends those that follow without a gap to the run that begins at an offset, and says where it ends then.
fn join_run(runs: &mut Runs, alloc: Global, begin: u64) -> Result<u64, AllocError>
    requires kept { AreKept runs.old.entries }
    requires here { IsSome (run_at runs.old.entries begin) }
    ensures ok { IfOk result (λ end. IsGrown runs.old.entries runs.new.entries begin end) }
    ensures err { OnErr result (HoldStill runs.old.entries runs.new.entries) }
{
    let mut end = end_of(runs, begin);
    while runs.contains_key(&end) {
        let next_end = end_of(runs, end);
        append_next(runs, alloc, begin, end)?;
        end = next_end;
    }
    Ok(end)
}

// Appends the run that begins at `end` to that at `begin`.
fn append_next(runs: &mut Runs, alloc: Global, begin: u64, end: u64) -> Result<(), AllocError>
    requires first { IsSome (run_at runs.old.entries begin) }
    requires second { IsSome (run_at runs.old.entries end) }
    requires order { begin < end }
    ensures ok { OnOk result (Appends runs.old.entries runs.new.entries begin end) }
    ensures err { OnErr result (AreSame runs.old.entries runs.new.entries) }
    ensures ordered { IsOrdered nat_cmp runs.new }
{
    let next = take_out(runs, alloc, end);
    let appended = append_at(runs, begin, next.as_slice());
    if appended.is_err() {
        put_back(runs, end, next);
        return appended;
    }
    runs.remove(&end);
    appended
}

// Puts bytes behind those of the run that begins at an offset.
#[tactic(auto, unfolding(crate::specs::Runs::run_at))]
fn append_at(runs: &mut Runs, begin: u64, more: &[u8]) -> Result<(), AllocError>
    requires { IsSome (run_at runs.old.entries begin) }
    ensures ok { OnOk result (Replaces runs.old.entries runs.new.entries begin
        (λ base. base ++ more.now)) }
    ensures err { OnErr result (AreSame runs.old.entries runs.new.entries) }
    ensures ordered { IsOrdered nat_cmp runs.new }
{
    runs.get_mut(&begin).unwrap().append(more)
}
