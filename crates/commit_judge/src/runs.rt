//! The runs of sectors that a commit changes.

ghost use Rattle.std.specs.Prelude.{◌≡◌, ℕ, ◌+◌, ◌%◌, ◌≤◌, true, ◌&&◌, ◌||◌, length, IfOk, IfSome, OnOk, option_to_list};
ghost use Rattle.std.specs.List.{All, list_any};
ghost use Rattle.std.specs.List.Sorted.{IsNonDecreasingBy, IsPermutation};
ghost use Rattle.span_index.specs.Sectors.{AreRunsFrom, IsRun, counts, has_sector, is_inside};
ghost use Rattle.span_index.specs.declared.span.Run.{Run as ARun};
ghost use Rattle.span_index.specs.declared.span.Span.{Span as ASpan};
ghost use Rattle.commit_laws.specs.Sectors.{AreInside, CountedInside};
ghost use Rattle.commit_laws.specs.Sound.{IsWhole};
ghost use Rattle.commit_judge.specs.Moves.{AreOfChanged, any_counted};

use crate::spans::push_some;
use accounts::Ctx;
use span_index::{Run, Span, SpanSort};
use std::alloc::Global;
use verdict::{NoMemory, SECTOR};

/// The runs of the sectors of the spans of three lists, in order: of those that are gone and counted in one context, of those that came
/// and count in another, and of all that were found. Runs that meet or touch are one. A span that counts for no sum, as what a file
/// shows whose data has no checksums, changes no sector, and is left out. So is a span that begins at no sector or passes the addresses
/// of 64 bits, as no accepted image has one. There are no more runs than spans, and they have no other sector.
pub(crate) fn runs_of<C: Ctx, D: Ctx>(
    alloc: Global,
    before: &C,
    after: &D,
    gone: &[Span],
    came: &[Span],
    found: &[Span],
) -> Result<Vec<Run>, NoMemory>
    ensures ascend { IfOk result (λ runs. AreRunsFrom 0 runs.items) }
    ensures gone { All IsWhole gone.now →
        IfOk result (λ runs. CountedInside (C.context before.now) runs.items gone.now) }
    ensures came { All IsWhole came.now →
        IfOk result (λ runs. CountedInside (D.context after.now) runs.items came.now) }
    ensures found { All IsWhole found.now → IfOk result (λ runs. AreInside runs.items found.now) }
    ensures few { IfOk result (λ runs.
        length runs.items ≤ length gone.now + length came.now + length found.now) }
    ensures only { IfOk result (λ runs. AreOfChanged (C.context before.now) (D.context after.now)
        gone.now came.now found.now runs.items) }
{
    let mut runs = Vec::new(alloc);
    add_counted(before, gone, &mut runs)?;
    add_counted(after, came, &mut runs)?;
    add_runs(found, &mut runs)?;
    sort_runs(&mut runs);
    merged(alloc, &runs)
}

// Puts the runs of those spans behind others that count in a context.
fn add_counted<C: Ctx>(ctx: &C, spans: &[Span], into: &mut Vec<Run>) -> Result<(), NoMemory>
    requires { All IsRun into.old.items }
    ensures runs { OnOk result (All IsRun into.new.items) }
    ensures stay { OnOk result ((address : ℕ) →
        is_inside into.old.items address ≡ true → is_inside into.new.items address ≡ true) }
    ensures inside { All IsWhole spans.now →
        OnOk result (CountedInside (C.context ctx.now) into.new.items spans.now) }
    ensures few { OnOk result (length into.new.items ≤ length into.old.items + length spans.now) }
    ensures only { OnOk result ((address : ℕ) →
        is_inside into.new.items address ≡ true → address % 4096 ≡ 0 →
        (is_inside into.old.items address
        || any_counted (C.context ctx.now) (λ (span : ASpan). has_sector span address) spans.now)
        ≡ true) }
{
    for span in spans {
        push_some(into, counted_run(ctx, span))?;
    }
    Ok(())
}

// The run of a span that counts in a context.
fn counted_run<C: Ctx>(ctx: &C, span: &Span) -> Option<Run>
    ensures run { IfSome result IsRun }
    ensures inside { IsWhole span.now → counts (C.context ctx.now) span.now span.now.sort ≡ true →
        (address : ℕ) → has_sector span.now address ≡ true →
        is_inside (option_to_list result) address ≡ true }
    ensures only { (address : ℕ) →
        is_inside (option_to_list result) address ≡ true → address % 4096 ≡ 0 →
        (counts (C.context ctx.now) span.now span.now.sort && has_sector span.now address) ≡ true }
{
    if counts(ctx, span) {
        run_of(span)
    } else {
        None
    }
}

// Whether what a span is of counts in a context: an extent that has a home, checksums, and what a file shows whose data has checksums, of
// an extent that has a home.
fn counts<C: Ctx>(ctx: &C, span: &Span) -> bool
    ensures { result ≡ counts (C.context ctx.now) span.now span.now.sort }
{
    match span.sort {
        SpanSort::Owned { .. } => match span.sectors.checked_mul(SECTOR) {
            Some(bytes) => ctx.home(span.first, bytes).is_some(),
            None => false,
        },
        SpanSort::Summed => true,
        SpanSort::Shown {
            tree,
            ino,
            extent,
            length,
            ..
        } => !ctx.sum_free(tree, ino) && ctx.home(extent, length).is_some(),
    }
}

// Puts the runs of spans behind others.
fn add_runs(spans: &[Span], into: &mut Vec<Run>) -> Result<(), NoMemory>
    requires { All IsRun into.old.items }
    ensures runs { OnOk result (All IsRun into.new.items) }
    ensures stay { OnOk result ((address : ℕ) →
        is_inside into.old.items address ≡ true → is_inside into.new.items address ≡ true) }
    ensures inside { All IsWhole spans.now → OnOk result (AreInside into.new.items spans.now) }
    ensures few { OnOk result (length into.new.items ≤ length into.old.items + length spans.now) }
    ensures only { OnOk result ((address : ℕ) →
        is_inside into.new.items address ≡ true → address % 4096 ≡ 0 →
        (is_inside into.old.items address
        || list_any (λ (span : ASpan). has_sector span address) spans.now) ≡ true) }
{
    for span in spans {
        push_some(into, run_of(span))?;
    }
    Ok(())
}

// The run of the sectors of a span, where it has any, begins at a sector and ends at an address of 64 bits.
fn run_of(span: &Span) -> Option<Run>
    ensures run { IfSome result IsRun }
    ensures inside { IsWhole span.now → (address : ℕ) → has_sector span.now address ≡ true →
        is_inside (option_to_list result) address ≡ true }
    ensures only { (address : ℕ) →
        is_inside (option_to_list result) address ≡ true → address % 4096 ≡ 0 →
        has_sector span.now address ≡ true }
{
    if span.sectors == 0 || span.first % SECTOR != 0 {
        return None;
    }
    let until = span.first.checked_add(span.sectors.checked_mul(SECTOR)?)?;
    Some(Run {
        from: span.first,
        until,
    })
}

// Puts runs in the order of where they begin.
fn sort_runs(runs: &mut Vec<Run>)
    ensures all { IsPermutation runs.old.items runs.new.items }
    ensures ascend { IsNonDecreasingBy (λ (run : ARun). run.from) runs.new.items }
{
    runs.sort_unstable_by_key(|run| run.from);
}

// Runs that begin one after the other, where those that meet or touch are one.
fn merged(alloc: Global, runs: &[Run]) -> Result<Vec<Run>, NoMemory>
    requires runs { All IsRun runs.now }
    requires ascend { IsNonDecreasingBy (λ (run : ARun). run.from) runs.now }
    ensures ascend { IfOk result (λ some. AreRunsFrom 0 some.items) }
    ensures inside { IfOk result (λ some. (address : ℕ) →
        is_inside runs.now address ≡ true → is_inside some.items address ≡ true) }
    ensures few { IfOk result (λ some. length some.items ≤ length runs.now) }
    ensures only { IfOk result (λ some. (address : ℕ) →
        is_inside some.items address ≡ true → is_inside runs.now address ≡ true) }
{
    let mut some = Vec::new(alloc);
    let Some((first, rest)) = runs.split_first() else {
        return Ok(some);
    };
    let mut open = *first;
    for run in rest {
        if run.from <= open.until {
            open.until = open.until.max(run.until);
            continue;
        }
        push_some(&mut some, Some(open))?;
        open = *run;
    }
    push_some(&mut some, Some(open))?;
    Ok(some)
}
