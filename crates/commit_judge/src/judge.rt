//! The judge of a commit.

ghost use Rattle.std.specs.Prelude.{ℕ, ◌≡◌, ◌+◌, ◌≤◌, List, length, IfOk, IfSome, OnOk};
ghost use Rattle.std.specs.List.{count_by};
ghost use Rattle.recon_disk.specs.Keeping.{Kept};
ghost use Rattle.block_source.specs.Gives.{is_disk_fault, is_disk_halt};
ghost use Rattle.chunk_map.specs.Roots.{KeysAscend};
ghost use Rattle.ledger_index.specs.Ledger.{sums_of};
ghost use Rattle.span_index.specs.Sectors.{AreRunsFrom};
ghost use Rattle.span_index.specs.Table.{times_of};
ghost use Rattle.write_cache.specs.Cache.{overlaid};
ghost use Rattle.commit_judge.specs.Index.{IndexStands, known};
ghost use Rattle.commit_judge.specs.Judged.{HasRoom, IsJudgement, IsPlaceAfter, MovesPlace};
ghost use Rattle.commit_judge.specs.Judging.{IsLeastOf, is_hot_by, next_of};
ghost use Rattle.commit_judge.specs.Decided.{IsDecided};
ghost use Rattle.commit_judge.specs.Looks.{FewToFind, FewWherePassed, looks_to_pass};
ghost use Rattle.commit_judge.specs.Moves.{context_after};
ghost use Rattle.commit_judge.specs.Plan.{IsMadeOf, IsPlanOf, IsPlanned, commit_in};
ghost use Rattle.commit_judge.specs.Work.{LeadsOn, LooksByWork, PlansFew};

use crate::apply::{apply, undo};
use crate::hot::count_hot;
use crate::index::Index;
use crate::laws::{counts_law, tried_law, work_law};
use crate::moves::{Moves, after, moves_of};
use crate::plan::{Plan, plan_of};
use crate::roots::ascending;
use account_tally::least_finding;
use block_source::{Fault, Halt, told};
use change_records::Made;
use live_maker::{put_pairs, take_pairs};
use recon_disk::{Disk, Steps};
use std::alloc::Global;
use touched_accounts::judge_touched;
use tree_change::Change;
use verdict::{Family, Finding, NoMemory, SUPERBLOCK_AT, SUPERBLOCK_SIZE};
use write_cache::WriteCache;

/// The judgement of a commit.
#[derive(Clone, Copy, Debug)]
pub enum Judged {
    /// The full check accepts the judged image.
    Passed {
        /// The generation of its superblock.
        generation: u64,
        /// How many live pairs the two images do not share, of both together.
        blocks: u64,
        /// How many live pairs of the old image a stop in the commit may harm: those of which a pending write touches a byte of a copy,
        /// and those that the new chunks put elsewhere.
        hot: u64,
    },
    /// The full check's finding of the judged image.
    Rejected(Finding),
}

/// Judges the image that pending writes make of the one for which an index stands, by the blocks that the two do not share.
///
/// Where the full check accepts the judged image, the commit passes, and the index then stands for that image. Otherwise it is rejected with
/// the full check's own finding, and the index stands for the image as before. After a fault the index is spent: it stands for nothing.
/// The disk's bytes stay; it is read at most twice for each block that is counted. A commit that passes costs no more looks into the index
/// than 64 for each unit of its work, which is a measure of what changes. The bytes of the superblock place of the judged image are
/// those that the index has, with the pending writes over them, also where the index stands for no image.
pub fn judge_commit<D: Disk, L>(
    alloc: Global,
    disk: &mut D,
    cache: &WriteCache,
    index: &mut Index<L>,
    steps: &mut Steps<L>,
) -> Result<Judged, Fault>
    ensures told { IfOk result (λ judged. IfSome (D.bytes disk.old)
        (λ image. IndexStands image index.old → IsJudgement image cache.now
        index.new (D.reads disk.old) (D.reads disk.new) judged)) }
    ensures looks { IfOk result (λ judged. IfSome (D.bytes disk.old)
        (λ image. IndexStands image index.old →
        LooksByWork image cache.now steps.old steps.new judged)) }
    ensures place { IfOk result (MovesPlace index.old.raw cache.now index.new.raw) }
    ensures room { IfOk result (HasRoom (D.len disk.old)) }
    ensures kept { Kept D.Disk disk.old disk.new (is_disk_fault result) }
{
    let end = disk.length()?;
    judge_within(alloc, disk, cache, end, index, steps)
}

/// The same over a disk whose length in bytes is known.
pub fn judge_within<D: Disk, L>(
    alloc: Global,
    disk: &mut D,
    cache: &WriteCache,
    end: u64,
    index: &mut Index<L>,
    steps: &mut Steps<L>,
) -> Result<Judged, Fault>
    requires { end ≡ D.len disk.old }
    ensures told { IfOk result (λ judged. IfSome (D.bytes disk.old)
        (λ image. IndexStands image index.old → IsJudgement image cache.now
        index.new (D.reads disk.old) (D.reads disk.new) judged)) }
    ensures looks { IfOk result (λ judged. IfSome (D.bytes disk.old)
        (λ image. IndexStands image index.old →
        LooksByWork image cache.now steps.old steps.new judged)) }
    ensures place { IfOk result (MovesPlace index.old.raw cache.now index.new.raw) }
    ensures room { IfOk result (HasRoom (D.len disk.old)) }
    ensures kept { Kept D.Disk disk.old disk.new (is_disk_fault result) }
{
    match told(judge_blocks(alloc, disk, cache, end, index, steps))? {
        Ok(judged) => Ok(judged),
        Err(finding) => Ok(Judged::Rejected(finding)),
    }
}

// The judgement by the accounts, or the first finding of what the judged image holds.
fn judge_blocks<D: Disk, L>(
    alloc: Global,
    disk: &mut D,
    cache: &WriteCache,
    end: u64,
    index: &mut Index<L>,
    steps: &mut Steps<L>,
) -> Result<Judged, Halt>
    requires { end ≡ D.len disk.old }
    ensures told { IfSome (D.bytes disk.old) (λ image. IndexStands image index.old →
        IsDecided image cache.now index.old index.new
        (D.reads disk.old) (D.reads disk.new) result) }
    ensures looks { IfOk result (λ judged. IfSome (D.bytes disk.old)
        (λ image. IndexStands image index.old →
        LooksByWork image cache.now steps.old steps.new judged)) }
    ensures place { IfOk result (MovesPlace index.old.raw cache.now index.new.raw) }
    ensures room { OnOk result (69632 ≤ end) }
    ensures kept { Kept D.Disk disk.old disk.new (is_disk_halt result) }
{
    work_law();
    let plan = plan_within(alloc, disk, cache, end, index, steps)?;
    Ok(judge_plan(alloc, cache, end, index, plan, steps)?)
}

// What the pending writes change, where the superblock lies on a device of `end` bytes.
fn plan_within<D: Disk, L>(
    alloc: Global,
    disk: &mut D,
    cache: &WriteCache,
    end: u64,
    index: &Index<L>,
    steps: &mut Steps<L>,
) -> Result<Plan, Halt>
    requires { end ≡ D.len disk.old }
    ensures told { IfSome (D.bytes disk.old) (λ image. IndexStands image index.now →
        IsPlanned image cache.now (known index.now) (D.reads disk.old) (D.reads disk.new) result) }
    ensures looks { IfSome (D.bytes disk.old) (λ image. IndexStands image index.now →
        PlansFew image cache.now (known index.now) steps.old steps.new result) }
    ensures place { IfOk result (λ plan. IsPlaceAfter (index.now).raw cache.now plan.raw) }
    ensures room { OnOk result (69632 ≤ end) }
    ensures kept { Kept D.Disk disk.old disk.new (is_disk_halt result) }
{
    if end < SUPERBLOCK_AT + SUPERBLOCK_SIZE {
        return Err(Halt::Found(Finding::of_image(Family::S, 1, end)));
    }
    plan_of(alloc, disk, cache, end, index, steps)
}

// The judgement of what a plan changes, on a device of `end` bytes. Out of memory, the index is spent.
fn judge_plan<L>(
    alloc: Global,
    cache: &WriteCache,
    end: u64,
    index: &mut Index<L>,
    plan: Plan,
    steps: &mut Steps<L>,
) -> Result<Judged, NoMemory>
    ensures place { IsPlaceAfter index.old.raw cache.now plan.raw →
        IfOk result (MovesPlace index.old.raw cache.now index.new.raw) }
    ensures judged { IfOk result (λ judged. (image : List ℕ) (before after : ℕ) →
        IndexStands image index.old → length image ≡ end →
        IsPlanOf image cache.now (known index.old) before after plan →
        IsJudgement image cache.now index.new before after judged) }
    ensures leads { IfOk result (λ judged. (image : List ℕ) (before after : ℕ) →
        IndexStands image index.old → length image ≡ end →
        IsPlanOf image cache.now (known index.old) before after plan →
        LeadsOn (overlaid cache.now 0 image) (known index.old) (commit_in plan) judged) }
    ensures looks { IfOk result
        (FewWherePassed (known index.old) (commit_in plan) steps.old steps.new) }
{
    let made = made_by(alloc, &plan)?;
    let moves = moves_of(alloc, index, &plan, &made, steps)?;
    apply(&mut index.totals, &mut index.spans, &moves, steps)?;
    tried_law();
    if let Some(finding) = finding_by(alloc, index, &plan, &made, &moves, steps) {
        undo(&mut index.totals, &mut index.spans, &moves, steps)?;
        return Ok(Judged::Rejected(finding));
    }
    counts_law();
    let hot = hot_in(cache, index, &plan, end);
    let blocks = blocks_in(&plan.change);
    let generation = plan.sup.generation;
    pass(alloc, index, plan, &made, steps)?;
    Ok(Judged::Passed {
        generation,
        blocks,
        hot,
    })
}

// What the changes of a plan make of the flags of inodes.
fn made_by(alloc: Global, plan: &Plan) -> Result<Made, NoMemory>
    ensures { IfOk result (λ made. IsMadeOf plan.now made) }
{
    let change = &plan.change;
    Made::of(
        alloc,
        plan.changes.as_slice(),
        change.old_items.as_slice(),
        change.new_items.as_slice(),
    )
}

// The finding of the least account that is broken behind the moves, where one is: of those to which they post, and of the sectors in their
// runs.
fn finding_by<L>(
    alloc: Global,
    index: &Index<L>,
    plan: &Plan,
    made: &Made,
    moves: &Moves,
    steps: &mut Steps<L>,
) -> Option<Finding>
    requires made { IsMadeOf plan.now made.now }
    requires runs { AreRunsFrom 0 moves.now.runs.items }
    ensures least { IsLeastOf (sums_of index.now.totals) (times_of index.now.spans)
        (context_after (known index.now) (commit_in plan.now)) moves.now result }
    ensures looks { FewToFind (times_of index.now.spans) moves.now steps.old steps.new }
{
    let after = after(index, plan, made);
    let bad = index.spans.first_bad(&after, moves.runs.as_slice(), steps);
    let least = judge_touched(&index.totals, &moves.gone, &moves.came, steps);
    least_finding(alloc, bad, least)
}

// How many old blocks a stop may harm.
fn hot_in<L>(cache: &WriteCache, index: &Index<L>, plan: &Plan, end: u64) -> u64
    ensures { result ≡ count_by (is_hot_by (known index.now) (commit_in plan.now) cache.now end)
        plan.now.change.old_blocks.items }
{
    count_hot(
        cache,
        &index.map,
        &plan.change.map,
        index.sup.nodesize,
        end,
        plan.change.old_blocks.as_slice(),
    )
}

// How many live pairs of both images are not shared.
fn blocks_in(change: &Change) -> u64
    ensures { result ≡ length change.now.old_blocks.items + length change.now.new_blocks.items }
{
    change.old_blocks.len() as u64 + change.new_blocks.len() as u64
}

// Makes the index that of the judged image, once the moves are applied. Out of memory, a part of it is done.
fn pass<L>(
    alloc: Global,
    index: &mut Index<L>,
    plan: Plan,
    made: &Made,
    steps: &mut Steps<L>,
) -> Result<(), NoMemory>
    requires { IsMadeOf plan made.now }
    ensures known { KeysAscend plan.change.roots.items → OnOk result (known index.new ≡
        next_of (known index.old) (commit_in plan)
        (sums_of index.old.totals) (times_of index.old.spans)) }
    ensures raw { OnOk result (index.new.raw ≡ plan.raw) }
    ensures totals { OnOk result (index.new.totals ≡ index.old.totals) }
    ensures looks { steps.new ≤ steps.old + looks_to_pass plan.change }
{
    let Plan {
        raw,
        sup,
        change,
        ..
    } = plan;
    take_pairs(&mut index.live, change.old_blocks.as_slice(), steps);
    put_pairs(&mut index.live, change.new_blocks.as_slice(), steps)?;
    put_pairs(&mut index.live, change.moved.as_slice(), steps)?;
    made.turn(&mut index.sum_free)?;
    index.roots = ascending(alloc, &change.roots)?;
    index.raw = raw;
    index.sup = sup;
    index.map = change.map;
    Ok(())
}
