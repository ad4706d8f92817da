//! What a commit is to change.

ghost use Rattle.std.specs.Prelude.{◌≡◌, [], ◌∷◌, ◌++◌, IfOk, IfSome, OnOk};
ghost use Rattle.recon_disk.specs.Keeping.{Kept};
ghost use Rattle.block_source.specs.Gives.{is_disk_halt};
ghost use Rattle.tree_laws.specs.Shared.{are_read_alike};
ghost use Rattle.super_reader.specs.declared.Super.{Super as ASuper};
ghost use Rattle.change_records.specs.Changes.{Ascend};
ghost use Rattle.commit_laws.specs.Commit.{AreTheAffected};
ghost use Rattle.commit_laws.specs.Paired.{SayChanges, added_from, removed_from};
ghost use Rattle.commit_judge.specs.Index.{IndexStands, known};
ghost use Rattle.commit_judge.specs.Judged.{IsPlaceAfter};
ghost use Rattle.commit_judge.specs.Plan.{IsPlanned, commit_in};
ghost use Rattle.commit_judge.specs.Work.{FindsByFew, PlansFew};

use crate::fresh::{Fresh, fresh_of};
use crate::index::Index;
use block_source::Halt;
use change_records::{ItemChange, ItemRef, affected, pair};
use recon_disk::{Disk, Steps};
use std::alloc::Global;
use super_reader::Super;
use tree_change::{Change, Diff, are_read_alike, difference};
use verdict::NoMemory;
use write_cache::WriteCache;

/// What a commit is to change: the superblock, blocks and items, which items differ, and which kept items post otherwise.
#[derive(Drop)]
pub(crate) struct Plan {
    // The bytes of the new superblock place, and what they say.
    pub(crate) raw: [u8; 4096],
    pub(crate) sup: Super,
    // The blocks and the items that the two images do not share.
    pub(crate) change: Change,
    // The changes between the items.
    pub(crate) changes: Vec<ItemChange>,
    // The kept items that post otherwise.
    pub(crate) refs: Vec<ItemRef>,
}

/// What the pending writes change of the image that an index stands for, on a device of `end` bytes, or the first finding of what the
/// judged image holds. Of the blocks that the two images do not share, there is at most one read of the disk for each old one, and two for each new one.
pub(crate) fn plan_of<D: Disk, L>(
    alloc: Global,
    disk: &mut D,
    cache: &WriteCache,
    end: u64,
    index: &Index<L>,
    steps: &mut Steps<L>,
) -> Result<Plan, Halt>
    requires { end ≡ D.len disk.old }
    ensures told { IfSome (D.bytes disk.old) (λ image. IndexStands image index.now →
        IsPlanned image cache.now (known index.now) (D.reads disk.old) (D.reads disk.new) result) }
    ensures place { IfOk result (λ plan. IsPlaceAfter (index.now).raw cache.now plan.raw) }
    ensures looks { IfSome (D.bytes disk.old) (λ image. IndexStands image index.now →
        PlansFew image cache.now (known index.now) steps.old steps.new result) }
    ensures kept { Kept D.Disk disk.old disk.new (is_disk_halt result) }
{
    let fresh = fresh_of(&index.raw, cache)?;
    match difference(alloc, disk, cache, end, index, &fresh.sup, steps)? {
        Diff::Change(change) => Ok(plan_by(alloc, index, &fresh, change, steps)?),
        Diff::Found(finding) => Err(Halt::Found(finding)),
    }
}

// The plan of what changes of the image that an index stands for: which items differ, and which kept items post otherwise.
fn plan_by<L>(
    alloc: Global,
    index: &Index<L>,
    fresh: &Fresh,
    change: Change,
    steps: &mut Steps<L>,
) -> Result<Plan, NoMemory>
    ensures bytes { IfOk result (λ plan. plan.raw ≡ (fresh.now).raw) }
    ensures sup { IfOk result (λ plan. plan.sup ≡ (fresh.now).sup) }
    ensures change { IfOk result (λ plan. plan.change ≡ change) }
    ensures changes { IfOk result (λ plan.
        Ascend plan.change.old_items.items → Ascend plan.change.new_items.items →
        SayChanges (are_read_alike (index.now).sup plan.sup)
        plan.change.old_items.items plan.change.new_items.items plan.changes.items) }
    ensures refs { IfOk result (λ plan.
        AreTheAffected (are_read_alike (index.now).sup plan.sup)
        (known index.now) (commit_in plan)) }
    ensures looks { IfOk result (λ plan.
        FindsByFew (known index.now) (commit_in plan) steps.old steps.new) }
{
    let alike = are_read_alike(&index.sup, &fresh.sup);
    let changes = changes_in(alloc, alike, &change)?;
    let refs = refs_in(alloc, alike, index, &change, &changes, steps)?;
    Ok(Plan {
        raw: fresh.raw,
        sup: fresh.sup,
        change,
        changes,
        refs,
    })
}

// The changes between the items of two images. Where blocks are not read alike, all old items go and all new ones come.
fn changes_in(alloc: Global, alike: bool, change: &Change) -> Result<Vec<ItemChange>, NoMemory>
    ensures { let old = (change.now).old_items.items in let new = (change.now).new_items.items in
        Ascend old → Ascend new → IfOk result (λ changes. SayChanges alike old new changes.items) }
{
    if alike {
        return pair(alloc, &change.old_items, &change.new_items);
    }
    let mut changes = Vec::new(alloc);
    remove_all(&mut changes, change.old_items.len() as u64)?;
    add_all(&mut changes, change.new_items.len() as u64)?;
    Ok(changes)
}

// Puts the changes that take away each of so many old items behind others.
fn remove_all(changes: &mut Vec<ItemChange>, count: u64) -> Result<(), NoMemory>
    ensures { OnOk result (changes.new.items ≡ changes.old.items ++ removed_from 0 count) }
{
    for old in 0..count {
        put(changes, ItemChange::Removed { old })?;
    }
    Ok(())
}

// Puts the changes that bring each of so many new items behind others.
fn add_all(changes: &mut Vec<ItemChange>, count: u64) -> Result<(), NoMemory>
    ensures { OnOk result (changes.new.items ≡ changes.old.items ++ added_from 0 count) }
{
    for new in 0..count {
        put(changes, ItemChange::Added { new })?;
    }
    Ok(())
}

// Puts a change behind others.
fn put(changes: &mut Vec<ItemChange>, change: ItemChange) -> Result<(), NoMemory>
    ensures { OnOk result (changes.new.items ≡ changes.old.items ++ change ∷ []) }
{
    Ok(changes.push(change)?)
}

// The kept items that post otherwise. Where blocks are not read alike, no item is kept.
fn refs_in<L>(
    alloc: Global,
    alike: bool,
    index: &Index<L>,
    change: &Change,
    changes: &[ItemChange],
    steps: &mut Steps<L>,
) -> Result<Vec<ItemRef>, NoMemory>
    ensures value { (sup : ASuper) → IfOk result (λ refs. AreTheAffected alike (known index.now)
        (record { fresh = sup; change = change.now; changes = changes.now; refs = refs.items })) }
    ensures looks { (sup : ASuper) → IfOk result (λ refs. FindsByFew (known index.now)
        (record { fresh = sup; change = change.now; changes = changes.now; refs = refs.items })
        steps.old steps.new) }
{
    if !alike {
        return Ok(Vec::new(alloc));
    }
    affected(
        alloc,
        index,
        &index.spans,
        changes,
        &change.old_items,
        &change.new_items,
        &change.map,
        steps,
    )
}
