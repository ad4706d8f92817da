//! What the records that a commit changes post to accounts.

ghost use Rattle.std.specs.Prelude.{◌≡◌, ◌∷◌, ◌++◌, map, flat_map, option_to_list, IfOk, OnOk};
ghost use Rattle.std.specs.Option.{option_copied};
ghost use Rattle.records.specs.Contents.{super_record};
ghost use Rattle.records.specs.Part.{part_of};
ghost use Rattle.records.specs.Part.Part.{ExtentPart};
ghost use Rattle.tree_change.specs.Gathered.{located_item};
ghost use Rattle.commit_laws.specs.Kept.{extent_at, placed_postings};
ghost use Rattle.commit_laws.specs.Paired.{came_items, came_of, gone_items, gone_of};
ghost use Rattle.commit_laws.specs.Same.{live_record};
ghost use Rattle.commit_laws.specs.Steps.{all_posts, change_records, step_posts};
ghost use Rattle.commit_judge.specs.Posting.{posts_at};

use accounts::{Ctx, Poster, Postings};
use change_records::{ItemChange, ItemRef};
use extent_items::ExtentItem;
use live_index::Live;
use records::{ItemAt, Rec};
use std::alloc::Global;
use super_reader::Super;
use verdict::NoMemory;
use verdict::kinds::{EXTENT_ITEM, METADATA_ITEM};

/// Hands on what a record of a tree posts but to sectors.
pub(crate) fn post_record<C: Ctx, P: Poster>(
    alloc: Global,
    ctx: &C,
    tree: u64,
    part: &Rec<'_>,
    into: &mut P,
) -> Result<(), NoMemory>
    ensures { P.Leaves into.old into.new result
        (posts_at (C.context ctx.now) tree (part_of part.now)) }
{
    extent_rules::post(alloc, ctx, tree, part, into)?;
    inode_rules::post(alloc, ctx, tree, part, into)?;
    dir_rules::post(alloc, ctx, tree, part, into)?;
    space_rules::post_rest(alloc, ctx, tree, part, into)
}

/// What a commit takes away: the postings of the old superblock, of the blocks, of the items that changes take away, and of where the kept
/// items stand that post otherwise.
pub(crate) fn post_gone<C: Ctx>(
    alloc: Global,
    ctx: &C,
    sup: &Super,
    blocks: &[Live],
    items: &[ItemAt],
    changes: &[ItemChange],
    refs: &[ItemRef],
) -> Result<Postings, NoMemory>
    ensures { IfOk result (λ posts. posts ≡ step_posts (C.context ctx.now)
        (change_records sup.now blocks.now (gone_items items.now changes.now)) refs.now) }
{
    let mut into = post_blocks(alloc, ctx, sup, blocks)?;
    for change in changes {
        post_item(alloc, ctx, gone_of(items, change), &mut into)?;
    }
    post_kept(alloc, ctx, refs, &mut into)?;
    Ok(into)
}

/// What a commit brings: the same of the new superblock, of the blocks, of the items that changes bring, and of the kept items.
pub(crate) fn post_came<C: Ctx>(
    alloc: Global,
    ctx: &C,
    sup: &Super,
    blocks: &[Live],
    items: &[ItemAt],
    changes: &[ItemChange],
    refs: &[ItemRef],
) -> Result<Postings, NoMemory>
    ensures { IfOk result (λ posts. posts ≡ step_posts (C.context ctx.now)
        (change_records sup.now blocks.now (came_items items.now changes.now)) refs.now) }
{
    let mut into = post_blocks(alloc, ctx, sup, blocks)?;
    for change in changes {
        post_item(alloc, ctx, came_of(items, change), &mut into)?;
    }
    post_kept(alloc, ctx, refs, &mut into)?;
    Ok(into)
}

// The old item that a change takes away, where it does. A place outside the list has none.
fn gone_of<'a>(items: &'a [ItemAt], change: &ItemChange) -> Option<&'a ItemAt>
    ensures { option_copied result ≡ gone_of items.now change.now }
{
    match *change {
        ItemChange::Added { .. } => None,
        ItemChange::Removed { old } | ItemChange::Altered { old, .. } => items.get(old as usize),
    }
}

// The new item that a change brings, where it does. A place outside the list has none.
fn came_of<'a>(items: &'a [ItemAt], change: &ItemChange) -> Option<&'a ItemAt>
    ensures { option_copied result ≡ came_of items.now change.now }
{
    match *change {
        ItemChange::Removed { .. } => None,
        ItemChange::Added { new } | ItemChange::Altered { new, .. } => items.get(new as usize),
    }
}

// The postings of the superblock and of blocks.
fn post_blocks<C: Ctx>(
    alloc: Global,
    ctx: &C,
    sup: &Super,
    blocks: &[Live],
) -> Result<Postings, NoMemory>
    ensures { IfOk result (λ posts. posts ≡ all_posts (C.context ctx.now)
        (super_record sup.now ∷ map live_record blocks.now)) }
{
    let mut into = Postings::new(alloc);
    let bytes_used = sup.bytes_used;
    post_record(alloc, ctx, 0, &Rec::Super { bytes_used }, &mut into)?;
    for block in blocks {
        let (address, level) = (block.address, block.level);
        let part = Rec::Block { address, level };
        post_record(alloc, ctx, block.tree, &part, &mut into)?;
    }
    Ok(into)
}

// What an item posts, where there is one.
fn post_item<C: Ctx>(
    alloc: Global,
    ctx: &C,
    item: Option<&ItemAt>,
    into: &mut Postings,
) -> Result<(), NoMemory>
    ensures { OnOk result (into.new ≡ into.old ++ all_posts (C.context ctx.now)
        (map located_item (option_to_list (option_copied item.entry)))) }
{
    match item {
        Some(item) => post_record(alloc, ctx, item.tree, &item.part.lend(), into),
        None => Ok(()),
    }
}

// What kept items that post otherwise post of where they stand.
fn post_kept<C: Ctx>(
    alloc: Global,
    ctx: &C,
    refs: &[ItemRef],
    into: &mut Postings,
) -> Result<(), NoMemory>
    ensures { OnOk result (into.new ≡
        into.old ++ flat_map (placed_postings (C.context ctx.now)) refs.now) }
{
    for at in refs {
        post_placed(alloc, ctx, at, into)?;
    }
    Ok(())
}

// What an extent posts of where it stands, by its key. Other items post nothing.
fn post_placed<C: Ctx>(
    alloc: Global,
    ctx: &C,
    at: &ItemRef,
    into: &mut Postings,
) -> Result<(), NoMemory>
    ensures { OnOk result (into.new ≡ into.old ++ placed_postings (C.context ctx.now) at.now) }
{
    match at.key.kind {
        EXTENT_ITEM | METADATA_ITEM => {
            space_rules::post_rest(alloc, ctx, at.tree, &extent_at(at), into)
        }
        _ => Ok(()),
    }
}

// An extent of which only the key is known.
fn extent_at(at: &ItemRef) -> Rec<'static>
    ensures { part_of result ≡ ExtentPart (extent_at at.now) }
{
    Rec::ExtentItem(ExtentItem {
        key: at.key,
        refs: 0,
        generation: 0,
        flags: 0,
        references: &[],
    })
}
