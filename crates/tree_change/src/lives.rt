//! Blocks of walks as live pairs.

ghost use Rattle.std.specs.Prelude.{◌≡◌, ◌+◌, ◌≤◌, ◌++◌, true, length, OnOk, option_to_list};
ghost use Rattle.std.specs.Option.{option_copied};
ghost use Rattle.live_index.specs.Table.{pairs_of};
ghost use Rattle.tree_laws.specs.Known.{AreMetBy, blocks_met};
ghost use Rattle.tree_laws.specs.LivePairs.{first_or_greatest};
ghost use Rattle.tree_change.specs.Walks.{live_with, lives_of, shifted_of, shifted_pair, shifted_to, pairs_at};
ghost use Rattle.tree_change.specs.Leaves.{last_in, lives_by, shifted_among, shifted_by_one};

use crate::lasts::Lasts;
use live_index::{Live, LiveIndex};
use recon_disk::Steps;
use records::WalkedBlock;
use shared_trees::{Ended, Met};
use std::alloc::Global;
use verdict::{Key, NoMemory};

/// Puts what the walk of a tree as it is gave behind other live pairs: the blocks that were read, and those of the kept blocks that it
/// met of which the node above or the greatest key is another than the table has. Each of these looks once into the table, unless the
/// walk asked the same table for its pair. The greatest keys take their memory from this allocator.
#[tactic(auto, using(crate::proofs::Leaving::lives_alike, crate::proofs::Leaving::shifted_alike))]
pub(crate) fn add_new<L>(
    alloc: Global,
    table: &LiveIndex<L>,
    is_asked: bool,
    steps: &mut Steps<L>,
    blocks: &[WalkedBlock],
    met: &[Met],
    ended: &[Ended],
    lives: &mut Vec<Live>,
    shifted: &mut Vec<Live>,
) -> Result<(), NoMemory>
    requires asked { is_asked ≡ true → AreMetBy (pairs_of table.now) met.now }
    ensures puts { OnOk result ((lives.new.items ≡ lives.old.items ++ lives_of ended.now blocks.now)
        × (shifted.new.items ≡ shifted.old.items
        ++ shifted_of (pairs_of table.now) ended.now (blocks_met met.now))) }
    ensures looks { OnOk result (steps.new ≤ steps.old + length met.now) }
    ensures none { is_asked ≡ true → steps.new ≡ steps.old }
{
    let lasts = Lasts::new(alloc, ended)?;
    add_lives(&lasts, blocks, lives)?;
    add_shifted(table, is_asked, steps, &lasts, met, shifted)
}

// Puts the blocks that were read behind other live pairs.
fn add_lives(lasts: &Lasts, blocks: &[WalkedBlock], into: &mut Vec<Live>) -> Result<(), NoMemory>
    ensures { OnOk result (
        into.new.items ≡ into.old.items ++ lives_by (last_in lasts.now) blocks.now) }
{
    for block in blocks {
        let live = live_of(block, lasts.of(block.address));
        if into.push(live).is_err() {
            return Err(NoMemory);
        }
    }
    Ok(())
}

// Puts those of the kept blocks behind other live pairs that are not as the table has them.
fn add_shifted<L>(
    table: &LiveIndex<L>,
    is_asked: bool,
    steps: &mut Steps<L>,
    lasts: &Lasts,
    met: &[Met],
    into: &mut Vec<Live>,
) -> Result<(), NoMemory>
    requires asked { is_asked ≡ true → AreMetBy (pairs_of table.now) met.now }
    ensures puts { OnOk result (into.new.items ≡
        into.old.items ++ shifted_among (pairs_of table.now) (last_in lasts.now) (blocks_met met.now)) }
    ensures looks { OnOk result (steps.new ≤ steps.old + length met.now) }
    ensures none { is_asked ≡ true → steps.new ≡ steps.old }
{
    for one in met {
        push_some(into, shifted_of(table, is_asked, steps, lasts, one))?;
    }
    Ok(())
}

// The pair of a kept block, where it is not as the table has it.
fn shifted_of<L>(
    table: &LiveIndex<L>,
    is_asked: bool,
    steps: &mut Steps<L>,
    lasts: &Lasts,
    one: &Met,
) -> Option<Live>
    requires asked { is_asked ≡ true →
        one.now.live ≡ pairs_of table.now one.now.expect.tree one.now.expect.address }
    ensures pair { result ≡ shifted_by_one (pairs_of table.now) (last_in lasts.now) one.now.expect }
    ensures looks { steps.new ≤ steps.old + 1 }
    ensures none { is_asked ≡ true → steps.new ≡ steps.old }
{
    let e = &one.expect;
    let last = lasts.of(e.address);
    if is_asked {
        return shifted_pair(one.live.as_ref(), e.parent, last);
    }
    let live = table.get(e.tree, e.address, steps);
    shifted_pair(live.as_ref(), e.parent, last)
}

/// Puts the pairs of blocks behind others, as the table has them. Each block looks once into the table.
pub(crate) fn add_known<L>(
    table: &LiveIndex<L>,
    steps: &mut Steps<L>,
    blocks: &[WalkedBlock],
    into: &mut Vec<Live>,
) -> Result<(), NoMemory>
    ensures puts { OnOk result (
        into.new.items ≡ into.old.items ++ pairs_at (pairs_of table.now) blocks.now) }
    ensures looks { OnOk result (steps.new ≤ steps.old + length blocks.now) }
{
    for block in blocks {
        push_some(into, table.get(block.tree, block.address, steps))?;
    }
    Ok(())
}

/// Puts one behind others, where there is one.
pub(crate) fn push_some<T: Copy>(into: &mut Vec<T>, one: Option<T>) -> Result<(), NoMemory>
    ensures { OnOk result (into.new.items ≡ into.old.items ++ option_to_list one) }
{
    if let Some(one) = one
        && into.push(one).is_err()
    {
        return Err(NoMemory);
    }
    Ok(())
}

// A block with its greatest key as a live pair.
fn live_of(block: &WalkedBlock, last: Key) -> Live
    ensures { result ≡ live_with block.now last }
{
    Live {
        tree: block.tree,
        address: block.address,
        level: block.level,
        generation: block.generation,
        first: first_or_greatest(block.first),
        last,
        parent: block.parent,
        owner: block.owner,
    }
}

// The first key of a block, the greatest of all where it is empty.
fn first_or_greatest(first: Option<Key>) -> Key
    ensures { result ≡ first_or_greatest first }
{
    match first {
        Some(key) => key,
        None => Key {
            objectid: u64::MAX,
            kind: u8::MAX,
            offset: u64::MAX,
        },
    }
}

// A known pair with its node above and its greatest key now, where either is another.
fn shifted_pair(live: Option<&Live>, parent: u64, last: Key) -> Option<Live>
    ensures { result ≡ shifted_pair (option_copied live.entry) parent last }
{
    let live = live?;
    if live.parent == parent && live.last == last {
        return None;
    }
    Some(Live {
        parent,
        last,
        ..*live
    })
}
