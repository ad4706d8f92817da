//! The live pairs of walks.

ghost use Rattle.std.specs.Prelude.{◌≡◌, ◌+◌, ◌≤◌, length, reverse, IfOk};
ghost use Rattle.live_index.specs.Table.{pairs_of};
ghost use Rattle.tree_laws.specs.LivePairs.{first_or_greatest, greater_key, table_of};
ghost use Rattle.live_maker.specs.Opened.{closes, finished, held_in, last_below, no_lives, opened, raised, LivesMade};
ghost use Rattle.live_maker.specs.Closing.{left_of};

use live_index::{Live, LiveIndex};
use recon_disk::Steps;
use records::{Record, Taker, WalkedBlock};
use std::alloc::Global;
use verdict::{Key, NoMemory};

/// The live pairs of the blocks that walks have come to, in their order.
#[derive(Drop)]
pub struct Lives {
    // The last key of each is the greatest of the block's own items: what is below it is handed up at the end.
    pub(crate) pairs: Vec<Live>,
}

impl Lives {
    /// None yet. They take their memory from this allocator.
    pub fn new(alloc: Global) -> Lives
        ensures { held_in result ≡ no_lives }
    {
        Lives {
            pairs: Vec::new(alloc),
        }
    }

    /// The table of the pairs. Of two with one tree and one address the first stands. It takes its memory from this allocator,
    /// and each pair looks into it once.
    pub fn finish<L>(
        mut self,
        alloc: Global,
        steps: &mut Steps<L>,
    ) -> Result<LiveIndex<L>, NoMemory>
        ensures table { IfOk result (λ table.
            pairs_of table ≡ table_of (finished (held_in self))) }
        ensures looks { steps.new ≤ steps.old + length (held_in self) }
    {
        let mut table = LiveIndex::new(alloc);
        // Of the pairs behind, those that may hand their keys up to one that stands before them, the next one last.
        let mut behind = Vec::new(alloc);
        while let Some(pair) = self.pairs.pop() {
            let live = closed(pair, &mut behind);
            behind.push(live)?;
            table.insert(live, steps)?;
        }
        Ok(table)
    }
}

impl Taker for Lives {
    ghost use Rattle.std.specs.Prelude.{List};
    ghost use Rattle.live_index.specs.declared.live.Live.{Live as ALive};
    ghost use Rattle.live_maker.specs.Opened.{with_record};

    ghost Held = { List ALive };

    ghost held = { held_in };

    ghost with = { with_record };

    fn take(&mut self, one: &Record<'_>) -> Result<(), NoMemory> {
        match one {
            Record::Block(block) => {
                self.pairs.push(opened(block))?;
            }
            Record::Pointer(_) => {}
            Record::Item(item) => {
                if let Some(top) = self.pairs.last_mut() {
                    top.last = greater(item.key, top.last);
                }
            }
        }
        Ok(())
    }
}

// The pair of a block that has had no item.
fn opened(block: &WalkedBlock) -> Live
    ensures { result ≡ opened block.now }
{
    Live {
        tree: block.tree,
        address: block.address,
        level: block.level,
        generation: block.generation,
        first: first_of(block),
        last: Key::none(),
        parent: block.parent,
        owner: block.owner,
    }
}

// The first key of a block, or the greatest key where it has none.
fn first_of(block: &WalkedBlock) -> Key
    ensures { result ≡ first_or_greatest block.now.first }
{
    match block.first {
        Some(key) => key,
        None => Key {
            objectid: u64::MAX,
            kind: u8::MAX,
            offset: u64::MAX,
        },
    }
}

// The greater of two keys.
fn greater(a: Key, b: Key) -> Key
    ensures { result ≡ greater_key a b }
{
    if a.is_below(&b) { b } else { a }
}

// Whether of two pairs the second's block is not below the first's.
fn closes(live: &Live, one: &Live) -> bool
    ensures { result ≡ closes live.now one.now }
{
    one.tree != live.tree || live.level <= one.level
}

// Closes the block of a pair: the pairs of blocks below it hand their last keys up to it, and are no longer among those behind.
fn closed(live: Live, behind: &mut Vec<Live>) -> Live
    ensures live { result ≡ raised (last_below live (reverse behind.old.items)) live }
    ensures left { reverse behind.new.items ≡ left_of live (reverse behind.old.items) }
{
    let mut last = live.last;
    while let Some(one) = behind.last().copied() {
        if closes(&live, &one) {
            break;
        }
        last = greater(one.last, last);
        behind.pop();
    }
    Live { last, ..live }
}

/// Once all blocks are closed, what is made of the records of walks are the live pairs of the blocks among them.
pub fn lives_made_law()
    ensures { LivesMade }
{}
