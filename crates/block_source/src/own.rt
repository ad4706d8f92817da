//! A block's own records: itself, and its pointers or items.

ghost use Rattle.std.specs.Prelude.{◌≡◌, ◌<◌, OnOk};
ghost use Rattle.std.specs.List.{fold};
ghost use Rattle.node_reader.specs.Layout.{items_of, level_of, pointers_of};
ghost use Rattle.records.specs.Walk.{block_at as at_block, leaf_records, own_records, pointer_records};
ghost use Rattle.block_source.specs.Takes.{PutsInto};

use crate::halt::Halt;
use node_reader::{Block, Expect};
use records::{PointerAt, RecAt, Record, Taker, WalkedBlock, read_item};
use super_reader::Super;
use verdict::{At, NoMemory};

/// Gives a block's own records to a taker: itself, then its pointers or items in their order. It stops at the first finding of an item.
#[tactic(auto, using(crate::proofs::Walking::steps), unfolding(records::specs::Walk::own_records))]
pub fn take_own<T: Taker>(
    sup: &Super,
    e: &Expect,
    block: &Block<'_>,
    into: &mut T,
) -> Result<(), Halt>
    requires { level_of block.now ≡ e.now.level }
    ensures { PutsInto T.Taker into.old into.new result (own_records sup.now e.now block.now) }
{
    into.take(&Record::Block(block_at(e, block)))?;
    if e.level == 0 {
        return take_items(&sup.place(e.tree, e.address, e.generation), block, into);
    }
    take_pointers(e, block, into)?;
    Ok(())
}

// The block that is expected, as a record.
fn block_at(e: &Expect, block: &Block<'_>) -> WalkedBlock
    ensures { result ≡ at_block e.now block.now }
{
    WalkedBlock {
        tree: e.tree,
        address: e.address,
        level: e.level,
        generation: e.generation,
        low: e.low,
        parent: e.parent,
        owner: block.owner(),
        first: block.first_key(),
    }
}

// Gives the records of a leaf's items to a taker.
#[tactic(auto, using(crate::proofs::Walking::steps), unfolding(records::specs::Walk::leaf_records))]
fn take_items<T: Taker>(at: &At, block: &Block<'_>, into: &mut T) -> Result<(), Halt>
    requires { level_of block.now ≡ 0 }
    ensures { PutsInto T.Taker into.old into.new result
        (leaf_records at.now (items_of block.now)) }
{
    for i in 0..block.count() {
        let (key, bytes) = block.item(i);
        let part = read_item(at, key, bytes)?;
        into.take(&Record::Item(RecAt {
            tree: at.tree,
            block: at.block,
            key,
            part,
        }))?;
    }
    Ok(())
}

// Gives the records of a node's pointers to a taker.
#[tactic(auto, using(crate::proofs::Walking::steps))]
fn take_pointers<T: Taker>(e: &Expect, block: &Block<'_>, into: &mut T) -> Result<(), NoMemory>
    requires { 0 < level_of block.now }
    ensures { OnOk result (T.held into.new ≡
        fold T.with (T.held into.old) (pointer_records e.now (pointers_of block.now))) }
{
    for i in 0..block.count() {
        into.take(&Record::Pointer(PointerAt {
            tree: e.tree,
            block: e.address,
            level: e.level,
            pointer: block.pointer(i),
        }))?;
    }
    Ok(())
}
