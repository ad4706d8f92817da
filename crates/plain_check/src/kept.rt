//! Records that are kept of walks.

ghost use Rattle.std.specs.Prelude.{◌≡◌, [], IfOk, OnOk};
ghost use Rattle.std.specs.List.{fold};
ghost use Rattle.records.specs.Seen.{seen};
ghost use Rattle.plain_check.specs.Kept.{kept_seen};

use records::{ItemAt, PointerAt, RecAt, Record, Taker, WalkedBlock};
use std::alloc::Global;
use std::marker::Model;
use verdict::NoMemory;

// A record that owns its bytes.
#[derive(Drop)]
pub enum KeptRecord {
    // A block.
    Block(WalkedBlock),
    // A pointer of a node.
    Pointer(PointerAt),
    // An item of a leaf.
    Item(ItemAt),
}

impl KeptRecord {
    // A copy of a record.
    fn of(alloc: Global, one: &Record<'_>) -> Result<KeptRecord, NoMemory>
        ensures { IfOk result (λ kept. kept_seen kept ≡ seen one.now) }
    {
        match one {
            Record::Block(block) => Ok(KeptRecord::Block(*block)),
            Record::Pointer(pointer) => Ok(KeptRecord::Pointer(*pointer)),
            Record::Item(item) => {
                let part = item.part.to_owned(alloc)?;
                Ok(KeptRecord::Item(ItemAt {
                    tree: item.tree,
                    block: item.block,
                    key: item.key,
                    part,
                }))
            }
        }
    }

    // The record, lent: what was copied.
    fn lend(&self) -> Record<'_>
        ensures { seen result ≡ kept_seen self.now }
    {
        match self {
            KeptRecord::Block(block) => Record::Block(*block),
            KeptRecord::Pointer(pointer) => Record::Pointer(*pointer),
            KeptRecord::Item(item) => Record::Item(RecAt {
                tree: item.tree,
                block: item.block,
                key: item.key,
                part: item.part.lend(),
            }),
        }
    }
}

// The records of walks in their order, seen as the list of what they say.
#[derive(Drop)]
pub struct KeptRecords {
    alloc: Global,
    list: Vec<KeptRecord>,
}

impl Model for KeptRecords {
    ghost use Rattle.std.specs.Prelude.{List, map};
    ghost use Rattle.std.specs.List.{All};
    ghost use Rattle.records.specs.Seen.{Seen, IsLawfulSeen};

    ghost Value = { List Seen };

    ghost use Rattle.plain_check.specs.Kept.{kept_seen};

    ghost view = { λ k. map kept_seen k.list.items };

    ghost invariant = { λ k. All IsLawfulSeen (map kept_seen k.list.items) };
}

impl KeptRecords {
    // None yet. They take their memory from this allocator.
    pub fn new(alloc: Global) -> KeptRecords
        ensures { result ≡ [] }
    {
        KeptRecords {
            alloc,
            list: Vec::new(alloc),
        }
    }

    // Gives the records to a taker, in their order.
    pub fn give<T: Taker>(&self, into: &mut T) -> Result<(), NoMemory>
        ensures { OnOk result (T.held into.new ≡ fold T.with (T.held into.old) self.now) }
    {
        for one in &self.list {
            into.take(&one.lend())?;
        }
        Ok(())
    }
}

impl Taker for KeptRecords {
    ghost use Rattle.std.specs.Prelude.{List};
    ghost use Rattle.records.specs.Seen.{Seen};
    ghost use Rattle.plain_check.specs.Kept.{with_kept};

    ghost Held = { List Seen };

    ghost held = { λ kept. kept };

    ghost with = { with_kept };

    fn take(&mut self, one: &Record<'_>) -> Result<(), NoMemory> {
        let copy = KeptRecord::of(self.alloc, one)?;
        if self.list.push(copy).is_err() {
            return Err(NoMemory);
        }
        Ok(())
    }
}
