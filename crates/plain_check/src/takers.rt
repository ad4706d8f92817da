//! Who takes records in the check itself: where trees begin, by the root items of the root tree.

ghost use Rattle.std.specs.Prelude.{◌≡◌, []};
ghost use Rattle.volume_items.specs.declared.root_at.RootAt.{RootAt as ARoot};
ghost use Rattle.records.specs.Takes.{with_root};

use records::{Rec, RecAt, Record, Taker};
use std::alloc::Global;
use verdict::NoMemory;
use volume_items::RootAt;

// Where trees begin by root items, in the order of these.
#[derive(Debug, Drop)]
pub struct Roots {
    // The list.
    pub items: Vec<RootAt>,
}

impl Roots {
    // None yet. They take their memory from this allocator.
    pub fn new(alloc: Global) -> Roots
        ensures { result.items.items ≡ [] }
    {
        Roots {
            items: Vec::new(alloc),
        }
    }
}

impl Taker for Roots {
    ghost use Rattle.std.specs.Prelude.{List};

    ghost Held = { List ARoot };

    ghost held = { λ roots. roots.items.items };

    ghost with = { with_root };

    fn take(&mut self, one: &Record<'_>) -> Result<(), NoMemory> {
        if let Record::Item(one) = one
            && let Rec::RootItem(item) = one.part
            && self.items.push(RootAt::of(&item)).is_err()
        {
            return Err(NoMemory);
        }
        Ok(())
    }
}
