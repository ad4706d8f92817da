//! The sums of sixteen accounts.

ghost use Rattle.std.specs.Prelude.{◌≡◌, ◌↔◌, ◌<◌, IsTrue, [], false, IfOk, OnOk, OnErr, length, slice_get};
ghost use Rattle.std.specs.Option.{option_copied};
ghost use Rattle.ledger_keys.specs.Sums.{greatest, lower, raise};
ghost use Rattle.ledger_keys.specs.Kept.{sums_at};

use ledger_keys::Kept;
use std::alloc::Global;
use verdict::NoMemory;

/// The sums of the sixteen accounts of a page, by their slots.
#[derive(Drop)]
pub struct Page {
    slots: Vec<Kept>,
    ghost whole: { length slots.items ≡ 16 },
}

impl Page {
    ghost use Rattle.ledger_maps.specs.Pages.{AreZero, SlotChanges, SlotsStay};

    /// One amount to a sum of the account of a slot, and nothing else.
    pub fn one(alloc: Global, slot: u8, field: u8, amount: u64) -> Result<Page, NoMemory>
        requires within { slot < 16 }
        requires named { field < 9 }
        ensures { IfOk result (λ page. SlotChanges raise [] page.slots.items slot field amount) }
    {
        let mut slots = Vec::new(alloc);
        slots.reserve(16)?;
        for _slot in 0..16usize {
            slots.push(Kept::none())?;
        }
        slots[usize::from(slot)] = Kept::one(alloc, field, amount)?;
        Ok(Page { slots })
    }

    /// What is kept of the account of a slot.
    pub fn kept(&self, slot: u8) -> Option<&Kept>
        ensures { option_copied result ≡ slice_get self.now.slots.items slot }
    {
        self.slots.get(usize::from(slot))
    }

    /// Adds an amount to a sum of the account of a slot, or as much of it as there is room for in 128 bits, and tells
    /// whether the sum stands at the greatest number of 128 bits then. Out of memory, all sums stay.
    pub fn raise(
        &mut self,
        alloc: Global,
        slot: u8,
        field: u8,
        amount: u64,
    ) -> Result<bool, NoMemory>
        requires within { slot < 16 }
        requires named { field < 9 }
        ensures ok { OnOk result
            (SlotChanges raise self.old.slots.items self.new.slots.items slot field amount) }
        ensures full { IfOk result (λ full. full ≡ false →
            sums_at (slice_get self.new.slots.items slot) field < greatest) }
        ensures err { OnErr result (SlotsStay self.old.slots.items self.new.slots.items) }
    {
        self.slots[usize::from(slot)].raise(alloc, field, amount)
    }

    /// Takes an amount from a sum of the account of a slot, or all of it where it is less.
    pub fn lower(&mut self, slot: u8, field: u8, amount: u64)
        requires within { slot < 16 }
        requires named { field < 9 }
        ensures { SlotChanges lower self.old.slots.items self.new.slots.items slot field amount }
    {
        self.slots[usize::from(slot)].lower(field, amount);
    }

    /// Whether all sums are zero.
    pub fn is_zero(&self) -> bool
        ensures { IsTrue result ↔ AreZero self.now.slots.items }
    {
        for slot in 0..16 {
            if let Some(kept) = self.kept(slot)
                && !kept.is_zero()
            {
                return false;
            }
        }
        true
    }
}
