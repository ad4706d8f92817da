//! A ledger to which postings are added as they come.

ghost use Rattle.std.specs.Prelude.{◌≡◌, false, OnOk};
ghost use Rattle.touched_accounts.specs.Adding.{Adds};
ghost use Rattle.touched_accounts.specs.AddingLaws.{adds_pass};

use accounts::{NameAccount, Poster, Posting};
use ledger_index::LedgerIndex;
use recon_disk::Steps;
use std::alloc::Global;
use verdict::NoMemory;

/// A ledger, and the counter of its looks. Each posting that is handed to it is added by a look, and no list of them is made.
#[derive(Drop)]
pub struct Adding<'s, L> {
    /// The ledger.
    pub ledger: LedgerIndex<L>,
    /// The counter.
    pub steps: &'s mut Steps<L>,
}

impl<'s, L> Poster for Adding<'s, L> {
    ghost Leaves = { λ old new result postings. Adds old new result postings };

    ghost passes = { adds_pass };

    fn put(&mut self, posting: Posting) -> Result<(), NoMemory> {
        let (field, amount) = (posting.field, posting.amount);
        let full = self
            .ledger
            .add_saturating(&posting.account, field, amount, self.steps)?;
        whole(full)
    }

    fn put_name(
        &mut self,
        _alloc: Global,
        name: &NameAccount<'_>,
        field: u8,
        amount: u64,
    ) -> Result<(), NoMemory> {
        whole(self.ledger.add_name(name, field, amount, self.steps)?)
    }
}

// An error where a sum stands at the greatest number, so that a part of what was added may be lost.
fn whole(full: bool) -> Result<(), NoMemory>
    ensures { OnOk result (full ≡ false) }
{
    if full {
        return Err(NoMemory);
    }
    Ok(())
}
