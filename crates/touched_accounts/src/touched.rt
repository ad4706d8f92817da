//! A ledger, changed by lists of postings.

ghost use Rattle.std.specs.Prelude.{◌≡◌, ℕ, ◌+◌, ◌≤◌, ◌++◌, List, length, OnOk};
ghost use Rattle.std.specs.Option.{option_copied};
ghost use Rattle.accounts.specs.declared.postings.Posting.{Posting};
ghost use Rattle.ledger_index.specs.Ledger.{IsTidy, entries_of, sums_of};
ghost use Rattle.touched_accounts.specs.Least.{IsLeastTouched, stands_before};
ghost use Rattle.ledger_index.specs.Looks.{counted_times};
ghost use Rattle.touched_accounts.specs.Looks.{HaveLooks};
ghost use Rattle.touched_accounts.specs.Sums.{less_all, with_all};

use accounts::{Account, Postings};
use ledger_index::LedgerIndex;
use recon_disk::Steps;
use verdict::NoMemory;

/// Adds each of some postings to a ledger. Out of memory, also where a sum would pass 128 bits, any part of them may be
/// added. An entry stands for exactly the accounts whose sums are not all zero, if that was so before. Each posting looks once, and each
/// entry more comes by a look.
pub fn put_all<L>(
    ledger: &mut LedgerIndex<L>,
    postings: &Postings,
    steps: &mut Steps<L>,
) -> Result<(), NoMemory>
    ensures sums { OnOk result
        (sums_of ledger.new ≡ with_all (sums_of ledger.old) postings.now) }
    ensures entries { IsTidy ledger.old → IsTidy ledger.new }
    ensures looks { steps.new ≤ steps.old + length postings.now }
    ensures counts { OnOk result (steps.new ≡ counted_times (length postings.now) steps.old) }
    ensures few { (begun : ℕ) → HaveLooks begun (entries_of ledger.old) steps.old →
        HaveLooks begun (entries_of ledger.new) steps.new }
{
    for posting in postings.as_slice() {
        let full = ledger.add_saturating(&posting.account, posting.field, posting.amount, steps)?;
        if full {
            return Err(NoMemory);
        }
    }
    Ok(())
}

/// Takes each of some postings from a ledger, or all that stands where less does. An entry stands for exactly the accounts
/// whose sums are not all zero, if that was so before.
pub fn take_all<L>(ledger: &mut LedgerIndex<L>, postings: &Postings, steps: &mut Steps<L>)
    ensures sums { sums_of ledger.new ≡ less_all (sums_of ledger.old) postings.now }
    ensures entries { IsTidy ledger.old → IsTidy ledger.new }
    ensures looks { steps.new ≤ steps.old + length postings.now }
{
    for posting in postings.as_slice() {
        ledger.take(&posting.account, posting.field, posting.amount, steps);
    }
}

/// The least account that is broken by the ledger, of those to which postings of two lists go, `None` exactly where none
/// of them is.
pub fn judge_touched<'a, L>(
    ledger: &LedgerIndex<L>,
    gone: &'a Postings,
    came: &'a Postings,
    steps: &mut Steps<L>,
) -> Option<&'a Account>
    ensures least { IsLeastTouched (sums_of ledger.now) (gone.now ++ came.now)
        (option_copied result) }
    ensures looks { steps.new ≤ steps.old + length gone.now + length came.now }
{
    let least = judge_more(ledger, gone, None, steps);
    judge_more(ledger, came, least, steps)
}

// The least broken of an account and of those to which some postings go. The account is the least broken one of those to
// which earlier postings go.
fn judge_more<'a, L>(
    ledger: &LedgerIndex<L>,
    postings: &'a Postings,
    least: Option<&'a Account>,
    steps: &mut Steps<L>,
) -> Option<&'a Account>
    ensures least { (earlier : List Posting) →
        IsLeastTouched (sums_of ledger.now) earlier (option_copied least.entry) →
        IsLeastTouched (sums_of ledger.now) (earlier ++ postings.now) (option_copied result) }
    ensures looks { steps.new ≤ steps.old + length postings.now }
{
    let mut found = least;
    for posting in postings.as_slice() {
        let account = &posting.account;
        if stands_before(account, found) && ledger.breaks(account, steps) {
            found = Some(account);
        }
    }
    found
}

// Whether an account stands before another, if there is another.
fn stands_before(account: &Account, other: Option<&Account>) -> bool
    ensures { result ≡ stands_before account.now (option_copied other.entry) }
{
    match other {
        Some(other) => account < other,
        None => true,
    }
}
