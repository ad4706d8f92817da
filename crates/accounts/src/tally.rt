//! The sums of all accounts that are posted to.

ghost use Rattle.std.specs.Prelude.{◌≡◌, false, [], ◌∷◌, OnOk};
ghost use Rattle.std.specs.Option.{option_copied};
ghost use Rattle.accounts.specs.Broken.{is_broken};
ghost use Rattle.accounts.specs.Least.{IsLeastBroken};
ghost use Rattle.accounts.specs.Tally.{no_sums, sums_in, with_postings};

use crate::totals::is_settled;
use crate::{Account, Posting, Postings, Totals, broken};
use std::alloc::Global;
use std::collections::BTreeMap;
use std::collections::btree_map::Entry;
use verdict::NoMemory;

/// The sums of the accounts that are posted to. Of an account whose rule is that two sums are equal it keeps their
/// difference, and nothing where that is zero.
#[derive(Debug, Drop)]
pub struct Tally {
    entries: BTreeMap<Account, Totals>,
}

impl Tally {
    /// One without postings. It takes its memory from this allocator.
    #[tactic(auto, using(crate::proofs::Entries::empty_sums))]
    pub fn new(alloc: Global) -> Tally
        ensures { sums_in result ≡ no_sums }
    {
        Tally {
            entries: BTreeMap::new(alloc),
        }
    }

    /// Adds all of a list of postings, which is empty then. Want of memory, also where a sum would pass 128 bits, may
    /// leave any part of them added.
    pub fn add_all(&mut self, postings: &mut Postings) -> Result<(), NoMemory>
        ensures sums { OnOk result
            (sums_in self.new ≡ with_postings (sums_in self.old) postings.old) }
        ensures taken { OnOk result (postings.new ≡ []) }
    {
        while let Some(posting) = postings.pop() {
            self.add(posting)?;
        }
        Ok(())
    }

    // Adds a posting.
    fn add(&mut self, posting: Posting) -> Result<(), NoMemory>
        ensures { OnOk result
            (sums_in self.new ≡ with_postings (sums_in self.old) (posting ∷ [])) }
    {
        let field = usize::from(posting.field);
        if field > 8 || posting.amount == 0 {
            return Ok(());
        }
        let kind = posting.account.kind;
        match self.entries.entry(posting.account) {
            Ok(Entry::Occupied(mut entry)) => {
                let totals = entry.get_mut();
                totals.add(kind, field, posting.amount)?;
                if is_settled(kind, totals) {
                    entry.remove();
                }
                Ok(())
            }
            Ok(Entry::Vacant(entry)) => {
                let mut totals = Totals::zero();
                totals.add(kind, field, posting.amount)?;
                entry.insert(totals);
                Ok(())
            }
            Err(_) => Err(NoMemory),
        }
    }

    /// Whether anything is kept of an account: where not, its sums are zero.
    pub fn has(&self, account: &Account) -> bool
        ensures { result ≡ false → sums_in self.now account.now ≡ no_sums account.now }
    {
        self.entries.contains_key(account)
    }

    /// The least account that is broken by what was posted, or `None` exactly where none is.
    pub fn least_broken(&self) -> Option<&Account>
        ensures { IsLeastBroken (λ account. is_broken account (sums_in self.now account))
            (option_copied result) }
    {
        for (account, totals) in &self.entries {
            if broken(account, totals) {
                return Some(account);
            }
        }
        None
    }
}
