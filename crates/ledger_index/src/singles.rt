//! The accounts that have an entry each.

ghost use Rattle.std.specs.Prelude.{◌≡◌, ℕ, ◌+◌, ◌<◌, ◌≤◌, [], false, None, IfOk, OnOk, OnErr};
ghost use Rattle.std.specs.BTreeMap.{btree_map_len};
ghost use Rattle.std.specs.Option.{option_copied};
ghost use Rattle.accounts.specs.Broken.{is_broken};
ghost use Rattle.accounts.specs.Least.{IsLeastBroken};
ghost use Rattle.accounts.specs.Sums.{sum_in};
ghost use Rattle.accounts.specs.Tally.{no_sums};
ghost use Rattle.ledger_keys.specs.Sums.{changed, greatest, lower, raise};
ghost use Rattle.ledger_index.specs.Judged.{IsLeastBut, is_later, left_long, left_short, lesser_of};
ghost use Rattle.ledger_index.specs.Looks.{counted_times};
ghost use Rattle.ledger_index.specs.Singles.{entry_of, long_in, short_in};
ghost use Rattle.ledger_keys.specs.Place.{place_of};

use crate::judge::Judge;
use crate::judged::{breaks, is_broken, lesser};
use crate::table::Table;
use accounts::{Account, Totals, broken};
use ledger_keys::{Kept, LongPlace, Place, mixed_by, part_by};
use ledger_maps::{Whole, copy_of};
use recon_disk::Steps;
use std::alloc::Global;
use verdict::NoMemory;

/// The sums of accounts, in an entry each. It stands for exactly those whose sums are not all zero.
#[derive(Drop)]
pub(crate) struct Singles {
    short: Table<Place>,
    long: Table<LongPlace>,
    whole: Whole,
    alloc: Global,
}

impl Singles {
    ghost use Rattle.ledger_index.specs.Singles.{entries_of, sums_of};

    /// No sums. They take their memory from this allocator, and none yet.
    #[tactic(auto, unfolding(crate::specs::Singles::entries_of))]
    pub(crate) fn new(alloc: Global) -> Singles
        ensures sums { sums_of result ≡ no_sums }
        ensures none { entries_of result ≡ 0 }
    {
        Singles {
            short: Table::new(alloc),
            long: Table::new(alloc),
            whole: Whole::new(alloc),
            alloc,
        }
    }

    /// Whether the totals of an account break its rule.
    pub(crate) fn breaks(&self, account: &Account) -> bool
        ensures { result ≡ is_broken account.now (sums_of self.now account.now) }
    {
        match self.kept_of(account) {
            Some(kept) => is_broken(account, kept),
            None => false,
        }
    }

    /// The totals of an account, zero where nothing was posted.
    pub(crate) fn totals_of(&self, account: &Account) -> Totals
        ensures { (n : ℕ) → sum_in result n ≡ sums_of self.now account.now n }
    {
        match self.kept_of(account) {
            Some(kept) => kept.totals(),
            None => Totals::zero(),
        }
    }

    // What is kept of an account, if anything is.
    #[tactic(auto, unfolding(crate::specs::Singles::entry_of))]
    fn kept_of(&self, account: &Account) -> Option<&Kept>
        ensures { option_copied result ≡ entry_of self.now account.now }
    {
        if let Some(place) = Place::of(account) {
            return self.short.kept(&place);
        }
        match LongPlace::of(account) {
            Some(place) => self.long.kept(&place),
            None => self.whole.kept(account),
        }
    }

    /// Adds an amount to the sum of an account with this number, or as much of it as there is room for in 128 bits, and
    /// tells whether the sum stands at the greatest number of 128 bits then. Out of memory, all sums stay.
    pub(crate) fn add_saturating<L>(
        &mut self,
        account: &Account,
        field: u8,
        amount: u64,
        steps: &Steps<L>,
    ) -> Result<bool, NoMemory>
        requires named { field < 9 }
        requires more { 0 < amount }
        ensures ok { OnOk result
            (sums_of self.new ≡ changed raise (sums_of self.old) account.now field amount) }
        ensures full { IfOk result (λ full. full ≡ false →
            sums_of self.new account.now field < greatest) }
        ensures err { OnErr result (sums_of self.new ≡ sums_of self.old) }
        ensures few { entries_of self.new ≤ entries_of self.old + 1 }
    {
        let mixed = mixed_by(account);
        let number = part_by(account);
        if let Some((at, place)) = self.short.hinted_of(account, number, mixed) {
            return self
                .short
                .add_at(self.alloc, number, at, &place, field, amount);
        }
        if let Some(place) = Place::of(account) {
            self.short.seed(self.alloc, &steps.seed())?;
            return self
                .short
                .add_by_hash(self.alloc, &place, mixed, field, amount);
        }
        self.add_apart(account, field, amount, &steps.seed())
    }

    // Adds as `add_saturating` does, to an account that has no short place. It stands apart from the others: what it takes
    // on the stack is not made ready for them.
    #[inline(never)]
    fn add_apart(
        &mut self,
        account: &Account,
        field: u8,
        amount: u64,
        seed: &[u8; 16],
    ) -> Result<bool, NoMemory>
        requires apart { place_of account.now ≡ None }
        requires named { field < 9 }
        requires more { 0 < amount }
        ensures ok { OnOk result
            (sums_of self.new ≡ changed raise (sums_of self.old) account.now field amount) }
        ensures full { IfOk result (λ full. full ≡ false →
            sums_of self.new account.now field < greatest) }
        ensures err { OnErr result (sums_of self.new ≡ sums_of self.old) }
        ensures few { entries_of self.new ≤ entries_of self.old + 1 }
    {
        match LongPlace::of(account) {
            Some(place) => {
                self.long.seed(self.alloc, seed)?;
                self.long.add(self.alloc, &place, field, amount)
            }
            None => self.whole.add(self.alloc, account, field, amount),
        }
    }

    /// Takes an amount from the sum of an account with this number, or all that stands there where that is less.
    pub(crate) fn take(&mut self, account: &Account, field: u8, amount: u64)
        requires { field < 9 }
        ensures { sums_of self.new
            ≡ changed lower (sums_of self.old) account.now field amount }
    {
        if let Some(place) = Place::of(account) {
            self.short.take(&place, field, amount);
            return;
        }
        match LongPlace::of(account) {
            Some(place) => self.long.take(&place, field, amount),
            None => self.whole.take(account, field, amount),
        }
    }

    /// The least account that its totals break, `None` exactly where no account is broken. It goes through all entries,
    /// each of which is a look. The account takes its memory from the ledger's allocator.
    #[tactic(auto, unfolding(crate::specs::Singles::entries_of))]
    pub(crate) fn least_broken<L>(&self, steps: &mut Steps<L>) -> Result<Option<Account>, NoMemory>
        ensures least { IfOk result (IsLeastBroken
            (λ account. is_broken account (sums_of self.now account))) }
        ensures counts { OnOk result
            (steps.new ≡ counted_times (entries_of self.now) steps.old) }
        ensures looks { steps.new ≤ steps.old + entries_of self.now }
    {
        let least = self.short.least(self, None, steps)?;
        let least = self.long.least(self, least, steps)?;
        self.least_whole(least, steps)
    }

    // The least broken one of those without places, and of an account that is the least with one.
    fn least_whole<L>(
        &self,
        first: Option<Account>,
        steps: &mut Steps<L>,
    ) -> Result<Option<Account>, NoMemory>
        ensures least { IsLeastBut (sums_of self.now) (left_long self.now []) first →
            IfOk result (IsLeastBut (sums_of self.now) (is_later [] [] [])) }
        ensures counts { OnOk result
            (steps.new ≡ counted_times (btree_map_len self.now.whole.entries) steps.old) }
        ensures looks { steps.new ≤ steps.old + btree_map_len self.now.whole.entries }
    {
        let mut least = first;
        for (account, kept) in self.whole.entries() {
            steps.look();
            if breaks(self.alloc, account.kind, kept) {
                least = self.lesser(copy_of(self.alloc, account)?, least);
            }
        }
        Ok(least)
    }

    // An account, where the ledger breaks it and it stands before another, or else the other.
    fn lesser(&self, account: Account, other: Option<Account>) -> Option<Account>
        ensures { result
            ≡ lesser_of (is_broken account (sums_of self.now account)) account other }
    {
        let is_broken = broken(&account, &self.totals_of(&account));
        lesser(is_broken, account, other)
    }
}

impl Judge<Place> for Singles {
    ghost use Rattle.ledger_index.specs.Singles.{sums_of};

    ghost entry = { short_in };

    ghost IsLeast = { λ ledger rest. IsLeastBut (sums_of ledger) (left_short ledger rest) };

    fn least_of_entry(
        &self,
        place: &Place,
        kept: &Kept,
        first: Option<Account>,
    ) -> Result<Option<Account>, NoMemory> {
        if !breaks(self.alloc, place.kind(), kept) {
            return Ok(first);
        }
        Ok(self.lesser(place.account(self.alloc)?, first))
    }
}

impl Judge<LongPlace> for Singles {
    ghost use Rattle.ledger_index.specs.Singles.{sums_of};

    ghost entry = { long_in };

    ghost IsLeast = { λ ledger rest. IsLeastBut (sums_of ledger) (left_long ledger rest) };

    fn least_of_entry(
        &self,
        place: &LongPlace,
        kept: &Kept,
        first: Option<Account>,
    ) -> Result<Option<Account>, NoMemory> {
        if !breaks(self.alloc, place.kind(), kept) {
            return Ok(first);
        }
        Ok(self.lesser(place.account(self.alloc)?, first))
    }
}
