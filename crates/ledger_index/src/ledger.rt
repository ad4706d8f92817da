//! The ledger.

ghost use Rattle.std.specs.Prelude.{◌≡◌, ℕ, ◌+◌, ◌<◌, ◌≤◌, List, ◌∷◌, false, Some, IfOk, OnOk, OnErr, nat_lt, slice_get};
ghost use Rattle.indexmap.specs.IndexMap.{index_map_len};
ghost use Rattle.accounts.specs.Broken.{is_broken};
ghost use Rattle.accounts.specs.Least.{IsLeastBroken};
ghost use Rattle.accounts.specs.Lent.{account_lent};
ghost use Rattle.accounts.specs.Sums.{sum_in};
ghost use Rattle.accounts.specs.Tally.{no_sums};
ghost use Rattle.recon_disk.specs.Outside.{counted};
ghost use Rattle.ledger_maps.specs.declared.page.Page.{Page as APage};
ghost use Rattle.ledger_keys.specs.declared.seat.PageKey.{PageKey as APageKey};
ghost use Rattle.ledger_index.specs.Apart.{AreApart};
ghost use Rattle.ledger_maps.specs.Entries.{by_key};
ghost use Rattle.ledger_index.specs.Judged.{IsLeastBut, breaks as rule_breaks, lesser_of};
ghost use Rattle.ledger_keys.specs.Kept.{sums_at};
ghost use Rattle.ledger_index.specs.Looks.{counted_times};
ghost use Rattle.ledger_keys.specs.Seat.{is_same_page, kind_at};
ghost use Rattle.ledger_index.specs.Seated.{left_pages};
ghost use Rattle.ledger_keys.specs.Sums.{changed, greatest, lower, raise};
ghost use Rattle.ledger_index.specs.Unpaged as unpaged;

use crate::judged::{breaks, is_broken, lesser};
use crate::unpaged::Unpaged;
use accounts::{Account, NameAccount, Totals, broken};
use ledger_keys::{PageKey, Seat, kind_at};
use ledger_maps::{Page, Pages};
use recon_disk::Steps;
use std::alloc::Global;
use std::marker::PhantomData;
use verdict::NoMemory;

/// The totals of the accounts of an image. Those of inodes, and of the type of regular files, stand in pages: eight inodes
/// with numbers next to each other to a page. Those of the names of regular files stand two to an entry: that of the entry of
/// the directory, and that of the link of the inode. The other accounts have an entry each. A page or an entry stands only
/// where some total is not zero. Each call looks once into the tables and counts that, but for `new`, which does not look,
/// and `least_broken`, which looks once for each page and entry.
///
/// The mark `L` ties the table to its counter: code that is generic in `L` can make no counter of its own.
#[derive(Drop)]
pub struct LedgerIndex<L> {
    pages: Pages,
    unpaged: Unpaged,
    alloc: Global,
    mark: PhantomData<L>,
    ghost apart: { AreApart unpaged },
}

impl<L> LedgerIndex<L> {
    ghost use Rattle.ledger_index.specs.Ledger.{IsTidy, entries_of, sums_of};

    /// The empty ledger. It takes its memory from this allocator, and none yet.
    #[tactic(auto, using(crate::proofs::LedgerLaws::is_tidy), unfolding(crate::specs::Ledger::entries_of))]
    pub fn new(alloc: Global) -> LedgerIndex<L>
        ensures sums { sums_of result ≡ no_sums }
        ensures entries { IsTidy result }
        ensures none { entries_of result ≡ 0 }
    {
        LedgerIndex {
            pages: Pages::new(alloc),
            unpaged: Unpaged::new(alloc),
            alloc,
            mark: PhantomData,
        }
    }

    /// The totals of an account, zero where nothing was posted.
    pub fn get(&self, account: &Account, steps: &mut Steps<L>) -> Totals
        ensures sums { (n : ℕ) → sum_in result n ≡ sums_of self.now account.now n }
        ensures looks { steps.new ≡ counted steps.old }
    {
        steps.look();
        self.totals_of(account)
    }

    /// Whether the totals of an account break its rule.
    pub fn breaks(&self, account: &Account, steps: &mut Steps<L>) -> bool
        ensures broken { result ≡ is_broken account.now (sums_of self.now account.now) }
        ensures looks { steps.new ≡ counted steps.old }
    {
        steps.look();
        let Some(seat) = Seat::of(account) else {
            return self.unpaged.breaks(account);
        };
        match self.pages.kept(&seat) {
            Some(kept) => is_broken(account, kept),
            None => false,
        }
    }

    // The totals of an account, by a look that is not counted.
    fn totals_of(&self, account: &Account) -> Totals
        ensures { (n : ℕ) → sum_in result n ≡ sums_of self.now account.now n }
    {
        let Some(seat) = Seat::of(account) else {
            return self.unpaged.totals_of(account);
        };
        match self.pages.kept(&seat) {
            Some(kept) => kept.totals(),
            None => Totals::zero(),
        }
    }

    /// Adds an amount to the sum of an account with this number. A sum that would pass the greatest number of 128 bits
    /// stays at that number. A field above 8 names no sum, and changes nothing. Out of memory, the ledger stays.
    pub fn add(
        &mut self,
        account: &Account,
        field: u8,
        amount: u64,
        steps: &mut Steps<L>,
    ) -> Result<(), NoMemory>
        ensures ok { OnOk result
            (sums_of self.new ≡ changed raise (sums_of self.old) account.now field amount) }
        ensures err { OnErr result (sums_of self.new ≡ sums_of self.old) }
        ensures entries { IsTidy self.new }
        ensures few { entries_of self.new ≤ entries_of self.old + 1 }
        ensures looks { steps.new ≡ counted steps.old }
    {
        self.add_saturating(account, field, amount, steps)?;
        Ok(())
    }

    /// Adds as `add` does, and tells whether the sum stands at the greatest number of 128 bits then, where a part of the
    /// amount may be lost. A field above 8 names no sum: false.
    #[tactic(auto, using(crate::proofs::LedgerLaws::is_tidy))]
    pub fn add_saturating(
        &mut self,
        account: &Account,
        field: u8,
        amount: u64,
        steps: &mut Steps<L>,
    ) -> Result<bool, NoMemory>
        ensures ok { OnOk result
            (sums_of self.new ≡ changed raise (sums_of self.old) account.now field amount) }
        ensures full { IfOk result (λ full. full ≡ false →
            sums_of self.new account.now field < greatest) }
        ensures err { OnErr result (sums_of self.new ≡ sums_of self.old) }
        ensures entries { IsTidy self.new }
        ensures few { entries_of self.new ≤ entries_of self.old + 1 }
        ensures looks { steps.new ≡ counted steps.old }
    {
        // A call that changes nothing is a look too.
        steps.look();
        if !names_a_sum(field) || amount == 0 {
            return Ok(self.is_full_at(account, field));
        }
        match Seat::of(account) {
            Some(seat) => self.pages.add(self.alloc, &seat, field, amount, steps),
            None => self.unpaged.add_saturating(account, field, amount, steps),
        }
    }

    /// Adds as `add_saturating` does, to an account of a name. The account is made only where it has to have an entry of its own,
    /// or where nothing is added. It takes its memory from the ledger's allocator then.
    #[tactic(auto, using(crate::proofs::LedgerLaws::is_tidy))]
    pub fn add_name(
        &mut self,
        name: &NameAccount<'_>,
        field: u8,
        amount: u64,
        steps: &mut Steps<L>,
    ) -> Result<bool, NoMemory>
        ensures ok { OnOk result (sums_of self.new
            ≡ changed raise (sums_of self.old) (account_lent name.now) field amount) }
        ensures full { IfOk result (λ full. full ≡ false →
            sums_of self.new (account_lent name.now) field < greatest) }
        ensures err { OnErr result (sums_of self.new ≡ sums_of self.old) }
        ensures entries { IsTidy self.new }
        ensures few { entries_of self.new ≤ entries_of self.old + 1 }
        ensures looks { steps.new ≡ counted steps.old }
    {
        steps.look();
        if !names_a_sum(field) || amount == 0 {
            let account = name.account(self.alloc)?;
            return Ok(self.is_full_at(&account, field));
        }
        self.unpaged.add_lent(name, field, amount, steps)
    }

    // Whether a sum of an account stands at the greatest number of 128 bits. A field above 8 names no sum.
    #[inline(never)]
    fn is_full_at(&self, account: &Account, field: u8) -> bool
        ensures { result ≡ false → sums_of self.now account.now field < greatest }
    {
        is_full(&self.totals_of(account), field)
    }

    /// Takes an amount from the sum of an account with this number, or all that stands there where that is less. A
    /// field above 8 names no sum, and changes nothing.
    #[tactic(auto, using(crate::proofs::LedgerLaws::is_tidy))]
    pub fn take(&mut self, account: &Account, field: u8, amount: u64, steps: &mut Steps<L>)
        ensures sums { sums_of self.new
            ≡ changed lower (sums_of self.old) account.now field amount }
        ensures entries { IsTidy self.new }
        ensures looks { steps.new ≡ counted steps.old }
    {
        steps.look();
        if !names_a_sum(field) {
            return;
        }
        match Seat::of(account) {
            Some(seat) => self.pages.take(&seat, field, amount),
            None => self.unpaged.take(account, field, amount),
        }
    }

    /// The least account that its totals break, `None` exactly where no account is broken. It goes through all pages and
    /// entries, each of which is one look. The account takes its memory from the ledger's allocator. Out of memory, some
    /// pages and entries were not looked at.
    #[tactic(auto, unfolding(crate::specs::Ledger::entries_of))]
    pub fn least_broken(&self, steps: &mut Steps<L>) -> Result<Option<Account>, NoMemory>
        ensures least { IfOk result (IsLeastBroken
            (λ account. is_broken account (sums_of self.now account))) }
        ensures counts { OnOk result
            (steps.new ≡ counted_times (entries_of self.now) steps.old) }
        ensures looks { steps.new ≤ steps.old + entries_of self.now }
    {
        let least = self.unpaged.least_broken(steps)?;
        Ok(self.least_seated(least, steps))
    }

    // The least broken one of the accounts with seats, and of an account that is the least of those without.
    fn least_seated(&self, first: Option<Account>, steps: &mut Steps<L>) -> Option<Account>
        ensures least { IsLeastBroken
            (λ account. is_broken account (unpaged.sums_of self.now.unpaged account)) first →
            IsLeastBroken (λ account. is_broken account (sums_of self.now account)) result }
        ensures counts { steps.new ≡ counted_times (index_map_len self.now.pages.map) steps.old }
    {
        let mut least = first;
        for (key, page) in self.pages.map() {
            steps.look();
            least = self.least_of_page(key, page, least);
        }
        least
    }

    // The least broken one of those whose seats are in a page, and of an account that is the least of those before.
    fn least_of_page(&self, key: &PageKey, page: &Page, first: Option<Account>) -> Option<Account>
        requires { by_key is_same_page self.now.pages.map key.now ≡ Some page.now }
        ensures { (rest : List (APageKey × APage)) →
            IsLeastBut (sums_of self.now) (left_pages ((key.now, page.now) ∷ rest)) first →
            IsLeastBut (sums_of self.now) (left_pages rest) result }
    {
        let mut least = first;
        for slot in 0..16 {
            if !breaks_at(self.alloc, page, slot) {
                continue;
            }
            least = self.lesser(key.account(self.alloc, slot), least);
        }
        least
    }

    // An account, where the ledger breaks it and it stands before another, or else the other.
    fn lesser(&self, account: Account, other: Option<Account>) -> Option<Account>
        ensures { result
            ≡ lesser_of (is_broken account (sums_of self.now account)) account other }
    {
        let is_broken = broken(&account, &self.totals_of(&account));
        lesser(is_broken, account, other)
    }
}

// Whether the sums of a slot of a page break the rule of its account.
fn breaks_at(alloc: Global, page: &Page, slot: u8) -> bool
    ensures { result
        ≡ rule_breaks (kind_at slot) (sums_at (slice_get page.now.slots.items slot)) }
{
    match page.kept(slot) {
        Some(kept) => breaks(alloc, kind_at(slot), kept),
        None => false,
    }
}

// Whether a field names one of the nine sums.
fn names_a_sum(field: u8) -> bool
    ensures { result ≡ nat_lt field 9 }
{
    field < 9
}

// Whether a sum stands at the greatest number of 128 bits. A field above 8 names no sum.
fn is_full(totals: &Totals, field: u8) -> bool
    ensures { result ≡ false → sum_in totals.now field < greatest }
{
    match totals.f.get(usize::from(field)) {
        Some(sum) => *sum == u128::MAX,
        None => false,
    }
}
