//! The accounts that have no page.

ghost use Rattle.std.specs.Prelude.{◌≡◌, ℕ, ◌+◌, ◌<◌, ◌≤◌, ◌⊎◌, ◌∷◌, List, Bool, true, false, Some, None, IfOk, IfSome, OnOk, OnErr};
ghost use Rattle.accounts.specs.declared.account.Account.{Account as AnAccount};
ghost use Rattle.accounts.specs.Broken.{is_broken};
ghost use Rattle.accounts.specs.Least.{IsLeastBroken};
ghost use Rattle.accounts.specs.Lent.{account_lent};
ghost use Rattle.accounts.specs.Sums.{sum_in};
ghost use Rattle.accounts.specs.Tally.{no_sums};
ghost use Rattle.ledger_keys.specs.declared.kept.Kept.{Kept as AKept};
ghost use Rattle.ledger_keys.specs.declared.long_place.LongPlace.{LongPlace as ALongPlace};
ghost use Rattle.ledger_index.specs.Beside.{AreNamed, AreOnce};
ghost use Rattle.ledger_index.specs.Judged.{IsLeastBut, lesser_of};
ghost use Rattle.ledger_keys.specs.Link.{name_said};
ghost use Rattle.ledger_index.specs.Looks.{counted_times};
ghost use Rattle.ledger_keys.specs.Name.{name_of};
ghost use Rattle.ledger_maps.specs.Names.{CountedIn};
ghost use Rattle.ledger_index.specs.Singles as single;
ghost use Rattle.ledger_keys.specs.Sums.{changed, greatest, lower, raise};

use crate::judge::Judge;
use crate::judged::lesser;
use crate::singles::Singles;
use crate::table::Table;
use accounts::{Account, NameAccount, Totals, broken};
use ledger_keys::{Kept, Link, LongPlace, Name, Side};
use recon_disk::Steps;
use std::alloc::Global;
use verdict::NoMemory;

/// The sums of accounts, those of names two to an entry, and others in an entry each. An entry stands for exactly the
/// accounts whose sums are not all zero.
#[derive(Drop)]
pub(crate) struct Unpaged {
    names: Table<LongPlace>,
    singles: Singles,
    // Whether an account of a name may have an entry of its own, since another has its side of the name. No account begins in
    // the entry of a name then.
    apart: bool,
    alloc: Global,
    ghost counted: { CountedIn names.parts.items },
    ghost once: { AreOnce names.parts.items singles },
    ghost named: { apart ≡ false → AreNamed singles },
}

impl Unpaged {
    ghost use Rattle.ledger_index.specs.Added.{HasNone, IsAdded, IsInName};
    ghost use Rattle.ledger_index.specs.Named.{IsHere, kept_in, left_in};
    ghost use Rattle.ledger_index.specs.Unpaged.{entries_of, sums_of};

    /// No sums. They take their memory from this allocator, and none yet.
    #[tactic(auto, unfolding(crate::specs::Unpaged::entries_of))]
    pub(crate) fn new(alloc: Global) -> Unpaged
        ensures sums { sums_of result ≡ no_sums }
        ensures none { entries_of result ≡ 0 }
    {
        Unpaged {
            names: Table::new(alloc),
            singles: Singles::new(alloc),
            apart: false,
            alloc,
        }
    }

    /// Whether the totals of an account break its rule.
    pub(crate) fn breaks(&self, account: &Account) -> bool
        ensures { result ≡ is_broken account.now (sums_of self.now account.now) }
    {
        match self.named(account) {
            Some((first, second)) => first != second,
            None => self.singles.breaks(account),
        }
    }

    /// The totals of an account, zero where nothing was posted.
    pub(crate) fn totals_of(&self, account: &Account) -> Totals
        ensures { (n : ℕ) → sum_in result n ≡ sums_of self.now account.now n }
    {
        let mut totals = self.singles.totals_of(account);
        if let Some((first, second)) = self.named(account) {
            totals.f[0] = first;
            totals.f[1] = second;
        }
        totals
    }

    // The first two sums of an account of a name, if it has sums in the entry of the name.
    fn named(&self, account: &Account) -> Option<(u128, u128)>
        ensures some { IfSome result (λ sums. IsInName self.now account.now sums.0 sums.1) }
        ensures none { result ≡ None → (n : ℕ) → sums_of self.now account.now n
            ≡ single.sums_of self.now.singles account.now n }
    {
        let Some(name) = Name::of(account) else {
            return None;
        };
        let (first, second) = self.names.sums(&name);
        if first == 0 && second == 0 {
            return None;
        }
        Some((first, second))
    }

    /// Adds an amount to the sum of an account with this number, or as much of it as there is room for in 128 bits, and
    /// tells whether the sum stands at the greatest number of 128 bits then. Out of memory, all sums stay.
    pub(crate) fn add_saturating<L>(
        &mut self,
        account: &Account,
        field: u8,
        amount: u64,
        steps: &Steps<L>,
    ) -> Result<bool, NoMemory>
        requires named { field < 9 }
        requires more { 0 < amount }
        ensures ok { OnOk result
            (sums_of self.new ≡ changed raise (sums_of self.old) account.now field amount) }
        ensures full { IfOk result (λ full. full ≡ false →
            sums_of self.new account.now field < greatest) }
        ensures err { OnErr result (sums_of self.new ≡ sums_of self.old) }
        ensures few { entries_of self.new ≤ entries_of self.old + 1 }
    {
        match self.add_named(account, field, amount, steps)? {
            Some(full) => Ok(full),
            None => self.singles.add_saturating(account, field, amount, steps),
        }
    }

    /// Adds as `add_saturating` does, to an account of a name, which is made only where it has to have an entry of its own.
    pub(crate) fn add_lent<L>(
        &mut self,
        name: &NameAccount<'_>,
        field: u8,
        amount: u64,
        steps: &Steps<L>,
    ) -> Result<bool, NoMemory>
        requires named { field < 9 }
        requires more { 0 < amount }
        ensures ok { OnOk result
            (sums_of self.new ≡ changed raise (sums_of self.old) (account_lent name.now) field amount) }
        ensures full { IfOk result (λ full. full ≡ false →
            sums_of self.new (account_lent name.now) field < greatest) }
        ensures err { OnErr result (sums_of self.new ≡ sums_of self.old) }
        ensures few { entries_of self.new ≤ entries_of self.old + 1 }
    {
        if let Some(link) = Link::lent(name)
            && let Some(full) = self.add_link(&link, field, amount, steps)?
        {
            return Ok(full);
        }
        let account = name.account(self.alloc)?;
        self.add_saturating(&account, field, amount, steps)
    }

    // Adds as `add_saturating` does, in the entry of the account's name. `None` where the account is of no name, or has to have an
    // entry of its own.
    fn add_named<L>(
        &mut self,
        account: &Account,
        field: u8,
        amount: u64,
        steps: &Steps<L>,
    ) -> Result<Option<bool>, NoMemory>
        requires more { 0 < amount }
        ensures ok { IfOk result (IsAdded self.old self.new account.now field amount) }
        ensures none { IfOk result (λ full. full ≡ None →
            entries_of self.new ≤ entries_of self.old) }
        ensures err { OnErr result (sums_of self.new ≡ sums_of self.old) }
        ensures few { entries_of self.new ≤ entries_of self.old + 1 }
    {
        match Link::of(account) {
            Some(link) => self.add_link(&link, field, amount, steps),
            None => Ok(None),
        }
    }

    // Adds as `add_named` does, to the accounts that say this of a link.
    fn add_link<L>(
        &mut self,
        link: &Link<'_>,
        field: u8,
        amount: u64,
        steps: &Steps<L>,
    ) -> Result<Option<bool>, NoMemory>
        requires said { (account : AnAccount) × (name_of account ≡ name_said link.now) }
        requires more { 0 < amount }
        ensures ok { (account : AnAccount) → name_of account ≡ name_said link.now →
            IfOk result (IsAdded self.old self.new account field amount) }
        ensures none { IfOk result (λ full. full ≡ None →
            entries_of self.new ≤ entries_of self.old) }
        ensures err { OnErr result (sums_of self.new ≡ sums_of self.old) }
        ensures few { entries_of self.new ≤ entries_of self.old + 1 }
    {
        let Some((name, at)) = self.names.name_said(link) else {
            return Ok(None);
        };
        if field >= 2 {
            self.apart = true;
            return Ok(None);
        }
        let may_begin = !self.apart;
        match self.names.post(
            self.alloc,
            &steps.seed(),
            &name,
            at,
            field,
            amount,
            may_begin,
        )? {
            Some(full) => Ok(Some(full)),
            None => {
                self.apart = true;
                Ok(None)
            }
        }
    }

    /// Takes an amount from the sum of an account with this number, or all that stands there where that is less.
    pub(crate) fn take(&mut self, account: &Account, field: u8, amount: u64)
        requires { field < 9 }
        ensures { sums_of self.new
            ≡ changed lower (sums_of self.old) account.now field amount }
    {
        if !self.take_named(account, field, amount) {
            self.singles.take(account, field, amount);
        }
    }

    // Takes as `take` does, in the entry of the account's name, and tells whether it has sums there.
    fn take_named(&mut self, account: &Account, field: u8, amount: u64) -> bool
        ensures took { result ≡ true →
            sums_of self.new ≡ changed lower (sums_of self.old) account.now field amount }
        ensures stays { result ≡ false → sums_of self.new ≡ sums_of self.old }
        ensures none { result ≡ false → HasNone self.new account.now field }
    {
        if field >= 2 {
            return false;
        }
        match Name::of(account) {
            Some(name) => self.names.lower(&name, field, amount),
            None => false,
        }
    }

    /// The least account that its totals break, `None` exactly where no account is broken. It goes through all entries,
    /// each of which is a look. The account takes its memory from the ledger's allocator.
    #[tactic(auto, unfolding(crate::specs::Unpaged::entries_of))]
    pub(crate) fn least_broken<L>(&self, steps: &mut Steps<L>) -> Result<Option<Account>, NoMemory>
        ensures least { IfOk result (IsLeastBroken
            (λ account. is_broken account (sums_of self.now account))) }
        ensures counts { OnOk result
            (steps.new ≡ counted_times (entries_of self.now) steps.old) }
        ensures looks { steps.new ≤ steps.old + entries_of self.now }
    {
        let least = self.singles.least_broken(steps)?;
        self.names.least(self, least, steps)
    }

    // The least broken one of those with sums in the entry of a name, and of an account that is the least of those before.
    fn least_of_name(
        &self,
        place: &LongPlace,
        kept: &Kept,
        first: Option<Account>,
    ) -> Result<Option<Account>, NoMemory>
        requires { kept_in self.now place.now ≡ Some kept.now }
        ensures { (rest : List (ALongPlace × AKept)) →
            IsLeastBut (sums_of self.now) (left_in self.now ((place.now, kept.now) ∷ rest)) first →
            IfOk result (IsLeastBut (sums_of self.now) (left_in self.now rest)) }
    {
        let least = self.least_of_side(place, kept, kept.entry_side(), first)?;
        self.least_of_side(place, kept, kept.link_side(), least)
    }

    // The same of one side of the name, if there is one.
    fn least_of_side(
        &self,
        place: &LongPlace,
        kept: &Kept,
        side: Option<Side>,
        first: Option<Account>,
    ) -> Result<Option<Account>, NoMemory>
        requires { kept_in self.now place.now ≡ Some kept.now }
        ensures { (later after : AnAccount → Bool) →
            ((account : AnAccount) → after account ≡ false →
            (later account ≡ false) ⊎ IsHere place.now kept.now side account) →
            IsLeastBut (sums_of self.now) later first →
            IfOk result (IsLeastBut (sums_of self.now) after) }
    {
        let Some(side) = side else {
            return Ok(first);
        };
        let (one, other) = kept.sums(side);
        if one == other {
            return Ok(first);
        }
        Ok(self.lesser(place.side_account(self.alloc, side)?, first))
    }

    // An account, where the ledger breaks it and it stands before another, or else the other.
    fn lesser(&self, account: Account, other: Option<Account>) -> Option<Account>
        ensures { result
            ≡ lesser_of (is_broken account (sums_of self.now account)) account other }
    {
        let is_broken = broken(&account, &self.totals_of(&account));
        lesser(is_broken, account, other)
    }
}

impl Judge<LongPlace> for Unpaged {
    ghost use Rattle.ledger_index.specs.Named.{kept_in, left_in};
    ghost use Rattle.ledger_index.specs.Unpaged.{sums_of};

    ghost entry = { kept_in };

    ghost IsLeast = { λ unpaged rest. IsLeastBut (sums_of unpaged) (left_in unpaged rest) };

    fn least_of_entry(
        &self,
        place: &LongPlace,
        kept: &Kept,
        first: Option<Account>,
    ) -> Result<Option<Account>, NoMemory> {
        if kept.is_even() {
            return Ok(first);
        }
        self.least_of_name(place, kept, first)
    }
}
