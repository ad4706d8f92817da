//! Sums by whole accounts.

ghost use Rattle.std.specs.Prelude.{◌≡◌, ◌+◌, ◌<◌, ◌≤◌, false, None, IfOk, OnOk, OnErr};
ghost use Rattle.std.specs.BTreeMap.{btree_map_len};
ghost use Rattle.std.specs.Option.{option_copied};
ghost use Rattle.accounts.specs.declared.account.Account.{Account as AnAccount};
ghost use Rattle.accounts.specs.Sums.{is_same};
ghost use Rattle.ledger_keys.specs.Sums.{greatest, lower, raise};
ghost use Rattle.ledger_keys.specs.Kept.{sums_at};
ghost use Rattle.ledger_maps.specs.Entries.{AreTidy, Changes, Stays, by_account};

use accounts::Account;
use ledger_keys::Kept;
use std::alloc::Global;
use std::collections::BTreeMap;
use verdict::{Bytes, NoMemory};

/// The sums of accounts by the accounts themselves. An entry stands for exactly those whose sums are not all zero.
#[derive(Drop)]
pub struct Whole {
    entries: BTreeMap<Account, Kept>,
    ghost tidy: { AreTidy (by_account entries) },
}

impl Whole {
    /// No sums. They take their memory from this allocator.
    pub fn new(alloc: Global) -> Whole
        ensures none { (account : AnAccount) → by_account result.entries account ≡ None }
        ensures empty { btree_map_len result.entries ≡ 0 }
    {
        Whole {
            entries: BTreeMap::new(alloc),
        }
    }

    /// What is kept of an account, if anything is.
    pub fn kept(&self, account: &Account) -> Option<&Kept>
        ensures { option_copied result ≡ by_account self.now.entries account.now }
    {
        self.entries.get(account)
    }

    /// The entries, in the order of their accounts.
    pub fn entries(&self) -> &BTreeMap<Account, Kept>
        ensures { result.now ≡ self.now.entries }
    {
        &self.entries
    }

    /// Adds an amount to a sum of an account, or as much of it as there is room for in 128 bits, and tells whether the
    /// sum stands at the greatest number of 128 bits then. Out of memory, all sums stay.
    pub fn add(
        &mut self,
        alloc: Global,
        account: &Account,
        field: u8,
        amount: u64,
    ) -> Result<bool, NoMemory>
        requires named { field < 9 }
        requires more { 0 < amount }
        ensures ok { OnOk result (Changes is_same raise (by_account self.old.entries)
            (by_account self.new.entries) account.now field amount) }
        ensures full { IfOk result (λ full. full ≡ false →
            sums_at (by_account self.new.entries account.now) field < greatest) }
        ensures err { OnErr result
            (Stays (by_account self.old.entries) (by_account self.new.entries)) }
        ensures few { btree_map_len self.new.entries ≤ btree_map_len self.old.entries + 1 }
    {
        if let Some(kept) = self.entries.get_mut(account) {
            return kept.raise(alloc, field, amount);
        }
        let kept = Kept::one(alloc, field, amount)?;
        let account = copy_of(alloc, account)?;
        self.entries.insert(account, kept)?;
        Ok(false)
    }

    /// Takes an amount from a sum of an account, or all of it where it is less.
    pub fn take(&mut self, account: &Account, field: u8, amount: u64)
        requires { field < 9 }
        ensures { Changes is_same lower (by_account self.old.entries)
            (by_account self.new.entries) account.now field amount }
    {
        let Some(kept) = self.entries.get_mut(account) else {
            return;
        };
        kept.lower(field, amount);
        if kept.is_zero() {
            self.entries.remove(account);
        }
    }
}

/// A copy of an account.
pub fn copy_of(alloc: Global, account: &Account) -> Result<Account, NoMemory>
    ensures { IfOk result (λ copy. copy ≡ account.now) }
{
    Ok(Account {
        kind: account.kind,
        tree: account.tree,
        block: account.block,
        key: account.key,
        detail: account.detail,
        tail: Bytes::of(alloc, account.tail.as_slice())?,
    })
}
