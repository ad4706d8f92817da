//! The least broken account of the entries of a table.

ghost use Rattle.std.specs.Prelude.{◌≡◌, ◌+◌, ◌≤◌, ◌++◌, ◌∷◌, List, [], Some, IfOk, OnOk};
ghost use Rattle.indexmap.specs.IndexMap.{index_map_len};
ghost use Rattle.recon_disk.specs.Outside.{counted};
ghost use Rattle.ledger_keys.specs.declared.kept.Kept.{Kept as AKept};
ghost use Rattle.ledger_maps.specs.Entries.{Within, by_key, by_parts, count_in, entries_in};
ghost use Rattle.ledger_index.specs.Looks.{counted_times};

use crate::table::Table;
use accounts::Account;
use indexmap::IndexMap;
use ledger_keys::{Exact, Kept, Seeded};
use recon_disk::Steps;
use verdict::NoMemory;

/// What judges the accounts of the entries of a table, one entry after the other.
pub(crate) trait Judge<K: Exact> {
    ghost use Rattle.std.specs.Prelude.{Option, Some, ◌∷◌};
    ghost use Rattle.accounts.specs.declared.account.Account.{Account as AnAccount};

    /// What is kept under a key.
    ghost entry: { Self → K → Option AKept };

    /// An account is the least broken one but for those of some entries, which are judged later; or none is but some of these.
    ghost IsLeast: { Self → List (K × AKept) → Option AnAccount → Type 0 };

    /// The least broken one of the accounts of an entry, and of an account that is the least of those before.
    fn least_of_entry(
        &self,
        key: &K,
        kept: &Kept,
        first: Option<Account>,
    ) -> Result<Option<Account>, NoMemory>
        requires { entry self.now key.now ≡ Some kept.now }
        ensures { (rest : List (K × AKept)) → IsLeast self.now ((key.now, kept.now) ∷ rest) first →
            IfOk result (IsLeast self.now rest) };
}

impl<K: Exact> Table<K> {
    /// The least broken one of the accounts of all entries, and of an account that is the least of those before. Each entry is a look.
    pub(crate) fn least<J: Judge<K>, L>(
        &self,
        judge: &J,
        first: Option<Account>,
        steps: &mut Steps<L>,
    ) -> Result<Option<Account>, NoMemory>
        requires { J.entry judge.now ≡ by_parts K.eq K.part_of self.now.parts.items }
        ensures least { J.IsLeast judge.now (entries_in self.now.parts.items) first →
            IfOk result (J.IsLeast judge.now []) }
        ensures counts { OnOk result
            (steps.new ≡ counted_times (count_in self.now.parts.items) steps.old) }
        ensures looks { steps.new ≤ steps.old + count_in self.now.parts.items }
    {
        let mut least = first;
        for part in self.parts() {
            least = least_of_part(part, judge, least, steps)?;
        }
        Ok(least)
    }
}

// The same of the entries of a part.
fn least_of_part<K: Exact, J: Judge<K>, L>(
    part: &IndexMap<K, Kept, Seeded>,
    judge: &J,
    first: Option<Account>,
    steps: &mut Steps<L>,
) -> Result<Option<Account>, NoMemory>
    requires { Within (by_key K.eq part.now) (J.entry judge.now) }
    ensures least { (rest : List (K × AKept)) →
        J.IsLeast judge.now (part.now.entries ++ rest) first →
        IfOk result (J.IsLeast judge.now rest) }
    ensures counts { OnOk result (steps.new ≡ counted_times (index_map_len part.now) steps.old) }
    ensures looks { steps.new ≤ steps.old + index_map_len part.now }
{
    let mut least = first;
    for (key, kept) in part {
        least = look_at(key, kept, judge, least, steps)?;
    }
    Ok(least)
}

// Looks at an entry: the least broken one of its accounts, and of an account that is the least of those before.
fn look_at<K: Exact, J: Judge<K>, L>(
    key: &K,
    kept: &Kept,
    judge: &J,
    first: Option<Account>,
    steps: &mut Steps<L>,
) -> Result<Option<Account>, NoMemory>
    requires { J.entry judge.now key.now ≡ Some kept.now }
    ensures least { (rest : List (K × AKept)) →
        J.IsLeast judge.now ((key.now, kept.now) ∷ rest) first →
        IfOk result (J.IsLeast judge.now rest) }
    ensures looks { steps.new ≡ counted steps.old }
{
    steps.look();
    judge.least_of_entry(key, kept, first)
}
