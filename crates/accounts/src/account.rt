//! Accounts, and their order.

ghost use Rattle.std.specs.Prelude.{◌≡◌, refl};
ghost use Rattle.std.specs.Ordering.{as_partial_cmp, eq_by_cmp};
ghost use Rattle.accounts.specs.Order.{account_cmp};
ghost use Rattle.accounts.specs.OrderLaws.{account_equiv, account_per, account_po, account_total};

use std::cmp::Ordering;
use verdict::{Bytes, Key};

/// What sums are kept of. Accounts are ordered by their fields, in the order in which these stand here, the tail as
/// bytes.
#[derive(Debug, Drop)]
pub struct Account {
    /// The kind, 1 to 18: the number of the rule that the sums have to keep.
    pub kind: u8,
    /// The id of a tree, 0 where the account is of none.
    pub tree: u64,
    /// A logical address in bytes, 0 where the account is of none.
    pub block: u64,
    /// The key of the item that the account is of, or one made for the account.
    pub key: Key,
    /// One more number, 0 where the kind has none.
    pub detail: u64,
    /// What else tells two accounts apart, as a name. It stands in no finding.
    pub tail: Bytes,
}

impl PartialEq for Account {
    ghost eq = { eq_by_cmp account_cmp };

    ghost laws = { account_per };

    fn eq(&self, other: &Account) -> bool {
        self.cmp(other) == Ordering::Equal
    }
}

impl Eq for Account {
    ghost laws = { account_equiv };
}

impl PartialOrd for Account {
    ghost partial_cmp = { as_partial_cmp account_cmp };

    ghost laws = { account_po };

    fn partial_cmp(&self, other: &Account) -> Option<Ordering> {
        Some(self.cmp(other))
    }
}

impl Ord for Account {
    ghost cmp = { account_cmp };

    ghost total = { account_total };

    ghost matches_partial_cmp = { λ _ _. refl };

    ghost matches_eq = { λ _ _. refl };

    fn cmp(&self, other: &Account) -> Ordering {
        self.kind
            .cmp(&other.kind)
            .then_with(|| self.tree.cmp(&other.tree))
            .then_with(|| self.block.cmp(&other.block))
            .then_with(|| self.key.objectid.cmp(&other.key.objectid))
            .then_with(|| self.key.kind.cmp(&other.key.kind))
            .then_with(|| self.key.offset.cmp(&other.key.offset))
            .then_with(|| self.detail.cmp(&other.detail))
            .then_with(|| self.tail.as_slice().cmp(other.tail.as_slice()))
    }
}
