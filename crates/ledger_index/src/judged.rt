//! Which of two accounts a ledger breaks, and what an entry's sums break.

ghost use Rattle.std.specs.Prelude.{◌≡◌, slice_index, IfSome};
ghost use Rattle.accounts.specs.Broken.{is_broken};
ghost use Rattle.ledger_keys.specs.declared.kept.Kept.TheVariants.{Long};
ghost use Rattle.ledger_index.specs.Judged.{breaks, lesser_of, stands_before};
ghost use Rattle.ledger_keys.specs.Kept.{kept_sum};
ghost use Rattle.accounts.specs.Kinds.{inode_keeps};

use accounts::{Account, broken};
use ledger_keys::Kept;
use std::alloc::Global;
use verdict::{Bytes, Key};

/// Whether these sums break an account of this kind: the kind alone decides, so another account of it stands in. It takes no memory.
pub(crate) fn breaks(alloc: Global, kind: u8, kept: &Kept) -> bool
    ensures { result ≡ breaks kind (kept_sum kept.now) }
{
    match small_breaks(kind, kept) {
        Some(is) => is,
        None => broken(&stand_in(alloc, kind), &kept.totals()),
    }
}

// An account of this kind.
fn stand_in(alloc: Global, kind: u8) -> Account
    ensures { result.kind ≡ kind }
{
    Account {
        kind,
        tree: 0,
        block: 0,
        key: Key::none(),
        detail: 0,
        tail: Bytes::from(Vec::new(alloc)),
    }
}

/// Whether an account is broken by these sums.
pub(crate) fn is_broken(account: &Account, kept: &Kept) -> bool
    ensures { result ≡ is_broken account.now (kept_sum kept.now) }
{
    match small_breaks(account.kind, kept) {
        Some(is) => is,
        None => broken(account, &kept.totals()),
    }
}

// The same by the kind, where the sums are small and the account is of an inode, of its type or of its names, as most accounts of an image
// are. The sums are looked at where they are kept.
#[tactic(auto, unfolding(crate::specs::Judged::breaks, ledger_keys::specs::Kept::kept_sum))]
fn small_breaks(kind: u8, kept: &Kept) -> Option<bool>
    ensures { IfSome result (λ is. is ≡ breaks kind (kept_sum kept.now)) }
{
    match (kind, kept) {
        (9, Kept::Few(few)) => Some(!inode_keeps(few)),
        (9, Kept::Long(few, long)) => Some(!long_inode_keeps(few, long)),
        (10, Kept::Few(few)) => Some(few[0] > 0 && few[1] != 1),
        (11, Kept::Few(few)) => Some(few[0] != few[1]),
        (12, Kept::Few(few)) => Some(few[0] != few[1]),
        _ => None,
    }
}

// The rule on an inode, of nine small sums.
fn inode_keeps(f: &[u8; 9]) -> bool
    ensures { result ≡ inode_keeps (slice_index f.now) }
{
    (f[1] == 0 || f[0] == 1)
        && f[2] == f[3]
        && (f[0] != 1 || f[2] != 0 || f[4] > 0)
        && f[5] == f[6]
        && f[7] == f[8]
}

// The same of seven small sums and two longer ones.
#[tactic(auto, unfolding(ledger_keys::specs::Kept::kept_sum))]
fn long_inode_keeps(f: &[u8; 7], long: &[u32; 2]) -> bool
    ensures { result ≡ inode_keeps (kept_sum (Long f.now long.now)) }
{
    (f[1] == 0 || f[0] == 1)
        && f[2] == f[3]
        && (f[0] != 1 || f[2] != 0 || f[4] > 0)
        && f[5] == f[6]
        && long[0] == long[1]
}

/// An account, where it is broken and stands before another, or else the other.
pub(crate) fn lesser(is_broken: bool, account: Account, other: Option<Account>) -> Option<Account>
    ensures { result ≡ lesser_of is_broken account other }
{
    if is_broken && stands_before(&account, &other) {
        return Some(account);
    }
    other
}

// Whether an account stands before another, if there is another.
fn stands_before(account: &Account, other: &Option<Account>) -> bool
    ensures { result ≡ stands_before account.now other.now }
{
    match other {
        Some(other) => account < other,
        None => true,
    }
}
