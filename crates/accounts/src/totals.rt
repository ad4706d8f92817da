//! The sums of an account, and the rule that they keep.

ghost use Rattle.std.specs.Prelude.{◌≡◌, ◌&&◌, ◌==◌, ℕ, ◌<◌, OnErr, OnOk};
ghost use Rattle.accounts.specs.Sums.{sum_in};
ghost use Rattle.accounts.specs.Tally.{difference, kept, with_amount};
ghost use Rattle.accounts.specs.Broken.{broken_finding, is_broken};
ghost use Rattle.accounts.specs.Kinds.{balances, extent_keeps, group_keeps, inode_keeps, sector_keeps};

use crate::kinds::{
    BYTES_IN_GROUPS, BYTES_SAID, CHUNK_STRIPES, DEVICE_RANGES, DEVICE_SAID, DEVICE_TAKEN,
    DIR_NAMES, DIR_SIZE, ENTRIES_BY_HASH, ENTRIES_BY_INDEX, EXTENT_ITEMS, EXTENT_REFS_FOUND,
    EXTENT_REFS_SAID, FILE_BYTES, FILE_RANGES, FORM_ITEMS, FORM_USES, FROM_CHILD, FROM_PARENT,
    GROUP_CHUNKS, GROUP_ITEMS, GROUP_TAKEN, GROUP_USED, INODE_ITEMS, INODE_LINKS, INODE_NAMES,
    INODE_ORPHANS, INODE_OTHERS, LINK_ENTRIES, LINK_NAMES, OTHER_CLASS, OUTSIDE_CHUNKS, REFERENCES,
    ROOT_REFS_FOUND, ROOT_REFS_SAID, SECTOR_DATA, SECTOR_EXTENTS, SECTOR_SHOWN, SECTOR_SUMS,
    SUBVOLUME_ENTRIES, SUBVOLUME_REFS, TYPE_ENTRIES, TYPE_ITEMS, USES,
};
use crate::{Account, kinds};
use verdict::{Family, Finding, NoMemory, Rule};

/// The nine sums of an account.
#[derive(Clone, Copy, Debug, PartialEq, Eq)]
pub struct Totals {
    /// The sums, by the number of the field.
    pub f: [u128; 9],
}

impl Totals {
    /// No sum.
    pub fn zero() -> Totals
        ensures { (n : ℕ) → sum_in result n ≡ 0 }
    {
        Totals { f: [0; 9] }
    }

    /// The sum with this number.
    pub fn at(&self, field: u8) -> u128
        requires { field < 9 }
        ensures { result ≡ sum_in self.now field }
    {
        self.f[usize::from(field)]
    }

    /// Adds an amount to the sum with this number. A sum that would pass 128 bits is want of memory, and stays.
    pub fn raise(&mut self, field: usize, amount: u64) -> Result<(), NoMemory>
        requires { field < 9 }
        ensures ok { OnOk result ((n : ℕ) →
            sum_in self.new n ≡ with_amount (sum_in self.old) field amount n) }
        ensures err { OnErr result ((n : ℕ) → sum_in self.new n ≡ sum_in self.old n) }
    {
        let Some(sum) = self.f[field].checked_add(u128::from(amount)) else {
            return Err(NoMemory);
        };
        self.f[field] = sum;
        Ok(())
    }

    // Adds an amount to a sum of an account of a kind. Where the difference of the first two sums decides, that alone
    // is kept. A sum that would pass 128 bits is want of memory.
    pub fn add(&mut self, kind: u8, field: usize, amount: u64) -> Result<(), NoMemory>
        requires { field < 9 }
        ensures { OnOk result ((n : ℕ) →
            kept kind (sum_in self.new) n
            ≡ kept kind (with_amount (sum_in self.old) field amount) n) }
    {
        self.raise(field, amount)?;
        if balances(kind) {
            self.cancel();
        }
        Ok(())
    }

    // Takes from the first two sums as much as both have.
    fn cancel(&mut self)
        ensures { (n : ℕ) → difference (sum_in self.new) n ≡ difference (sum_in self.old) n }
    {
        let less = self.f[0].min(self.f[1]);
        self.f[0] -= less;
        self.f[1] -= less;
    }
}

// Whether the rule on a kind of account is that its first two sums are equal, so that their difference alone decides.
pub fn balances(kind: u8) -> bool
    ensures { result ≡ balances kind }
{
    matches!(
        kind,
        kinds::BLOCK_REF
            | kinds::DATA_REF
            | kinds::NAME_ENTRY
            | kinds::LINK
            | kinds::SUBVOLUME_PAIR
            | kinds::STRIPE
            | kinds::BYTES_USED
            | kinds::SUBVOLUME
            | kinds::DEVICE
    )
}

// Whether an account of this kind with these sums stands as one without postings: its difference is zero.
pub fn is_settled(kind: u8, totals: &Totals) -> bool
    ensures { result ≡ balances kind && sum_in totals.now 0 == sum_in totals.now 1 }
{
    balances(kind) && totals.f[0] == totals.f[1]
}

/// Whether an account with these sums is broken. The line of its kind decides; a kind without one has no rule.
#[tactic(auto, unfolding(crate::specs::Broken::is_broken))]
pub fn broken(account: &Account, totals: &Totals) -> bool
    ensures { result ≡ is_broken account.now (sum_in totals.now) }
{
    let f = totals;
    !match account.kind {
        kinds::BLOCK_REF => f.at(REFERENCES) == f.at(USES),
        kinds::DATA_REF => f.at(REFERENCES) == f.at(USES),
        kinds::EXTENT => extent_keeps(f),
        kinds::EXTENT_FORM => f.at(FORM_USES) == 0 || f.at(FORM_ITEMS) >= 1,
        kinds::SECTOR => sector_keeps(f),
        kinds::GROUP => group_keeps(f),
        kinds::GROUP_CLASS => f.at(OTHER_CLASS) == 0,
        kinds::OUTSIDE => f.at(OUTSIDE_CHUNKS) == 0,
        kinds::INODE => inode_keeps(f),
        kinds::INODE_TYPE => f.at(TYPE_ENTRIES) == 0 || f.at(TYPE_ITEMS) == 1,
        kinds::NAME_ENTRY => f.at(ENTRIES_BY_HASH) == f.at(ENTRIES_BY_INDEX),
        kinds::LINK => f.at(LINK_ENTRIES) == f.at(LINK_NAMES),
        kinds::SUBVOLUME_ENTRY => f.at(SUBVOLUME_REFS) <= f.at(SUBVOLUME_ENTRIES),
        kinds::SUBVOLUME_PAIR => f.at(FROM_PARENT) == f.at(FROM_CHILD),
        kinds::STRIPE => f.at(CHUNK_STRIPES) == f.at(DEVICE_RANGES),
        kinds::BYTES_USED => f.at(BYTES_SAID) == f.at(BYTES_IN_GROUPS),
        kinds::SUBVOLUME => f.at(ROOT_REFS_SAID) == f.at(ROOT_REFS_FOUND),
        kinds::DEVICE => f.at(DEVICE_SAID) == f.at(DEVICE_TAKEN),
        _ => true,
    }
}

// The rule on an extent.
fn extent_keeps(totals: &Totals) -> bool
    ensures { result ≡ extent_keeps (sum_in totals.now) }
{
    let (said, found) = (totals.at(EXTENT_REFS_SAID), totals.at(EXTENT_REFS_FOUND));
    match totals.at(EXTENT_ITEMS) {
        0 => found == 0,
        1 => said == found && said >= 1,
        _ => false,
    }
}

/// Whether the sums of a sector keep their rule: it is of one extent at most; it has one checksum at most, and then
/// file data; and where files show it, a checksum.
pub fn sector_keeps(totals: &Totals) -> bool
    ensures { result ≡ sector_keeps (sum_in totals.now) }
{
    let sums = totals.at(SECTOR_SUMS);
    totals.at(SECTOR_EXTENTS) <= 1
        && sums <= 1
        && (sums != 1 || totals.at(SECTOR_DATA) == 1)
        && (totals.at(SECTOR_SHOWN) == 0 || sums == 1)
}

// The rule on a block group.
fn group_keeps(totals: &Totals) -> bool
    ensures { result ≡ group_keeps (sum_in totals.now) }
{
    let items = totals.at(GROUP_ITEMS);
    items == totals.at(GROUP_CHUNKS)
        && items <= 1
        && totals.at(GROUP_USED) == totals.at(GROUP_TAKEN)
}

// The rule on an inode.
fn inode_keeps(totals: &Totals) -> bool
    ensures { result ≡ inode_keeps (sum_in totals.now) }
{
    let (items, links) = (totals.at(INODE_ITEMS), totals.at(INODE_LINKS));
    (totals.at(INODE_OTHERS) == 0 || items == 1)
        && links == totals.at(INODE_NAMES)
        && (items != 1 || links != 0 || totals.at(INODE_ORPHANS) > 0)
        && totals.at(DIR_SIZE) == totals.at(DIR_NAMES)
        && totals.at(FILE_BYTES) == totals.at(FILE_RANGES)
}

/// The finding of a broken account: the rule A with the kind as its number, at the account's tree, block, key and
/// detail.
pub fn finding_of(account: &Account) -> Finding
    ensures { result ≡ broken_finding account.now }
{
    Finding {
        rule: Rule {
            family: Family::A,
            number: account.kind,
        },
        tree: account.tree,
        block: account.block,
        key: account.key,
        detail: account.detail,
    }
}
