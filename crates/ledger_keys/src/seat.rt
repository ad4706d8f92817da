//! Where the sums of an inode stand, and those of the type of a regular file.

ghost use Rattle.std.specs.Prelude.{◌≡◌, ◌<◌, ◌≤◌, IfSome};
ghost use Rattle.ledger_keys.specs.Seat as spec;
ghost use Rattle.ledger_keys.specs.SeatLaws.{page_equiv, page_fed_alike, page_per};

use crate::place::{mixed_of, two_of, wide_of};
use accounts::Account;
use std::alloc::Global;
use std::hash::{Hash, Hasher};
use verdict::{Bytes, Key};

/// The key of a page: what eight inodes of a tree with numbers next to each other have in common. The kind of the key of
/// their accounts is its sort.
#[derive(Clone, Copy, Debug)]
pub struct PageKey {
    sort: u8,
    tree: u32,
    number: u32,
}

/// A page, and which of its sixteen accounts it is: the eight inodes, and then the type regular file of each of them.
#[derive(Clone, Copy, Debug)]
pub struct Seat {
    /// The page.
    pub page: PageKey,
    /// Which of the sixteen.
    pub slot: u8,
}

// The kind of the accounts of inodes, and of those of their types.
const INODE: u8 = 9;

const INODE_TYPE: u8 = 10;

// The type of a regular file.
const REGULAR: u64 = 1;

const _: () = prove!(size_of::<PageKey>() == 12);

impl PartialEq for PageKey {
    ghost eq = { spec.is_same_page };

    ghost laws = { page_per };

    #[tactic(auto, unfolding(crate::specs::Seat::is_same_page))]
    fn eq(&self, other: &PageKey) -> bool {
        self.number == other.number && self.sort == other.sort && self.tree == other.tree
    }
}

impl Eq for PageKey {
    ghost laws = { page_equiv };
}

impl Hash for PageKey {
    ghost hash_input = { spec.page_fed };

    ghost respects_eq = { page_fed_alike };

    fn hash<H: Hasher>(&self, state: &mut H) {
        let head = two_of(self.tree, u32::from(self.sort));
        state.write_u128(wide_of(head, u64::from(self.number)));
    }
}

impl PageKey {
    /// A number that keys seldom have in common. Nothing rests on it.
    pub fn mixed(&self) -> u64 {
        mixed_of(INODE, u64::from(self.number), u64::from(self.tree))
    }

    /// The account of a slot.
    pub fn account(&self, alloc: Global, slot: u8) -> Account
        ensures { result ≡ spec.account_at self.now slot }
    {
        Account {
            kind: kind_at(slot),
            tree: u64::from(self.tree),
            block: 0,
            key: Key {
                objectid: 8 * u64::from(self.number) + u64::from(slot % 8),
                kind: self.sort,
                offset: 0,
            },
            detail: if slot < 8 { 0 } else { REGULAR },
            tail: Bytes::from(Vec::new(alloc)),
        }
    }
}

/// The kind of the account of a slot.
pub fn kind_at(slot: u8) -> u8
    ensures { result ≡ spec.kind_at slot }
{
    if slot < 8 { INODE } else { INODE_TYPE }
}

impl Seat {
    /// The seat of an account, or `None` where it has none: it is neither of an inode nor of the type of a regular file, or
    /// its numbers take more than 32 bits.
    #[tactic(auto, unfolding(crate::specs::Seat::seat_of))]
    pub fn of(account: &Account) -> Option<Seat>
        ensures seat { result ≡ spec.seat_of account.now }
        ensures slot { IfSome result (λ seat. seat.slot < 16) }
    {
        let base = base_of(account)?;
        if account.block != 0 || account.key.offset != 0 || !account.tail.as_slice().is_empty() {
            return None;
        }
        let Ok(tree) = u32::try_from(account.tree) else {
            return None;
        };
        let Ok(ino) = u32::try_from(account.key.objectid) else {
            return None;
        };
        Some(Seat {
            page: PageKey {
                sort: account.key.kind,
                tree,
                number: ino / 8,
            },
            slot: base + (ino % 8) as u8,
        })
    }
}

// Where the accounts of its kind begin in a page.
fn base_of(account: &Account) -> Option<u8>
    ensures base { result ≡ spec.base_of account.now.kind account.now.detail }
    ensures within { IfSome result (λ base. base ≤ 8) }
{
    match (account.kind, account.detail) {
        (INODE, 0) => Some(0),
        (INODE_TYPE, REGULAR) => Some(8),
        _ => None,
    }
}
