//! Accounts in 32 bytes.

ghost use Rattle.std.specs.Prelude.{◌≡◌, ◌≤◌, Some, true, IfOk, length, take};
ghost use Rattle.ledger_keys.specs.Place as spec;
ghost use Rattle.ledger_keys.specs.PlaceLaws.{fed_alike, place_equiv, place_per, same_place};

use crate::exact::Exact;
use accounts::Account;
use std::alloc::Global;
use std::hash::{Hash, Hasher};
use verdict::{Bytes, Key, NoMemory};

/// An account in 32 bytes, as each is that the records of a usual image post to. The kind of its key is its sort.
#[derive(Clone, Copy, Debug)]
pub enum Place {
    /// One without a tail, and with detail 0.
    Plain {
        kind: u8,
        sort: u8,
        tree: u32,
        block: u64,
        objectid: u64,
        offset: u64,
    },
    /// One of no block whose numbers are below 2^32, with the `length` bytes of its tail and zeros behind them.
    Named {
        length: u8,
        kind: u8,
        sort: u8,
        tree: u32,
        objectid: u32,
        offset: u32,
        detail: u32,
        tail: [u8; 12],
    },
}

impl PartialEq for Place {
    ghost eq = { spec.is_same_place };

    ghost laws = { place_per };

    #[tactic(auto, unfolding(crate::specs::Place::is_same_place))]
    fn eq(&self, other: &Place) -> bool {
        match (*self, *other) {
            (
                Place::Plain {
                    kind,
                    sort,
                    tree,
                    block,
                    objectid,
                    offset,
                },
                Place::Plain {
                    kind: kind2,
                    sort: sort2,
                    tree: tree2,
                    block: block2,
                    objectid: objectid2,
                    offset: offset2,
                },
            ) => kind == kind2
                && sort == sort2
                && tree == tree2
                && block == block2
                && objectid == objectid2
                && offset == offset2,
            (
                Place::Named {
                    length,
                    kind,
                    sort,
                    tree,
                    objectid,
                    offset,
                    detail,
                    tail,
                },
                Place::Named {
                    length: length2,
                    kind: kind2,
                    sort: sort2,
                    tree: tree2,
                    objectid: objectid2,
                    offset: offset2,
                    detail: detail2,
                    tail: tail2,
                },
            ) => length == length2
                && kind == kind2
                && sort == sort2
                && tree == tree2
                && objectid == objectid2
                && offset == offset2
                && detail == detail2
                && tail == tail2,
            _ => false,
        }
    }
}

impl Eq for Place {
    ghost laws = { place_equiv };
}

impl Exact for Place {
    ghost part_of = { spec.part_of };

    ghost exact = { same_place };

    fn part(&self) -> usize {
        match *self {
            Place::Plain {
                block,
                objectid,
                ..
            } => part_at(if block == 0 { objectid } else { block }),
            Place::Named { objectid, .. } => part_at(u64::from(objectid)),
        }
    }

    fn mixed(&self) -> u64 {
        match *self {
            Place::Plain {
                kind,
                block,
                objectid,
                offset,
                ..
            } => mixed_of(kind, objectid ^ block, offset),
            Place::Named {
                kind,
                objectid,
                offset,
                ..
            } => mixed_of(kind, u64::from(objectid), u64::from(offset)),
        }
    }
}

/// The number of the part of a table that has the entries of an inode with this number, or of an address, below 1,024. Those of 256
/// numbers in a row are in one part.
pub fn part_at(number: u64) -> usize
    ensures { result ≡ spec.part_at number }
{
    (number / 256 % 1024) as usize
}

/// The part for the place of an account, without the place.
pub fn part_by(account: &Account) -> usize {
    part_at(if account.block == 0 {
        account.key.objectid
    } else {
        account.block
    })
}

/// The number of the place of an account, without the place.
pub fn mixed_by(account: &Account) -> u64 {
    mixed_of(
        account.kind,
        account.key.objectid ^ account.block,
        account.key.offset,
    )
}

/// A number that accounts seldom have in common whose kinds and numbers differ. Those of numbers in a row are far apart.
pub fn mixed_of(kind: u8, objectid: u64, offset: u64) -> u64 {
    objectid
        .wrapping_add(offset.wrapping_mul(0xd6e8_feb8_6659_fd93))
        .wrapping_add(u64::from(kind) << 32)
        .wrapping_mul(0x9e37_79b9_7f4a_7c15)
}

impl Hash for Place {
    ghost hash_input = { spec.place_fed };

    ghost respects_eq = { fed_alike };

    fn hash<H: Hasher>(&self, state: &mut H) {
        match self {
            Place::Plain {
                kind,
                sort,
                tree,
                block,
                objectid,
                offset,
            } => {
                state.write_u128(wide_of(head_of(*kind, *sort, *tree), *block));
                state.write_u128(wide_of(*objectid, *offset));
            }
            Place::Named {
                length,
                kind,
                sort,
                tree,
                objectid,
                offset,
                detail,
                tail,
            } => {
                let head = named_head_of(*length, *kind, *sort, *tree);
                state.write_u128(wide_of(head, two_of(*objectid, *offset)));
                state.write_u128(wide_of(front_number(tail), two_of(back_number(tail), *detail)));
            }
        }
    }
}

// A kind, a sort and a tree in one number.
fn head_of(kind: u8, sort: u8, tree: u32) -> u64
    ensures { result ≡ spec.head_of kind sort tree }
{
    u64::from(kind) + 256 * u64::from(sort) + 65536 * u64::from(tree)
}

// A length of a tail, a kind, a sort and a tree in one number.
fn named_head_of(length: u8, kind: u8, sort: u8, tree: u32) -> u64
    ensures { result ≡ spec.named_head_of length kind sort tree }
{
    head_of(kind, sort, tree) + 281474976710656 * u64::from(length)
}

// The first eight bytes of a tail in one number.
#[tactic(auto, unfolding(crate::specs::Place::front_number))]
fn front_number(tail: &[u8; 12]) -> u64
    ensures { result ≡ spec.front_number tail.now }
{
    u64::from_le_bytes([
        tail[0], tail[1], tail[2], tail[3], tail[4], tail[5], tail[6], tail[7],
    ])
}

// The last four bytes of a tail in one number.
#[tactic(auto, unfolding(crate::specs::Place::back_number))]
fn back_number(tail: &[u8; 12]) -> u32
    ensures { result ≡ spec.back_number tail.now }
{
    u32::from_le_bytes([tail[8], tail[9], tail[10], tail[11]])
}

// Two numbers in one.
pub(crate) fn two_of(low: u32, high: u32) -> u64
    ensures { result ≡ spec.two_of low high }
{
    u64::from(low) + 4294967296 * u64::from(high)
}

// Two longer numbers in one. A hash takes one number of 16 bytes in less time than two of 8.
pub(crate) fn wide_of(low: u64, high: u64) -> u128
    ensures { result ≡ spec.wide_of low high }
{
    u128::from(low) + 18446744073709551616 * u128::from(high)
}

/// So many first bytes, or all where there are less.
pub(crate) fn front_of(alloc: Global, bytes: &[u8], length: u8) -> Result<Bytes, NoMemory>
    ensures { IfOk result (λ front. front ≡ take length bytes.now) }
{
    Bytes::of(alloc, &bytes[..usize::from(length).min(bytes.len())])
}

const _: () = prove!(size_of::<Place>() == 32);

impl Place {
    /// The place of an account, or `None` where it takes more.
    #[tactic(auto, unfolding(crate::specs::Place::place_of))]
    pub fn of(account: &Account) -> Option<Place>
        ensures { result ≡ spec.place_of account.now }
    {
        match Place::plain(account) {
            Some(place) => Some(place),
            None => Place::named(account),
        }
    }

    /// Whether an account has this place.
    #[tactic(auto, unfolding(crate::specs::Place::place_of))]
    pub fn is_of(&self, account: &Account) -> bool
        ensures { result ≡ true → spec.place_of account.now ≡ Some self.now }
    {
        match *self {
            Place::Plain {
                kind,
                sort,
                tree,
                block,
                objectid,
                offset,
            } => {
                account.key.objectid == objectid
                    && account.kind == kind
                    && account.key.kind == sort
                    && account.key.offset == offset
                    && account.block == block
                    && account.tree == u64::from(tree)
                    && account.detail == 0
                    && account.tail.as_slice().is_empty()
            }
            Place::Named {
                length,
                kind,
                sort,
                tree,
                objectid,
                offset,
                detail,
                tail,
            } => {
                account.key.objectid == u64::from(objectid)
                    && account.kind == kind
                    && account.key.kind == sort
                    && account.key.offset == u64::from(offset)
                    && account.block == 0
                    && account.tree == u64::from(tree)
                    && account.detail == u64::from(detail)
                    && account.tail.as_slice().len() == usize::from(length)
                    && (detail != 0 || length != 0)
                    && length <= 12
                    && padded(account.tail.as_slice()) == tail
            }
        }
    }

    /// The kind of the account.
    pub fn kind(&self) -> u8
        ensures { result ≡ (spec.account_of self.now).kind }
    {
        match self {
            Place::Plain { kind, .. } => *kind,
            Place::Named { kind, .. } => *kind,
        }
    }

    /// The account that has this place.
    pub fn account(&self, alloc: Global) -> Result<Account, NoMemory>
        ensures { IfOk result (λ account. account ≡ spec.account_of self.now) }
    {
        match self {
            Place::Plain {
                kind,
                sort,
                tree,
                block,
                objectid,
                offset,
            } => Ok(Account {
                kind: *kind,
                tree: u64::from(*tree),
                block: *block,
                key: Key {
                    objectid: *objectid,
                    kind: *sort,
                    offset: *offset,
                },
                detail: 0,
                tail: Bytes::from(Vec::new(alloc)),
            }),
            Place::Named {
                length,
                kind,
                sort,
                tree,
                objectid,
                offset,
                detail,
                tail,
            } => Ok(Account {
                kind: *kind,
                tree: u64::from(*tree),
                block: 0,
                key: Key {
                    objectid: u64::from(*objectid),
                    kind: *sort,
                    offset: u64::from(*offset),
                },
                detail: u64::from(*detail),
                tail: front_of(alloc, tail, *length)?,
            }),
        }
    }

    fn plain(account: &Account) -> Option<Place>
        ensures { result ≡ spec.plain_of account.now }
    {
        if account.detail != 0 || !account.tail.as_slice().is_empty() {
            return None;
        }
        let Ok(tree) = u32::try_from(account.tree) else {
            return None;
        };
        Some(Place::Plain {
            kind: account.kind,
            sort: account.key.kind,
            tree,
            block: account.block,
            objectid: account.key.objectid,
            offset: account.key.offset,
        })
    }

    fn named(account: &Account) -> Option<Place>
        ensures { result ≡ spec.named_of account.now }
    {
        let tail = account.tail.as_slice();
        if account.block != 0 || tail.len() > 12 {
            return None;
        }
        let Ok(tree) = u32::try_from(account.tree) else {
            return None;
        };
        let Ok(objectid) = u32::try_from(account.key.objectid) else {
            return None;
        };
        let Ok(offset) = u32::try_from(account.key.offset) else {
            return None;
        };
        let Ok(detail) = u32::try_from(account.detail) else {
            return None;
        };
        Some(Place::Named {
            length: tail.len() as u8,
            kind: account.kind,
            sort: account.key.kind,
            tree,
            objectid,
            offset,
            detail,
            tail: padded(tail),
        })
    }
}

// Up to twelve bytes with zeros behind them.
fn padded(tail: &[u8]) -> [u8; 12]
    requires { length tail.now ≤ 12 }
    ensures { result ≡ spec.padded tail.now }
{
    let mut bytes = [0; 12];
    for i in 0..tail.len() {
        bytes[i] = tail[i];
    }
    bytes
}
