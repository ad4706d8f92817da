//! Accounts in 56 bytes.

ghost use Rattle.std.specs.Prelude.{◌≡◌, ◌≤◌, Some, true, IfOk, length};
ghost use Rattle.ledger_keys.specs.LongPlace as spec;
ghost use Rattle.ledger_keys.specs.Link.{place_said};
ghost use Rattle.ledger_keys.specs.Name.{account_at};
ghost use Rattle.ledger_keys.specs.LongPlaceLaws.{long_equiv, long_fed_alike, long_per, same_long};

use crate::exact::Exact;
use crate::link::Link;
use crate::name::{DIR_ITEM, INODE_ITEM, INODE_REF, LINK, NAME_ENTRY, REGULAR, Side};
use crate::place::{front_of, mixed_of, part_at, two_of, wide_of};
use accounts::Account;
use std::alloc::Global;
use std::hash::{Hash, Hasher};
use verdict::{Key, NoMemory};

/// An account of no block whose numbers are below 2^32, with the `length` bytes of its tail and zeros behind them. The
/// kind of its key is its sort.
#[derive(Clone, Copy, Debug)]
pub struct LongPlace {
    length: u8,
    kind: u8,
    sort: u8,
    tree: u32,
    objectid: u32,
    offset: u32,
    detail: u32,
    tail: [u8; 36],
}

const _: () = prove!(size_of::<LongPlace>() == 56);

impl PartialEq for LongPlace {
    ghost eq = { spec.is_same_long };

    ghost laws = { long_per };

    #[tactic(auto, unfolding(crate::specs::LongPlace::is_same_long))]
    fn eq(&self, other: &LongPlace) -> bool {
        self.length == other.length
            && self.kind == other.kind
            && self.sort == other.sort
            && self.tree == other.tree
            && self.objectid == other.objectid
            && self.offset == other.offset
            && self.detail == other.detail
            && self.tail == other.tail
    }
}

impl Eq for LongPlace {
    ghost laws = { long_equiv };
}

impl Exact for LongPlace {
    ghost part_of = { spec.part_of };

    ghost exact = { same_long };

    fn part(&self) -> usize {
        part_at(u64::from(self.objectid))
    }

    fn mixed(&self) -> u64 {
        mixed_of(self.kind, u64::from(self.objectid), u64::from(self.offset))
    }
}

impl Hash for LongPlace {
    ghost hash_input = { spec.long_fed };

    ghost respects_eq = { long_fed_alike };

    fn hash<H: Hasher>(&self, state: &mut H) {
        let inode = two_of(self.tree, self.objectid);
        state.write_u128(wide_of(inode, two_of(self.offset, self.detail)));
        state.write(&self.tail[..eights(self.length)]);
    }
}

// How many bytes of a tail a hash is fed, for a name of this length: as many as it has, in eights. A hash takes eight bytes at a time,
// and zeros behind a name tell nothing. Nor is it fed a kind, a sort and a length: few accounts differ in these alone.
fn eights(length: u8) -> usize
    ensures value { result ≡ spec.eights length }
    ensures within { result ≤ 36 }
{
    (8 * ((usize::from(length) + 7) / 8)).min(36)
}

impl LongPlace {
    /// The place of an account, or `None` where it takes more.
    #[tactic(auto, unfolding(crate::specs::LongPlace::long_of))]
    pub fn of(account: &Account) -> Option<LongPlace>
        ensures { result ≡ spec.long_of account.now }
    {
        let tail = account.tail.as_slice();
        if account.block != 0 || tail.len() > 36 {
            return None;
        }
        let Ok(tree) = u32::try_from(account.tree) else {
            return None;
        };
        let Ok(objectid) = u32::try_from(account.key.objectid) else {
            return None;
        };
        let Ok(offset) = u32::try_from(account.key.offset) else {
            return None;
        };
        let Ok(detail) = u32::try_from(account.detail) else {
            return None;
        };
        Some(LongPlace {
            length: tail.len() as u8,
            kind: account.kind,
            sort: account.key.kind,
            tree,
            objectid,
            offset,
            detail,
            tail: padded(tail),
        })
    }

    /// The place of a name, that of the link with index 0, or `None` where it takes more.
    #[tactic(auto, unfolding(crate::specs::Name::link_of, crate::specs::LongPlace::long_of))]
    pub fn said(link: &Link) -> Option<LongPlace>
        ensures { result ≡ place_said link.now }
    {
        if link.block != 0 || link.name.len() > 36 {
            return None;
        }
        let Ok(tree) = u32::try_from(link.tree) else {
            return None;
        };
        let Ok(objectid) = u32::try_from(link.inode) else {
            return None;
        };
        let Ok(offset) = u32::try_from(link.dir) else {
            return None;
        };
        Some(LongPlace {
            length: link.name.len() as u8,
            kind: LINK,
            sort: INODE_REF,
            tree,
            objectid,
            offset,
            detail: 0,
            tail: padded(link.name),
        })
    }

    /// Whether the name of a link has this place. The place is not made of the link.
    #[tactic(auto, unfolding(crate::specs::Name::link_of, crate::specs::LongPlace::long_of))]
    pub fn is_of(&self, link: &Link) -> bool
        ensures { result ≡ true → place_said link.now ≡ Some self.now }
    {
        link.inode == u64::from(self.objectid)
            && link.dir == u64::from(self.offset)
            && link.tree == u64::from(self.tree)
            && link.block == 0
            && self.kind == LINK
            && self.sort == INODE_REF
            && self.detail == 0
            && link.name.len() == usize::from(self.length)
            && self.length <= 36
            && padded(link.name) == self.tail
    }

    /// The account of a side of the name whose place this is.
    pub fn side_account(&self, alloc: Global, side: Side) -> Result<Account, NoMemory>
        ensures { IfOk result (λ account. account ≡ account_at self.now side) }
    {
        let mut tail = front_of(alloc, &self.tail, self.length)?;
        match side {
            Side::Link(index) => Ok(Account {
                kind: LINK,
                tree: u64::from(self.tree),
                block: 0,
                key: Key {
                    objectid: u64::from(self.objectid),
                    kind: INODE_REF,
                    offset: u64::from(self.offset),
                },
                detail: u64::from(index),
                tail,
            }),
            Side::Entry(hash) => {
                tail.push(REGULAR)?;
                tail.push(INODE_ITEM)?;
                Ok(Account {
                    kind: NAME_ENTRY,
                    tree: u64::from(self.tree),
                    block: 0,
                    key: Key {
                        objectid: u64::from(self.offset),
                        kind: DIR_ITEM,
                        offset: u64::from(hash),
                    },
                    detail: u64::from(self.objectid),
                    tail,
                })
            }
        }
    }

    /// The kind of the account.
    pub fn kind(&self) -> u8
        ensures { result ≡ self.now.kind }
    {
        self.kind
    }

    /// The account that has this place.
    pub fn account(&self, alloc: Global) -> Result<Account, NoMemory>
        ensures { IfOk result (λ account. account ≡ spec.account_of self.now) }
    {
        Ok(Account {
            kind: self.kind,
            tree: u64::from(self.tree),
            block: 0,
            key: Key {
                objectid: u64::from(self.objectid),
                kind: self.sort,
                offset: u64::from(self.offset),
            },
            detail: u64::from(self.detail),
            tail: front_of(alloc, &self.tail, self.length)?,
        })
    }
}

// Up to 36 bytes with zeros behind them.
fn padded(tail: &[u8]) -> [u8; 36]
    requires { length tail.now ≤ 36 }
    ensures { result ≡ spec.padded tail.now }
{
    let mut bytes = [0; 36];
    for i in 0..tail.len() {
        bytes[i] = tail[i];
    }
    bytes
}
