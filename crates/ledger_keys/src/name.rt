//! The two accounts of a name of a regular file.

ghost use Rattle.std.specs.Prelude.{◌≡◌};
ghost use Rattle.ledger_keys.specs.Link.{name_said};
ghost use Rattle.ledger_keys.specs.Name as spec;
ghost use Rattle.ledger_keys.specs.Side as sides;

use crate::link::Link;
use crate::long_place::LongPlace;
use accounts::Account;

/// The kind of the account of an entry of a directory, and that of its key.
pub(crate) const NAME_ENTRY: u8 = 11;

pub(crate) const DIR_ITEM: u8 = 84;

/// The kind of the account of a link, and that of its key.
pub const LINK: u8 = 12;

pub(crate) const INODE_REF: u8 = 12;

/// What stands behind the name in the account of an entry: the type of a regular file, and the kind of its inode's item.
pub(crate) const REGULAR: u8 = 1;

pub(crate) const INODE_ITEM: u8 = 1;

/// Which of the two accounts of a name, and the number that tells it from others of the name.
#[derive(Clone, Copy, Debug)]
pub enum Side {
    /// The entry of the directory, by the hash of the name.
    Entry(u32),
    /// The link of the inode, by its index in the directory.
    Link(u32),
}

/// An account of a name: the place of the link with index 0, and the side.
#[derive(Clone, Copy, Debug)]
pub struct Name {
    pub place: LongPlace,
    pub side: Side,
}

impl Side {
    /// Where the first of its two sums is among the nine that are kept of the name.
    pub fn first(self) -> u8
        ensures { result ≡ sides.first_of self }
    {
        match self {
            Side::Entry(_) => 0,
            Side::Link(_) => 2,
        }
    }

    /// Where its number is among them.
    pub fn mark(self) -> u8
        ensures { result ≡ sides.mark_of self }
    {
        match self {
            Side::Entry(_) => 7,
            Side::Link(_) => 8,
        }
    }

    /// The number.
    pub fn number(self) -> u32
        ensures { result ≡ sides.number_of self }
    {
        match self {
            Side::Entry(hash) => hash,
            Side::Link(index) => index,
        }
    }
}

impl Name {
    /// The name that an account is of, or `None` where it is of none, or takes more.
    pub fn of(account: &Account) -> Option<Name>
        ensures { result ≡ spec.name_of account.now }
    {
        Name::said(&Link::of(account)?)
    }

    /// The name of a link, or `None` where it takes more.
    pub fn said(link: &Link) -> Option<Name>
        ensures { result ≡ name_said link.now }
    {
        Some(Name {
            place: LongPlace::said(link)?,
            side: link.side,
        })
    }
}
