//! What an account of a name says of the link.

ghost use Rattle.std.specs.Prelude.{◌≡◌};
ghost use Rattle.accounts.specs.Kinds.{link, name_entry};
ghost use Rattle.accounts.specs.Lent.{account_lent};
ghost use Rattle.ledger_keys.specs.Link.{said_by};
ghost use Rattle.ledger_keys.specs.Name.{name_of, of_entry, of_link};

use crate::name::{DIR_ITEM, INODE_ITEM, INODE_REF, LINK, NAME_ENTRY, REGULAR, Side};
use accounts::{Account, NameAccount};
use verdict::Key;

/// A link of an inode in a directory, as one of its two accounts says it.
#[derive(Clone, Copy, Debug)]
pub struct Link<'a> {
    /// Which of the two accounts it is.
    pub side: Side,
    pub block: u64,
    pub tree: u64,
    pub inode: u64,
    pub dir: u64,
    pub name: &'a [u8],
}

impl<'a> Link<'a> {
    /// What an account says of a link, or `None` where it is of none.
    #[tactic(auto, unfolding(crate::specs::Name::name_of))]
    pub fn of(account: &'a Account) -> Option<Link<'a>>
        ensures { said_by result ≡ name_of account.now }
    {
        if account.kind == LINK && account.key.kind == INODE_REF {
            Link::by_link(account)
        } else if account.kind == NAME_ENTRY && account.key.kind == DIR_ITEM {
            Link::by_entry(account)
        } else {
            None
        }
    }

    // What an account of a link says.
    fn by_link(account: &'a Account) -> Option<Link<'a>>
        ensures { said_by result ≡ of_link account.now }
    {
        let Ok(index) = u32::try_from(account.detail) else {
            return None;
        };
        Some(Link {
            side: Side::Link(index),
            block: account.block,
            tree: account.tree,
            inode: account.key.objectid,
            dir: account.key.offset,
            name: account.tail.as_slice(),
        })
    }

    // What an account of an entry of a directory says, if that is of a regular file.
    fn by_entry(account: &'a Account) -> Option<Link<'a>>
        ensures { said_by result ≡ of_entry account.now }
    {
        let Some(name) = account.tail.as_slice().strip_suffix(&[REGULAR, INODE_ITEM]) else {
            return None;
        };
        let Ok(hash) = u32::try_from(account.key.offset) else {
            return None;
        };
        Some(Link {
            side: Side::Entry(hash),
            block: account.block,
            tree: account.tree,
            inode: account.detail,
            dir: account.key.objectid,
            name,
        })
    }

    /// What the account of a name says of a link, without the account.
    pub fn lent(name: &NameAccount<'a>) -> Option<Link<'a>>
        ensures { said_by result ≡ name_of (account_lent name.now) }
    {
        match *name {
            NameAccount::Entry {
                tree,
                dir,
                hash,
                location,
                name,
                sort,
            } => Link::lent_entry(tree, dir, hash, location, name, sort),
            NameAccount::Link {
                tree,
                ino,
                dir,
                index,
                name,
            } => Link::lent_link(tree, ino, dir, index, name),
        }
    }

    // What an entry of a directory says, if it is of a regular file.
    #[tactic(auto, using(crate::proofs::LentLaws::entry_said, crate::proofs::LentLaws::entry_regular))]
    fn lent_entry(
        tree: u64,
        dir: u64,
        hash: u32,
        location: Key,
        name: &'a [u8],
        sort: u8,
    ) -> Option<Link<'a>>
        ensures { said_by result ≡ name_of (name_entry tree dir hash location name.now sort) }
    {
        if sort != REGULAR || location.kind != INODE_ITEM {
            return None;
        }
        Some(Link {
            side: Side::Entry(hash),
            block: 0,
            tree,
            inode: location.objectid,
            dir,
            name,
        })
    }

    // What a link says.
    #[tactic(auto, unfolding(crate::specs::Name::name_of))]
    fn lent_link(tree: u64, ino: u64, dir: u64, index: u64, name: &'a [u8]) -> Option<Link<'a>>
        ensures { said_by result ≡ name_of (link tree ino dir index name.now) }
    {
        let Ok(index) = u32::try_from(index) else {
            return None;
        };
        Some(Link {
            side: Side::Link(index),
            block: 0,
            tree,
            inode: ino,
            dir,
            name,
        })
    }
}
