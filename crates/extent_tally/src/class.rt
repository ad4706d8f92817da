//! What is kept of an extent.

ghost use Rattle.std.specs.Prelude.{◌≡◌, ℕ, ◌+◌, ◌∷◌, [], ◌<◌, ◌≤◌, true, IfSome};
ghost use Rattle.accounts.specs.Kinds as kinds;
ghost use Rattle.accounts.specs.Lent.{to, user_account};
ghost use Rattle.accounts.specs.declared.kinds.TheConstants.{EXTENT_REFS_FOUND, REFERENCES};
ghost use Rattle.extent_tally.specs.Held.{class_sums, user};
ghost use Rattle.extent_tally.specs.Gains.{Gains, IsOfUser, KeepsAll, new_class, use_postings};

use accounts::User;
use verdict::Key;
use verdict::kinds::METADATA_ITEM;

/// An extent whose item was taken once: what its rules look at, its form, and one user, which is
/// the tree of a tree block, or else an inode of a tree.
#[derive(Clone, Copy, Debug)]
pub struct ExtentClass {
    /// The logical address in bytes where it begins.
    pub address: u64,
    /// Its length in bytes, or its level.
    pub form: u64,
    /// The number of the user's inode, of file data.
    pub ino: u64,
    /// The byte of the user's file where the extent would begin, of file data.
    pub origin: u64,
    /// The id of the user's tree.
    pub root: u32,
    /// References to the user without a use by it.
    pub given: u16,
    /// Uses by the user without a reference to it.
    pub used: u16,
    /// The references that the item says beyond those that there are.
    pub lacks: u16,
    /// The kind of its item: 169 a tree block, else file data.
    pub sort: u8,
    /// 1 where the item says references and there are as many.
    pub linked: u8,
    /// 1 where a user says the form.
    pub shown: u8,
}

impl ExtentClass {
    // What the item of an extent says without references, or `None` where no class has so many.
    pub(crate) fn of(key: Key, refs: u64) -> Option<ExtentClass>
        ensures { IfSome result (λ class. class ≡ new_class key refs) }
    {
        let Ok(lacks) = u16::try_from(refs) else {
            return None;
        };
        Some(ExtentClass {
            address: key.objectid,
            form: key.offset,
            ino: 0,
            origin: 0,
            root: 0,
            given: 0,
            used: 0,
            lacks,
            sort: key.kind,
            linked: 0,
            shown: 0,
        })
    }

    // The class with references more, or `None` where the item does not say so many.
    pub(crate) fn listed(self, count: u64) -> Option<ExtentClass>
        ensures { IfSome result (λ more.
            Gains self more (to (kinds.extent self.address) EXTENT_REFS_FOUND count ∷ [])) }
    {
        let Ok(count) = u16::try_from(count) else {
            return None;
        };
        let lacks = self.lacks.checked_sub(count)?;
        let linked = if count == 0 { self.linked } else { 1 };
        Some(ExtentClass {
            lacks,
            linked,
            ..self
        })
    }

    // The class with references to its user, or `None` where they are to another, or too many are.
    pub(crate) fn given(self, who: Who, count: u64) -> Option<ExtentClass>
        ensures { IfSome result (λ more. Gains self more
            (to (user self.sort self.address who.root who.ino who.origin) REFERENCES count ∷ [])) }
    {
        let class = self.of_user(who)?;
        let Ok(count) = u16::try_from(count) else {
            return None;
        };
        let given = sum_of(class.given, count)?;
        let both = given.min(class.used);
        Some(ExtentClass {
            given: given - both,
            used: class.used - both,
            ..class
        })
    }

    // The class with a use by its user, who says the form, or `None` where it has another form or
    // another user, or too many uses are.
    pub(crate) fn used(self, sort: u8, form: u64, who: Who) -> Option<ExtentClass>
        ensures { IfSome result (λ more. Gains self more
            (use_postings self.address sort form who.root who.ino who.origin)) }
    {
        if self.sort != sort || self.form != form {
            return None;
        }
        let class = self.of_user(who)?;
        let used = sum_of(class.used, 1)?;
        let both = class.given.min(used);
        Some(ExtentClass {
            given: class.given - both,
            used: used - both,
            shown: 1,
            ..class
        })
    }

    // The class with a user, or `None` where it has another.
    fn of_user(self, who: Who) -> Option<ExtentClass>
        ensures { IfSome result (λ class. IsOfUser self class who.root who.ino who.origin) }
    {
        let Ok(root) = u32::try_from(who.root) else {
            return None;
        };
        if self.root == root && self.ino == who.ino && self.origin == who.origin {
            return Some(self);
        }
        if self.given == 0 && self.used == 0 {
            return Some(ExtentClass {
                root,
                ino: who.ino,
                origin: who.origin,
                ..self
            });
        }
        None
    }

    // Whether the extent, its form and its user keep their rules by this class.
    pub(crate) fn keeps(&self) -> bool
        ensures { result ≡ true → KeepsAll self.now }
    {
        self.linked != 0 && self.lacks == 0 && self.given == self.used
    }
}

/// A user as a class keeps it: a tree, or an inode of a tree.
#[derive(Clone, Copy, Debug)]
pub(crate) struct Who {
    // The id of the tree.
    pub root: u64,
    // The number of the inode, of file data.
    pub ino: u64,
    // The byte of the file where the extent would begin, of file data.
    pub origin: u64,
}

impl Who {
    // The user of an extent whose item is of a kind, or `None` where no class of such an extent has it.
    pub(crate) fn of(sort: u8, one: &User) -> Option<Who>
        ensures { IfSome result (λ who. (address : ℕ) →
            user_account address one.now ≡ user sort address who.root who.ino who.origin) }
    {
        match *one {
            User::Tree { root } => Who::of_tree(sort, root),
            User::File { root, ino, origin } => Who::of_file(sort, root, ino, origin),
            _ => None,
        }
    }

    // A tree, to a tree block.
    fn of_tree(sort: u8, root: u64) -> Option<Who>
        ensures { IfSome result (λ who. (address : ℕ) →
            kinds.block_ref root address ≡ user sort address who.root who.ino who.origin) }
    {
        if sort != METADATA_ITEM {
            return None;
        }
        Some(Who {
            root,
            ino: 0,
            origin: 0,
        })
    }

    // An inode of a tree, to file data.
    fn of_file(sort: u8, root: u64, ino: u64, origin: u64) -> Option<Who>
        ensures { IfSome result (λ who. (address : ℕ) →
            kinds.data_ref root address ino origin
            ≡ user sort address who.root who.ino who.origin) }
    {
        if sort == METADATA_ITEM {
            return None;
        }
        Some(Who { root, ino, origin })
    }
}

// Two amounts together, or `None` where they pass 16 bits.
fn sum_of(amount: u16, more: u16) -> Option<u16>
    ensures { IfSome result (λ sum. sum ≡ amount + more) }
{
    amount.checked_add(more)
}
