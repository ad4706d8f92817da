//! What one record adds to the sums of accounts.

ghost use Rattle.std.specs.Prelude.{◌≡◌, ◌<◌, [], ◌∷◌, ◌++◌, OnOk, OnErr};
ghost use Rattle.accounts.specs.Lent.{extent_triple, inode_posting, posting_lent, reference_pair, target_pair, typed_posting, use_pair};
ghost use Rattle.accounts.specs.Posts.{Done, Passes, Posts};
ghost use Rattle.accounts.specs.PostsLaws.{posts_pass};
ghost use Rattle.accounts.specs.Taken.{IsLastTaken};

use crate::kinds::{
    EXTENT_ITEMS, EXTENT_REFS_FOUND, EXTENT_REFS_SAID, FORM_ITEMS, FORM_USES, INODE_OTHERS,
    REFERENCES, TYPE_ENTRIES, TYPE_ITEMS, USES,
};
use crate::{Account, NameAccount, User};
use std::alloc::Global;
use std::marker::Model;
use verdict::{Key, NoMemory};

/// An amount that is added to one sum of an account.
#[derive(Debug, Drop)]
pub struct Posting {
    /// The account.
    pub account: Account,
    /// Which of its sums, 0 to 8.
    pub field: u8,
    /// What is added.
    pub amount: u64,
}

impl Posting {
    /// An amount to the sum of an account with this number, 0 to 8.
    pub fn to(account: Account, field: u8, amount: u64) -> Posting
        ensures { result ≡ record { account = account; field = field; amount = amount } }
    {
        Posting {
            account,
            field,
            amount,
        }
    }
}

/// One that postings are handed to, one by one: a list of them, or what adds them up as they come.
pub trait Poster {
    ghost use Rattle.std.specs.Prelude.{List};
    ghost use Rattle.accounts.specs.declared.postings.Posting.{Posting};

    /// How it stands after a call that handed it postings: what it was, what it is now, what the call answered, and
    /// the postings.
    ghost Leaves: { Self → Self → Done → List Posting → Type 0 };

    /// Hands it a posting. Out of memory, it may have taken it or not.
    fn put(&mut self, posting: Posting) -> Result<(), NoMemory>
        ensures { Leaves self.old self.new result (posting ∷ []) };

    /// Hands it an amount to the sum of an account of a name with this number, 0 to 8. Where it needs the account, that takes
    /// its memory from this allocator. Out of memory, it may have taken the amount or not.
    fn put_name(
        &mut self,
        alloc: Global,
        name: &NameAccount<'_>,
        field: u8,
        amount: u64,
    ) -> Result<(), NoMemory>
        ensures { Leaves self.old self.new result (posting_lent name.now field amount ∷ []) };

    /// Hands it an amount to the sum of an inode of a tree with this number, A9. This and the calls below say what
    /// they post by what it is made of, so that one who keeps it in a form of its own needs no account.
    fn put_inode(
        &mut self,
        alloc: Global,
        tree: u64,
        ino: u64,
        field: u8,
        amount: u64,
    ) -> Result<(), NoMemory>
        requires { field < 9 }
        ensures { Leaves self.old self.new result (inode_posting tree ino field amount ∷ []) }
    {
        self.put(Posting::to(Account::inode(alloc, tree, ino), field, amount))
    }

    /// Hands it that an item of an inode of a tree says a type of it, A10, as directory entries number the types.
    fn put_typed(&mut self, alloc: Global, tree: u64, ino: u64, sort: u8) -> Result<(), NoMemory>
        ensures { Leaves self.old self.new result (typed_posting tree ino sort ∷ []) }
    {
        let account = Account::inode_type(alloc, tree, ino, sort);
        self.put(Posting::to(account, TYPE_ITEMS, 1))
    }

    /// Hands it that an entry of a directory leads to an inode of its tree and says a type of it, A9 and A10.
    fn put_target(&mut self, alloc: Global, tree: u64, ino: u64, sort: u8) -> Result<(), NoMemory>
        ensures { Leaves self.old self.new result (target_pair tree ino sort) }
    {
        let account = Account::inode_type(alloc, tree, ino, sort);
        self.put(Posting::to(Account::inode(alloc, tree, ino), INODE_OTHERS, 1))?;
        self.put(Posting::to(account, TYPE_ENTRIES, 1))
    }

    /// Hands it that there is an extent, by the key of its item, and how many references to it the item says, A3 and
    /// A4.
    fn put_extent(&mut self, alloc: Global, key: Key, refs: u64) -> Result<(), NoMemory>
        ensures { Leaves self.old self.new result (extent_triple key refs) }
    {
        let address = key.objectid;
        let form = Account::extent_form(alloc, address, key.kind, key.offset);
        self.put(Posting::to(Account::extent(alloc, address), EXTENT_ITEMS, 1))?;
        self.put(Posting::to(Account::extent(alloc, address), EXTENT_REFS_SAID, refs))?;
        self.put(Posting::to(form, FORM_ITEMS, 1))
    }

    /// Hands it so many references to the extent at a logical address, A3 and A1 or A2.
    fn put_reference(
        &mut self,
        alloc: Global,
        address: u64,
        user: &User,
        count: u64,
    ) -> Result<(), NoMemory>
        ensures { Leaves self.old self.new result (reference_pair address user.now count) }
    {
        let account = user.account(alloc, address);
        self.put(Posting::to(Account::extent(alloc, address), EXTENT_REFS_FOUND, count))?;
        self.put(Posting::to(account, REFERENCES, count))
    }

    /// Hands it a use of the extent at a logical address by one who says the kind of its item and its form, which is its
    /// length in bytes or its level: A1 or A2, and A4.
    fn put_use(
        &mut self,
        alloc: Global,
        address: u64,
        user: &User,
        kind: u8,
        form: u64,
    ) -> Result<(), NoMemory>
        ensures { Leaves self.old self.new result (use_pair address user.now kind form) }
    {
        let account = user.account(alloc, address);
        let form = Account::extent_form(alloc, address, kind, form);
        self.put(Posting::to(account, USES, 1))?;
        self.put(Posting::to(form, FORM_USES, 1))
    }

    /// No postings leave it as it was, and what some leave and others behind them is what all of them leave.
    ghost passes: { Passes Leaves };
}

/// A list of postings.
#[derive(Debug, Drop)]
pub struct Postings {
    list: Vec<Posting>,
}

impl Model for Postings {
    ghost use Rattle.std.specs.Prelude.{List};
    ghost use Rattle.accounts.specs.declared.postings.Posting.{Posting};

    ghost Value = { List Posting };

    ghost view = { λ p. p.list.items };
}

impl Poster for Postings {
    ghost Leaves = { λ old new result postings. Posts old new result postings };

    ghost passes = { posts_pass };

    fn put(&mut self, posting: Posting) -> Result<(), NoMemory> {
        self.push(posting)
    }

    fn put_name(
        &mut self,
        alloc: Global,
        name: &NameAccount<'_>,
        field: u8,
        amount: u64,
    ) -> Result<(), NoMemory> {
        let account = name.account(alloc)?;
        self.push(Posting::to(account, field, amount))
    }
}

impl Postings {
    /// The empty list. It takes its memory from this allocator.
    pub fn new(alloc: Global) -> Postings
        ensures { result ≡ [] }
    {
        Postings {
            list: Vec::new(alloc),
        }
    }

    /// The postings, in order.
    pub fn as_slice(&self) -> &[Posting]
        ensures { result.now ≡ self.now }
    {
        self.list.as_slice()
    }

    /// Puts a posting at the end. Out of memory, the list stays.
    pub fn push(&mut self, posting: Posting) -> Result<(), NoMemory>
        ensures ok { OnOk result (self.new ≡ self.old ++ posting ∷ []) }
        ensures err { OnErr result (self.new ≡ self.old) }
    {
        match self.list.push(posting) {
            Ok(()) => Ok(()),
            Err(_) => Err(NoMemory),
        }
    }

    /// Puts postings at the end, in order. Out of memory, the first of them may stand there.
    pub fn push_all<const N: usize>(&mut self, postings: [Posting; N]) -> Result<(), NoMemory>
        requires { N < 256 }
        ensures { Posts self.old self.new result postings.entry }
    {
        for posting in postings {
            self.push(posting)?;
        }
        Ok(())
    }

    /// Takes the last posting from the list, or gives `None` exactly where the list is empty.
    pub fn pop(&mut self) -> Option<Posting>
        ensures { IsLastTaken self.old self.new result }
    {
        self.list.pop()
    }
}
