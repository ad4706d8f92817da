//! The sums of inodes and of their types.

ghost use Rattle.std.specs.Prelude.{◌≡◌, ◌+◌, ◌∷◌, ◌++◌, [], ℕ, OnOk, Ok, true, false, ◌<◌};
ghost use Rattle.std.specs.BTreeMap.{get};
ghost use Rattle.accounts.specs.Apart.{AddsUp, IsSettled};
ghost use Rattle.accounts.specs.Kinds as kinds;
ghost use Rattle.accounts.specs.declared.account.Account.{Account as AAccount};
ghost use Rattle.accounts.specs.Broken.{is_broken};
ghost use Rattle.accounts.specs.Sums.{total_of};
ghost use Rattle.accounts.specs.declared.kinds.TheConstants.{INODE_OTHERS, TYPE_ENTRIES, TYPE_ITEMS};
ghost use Rattle.accounts.specs.Tally.{sums_in, with_postings};
ghost use Rattle.inode_tally.specs.Held.{class_postings, class_sums, gathered_postings, inode_cmp, inodes_apart, is_of_inodes, own_sums, owns_sums, to};
ghost use Rattle.inode_tally.specs.Joined.{Adds, Joins, LeavesOthers};

use crate::class::{Gathered, InodeClass};
use accounts::kinds::{
    DIR_NAMES, DIR_SIZE, FILE_BYTES, FILE_RANGES, INODE_ITEMS, INODE_LINKS, INODE_NAMES,
    INODE_ORPHANS, INODE_OTHERS, TYPE_ENTRIES, TYPE_ITEMS,
};
use accounts::{Account, Posting, Postings, Tally};
use std::alloc::Global;
use std::collections::BTreeMap;
use std::collections::btree_map::Entry;
use verdict::NoMemory;

// The inodes that amounts are gathered of at a time.
const OWNS: u64 = 64;

/// Amounts to an inode that are not yet added to its class.
#[derive(Clone, Copy, Debug)]
pub struct Own {
    /// The amounts.
    pub sums: Gathered,
    /// The id of the tree.
    pub tree: u64,
    /// The number of the inode.
    pub ino: u64,
}

/// The sums of inodes and of their types. An inode whose sums agree is kept as its class, and the amounts to some
/// inodes are gathered before they are added.
#[derive(Debug, Drop)]
pub struct InodeTally {
    alloc: Global,
    classes: BTreeMap<(u64, u64), InodeClass>,
    owns: Vec<Own>,
}

impl InodeTally {
    /// One without sums. It takes its memory from this allocator, from the first amount on.
    pub fn new(alloc: Global) -> InodeTally
        ensures { (account : AAccount) (n : ℕ) → inodes_apart result account n ≡ 0 }
    {
        InodeTally {
            alloc,
            classes: BTreeMap::new(alloc),
            owns: Vec::new(alloc),
        }
    }

    /// Adds an amount to one sum of an inode of a tree. What no class has goes behind the list. Want of memory may
    /// leave any part added.
    pub fn add(
        &mut self,
        tree: u64,
        ino: u64,
        field: usize,
        amount: u64,
        into: &mut Postings,
    ) -> Result<(), NoMemory>
        requires { field < 9 }
        ensures { OnOk result (AddsUp (inodes_apart self.old) (inodes_apart self.new)
            into.old into.new (to (kinds.inode tree ino) field amount ∷ [])) }
    {
        if raise(&mut self.owns, tree, ino, field, amount) {
            return Ok(());
        }
        self.begin_sum(tree, ino, field, amount, into)
    }

    /// Adds that so many entries of directories lead to an inode of a tree and say a type of it, as directory entries
    /// number the types. What no class has goes behind the list. Want of memory may leave any part added.
    pub fn add_targets(
        &mut self,
        tree: u64,
        ino: u64,
        sort: u8,
        count: u8,
        into: &mut Postings,
    ) -> Result<(), NoMemory>
        ensures { OnOk result (AddsUp (inodes_apart self.old) (inodes_apart self.new)
            into.old into.new
            (to (kinds.inode tree ino) INODE_OTHERS count
            ∷ to (kinds.inode_type tree ino sort) TYPE_ENTRIES count ∷ [])) }
    {
        if raise_targets(&mut self.owns, tree, ino, sort, count) {
            return Ok(());
        }
        self.begin_targets(tree, ino, sort, count, into)
    }

    /// Adds that an item of an inode of a tree says a type of it, as directory entries number the types. What no class
    /// has goes behind the list. Want of memory may leave any part added.
    pub fn add_type(
        &mut self,
        tree: u64,
        ino: u64,
        sort: u8,
        into: &mut Postings,
    ) -> Result<(), NoMemory>
        ensures { OnOk result (AddsUp (inodes_apart self.old) (inodes_apart self.new)
            into.old into.new (to (kinds.inode_type tree ino sort) TYPE_ITEMS 1 ∷ [])) }
    {
        if raise_type(&mut self.owns, tree, ino, sort) {
            return Ok(());
        }
        self.begin(Own::typed(tree, ino, sort), into)
    }

    /// Moves all to a tally, but for what breaks no rule and is alone. Nothing may be added behind it.
    pub fn settle(&mut self, rest: &mut Tally) -> Result<(), NoMemory>
        ensures { OnOk result (IsSettled (inodes_apart self.old) is_of_inodes rest.old rest.new) }
    {
        let mut into = Postings::new(self.alloc);
        give_all(self.alloc, &mut self.classes, &self.owns, &mut into)?;
        rest.add_all(&mut into)?;
        settle(self.alloc, &self.classes, rest)
    }

    // Gathers an amount to one sum of an inode in place of what is gathered of another. It is apart from `add`, which
    // seldom needs it.
    #[inline(never)]
    fn begin_sum(
        &mut self,
        tree: u64,
        ino: u64,
        field: usize,
        amount: u64,
        into: &mut Postings,
    ) -> Result<(), NoMemory>
        requires { field < 9 }
        ensures { OnOk result (AddsUp (inodes_apart self.old) (inodes_apart self.new)
            into.old into.new (to (kinds.inode tree ino) field amount ∷ [])) }
    {
        let mut own = Own::none(tree, ino);
        if own.raise(tree, ino, field, amount) {
            return self.begin(own, into);
        }
        into.push(Posting::to(Account::inode(self.alloc, tree, ino), field as u8, amount))
    }

    // Gathers so many entries that lead to an inode in place of what is gathered of another.
    #[inline(never)]
    fn begin_targets(
        &mut self,
        tree: u64,
        ino: u64,
        sort: u8,
        count: u8,
        into: &mut Postings,
    ) -> Result<(), NoMemory>
        ensures { OnOk result (AddsUp (inodes_apart self.old) (inodes_apart self.new)
            into.old into.new
            (to (kinds.inode tree ino) INODE_OTHERS count
            ∷ to (kinds.inode_type tree ino sort) TYPE_ENTRIES count ∷ [])) }
    {
        self.begin(Own::targets(tree, ino, sort, count), into)
    }

    // Gathers amounts of an inode in place of those to another, which are added to its class.
    fn begin(&mut self, own: Own, into: &mut Postings) -> Result<(), NoMemory>
        ensures { OnOk result (AddsUp (inodes_apart self.old) (inodes_apart self.new)
            into.old into.new (gathered_postings own.tree own.ino own.sums)) }
    {
        make(self.alloc, &mut self.owns)?;
        let last = exchange(&mut self.owns, own);
        give(self.alloc, &mut self.classes, &last, into)
    }
}

impl Own {
    // No amounts to an inode.
    fn none(tree: u64, ino: u64) -> Own
        ensures names { (result.tree ≡ tree) × (result.ino ≡ ino) }
        ensures sums { (account : AAccount) (n : ℕ) → own_sums result account n ≡ 0 }
    {
        Own {
            sums: Gathered::none(),
            tree,
            ino,
        }
    }

    // So many entries that lead to an inode and say its type.
    fn targets(tree: u64, ino: u64, sort: u8, count: u8) -> Own
        ensures { (account : AAccount) (n : ℕ) → own_sums result account n ≡ total_of
            (to (kinds.inode tree ino) INODE_OTHERS count
            ∷ to (kinds.inode_type tree ino sort) TYPE_ENTRIES count ∷ []) account n }
    {
        let sums = Gathered {
            bytes: [0, 0, 0, 0],
            counts: [0, u32::from(count), 0, 0, 0],
            entries: u32::from(count),
            typed: 0,
            sort,
        };
        Own { sums, tree, ino }
    }

    // An item that says the type of an inode.
    fn typed(tree: u64, ino: u64, sort: u8) -> Own
        ensures { (account : AAccount) (n : ℕ) → own_sums result account n
            ≡ total_of (to (kinds.inode_type tree ino sort) TYPE_ITEMS 1 ∷ []) account n }
    {
        let sums = Gathered {
            bytes: [0, 0, 0, 0],
            counts: [0, 0, 0, 0, 0],
            entries: 0,
            typed: 1,
            sort,
        };
        Own { sums, tree, ino }
    }

    // Adds an amount to a sum of an inode where it is this one, or stays and gives `false`.
    fn raise(&mut self, tree: u64, ino: u64, field: usize, amount: u64) -> bool
        requires { field < 9 }
        ensures raised { result ≡ true → Adds (own_sums self.old) (own_sums self.new)
            (to (kinds.inode tree ino) field amount ∷ []) }
        ensures stays { result ≡ false → self.new ≡ self.old }
    {
        if self.tree != tree || self.ino != ino {
            return false;
        }
        self.sums.raise(field, amount)
    }

    // Adds so many entries that lead to an inode and say its type, where it is this one and of this type, or stays and
    // gives `false`.
    fn raise_targets(&mut self, tree: u64, ino: u64, sort: u8, count: u8) -> bool
        ensures raised { result ≡ true → Adds (own_sums self.old) (own_sums self.new)
            (to (kinds.inode tree ino) INODE_OTHERS count
            ∷ to (kinds.inode_type tree ino sort) TYPE_ENTRIES count ∷ []) }
        ensures stays { result ≡ false → self.new ≡ self.old }
    {
        if self.tree != tree || self.ino != ino || !self.sums.takes_type(sort) {
            return false;
        }
        self.sums.raise_targets(sort, count)
    }

    // Adds an item that says the type of an inode, where it is this one and of this type, or stays and gives `false`.
    fn raise_type(&mut self, tree: u64, ino: u64, sort: u8) -> bool
        ensures raised { result ≡ true → Adds (own_sums self.old) (own_sums self.new)
            (to (kinds.inode_type tree ino sort) TYPE_ITEMS 1 ∷ []) }
        ensures stays { result ≡ false → self.new ≡ self.old }
    {
        if self.tree != tree || self.ino != ino || !self.sums.takes_type(sort) {
            return false;
        }
        self.sums.raise_typed(sort)
    }
}

// The place of an inode among those that amounts are gathered of.
fn place(tree: u64, ino: u64) -> usize {
    (ino.wrapping_add(tree.wrapping_mul(0x9e3779b97f4a7c15)) % OWNS) as usize
}

// Adds an amount to a sum of an inode where it stands at its place, or stays and gives `false`.
fn raise(owns: &mut Vec<Own>, tree: u64, ino: u64, field: usize, amount: u64) -> bool
    requires { field < 9 }
    ensures raised { result ≡ true → Adds (owns_sums owns.old.items) (owns_sums owns.new.items)
        (to (kinds.inode tree ino) field amount ∷ []) }
    ensures stays { result ≡ false → owns.new.items ≡ owns.old.items }
{
    let at = place(tree, ino);
    if at >= owns.len() {
        return false;
    }
    owns[at].raise(tree, ino, field, amount)
}

// Adds so many entries that lead to an inode and say its type, where the inode stands at its place with this type, or
// stays and gives `false`.
fn raise_targets(owns: &mut Vec<Own>, tree: u64, ino: u64, sort: u8, count: u8) -> bool
    ensures raised { result ≡ true → Adds (owns_sums owns.old.items) (owns_sums owns.new.items)
        (to (kinds.inode tree ino) INODE_OTHERS count ∷ to (kinds.inode_type tree ino sort) TYPE_ENTRIES count ∷ []) }
    ensures stays { result ≡ false → owns.new.items ≡ owns.old.items }
{
    let at = place(tree, ino);
    if at >= owns.len() {
        return false;
    }
    owns[at].raise_targets(tree, ino, sort, count)
}

// Adds an item that says the type of an inode, where the inode stands at its place with this type, or stays and gives
// `false`.
fn raise_type(owns: &mut Vec<Own>, tree: u64, ino: u64, sort: u8) -> bool
    ensures raised { result ≡ true → Adds (owns_sums owns.old.items) (owns_sums owns.new.items)
        (to (kinds.inode_type tree ino sort) TYPE_ITEMS 1 ∷ []) }
    ensures stays { result ≡ false → owns.new.items ≡ owns.old.items }
{
    let at = place(tree, ino);
    if at >= owns.len() {
        return false;
    }
    owns[at].raise_type(tree, ino, sort)
}

// Makes the places that amounts are gathered at, where there are none yet.
fn make(alloc: Global, owns: &mut Vec<Own>) -> Result<(), NoMemory>
    ensures { OnOk result ((account : AAccount) (n : ℕ) →
        owns_sums owns.new.items account n ≡ owns_sums owns.old.items account n) }
{
    if !owns.is_empty() {
        return Ok(());
    }
    *owns = vec![in alloc; Own::none(0, 0); OWNS as usize]?;
    Ok(())
}

// Puts what is gathered of an inode at its place, and gives what stood there.
fn exchange(owns: &mut Vec<Own>, own: Own) -> Own
    ensures { (account : AAccount) (n : ℕ) →
        owns_sums owns.new.items account n + own_sums result account n
        ≡ owns_sums owns.old.items account n + own_sums own account n }
{
    let at = place(own.tree, own.ino);
    if at >= owns.len() {
        return own;
    }
    let last = owns[at];
    owns[at] = own;
    last
}

// Adds what is gathered of an inode to its class, or puts it behind the list where no class has it.
fn give(
    alloc: Global,
    classes: &mut BTreeMap<(u64, u64), InodeClass>,
    own: &Own,
    into: &mut Postings,
) -> Result<(), NoMemory>
    ensures { OnOk result (AddsUp (class_sums (get inode_cmp classes.old))
        (class_sums (get inode_cmp classes.new)) into.old into.new
        (gathered_postings own.now.tree own.now.ino own.now.sums)) }
{
    if join(classes, own.tree, own.ino, &own.sums)? {
        return Ok(());
    }
    post(alloc, into, own.tree, own.ino, &own.sums)
}

// Adds all that is gathered to the classes.
fn give_all(
    alloc: Global,
    classes: &mut BTreeMap<(u64, u64), InodeClass>,
    owns: &[Own],
    into: &mut Postings,
) -> Result<(), NoMemory>
    ensures { OnOk result (AddsUp
        (λ account n. class_sums (get inode_cmp classes.old) account n
        + owns_sums owns.now account n)
        (class_sums (get inode_cmp classes.new)) into.old into.new []) }
{
    for own in owns {
        give(alloc, classes, own, into)?;
    }
    Ok(())
}

// Adds amounts to the class of an inode, or leaves it and gives `false` where no class has them.
fn join(
    classes: &mut BTreeMap<(u64, u64), InodeClass>,
    tree: u64,
    ino: u64,
    more: &Gathered,
) -> Result<bool, NoMemory>
    ensures yes { result ≡ Ok true →
        Joins (get inode_cmp classes.old) (get inode_cmp classes.new) (tree, ino) more.now }
    ensures no { result ≡ Ok false →
        (q : ℕ × ℕ) → get inode_cmp classes.new q ≡ get inode_cmp classes.old q }
{
    match classes.entry((tree, ino))? {
        Entry::Occupied(mut entry) => {
            let Some(joined) = entry.get().joined(more) else {
                return Ok(false);
            };
            entry.insert(joined);
            Ok(true)
        }
        Entry::Vacant(entry) => {
            let Some(joined) = InodeClass::none().joined(more) else {
                return Ok(false);
            };
            entry.insert(joined);
            Ok(true)
        }
    }
}

// Puts amounts to an inode and to one of its types behind a list.
fn post(
    alloc: Global,
    into: &mut Postings,
    tree: u64,
    ino: u64,
    more: &Gathered,
) -> Result<(), NoMemory>
    ensures { OnOk result (into.new ≡ into.old ++ gathered_postings tree ino more.now) }
{
    let f = &more.counts;
    let g = &more.bytes;
    into.push_all([
        Posting::to(
            Account::inode(alloc, tree, ino),
            INODE_ITEMS,
            u64::from(f[0]),
        ),
        Posting::to(
            Account::inode(alloc, tree, ino),
            INODE_OTHERS,
            u64::from(f[1]),
        ),
        Posting::to(
            Account::inode(alloc, tree, ino),
            INODE_LINKS,
            u64::from(f[2]),
        ),
        Posting::to(
            Account::inode(alloc, tree, ino),
            INODE_NAMES,
            u64::from(f[3]),
        ),
        Posting::to(
            Account::inode(alloc, tree, ino),
            INODE_ORPHANS,
            u64::from(f[4]),
        ),
        Posting::to(Account::inode(alloc, tree, ino), DIR_SIZE, g[0]),
        Posting::to(Account::inode(alloc, tree, ino), DIR_NAMES, g[1]),
        Posting::to(Account::inode(alloc, tree, ino), FILE_BYTES, g[2]),
        Posting::to(Account::inode(alloc, tree, ino), FILE_RANGES, g[3]),
        Posting::to(
            Account::inode_type(alloc, tree, ino, more.sort),
            TYPE_ENTRIES,
            u64::from(more.entries),
        ),
        Posting::to(
            Account::inode_type(alloc, tree, ino, more.sort),
            TYPE_ITEMS,
            u64::from(more.typed),
        ),
    ])
}

// Moves amounts to an inode and to one of its types to a tally.
fn move_to(
    alloc: Global,
    rest: &mut Tally,
    tree: u64,
    ino: u64,
    more: &Gathered,
) -> Result<(), NoMemory>
    ensures { OnOk result (sums_in rest.new ≡
        with_postings (sums_in rest.old) (gathered_postings tree ino more.now)) }
{
    let mut postings = Postings::new(alloc);
    post(alloc, &mut postings, tree, ino, more)?;
    rest.add_all(&mut postings)
}

// Moves the classes of the inodes that may be broken to a tally.
fn settle(
    alloc: Global,
    classes: &BTreeMap<(u64, u64), InodeClass>,
    rest: &mut Tally,
) -> Result<(), NoMemory>
    ensures broken { OnOk result ((account : AAccount) →
        is_broken account (sums_in rest.new account) ≡ is_broken account
        (λ n. sums_in rest.old account n + class_sums (get inode_cmp classes.now) account n)) }
    ensures others { OnOk result (LeavesOthers rest.old rest.new) }
{
    for (at, class) in classes {
        let (tree, ino) = *at;
        if stays_out(alloc, rest, tree, ino, class) {
            continue;
        }
        move_to(alloc, rest, tree, ino, &class.widened())?;
    }
    Ok(())
}

// Whether an inode and its type keep their rules by its class, and no other sums are theirs.
fn stays_out(alloc: Global, rest: &Tally, tree: u64, ino: u64, class: &InodeClass) -> bool
    ensures { result ≡ true → (account : AAccount) →
        is_broken account (λ n. sums_in rest.now account n
        + total_of (class_postings (tree, ino) class.now) account n)
        ≡ is_broken account (sums_in rest.now account) }
{
    if class.keeps() {
        if rest.has(&Account::inode(alloc, tree, ino)) {
            return false;
        }
        return !rest.has(&Account::inode_type(alloc, tree, ino, class.sort));
    }
    false
}
