//! The sums of all extents.

ghost use Rattle.std.specs.Prelude.{◌≡◌, ◌+◌, ◌∷◌, [], ℕ, ◌≤◌, length, OnOk, IfOk, IfSome, true, false};
ghost use Rattle.accounts.specs.declared.account.Account.{Account as AAccount};
ghost use Rattle.accounts.specs.Kinds as kinds;
ghost use Rattle.accounts.specs.Apart.{AddsUp, IsSettled};
ghost use Rattle.accounts.specs.Broken.{is_broken};
ghost use Rattle.accounts.specs.Tally.{sums_in, with_postings};
ghost use Rattle.accounts.specs.Lent as lent;
ghost use Rattle.accounts.specs.Lent.{extent_triple, reference_pair, to, use_pair};
ghost use Rattle.accounts.specs.declared.kinds.TheConstants.{EXTENT_REFS_FOUND, REFERENCES};
ghost use Rattle.extent_tally.specs.Held.{class_postings, class_sums, extents_apart, is_of_extents, sums_of, user_account};
ghost use Rattle.extent_tally.specs.Gains.{AreApart, Gains, IsMore};

use crate::class::{ExtentClass, Who};
use accounts::kinds::{
    EXTENT_ITEMS, EXTENT_REFS_FOUND, EXTENT_REFS_SAID, FORM_ITEMS, FORM_USES, REFERENCES, USES,
};
use accounts::{Account, Poster, Posting, Postings, Tally, User};
use std::alloc::Global;
use verdict::kinds::METADATA_ITEM;
use verdict::{Key, NoMemory};

/// How many classes are near to one. A few kilobytes hold them.
const NEAR: usize = 64;

/// The sums of the accounts of extents, of their forms and of references to them. Of an extent
/// whose item was taken its class is kept, which stands for the sums of the extent, of one form and
/// of one user.
#[derive(Debug, Drop)]
pub struct ExtentTally {
    alloc: Global,
    // By address, as far as their items come so: where one is looked for.
    list: Vec<ExtentClass>,
    // The place of the class that was found last.
    last: usize,
}

impl ExtentTally {
    /// No sums. It takes its memory from this allocator.
    #[tactic(auto, unfolding(crate::specs::Held::extents_apart))]
    pub fn new(alloc: Global) -> ExtentTally
        ensures { (account : AAccount) (n : ℕ) → extents_apart result account n ≡ 0 }
    {
        ExtentTally {
            alloc,
            list: Vec::new(alloc),
            last: 0,
        }
    }

    /// Adds that there is an extent, by the key of its item, and how many references to it the item says. What has no
    /// compact form is put behind the postings. Out of memory any part of it may be added.
    pub fn put_extent(&mut self, key: Key, refs: u64, into: &mut Postings) -> Result<(), NoMemory>
        ensures { OnOk result (AddsUp (extents_apart self.old) (extents_apart self.new)
            into.old into.new (extent_triple key refs)) }
    {
        if !is_behind(&self.list, key.objectid) {
            return into.put_extent(self.alloc, key, refs);
        }
        let Some(class) = ExtentClass::of(key, refs) else {
            return into.put_extent(self.alloc, key, refs);
        };
        Ok(self.list.push(class)?)
    }

    /// Adds so many references to the extent at a logical address. What has no compact form is put behind the postings.
    /// Out of memory any part of it may be added.
    pub fn put_reference(
        &mut self,
        address: u64,
        user: &User,
        count: u64,
        into: &mut Postings,
    ) -> Result<(), NoMemory>
        ensures { OnOk result (AddsUp (extents_apart self.old) (extents_apart self.new)
            into.old into.new (reference_pair address user.now count)) }
    {
        let place = place_of(&self.list, self.list.len().saturating_sub(1), address);
        if place >= self.list.len() {
            return into.put_reference(self.alloc, address, user, count);
        }
        let class = self.list[place];
        if class.address != address {
            return into.put_reference(self.alloc, address, user, count);
        }
        let more = refer(self.alloc, class, user, count, into)?;
        self.list[place] = more;
        Ok(())
    }

    /// Adds a use of the extent at a logical address by one who says the kind of its item and its form. What has no
    /// compact form is put behind the postings. Out of memory any part of it may be added.
    pub fn put_use(
        &mut self,
        address: u64,
        user: &User,
        kind: u8,
        form: u64,
        into: &mut Postings,
    ) -> Result<(), NoMemory>
        ensures { OnOk result (AddsUp (extents_apart self.old) (extents_apart self.new)
            into.old into.new (use_pair address user.now kind form)) }
    {
        if self.show(address, user, kind, form) {
            return Ok(());
        }
        into.put_use(self.alloc, address, user, kind, form)
    }

    /// Moves all to a tally, but for what breaks no rule and is alone. Nothing may be added behind
    /// it. Out of memory any part of it may be moved.
    #[tactic(auto, unfolding(crate::specs::Held::extents_apart))]
    pub fn settle(&mut self, rest: &mut Tally) -> Result<(), NoMemory>
        ensures { OnOk result
            (IsSettled (extents_apart self.old) is_of_extents rest.old rest.new) }
    {
        settle(self.alloc, &self.list, rest)
    }

    // Adds a use of the extent at a logical address, by one who says its form, or leaves all and
    // gives `false`.
    fn show(&mut self, address: u64, user: &User, kind: u8, form: u64) -> bool
        ensures yes { result ≡ true →
            IsMore (extents_apart self.old) (extents_apart self.new)
            (use_pair address user.now kind form) }
        ensures no { result ≡ false → extents_apart self.new ≡ extents_apart self.old }
    {
        let Some(who) = Who::of(kind, user) else {
            return false;
        };
        let place = place_of(&self.list, self.last, address);
        if place >= self.list.len() {
            return false;
        }
        let class = self.list[place];
        if class.address != address {
            return false;
        }
        let Some(more) = class.used(kind, form, who) else {
            return false;
        };
        self.list[place] = more;
        self.last = place;
        true
    }
}

// Whether an address is above those of all classes, if they are by address.
fn is_behind(list: &[ExtentClass], address: u64) -> bool {
    match list.last() {
        Some(class) => class.address < address,
        None => true,
    }
}

// Where the class of the extent at an address stands, if it does and the classes are by address:
// behind the one found last, there, among the next ones, or elsewhere.
fn place_of(list: &[ExtentClass], last: usize, address: u64) -> usize {
    let end = last.saturating_add(NEAR).min(list.len());
    if last < end {
        let next = last + 1;
        if next < end && list[next].address == address {
            return next;
        }
        if list[last].address == address {
            return last;
        }
        if list[last].address < address && address <= list[end - 1].address {
            return first_from(list, last, end, address);
        }
    }
    first_from(list, 0, list.len(), address)
}

// The first place of some from which on the addresses are no less, if the classes are by address.
fn first_from(list: &[ExtentClass], from: usize, to: usize, address: u64) -> usize
    requires { to ≤ length list.now }
{
    let mut low = from;
    let mut high = to;
    while low < high {
        let middle = low + (high - low) / 2;
        if list[middle].address < address {
            low = middle + 1;
        } else {
            high = middle;
        }
    }
    low
}

// The class of an extent with so many references. What it does not have is put behind the postings.
fn refer(
    alloc: Global,
    class: ExtentClass,
    user: &User,
    count: u64,
    into: &mut Postings,
) -> Result<ExtentClass, NoMemory>
    ensures address { IfOk result (λ more. more.address ≡ class.address) }
    ensures sums { IfOk result (λ more. AddsUp (class_sums class) (class_sums more)
        into.old into.new (reference_pair class.address user.now count)) }
{
    let listed = list_reference(alloc, class, count, into)?;
    give_reference(alloc, listed, user, count, into)
}

// The class of an extent with references more, which are put behind the postings where its item
// does not say so many.
fn list_reference(
    alloc: Global,
    class: ExtentClass,
    count: u64,
    into: &mut Postings,
) -> Result<ExtentClass, NoMemory>
    ensures address { IfOk result (λ more. more.address ≡ class.address) }
    ensures sums { IfOk result (λ more. AddsUp (class_sums class) (class_sums more)
        into.old into.new (to (kinds.extent class.address) EXTENT_REFS_FOUND count ∷ [])) }
{
    if let Some(more) = class.listed(count) {
        return Ok(more);
    }
    let extent = Account::extent(alloc, class.address);
    into.push(Posting::to(extent, EXTENT_REFS_FOUND, count))?;
    Ok(class)
}

// The class of an extent with references to its user, which are put behind the postings where they
// are to another.
fn give_reference(
    alloc: Global,
    class: ExtentClass,
    user: &User,
    count: u64,
    into: &mut Postings,
) -> Result<ExtentClass, NoMemory>
    ensures address { IfOk result (λ more. more.address ≡ class.address) }
    ensures sums { IfOk result (λ more. AddsUp (class_sums class) (class_sums more)
        into.old into.new (to (lent.user_account class.address user.now) REFERENCES count ∷ [])) }
{
    if let Some(more) = given(class, user, count) {
        return Ok(more);
    }
    let account = user.account(alloc, class.address);
    into.push(Posting::to(account, REFERENCES, count))?;
    Ok(class)
}

// The class of an extent with references to its user, or `None` where they are to another.
fn given(class: ExtentClass, user: &User, count: u64) -> Option<ExtentClass>
    ensures { IfSome result (λ more. Gains class more
        (to (lent.user_account class.address user.now) REFERENCES count ∷ [])) }
{
    let who = Who::of(class.sort, user)?;
    class.given(who, count)
}

// Posts the classes of the extents that may break a rule, or that are not alone.
fn settle(alloc: Global, list: &[ExtentClass], rest: &mut Tally) -> Result<(), NoMemory>
    ensures { OnOk result (IsSettled (sums_of list.now) is_of_extents rest.old rest.new) }
{
    let rising = is_rising(list);
    for class in list {
        if rising && stays_out(alloc, rest, class) {
            continue;
        }
        post(alloc, rest, class)?;
    }
    Ok(())
}

// Whether each class has an address above those before it.
fn is_rising(list: &[ExtentClass]) -> bool
    ensures { result ≡ true → AreApart list.now }
{
    let mut low: u128 = 0;
    for class in list {
        let address = class.address;
        if u128::from(address) < low {
            return false;
        }
        low = u128::from(address) + 1;
    }
    true
}

// Whether an extent, its form and its user keep their rules by its class, and no other sums are
// those of the extent and of the form.
fn stays_out(alloc: Global, rest: &Tally, class: &ExtentClass) -> bool
    ensures { result ≡ true → (account : AAccount) →
        is_broken account (λ n. sums_in rest.now account n + class_sums class.now account n)
        ≡ is_broken account (sums_in rest.now account) }
{
    if class.keeps() {
        if rest.has(&Account::extent(alloc, class.address)) {
            return false;
        }
        let form = Account::extent_form(alloc, class.address, class.sort, class.form);
        return !rest.has(&form);
    }
    false
}

// Posts a class.
fn post(alloc: Global, rest: &mut Tally, class: &ExtentClass) -> Result<(), NoMemory>
    ensures { OnOk result (sums_in rest.new ≡
        with_postings (sums_in rest.old) (class_postings class.now)) }
{
    let mut postings = Postings::new(alloc);
    let address = class.address;
    let linked = u64::from(class.linked);
    postings.push_all([
        Posting::to(Account::extent(alloc, address), EXTENT_ITEMS, 1),
        Posting::to(
            Account::extent(alloc, address),
            EXTENT_REFS_SAID,
            linked + u64::from(class.lacks),
        ),
        Posting::to(Account::extent(alloc, address), EXTENT_REFS_FOUND, linked),
        Posting::to(
            Account::extent_form(alloc, address, class.sort, class.form),
            FORM_ITEMS,
            1,
        ),
        Posting::to(
            Account::extent_form(alloc, address, class.sort, class.form),
            FORM_USES,
            u64::from(class.shown),
        ),
        Posting::to(user_of(alloc, class), REFERENCES, u64::from(class.given)),
        Posting::to(user_of(alloc, class), USES, u64::from(class.used)),
    ])?;
    rest.add_all(&mut postings)
}

// The account of the user of a class.
fn user_of(alloc: Global, class: &ExtentClass) -> Account
    ensures { result ≡ user_account class.now }
{
    let root = u64::from(class.root);
    if class.sort == METADATA_ITEM {
        Account::block_ref(alloc, root, class.address)
    } else {
        Account::data_ref(alloc, root, class.address, class.ino, class.origin)
    }
}
