//! What is kept of an inode.

ghost use Rattle.std.specs.Prelude.{◌≡◌, ◌+◌, ◌<◌, ℕ, Bool, true, false, min, IfSome, if◌then◌else◌};
ghost use Rattle.accounts.specs.Tally.{with_amount};
ghost use Rattle.inode_tally.specs.Held.{no_class, no_sums_of, sum_of, widened};
ghost use Rattle.inode_tally.specs.Joined.{IsJoined, IsTargeted, class_keeps};

/// Amounts to the sums of an inode, and to those of one of its types.
#[derive(Clone, Copy, Debug)]
pub struct Gathered {
    /// The sums 5 to 8 of the inode: its sizes and the lengths of its names, its bytes and those of its data.
    pub bytes: [u64; 4],
    /// The sums 0 to 4 of the inode: its items, what else is of it, its links, its names, its orphan items.
    pub counts: [u32; 5],
    /// The entries that say the type.
    pub entries: u32,
    /// The items that say the type.
    pub typed: u32,
    /// The type, as directory entries number the types.
    pub sort: u8,
}

impl Gathered {
    /// No amount.
    pub fn none() -> Gathered
        ensures { result ≡ no_sums_of }
    {
        Gathered {
            bytes: [0; 4],
            counts: [0; 5],
            entries: 0,
            typed: 0,
            sort: 0,
        }
    }

    // Adds an amount to a sum of the inode, or stays and gives `false` where there is no room for it.
    pub fn raise(&mut self, field: usize, amount: u64) -> bool
        requires { field < 9 }
        ensures sums { result ≡ true → (n : ℕ) →
            sum_of self.new n ≡ with_amount (sum_of self.old) field amount n }
        ensures types { (self.new.sort ≡ self.old.sort)
            × (self.new.entries ≡ self.old.entries) × (self.new.typed ≡ self.old.typed) }
        ensures stays { result ≡ false → self.new ≡ self.old }
    {
        if field < 5 {
            return self.raise_count(field, amount);
        }
        self.raise_bytes(field - 5, amount)
    }

    // Adds an amount to one of the sums 0 to 4.
    fn raise_count(&mut self, field: usize, amount: u64) -> bool
        requires { field < 5 }
        ensures sums { result ≡ true → (n : ℕ) →
            sum_of self.new n ≡ with_amount (sum_of self.old) field amount n }
        ensures types { (self.new.sort ≡ self.old.sort)
            × (self.new.entries ≡ self.old.entries) × (self.new.typed ≡ self.old.typed) }
        ensures stays { result ≡ false → self.new ≡ self.old }
    {
        let sum = u64::from(self.counts[field]).saturating_add(amount);
        let Ok(sum) = u32::try_from(sum) else {
            return false;
        };
        self.counts[field] = sum;
        true
    }

    // Adds an amount to one of the sums 5 to 8, counted from 0.
    fn raise_bytes(&mut self, place: usize, amount: u64) -> bool
        requires { place < 4 }
        ensures sums { result ≡ true → (n : ℕ) →
            sum_of self.new n ≡ with_amount (sum_of self.old) (place + 5) amount n }
        ensures types { (self.new.sort ≡ self.old.sort)
            × (self.new.entries ≡ self.old.entries) × (self.new.typed ≡ self.old.typed) }
        ensures stays { result ≡ false → self.new ≡ self.old }
    {
        let Some(sum) = self.bytes[place].checked_add(amount) else {
            return false;
        };
        self.bytes[place] = sum;
        true
    }

    // Whether the type is this one, or none is said yet.
    pub fn takes_type(&self, sort: u8) -> bool
        ensures entries { result ≡ true → (same : ℕ → Bool) →
            (if same sort then self.now.entries else 0)
            ≡ (if same self.now.sort then self.now.entries else 0) }
        ensures typed { result ≡ true → (same : ℕ → Bool) →
            (if same sort then self.now.typed else 0)
            ≡ (if same self.now.sort then self.now.typed else 0) }
    {
        self.sort == sort || self.entries == 0 && self.typed == 0
    }

    // Adds so many entries that lead here and say the type, or stays and gives `false` where there is no room.
    pub fn raise_targets(&mut self, sort: u8, count: u8) -> bool
        ensures raised { result ≡ true → IsTargeted self.old sort count self.new }
        ensures stays { result ≡ false → self.new ≡ self.old }
    {
        let others = self.counts[1].checked_add(u32::from(count));
        let entries = self.entries.checked_add(u32::from(count));
        let (Some(others), Some(entries)) = (others, entries) else {
            return false;
        };
        self.counts[1] = others;
        self.entries = entries;
        self.sort = sort;
        true
    }

    // Adds an item that says the type, or stays and gives `false` where there is no room for it.
    pub fn raise_typed(&mut self, sort: u8) -> bool
        ensures raised { result ≡ true → self.new ≡ record {
          bytes = self.old.bytes;
          counts = self.old.counts;
          entries = self.old.entries;
          typed = self.old.typed + 1;
          sort = sort;
        } }
        ensures stays { result ≡ false → self.new ≡ self.old }
    {
        let Some(typed) = self.typed.checked_add(1) else {
            return false;
        };
        self.typed = typed;
        self.sort = sort;
        true
    }

    // Whether of the sums that have to be equal each is.
    fn is_settled(&self) -> bool
        ensures { result ≡ true → (sum_of self.now 2 ≡ sum_of self.now 3)
            × (sum_of self.now 5 ≡ sum_of self.now 6)
            × (sum_of self.now 7 ≡ sum_of self.now 8) }
    {
        self.counts[2] == self.counts[3]
            && self.bytes[0] == self.bytes[1]
            && self.bytes[2] == self.bytes[3]
    }
}

/// An inode whose links and names, size and bytes agree so far: what its rules look at beside, and one of its types.
#[derive(Clone, Copy, Debug)]
pub struct InodeClass {
    /// Its items, up to two.
    pub items: u8,
    /// 1 where anything else is of it.
    pub others: u8,
    /// 1 where it has links, and as many names.
    pub linked: u8,
    /// 1 where it has an orphan item.
    pub orphans: u8,
    /// The type, as directory entries number the types.
    pub sort: u8,
    /// 1 where an entry says the type.
    pub entries: u8,
    /// The items that say the type, up to two.
    pub typed: u8,
}

impl InodeClass {
    // Nothing is of it.
    pub fn none() -> InodeClass
        ensures { result ≡ no_class }
    {
        InodeClass {
            items: 0,
            others: 0,
            linked: 0,
            orphans: 0,
            sort: 0,
            entries: 0,
            typed: 0,
        }
    }

    // The least amounts of this class.
    pub fn widened(&self) -> Gathered
        ensures { result ≡ widened self.now }
    {
        Gathered {
            bytes: [0; 4],
            counts: [
                u32::from(self.items),
                u32::from(self.others),
                u32::from(self.linked),
                u32::from(self.linked),
                u32::from(self.orphans),
            ],
            entries: u32::from(self.entries),
            typed: u32::from(self.typed),
            sort: self.sort,
        }
    }

    // Whether the inode and its type keep their rules by this class alone.
    pub fn keeps(&self) -> bool
        ensures { result ≡ class_keeps self.now }
    {
        (self.others == 0 || self.items == 1)
            && (self.items != 1 || self.linked != 0 || self.orphans > 0)
            && (self.entries == 0 || self.typed == 1)
    }

    // The class with more amounts, or `None` where no class has them.
    pub fn joined(self, more: &Gathered) -> Option<InodeClass>
        ensures { IfSome result (IsJoined self more.now) }
    {
        if !more.is_settled() {
            return None;
        }
        let sort = self.sort_with(more)?;
        Some(InodeClass {
            items: up_to(self.items, more.counts[0], 2),
            others: up_to(self.others, more.counts[1], 1),
            linked: up_to(self.linked, more.counts[2], 1),
            orphans: up_to(self.orphans, more.counts[4], 1),
            sort,
            entries: up_to(self.entries, more.entries, 1),
            typed: up_to(self.typed, more.typed, 2),
        })
    }

    // The type of both, or `None` where each has one of its own.
    fn sort_with(&self, more: &Gathered) -> Option<u8>
        ensures entries { IfSome result (λ sort. (same : ℕ → Bool) →
            (if same sort then self.now.entries + more.now.entries else 0)
            ≡ (if same self.now.sort then self.now.entries else 0)
            + (if same more.now.sort then more.now.entries else 0)) }
        ensures typed { IfSome result (λ sort. (same : ℕ → Bool) →
            (if same sort then self.now.typed + more.now.typed else 0)
            ≡ (if same self.now.sort then self.now.typed else 0)
            + (if same more.now.sort then more.now.typed else 0)) }
    {
        if more.entries == 0 && more.typed == 0 {
            return Some(self.sort);
        }
        if self.entries == 0 && self.typed == 0 || self.sort == more.sort {
            return Some(more.sort);
        }
        None
    }
}

// A number with more, up to the most.
fn up_to(number: u8, more: u32, most: u8) -> u8
    ensures { result ≡ min (number + more) most }
{
    (u64::from(number) + u64::from(more)).min(u64::from(most)) as u8
}
