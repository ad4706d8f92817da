//! The sums of the two accounts of a name, which are kept in the nine sums of one entry: sums 0 and 1 of the entry of the directory, sums 2
//! and 3 of the link of the inode, and the numbers of the two in place of sums 7 and 8.

ghost use Rattle.std.specs.Prelude.{◌≡◌, true, ◌↔◌, ◌<◌, ◌≤◌, ◌^◌, ◌+◌, ℕ, Some, IsTrue, false, IfOk, OnOk, OnErr};
ghost use Rattle.ledger_keys.specs.declared.name.Side.TheVariants.{Entry, Link};
ghost use Rattle.ledger_keys.specs.Kept.{kept_sum};
ghost use Rattle.ledger_keys.specs.Shifts.{Posted, Rests, Shifts};
ghost use Rattle.ledger_keys.specs.Side.{IsCounted, first_of, has_sums, is_same_side, mark_of, number_of, side_of};
ghost use Rattle.ledger_keys.specs.Sums.{greatest, lower, raise};

use crate::kept::Kept;
use crate::name::Side;
use std::alloc::Global;
use verdict::NoMemory;

impl Kept {
    /// Nothing of a name.
    #[tactic(auto, unfolding(crate::specs::Kept::kept_sum), using(crate::proofs::SideLaws::none_long))]
    pub fn no_name() -> Kept
        ensures { (n : ℕ) → kept_sum result n ≡ 0 }
    {
        Kept::Long([0; 7], [0; 2])
    }

    // One of the nine sums.
    #[tactic(auto, unfolding(crate::specs::Kept::kept_sum))]
    fn sum(&self, field: u8) -> u128
        requires { field < 9 }
        ensures { result ≡ kept_sum self.now field }
    {
        let field = usize::from(field);
        match self {
            Kept::Few(few) => u128::from(few[field]),
            Kept::Long(few, _) if field < 7 => u128::from(few[field]),
            Kept::Long(_, long) => u128::from(long[field - 7]),
            Kept::Whole(totals) => totals.f[field],
        }
    }

    /// The two sums of a side.
    pub fn sums(&self, side: Side) -> (u128, u128)
        ensures first { result.0 ≡ side_of (kept_sum self.now) side 0 }
        ensures second { result.1 ≡ side_of (kept_sum self.now) side 1 }
    {
        if self.sum(side.mark()) != u128::from(side.number()) {
            return (0, 0);
        }
        (self.sum(side.first()), self.sum(side.first() + 1))
    }

    /// The entry of the directory whose number stands here, if that is below 2^32.
    pub fn entry_side(&self) -> Option<Side>
        ensures { (hash : ℕ) → hash < 2 ^ 32 → kept_sum self.now 7 ≡ hash →
            result ≡ Some (Entry hash) }
    {
        match u32::try_from(self.sum(7)) {
            Ok(hash) => Some(Side::Entry(hash)),
            Err(_) => None,
        }
    }

    /// The link whose number stands here, if that is below 2^32.
    pub fn link_side(&self) -> Option<Side>
        ensures { (index : ℕ) → index < 2 ^ 32 → kept_sum self.now 8 ≡ index →
            result ≡ Some (Link index) }
    {
        match u32::try_from(self.sum(8)) {
            Ok(index) => Some(Side::Link(index)),
            Err(_) => None,
        }
    }

    /// Whether a sum of one of the sides is not zero.
    pub fn is_counted(&self) -> bool
        ensures { IsTrue result ↔ IsCounted (kept_sum self.now) }
    {
        self.sum(0) != 0 || self.sum(1) != 0 || self.sum(2) != 0 || self.sum(3) != 0
    }

    /// Whether the two sums of each side are one number, so that no account is broken.
    pub fn is_even(&self) -> bool
        ensures { result ≡ true → (kept_sum self.now 0 ≡ kept_sum self.now 1)
            × (kept_sum self.now 2 ≡ kept_sum self.now 3) }
    {
        self.sum(0) == self.sum(1) && self.sum(2) == self.sum(3)
    }

    /// Adds an amount to a sum of a side, or as much of it as there is room for in 128 bits, and tells whether the sum
    /// stands at the greatest number of 128 bits then. `None` where another number has the side, or none may begin: all
    /// sums stay, also out of memory.
    pub fn post(
        &mut self,
        alloc: Global,
        side: Side,
        field: u8,
        amount: u64,
        may_begin: bool,
    ) -> Result<Option<bool>, NoMemory>
        requires { field < 2 }
        ensures ok { IfOk result (Posted is_same_side may_begin side field amount
            (side_of (kept_sum self.old)) (side_of (kept_sum self.new))) }
        ensures err { OnErr result (Rests (side_of (kept_sum self.old))
            (side_of (kept_sum self.new))) }
        ensures counted { IsCounted (kept_sum self.old) → IsCounted (kept_sum self.new) }
    {
        if self.sum(side.first()) == 0 && self.sum(side.first() + 1) == 0 {
            if !may_begin {
                return Ok(None);
            }
            self.put_number(alloc, side)?;
        } else if self.sum(side.mark()) != u128::from(side.number()) {
            return Ok(None);
        }
        Ok(Some(self.raise_side(alloc, side, field, amount)?))
    }

    // Puts the number of a side that has no sums. Out of memory, all sums stay.
    fn put_number(&mut self, alloc: Global, side: Side) -> Result<(), NoMemory>
        requires first { kept_sum self.old (first_of side) ≡ 0 }
        requires second { kept_sum self.old (first_of side + 1) ≡ 0 }
        ensures number { OnOk result (kept_sum self.new (mark_of side) ≡ number_of side) }
        ensures rests { Rests (side_of (kept_sum self.old)) (side_of (kept_sum self.new)) }
        ensures counted { IsCounted (kept_sum self.old) → IsCounted (kept_sum self.new) }
    {
        self.put(alloc, side.mark(), side.number())
    }

    // Puts a number in place of sum 7 or 8. Out of memory, all sums stay.
    #[tactic(auto, unfolding(crate::specs::Kept::kept_sum), using(crate::proofs::KeptLaws::long_by))]
    fn put(&mut self, alloc: Global, field: u8, number: u32) -> Result<(), NoMemory>
        requires last { 7 ≤ field }
        requires named { field < 9 }
        ensures ok { OnOk result (kept_sum self.new field ≡ number) }
        ensures others { (n : ℕ) → (field ≡ n → ⊥) → kept_sum self.new n ≡ kept_sum self.old n }
    {
        let field = usize::from(field);
        if let Kept::Long(_, long) = self {
            long[field - 7] = number;
            return Ok(());
        }
        let mut totals = self.totals();
        totals.f[field] = u128::from(number);
        *self = Kept::of(alloc, totals)?;
        Ok(())
    }

    // Adds an amount to a sum of a side whose number stands, as `raise` does.
    fn raise_side(
        &mut self,
        alloc: Global,
        side: Side,
        field: u8,
        amount: u64,
    ) -> Result<bool, NoMemory>
        requires named { field < 2 }
        requires number { kept_sum self.old (mark_of side) ≡ number_of side }
        ensures ok { OnOk result (Shifts is_same_side raise (side_of (kept_sum self.old))
            (side_of (kept_sum self.new)) side field amount) }
        ensures full { IfOk result (λ full. full ≡ false →
            side_of (kept_sum self.new) side field < greatest) }
        ensures err { OnErr result (Rests (side_of (kept_sum self.old))
            (side_of (kept_sum self.new))) }
        ensures counted { IsCounted (kept_sum self.old) → IsCounted (kept_sum self.new) }
    {
        self.raise(alloc, side.first() + field, amount)
    }

    /// Takes an amount from a sum of a side, or all of it where it is less, and tells whether the side had sums.
    pub fn lower_side(&mut self, side: Side, field: u8, amount: u64) -> bool
        requires { field < 2 }
        ensures had { result ≡ has_sums (side_of (kept_sum self.old) side) }
        ensures less { Shifts is_same_side lower (side_of (kept_sum self.old))
            (side_of (kept_sum self.new)) side field amount }
    {
        let (first, second) = self.sums(side);
        if first == 0 && second == 0 {
            return false;
        }
        self.lower(side.first() + field, amount);
        true
    }
}
