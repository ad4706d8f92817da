//! What is kept of the nine sums of one account.

ghost use Rattle.std.specs.Prelude.{◌≡◌, ◌<◌, ◌≤◌, ◌+◌, ◌-◌, ◌↔◌, ℕ, IsTrue, true, false, IfSome, IfOk, OnOk, OnErr, slice_index};
ghost use Rattle.accounts.specs.Sums.{sum_in};
ghost use Rattle.ledger_keys.specs.Sums.{amount_at, greatest, lower, raise};
ghost use Rattle.ledger_keys.specs.Kept.{IsZero, kept_sum};
ghost use Rattle.ledger_keys.specs.declared.kept.Kept.TheVariants.{Long};

use accounts::Totals;
use std::alloc::Global;
use verdict::NoMemory;

/// The nine sums of one account, in 16 bytes where they are small.
#[derive(Drop)]
pub enum Kept {
    /// Nine sums below 2^8.
    Few([u8; 9]),
    /// Sums 0 to 6, below 2^8, and sums 7 and 8, below 2^32.
    Long([u8; 7], [u32; 2]),
    /// Any nine sums.
    Whole(Box<Totals>),
}

impl Kept {
    /// No sums.
    #[tactic(auto, unfolding(crate::specs::Kept::kept_sum), using(crate::proofs::KeptLaws::none_by))]
    pub fn none() -> Kept
        ensures { IsZero result }
    {
        Kept::Few([0; 9])
    }

    /// The sums whole.
    #[tactic(auto, unfolding(crate::specs::Kept::kept_sum))]
    pub fn totals(&self) -> Totals
        ensures { (n : ℕ) → sum_in result n ≡ kept_sum self.now n }
    {
        match self {
            Kept::Few(few) => of_few(few),
            Kept::Long(few, long) => of_long(few, long),
            Kept::Whole(totals) => **totals,
        }
    }

    /// Sums in place, or `None` where they do not fit.
    #[tactic(auto, unfolding(crate::specs::Kept::kept_sum), using(crate::proofs::KeptLaws::long_by))]
    fn in_place(totals: &Totals) -> Option<Kept>
        ensures { IfSome result (λ kept. (n : ℕ) → kept_sum kept n ≡ sum_in totals.now n) }
    {
        if let Some(few) = few_of(totals) {
            return Some(Kept::Few(few));
        }
        let few = first_of(totals)?;
        let long = last_of(totals)?;
        Some(Kept::Long(few, long))
    }

    /// Sums as they are kept.
    #[tactic(auto, unfolding(crate::specs::Kept::kept_sum))]
    pub fn of(alloc: Global, totals: Totals) -> Result<Kept, NoMemory>
        ensures { IfOk result (λ kept. (n : ℕ) → kept_sum kept n ≡ sum_in totals n) }
    {
        if let Some(kept) = Kept::in_place(&totals) {
            return Ok(kept);
        }
        Ok(Kept::Whole(Box::new(alloc, totals)?))
    }

    /// One amount alone.
    pub fn one(alloc: Global, field: u8, amount: u64) -> Result<Kept, NoMemory>
        requires { field < 9 }
        ensures { IfOk result (λ kept. (n : ℕ) → kept_sum kept n ≡ amount_at field amount n) }
    {
        let field = usize::from(field);
        let mut few = [0; 9];
        if raise_few(&mut few, field, amount) {
            return Ok(Kept::Few(few));
        }
        let mut totals = Totals::zero();
        raise_sum(&mut totals, field, amount);
        Kept::of(alloc, totals)
    }

    /// Adds an amount to a sum, or as much of it as there is room for in 128 bits, and tells whether the sum stands at the
    /// greatest number of 128 bits then. Out of memory, the sums stay.
    #[tactic(auto, unfolding(crate::specs::Kept::kept_sum))]
    pub fn raise(&mut self, alloc: Global, field: u8, amount: u64) -> Result<bool, NoMemory>
        requires { field < 9 }
        ensures ok { OnOk result ((n : ℕ) →
            kept_sum self.new n ≡ raise (amount_at field amount n) (kept_sum self.old n)) }
        ensures full { IfOk result (λ full. full ≡ false → kept_sum self.new field < greatest) }
        ensures err { OnErr result ((n : ℕ) → kept_sum self.new n ≡ kept_sum self.old n) }
    {
        let field = usize::from(field);
        if self.raise_in_place(field, amount) {
            return Ok(false);
        }
        self.raise_anew(alloc, field, amount)
    }

    // Adds as `raise` does, where there is no room for the amount in the bytes in which the sum is kept.
    #[inline(never)]
    #[tactic(auto, unfolding(crate::specs::Kept::kept_sum))]
    fn raise_anew(&mut self, alloc: Global, field: usize, amount: u64) -> Result<bool, NoMemory>
        requires { field < 9 }
        ensures ok { OnOk result ((n : ℕ) →
            kept_sum self.new n ≡ raise (amount_at field amount n) (kept_sum self.old n)) }
        ensures full { IfOk result (λ full. full ≡ false → kept_sum self.new field < greatest) }
        ensures err { OnErr result ((n : ℕ) → kept_sum self.new n ≡ kept_sum self.old n) }
    {
        if let Kept::Whole(totals) = self {
            return Ok(raise_sum(totals, field, amount));
        }
        let mut totals = self.totals();
        let full = raise_sum(&mut totals, field, amount);
        *self = Kept::of(alloc, totals)?;
        Ok(full)
    }

    // Adds an amount to a sum where there is room for it in the bytes in which the sum is kept, and tells whether there
    // is. Else the sums stay.
    #[tactic(auto, unfolding(crate::specs::Kept::kept_sum), using(crate::proofs::KeptLaws::long_by))]
    fn raise_in_place(&mut self, field: usize, amount: u64) -> bool
        requires { field < 9 }
        ensures raised { result ≡ true → (n : ℕ) →
            kept_sum self.new n ≡ raise (amount_at field amount n) (kept_sum self.old n) }
        ensures small { result ≡ true → kept_sum self.new field < greatest }
        ensures stays { result ≡ false → (n : ℕ) → kept_sum self.new n ≡ kept_sum self.old n }
    {
        match self {
            Kept::Few(few) => raise_few(few, field, amount),
            Kept::Long(few, _) if field < 7 => raise_first(few, field, amount),
            Kept::Long(_, long) => raise_last(long, field, amount),
            Kept::Whole(_) => false,
        }
    }

    /// Takes an amount from a sum, or all of it where it is less.
    #[tactic(auto, unfolding(crate::specs::Kept::kept_sum), using(crate::proofs::KeptLaws::long_by))]
    pub fn lower(&mut self, field: u8, amount: u64)
        requires { field < 9 }
        ensures { (n : ℕ) →
            kept_sum self.new n ≡ lower (amount_at field amount n) (kept_sum self.old n) }
    {
        let field = usize::from(field);
        match self {
            Kept::Few(few) => lower_few(few, field, amount),
            Kept::Long(few, _) if field < 7 => lower_first(few, field, amount),
            Kept::Long(_, long) => lower_last(long, field, amount),
            Kept::Whole(totals) => lower_sum(totals, field, amount),
        }
    }

    /// Whether all sums are zero.
    pub fn is_zero(&self) -> bool
        ensures { IsTrue result ↔ IsZero self.now }
    {
        match self {
            Kept::Few(few) => are_zero(few),
            Kept::Long(few, long) => are_zero_long(few, long),
            Kept::Whole(totals) => are_zero_whole(totals),
        }
    }
}

// Whether nine sums are all zero.
fn are_zero_whole(totals: &Totals) -> bool
    ensures { IsTrue result ↔ ((n : ℕ) → sum_in totals.now n ≡ 0) }
{
    totals.f.iter().all(|sum| *sum == 0)
}

// Whether seven small sums and two longer ones are all zero.
fn are_zero_long(few: &[u8; 7], long: &[u32; 2]) -> bool
    ensures { IsTrue result ↔ IsZero (Long few.now long.now) }
{
    if long[0] != 0 || long[1] != 0 {
        return false;
    }
    are_zero(few)
}

// Whether some bytes are all zero.
fn are_zero(bytes: &[u8]) -> bool
    ensures { IsTrue result ↔ ((n : ℕ) → slice_index bytes.now n ≡ 0) }
{
    bytes.iter().all(|byte| *byte == 0)
}

// Adds an amount to a sum, or as much of it as there is room for in 128 bits, and tells whether the sum stands at the
// greatest number of 128 bits then.
fn raise_sum(totals: &mut Totals, field: usize, amount: u64) -> bool
    requires { field < 9 }
    ensures raised { (n : ℕ) →
        sum_in totals.new n ≡ raise (amount_at field amount n) (sum_in totals.old n) }
    ensures full { result ≡ false → sum_in totals.new field < greatest }
{
    totals.f[field] = totals.f[field].saturating_add(u128::from(amount));
    totals.f[field] == u128::MAX
}

// Adds an amount to one of nine small sums, where there is room for it in a byte, and tells whether there is.
fn raise_few(few: &mut [u8; 9], field: usize, amount: u64) -> bool
    requires { field < 9 }
    ensures raised { result ≡ true → (n : ℕ) →
        slice_index few.new n ≡ raise (amount_at field amount n) (slice_index few.old n) }
    ensures small { result ≡ true → slice_index few.new field < greatest }
    ensures stays { result ≡ false → few.new ≡ few.old }
{
    match raised_byte(few[field], amount) {
        Some(sum) => {
            few[field] = sum;
            true
        }
        None => false,
    }
}

// Adds an amount to one of seven small sums, where there is room for it in a byte, and tells whether there is.
fn raise_first(few: &mut [u8; 7], field: usize, amount: u64) -> bool
    requires { field < 7 }
    ensures raised { result ≡ true → (n : ℕ) → n < 7 →
        slice_index few.new n ≡ raise (amount_at field amount n) (slice_index few.old n) }
    ensures small { result ≡ true → slice_index few.new field < greatest }
    ensures stays { result ≡ false → few.new ≡ few.old }
{
    match raised_byte(few[field], amount) {
        Some(sum) => {
            few[field] = sum;
            true
        }
        None => false,
    }
}

// Adds an amount to sum 7 or 8, where there is room for it in 32 bits, and tells whether there is.
fn raise_last(long: &mut [u32; 2], field: usize, amount: u64) -> bool
    requires last { 7 ≤ field }
    requires named { field < 9 }
    ensures raised { result ≡ true → (n : ℕ) →
        slice_index long.new n ≡ raise (amount_at field amount (n + 7)) (slice_index long.old n) }
    ensures small { result ≡ true → slice_index long.new (field - 7) < greatest }
    ensures stays { result ≡ false → long.new ≡ long.old }
{
    match raised(long[field - 7], amount) {
        Some(sum) => {
            long[field - 7] = sum;
            true
        }
        None => false,
    }
}

// A number with an amount more, where that is below 2^8.
fn raised_byte(sum: u8, amount: u64) -> Option<u8>
    ensures { IfSome result (λ more. more ≡ sum + amount) }
{
    match u8::try_from(amount) {
        Ok(amount) => sum.checked_add(amount),
        Err(_) => None,
    }
}

// A number with an amount more, where that is below 2^32.
fn raised(sum: u32, amount: u64) -> Option<u32>
    ensures { IfSome result (λ more. more ≡ sum + amount) }
{
    match u32::try_from(amount) {
        Ok(amount) => sum.checked_add(amount),
        Err(_) => None,
    }
}

// Takes an amount from a sum, or all of it where it is less.
fn lower_sum(totals: &mut Totals, field: usize, amount: u64)
    requires { field < 9 }
    ensures { (n : ℕ) →
        sum_in totals.new n ≡ lower (amount_at field amount n) (sum_in totals.old n) }
{
    totals.f[field] = totals.f[field].saturating_sub(u128::from(amount));
}

// Takes an amount from one of nine small sums, or all of it where it is less.
fn lower_few(few: &mut [u8; 9], field: usize, amount: u64)
    requires { field < 9 }
    ensures { (n : ℕ) →
        slice_index few.new n ≡ lower (amount_at field amount n) (slice_index few.old n) }
{
    few[field] = lowered_byte(few[field], amount);
}

// Takes an amount from one of seven small sums, or all of it where it is less.
fn lower_first(few: &mut [u8; 7], field: usize, amount: u64)
    requires { field < 7 }
    ensures { (n : ℕ) → n < 7 →
        slice_index few.new n ≡ lower (amount_at field amount n) (slice_index few.old n) }
{
    few[field] = lowered_byte(few[field], amount);
}

// Takes an amount from sum 7 or 8, or all of it where it is less.
fn lower_last(long: &mut [u32; 2], field: usize, amount: u64)
    requires last { 7 ≤ field }
    requires named { field < 9 }
    ensures { (n : ℕ) →
        slice_index long.new n ≡ lower (amount_at field amount (n + 7)) (slice_index long.old n) }
{
    long[field - 7] = lowered(long[field - 7], amount);
}

// A number with an amount less, or nothing.
fn lowered_byte(sum: u8, amount: u64) -> u8
    ensures { result ≡ lower amount sum }
{
    match u8::try_from(amount) {
        Ok(amount) => sum.saturating_sub(amount),
        Err(_) => 0,
    }
}

// A number with an amount less, or nothing.
fn lowered(sum: u32, amount: u64) -> u32
    ensures { result ≡ lower amount sum }
{
    match u32::try_from(amount) {
        Ok(amount) => sum.saturating_sub(amount),
        Err(_) => 0,
    }
}

// Nine small sums whole.
fn of_few(few: &[u8; 9]) -> Totals
    ensures { (n : ℕ) → sum_in result n ≡ slice_index few.now n }
{
    let mut totals = Totals::zero();
    for i in 0..9 {
        totals.f[i] = u128::from(few[i]);
    }
    totals
}

// Seven small sums and two longer ones whole.
fn of_long(few: &[u8; 7], long: &[u32; 2]) -> Totals
    ensures { (n : ℕ) → sum_in result n ≡ kept_sum (Long few.now long.now) n }
{
    let mut totals = Totals::zero();
    for i in 0..7 {
        totals.f[i] = u128::from(few[i]);
    }
    totals.f[7] = u128::from(long[0]);
    totals.f[8] = u128::from(long[1]);
    totals
}

// The nine sums, where each is below 2^8.
fn few_of(totals: &Totals) -> Option<[u8; 9]>
    ensures { IfSome result (λ few. (n : ℕ) → slice_index few n ≡ sum_in totals.now n) }
{
    let mut few = [0; 9];
    for i in 0..9 {
        let Ok(sum) = u8::try_from(totals.f[i]) else {
            return None;
        };
        few[i] = sum;
    }
    Some(few)
}

// The first seven sums, where each is below 2^8.
fn first_of(totals: &Totals) -> Option<[u8; 7]>
    ensures { IfSome result (λ few. (n : ℕ) → n < 7 → slice_index few n ≡ sum_in totals.now n) }
{
    let mut few = [0; 7];
    for i in 0..7 {
        let Ok(sum) = u8::try_from(totals.f[i]) else {
            return None;
        };
        few[i] = sum;
    }
    Some(few)
}

// The last two sums, where each is below 2^32.
fn last_of(totals: &Totals) -> Option<[u32; 2]>
    ensures { IfSome result (λ long. (n : ℕ) → slice_index long n ≡ sum_in totals.now (n + 7)) }
{
    let Ok(seventh) = u32::try_from(totals.f[7]) else {
        return None;
    };
    let Ok(eighth) = u32::try_from(totals.f[8]) else {
        return None;
    };
    Some([seventh, eighth])
}
