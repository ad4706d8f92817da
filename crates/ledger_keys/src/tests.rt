//! Sums that no run of calls can reach.

use crate::kept::Kept;
use accounts::Totals;
use verdict::NoMemory;

// The totals with these first two sums, and no other.
fn two(first: u128, second: u128) -> Totals {
    Totals {
        f: [first, second, 0, 0, 0, 0, 0, 0, 0],
    }
}

#[test]
fn stays_at_the_greatest_sum(rt: HostRuntime) -> Result<(), NoMemory> {
    let alloc = rt.alloc();
    let mut kept = Kept::of(alloc, two(u128::MAX - 5, 4_294_967_296))?;
    kept.raise(alloc, 0, 5)?;
    assert!(rt; kept.totals() == two(u128::MAX, 4_294_967_296));
    kept.raise(alloc, 0, 6)?;
    assert!(rt; kept.totals() == two(u128::MAX, 4_294_967_296));
    kept.lower(0, 7);
    kept.lower(1, u64::MAX);
    assert!(rt; kept.totals() == two(u128::MAX - 7, 0));
    Ok(())
}
