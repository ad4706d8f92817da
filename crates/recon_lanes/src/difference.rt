//! Where two blocks of bytes differ.

ghost use Rattle.std.specs.Prelude.{◌≡◌, ℕ, Bool, true, ◌+◌, ◌≤◌, ◌<◌, length, slice_index};
ghost use Rattle.recon_lanes.specs.Difference.{AreEqualBelow, differs_at, least_difference};

use std::simd::prelude::*;

/// The bytes that are compared in one step of a loop over bytes, which the compiler turns into lanes.
const WIDE: usize = 1024;

/// The bytes that are compared in one step where fewer are left.
const LANES: usize = 64;

/// The least place at which `b`, which is as long as `a`, differs from it, counted in bytes from their
/// start; `None` exactly where they are equal.
#[tactic(auto, using(crate::proofs::Steps::difference_steps))]
pub fn first_difference(a: &[u8], b: &[u8]) -> Option<usize>
    requires { length b.now ≡ length a.now }
    ensures { result ≡ least_difference a.now b.now }
{
    for place in equal_front(a, b)..a.len() {
        if a[place] != b[place] {
            return Some(place);
        }
    }
    None
}

/// A number of bytes from the start on in which the two are equal: all whole steps before the first
/// that has a difference.
fn equal_front(a: &[u8], b: &[u8]) -> usize
    requires { length b.now ≡ length a.now }
    ensures within { result ≤ length a.now }
    ensures equal { AreEqualBelow a.now b.now result }
{
    let mut front = wide_front(a, b);
    while a.len() - front >= LANES && equal_lanes(&a[front..], &b[front..]) {
        front += LANES;
    }
    front
}

/// The same, of wide steps alone.
fn wide_front(a: &[u8], b: &[u8]) -> usize
    requires { length b.now ≡ length a.now }
    ensures within { result ≤ length a.now }
    ensures equal { AreEqualBelow a.now b.now result }
{
    let mut front = 0;
    while a.len() - front >= WIDE && are_equal_wide(&a[front..], &b[front..]) {
        front += WIDE;
    }
    front
}

/// Whether the first bytes of the two, as many as a wide step has, are equal.
fn are_equal_wide(a: &[u8], b: &[u8]) -> bool
    requires a { 1024 ≤ length a.now }
    requires b { 1024 ≤ length b.now }
    ensures { result ≡ true → AreEqualBelow a.now b.now 1024 }
{
    let mut different = 0;
    for place in 0..WIDE {
        different |= a[place] ^ b[place];
    }
    different == 0
}

/// Whether the first bytes of the two, as many as there are lanes, are equal.
#[inline(always)]
fn equal_lanes(a: &[u8], b: &[u8]) -> bool
    requires a { 64 ≤ length a.now }
    requires b { 64 ≤ length b.now }
    ensures { result ≡ true → AreEqualBelow a.now b.now 64 }
{
    u8x64::from_slice(a)
        .simd_ne(u8x64::from_slice(b))
        .to_bitmask()
        == 0
}
