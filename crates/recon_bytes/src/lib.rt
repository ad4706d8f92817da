//! The fields of on-disk structures: numbers of two, four and eight bytes at an offset, the lowest
//! byte first, as Btrfs keeps all its numbers.
#![tactic(auto)]

ghost use Rattle.std.specs.Prelude.{◌≡◌, ◌+◌, ◌≤◌, ◌<◌, length, SomeIff};
ghost use Rattle.recon_bytes.specs.Field.{field, with_field};

use byteorder::{ByteOrder, LittleEndian};

/// The two-byte number at byte `at`, or `None` exactly where the field passes the end.
#[tactic(auto, unfolding(crate::specs::Field::field))]
pub fn u16_at(s: &[u8], at: usize) -> Option<u16>
    ensures { SomeIff result (at + 2 ≤ length s.now) (field 2 s.now at) }
{
    if s.len() < 2 || at > s.len() - 2 {
        return None;
    }
    Some(LittleEndian::read_u16(&s[at..]))
}

/// The four-byte number at byte `at`, or `None` exactly where the field passes the end.
#[tactic(auto, unfolding(crate::specs::Field::field))]
pub fn u32_at(s: &[u8], at: usize) -> Option<u32>
    ensures { SomeIff result (at + 4 ≤ length s.now) (field 4 s.now at) }
{
    if s.len() < 4 || at > s.len() - 4 {
        return None;
    }
    Some(LittleEndian::read_u32(&s[at..]))
}

/// The eight-byte number at byte `at`, or `None` exactly where the field passes the end.
#[tactic(auto, unfolding(crate::specs::Field::field))]
pub fn u64_at(s: &[u8], at: usize) -> Option<u64>
    ensures { SomeIff result (at + 8 ≤ length s.now) (field 8 s.now at) }
{
    if s.len() < 8 || at > s.len() - 8 {
        return None;
    }
    Some(LittleEndian::read_u64(&s[at..]))
}

/// The two-byte number at byte `at` of a structure that has the field.
pub fn get_u16(s: &[u8], at: usize) -> u16
    requires { at + 2 ≤ length s.now }
    ensures { result ≡ field 2 s.now at }
{
    match u16_at(s, at) {
        Some(number) => number,
        None => unreachable!(),
    }
}

/// The four-byte number at byte `at` of a structure that has the field.
pub fn get_u32(s: &[u8], at: usize) -> u32
    requires { at + 4 ≤ length s.now }
    ensures { result ≡ field 4 s.now at }
{
    match u32_at(s, at) {
        Some(number) => number,
        None => unreachable!(),
    }
}

/// The eight-byte number at byte `at` of a structure that has the field.
pub fn get_u64(s: &[u8], at: usize) -> u64
    requires { at + 8 ≤ length s.now }
    ensures { result ≡ field 8 s.now at }
{
    match u64_at(s, at) {
        Some(number) => number,
        None => unreachable!(),
    }
}

/// Writes a two-byte number at byte `at`, and changes no other byte.
#[tactic(auto, unfolding(crate::specs::Field::with_field))]
pub fn put_u16(s: &mut [u8], at: usize, v: u16)
    requires { at + 2 ≤ length s.old }
    ensures { s.new ≡ with_field 2 s.old at v }
{
    LittleEndian::write_u16(&mut s[at..at + 2], v);
}

/// Writes a four-byte number at byte `at`, and changes no other byte.
#[tactic(auto, unfolding(crate::specs::Field::with_field))]
pub fn put_u32(s: &mut [u8], at: usize, v: u32)
    requires { at + 4 ≤ length s.old }
    ensures { s.new ≡ with_field 4 s.old at v }
{
    LittleEndian::write_u32(&mut s[at..at + 4], v);
}

/// Writes an eight-byte number at byte `at`, and changes no other byte.
#[tactic(auto, unfolding(crate::specs::Field::with_field))]
pub fn put_u64(s: &mut [u8], at: usize, v: u64)
    requires { at + 8 ≤ length s.old }
    ensures { s.new ≡ with_field 8 s.old at v }
{
    LittleEndian::write_u64(&mut s[at..at + 8], v);
}
