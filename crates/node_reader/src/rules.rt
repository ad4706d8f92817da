//! The rules of a block in their order.

ghost use Rattle.std.specs.Prelude.{◌≡◌, ◌+◌, ◌*◌, ◌<◌, ◌≤◌, length, drop, true, bytes_eq};
ghost use Rattle.recon_crc.specs.Checksum.{crc32c_of};
ghost use Rattle.verdict.specs.Image.{range};
ghost use Rattle.verdict.specs.Rules.{first_failing};
ghost use Rattle.node_reader.specs.Layout.{count_of, entry_size};
ghost use Rattle.node_reader.specs.Faults.{needs_entry, header_rules, count_rules, key_rules, body_rules, block_fault};

use crate::Expect;
use crate::entries::{HEADER, ITEM, POINTER, disorder, misplaced, newer};
use recon_bytes::{get_u32, get_u64};
use recon_crc::crc32c;
use verdict::{Family, Finding, get_key};

/// The finding of the first rule that a block breaks, of which this is the checksum.
#[tactic(auto, using(crate::proofs::Sound::fault_steps), unfolding(crate::specs::Faults::block_fault))]
pub(crate) fn fault_of(bytes: &[u8], fsid: &[u8; 16], e: &Expect, sum: u32) -> Option<Finding>
    requires header { 101 ≤ length bytes.now }
    requires sum { sum ≡ crc32c_of (drop 0x20 bytes.now) }
    ensures { result ≡ block_fault bytes.now fsid.now e.now }
{
    if let Some(found) = header_fault(bytes, fsid, e, sum) {
        return Some(found);
    }
    if let Some(found) = count_fault(bytes, e) {
        return Some(found);
    }
    if let Some(found) = key_fault(bytes, e) {
        return Some(found);
    }
    body_fault(bytes, e)
}

/// The first finding of what the header says, of a block with this checksum.
#[tactic(auto, unfolding(crate::specs::Faults::header_rules))]
fn header_fault(bytes: &[u8], fsid: &[u8; 16], e: &Expect, sum: u32) -> Option<Finding>
    requires header { 101 ≤ length bytes.now }
    requires sum { sum ≡ crc32c_of (drop 0x20 bytes.now) }
    ensures { result ≡ first_failing (header_rules bytes.now fsid.now e.now) }
{
    if sum != get_u32(bytes, 0) {
        return Some(e.finding(Family::N, 3, u64::from(sum)));
    }
    if !has_fsid(bytes, fsid) {
        return Some(e.finding(Family::N, 4, 0));
    }
    let address = get_u64(bytes, 0x30);
    if address != e.address {
        return Some(e.finding(Family::N, 5, address));
    }
    if bytes[0x38] & 2 == 2 {
        return Some(e.finding(Family::U, 12, 0));
    }
    let owner = get_u64(bytes, 0x58);
    if owner != e.tree {
        return Some(e.finding(Family::N, 6, owner));
    }
    let generation = get_u64(bytes, 0x50);
    if generation != e.generation {
        return Some(e.finding(Family::N, 7, generation));
    }
    let level = bytes[0x64];
    if level != e.level {
        return Some(e.finding(Family::N, 8, u64::from(level)));
    }
    None
}

/// The finding of a number of entries that can not be.
#[tactic(auto, unfolding(crate::specs::Faults::count_rules))]
fn count_fault(bytes: &[u8], e: &Expect) -> Option<Finding>
    requires { 101 ≤ length bytes.now }
    ensures { result ≡ first_failing (count_rules bytes.now e.now) }
{
    let count = get_u32(bytes, 0x60);
    let room = (bytes.len() - HEADER) / size_of_entry(e);
    if count as usize > room || (count == 0 && must_have_entry(e)) {
        return Some(e.finding(Family::N, 9, u64::from(count)));
    }
    None
}

/// The first finding of the keys.
#[tactic(auto, unfolding(crate::specs::Faults::key_rules))]
fn key_fault(bytes: &[u8], e: &Expect) -> Option<Finding>
    requires header { 101 ≤ length bytes.now }
    requires fits { 101 + entry_size e.now.level * count_of bytes.now ≤ length bytes.now }
    requires some { needs_entry e.now ≡ true → 0 < count_of bytes.now }
    ensures { result ≡ first_failing (key_rules bytes.now e.now) }
{
    let size = size_of_entry(e);
    let count = get_u32(bytes, 0x60) as usize;
    if let Some(low) = e.low
        && low != get_key(bytes, HEADER)
    {
        return Some(e.finding(Family::N, 10, 0));
    }
    if let Some(place) = disorder(bytes, size, count) {
        return Some(e.finding(Family::N, 11, place as u64));
    }
    if let Some(high) = e.high
        && count > 0
        && !get_key(bytes, HEADER + size * (count - 1)).is_below(&high)
    {
        return Some(e.finding(Family::N, 12, (count - 1) as u64));
    }
    None
}

/// The first finding of a node's pointers or a leaf's items.
#[tactic(auto, unfolding(crate::specs::Faults::body_rules))]
fn body_fault(bytes: &[u8], e: &Expect) -> Option<Finding>
    requires header { 101 ≤ length bytes.now }
    requires fits { 101 + entry_size e.now.level * count_of bytes.now ≤ length bytes.now }
    ensures { result ≡ first_failing (body_rules bytes.now e.now) }
{
    let count = get_u32(bytes, 0x60) as usize;
    if e.level == 0 {
        let place = misplaced(bytes, count)?;
        Some(e.finding(Family::N, 14, place as u64))
    } else {
        let place = newer(bytes, get_u64(bytes, 0x50), count)?;
        Some(e.finding(Family::N, 13, place as u64))
    }
}

/// The checksum of the bytes behind the field that holds it.
pub(crate) fn sum_of(bytes: &[u8]) -> u32
    requires { 101 ≤ length bytes.now }
    ensures { result ≡ crc32c_of (drop 0x20 bytes.now) }
{
    crc32c(&bytes[0x20..])
}

/// Whether the header has the file system's id.
fn has_fsid(bytes: &[u8], fsid: &[u8; 16]) -> bool
    requires { 101 ≤ length bytes.now }
    ensures { result ≡ bytes_eq (range 0x20 16 bytes.now) fsid.now }
{
    bytes[0x20..0x30] == fsid[..]
}

/// The size of an entry of the block that is expected.
fn size_of_entry(e: &Expect) -> usize
    ensures { result ≡ entry_size e.now.level }
{
    if e.level == 0 { ITEM } else { POINTER }
}

/// Whether the block that is expected may not be empty.
fn must_have_entry(e: &Expect) -> bool
    ensures { result ≡ needs_entry e.now }
{
    e.level != 0 || e.low.is_some()
}
