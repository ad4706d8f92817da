//! Checksums of file data.

ghost use Rattle.std.specs.Prelude.{◌≡◌, MatchResult, Ok, Err};
ghost use Rattle.fs_items.specs.SumsRow.{sum_row};
ghost use Rattle.fs_items.specs.Lent.{sums_in};

use verdict::{At, Family, Finding, Key, SECTOR, is_multiple};

/// Checksums of adjacent sectors of file data, EXTENT_CSUM, that keep their rules, in the bytes of their
/// leaf.
#[derive(Clone, Copy, Debug, PartialEq, Eq)]
pub struct SumRun<'a> {
    /// The item's key, whose offset is the logical address in bytes of the first sector.
    pub key: Key,
    /// The sums: a CRC-32C of four bytes, the lowest first, for each sector of 4096 bytes, in the order
    /// of the addresses.
    pub sums: &'a [u8],
}

/// The objectid -10, which checksums have.
const SUMS_OBJECTID: u64 = 18_446_744_073_709_551_606;

/// The checksums with this key in these bytes, or the finding of the first rule that they break, in the
/// order tree (U9), key (I2), size (I1), range that they cover (I1).
#[tactic(auto, unfolding(crate::specs::SumsRow::sum_row))]
pub fn read_sums<'a>(at: &At, key: Key, bytes: &'a [u8]) -> Result<SumRun<'a>, Finding>
    ensures { MatchResult result
        (λ item. sum_row at.now key bytes.now ≡ Ok (sums_in item))
        (λ finding. sum_row at.now key bytes.now ≡ Err finding) }
{
    if !at.sort.lists(key) {
        return Err(at.finding(key, Family::U, 9, u64::from(key.kind)));
    }
    if key.objectid != SUMS_OBJECTID || !is_multiple(key.offset) {
        return Err(at.finding(key, Family::I, 2, 0));
    }
    let size = bytes.len() as u64;
    if size == 0 || size % 4 != 0 {
        return Err(at.finding(key, Family::I, 1, size));
    }
    // The last sector's address decides, so that no product has to fit.
    if size / 4 > (u64::MAX - key.offset) / SECTOR {
        return Err(at.finding(key, Family::I, 1, size));
    }
    Ok(SumRun { key, sums: bytes })
}
