//! Chunk items.

ghost use Rattle.std.specs.Prelude.{◌≡◌, ◌+◌, ◌*◌, ◌≤◌, ◌<◌, ◌^◌, length, drop, MatchResult, Ok, Err, IfOk, IsNone};
ghost use Rattle.recon_bytes.specs.Field.{field};
ghost use Rattle.verdict.specs.Rules.{first_failing};
ghost use Rattle.verdict.specs.Items.{item_finding};
ghost use Rattle.volume_items.specs.ChunkRow.{frame_rows, field_rows, stripe_rows, chunk_rows, chunk_row, chunk_of, is_kind, stripes_wanted};
ghost use Rattle.volume_items.specs.ChunkItems.{fields_in, stripes_left};

use recon_bytes::{get_u16, get_u64};
use verdict::{At, Chunk, Family, Finding, Key, is_multiple};

/// The type bits that a chunk may have: 1 data, 2 system, 4 metadata, 32 dup.
const ALLOWED_CLASS: u64 = 1 | 2 | 4 | DUP;

/// The type bit of chunks that stand twice on the device.
const DUP: u64 = 32;

/// A chunk item that keeps its rules, in the bytes of its leaf.
#[derive(Clone, Copy, Debug)]
pub struct ChunkItem<'a> {
    /// The item's key, whose offset is the logical address in bytes where the chunk begins.
    pub key: Key,
    /// The chunk's length in bytes.
    pub length: u64,
    /// The chunk's type, a bit each: 1 data, 2 system, 4 metadata, 32 dup.
    pub class: u64,
    /// The bytes of the stripes, 32 each, which `stripes` reads.
    pub stripes: &'a [u8],
}

/// One copy of a chunk.
#[derive(Clone, Copy, Debug, PartialEq, Eq)]
pub struct Stripe {
    /// The id of the device.
    pub devid: u64,
    /// The byte of the device where the copy begins.
    pub physical: u64,
}

/// The stripes of a chunk item that are left, in the order of its bytes.
#[derive(Clone, Copy, Debug, Drop)]
pub struct Stripes<'a> {
    left: &'a [u8],
}

impl<'a> ChunkItem<'a> {
    /// The stripes, in the order of the bytes.
    pub fn stripes(&self) -> Stripes<'a>
        ensures { stripes_left result ≡ (fields_in self.now).stripes }
    {
        Stripes { left: self.stripes }
    }

    /// The chunk that the item describes.
    pub fn chunk(&self) -> Chunk
        ensures { result ≡ chunk_of (fields_in self.now) }
    {
        let mut stripes = self.stripes();
        let first = stripes.next().map_or(0, |stripe| stripe.physical);
        let second = stripes.next().map(|stripe| stripe.physical);
        Chunk {
            start: self.key.offset,
            length: self.length,
            class: self.class,
            first,
            second,
        }
    }
}

impl<'a> Iterator for Stripes<'a> {
    ghost use Rattle.std.specs.Iterator.{YieldsFirst, item_count};
    ghost use Rattle.volume_items.specs.ChunkItems.{stripes_left};

    type Item = Stripe;

    ghost next_gives = { YieldsFirst stripes_left };

    ghost remaining = { item_count stripes_left };

    #[tactic(auto, using(crate::proofs::Rows::next_stripe))]
    fn next(&mut self) -> Option<Stripe> {
        if self.left.len() < 32 {
            return None;
        }
        let devid = get_u64(self.left, 0);
        let physical = get_u64(self.left, 8);
        self.left = &self.left[32..];
        Some(Stripe { devid, physical })
    }
}

/// The chunk item with this key in these bytes, or the finding of the first rule that it breaks, in
/// the order kind (U9), key (I2), size (I1), length (I3), type (U6, I3), number of stripes (I3), and for each
/// stripe its device (U5) and its physical offset (I3).
#[tactic(auto, unfolding(crate::specs::ChunkRow::chunk_row), using(verdict::proofs::Tables::first_failing_joined))]
pub fn read_chunk<'a>(at: &At, key: Key, bytes: &'a [u8]) -> Result<ChunkItem<'a>, Finding>
    ensures row { MatchResult result
        (λ item. chunk_row at.now key bytes.now ≡ Ok (fields_in item))
        (λ finding. chunk_row at.now key bytes.now ≡ Err finding) }
    ensures fits { IfOk result (λ item. item.key.offset + item.length < 2 ^ 64) }
{
    if let Some(found) = frame_fault(at, key, bytes) {
        return Err(found);
    }
    if let Some(found) = field_fault(at, key, bytes) {
        return Err(found);
    }
    let length = get_u64(bytes, 0);
    let stripes = &bytes[48..];
    if let Some(found) = stripes_fault(at, key, length, Stripes { left: stripes }) {
        return Err(found);
    }
    Ok(ChunkItem {
        key,
        length,
        class: get_u64(bytes, 24),
        stripes,
    })
}

/// The first finding on the key and the size.
#[tactic(auto, unfolding(crate::specs::ChunkRow::frame_rows))]
fn frame_fault(at: &At, key: Key, bytes: &[u8]) -> Option<Finding>
    ensures found { result ≡ first_failing (frame_rows at.now key bytes.now) }
    ensures sized { IsNone result → 48 ≤ length bytes.now }
{
    if !at.sort.lists(key) {
        return Some(at.finding(key, Family::U, 9, u64::from(key.kind)));
    }
    if key.objectid != 256 || !is_multiple(key.offset) {
        return Some(at.finding(key, Family::I, 2, 0));
    }
    let size = bytes.len() as u64;
    if size < 48 {
        return Some(at.finding(key, Family::I, 1, size));
    }
    if size != 48 + 32 * u64::from(get_u16(bytes, 44)) {
        return Some(at.finding(key, Family::I, 1, size));
    }
    None
}

/// The first finding on the length, the type and the number of stripes.
#[tactic(auto, unfolding(crate::specs::ChunkRow::field_rows))]
fn field_fault(at: &At, key: Key, bytes: &[u8]) -> Option<Finding>
    requires { 48 ≤ length bytes.now }
    ensures found { result ≡ first_failing (field_rows at.now key bytes.now) }
    ensures fits { IsNone result → key.offset + field 8 bytes.now 0 < 2 ^ 64 }
{
    let length = get_u64(bytes, 0);
    if length == 0 || !is_multiple(length) || length > u64::MAX - key.offset {
        return Some(at.finding(key, Family::I, 3, 0));
    }
    let class = get_u64(bytes, 24);
    if class & ALLOWED_CLASS != class {
        return Some(at.finding(key, Family::U, 6, class));
    }
    if !kind(class) {
        return Some(at.finding(key, Family::I, 3, 24));
    }
    if u64::from(get_u16(bytes, 44)) != wanted(class) {
        return Some(at.finding(key, Family::I, 3, 44));
    }
    None
}

/// The first finding on the stripes, the first of which begins at byte 48 of the item.
fn stripes_fault(at: &At, key: Key, length: u64, stripes: Stripes<'_>) -> Option<Finding>
    ensures { result ≡ first_failing
        (stripe_rows at.now key length 48 (stripes_left stripes.entry)) }
{
    let mut offset = 48;
    for stripe in stripes {
        if stripe.devid != at.devid {
            return Some(at.finding(key, Family::U, 5, stripe.devid));
        }
        if !is_multiple(stripe.physical) || length > u64::MAX - stripe.physical {
            return Some(at.finding(key, Family::I, 3, offset + 8));
        }
        offset += 32;
    }
    None
}

/// Whether a chunk's type without dup is data, system, metadata, or data and metadata.
fn kind(class: u64) -> bool
    ensures { result ≡ is_kind class }
{
    let kind = class & 7;
    kind == 1 || kind == 2 || kind == 4 || kind == 5
}

/// How many stripes a chunk of this type has.
fn wanted(class: u64) -> u64
    ensures { result ≡ stripes_wanted class }
{
    if class & DUP == DUP { 2 } else { 1 }
}
