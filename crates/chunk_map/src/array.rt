//! The pairs of the system chunk array.

ghost use Rattle.std.specs.Prelude.{◌≡◌, ◌+◌, ◌≤◌, ◌<◌, ◌^◌, length, IfOk, MatchResult, MatchOption, Ok, Err, IsTrue, IsFalse};
ghost use Rattle.verdict.specs.OnDisk.{key_of};
ghost use Rattle.volume_items.specs.ChunkItems.{fields_in};
ghost use Rattle.super_reader.specs.Superblock.{array_place};
ghost use Rattle.volume_items.specs.SystemArray.{item_size, pair_fails, pair_of};

use recon_bytes::get_u16;
use super_reader::Super;
use verdict::kinds::CHUNK_ITEM;
use verdict::{Family, Finding, Key, get_key};
use volume_items::{ChunkItem, read_chunk};

/// The size of a key in bytes.
const KEY: usize = Key::SIZE;

/// The chunk item of a pair, and the byte of the array behind it.
#[derive(Clone, Copy)]
pub struct Pair<'a> {
    /// The chunk item.
    pub item: ChunkItem<'a>,
    /// The byte behind the pair.
    pub end: usize,
}

/// The head of a pair: its key, and the size of its chunk item in bytes.
#[derive(Clone, Copy)]
struct Head {
    key: Key,
    size: usize,
}

/// The chunk item of the pair at a byte of the array, or the finding.
pub fn read_pair<'a>(sup: &'a Super, at: usize) -> Result<Pair<'a>, Finding>
    requires size { sup.now.array_size ≤ 2048 }
    requires inside { at < sup.now.array_size }
    ensures read { let pair = pair_of (array_place sup.now) sup.now.array sup.now.array_size at in
        MatchResult result (λ read. pair ≡ Ok (fields_in read.item))
        (λ finding. pair ≡ Err finding) }
    ensures end { IfOk result (λ pair.
        (pair.end ≡ at + 17 + item_size sup.now.array at) × (pair.end ≤ sup.now.array_size)) }
{
    let Some(head) = pair_at(&sup.array, sup.array_size as usize, at) else {
        return Err(Finding::of_image(Family::S, 9, at as u64));
    };
    let start = at + KEY;
    let end = start + head.size;
    match read_chunk(
        &sup.place(3, 0, sup.chunk_root_generation),
        head.key,
        &sup.array[start..end],
    ) {
        Ok(item) => Ok(Pair { item, end }),
        Err(found) => Err(found),
    }
}

/// The head of the pair at a byte of the array, or `None` exactly where it is no pair: too few bytes
/// are left, its key is another, or its stripes pass the end.
fn pair_at(array: &[u8], size: usize, at: usize) -> Option<Head>
    requires size { size ≤ length array.now }
    requires inside { at < size }
    ensures { MatchOption result (IsTrue (pair_fails array.now size at)) (λ head.
        IsFalse (pair_fails array.now size at)
        × (head.key ≡ key_of array.now at)
        × (head.size ≡ item_size array.now at)
        × (at + 17 + head.size ≤ size)) }
{
    let left = size - at;
    if left < KEY + 48 {
        return None;
    }
    let key = get_key(array, at);
    let stripes = get_u16(array, at + KEY + 44);
    if key.objectid != 256 || key.kind != CHUNK_ITEM {
        return None;
    }
    let size = 48 + 32 * stripes as usize;
    if left - KEY < size {
        return None;
    }
    Some(Head { key, size })
}
