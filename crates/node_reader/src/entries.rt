//! The entries of a block, behind its header: their keys, a node's pointers and a leaf's items.

ghost use Rattle.std.specs.Prelude.{◌≡◌, ◌+◌, ◌-◌, ◌*◌, ◌≤◌, ◌<◌, length};
ghost use Rattle.node_reader.specs.Places.{least_from};
ghost use Rattle.node_reader.specs.Layout.{generation_of};
ghost use Rattle.node_reader.specs.Faults.{disordered_at, newer_at, misplaced_at};

use recon_bytes::{get_u32, get_u64};
use verdict::get_key;

/// The size of a block's header in bytes.
pub(crate) const HEADER: usize = 101;

/// The size of a pointer of a node in bytes.
pub(crate) const POINTER: usize = 33;

/// The size of an item's entry in a leaf in bytes, which is its key, offset and size.
pub(crate) const ITEM: usize = 25;

/// The least place of `count` entries of `size` bytes whose key is not above the one before.
#[tactic(auto, using(crate::proofs::Steps::disorder_steps))]
pub(crate) fn disorder(bytes: &[u8], size: usize, count: usize) -> Option<usize>
    requires entry { 17 ≤ size }
    requires fits { 101 + size * count ≤ length bytes.now }
    ensures { result ≡ least_from (disordered_at bytes.now size) 1 (count - 1) }
{
    if count == 0 {
        return None;
    }
    let mut before = get_key(bytes, HEADER);
    for place in 1..count {
        let here = get_key(bytes, HEADER + size * place);
        if !before.is_below(&here) {
            return Some(place);
        }
        before = here;
    }
    None
}

/// The least place of `count` pointers whose generation exceeds `generation`, the node's own.
#[tactic(auto, using(crate::proofs::Steps::newer_steps))]
pub(crate) fn newer(bytes: &[u8], generation: u64, count: usize) -> Option<usize>
    requires own { generation ≡ generation_of bytes.now }
    requires fits { 101 + 33 * count ≤ length bytes.now }
    ensures { result ≡ least_from (newer_at bytes.now) 0 count }
{
    for place in 0..count {
        if get_u64(bytes, HEADER + POINTER * place + 25) > generation {
            return Some(place);
        }
    }
    None
}

/// The least place of `count` items whose bytes do not end where they must, or begin before the end of
/// the entries.
#[tactic(auto, using(crate::proofs::Steps::misplaced_steps))]
pub(crate) fn misplaced(bytes: &[u8], count: usize) -> Option<usize>
    requires fits { 101 + 25 * count ≤ length bytes.now }
    ensures { result ≡ least_from (misplaced_at bytes.now count) 0 count }
{
    let floor = (ITEM * count) as u64;
    let mut end = (bytes.len() - HEADER) as u64;
    for place in 0..count {
        let offset = u64::from(get_u32(bytes, HEADER + ITEM * place + 17));
        let size = u64::from(get_u32(bytes, HEADER + ITEM * place + 21));
        if offset + size != end || offset < floor {
            return Some(place);
        }
        end = offset;
    }
    None
}
