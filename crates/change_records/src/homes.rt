//! Which chunks came, went or changed between two lists.

ghost use Rattle.std.specs.Prelude.{◌≡◌, ◌↔◌, IsTrue, option_map};
ghost use Rattle.accounts.specs.Context.{home_in};
ghost use Rattle.change_records.specs.Homes.{StandApart, is_kept};
ghost use Rattle.change_records.specs.Passes.{is_searched};

use accounts::Home;
use chunk_map::ChunkMap;
use verdict::Chunk;

/// Whether each chunk of a list ends at most where each later one starts. It is one pass.
pub(crate) fn stand_apart(chunks: &[Chunk]) -> bool
    ensures { IsTrue result ↔ StandApart chunks.now }
{
    let mut end: u128 = 0;
    for chunk in chunks {
        if u128::from(chunk.start) < end {
            return false;
        }
        end = u128::from(chunk.start) + u128::from(chunk.length);
    }
    true
}

// Whether what holds the range of a chunk in another list is its like: where the copies stand does not
// matter.
#[tactic(auto, unfolding(crate::specs::Homes::is_kept))]
fn is_kept(chunk: &Chunk, others: &ChunkMap) -> bool
    ensures { result ≡ is_kept others.now chunk.now }
{
    match others.home(chunk.start, chunk.length) {
        Some(other) => {
            other.start == chunk.start && other.length == chunk.length && other.class == chunk.class
        }
        None => false,
    }
}

/// Whether the spans that meet a chunk are looked for. Where the new chunks stand apart, it is an old chunk
/// that the new list does not keep, or a new one that no old chunk holds whole; else it is each chunk.
#[tactic(auto, unfolding(crate::specs::Passes::is_searched))]
pub(crate) fn is_searched(chunk: &Chunk, others: &ChunkMap, apart: bool, is_new: bool) -> bool
    ensures { result ≡ is_searched others.now apart is_new chunk.now }
{
    if !apart {
        return true;
    }
    if is_new {
        others.home(chunk.start, chunk.length).is_none()
    } else {
        !is_kept(chunk, others)
    }
}

/// A chunk as what holds a range: its start, length and class.
pub(crate) fn home_of(chunk: &Chunk) -> Home
    ensures { result ≡ home_in chunk.now }
{
    Home {
        start: chunk.start,
        length: chunk.length,
        class: chunk.class,
    }
}

/// Whether the homes of a range by two lists are alike: none in both, or chunks of one start, length and
/// class.
pub(crate) fn are_alike(one: Option<Chunk>, other: Option<Chunk>) -> bool
    ensures { IsTrue result ↔ (option_map home_in one ≡ option_map home_in other) }
{
    match (one, other) {
        (None, None) => true,
        (Some(one), Some(other)) => home_of(&one) == home_of(&other),
        _ => false,
    }
}
