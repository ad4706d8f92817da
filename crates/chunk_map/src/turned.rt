//! The map turned around: the copies of all chunks by their offset on the device.

ghost use Rattle.std.specs.Prelude.{◌≡◌, ℕ, ◌+◌, ◌≤◌, ◌<◌, ◌⊎◌, true, IsTrue, MatchOption, OnOk};
ghost use Rattle.verdict.specs.declared.place.Chunk.{Chunk};
ghost use Rattle.chunk_map.specs.Order.{turned, Has, AreTurned, AreOutside, NoneFrom, IsLast, IsOnlyCopy, HasCopies, IsCopyOf, IsFree, AreFree};

use crate::copies::holds;
use std::collections::BTreeMap;
use verdict::{Chunk, NoMemory};

/// Under the offset on the device where it begins, each copy as a chunk of the map turned around.
pub type Copies = BTreeMap<u64, Chunk>;

/// Puts the copies of a chunk among copies none of which meet, and keeps up whether none do. Where one would
/// meet another it is left out, and no more are put then. Out of memory, the first copy may stand there.
pub fn put_copies(copies: &mut Copies, clear: &mut bool, chunk: &Chunk) -> Result<(), NoMemory>
    requires { AreTurned copies.old.entries }
    ensures kept { AreTurned copies.new.entries }
    ensures stays { clear.new ≡ true → clear.old ≡ true }
    ensures more { (copy : Chunk) → Has copies.old.entries copy → Has copies.new.entries copy }
    ensures there { OnOk result (clear.new ≡ true → HasCopies copies.new.entries chunk.now) }
    ensures free { OnOk result (clear.new ≡ true → AreFree copies.old.entries chunk.now) }
    ensures sources { OnOk result ((copy : Chunk) → Has copies.new.entries copy →
        Has copies.old.entries copy ⊎ IsCopyOf chunk.now copy) }
{
    put_copy(copies, clear, copy_at(chunk, chunk.first))?;
    match chunk.second {
        Some(second) => put_copy(copies, clear, copy_at(chunk, second)),
        None => Ok(()),
    }
}

/// The copy of a chunk at an offset on the device.
fn copy_at(chunk: &Chunk, at: u64) -> Chunk
    ensures { result ≡ turned chunk.now at }
{
    Chunk {
        start: at,
        length: chunk.length,
        class: chunk.class,
        first: chunk.start,
        second: None,
    }
}

/// Puts a copy among copies none of which meet, where it meets none. Out of memory, nothing changes.
fn put_copy(copies: &mut Copies, clear: &mut bool, copy: Chunk) -> Result<(), NoMemory>
    requires { AreTurned copies.old.entries }
    ensures kept { AreTurned copies.new.entries }
    ensures stays { clear.new ≡ true → clear.old ≡ true }
    ensures more { (other : Chunk) → Has copies.old.entries other → Has copies.new.entries other }
    ensures there { OnOk result (clear.new ≡ true → Has copies.new.entries copy) }
    ensures free { OnOk result (clear.new ≡ true →
        IsFree copy.start copy.length copies.old.entries) }
    ensures sources { OnOk result ((other : Chunk) → Has copies.new.entries other →
        Has copies.old.entries other ⊎ (other ≡ copy)) }
{
    if !*clear {
        return Ok(());
    }
    if !is_free(copies, copy.start, copy.length) {
        *clear = false;
        return Ok(());
    }
    copies.insert(copy.start, copy)?;
    Ok(())
}

/// Whether `len` bytes from an offset on the device, at least one, are surely outside these copies. It costs a
/// search.
fn is_free(copies: &Copies, at: u64, len: u64) -> bool
    requires { AreTurned copies.now.entries }
    ensures some { IsTrue result → 0 < len }
    ensures free { IsTrue result → AreOutside copies.now.entries at len }
{
    if len == 0 {
        return false;
    }
    let Some(last) = at.checked_add(len - 1) else {
        return false;
    };
    match last_from(copies, last) {
        Some((begin, copy)) => begin <= at && copy.length <= at - begin,
        None => true,
    }
}

/// The only one of these copies that has this byte of the device. It costs a search.
pub fn copy_with(copies: &Copies, physical: u64) -> Option<Chunk>
    requires { AreTurned copies.now.entries }
    ensures only { IsOnlyCopy copies.now.entries physical result }
{
    let (_, copy) = last_from(copies, physical)?;
    if holds(&copy, physical, 1) {
        Some(copy)
    } else {
        None
    }
}

/// The last copy that begins at the offset `to` or before it.
fn last_from(copies: &Copies, to: u64) -> Option<(u64, Chunk)>
    ensures { MatchOption result (NoneFrom copies.now.entries to)
        (λ last. IsLast copies.now.entries to last.0 last.1) }
{
    let (begin, copy) = copies.range(..=to).next_back()?;
    Some((*begin, *copy))
}
