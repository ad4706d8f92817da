//! The bytes of one piece, in a buffer that grows at both ends.

ghost use Rattle.std.specs.Prelude.{◌≡◌, ℕ, List, ◌+◌, ◌-◌, ◌≤◌, ◌<◌, ◌^◌, ◌++◌, length, take, drop, IfOk, OnOk, OnErr};
ghost use Rattle.verdict.specs.Image.{written};
ghost use Rattle.write_cache.specs.Runs.{laid_over};

use std::alloc::{AllocError, Global};
use std::marker::Model;
use std::mem;

/// The bytes of a piece, seen as their list. They end with their buffer, and before them lies room in which
/// the piece grows towards lower offsets.
///
/// Where the room is too short, a new buffer has as much room as the piece has bytes then. So a byte is copied
/// a few times in all, however often a piece grows, and a piece takes at most four times its length.
#[derive(Drop)]
pub(crate) struct Run {
    buffer: Vec<u8>,
    // Where the bytes begin in the buffer.
    start: usize,
}

impl Model for Run {
    ghost Value = { List ℕ };

    ghost view = { λ r. drop r.start r.buffer.items };

    ghost invariant = { λ r. r.start ≤ length r.buffer.items };
}

impl Run {
    /// The piece of these bytes, with no room before them.
    pub(crate) fn of(bytes: Vec<u8>) -> Run
        ensures { result ≡ bytes.items }
    {
        Run {
            buffer: bytes,
            start: 0,
        }
    }

    /// How many bytes the piece has.
    pub(crate) fn len(&self) -> usize
        ensures { result ≡ length self.now }
    {
        self.buffer.len() - self.start
    }

    /// The bytes of the piece.
    pub(crate) fn as_slice(&self) -> &[u8]
        ensures { result.now ≡ self.now }
    {
        &self.buffer[self.start..]
    }

    /// Lays bytes over the piece from the place `from` on. Out of memory, the piece stays.
    pub(crate) fn lay(&mut self, from: usize, bytes: &[u8]) -> Result<(), AllocError>
        requires place { from ≤ length self.old }
        ensures ok { OnOk result (self.new ≡ laid_over self.old from bytes.now) }
        ensures err { OnErr result (self.new ≡ self.old) }
    {
        if self.len() - from < bytes.len() {
            return self.end_with(from, bytes, &[]);
        }
        self.write(from, bytes);
        Ok(())
    }

    /// Writes bytes over those of the piece from the place `from` on.
    pub(crate) fn write(&mut self, from: usize, bytes: &[u8])
        requires { from + length bytes.now ≤ length self.old }
        ensures { self.new ≡ laid_over self.old from bytes.now }
    {
        overwrite(&mut self.buffer, self.start + from, bytes);
    }

    /// Puts bytes behind those of the piece. Out of memory, the piece stays.
    pub(crate) fn append(&mut self, more: &[u8]) -> Result<(), AllocError>
        ensures ok { OnOk result (self.new ≡ self.old ++ more.now) }
        ensures err { OnErr result (self.new ≡ self.old) }
    {
        let end = self.len();
        self.end_with(end, more, &[])
    }

    /// Puts bytes in the place of those from `from` on, and behind them what `behind` has from `skip` on. The
    /// shorter of the two pieces is copied into the other's room. Out of memory, both pieces stay;
    /// else `behind` is used up.
    pub(crate) fn join(
        &mut self,
        alloc: Global,
        from: usize,
        bytes: &[u8],
        behind: &mut Run,
        skip: usize,
    ) -> Result<(), AllocError>
        requires place { from ≤ length self.old }
        requires fits { from + length bytes.now + (length behind.old - skip) < 2 ^ 64 }
        ensures ok { OnOk result
            (self.new ≡ take from self.old ++ (bytes.now ++ drop skip behind.old)) }
        ensures err { OnErr result (self.new ≡ self.old) }
        ensures err_behind { OnErr result (behind.new ≡ behind.old) }
    {
        let skip = skip.min(behind.len());
        if behind.len() - skip <= from {
            return self.end_with(from, bytes, &behind.as_slice()[skip..]);
        }
        behind.begin_with(alloc, skip, &self.as_slice()[..from], bytes)?;
        mem::swap(self, behind);
        Ok(())
    }

    // Puts bytes, and more behind them, in the place of those from `from` on.
    fn end_with(&mut self, from: usize, bytes: &[u8], more: &[u8]) -> Result<(), AllocError>
        requires place { from ≤ length self.old }
        requires fits { length bytes.now + length more.now < 2 ^ 64 }
        ensures ok { OnOk result (self.new ≡ take from self.old ++ (bytes.now ++ more.now)) }
        ensures err { OnErr result (self.new ≡ self.old) }
    {
        self.buffer.reserve(bytes.len() + more.len())?;
        self.buffer.truncate(self.start + from);
        self.buffer.extend_from_slice(bytes)?;
        self.buffer.extend_from_slice(more)?;
        Ok(())
    }

    // Puts bytes, and more behind them, in the place of the first `skip`.
    fn begin_with(
        &mut self,
        alloc: Global,
        skip: usize,
        bytes: &[u8],
        more: &[u8],
    ) -> Result<(), AllocError>
        requires place { skip ≤ length self.old }
        requires fits { length bytes.now + length more.now + (length self.old - skip) < 2 ^ 64 }
        ensures ok { OnOk result (self.new ≡ bytes.now ++ (more.now ++ drop skip self.old)) }
        ensures err { OnErr result (self.new ≡ self.old) }
    {
        let added = bytes.len() + more.len();
        let start = make_room(&mut self.buffer, self.start, added.saturating_sub(skip))?;
        self.start = start + skip - added;
        overwrite(&mut self.buffer, self.start, bytes);
        overwrite(&mut self.buffer, self.start + bytes.len(), more);
        Ok(())
    }
}

// Makes room for `needed` bytes before those that begin at a place of a buffer, and says where these begin then.
// Where there is too little room, as much is made besides as they have bytes.
fn make_room(buffer: &mut Vec<u8>, start: usize, needed: usize) -> Result<usize, AllocError>
    requires { start ≤ length buffer.old.items }
    ensures ok { IfOk result (λ s. (needed ≤ s) × (s ≤ length buffer.new.items)
        × (drop s buffer.new.items ≡ drop start buffer.old.items)) }
    ensures err { OnErr result (buffer.new.items ≡ buffer.old.items) }
{
    if needed <= start {
        return Ok(start);
    }
    let end = buffer.len();
    let wide = end.saturating_add(needed).saturating_add(end - start);
    buffer.resize(wide, 0)?;
    copy_to_end(buffer, start, end);
    Ok(end + needed)
}

// Copies what stands between two places to the end, which lies as far behind them at least.
fn copy_to_end(bytes: &mut [u8], start: usize, end: usize)
    requires order { start ≤ end }
    requires room { end + (end - start) ≤ length bytes.old }
    ensures len { length bytes.new ≡ length bytes.old }
    ensures copied { drop (length bytes.old - (end - start)) bytes.new
        ≡ take (end - start) (drop start bytes.old) }
{
    let room = bytes.len() - end - (end - start);
    let (before, behind) = bytes.split_at_mut(end);
    overwrite(behind, room, &before[start..]);
}

/// Puts these bytes over the range that begins at a place.
#[tactic(auto, unfolding(verdict::specs::Image::written))]
pub(crate) fn overwrite(into: &mut [u8], at: usize, from: &[u8])
    requires { at + length from.now ≤ length into.old }
    ensures { into.new ≡ written into.old at from.now }
{
    into[at..at + from.len()].copy_from_slice(from);
}
