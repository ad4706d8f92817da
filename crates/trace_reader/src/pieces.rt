//! The pieces of a trace, as they come from a source.

ghost use Rattle.std.specs.Prelude.{◌≡◌, ◌∷◌, ◌≤◌, None, IfOk, IfSome, length};
ghost use Rattle.verdict.specs.Events.{IsSized};
ghost use Rattle.trace_reader.specs.Reading.{HasReadCause};
ghost use Rattle.trace_reader.specs.Trace.{IsBytes};
ghost use Rattle.trace_reader.specs.Pieces.{Fills, ReadsBytes, ReadsEvent};

use crate::TraceFault;
use recon_bytes::{u16_at, u32_at, u64_at};
use recon_disk::Source;
use std::alloc::Global;
use verdict::{Bytes, Event};

/// The greatest length of a write, in bytes.
const LONGEST_WRITE: u32 = 1_048_576;
/// The greatest length that a fetch asks for, in bytes.
const LONGEST_FETCH: u32 = 65_536;

/// Takes the next bytes until the piece is whole. `Truncated` comes where the source ends before.
pub fn fill<S: Source>(source: &mut S, piece: &mut [u8]) -> Result<(), TraceFault>
    ensures told { IfSome (S.left source.old)
        (λ bytes. Fills bytes piece.new result (S.left source.new)) }
    ensures lawful { IsBytes piece.new }
    ensures untold { S.left source.old ≡ None → S.left source.new ≡ None }
    ensures cause { HasReadCause (S.faults source.old) (S.faults source.new) result }
{
    let mut done = 0;
    while done < piece.len() {
        match source.read(&mut piece[done..]) {
            Ok(0) => return Err(TraceFault::Truncated),
            Ok(n) => done += n,
            Err(_) => return Err(TraceFault::ReadFault),
        }
    }
    Ok(())
}

// The bytes of a write, held. Nothing is read where there is no memory for them.
fn read_bytes<S: Source>(alloc: Global, len: usize, source: &mut S) -> Result<Bytes, TraceFault>
    ensures told { IfSome (S.left source.old)
        (λ bytes. ReadsBytes len bytes result (S.left source.new)) }
    ensures size { IfOk result (λ bytes. length bytes ≡ len) }
    ensures untold { S.left source.old ≡ None → S.left source.new ≡ None }
    ensures cause { HasReadCause (S.faults source.old) (S.faults source.new) result }
{
    let Ok(mut bytes) = vec![in alloc; 0; len] else {
        return Err(TraceFault::NoMemory);
    };
    fill(source, &mut bytes)?;
    Ok(Bytes::from(bytes))
}

/// A write, whose tag was taken before.
pub fn read_write<S: Source>(alloc: Global, source: &mut S) -> Result<Event, TraceFault>
    ensures told { IfSome (S.left source.old)
        (λ bytes. ReadsEvent (1 ∷ bytes) result (S.left source.new)) }
    ensures sized { IfOk result IsSized }
    ensures untold { S.left source.old ≡ None → S.left source.new ≡ None }
    ensures cause { HasReadCause (S.faults source.old) (S.faults source.new) result }
{
    let mut front = [1; 15];
    fill(source, &mut front[1..])?;
    let submitter = u16_at(&front, 1).unwrap();
    let at = u64_at(&front, 3).unwrap();
    let len = u32_at(&front, 11).unwrap();
    if len == 0 || len > LONGEST_WRITE {
        return Err(TraceFault::BadLength);
    }
    let bytes = read_bytes(alloc, len as usize, source)?;
    Ok(Event::Write {
        submitter,
        at,
        bytes,
    })
}

/// A fetch, whose tag was taken before.
pub fn read_fetch<S: Source>(source: &mut S) -> Result<Event, TraceFault>
    ensures told { IfSome (S.left source.old)
        (λ bytes. ReadsEvent (3 ∷ bytes) result (S.left source.new)) }
    ensures sized { IfOk result IsSized }
    ensures untold { S.left source.old ≡ None → S.left source.new ≡ None }
    ensures cause { HasReadCause (S.faults source.old) (S.faults source.new) result }
{
    let mut front = [3; 13];
    fill(source, &mut front[1..])?;
    let at = u64_at(&front, 1).unwrap();
    let len = u32_at(&front, 9).unwrap();
    if len == 0 || len > LONGEST_FETCH {
        return Err(TraceFault::BadLength);
    }
    Ok(Event::Fetch { at, len })
}
