//! The record of an event in a trace.

ghost use Rattle.std.specs.Prelude.{◌≡◌, ◌≤◌, ◌∷◌, ◌++◌, length, IfOk};
ghost use Rattle.byteorder.specs.Endian.{little_bytes};
ghost use Rattle.trace_reader.specs.Trace.{IsSpelled, spelling_of};

use image_maker::Fields;
use std::alloc::Global;
use verdict::{Bytes, Event, NoMemory};

// The record of a write.
#[tactic(auto, unfolding(image_maker::specs::Numbers::u8, image_maker::specs::Numbers::u16, image_maker::specs::Numbers::u32, image_maker::specs::Numbers::u64))]
fn write_record(alloc: Global, submitter: u16, at: u64, bytes: &[u8]) -> Result<Bytes, NoMemory>
    requires { length bytes.now ≤ 1048576 }
    ensures { IfOk result (λ whole. whole ≡
        1 ∷ little_bytes 2 submitter ++ little_bytes 8 at
        ++ little_bytes 4 (length bytes.now) ++ bytes.now) }
{
    let mut fields = Fields::new(alloc);
    fields.one(1)?;
    fields.two(submitter)?;
    fields.eight(at)?;
    fields.four(bytes.len() as u32)?;
    fields.bytes(bytes)?;
    Ok(fields.finish())
}

// The record of a fetch.
#[tactic(auto, unfolding(image_maker::specs::Numbers::u8, image_maker::specs::Numbers::u32, image_maker::specs::Numbers::u64))]
fn fetch_record(alloc: Global, at: u64, len: u32) -> Result<Bytes, NoMemory>
    ensures { IfOk result (λ whole. whole ≡ 3 ∷ little_bytes 8 at ++ little_bytes 4 len) }
{
    let mut fields = Fields::new(alloc);
    fields.one(3)?;
    fields.eight(at)?;
    fields.four(len)?;
    Ok(fields.finish())
}

/// The record of an event that a trace may hold.
#[tactic(auto, unfolding(trace_reader::specs::Trace::spelling_of))]
pub fn record_of(alloc: Global, event: &Event) -> Result<Bytes, NoMemory>
    requires { IsSpelled event.now }
    ensures { IfOk result (λ bytes. bytes ≡ spelling_of event.now) }
{
    match event {
        Event::Write {
            submitter,
            at,
            bytes,
        } => write_record(alloc, *submitter, *at, bytes.as_slice()),
        Event::Settle => Bytes::of(alloc, &[2]),
        Event::Fetch { at, len } => fetch_record(alloc, *at, *len),
    }
}
