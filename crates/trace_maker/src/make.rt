//! The trace of a workload, as it goes out.

ghost use Rattle.std.specs.Prelude.{ℕ, ◌≡◌, ◌++◌, List, Option, OnErr, OnOk, option_map};
ghost use Rattle.recon_disk.specs.Keeping.{IsCounted};
ghost use Rattle.recon_disk.specs.Outside.{MayBeAppended};
ghost use Rattle.trace_reader.specs.Trace.{IsSpelled, header_bytes, spelling_of, spelling_of_all};
ghost use Rattle.std.specs.List.{All};
ghost use Rattle.trace_maker.specs.Made.{Gained, IsFront, IsMade, is_write_fault};

use crate::fault::MakeFault;
use crate::maker::Maker;
use crate::record::record_of;
use crate::workload::plan;
use recon_disk::Sink;
use std::alloc::Global;
use verdict::Event;

/// The header of a trace: its name, the version 1, and a zero.
const HEADER: &[u8; 16] = b"RECONTRC\x01\0\0\0\0\0\0\0";

/// The most records that a trace has before its end tag.
const RECORDS_MAX: u64 = 4_294_967_296;

/// The end tag.
const END_TAG: &[u8; 1] = b"\xff";

// Writes these bytes.
fn put<K: Sink>(out: &mut K, bytes: &[u8]) -> Result<(), MakeFault>
    ensures appended { OnOk result (K.kept out.new ≡ option_map
        (λ kept. kept ++ bytes.now) (K.kept out.old)) }
    ensures partly { OnErr result (MayBeAppended (K.kept out.old) bytes.now (K.kept out.new)) }
    ensures cause { IsCounted (is_write_fault result) (K.faults out.old) (K.faults out.new) }
{
    match out.write(bytes) {
        Ok(()) => Ok(()),
        Err(_) => Err(MakeFault::Write),
    }
}

// Writes the records of these events.
fn put_all<K: Sink>(alloc: Global, out: &mut K, events: &[Event]) -> Result<(), MakeFault>
    requires { All IsSpelled events.now }
    ensures appended { OnOk result (K.kept out.new ≡ option_map
        (λ kept. kept ++ spelling_of_all events.now) (K.kept out.old)) }
    ensures partly { OnErr result
        (MayBeAppended (K.kept out.old) (spelling_of_all events.now) (K.kept out.new)) }
    ensures cause { IsCounted (is_write_fault result) (K.faults out.old) (K.faults out.new) }
{
    for event in events {
        let Ok(record) = record_of(alloc, event) else {
            return Err(MakeFault::NoMemory);
        };
        put(out, record.as_slice())?;
    }
    Ok(())
}

/// Writes the trace of a workload of so many commits on the base image. It is asked for 1 to 200 commits.
pub fn make_trace<K: Sink>(
    alloc: Global,
    seed: u64,
    commits: u32,
    out: &mut K,
) -> Result<(), MakeFault>
    ensures made { OnOk result (Gained (IsMade seed commits) (K.kept out.old) (K.kept out.new)) }
    ensures front { OnErr result (Gained IsFront (K.kept out.old) (K.kept out.new)) }
    ensures cause { IsCounted (is_write_fault result) (K.faults out.old) (K.faults out.new) }
{
    let Ok(ops) = plan(alloc, seed, commits) else {
        return Err(MakeFault::NoMemory);
    };
    let Ok(mut maker) = Maker::new(alloc) else {
        return Err(MakeFault::NoMemory);
    };
    put(out, HEADER)?;
    let mut k = 0u32;
    let mut room = RECORDS_MAX;
    for op in &ops {
        k += 1;
        let Ok(events) = maker.commit(k, op) else {
            return Err(MakeFault::NoMemory);
        };
        let records = events.len() as u64;
        if records > room {
            return Err(MakeFault::NoMemory);
        }
        room -= records;
        put_all(alloc, out, &events)?;
    }
    put(out, END_TAG)
}
