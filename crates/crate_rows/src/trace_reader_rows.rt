//! The limit of a trace's records, failed calls of its source, and the fields of a record that no line shows. The endings of
//! traces are rows of `tests/traces.py`.

use recon_disk::MemSource;
use std::alloc::{AllocError, Global};
use trace_reader::{Item, TraceFault, TraceReader};
use verdict::Event;

const HEADER: &[u8] = b"RECONTRC\x01\0\0\0\0\0\0\0";

const WRITE: &[u8] = b"\x01\x05\x06\x04\x03\x02\x01\0\0\0\0\x02\0\0\0hi";

const SETTLE: &[u8] = b"\x02";

// The greatest length that a fetch may ask for.
const FETCH: &[u8] = b"\x03\x08\x07\x06\x05\x04\x03\x02\x01\0\0\x01\0";

const END: &[u8] = b"\xff";

// A trace of these pieces, as a source that gives so many bytes a call.
fn source_of(
    alloc: Global,
    pieces: &[&[u8]],
    step: usize,
    fails: &[u64],
) -> Result<MemSource, AllocError> {
    let mut bytes = Vec::new(alloc);
    for piece in pieces {
        bytes.extend_from_slice(piece)?;
    }
    Ok(MemSource::new(bytes, step.max(1), Vec::from_slice(alloc, fails)?))
}

// How many events a trace gives before its end or its fault, and the fault with the record's number.
fn read_all(alloc: Global, source: &mut MemSource, limit: u64) -> (u64, Option<(TraceFault, u64)>) {
    let mut reader = TraceReader::new(limit);
    let mut events = 0u64;
    for _ in 0..10 {
        if !reader.live() {
            break;
        }
        match reader.next(alloc, source) {
            Ok(Item::Event(_)) => events = events.saturating_add(1),
            Ok(Item::End) => return (events, None),
            Err(fault) => return (events, Some((fault, reader.record_number()))),
        }
    }
    (events, None)
}

#[test]
fn a_trace_has_no_more_records_than_its_limit(rt: HostRuntime) -> Result<(), AllocError> {
    let rows: [(&[&[u8]], Option<(TraceFault, u64)>); 5] = [
        (&[HEADER, WRITE, WRITE, END], None),
        (
            &[HEADER, WRITE, WRITE, WRITE, END],
            Some((TraceFault::TooMany, 3)),
        ),
        (
            &[HEADER, SETTLE, SETTLE, SETTLE],
            Some((TraceFault::TooMany, 3)),
        ),
        (
            &[HEADER, FETCH, FETCH, b"\x09"],
            Some((TraceFault::TooMany, 3)),
        ),
        (&[HEADER, WRITE, FETCH], Some((TraceFault::Truncated, 3))),
    ];
    for step in [1, 3, 1000] {
        for (pieces, fault) in rows {
            let mut source = source_of(rt.alloc(), pieces, step, &[])?;
            assert_eq!(rt;
                read_all(rt.alloc(), &mut source, 2),
                (2, fault),
                "step {step}"
            );
        }
    }
    Ok(())
}

// A trace of one record of each kind, which end at bytes 33, 34 and 47. A source that gives one byte a call fails at each call in
// turn.
#[test]
fn a_failed_call_stops_at_its_record(rt: HostRuntime) -> Result<(), AllocError> {
    let pieces = [HEADER, WRITE, SETTLE, FETCH, END];
    for call in 0..48u64 {
        let events = u64::from(call >= 33) + u64::from(call >= 34) + u64::from(call >= 47);
        let record = if call < 16 { 0 } else { events + 1 };
        let mut source = source_of(rt.alloc(), &pieces, 1, &[call + 1])?;
        assert_eq!(rt;
            read_all(rt.alloc(), &mut source, 3),
            (events, Some((TraceFault::ReadFault, record))),
            "{call}"
        );
    }
    Ok(())
}

#[test]
fn a_write_has_its_submitter(rt: HostRuntime) -> Result<(), AllocError> {
    let mut source = source_of(rt.alloc(), &[HEADER, WRITE, END], 3, &[])?;
    let mut reader = TraceReader::new(1);
    assert!(rt; reader.live());
    let Ok(Item::Event(event)) = reader.next(rt.alloc(), &mut source) else {
        panic!(rt; "no event");
    };
    let Event::Write {
        submitter,
        at,
        bytes,
    } = event
    else {
        panic!(rt; "no write");
    };
    assert_eq!(rt; (submitter, at), (0x0605, 0x0102_0304));
    assert_eq!(rt; bytes.as_slice(), b"hi".as_slice());
    Ok(())
}
