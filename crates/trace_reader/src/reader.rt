//! The reader of a trace.

ghost use Rattle.std.specs.Prelude.{◌≡◌, ◌+◌, ◌-◌, ◌^◌, ◌≤◌, true, None, min, IfOk, IfSome, OnErr};
ghost use Rattle.trace_reader.specs.Reading.{first_state, IsAfter, IsSizedItem, Tells, HasReadCause};
ghost use Rattle.trace_reader.specs.Pieces.{ReadsFront, ReadsRecord, HasRoom};

use crate::TraceFault;
use crate::pieces::{fill, read_fetch, read_write};
use recon_disk::Source;
use std::alloc::Global;
use std::marker::Model;
use verdict::Event;

/// What a trace gives next.
#[derive(Debug, Drop)]
pub enum Item {
    /// The event of one record.
    Event(Event),
    /// The end tag.
    End,
}

/// The header of a trace: its name, the version and a zero.
const HEADER: &[u8; 16] = b"RECONTRC\x01\0\0\0\0\0\0\0";
/// The tag of a write.
const WRITE_TAG: u8 = 1;
/// The tag of a settle.
const SETTLE_TAG: u8 = 2;
/// The tag of a fetch.
const FETCH_TAG: u8 = 3;
/// The tag that ends a trace.
const END_TAG: u8 = 255;

/// Reads a trace record by record. It keeps no byte between two calls.
#[derive(Drop)]
pub struct TraceReader {
    limit: u64,
    whole: u64,
    begun: bool,
    at_header: bool,
    live: bool,
}

impl Model for TraceReader {
    ghost use Rattle.trace_reader.specs.Reader.{ReaderState, number_of, IsLawful};

    ghost Value = { ReaderState };

    ghost view = { λ r. record { limit = r.limit; whole = r.whole; number = number_of r.whole r.begun; at_header = r.at_header; live = r.live } };

    ghost invariant = { λ r. IsLawful r.limit r.whole r.begun r.at_header };
}

impl TraceReader {
    /// A reader at the start of a trace, of which at most `limit` records may stand before the end
    /// tag.
    pub fn new(limit: u64) -> TraceReader
        ensures { result ≡ first_state limit }
    {
        TraceReader {
            limit,
            whole: 0,
            begun: false,
            at_header: true,
            live: true,
        }
    }

    /// Whether `next` may be called: neither the end nor a fault was met.
    pub fn live(&self) -> bool
        ensures { result ≡ self.now.live }
    {
        self.live
    }

    /// The number of the record last begun, 0 for the header. It stays at the greatest value.
    pub fn record_number(&self) -> u64
        ensures number { result ≡ min self.now.number (2 ^ 64 - 1) }
        ensures within { self.now.number ≤ self.now.limit + 1 }
    {
        self.whole.saturating_add(u64::from(self.begun))
    }

    /// The next event, or the end. It takes a record's bytes and no more. After the end or a fault the
    /// reader is no longer live. The end tag's place is that of the next record: after an end on the first
    /// call `record_number` is 1.
    ///
    /// `ReadFault` comes only where a call of the source failed, and `NoMemory` only where a write's
    /// bytes are to be held, after its length was found good. Every other fault is one of the bytes,
    /// at the record of `record_number`. What was taken then ends with that fault too: no whole record
    /// was taken behind those before it.
    pub fn next<S: Source>(&mut self, alloc: Global, source: &mut S) -> Result<Item, TraceFault>
        requires { self.old.live ≡ true }
        ensures told { IfSome (S.left source.old)
            (λ bytes. Tells self.old bytes result self.new (S.left source.new)) }
        ensures untold { S.left source.old ≡ None → S.left source.new ≡ None }
        ensures sized { IfOk result IsSizedItem }
        ensures state { IsAfter self.old result self.new }
        ensures within { self.new.whole ≤ self.new.limit }
        ensures cause { HasReadCause (S.faults source.old) (S.faults source.new) result }
    {
        if let Err(fault) = read_front(self.at_header, source) {
            self.live = false;
            return Err(fault);
        }
        self.at_header = false;
        self.begun = true;
        match read_record(alloc, self.whole, self.limit, source) {
            Ok(Item::Event(event)) => {
                self.whole += 1;
                self.begun = false;
                Ok(Item::Event(event))
            }
            Ok(Item::End) => {
                self.live = false;
                Ok(Item::End)
            }
            Err(fault) => {
                self.live = false;
                Err(fault)
            }
        }
    }
}

// Takes the header, where it is still to be read.
fn read_front<S: Source>(at_header: bool, source: &mut S) -> Result<(), TraceFault>
    ensures told { IfSome (S.left source.old)
        (λ bytes. ReadsFront at_header bytes result (S.left source.new)) }
    ensures untold { S.left source.old ≡ None → S.left source.new ≡ None }
    ensures header { OnErr result (at_header ≡ true) }
    ensures cause { HasReadCause (S.faults source.old) (S.faults source.new) result }
{
    if !at_header {
        return Ok(());
    }
    let mut header = [0; 16];
    fill(source, &mut header)?;
    if header == *HEADER {
        Ok(())
    } else {
        Err(TraceFault::BadHeader)
    }
}

// Takes one record or the end tag.
#[tactic(auto, unfolding(crate::specs::Trace::spelling_of))]
fn read_record<S: Source>(
    alloc: Global,
    whole: u64,
    limit: u64,
    source: &mut S,
) -> Result<Item, TraceFault>
    requires { whole ≤ limit }
    ensures room { HasRoom limit whole result }
    ensures sized { IfOk result IsSizedItem }
    ensures told { IfSome (S.left source.old)
        (λ bytes. ReadsRecord limit whole bytes result (S.left source.new)) }
    ensures untold { S.left source.old ≡ None → S.left source.new ≡ None }
    ensures cause { HasReadCause (S.faults source.old) (S.faults source.new) result }
{
    let mut tag = [0];
    fill(source, &mut tag)?;
    match tag[0] {
        END_TAG => Ok(Item::End),
        _ if whole == limit => Err(TraceFault::TooMany),
        WRITE_TAG => Ok(Item::Event(read_write(alloc, source)?)),
        SETTLE_TAG => Ok(Item::Event(Event::Settle)),
        FETCH_TAG => Ok(Item::Event(read_fetch(source)?)),
        _ => Err(TraceFault::BadTag),
    }
}
