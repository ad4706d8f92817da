//! The replay of a trace over an image in memory.

ghost use Rattle.std.specs.Prelude.{◌≡◌, length};
ghost use Rattle.verdict.specs.Events.{IsSized};
ghost use Rattle.recon_disk.specs.Memory.{bytes_in};
ghost use Rattle.recon_core.specs.Standing.{IsBelow};

use crate::why::Why;
use recon_core::Checker;
use recon_disk::{MemDisk, MemSource, Steps};
use report::{Line, text_of};
use std::alloc::Global;
use std::io::Write;
use trace_reader::{Item, TraceReader};
use verdict::{Answer, Event};

/// The most records that a trace may have before its end tag.
const RECORD_LIMIT: u64 = 4_294_967_296;
/// The most bytes that a read of the trace takes.
const STEP: usize = 65536;

/// A replay as it goes on.
#[derive(Drop)]
struct Run {
    alloc: Global,
    checker: Checker<()>,
    disk: MemDisk,
    steps: Steps<()>,
    // How many events were judged.
    judged: u64,
}

impl Run {
    // Gives the record with this number to the checker, and writes the line of a judged event.
    fn take<W: Write>(&mut self, out: &mut W, record: u64, event: Event) -> Result<(), Why>
        requires length { self.old.checker.length ≡ length (bytes_in self.old.disk) }
        requires below { IsBelow self.old.checker.length self.old.checker.cache }
        requires sized { IsSized event }
        ensures length { self.new.checker.length ≡ length (bytes_in self.new.disk) }
        ensures below { IsBelow self.new.checker.length self.new.checker.cache }
    {
        let settle = matches!(&event, Event::Settle);
        let before = self.steps.looks();
        let answer = self
            .checker
            .event(self.alloc, &mut self.disk, event, &mut self.steps);
        match answer {
            Ok(answer) => {
                let looks = self.steps.looks().saturating_sub(before);
                self.put(out, settle, answer, looks)
            }
            Err(stop) => Err(Why::of_stop(stop, record)),
        }
    }

    // Writes the line of a judged event, with how often it looked into the index. Another event has none.
    fn put<W: Write>(
        &mut self,
        out: &mut W,
        settle: bool,
        answer: Answer,
        looks: u64,
    ) -> Result<(), Why>
        ensures checker { self.new.checker ≡ self.old.checker }
        ensures disk { self.new.disk ≡ self.old.disk }
    {
        let number = self.judged.saturating_add(1);
        let line = match answer {
            Answer::Held | Answer::Fetched(_) => return Ok(()),
            Answer::Passed {
                generation,
                blocks,
                hot,
            } => Line::Passed {
                settle,
                number,
                generation,
                blocks,
                hot,
            },
            Answer::Rejected(finding) => Line::Rejected {
                settle,
                number,
                finding,
            },
        };
        self.judged = number;
        let text = text_of(self.alloc, &line)?;
        // Its last byte is a line feed.
        if let [front @ .., _] = text.as_slice() {
            out.write_all(front)?;
        }
        writeln!(out, " looks {looks}")?;
        Ok(())
    }
}

/// Replays a trace over an image, and writes a line for the start and one for each judged event.
pub fn replay<W: Write>(
    alloc: Global,
    out: &mut W,
    image: Vec<u8>,
    trace: Vec<u8>,
) -> Result<(), Why> {
    let mut disk = MemDisk::new(image, Vec::new(alloc));
    let mut steps = Steps::new(());
    let checker = match Checker::begin(alloc, &mut disk, &mut steps) {
        Ok(Ok((checker, _))) => checker,
        Ok(Err(finding)) => return Err(Why::Refused(finding)),
        Err(stop) => return Err(Why::of_stop(stop, 0)),
    };
    writeln!(out, "start looks {}", steps.looks())?;
    let mut source = MemSource::new(trace, STEP, Vec::new(alloc));
    let mut reader = TraceReader::new(RECORD_LIMIT);
    let mut run = Run {
        alloc,
        checker,
        disk,
        steps,
        judged: 0,
    };
    'records: loop {
        match reader.next(alloc, &mut source) {
            Ok(Item::Event(event)) => run.take(out, reader.record_number(), event)?,
            Ok(Item::End) => return Ok(()),
            Err(fault) => return Err(Why::of_trace(fault, reader.record_number())),
        }
    }
}
