//! What one event does.

ghost use Rattle.std.specs.Prelude.{ℕ, ◌≡◌, ◌+◌, ◌^◌, ◌<◌, ◌≤◌, ◌++◌, false, List, Some, IfOk, IfErr, IfSome, OnOk, option_map};
ghost use Rattle.verdict.specs.Events.{IsSized, begin_of};
ghost use Rattle.recon_core.specs.Machine.{MachineState};
ghost use Rattle.recon_core.specs.Moments.{IsAtRest};
ghost use Rattle.recon_core.specs.Standing.{IsBelow, StandsFor};
ghost use Rattle.recon_cli.specs.Outcome.{answer_text, is_settle, counts_after};
ghost use Rattle.recon_cli.specs.Run.{HasPrintCause, HasTurnCause, TookLines};
ghost use Rattle.recon_cli.specs.Turns.{MayStep, TurnStopsIn, Turns};
ghost use Rattle.recon_cli.specs.Stopping.{IsCutPrint, TurnStops};

use crate::counts::Counts;
use crate::lines::{Style, print};
use crate::run_fault::RunFault;
use recon_core::Checker;
use recon_disk::{Disk, Sink, Steps};
use report::Line;
use std::alloc::Global;
use verdict::{Answer, Event, Stop};

// Where the range of an event begins, and whether it is a settle.
fn begin_and_kind(event: &Event) -> (u64, bool)
    ensures at { result.0 ≡ begin_of event.now }
    ensures settle { result.1 ≡ is_settle event.now }
{
    match event {
        Event::Write { at, .. } => (*at, false),
        Event::Settle => (0, true),
        Event::Fetch { at, .. } => (*at, false),
    }
}

/// A replay as it goes on. The mark `L` is its checker's.
#[derive(Drop)]
pub struct Replay<L> {
    /// What takes the memory of lines and of what is judged.
    pub alloc: Global,
    /// How lines are printed.
    pub style: Style,
    /// The checker over the disk.
    pub checker: Checker<L>,
    /// How many events were judged.
    pub counts: Counts,
}

impl<L> Replay<L> {
    // Counts an answer and prints its line; a held write has none.
    fn report<K: Sink>(
        &mut self,
        at: u64,
        settle: bool,
        answer: Answer,
        out: &mut K,
    ) -> Result<(), RunFault>
        requires { self.old.counts.passed + self.old.counts.rejected + 1 < 2 ^ 64 }
        ensures printed { OnOk result (K.kept out.new ≡
            option_map (λ kept. kept ++
            answer_text self.old.style self.old.counts at settle answer) (K.kept out.old)) }
        ensures stopped { let line = answer_text self.old.style self.old.counts at settle answer in
            IfErr result (λ fault. IsCutPrint (K.kept out.old) line fault (K.kept out.new)) }
        ensures counts { self.new ≡
            record self.old { counts = counts_after self.old.counts answer } }
        ensures lines { TookLines K.Sink self.old.style out.old out.new }
        ensures cause { HasPrintCause (K.faults out.old) (K.faults out.new) result }
    {
        let number = self.counts.passed + self.counts.rejected + 1;
        match answer {
            Answer::Held => Ok(()),
            Answer::Fetched(bytes) => {
                print(self.alloc, self.style, out, &Line::Fetched { at, bytes })
            }
            Answer::Passed {
                generation,
                blocks,
                hot,
            } => {
                self.counts.passed += 1;
                let line = Line::Passed {
                    settle,
                    number,
                    generation,
                    blocks,
                    hot,
                };
                print(self.alloc, self.style, out, &line)
            }
            Answer::Rejected(finding) => {
                self.counts.rejected += 1;
                let line = Line::Rejected {
                    settle,
                    number,
                    finding,
                };
                print(self.alloc, self.style, out, &line)
            }
        }
    }

    /// Gives the record of this number to the checker, and prints its line. It answers the status where the event
    /// passes the end of the device.
    pub fn take_event<D: Disk, K: Sink>(
        &mut self,
        place: u64,
        event: Event,
        disk: &mut D,
        out: &mut K,
        steps: &mut Steps<L>,
    ) -> Result<Option<u8>, RunFault>
        requires open { self.old.checker.closed ≡ false }
        requires length { self.old.checker.length ≡ D.len disk.old }
        requires below { IsBelow self.old.checker.length self.old.checker.cache }
        requires sized { IsSized event }
        requires room { self.old.counts.passed + self.old.counts.rejected + 1 < 2 ^ 64 }
        ensures turns { (state : MachineState) (kept : List ℕ) →
            StandsFor self.old.checker state → D.bytes disk.old ≡ Some state.image →
            K.kept out.old ≡ Some kept → IfOk result (λ status.
            Turns self.old.style state place self.old.counts event kept status
            self.new.checker self.new.counts (D.bytes disk.new) (K.kept out.new)) }
        ensures stopped { (state : MachineState) (kept : List ℕ) →
            StandsFor self.old.checker state → D.bytes disk.old ≡ Some state.image →
            K.kept out.old ≡ Some kept → IfErr result (λ fault.
            TurnStops self.old.style state place self.old.counts event kept fault
            (D.bytes disk.new) (K.kept out.new)) }
        ensures reads { (state : MachineState) →
            StandsFor self.old.checker state → D.bytes disk.old ≡ Some state.image →
            IfOk result (λ status. MayStep state self.old.counts event status
            self.new.checker self.new.counts
            (D.bytes disk.new) (D.reads disk.old) (D.reads disk.new) steps.old steps.new) }
        ensures moments { (state : MachineState) →
            StandsFor self.old.checker state → D.bytes disk.old ≡ Some state.image →
            TurnStopsIn state event (D.moments disk.old) (D.moments disk.new) }
        ensures rest { OnOk result (IsAtRest (D.bytes disk.old) (D.moments disk.old)
            → IsAtRest (D.bytes disk.new) (D.moments disk.new)) }
        ensures status { IfOk result (λ status. IfSome status (λ n. n ≡ 3)) }
        ensures style { self.new.style ≡ self.old.style }
        ensures open { OnOk result (self.new.checker.closed ≡ false) }
        ensures size { self.new.checker.length ≡ self.old.checker.length }
        ensures below { IsBelow self.old.checker.length self.new.checker.cache }
        ensures len { D.len disk.new ≡ D.len disk.old }
        ensures count { OnOk result (self.new.counts.passed + self.new.counts.rejected
            ≤ self.old.counts.passed + self.old.counts.rejected + 1) }
        ensures lines { TookLines K.Sink self.old.style out.old out.new }
        ensures cause { HasTurnCause (D.faults disk.old) (D.faults disk.new)
            (K.faults out.old) (K.faults out.new) result }
    {
        let (at, settle) = begin_and_kind(&event);
        match self.checker.event(self.alloc, disk, event, steps) {
            Ok(answer) => {
                self.report(at, settle, answer, out)?;
                Ok(None)
            }
            Err(Stop::PastEnd { at, len, end }) => {
                let line = Line::Past {
                    place,
                    at,
                    len,
                    end,
                };
                print(self.alloc, self.style, out, &line)?;
                Ok(Some(3))
            }
            Err(Stop::DiskFault) => Err(RunFault::Device),
            Err(Stop::NoMemory) => Err(RunFault::Memory),
            Err(Stop::Closed) => unreachable!(),
        }
    }
}
