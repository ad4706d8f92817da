//! The replay of a trace.

ghost use Rattle.std.specs.Prelude.{ℕ, ◌≡◌, ◌==◌, if◌then◌else◌, ◌+◌, ◌<◌, ◌≤◌, ◌++◌, false, List, Some, Ok, IfOk, IfErr, OnOk, IfSome, option_map};
ghost use Rattle.std.specs.FinMap as map;
ghost use Rattle.recon_core.specs.Machine.{MachineState, first_state};
ghost use Rattle.recon_core.specs.Standing.{IsBelow, StandsFor};
ghost use Rattle.trace_reader.specs.Trace.{IsBytes};
ghost use Rattle.trace_reader.specs.Fault.{fault_number};
ghost use Rattle.verdict.specs.declared.finding.Verdict.TheVariants.{Accept};
ghost use Rattle.records.specs.FullCheck.{full_check};
ghost use Rattle.recon_cli.specs.Outcome.{line_in, no_counts};
ghost use Rattle.recon_cli.specs.Looks.{LooksAtMost, LooksEvents};
ghost use Rattle.recon_cli.specs.Moments.{StopsInEvents};
ghost use Rattle.recon_cli.specs.Reads.{ReadsAtMost, ReadsEvents};
ghost use Rattle.recon_cli.specs.Stopped.{StopsAs, StopsFrom};
ghost use Rattle.recon_cli.specs.Stopping.{FaultStops, IsCutPrint};
ghost use Rattle.recon_cli.specs.Run.{HasFaultPrintCause, HasFaultCause, HasPrintCause, IsOfBytes, IsOutcomeStatus, IsSameOutside, Replays, ReplaysAs, TookLines, faults_lent};

use crate::counts::Counts;
use crate::lines::{Style, print, refuse};
use crate::outside::Outside;
use crate::run_fault::RunFault;
use crate::turn::Replay;
use recon_core::Checker;
use recon_disk::{Disk, Sink, Source};
use report::Line;
use std::alloc::Global;
use trace_reader::{Item, TraceFault, TraceReader};
use verdict::Stop;

/// The most records that a trace may have before its end tag.
const RECORD_LIMIT: u64 = 4_294_967_296;

// Prints the summary at the end tag.
fn print_summary<K: Sink>(
    alloc: Global,
    style: Style,
    counts: &Counts,
    out: &mut K,
) -> Result<u8, RunFault>
    ensures status { IfOk result (λ status. status ≡ (if counts.now.rejected == 0 then 0 else 1)) }
    ensures printed { let line = Line.End counts.now.passed counts.now.rejected in
        OnOk result (K.kept out.new ≡
        option_map (λ kept. kept ++ line_in style line) (K.kept out.old)) }
    ensures stopped { let line = Line.End counts.now.passed counts.now.rejected in
        IfErr result (λ cause. IsCutPrint (K.kept out.old) (line_in style line) cause
        (K.kept out.new)) }
    ensures lines { TookLines K.Sink style out.old out.new }
    ensures cause { HasPrintCause (K.faults out.old) (K.faults out.new) result }
{
    print(
        alloc,
        style,
        out,
        &Line::End {
            passed: counts.passed,
            rejected: counts.rejected,
        },
    )?;
    Ok(if counts.rejected == 0 { 0 } else { 1 })
}

// Prints the line of a trace's fault at the record of this number. A read that failed and want of memory
// are no faults of the trace.
fn print_fault<K: Sink>(
    alloc: Global,
    style: Style,
    fault: TraceFault,
    place: u64,
    out: &mut K,
) -> Result<u8, RunFault>
    ensures printed { let line = Line.BadTrace (fault_number fault) place in
        IfOk result (λ status. (status ≡ 3) × IsOfBytes fault × (K.kept out.new ≡
        option_map (λ kept. kept ++ line_in style line) (K.kept out.old))) }
    ensures stopped { let line = Line.BadTrace (fault_number fault) place in IfErr result
        (λ cause. FaultStops fault (K.kept out.old) (line_in style line) cause (K.kept out.new)) }
    ensures lines { TookLines K.Sink style out.old out.new }
    ensures cause { HasFaultPrintCause fault (K.faults out.old) (K.faults out.new) result }
{
    match fault {
        TraceFault::ReadFault => Err(RunFault::Trace),
        TraceFault::NoMemory => Err(RunFault::Memory),
        _ => {
            print(
                alloc,
                style,
                out,
                &Line::BadTrace {
                    number: fault.number(),
                    place,
                },
            )?;
            Ok(3)
        }
    }
}

// Takes the records of a trace one by one, up to its end, its fault, or the first event that passes the end
// of the device. What is still pending then is dropped with the checker.
fn take_records<D: Disk, S: Source, K: Sink, L>(
    replay: &mut Replay<L>,
    lent: &mut Outside<'_, '_, '_, '_, D, S, K, L>,
) -> Result<u8, RunFault>
    requires open { replay.old.checker.closed ≡ false }
    requires length { replay.old.checker.length ≡ D.len lent.old.disk.now }
    requires below { IsBelow replay.old.checker.length replay.old.checker.cache }
    requires first { replay.old.counts ≡ no_counts }
    ensures outcome { (first : MachineState) (bytes kept : List ℕ) →
        StandsFor replay.old.checker first → D.bytes lent.old.disk.now ≡ Some first.image →
        IsBytes bytes → S.left lent.old.trace.now ≡ Some bytes →
        K.kept lent.old.out.now ≡ Some kept →
        IfOk result (λ status. Replays replay.old.style first bytes kept status
        (D.bytes lent.new.disk.now) (S.left lent.new.trace.now) (K.kept lent.new.out.now)) }
    ensures stopped { (first : MachineState) (bytes kept : List ℕ) →
        StandsFor replay.old.checker first → D.bytes lent.old.disk.now ≡ Some first.image →
        S.left lent.old.trace.now ≡ Some bytes → K.kept lent.old.out.now ≡ Some kept →
        IfErr result (λ cause. StopsFrom replay.old.style first bytes kept cause
        (D.bytes lent.new.disk.now) (S.left lent.new.trace.now) (K.kept lent.new.out.now)) }
    ensures reads { (first : MachineState) (bytes : List ℕ) →
        StandsFor replay.old.checker first → D.bytes lent.old.disk.now ≡ Some first.image →
        IsBytes bytes → S.left lent.old.trace.now ≡ Some bytes →
        IfOk result (λ status. status ≡ 0 → ReadsEvents first bytes
        (D.reads lent.old.disk.now) (D.reads lent.new.disk.now)) }
    ensures looks { (first : MachineState) (bytes : List ℕ) →
        StandsFor replay.old.checker first → D.bytes lent.old.disk.now ≡ Some first.image →
        IsBytes bytes → S.left lent.old.trace.now ≡ Some bytes →
        IfOk result (λ status. status ≡ 0 → LooksEvents first bytes
        lent.old.steps.now lent.new.steps.now) }
    ensures moments { (first : MachineState) (bytes : List ℕ) →
        StandsFor replay.old.checker first → D.bytes lent.old.disk.now ≡ Some first.image →
        IsBytes bytes → S.left lent.old.trace.now ≡ Some bytes → StopsInEvents first bytes
        (D.moments lent.old.disk.now) (D.moments lent.new.disk.now) }
    ensures status { IfOk result IsOutcomeStatus }
    ensures same { IsSameOutside lent.old lent.new }
    ensures lines { TookLines K.Sink replay.old.style lent.old.out.now lent.new.out.now }
    ensures cause { HasFaultCause (faults_lent D.Disk S.Source K.Sink lent.old)
        (faults_lent D.Disk S.Source K.Sink lent.new) result }
{
    let style = replay.style;
    let mut reader = TraceReader::new(RECORD_LIMIT);
    'records: loop {
        match reader.next(replay.alloc, lent.trace) {
            Ok(Item::Event(event)) => {
                let place = reader.record_number();
                let turn = replay.take_event(place, event, lent.disk, lent.out, lent.steps)?;
                if let Some(status) = turn {
                    return Ok(status);
                }
            }
            Ok(Item::End) => return print_summary(replay.alloc, style, &replay.counts, lent.out),
            Err(fault) => {
                let place = reader.record_number();
                return print_fault(replay.alloc, style, fault, place, lent.out);
            }
        }
    }
}

// Replays the trace over an accepted image, whose generation is printed first.
fn replay_over<D: Disk, S: Source, K: Sink, L>(
    alloc: Global,
    style: Style,
    checker: Checker<L>,
    generation: u64,
    lent: &mut Outside<'_, '_, '_, '_, D, S, K, L>,
) -> Result<u8, RunFault>
    requires empty { checker.cache ≡ map.empty }
    requires open { checker.closed ≡ false }
    requires length { checker.length ≡ D.len lent.old.disk.now }
    ensures outcome { (image bytes kept : List ℕ) →
        full_check image ≡ Accept generation →
        StandsFor checker (first_state image) → D.bytes lent.old.disk.now ≡ Some image →
        IsBytes bytes → S.left lent.old.trace.now ≡ Some bytes →
        K.kept lent.old.out.now ≡ Some kept →
        IfOk result (λ status. ReplaysAs style image bytes kept status
        (D.bytes lent.new.disk.now) (S.left lent.new.trace.now) (K.kept lent.new.out.now)) }
    ensures stopped { (image bytes kept : List ℕ) →
        full_check image ≡ Accept generation →
        StandsFor checker (first_state image) → D.bytes lent.old.disk.now ≡ Some image →
        S.left lent.old.trace.now ≡ Some bytes → K.kept lent.old.out.now ≡ Some kept →
        IfErr result (λ cause. StopsAs style image bytes kept cause
        (D.bytes lent.new.disk.now) (S.left lent.new.trace.now) (K.kept lent.new.out.now)) }
    ensures reads { (image bytes : List ℕ) →
        StandsFor checker (first_state image) → D.bytes lent.old.disk.now ≡ Some image →
        IsBytes bytes → S.left lent.old.trace.now ≡ Some bytes →
        IfOk result (λ status. status ≡ 0 → ReadsEvents (first_state image) bytes
        (D.reads lent.old.disk.now) (D.reads lent.new.disk.now)) }
    ensures looks { (image bytes : List ℕ) →
        StandsFor checker (first_state image) → D.bytes lent.old.disk.now ≡ Some image →
        IsBytes bytes → S.left lent.old.trace.now ≡ Some bytes →
        IfOk result (λ status. status ≡ 0 → LooksEvents (first_state image) bytes
        lent.old.steps.now lent.new.steps.now) }
    ensures moments { (image bytes : List ℕ) →
        StandsFor checker (first_state image) → D.bytes lent.old.disk.now ≡ Some image →
        IsBytes bytes → S.left lent.old.trace.now ≡ Some bytes →
        StopsInEvents (first_state image) bytes
        (D.moments lent.old.disk.now) (D.moments lent.new.disk.now) }
    ensures status { IfOk result IsOutcomeStatus }
    ensures same { IsSameOutside lent.old lent.new }
    ensures lines { TookLines K.Sink style lent.old.out.now lent.new.out.now }
    ensures cause { HasFaultCause (faults_lent D.Disk S.Source K.Sink lent.old)
        (faults_lent D.Disk S.Source K.Sink lent.new) result }
{
    print(alloc, style, lent.out, &Line::Image { generation })?;
    let mut replay = Replay {
        alloc,
        style,
        checker,
        counts: Counts {
            passed: 0,
            rejected: 0,
        },
    };
    take_records(&mut replay, lent)
}

// Replays the trace over the disk's image, or refuses the image. A refused image leaves the trace unread.
pub fn replay<D: Disk, S: Source, K: Sink, L>(
    alloc: Global,
    style: Style,
    lent: &mut Outside<'_, '_, '_, '_, D, S, K, L>,
) -> Result<u8, RunFault>
    ensures outcome { (image bytes kept : List ℕ) → D.bytes lent.old.disk.now ≡ Some image →
        IsBytes bytes → S.left lent.old.trace.now ≡ Some bytes →
        K.kept lent.old.out.now ≡ Some kept →
        IfOk result (λ status. ReplaysAs style image bytes kept status
        (D.bytes lent.new.disk.now) (S.left lent.new.trace.now) (K.kept lent.new.out.now)) }
    ensures stopped { (image bytes kept : List ℕ) → D.bytes lent.old.disk.now ≡ Some image →
        S.left lent.old.trace.now ≡ Some bytes → K.kept lent.old.out.now ≡ Some kept →
        IfErr result (λ cause. StopsAs style image bytes kept cause
        (D.bytes lent.new.disk.now) (S.left lent.new.trace.now) (K.kept lent.new.out.now)) }
    ensures reads { (image bytes : List ℕ) → D.bytes lent.old.disk.now ≡ Some image →
        IsBytes bytes → S.left lent.old.trace.now ≡ Some bytes →
        IfOk result (λ status. status ≡ 0 → ReadsAtMost image bytes
        (D.reads lent.old.disk.now) (D.reads lent.new.disk.now)) }
    ensures looks { (image bytes : List ℕ) → D.bytes lent.old.disk.now ≡ Some image →
        IsBytes bytes → S.left lent.old.trace.now ≡ Some bytes →
        IfOk result (λ status. status ≡ 0 → LooksAtMost image bytes
        lent.old.steps.now lent.new.steps.now) }
    ensures moments { (image bytes : List ℕ) → D.bytes lent.old.disk.now ≡ Some image →
        IsBytes bytes → S.left lent.old.trace.now ≡ Some bytes →
        StopsInEvents (first_state image) bytes
        (D.moments lent.old.disk.now) (D.moments lent.new.disk.now) }
    ensures status { IfOk result IsOutcomeStatus }
    ensures same { IsSameOutside lent.old lent.new }
    ensures lines { TookLines K.Sink style lent.old.out.now lent.new.out.now }
    ensures cause { HasFaultCause (faults_lent D.Disk S.Source K.Sink lent.old)
        (faults_lent D.Disk S.Source K.Sink lent.new) result }
{
    match Checker::begin(alloc, lent.disk, lent.steps) {
        Ok(Ok((checker, generation))) => replay_over(alloc, style, checker, generation, lent),
        Ok(Err(finding)) => refuse(alloc, style, finding, lent.out),
        Err(Stop::DiskFault) => Err(RunFault::Device),
        Err(Stop::NoMemory) => Err(RunFault::Memory),
        Err(Stop::PastEnd { .. } | Stop::Closed) => unreachable!(),
    }
}
