//! The call that the program makes.

ghost use Rattle.std.specs.Prelude.{ℕ, false, ◌≡◌, ◌<◌, ◌≤◌, ◌↔◌, ◌⊎◌, List, Some, map, string_bytes};
ghost use Rattle.verdict.specs.declared.machine.Event.{Event as AnEvent};
ghost use Rattle.trace_reader.specs.Trace.{Ending, IsBytes, IsTrace};
ghost use Rattle.recon_cli.specs.declared.lines.Style.{Style};
ghost use Rattle.recon_cli.specs.declared.run_fault.RunFault.{RunFault as Cause};
ghost use Rattle.recon_cli.specs.Words.{AsksToMake, IsForm, IsNoForm};
ghost use Rattle.recon_cli.specs.Making.{IsUnwritten, MakesAs};
ghost use Rattle.recon_cli.specs.Outcome.{replay_outcome};
ghost use Rattle.recon_cli.specs.Status.{fault_status};
ghost use Rattle.recon_core.specs.Machine.{first_state};
ghost use Rattle.recon_cli.specs.Looks.{LooksAtMost};
ghost use Rattle.recon_cli.specs.Moments.{StopsInEvents};
ghost use Rattle.recon_cli.specs.Reads.{ReadsAtMost};
ghost use Rattle.recon_cli.specs.Stopped.{CheckStops, StopsAs};
ghost use Rattle.recon_cli.specs.Run.{ChecksAs, ComesOut, HadNoFault, HasStatusCause, IsCheckStatus, IsOutcomeStatus, TookLines, faults_of, record_limit};

use crate::check::check;
use crate::making::make;
use crate::outside::Outside;
use crate::replay::replay;
use crate::run_fault::status_of;
use crate::words::{Form, form_of};
use recon_disk::{Disk, Sink, Source, Steps};
use std::alloc::Global;

/// Does what the words ask for, over a disk, a trace and a place for lines, and answers the status.
///
/// The words are those behind the program's name: `check IMAGE` for the full check of the disk's image,
/// `replay IMAGE` for the replay of the trace over it, or `replay --json IMAGE` for the same with its lines
/// as JSON. IMAGE is not looked at: the words `replay --json` are the second form. A check leaves the disk's
/// bytes, takes nothing from the trace, and ends with 0, 1, 4, 6 or 7.
///
/// A replay that ends with 0 reads the superblock of the disk's image once and each block of its trees at most
/// twice, and then for each judged event at most twice each block that the images before and after it do not
/// share, for each fetch once, and for a write that is held not at all. It looks into the index at most 64 times for each
/// block, entry, posting, span and chunk of the disk's image, and at each judged event at most 64 times for each unit of
/// its work, which counts the same of what changes.
///
/// A stop at any moment of a replay, such as a power cut, leaves a stop image of one of the trace's events, which the full
/// check accepts where that event's line ends in `hot 0`: so of a disk that tells what a stop may leave of it.
///
/// `make SEED COMMITS IMAGE` writes the base image over the disk's first 33,554,432 bytes, flushes, and writes
/// to the place for lines the trace of a workload on it, of COMMITS commits, that is drawn from SEED. SEED and
/// COMMITS are ASCII digits, zeros in front allowed: SEED is at most 18,446,744,073,709,551,615, and COMMITS is
/// from 1 to 200. A make takes nothing from the trace, and ends with 0, 4, 6, 7 or 8. Its faults come in the
/// order length, base image and flush, then trace; the base image is made before anything is written.
///
/// | Status | Meaning |
/// |---|---|
/// | 0 | check: the image is accepted; replay: the end tag was read, and everything passed; make: all was written |
/// | 1 | the image is refused, or the end tag was read and something was rejected |
/// | 2 | the words are none of the forms; nothing is read or written |
/// | 3 | the trace is malformed at the record that the line names, or that record passes the end of the device |
/// | 4 | a call of the disk failed |
/// | 5 | a read of the trace failed |
/// | 6 | a write of a line, or of the trace that a make writes, failed |
/// | 7 | out of memory |
/// | 8 | make: the disk is shorter than 33,554,432 bytes; nothing is written |
pub fn recon_run<D: Disk, S: Source, K: Sink, L>(
    alloc: Global,
    words: &[String],
    disk: &mut D,
    trace: &mut S,
    out: &mut K,
    steps: &mut Steps<L>,
) -> u8
    // Starting from an image that the full check accepts, for every trace, each commit and each settle is let
    // through exactly when the full check of the image that it would produce accepts; otherwise it is rejected
    // with that check's own finding; the device then holds the starting image with exactly the writes of what
    // was let through. So says the outcome, step by step.
    ensures replay { (style : Style) → IsForm (Form.Replay style) (map string_bytes words.now) →
        IsOutcomeStatus result →
        (image bytes kept : List ℕ) → D.bytes disk.old ≡ Some image →
        S.left trace.old ≡ Some bytes → IsBytes bytes → K.kept out.old ≡ Some kept →
        (events : List AnEvent) (ending : Ending) → IsTrace record_limit bytes events ending →
        ComesOut (replay_outcome style image events ending) bytes kept result
        (D.bytes disk.new) (S.left trace.new) (K.kept out.new) }

    // A replay that stops early, at a status from 4 to 7, has printed the lines of what it did, and the device holds
    // what these lines say: after the records that were taken whole, or at a failed call a stop image of the last.
    ensures stopped { (style : Style) → IsForm (Form.Replay style) (map string_bytes words.now) →
        (cause : Cause) → result ≡ fault_status cause →
        (image bytes kept : List ℕ) → D.bytes disk.old ≡ Some image →
        S.left trace.old ≡ Some bytes → K.kept out.old ≡ Some kept →
        StopsAs style image bytes kept cause
        (D.bytes disk.new) (S.left trace.new) (K.kept out.new) }

    // A replay that ends with status 0 has read the superblock of its image once and each block of the trees at most
    // twice, and then at most what the answers to the events of the trace allow.
    ensures reads { (style : Style) → IsForm (Form.Replay style) (map string_bytes words.now) →
        result ≡ 0 → (image bytes : List ℕ) → D.bytes disk.old ≡ Some image →
        S.left trace.old ≡ Some bytes → IsBytes bytes →
        ReadsAtMost image bytes (D.reads disk.old) (D.reads disk.new) }

    // It has looked into the index at most 64 times for each unit of the work of the start, and of the work of its events.
    ensures looks { (style : Style) → IsForm (Form.Replay style) (map string_bytes words.now) →
        result ≡ 0 → (image bytes : List ℕ) → D.bytes disk.old ≡ Some image →
        S.left trace.old ≡ Some bytes → IsBytes bytes →
        LooksAtMost image bytes steps.old steps.new }

    // What a stop at any moment of a replay may leave, such as a power cut, of a disk that tells its moments and is settled
    // when the replay begins: a stop image of one of the trace's events. The full check accepts it where that event's line
    // ends in `hot 0`.
    ensures stops { (style : Style) → IsForm (Form.Replay style) (map string_bytes words.now) →
        (image bytes : List ℕ) → D.bytes disk.old ≡ Some image →
        S.left trace.old ≡ Some bytes → IsBytes bytes →
        StopsInEvents (first_state image) bytes (D.moments disk.old) (D.moments disk.new) }

    // A check of the image prints what the full check says of it. It writes nothing to the disk, and leaves the trace.
    ensures check { IsForm Form.Check (map string_bytes words.now) → IsOutcomeStatus result →
        (image kept : List ℕ) → D.bytes disk.old ≡ Some image → K.kept out.old ≡ Some kept →
        ChecksAs image kept result (D.bytes disk.new) (K.kept out.new) }
    ensures check_stopped { IsForm Form.Check (map string_bytes words.now) →
        (cause : Cause) → result ≡ fault_status cause →
        (image kept : List ℕ) → D.bytes disk.old ≡ Some image → K.kept out.old ≡ Some kept →
        CheckStops image kept cause (D.bytes disk.new) (K.kept out.new) }
    ensures checked { IsForm Form.Check (map string_bytes words.now) →
        IsCheckStatus result × IsUnwritten D.Disk disk.old disk.new × (trace.new ≡ trace.old) }

    // A sink that tells what each write gave it has got whole lines alone, one a write, whatever the status.
    ensures lines { (style : Style) → IsForm (Form.Replay style) (map string_bytes words.now) →
        TookLines K.Sink style out.old out.new }
    ensures line { IsForm Form.Check (map string_bytes words.now) →
        TookLines K.Sink Style.Text out.old out.new }

    // A make leaves the base image over the front of the disk, and its other bytes, and in the sink one trace of
    // just so many commits; or it leaves what its status says. It takes nothing from the trace.
    ensures make { (seed commits : ℕ) →
        IsForm (Form.Make seed commits) (map string_bytes words.now) →
        MakesAs D.Disk K.Sink seed commits result disk.old disk.new out.old out.new ×
        (trace.new ≡ trace.old) }

    // A disk that is too short for the base image is left as it was, and nothing is written to the sink. The
    // status is 8 exactly where the disk gives such a length when it is asked first.
    ensures short { (result ≡ 8) ↔ (AsksToMake (map string_bytes words.now) ×
        (D.len disk.old < 33554432) × (D.hides_length disk.old ≡ false)) }
    ensures unwritten { AsksToMake (map string_bytes words.now) → D.len disk.old < 33554432 →
        IsUnwritten D.Disk disk.old disk.new × (out.new ≡ out.old) }

    // Words that are no form: nothing is read or written.
    ensures words { (result ≡ 2) ↔ IsNoForm (map string_bytes words.now) }
    ensures unread { result ≡ 2 →
        (disk.new ≡ disk.old) × (trace.new ≡ trace.old) × (out.new ≡ out.old) }

    // A status names a fault of an object only where that object's count rose, and leaves the other counts.
    ensures causes { HasStatusCause (faults_of D.Disk S.Source K.Sink disk.old trace.old out.old)
        (faults_of D.Disk S.Source K.Sink disk.new trace.new out.new) result }

    // Where nothing failed and memory was there, the check or the replay has come to its outcome, and the make
    // has written all or the disk is too short for it.
    ensures complete { HadNoFault (faults_of D.Disk S.Source K.Sink disk.old trace.old out.old)
        (faults_of D.Disk S.Source K.Sink disk.new trace.new out.new) →
        IsOutcomeStatus result ⊎ ((result ≡ 2) ⊎ (result ≡ 7) ⊎ (result ≡ 8)) }
    ensures complete_make { AsksToMake (map string_bytes words.now) →
        HadNoFault (faults_of D.Disk S.Source K.Sink disk.old trace.old out.old)
        (faults_of D.Disk S.Source K.Sink disk.new trace.new out.new) →
        (result ≡ 0) ⊎ (result ≡ 7) ⊎ (result ≡ 8) }
    ensures known { result ≤ 8 }
{
    match form_of(words) {
        None => 2,
        Some(Form::Check) => match check(alloc, disk, out) {
            Ok(said) => said,
            Err(run_fault) => status_of(run_fault),
        },
        Some(Form::Replay(style)) => match replay(
            alloc,
            style,
            &mut Outside {
                disk,
                trace,
                out,
                steps,
            },
        ) {
            Ok(status) => status,
            Err(stopped) => status_of(stopped),
        },
        Some(Form::Make { seed, commits }) => match make(alloc, seed, commits, disk, out) {
            Ok(done) => done,
            Err(cause) => status_of(cause),
        },
    }
}
