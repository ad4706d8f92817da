//! The checker: the machine's state over a disk.

ghost use Rattle.std.specs.Prelude.{◌≡◌};
ghost use Rattle.recon_core.specs.Judged.{stop_for};

use crate::fetching::fetch;
use crate::judging::judge_waiting;
use crate::laws::stop_law;
use chunk_map::Bases;
use commit_judge::{Built, Index};
use plain_check::Fault;
use recon_disk::{Disk, Steps};
use std::alloc::Global;
use verdict::{Answer, Event, Finding, HeldWrite, Stop, meets_superblock};
use write_cache::WriteCache;

/// A checker over a disk: the pending writes, what is known of the disk's image, whether it is closed, and the disk's length
/// in bytes. A closed checker is not used again.
///
/// The mark `L` ties the index to its counter of looks.
#[derive(Drop)]
pub struct Checker<L> {
    /// The pending writes.
    pub cache: WriteCache,
    /// What is known of the disk's image.
    pub index: Index<L>,
    /// Whether a fault closed it.
    pub closed: bool,
    /// The length of the disk in bytes.
    pub length: u64,
}

/// What the start of a checker gives.
#[derive(Drop)]
pub enum Started<L> {
    /// The disk's image is accepted, and no write is pending.
    Ready(Checker<L>),
    /// The full check's finding of the disk's image.
    Refused(Finding),
}

impl<L> Checker<L> {
    ghost use Rattle.std.specs.Prelude.{ℕ, ◌≡◌, ◌≢◌, ◌+◌, ◌^◌, ◌<◌, ◌≤◌, List, length, true, Some, None, Ok, Err, IfOk, IfErr, IfSome, OnOk, OnErr, IsSomeAnd, IsTrue, IsErrOf};
    ghost use Rattle.std.specs.FinMap as map;
    ghost use Rattle.verdict.specs.Events.{IsSized};
    ghost use Rattle.verdict.specs.Image.{range};
    ghost use Rattle.recon_disk.specs.Keeping.{IsCounted, Kept};
    ghost use Rattle.write_cache.specs.Cache.{overlaid, with_bytes};
    ghost use Rattle.recon_core.specs.Machine.{MachineState, machine_step};
    ghost use Rattle.recon_core.specs.Standing.{BeginsAt, IsAccepted, BeginsOpen, BeginsOver, BeginsWith, IsAfterWant, IsAnswerTo, IsBelow, IsFetched, IsJudgement, IsNoRefusal, StandsFor, Takes, is_disk_fault, refusal_of, waits};
    ghost use Rattle.recon_core.specs.Stops.{IsStopImage};
    ghost use Rattle.recon_core.specs.Safe.{hot_at};
    ghost use Rattle.recon_core.specs.Moments.{IsAtRest, IsFlushedAs, LeavesAfter};
    ghost use Rattle.recon_core.specs.Sent.{LeavesBy};
    ghost use Rattle.recon_core.specs.Judged.{IsLeftOf, Judges};
    ghost use Rattle.recon_core.specs.Order.{HasSentBy, HasSentPart, judged_with};
    ghost use Rattle.recon_core.specs.Reads.{HasBegun, HasFetched, HasReads, HasStarted};
    ghost use Rattle.recon_core.specs.Looks.{BeginsByWork, HasLooks, JudgesByWork, StartsByWork, work_at};
    ghost use Rattle.commit_judge.specs.Index.{HasPlaceOf, IndexStands};

    /// A checker over the disk, where the full check accepts its image. The disk's bytes stay. The superblock is one
    /// read of the disk, and each block of the trees at most two. The looks into the index are at most 64 for each block,
    /// entry, posting, span and chunk of the image. Its stops are `DiskFault` and `NoMemory`.
    pub fn start<D: Disk>(
        alloc: Global,
        disk: &mut D,
        steps: &mut Steps<L>,
    ) -> Result<Started<L>, Stop>
        ensures told { IfOk result (λ started.
            IfSome (D.bytes disk.old) (λ image. BeginsOver image started)) }
        ensures reads { IfOk result (λ started. IfSome (D.bytes disk.old)
            (λ image. HasStarted image (D.reads disk.old) (D.reads disk.new) started)) }
        ensures looks { IfOk result (λ started. IfSome (D.bytes disk.old)
            (λ image. StartsByWork image steps.old steps.new started)) }
        ensures ready { IfOk result (BeginsAt (D.len disk.old)) }
        ensures stops { IsNoRefusal result }
        ensures kept { Kept D.Disk disk.old disk.new (is_disk_fault result) }
    {
        match Checker::begin(alloc, disk, steps)? {
            Ok((checker, _)) => Ok(Started::Ready(checker)),
            Err(finding) => Ok(Started::Refused(finding)),
        }
    }

    /// The same, with the generation of the superblock where the image is accepted, and the finding where it is not. The
    /// length of the disk is asked once, and its image is read once.
    pub fn begin<D: Disk>(
        alloc: Global,
        disk: &mut D,
        steps: &mut Steps<L>,
    ) -> Result<Result<(Checker<L>, u64), Finding>, Stop>
        ensures told { IfOk result (λ begun.
            IfSome (D.bytes disk.old) (λ image. BeginsWith image begun)) }
        ensures reads { IfOk result (λ begun. IfSome (D.bytes disk.old)
            (λ image. HasBegun image (D.reads disk.old) (D.reads disk.new) begun)) }
        ensures looks { IfOk result (λ begun. IfSome (D.bytes disk.old)
            (λ image. BeginsByWork image steps.old steps.new begun)) }
        ensures ready { IfOk result (BeginsOpen (D.len disk.old)) }
        ensures stops { IsNoRefusal result }
        ensures kept { Kept D.Disk disk.old disk.new (is_disk_fault result) }
    {
        let Ok(length) = disk.length() else {
            return Err(Stop::DiskFault);
        };
        match Index::build_within(alloc, disk, length, steps) {
            Ok(Built::Refused(finding)) => Ok(Err(finding)),
            Ok(Built::Ready(index)) => {
                let generation = index.sup().generation;
                let checker = Checker {
                    cache: WriteCache::new(alloc),
                    index,
                    closed: false,
                    length,
                };
                Ok(Ok((checker, generation)))
            }
            Err(fault) => Err(stop_of(fault)),
        }
    }

    /// Takes one event. A write has 1 to 1,048,576 bytes and a fetch asks for 1 to 65,536.
    ///
    /// The refusals, in this order: `Closed` exactly where the checker is closed; `PastEnd` exactly
    /// where the event's range passes the end of the disk, and these two leave the counter of looks too; `NoMemory`, after which all stays, but a
    /// judged event closes the checker; `DiskFault` only where a call of the disk failed, never at a
    /// write that is held, and it closes the checker. After it the disk holds a stop image of the event: the
    /// old image, and where the full check accepts the judged image, that one, or the old one to which the
    /// pending writes went out in part outside the superblock place.
    ///
    /// A passed event sends its bytes to the disk in this order, and nothing else: the maximal runs of the
    /// pending writes outside the superblock place in rising order, each cut from its front into calls of 1,048,576
    /// bytes and a shorter last one; a flush; and on a commit the whole place in one call and a flush.
    /// Where a call fails, those before it were sent. Any other answer, and `NoMemory`, sends nothing.
    ///
    /// A write that is held reads nothing, and a fetch at most once, over any disk. A judged event that passes reads at most twice each block
    /// that the image before it and the judged one do not share. It looks into the index at most 64 times for each unit of
    /// its work: of these blocks, their entries, what these post, the spans that share a sector with what changes, the runs
    /// of the pending writes, and the chunks.
    #[tactic(auto, unfolding(crate::specs::Order::HasSentBy, crate::specs::Order::HasSentPart))]
    pub fn event<D: Disk>(
        &mut self,
        alloc: Global,
        disk: &mut D,
        ev: Event,
        steps: &mut Steps<L>,
    ) -> Result<Answer, Stop>
        requires length { self.old.length ≡ D.len disk.old }
        requires below { IsBelow self.old.length self.old.cache }
        requires sized { IsSized ev }

        // The refusals before anything is done, after which all stays.
        ensures refused { IfSome (refusal_of self.old ev)
            (λ stop. (result ≡ Err stop) × (self.new ≡ self.old) ×
            (disk.new ≡ disk.old) × (steps.new ≡ steps.old)) }
        ensures only { refusal_of self.old ev ≡ None → IsNoRefusal result }

        // The sort of answer, over any disk.
        ensures sort { IfOk result (IsAnswerTo ev) }

        // The machine's step, and what a failed call of the disk leaves of it.
        ensures step { (state : MachineState) → StandsFor self.old state →
            D.bytes disk.old ≡ Some state.image → refusal_of self.old ev ≡ None → IfOk result
            (λ answer. Takes (machine_step state ev) answer self.new (D.bytes disk.new)) }
        ensures stop { (state : MachineState) → StandsFor self.old state →
            D.bytes disk.old ≡ Some state.image → IsErrOf result Stop.DiskFault →
            IsSomeAnd (D.bytes disk.new) (IsStopImage state ev) }

        // How often the disk is read: of a fetch also over a disk that does not tell its bytes.
        ensures reads { (state : MachineState) → StandsFor self.old state →
            D.bytes disk.old ≡ Some state.image → IfOk result
            (λ answer. HasReads answer (D.reads disk.old) (D.reads disk.new)) }
        ensures fetched { IfOk result
            (λ answer. HasFetched answer (D.reads disk.old) (D.reads disk.new)) }

        // How often the index is looked into: at most 64 times for each unit of the work of the event.
        ensures looks { (state : MachineState) → StandsFor self.old state →
            D.bytes disk.old ≡ Some state.image → IfOk result
            (λ answer. HasLooks answer (work_at state ev) steps.old steps.new) }

        // What a passed event sends to the disk, call by call, that no other answer sends anything, and
        // what an event sends that has no answer. The calls are said where the index has the bytes of the
        // superblock place of the disk's image, as it has from the start on.
        ensures order { IfOk result (λ answer.
            HasSentBy (HasPlaceOf self.old.index) answer (judged_with self.old.cache ev)
            (D.bytes disk.old) (D.sent disk.old) (D.sent disk.new)) }
        ensures part { OnErr result
            (HasSentPart (HasPlaceOf self.old.index) (judged_with self.old.cache ev)
            (D.bytes disk.old) (D.sent disk.old) (D.sent disk.new)) }

        // What a stop at any moment in the event may leave, such as a power cut, of a disk that tells it and
        // is settled when the event begins: a stop image of the event. After an answer it is settled again.
        // Where the event writes over no live block and moves none, each of these images is accepted.
        ensures stops { (state : MachineState) → StandsFor self.old state →
            D.bytes disk.old ≡ Some state.image → refusal_of self.old ev ≡ None →
            IfSome (D.moments disk.old) (λ before. IsFlushedAs state.image before →
            LeavesAfter (IsStopImage state ev) before (D.moments disk.new)) }
        ensures rest { OnOk result (IsAtRest (D.bytes disk.old) (D.moments disk.old)
            → IsAtRest (D.bytes disk.new) (D.moments disk.new)) }
        ensures safe { (state : MachineState) → StandsFor self.old state →
            refusal_of self.old ev ≡ None → hot_at state ev ≡ 0 →
            (left : List ℕ) → IsStopImage state ev left → IsAccepted left }

        // What the other refusals leave.
        ensures memory { IsErrOf result Stop.NoMemory →
            (D.bytes disk.new ≡ D.bytes disk.old) × IsAfterWant ev self.old self.new }
        ensures unsent { IsErrOf result Stop.NoMemory → D.sent disk.new ≡ D.sent disk.old }
        ensures unmoved { IsErrOf result Stop.NoMemory → D.moments disk.new ≡ D.moments disk.old }
        ensures fault { IsErrOf result Stop.DiskFault → self.new.closed ≡ true }
        ensures answered { OnOk result (self.new.closed ≡ self.old.closed) }
        ensures held { IsTrue (waits ev) → (disk.new ≡ disk.old) × (result ≢ Err Stop.DiskFault) }
        ensures cause { IsCounted (is_disk_fault result) (D.faults disk.old) (D.faults disk.new) }

        // What each answer keeps.
        ensures size { self.new.length ≡ self.old.length }
        ensures inside { IsBelow self.old.length self.new.cache }
        ensures len { D.len disk.new ≡ D.len disk.old }
    {
        stop_law();
        if self.closed {
            return Err(Stop::Closed);
        }
        let (at, len) = ev.range();
        if len > self.length || at > self.length - len {
            return Err(Stop::PastEnd {
                at,
                len,
                end: self.length,
            });
        }
        match ev {
            Event::Write { at, bytes, .. } => {
                let write = HeldWrite { at, bytes };
                if meets_superblock(at, len) {
                    self.commit(alloc, disk, write, steps)
                } else {
                    self.hold(write)
                }
            }
            Event::Settle => self.settle(alloc, disk, steps),
            Event::Fetch { at, len } => self.fetch(alloc, disk, at, len),
        }
    }

    // A write is held.
    fn hold(&mut self, write: HeldWrite) -> Result<Answer, Stop>
        requires fits { write.at + length write.bytes < 2 ^ 64 }
        ensures answer { IfOk result (λ answer. answer ≡ Answer.Held) }
        ensures ok { OnOk result
            (self.new ≡
            record self.old { cache = with_bytes self.old.cache write.at write.bytes }) }
        ensures err { IfErr result (λ stop. (stop ≡ Stop.NoMemory) × (self.new ≡ self.old)) }
    {
        match self.cache.hold(write) {
            Ok(()) => Ok(Answer::Held),
            Err(_) => Err(Stop::NoMemory),
        }
    }

    // The pending writes are judged.
    fn settle<D: Disk>(
        &mut self,
        alloc: Global,
        disk: &mut D,
        steps: &mut Steps<L>,
    ) -> Result<Answer, Stop>
        requires length { self.old.length ≡ D.len disk.old }
        requires below { IsBelow (D.len disk.old) self.old.cache }
        ensures sort { IfOk result IsJudgement }
        ensures judged { Judges D.Disk disk.old disk.new
            self.old.cache self.old.index self.new.index result (is_disk_fault result) }
        ensures looks { JudgesByWork (D.bytes disk.old) self.old.cache self.old.index
            result steps.old steps.new }
        ensures order { IfOk result (λ answer.
            HasSentBy (HasPlaceOf self.old.index) answer
            self.old.cache (D.bytes disk.old) (D.sent disk.old) (D.sent disk.new)) }
        ensures part { OnErr result (HasSentPart (HasPlaceOf self.old.index)
            self.old.cache (D.bytes disk.old) (D.sent disk.old) (D.sent disk.new)) }
        ensures memory { IsErrOf result Stop.NoMemory → D.bytes disk.new ≡ D.bytes disk.old }
        ensures unsent { IsErrOf result Stop.NoMemory → D.sent disk.new ≡ D.sent disk.old }
        ensures leaves { LeavesBy (λ image. IndexStands image self.old.index)
            (IsLeftOf self.old.cache)
            (D.bytes disk.old) (D.moments disk.old) (D.moments disk.new) }
        ensures rest { OnOk result (IsAtRest (D.bytes disk.old) (D.moments disk.old)
            → IsAtRest (D.bytes disk.new) (D.moments disk.new)) }
        ensures unmoved { IsErrOf result Stop.NoMemory → D.moments disk.new ≡ D.moments disk.old }
        ensures ok { OnOk result
            (self.new ≡ record self.old { cache = map.empty; index = self.new.index }) }
        ensures err { OnErr result
            (self.new ≡ record self.old { closed = true; index = self.new.index }) }
        ensures stops { IsNoRefusal result }
    {
        let judged = judge_waiting(
            alloc,
            disk,
            &mut self.cache,
            &mut self.index,
            self.length,
            steps,
        );
        match judged {
            Ok(answer) => Ok(answer),
            Err(fault) => {
                self.closed = true;
                Err(stop_of(fault))
            }
        }
    }

    // A write that meets the superblock place is judged with the pending ones, its own bytes last.
    #[tactic(auto, unfolding(crate::specs::Order::HasSentBy, crate::specs::Order::HasSentPart))]
    fn commit<D: Disk>(
        &mut self,
        alloc: Global,
        disk: &mut D,
        write: HeldWrite,
        steps: &mut Steps<L>,
    ) -> Result<Answer, Stop>
        requires length { self.old.length ≡ D.len disk.old }
        requires small { D.len disk.old < 2 ^ 64 }
        requires below { IsBelow (D.len disk.old) self.old.cache }
        requires inside { write.at + length write.bytes ≤ D.len disk.old }
        ensures sort { IfOk result IsJudgement }
        ensures judged { Judges D.Disk disk.old disk.new
            (with_bytes self.old.cache write.at write.bytes)
            self.old.index self.new.index result (is_disk_fault result) }
        ensures looks { JudgesByWork (D.bytes disk.old)
            (with_bytes self.old.cache write.at write.bytes)
            self.old.index result steps.old steps.new }
        ensures order { IfOk result (λ answer.
            HasSentBy (HasPlaceOf self.old.index) answer
            (with_bytes self.old.cache write.at write.bytes)
            (D.bytes disk.old) (D.sent disk.old) (D.sent disk.new)) }
        ensures part { OnErr result (HasSentPart (HasPlaceOf self.old.index)
            (with_bytes self.old.cache write.at write.bytes)
            (D.bytes disk.old) (D.sent disk.old) (D.sent disk.new)) }
        ensures memory { IsErrOf result Stop.NoMemory → D.bytes disk.new ≡ D.bytes disk.old }
        ensures unsent { IsErrOf result Stop.NoMemory → D.sent disk.new ≡ D.sent disk.old }
        ensures leaves { LeavesBy (λ image. IndexStands image self.old.index)
            (IsLeftOf (with_bytes self.old.cache write.at write.bytes))
            (D.bytes disk.old) (D.moments disk.old) (D.moments disk.new) }
        ensures rest { OnOk result (IsAtRest (D.bytes disk.old) (D.moments disk.old)
            → IsAtRest (D.bytes disk.new) (D.moments disk.new)) }
        ensures unmoved { IsErrOf result Stop.NoMemory → D.moments disk.new ≡ D.moments disk.old }
        ensures ok { OnOk result
            (self.new ≡ record self.old { cache = map.empty; index = self.new.index }) }
        ensures err { OnErr result
            ((self.new.closed ≡ true) × (self.new.length ≡ self.old.length)) }
        ensures inside { IsBelow (D.len disk.old) self.new.cache }
        ensures stops { IsNoRefusal result }
    {
        let Ok(()) = self.cache.hold(write) else {
            self.closed = true;
            return Err(Stop::NoMemory);
        };
        self.settle(alloc, disk, steps)
    }

    // The bytes of a range with the pending writes over them.
    fn fetch<D: Disk>(
        &mut self,
        alloc: Global,
        disk: &mut D,
        at: u64,
        len: u32,
    ) -> Result<Answer, Stop>
        requires some { 1 ≤ len }
        requires few { len ≤ 65536 }
        requires inside { at + len ≤ D.len disk.old }
        requires fits { at + len < 2 ^ 64 }
        ensures sort { IfOk result (IsFetched len) }
        ensures bytes { IfOk result (λ answer. IfSome (D.bytes disk.old)
            (λ image. answer ≡ Answer.Fetched (range at len (overlaid self.old.cache 0 image)))) }
        ensures ok { OnOk result (self.new ≡ self.old) }
        ensures memory { IsErrOf result Stop.NoMemory → self.new ≡ self.old }
        ensures fault { IsErrOf result Stop.DiskFault →
            self.new ≡ record self.old { closed = true } }
        ensures stops { IsNoRefusal result }
        ensures reads { IfOk result
            (λ answer. HasReads answer (D.reads disk.old) (D.reads disk.new)) }
        ensures kept { Kept D.Disk disk.old disk.new (is_disk_fault result) }
    {
        match fetch(alloc, disk, &self.cache, at, len) {
            Ok(bytes) => Ok(Answer::Fetched(bytes)),
            Err(Fault::Disk) => {
                self.closed = true;
                Err(Stop::DiskFault)
            }
            Err(Fault::NoMemory) => Err(Stop::NoMemory),
        }
    }
}

// The stop that a fault of the judge makes.
fn stop_of(fault: Fault) -> Stop
    ensures { result ≡ stop_for fault }
{
    match fault {
        Fault::Disk => Stop::DiskFault,
        Fault::NoMemory => Stop::NoMemory,
    }
}
