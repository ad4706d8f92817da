//! A disk in memory that tells what a stop would leave.

ghost use Rattle.std.specs.Prelude.{◌≡◌, ◌+◌, ◌≤◌, true, false, length};
ghost use Rattle.std.specs.Prelude.{vec_len, vec_capacity};

use crate::{Disk, Fail, Failed, MemDisk, Op};
use std::alloc::Global;
use verdict::NoMemory;

// A record of a write, or of a flush that answered Ok.
#[derive(Clone, Copy)]
enum Record {
    // A write of so many bytes from an offset on.
    Wrote(u64, usize),
    // A write of exactly the superblock place that left other bytes there than its own.
    Missed,
    // A flush.
    Flushed,
}

/// A disk in memory as `MemDisk`, which tells as well what a stop at each moment so far would
/// leave. For that it records each write, with the bytes that it replaced, and each flush that
/// answered Ok. The calls that its list names fail, and the writes and flushes for which it has no
/// record or too little room left, and no other. It takes memory when it is made, and in no other
/// call.
#[derive(Drop)]
pub struct StopDisk {
    disk: MemDisk,
    records: Vec<Record>,
    replaced: Vec<u8>,
    calls: usize,
    room: usize,
    ghost few: { vec_len records ≤ calls },
    ghost fits: { vec_len replaced ≤ room },
    ghost has_records: { calls ≤ vec_capacity records },
    ghost has_room: { room ≤ vec_capacity replaced },
}

impl StopDisk {
    ghost use Rattle.std.specs.Prelude.{IfOk, [], ◌∷◌};
    ghost use Rattle.recon_disk.specs.Memory.{bytes_in, fails_of, calls_of, no_calls};
    ghost use Rattle.recon_disk.specs.Memory.{reads_of, faults_of};
    ghost use Rattle.recon_disk.specs.Stops.{flushed_as};
    ghost use Rattle.recon_disk.specs.Stopping.{disk_of, moments_of, records_left, room_left};

    /// A disk that holds these bytes, with the calls that are to fail, as those of a `MemDisk`.
    /// Nothing was called yet, and the bytes count as flushed. There is memory to record `calls`
    /// writes and flushes and `room` bytes that writes replace, else it answers `NoMemory`. A write
    /// counts there with its length, whatever it changed, also where the list fails it. A write or
    /// flush where `calls` are recorded, and a write of more bytes than are left of `room`, fails,
    /// changes no byte and is not recorded, whatever the list says.
    pub fn new(
        alloc: Global,
        bytes: Vec<u8>,
        fails: Vec<Fail>,
        calls: usize,
        room: usize,
    ) -> Result<StopDisk, NoMemory>
        ensures bytes { IfOk result (λ d. bytes_in (disk_of d) ≡ bytes.items) }
        ensures fails { IfOk result (λ d. fails_of (disk_of d) ≡ fails.items) }
        ensures calls { IfOk result (λ d. calls_of (disk_of d) ≡ no_calls) }
        ensures reads { IfOk result (λ d. reads_of (disk_of d) ≡ 0) }
        ensures faults { IfOk result (λ d. faults_of (disk_of d) ≡ 0) }
        ensures records { IfOk result (λ d. records_left d ≡ calls) }
        ensures room { IfOk result (λ d. room_left d ≡ room) }
        ensures settled { IfOk result (λ d. moments_of d ≡ flushed_as bytes.items ∷ []) }
    {
        let records = Vec::with_capacity(alloc, calls)?;
        let replaced = Vec::with_capacity(alloc, room)?;
        Ok(StopDisk {
            disk: MemDisk::new(bytes, fails),
            records,
            replaced,
            calls,
            room,
        })
    }

    /// The bytes, lent.
    pub fn bytes(&self) -> &[u8]
        ensures { result.now ≡ bytes_in (disk_of self.now) }
    {
        self.disk.bytes()
    }

    /// How often `read` was called.
    pub fn reads(&self) -> u64
        ensures { result ≡ reads_of (disk_of self.now) }
    {
        self.disk.reads()
    }

    /// How often a call failed.
    pub fn faults(&self) -> u64
        ensures { result ≡ faults_of (disk_of self.now) }
    {
        self.disk.faults()
    }
}

// Whether a write of exactly the superblock place left other bytes than its own.
fn is_missed(at: u64, from: &[u8], left: &[u8]) -> bool
    ensures missed { result ≡ true → (at ≡ 65536) × (length from.now ≡ 4096) }
    ensures other { result ≡ true → left.now ≡ from.now → ⊥ }
    ensures stands { result ≡ false → at ≡ 65536 → length from.now ≡ 4096
        → left.now ≡ from.now }
{
    at == 65536 && from.len() == 4096 && left != from
}

impl Disk for StopDisk {
    ghost use Rattle.std.specs.Prelude.{◌-◌, ◌<◌, ◌∷◌, reverse, Some, None, IfOk, OnOk, OnErr};
    ghost use Rattle.std.specs.Prelude.{is_err, is_some, if◌then◌else◌, refl};
    ghost use Rattle.recon_disk.specs.declared.memory.Op.TheVariants.{Length};
    ghost use Rattle.verdict.specs.Image.{range, written};
    ghost use Rattle.recon_disk.specs.Outside.{HasCause, MayBeWritten, counted};
    ghost use Rattle.recon_disk.specs.Memory.{bytes_in, reads_of, faults_of};
    ghost use Rattle.recon_disk.specs.Memory.{IsCalled, left_by, fail_of_next};
    ghost use Rattle.recon_disk.specs.Stops.{flushed_as, unflushed, with_write};
    ghost use Rattle.recon_disk.specs.Stopping.{disk_of, moments_of, records_left, room_left};
    ghost use Rattle.recon_disk.specs.Stopping.{is_full, IsAsLeft, IsRecorded};
    ghost use Rattle.recon_disk.specs.StoppingLaws.{remains};

    ghost len = { λ d. length (bytes_in (disk_of d)) };

    ghost bytes = { λ d. Some (bytes_in (disk_of d)) };

    ghost sent = { λ d. None };

    ghost moments = { λ d. Some (moments_of d) };

    ghost queue = { λ d. None };

    ghost reads = { λ d. reads_of (disk_of d) };

    ghost faults = { λ d. faults_of (disk_of d) };

    ghost hides_length = { λ d. is_some (fail_of_next Length (disk_of d)) };

    ghost told_length = { λ d. refl };

    ghost told_moments = { λ d.
        remains (reverse d.records.items) d.replaced.items (bytes_in (disk_of d)) };

    fn length(&mut self) -> Result<u64, Failed>
        ensures hidden { is_err result ≡ is_some (fail_of_next Op.Length (disk_of self.old)) }
        ensures value { IfOk result (λ n. n ≡ length (bytes_in (disk_of self.old))) }
        ensures bytes { bytes_in (disk_of self.new) ≡ bytes_in (disk_of self.old) }
        ensures moments { moments_of self.new ≡ moments_of self.old }
        ensures reads { reads_of (disk_of self.new) ≡ reads_of (disk_of self.old) }
        ensures cause { HasCause
            (faults_of (disk_of self.old)) (faults_of (disk_of self.new)) result }
        ensures called { IsCalled Op.Length (disk_of self.old) (disk_of self.new) result }
        ensures left { IsAsLeft self.old self.new }
    {
        self.disk.length()
    }

    fn read(&mut self, at: u64, into: &mut [u8]) -> Result<(), Failed>
        requires some { 0 < length into.old }
        requires few { length into.old ≤ 65536 }
        requires inside { at + length into.old ≤ length (bytes_in (disk_of self.old)) }
        ensures told { OnOk result
            (into.new ≡ range at (length into.old) (bytes_in (disk_of self.old))) }
        ensures bytes { bytes_in (disk_of self.new) ≡ bytes_in (disk_of self.old) }
        ensures moments { moments_of self.new ≡ moments_of self.old }
        ensures reads { reads_of (disk_of self.new) ≡ counted (reads_of (disk_of self.old)) }
        ensures cause { HasCause
            (faults_of (disk_of self.old)) (faults_of (disk_of self.new)) result }
        ensures called { IsCalled Op.Read (disk_of self.old) (disk_of self.new) result }
        ensures left { IsAsLeft self.old self.new }
    {
        self.disk.read(at, into)
    }

    fn write(&mut self, at: u64, from: &[u8]) -> Result<(), Failed>
        requires some { 0 < length from.now }
        requires few { length from.now ≤ 1048576 }
        requires inside { at + length from.now ≤ length (bytes_in (disk_of self.old)) }
        ensures written { OnOk result (bytes_in (disk_of self.new) ≡
            written (bytes_in (disk_of self.old)) at from.now) }
        ensures partly { OnErr result (MayBeWritten
            (Some (bytes_in (disk_of self.old))) at from.now (Some (bytes_in (disk_of self.new)))) }
        ensures moments { OnOk result (moments_of self.new ≡
            with_write (moments_of self.old) (unflushed at from.now)) }
        ensures perhaps { OnErr result (moments_of self.new ≡
            (if is_full self.old (length from.now)
            then moments_of self.old
            else with_write (moments_of self.old) (unflushed at from.now))) }
        ensures len { length (bytes_in (disk_of self.new))
            ≡ length (bytes_in (disk_of self.old)) }
        ensures reads { reads_of (disk_of self.new) ≡ reads_of (disk_of self.old) }
        ensures cause { HasCause
            (faults_of (disk_of self.old)) (faults_of (disk_of self.new)) result }
        ensures recorded { IsRecorded Op.Write (length from.now) self.old self.new result }
        ensures left { bytes_in (disk_of self.new) ≡ (if is_full self.old (length from.now)
            then bytes_in (disk_of self.old)
            else left_by (fail_of_next Op.Write (disk_of self.old))
            (bytes_in (disk_of self.old)) at from.now) }
        ensures records { records_left self.new ≡ (if is_full self.old (length from.now)
            then records_left self.old else records_left self.old - 1) }
        ensures room { room_left self.new ≡ (if is_full self.old (length from.now)
            then room_left self.old else room_left self.old - length from.now) }
    {
        if self.records.len() == self.calls || from.len() > self.room - self.replaced.len() {
            self.disk.refuse(Op::Write);
            return Err(Failed);
        }
        let start = at as usize;
        let end = start + from.len();
        let begun = self.replaced.len();
        let replaced = &self.disk.bytes()[start..end];
        self.replaced.extend_from_slice(replaced).unwrap();
        let answer = self.disk.write(at, from);
        if is_missed(at, from, &self.disk.bytes()[start..end]) {
            self.replaced.truncate(begun);
            self.replaced.extend_from_slice(from).unwrap();
            self.records.push(Record::Missed).unwrap();
            return answer;
        }
        self.records.push(Record::Wrote(at, from.len())).unwrap();
        answer
    }

    fn flush(&mut self) -> Result<(), Failed>
        ensures bytes { bytes_in (disk_of self.new) ≡ bytes_in (disk_of self.old) }
        ensures settled { OnOk result (moments_of self.new ≡
            flushed_as (bytes_in (disk_of self.old)) ∷ moments_of self.old) }
        ensures unsettled { OnErr result (moments_of self.new ≡ moments_of self.old) }
        ensures reads { reads_of (disk_of self.new) ≡ reads_of (disk_of self.old) }
        ensures cause { HasCause
            (faults_of (disk_of self.old)) (faults_of (disk_of self.new)) result }
        ensures recorded { IsRecorded Op.Flush 0 self.old self.new result }
        ensures records { records_left self.new ≡ (if is_err result
            then records_left self.old else records_left self.old - 1) }
        ensures room { room_left self.new ≡ room_left self.old }
    {
        if self.records.len() == self.calls {
            self.disk.refuse(Op::Flush);
            return Err(Failed);
        }
        self.disk.flush()?;
        self.records.push(Record::Flushed).unwrap();
        Ok(())
    }
}
