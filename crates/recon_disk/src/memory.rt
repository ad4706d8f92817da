//! A disk in memory, of which calls can be made to fail.

ghost use Rattle.std.specs.Prelude.{◌≡◌, ◌+◌, ◌≤◌, ◌⊎◌, Some, length, refl};
ghost use Rattle.recon_disk.specs.Memory.{listed_call, front_kept};
ghost use Rattle.verdict.specs.Image.{written};

use crate::{Disk, Failed};

/// The calls of a disk.
#[derive(Clone, Copy, Debug, PartialEq, Eq)]
pub enum Op {
    /// A question for the length.
    Length,
    /// A read.
    Read,
    /// A write.
    Write,
    /// A flush.
    Flush,
}

/// A call that is to fail.
#[derive(Clone, Copy, Debug, PartialEq, Eq)]
pub struct Fail {
    /// The kind of call.
    pub op: Op,
    /// Which call of that kind, counted from 1.
    pub nth: u64,
    /// How many bytes in front a failing write keeps. Of exactly the superblock place fewer than
    /// 4096 keep none.
    pub keep: u32,
}

/// A disk in memory, which tells its bytes, and neither what was sent to it nor what a stop would leave. The calls that its list
/// names fail, and no other.
#[derive(Drop)]
pub struct MemDisk {
    bytes: Vec<u8>,
    fails: Vec<Fail>,
    lengths: u64,
    reads: u64,
    writes: u64,
    flushes: u64,
    faults: u64,
}

impl MemDisk {
    ghost use Rattle.recon_disk.specs.Memory.{bytes_in, fails_of, calls_of, no_calls, reads_of, faults_of};
    ghost use Rattle.recon_disk.specs.Memory.{after_call};
    ghost use Rattle.recon_disk.specs.Outside.{counted};

    /// A disk that holds these bytes, with the calls that are to fail. Nothing was called yet.
    pub fn new(bytes: Vec<u8>, fails: Vec<Fail>) -> MemDisk
        ensures bytes { bytes_in result ≡ bytes.items }
        ensures fails { fails_of result ≡ fails.items }
        ensures calls { calls_of result ≡ no_calls }
        ensures reads { reads_of result ≡ 0 }
        ensures faults { faults_of result ≡ 0 }
    {
        MemDisk {
            bytes,
            fails,
            lengths: 0,
            reads: 0,
            writes: 0,
            flushes: 0,
            faults: 0,
        }
    }

    /// The bytes, lent.
    pub fn bytes(&self) -> &[u8]
        ensures { result.now ≡ bytes_in self.now }
    {
        self.bytes.as_slice()
    }

    /// How often `read` was called.
    pub fn reads(&self) -> u64
        ensures { result ≡ reads_of self.now }
    {
        self.reads
    }

    /// How often a call failed.
    pub fn faults(&self) -> u64
        ensures { result ≡ faults_of self.now }
    {
        self.faults
    }

    // Counts a call of a kind, and a fault.
    pub(crate) fn refuse(&mut self, op: Op)
        ensures bytes { bytes_in self.new ≡ bytes_in self.old }
        ensures list { fails_of self.new ≡ fails_of self.old }
        ensures calls { calls_of self.new ≡ after_call op (calls_of self.old) }
        ensures faults { faults_of self.new ≡ counted (faults_of self.old) }
        ensures grows { faults_of self.old ≤ faults_of self.new }
    {
        match op {
            Op::Length => self.lengths = self.lengths.saturating_add(1),
            Op::Read => self.reads = self.reads.saturating_add(1),
            Op::Write => self.writes = self.writes.saturating_add(1),
            Op::Flush => self.flushes = self.flushes.saturating_add(1),
        }
        self.faults = self.faults.saturating_add(1);
    }
}

// The first entry of the list that names this call.
#[tactic(auto, unfolding(crate::specs::Memory::listed_call))]
fn listed(fails: &[Fail], op: Op, nth: u64) -> Option<Fail>
    ensures { result ≡ listed_call fails.now op nth }
{
    fails.iter().copied().find(|f| f.op == op && f.nth == nth)
}

impl Disk for MemDisk {
    ghost use Rattle.std.specs.Prelude.{◌<◌, None, IfOk, OnOk, OnErr, is_err, is_some};
    ghost use Rattle.recon_disk.specs.declared.memory.Op.TheVariants.{Length};
    ghost use Rattle.verdict.specs.Image.{range};
    ghost use Rattle.recon_disk.specs.Outside.{HasCause, MayBeWritten, counted};
    ghost use Rattle.recon_disk.specs.Memory.{bytes_in, reads_of, faults_of, IsCalled, left_by, fail_of_next};

    ghost len = { λ d. length d.bytes.items };

    ghost bytes = { λ d. Some d.bytes.items };

    ghost sent = { λ d. None };

    ghost moments = { λ d. None };

    ghost queue = { λ d. None };

    ghost reads = { λ d. d.reads };

    ghost faults = { λ d. d.faults };

    ghost hides_length = { λ d. is_some (fail_of_next Length d) };

    ghost told_length = { λ d. refl };

    ghost told_moments = { λ d. tt };

    fn length(&mut self) -> Result<u64, Failed>
        ensures hidden { is_err result ≡ is_some (fail_of_next Op.Length self.old) }
        ensures value { IfOk result (λ n. n ≡ length (bytes_in self.old)) }
        ensures len { length (bytes_in self.new) ≡ length (bytes_in self.old) }
        ensures bytes { Some (bytes_in self.new) ≡ Some (bytes_in self.old) }
        ensures reads { reads_of self.new ≡ reads_of self.old }
        ensures cause { HasCause (faults_of self.old) (faults_of self.new) result }
        ensures called { IsCalled Op.Length self.old self.new result }
    {
        self.lengths = self.lengths.saturating_add(1);
        if listed(&self.fails, Op::Length, self.lengths).is_some() {
            self.faults = self.faults.saturating_add(1);
            return Err(Failed);
        }
        Ok(self.bytes.len() as u64)
    }

    fn read(&mut self, at: u64, into: &mut [u8]) -> Result<(), Failed>
        requires some { 0 < length into.old }
        requires few { length into.old ≤ 65536 }
        requires inside { at + length into.old ≤ length (bytes_in self.old) }
        ensures told { OnOk result (into.new ≡ range at (length into.old) (bytes_in self.old)) }
        ensures len { length (bytes_in self.new) ≡ length (bytes_in self.old) }
        ensures bytes { Some (bytes_in self.new) ≡ Some (bytes_in self.old) }
        ensures reads { reads_of self.new ≡ counted (reads_of self.old) }
        ensures cause { HasCause (faults_of self.old) (faults_of self.new) result }
        ensures called { IsCalled Op.Read self.old self.new result }
    {
        self.reads = self.reads.saturating_add(1);
        if listed(&self.fails, Op::Read, self.reads).is_some() {
            self.faults = self.faults.saturating_add(1);
            return Err(Failed);
        }
        let from = at as usize;
        into.copy_from_slice(&self.bytes[from..from + into.len()]);
        Ok(())
    }

    fn write(&mut self, at: u64, from: &[u8]) -> Result<(), Failed>
        requires some { 0 < length from.now }
        requires few { length from.now ≤ 1048576 }
        requires inside { at + length from.now ≤ length (bytes_in self.old) }
        ensures written { OnOk result (Some (bytes_in self.new) ≡
            Some (written (bytes_in self.old) at from.now)) }
        ensures partly { OnErr result
            (MayBeWritten (Some (bytes_in self.old)) at from.now (Some (bytes_in self.new))) }
        ensures len { length (bytes_in self.new) ≡ length (bytes_in self.old) }
        ensures reads { reads_of self.new ≡ reads_of self.old }
        ensures cause { HasCause (faults_of self.old) (faults_of self.new) result }
        ensures called { IsCalled Op.Write self.old self.new result }
        ensures left { bytes_in self.new ≡
            left_by (fail_of_next Op.Write self.old) (bytes_in self.old) at from.now }
    {
        self.writes = self.writes.saturating_add(1);
        if let Some(fail) = listed(&self.fails, Op::Write, self.writes) {
            self.faults = self.faults.saturating_add(1);
            let keep = kept_of(at, from, fail.keep as usize);
            overwrite(&mut self.bytes, at as usize, &from[..keep]);
            return Err(Failed);
        }
        overwrite(&mut self.bytes, at as usize, from);
        Ok(())
    }

    fn flush(&mut self) -> Result<(), Failed>
        ensures len { length (bytes_in self.new) ≡ length (bytes_in self.old) }
        ensures bytes { Some (bytes_in self.new) ≡ Some (bytes_in self.old) }
        ensures reads { reads_of self.new ≡ reads_of self.old }
        ensures cause { HasCause (faults_of self.old) (faults_of self.new) result }
        ensures called { IsCalled Op.Flush self.old self.new result }
    {
        self.flushes = self.flushes.saturating_add(1);
        if listed(&self.fails, Op::Flush, self.flushes).is_some() {
            self.faults = self.faults.saturating_add(1);
            return Err(Failed);
        }
        Ok(())
    }
}

// How many bytes of a failing write stay.
fn kept_of(at: u64, from: &[u8], keep: usize) -> usize
    ensures front { result ≡ front_kept at (length from.now) keep }
    ensures within { result ≤ length from.now }
    ensures whole { at ≡ 65536 → length from.now ≡ 4096
        → (result ≡ 0) ⊎ (result ≡ 4096) }
{
    let keep = keep.min(from.len());
    if at == 65536 && from.len() == 4096 && keep < 4096 {
        0
    } else {
        keep
    }
}

// Puts these bytes over the range that begins at a place.
#[tactic(auto, unfolding(verdict::specs::Image::written))]
fn overwrite(bytes: &mut Vec<u8>, at: usize, from: &[u8])
    requires { at + length from.now ≤ length bytes.old.items }
    ensures bytes { bytes.new.items ≡ written bytes.old.items at from.now }
    ensures len { length bytes.new.items ≡ length bytes.old.items }
{
    bytes[at..at + from.len()].copy_from_slice(from);
}
