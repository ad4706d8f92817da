//! A file as a disk.

ghost use Rattle.std.specs.Prelude.{◌≡◌, IsErr, IsTrue, None, false};
ghost use Rattle.recon_disk.specs.Outside.{HasCause};

use crate::lock::{LockFile, Sharing};
use recon_disk::{Disk, Failed};
use std::fs::{OpenFile, OpenOptions, TryLockError};
use std::io::{Seek, SeekFrom};
use std::os::unix::fs::FileExt;
use std::rt::Files;

/// A file or a block device as a disk. It tells no bytes, and not what was sent to it. Where the file
/// could not be opened for reading and writing or not be locked, or its length could not be learned then, each
/// call fails. The lock is held until the disk is dropped.
#[derive(Drop)]
pub struct FileDisk<F: FileExt + Seek + OpenFile + LockFile + Drop> {
    file: Option<F>,
    // Whether another program holds the file.
    in_use: bool,
    size: u64,
    reads: u64,
    faults: u64,
}

impl<F: FileExt + Seek + OpenFile + LockFile + Drop> FileDisk<F> {
    ghost use Rattle.recon_host.specs.FileDisk.{is_opened, is_held, size_of, reads_of, faults_of};

    /// The disk that is the file at a path, locked against programs that may not share it. Its length is the one
    /// learned here, in bytes.
    pub fn at_path<R: Files<File = F>>(rt: &R, path: &str, sharing: Sharing) -> FileDisk<F>
        ensures untold { ⟦<FileDisk<F> as Disk>⟧.bytes result ≡ None }
        ensures reads { ⟦<FileDisk<F> as Disk>⟧.reads result ≡ 0 }
        ensures faults { ⟦<FileDisk<F> as Disk>⟧.faults result ≡ 0 }
        ensures held { IsTrue (is_held result) → is_opened result ≡ false }
    {
        let (file, in_use, size) = match opened(rt, path, sharing) {
            Opening::Opened(file, size) => (Some(file), false, size),
            Opening::InUse => (None, true, 0),
            Opening::Failed => (None, false, 0),
        };
        FileDisk {
            file,
            in_use,
            size,
            reads: 0,
            faults: 0,
        }
    }

    /// Whether the file was opened for reading and writing and locked, and its length learned.
    pub fn is_open(&self) -> bool
        ensures { result ≡ is_opened self.now }
    {
        self.file.is_some()
    }

    /// Whether the file was not locked since another program holds it.
    pub fn is_in_use(&self) -> bool
        ensures { result ≡ is_held self.now }
    {
        self.in_use
    }

    // Counts a failed call, and gives its answer.
    fn failed<T>(&mut self) -> Result<T, Failed>
        ensures opened { is_opened self.new ≡ is_opened self.old }
        ensures size { size_of self.new ≡ size_of self.old }
        ensures reads { reads_of self.new ≡ reads_of self.old }
        ensures err { IsErr result }
        ensures cause { HasCause (faults_of self.old) (faults_of self.new) result }
    {
        self.faults = self.faults.saturating_add(1);
        Err(Failed)
    }
}

// What came of opening a file: the file with its length in bytes, or not.
enum Opening<F> {
    Opened(F, u64),
    InUse,
    Failed,
}

// The file, opened for reading and writing and locked, with its length: where the end lies, since a block
// device has no length of its own.
fn opened<R: Files>(rt: &R, path: &str, sharing: Sharing) -> Opening<R::File>
where
    R::File: LockFile,
{
    let Ok(mut file) = OpenOptions::new().read(true).write(true).open(rt, path) else {
        return Opening::Failed;
    };
    match file.lock_as(sharing) {
        Ok(()) => {}
        Err(TryLockError::WouldBlock) => return Opening::InUse,
        Err(TryLockError::Error(_)) => return Opening::Failed,
    }
    match file.seek(SeekFrom::End(0)) {
        Ok(size) => Opening::Opened(file, size),
        Err(_) => Opening::Failed,
    }
}

impl<F: FileExt + Seek + OpenFile + LockFile + Drop> Disk for FileDisk<F> {
    ghost use Rattle.std.specs.Prelude.{false, not, is_err, None, IfOk};
    ghost use Rattle.recon_disk.specs.Outside.{counted};
    ghost use Rattle.recon_host.specs.FileDisk.{is_opened, size_of, reads_of, faults_of};

    ghost len = { λ d. d.size };

    ghost bytes = { λ d. None };

    ghost sent = { λ d. None };

    ghost moments = { λ d. None };

    ghost queue = { λ d. None };

    ghost reads = { λ d. d.reads };

    ghost faults = { λ d. d.faults };

    ghost hides_length = { λ d. not (is_opened d) };

    ghost told_length = { λ d. tt };

    ghost told_moments = { λ d. tt };

    fn length(&mut self) -> Result<u64, Failed>
        ensures hidden { is_err result ≡ not (is_opened self.old) }
        ensures stays { is_opened self.new ≡ is_opened self.old }
        ensures value { IfOk result (λ n. n ≡ size_of self.old) }
        ensures len { size_of self.new ≡ size_of self.old }
        ensures reads { reads_of self.new ≡ reads_of self.old }
        ensures cause { HasCause (faults_of self.old) (faults_of self.new) result }
    {
        if self.file.is_none() {
            return self.failed();
        }
        Ok(self.size)
    }

    fn read(&mut self, at: u64, into: &mut [u8]) -> Result<(), Failed>
        ensures unopened { is_opened self.old ≡ false → IsErr result }
        ensures stays { is_opened self.new ≡ is_opened self.old }
        ensures len { size_of self.new ≡ size_of self.old }
        ensures reads { reads_of self.new ≡ counted (reads_of self.old) }
        ensures cause { HasCause (faults_of self.old) (faults_of self.new) result }
    {
        self.reads = self.reads.saturating_add(1);
        if let Some(file) = &self.file
            && file.read_exact_at(into, at).is_ok()
        {
            return Ok(());
        }
        self.failed()
    }

    fn write(&mut self, at: u64, from: &[u8]) -> Result<(), Failed>
        ensures unopened { is_opened self.old ≡ false → IsErr result }
        ensures stays { is_opened self.new ≡ is_opened self.old }
        ensures len { size_of self.new ≡ size_of self.old }
        ensures reads { reads_of self.new ≡ reads_of self.old }
        ensures cause { HasCause (faults_of self.old) (faults_of self.new) result }
    {
        if let Some(file) = &self.file
            && file.write_all_at(from, at).is_ok()
        {
            return Ok(());
        }
        self.failed()
    }

    fn flush(&mut self) -> Result<(), Failed>
        ensures unopened { is_opened self.old ≡ false → IsErr result }
        ensures stays { is_opened self.new ≡ is_opened self.old }
        ensures len { size_of self.new ≡ size_of self.old }
        ensures reads { reads_of self.new ≡ reads_of self.old }
        ensures cause { HasCause (faults_of self.old) (faults_of self.new) result }
    {
        if let Some(file) = &self.file
            && file.sync_data().is_ok()
        {
            return Ok(());
        }
        self.failed()
    }
}
