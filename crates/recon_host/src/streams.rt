//! The standard streams that are closed.

use std::fs::OpenOptions;
use std::io;
use std::rt::Files;

/// Opened for writing alone, this file gives no byte to a read and takes none from a write: both fail.
const FULL: &str = "/dev/full";

/// Three files that keep other files away from the standard streams.
///
/// The system gives a file the lowest descriptor that is free: where a standard stream is closed, the next
/// file takes its place, and would be read as the trace or be written over by the lines. While these are
/// held, each of the descriptors 0, 1 and 2 is taken. A read of a stream that was closed then fails, and so
/// does a write.
#[derive(Drop)]
pub struct HeldStreams<F: Drop> {
    _input: F,
    _output: F,
    _error: F,
}

impl<F: Drop> HeldStreams<F> {
    /// Takes the descriptors of the standard streams that are closed. It has to come before any other file
    /// is opened that is to be held. It fails where the system does not open the file for it.
    pub fn take<R: Files<File = F>>(rt: &R) -> io::Result<HeldStreams<F>> {
        Ok(HeldStreams {
            _input: full(rt)?,
            _output: full(rt)?,
            _error: full(rt)?,
        })
    }
}

// The file, opened for writing alone.
fn full<R: Files>(rt: &R) -> io::Result<R::File> {
    OpenOptions::new().write(true).open(rt, FULL)
}
