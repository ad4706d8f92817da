//! The events that the checking machine takes, and what it answers.

ghost use Rattle.std.specs.Prelude.{◌≡◌};
ghost use Rattle.verdict.specs.Events.{begin_of, length_of, meets_superblock};

use crate::{Bytes, Finding};

/// The byte of the device where the superblock place begins.
pub const SUPERBLOCK_AT: u64 = 65_536;

/// The size of the superblock place in bytes.
pub const SUPERBLOCK_SIZE: u64 = 4096;

/// One step of a file system's traffic with its device, which runs to its end before the next.
#[derive(Debug, Drop)]
pub enum Event {
    /// Bytes to be written, 1 to 1,048,576 of them.
    Write {
        /// Who sent it. The number decides nothing.
        submitter: u16,
        /// The byte of the device where it begins.
        at: u64,
        /// What is written.
        bytes: Bytes,
    },
    /// A request that all pending writes be judged and let through.
    Settle,
    /// A request for bytes of the device as they read with all pending writes over them.
    Fetch {
        /// The byte of the device where the range begins.
        at: u64,
        /// The number of bytes, 1 to 65,536.
        len: u32,
    },
}

impl Event {
    /// Where the range of the event begins on the device, and its length, in bytes. Both are 0 where it
    /// has none.
    pub fn range(&self) -> (u64, u64)
        ensures at { result.0 ≡ begin_of self.now }
        ensures len { result.1 ≡ length_of self.now }
    {
        match self {
            Event::Write { at, bytes, .. } => (*at, bytes.as_slice().len() as u64),
            Event::Settle => (0, 0),
            Event::Fetch { at, len } => (*at, u64::from(*len)),
        }
    }
}

/// Whether a range of `len` bytes from the byte `at` of the device on has one of the superblock place. A range of no
/// bytes has none.
pub fn meets_superblock(at: u64, len: u64) -> bool
    ensures { result ≡ meets_superblock at len }
{
    len > 0
        && at < SUPERBLOCK_AT + SUPERBLOCK_SIZE
        && (at > SUPERBLOCK_AT || len > SUPERBLOCK_AT - at)
}

/// A pending write: where it begins, and its bytes.
#[derive(Debug, Drop)]
pub struct HeldWrite {
    /// The byte of the device where it begins.
    pub at: u64,
    /// What is to be written.
    pub bytes: Bytes,
}

/// What the checking machine answers to an event that it took.
#[derive(Debug, Drop)]
pub enum Answer {
    /// The write is pending.
    Held,
    /// The bytes asked for.
    Fetched(Bytes),
    /// The image that the event would make is one that the full check accepts, and the device
    /// now holds it.
    Passed {
        /// The generation of the new superblock.
        generation: u64,
        /// How many live blocks, of the old image and of the new, the two do not share.
        blocks: u64,
        /// How many live blocks of the old image the event writes over or moves.
        hot: u64,
    },
    /// The full check's finding of the image that the event would make. The device stays as it
    /// was, and no write is pending.
    Rejected(Finding),
}

/// Why the checking machine did not answer an event.
#[derive(Clone, Copy, Debug, PartialEq, Eq)]
pub enum Stop {
    /// The event's range passes the end of the device. All stays.
    PastEnd {
        /// The byte where the range begins.
        at: u64,
        /// The length of the range in bytes.
        len: u64,
        /// The length of the device in bytes.
        end: u64,
    },
    /// A call of the device failed.
    DiskFault,
    /// An earlier event closed the machine.
    Closed,
    /// Out of memory.
    NoMemory,
}
