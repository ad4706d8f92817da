//! What a line says.

use verdict::{Bytes, Finding};

/// A line of Recon's output. The `place` of a line is the number of a record in the trace, of which
/// the header is 0. A judged event is a settle or a commit, and is numbered from 1.
#[derive(Debug, Drop)]
pub enum Line {
    /// The image is accepted.
    Image {
        /// The generation of its superblock.
        generation: u64,
    },
    /// The image is refused.
    Refused(Finding),
    /// A judged event passed.
    Passed {
        /// Whether it is a settle, and else a commit.
        settle: bool,
        /// Its number.
        number: u64,
        /// The generation of the new superblock.
        generation: u64,
        /// How many live blocks the old and the new image do not share.
        blocks: u64,
        /// How many live blocks of the old image the event writes over or moves.
        hot: u64,
    },
    /// A judged event was rejected.
    Rejected {
        /// Whether it is a settle, and else a commit.
        settle: bool,
        /// Its number.
        number: u64,
        /// What the full check found.
        finding: Finding,
    },
    /// The answer of a fetch.
    Fetched {
        /// The byte of the device where the range begins.
        at: u64,
        /// The bytes of the range.
        bytes: Bytes,
    },
    /// The end of the trace was reached.
    End {
        /// How many judged events passed.
        passed: u64,
        /// How many were rejected.
        rejected: u64,
    },
    /// The trace is malformed.
    BadTrace {
        /// The number of the trace's fault, from 1 to 7.
        number: u8,
        /// The record at fault.
        place: u64,
    },
    /// A record passes the end of the device.
    Past {
        /// That record.
        place: u64,
        /// The byte of the device where its range begins.
        at: u64,
        /// The length of its range in bytes.
        len: u64,
        /// The length of the device in bytes.
        end: u64,
    },
}
