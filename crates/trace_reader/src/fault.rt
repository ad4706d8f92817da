//! What can be wrong with a trace.

ghost use Rattle.std.specs.Prelude.{◌≡◌};
ghost use Rattle.trace_reader.specs.Fault.{fault_number};

use thiserror::Error;

/// Why a trace gave no further event. Its header is record 0, and its records are numbered from 1.
#[derive(Clone, Copy, Debug, PartialEq, Eq, Error)]
pub enum TraceFault {
    /// The first 16 bytes are another header.
    #[error("the trace begins with another header")]
    BadHeader,
    /// A record begins with a tag that no record has.
    #[error("a record has an unknown tag")]
    BadTag,
    /// A record's length is out of its range.
    #[error("a record's length is out of its range")]
    BadLength,
    /// The source ends before the header, a record or the end tag is whole.
    #[error("the trace is cut")]
    Truncated,
    /// A call of the source failed.
    #[error("the trace could not be read")]
    ReadFault,
    /// Out of memory for the bytes of a write.
    #[error("memory for a write is wanting")]
    NoMemory,
    /// As many records as there may be are followed by another.
    #[error("the trace has too many records")]
    TooMany,
}

impl TraceFault {
    /// The fault's number, from 1 to 7. The line of a fault prints it, with the name that it has there.
    pub fn number(&self) -> u8
        ensures { result ≡ fault_number self.now }
    {
        match self {
            TraceFault::BadHeader => 1,
            TraceFault::BadTag => 2,
            TraceFault::BadLength => 3,
            TraceFault::Truncated => 4,
            TraceFault::ReadFault => 5,
            TraceFault::NoMemory => 6,
            TraceFault::TooMany => 7,
        }
    }
}
