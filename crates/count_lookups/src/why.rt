//! Why a replay ends before the end tag.

use std::{fmt, io};
use trace_reader::TraceFault;
use verdict::{Finding, NoMemory, Stop};

/// Why a replay ends before the end tag.
#[derive(Clone, Copy)]
pub enum Why {
    /// The command line is none of the program's.
    Arguments,
    /// The full check refuses the image.
    Refused(Finding),
    /// This record of the trace is malformed.
    Trace(u64),
    /// This record passes the end of the image.
    Past(u64),
    /// A file could not be read, or a line not be written.
    File,
    /// A call of the disk failed.
    Disk,
    /// Out of memory.
    Memory,
}

impl Why {
    /// The status with which the program ends.
    pub fn status(&self) -> u8 {
        match self {
            Why::Refused(_) => 1,
            Why::Arguments => 2,
            Why::Trace(_) | Why::Past(_) => 3,
            Why::File | Why::Disk | Why::Memory => 4,
        }
    }

    /// Why a trace gives no record with this number.
    pub fn of_trace(fault: TraceFault, record: u64) -> Why {
        match fault {
            TraceFault::ReadFault => Why::File,
            TraceFault::NoMemory => Why::Memory,
            _ => Why::Trace(record),
        }
    }

    /// Why the record with this number has no answer.
    pub fn of_stop(stop: Stop, record: u64) -> Why {
        match stop {
            Stop::PastEnd { .. } => Why::Past(record),
            Stop::NoMemory => Why::Memory,
            Stop::DiskFault | Stop::Closed => Why::Disk,
        }
    }
}

impl From<io::Error> for Why {
    fn from(_error: io::Error) -> Why {
        Why::File
    }
}

impl From<NoMemory> for Why {
    fn from(_none: NoMemory) -> Why {
        Why::Memory
    }
}

impl fmt::Display for Why {
    fn fmt<W: fmt::Write>(&self, f: &mut fmt::Formatter<W>) -> fmt::Result {
        match self {
            Why::Arguments => write!(f, "usage: looks IMAGE TRACE"),
            Why::Refused(finding) => {
                let letter = char::from(finding.rule.family.letter());
                write!(
                    f,
                    "the image is refused: {letter}{} tree {} block {}",
                    finding.rule.number, finding.tree, finding.block
                )
            }
            Why::Trace(record) => write!(f, "record {record} of the trace is malformed"),
            Why::Past(record) => write!(f, "record {record} passes the end of the image"),
            Why::File => write!(f, "a file could not be read, or a line not be written"),
            Why::Disk => write!(f, "a call of the disk failed"),
            Why::Memory => write!(f, "out of memory"),
        }
    }
}
