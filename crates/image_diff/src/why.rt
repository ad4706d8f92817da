//! Why nothing is printed.

use block_source::{Fault, Halt};
use std::alloc::AllocError;
use std::{fmt, io};
use verdict::{Finding, NoMemory};

/// Why nothing is printed.
#[derive(Clone, Copy)]
pub enum Why {
    /// The command line is none of the program's.
    Arguments,
    /// A file could not be read, or a line not be written.
    File,
    /// The images differ in length.
    Lengths,
    /// Out of memory.
    Memory,
    /// A rule fails: on a superblock, or on what the old image holds.
    Found(Finding),
    /// Root items stand twice or in another order than that of their keys.
    Roots,
    /// A read failed.
    Disk,
}

impl From<io::Error> for Why {
    fn from(_error: io::Error) -> Why {
        Why::File
    }
}

impl From<NoMemory> for Why {
    fn from(_none: NoMemory) -> Why {
        Why::Memory
    }
}

impl From<AllocError> for Why {
    fn from(_none: AllocError) -> Why {
        Why::Memory
    }
}

impl From<Finding> for Why {
    fn from(finding: Finding) -> Why {
        Why::Found(finding)
    }
}

impl From<Fault> for Why {
    fn from(fault: Fault) -> Why {
        match fault {
            Fault::Disk => Why::Disk,
            Fault::NoMemory => Why::Memory,
        }
    }
}

impl From<Halt> for Why {
    fn from(halt: Halt) -> Why {
        match halt {
            Halt::Found(finding) => Why::Found(finding),
            Halt::Disk => Why::Disk,
            Halt::NoMemory => Why::Memory,
        }
    }
}

impl fmt::Display for Why {
    fn fmt<W: fmt::Write>(&self, f: &mut fmt::Formatter<W>) -> fmt::Result {
        match self {
            Why::Arguments => write!(f, "usage: changes OLD NEW"),
            Why::File => write!(f, "a file could not be read, or a line not be written"),
            Why::Lengths => write!(f, "the images differ in length"),
            Why::Memory => write!(f, "out of memory"),
            Why::Roots => write!(f, "the root items do not ascend"),
            Why::Disk => write!(f, "a read failed"),
            Why::Found(finding) => {
                let letter = char::from(finding.rule.family.letter());
                write!(
                    f,
                    "found {letter}{} tree {} block {}",
                    finding.rule.number, finding.tree, finding.block
                )
            }
        }
    }
}
