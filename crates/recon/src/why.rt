//! Why a run ended before its outcome, as standard error says it. The lines of a run are on standard output.

use std::fmt;

// What the program does and how it is called, a line for each command.
const HELP: &str = "checks a Btrfs volume, and each commit to it before the commit reaches the disk

usage:
  recon check IMAGE                       check the whole volume in IMAGE
  recon replay [--json] IMAGE < TRACE     judge recorded writes over IMAGE, and write to it what passes
  recon make SEED COMMITS IMAGE > TRACE   write a small volume to IMAGE, and to TRACE 1 to 200 commits on it
  recon --help                            show this text

IMAGE is a file or a block device. It must be readable and writable, and must not be mounted.
status: 0 accepted, or all passed; 1 refused, or something was rejected; 2 command line; 3 malformed trace;
  4 device; 5 trace input; 6 output; 7 out of memory; 8 IMAGE too short for make; 9 system
findings: docs/findings.md";

/// Whether a device was opened.
#[derive(Clone, Copy)]
pub enum Opened {
    /// It was.
    Yes,
    /// It was not, since another program holds it.
    InUse,
    /// It was not.
    No,
}

/// Why a run ended before its outcome.
#[derive(Clone, Copy)]
pub enum Why<'a> {
    /// The command line is empty, or asks for help.
    Help,
    /// The command line is none of the commands.
    NoCommand,
    /// This device could not be opened for reading and writing, or not be locked.
    Unopened(&'a str),
    /// Another program holds this device.
    InUse(&'a str),
    /// A call of this device failed.
    Device(&'a str),
    /// A read of the trace failed.
    Trace,
    /// A write of a line, or of the trace that is made, failed.
    Lines,
    /// Out of memory.
    Memory,
    /// This device is shorter than the volume that is to be made on it.
    TooShort(&'a str),
    /// The system does not give the command line.
    NoArguments,
    /// The system does not open the file that is held in the place of a closed stream.
    NoFull,
}

impl<'a> Why<'a> {
    /// Why a run of these arguments ended with a status, where its lines do not say it: the last argument is
    /// `image`, which was opened or not.
    pub fn of(status: u8, arguments: &[String], image: &'a str, opened: Opened) -> Option<Why<'a>> {
        match status {
            2 if asks_help(arguments) => Some(Why::Help),
            2 => Some(Why::NoCommand),
            4 => Some(match opened {
                Opened::Yes => Why::Device(image),
                Opened::InUse => Why::InUse(image),
                Opened::No => Why::Unopened(image),
            }),
            5 => Some(Why::Trace),
            6 => Some(Why::Lines),
            7 => Some(Why::Memory),
            8 => Some(Why::TooShort(image)),
            _ => None,
        }
    }

    /// The status with which the run ends.
    pub fn status(&self) -> u8 {
        match self {
            Why::Help | Why::NoCommand => 2,
            Why::Unopened(_) | Why::InUse(_) | Why::Device(_) => 4,
            Why::Trace => 5,
            Why::Lines => 6,
            Why::Memory => 7,
            Why::TooShort(_) => 8,
            Why::NoArguments | Why::NoFull => 9,
        }
    }
}

impl fmt::Display for Why<'_> {
    fn fmt<W: fmt::Write>(&self, f: &mut fmt::Formatter<W>) -> fmt::Result {
        match self {
            Why::Help => write!(f, "{HELP}"),
            Why::NoCommand => {
                write!(
                    f,
                    "invalid command line; usage: recon check IMAGE, or recon replay [--json] IMAGE < TRACE, or recon make SEED COMMITS IMAGE > TRACE, with a SEED below 2^64 and 1 to 200 COMMITS; findings: docs/findings.md"
                )
            }
            Why::Unopened(image) => {
                write!(
                    f,
                    "the device {image:?} could not be opened for reading and writing"
                )
            }
            Why::InUse(image) => { write!(f, "the device {image:?} is in use by another program") }
            Why::Device(image) => write!(f, "a call of the device {image:?} failed"),
            Why::Trace => write!(f, "a read of the trace from standard input failed"),
            Why::Lines => write!(f, "a write to standard output failed"),
            Why::Memory => write!(f, "out of memory"),
            Why::TooShort(image) => {
                write!(f, "the device {image:?} is shorter than 33554432 bytes")
            }
            Why::NoArguments => write!(f, "the system does not give the command line"),
            Why::NoFull => {
                write!(
                    f,
                    "/dev/full, held in the place of a closed stream, could not be opened"
                )
            }
        }
    }
}

// Whether the command line asks for help: it is empty, or `--help` alone.
fn asks_help(arguments: &[String]) -> bool {
    match arguments {
        [] => true,
        [argument] => argument.as_str() == "--help",
        _ => false,
    }
}
