//! Why a trace was not made.

use thiserror::Error;

/// Why a trace was not made whole.
#[derive(Clone, Copy, Debug, PartialEq, Eq, Error)]
pub enum MakeFault {
    /// A call of the sink failed.
    #[error("the trace could not be written")]
    Write,
    /// Out of memory, or out of room on the device that the trace is made for. 200 commits have room.
    #[error("memory for the trace is wanting")]
    NoMemory,
}
