//! Reads a trace of a file system's traffic with its device from a source of bytes, piece by piece:
//! a header, records, and an end tag.
#![tactic(auto)]

mod fault;
mod law;
mod pieces;
mod reader;

pub use fault::TraceFault;
pub use law::one_trace;
pub use reader::{Item, TraceReader};
