//! The outside of Recon: a disk, a source of bytes and a sink of bytes as traits whose ghost members
//! say what they hold, their implementations in memory, and the counter of looks into an index.
#![tactic(auto)]

mod by_reference;
mod disk;
mod memory;
mod sink;
mod source;
mod steps;
mod stop;
mod writing;

pub use disk::{Disk, Failed};
pub use memory::{Fail, MemDisk, Op};
pub use sink::{MemSink, Sink};
pub use source::{MemSource, Source};
pub use steps::Steps;
pub use stop::StopDisk;
pub use writing::{WRITE_MAX, write_all_at};
