//! The edge to the system: a disk that is a file, the source and the sink that are streams, and what is held
//! in the place of a closed stream. Each call that fails is counted. A stream's call takes or gives exactly its
//! bytes, where the stream tells what it holds. Of files nothing is told: that the path given is the path opened,
//! and that each call's bytes are read or written at its offset, is trusted, and tested.
#![tactic(auto)]

mod file_disk;
mod lock;
mod std_sink;
mod std_source;
mod streams;

pub use file_disk::FileDisk;
pub use lock::{LockFile, Sharing};
pub use std_sink::StdSink;
pub use std_source::StdSource;
pub use streams::HeldStreams;
