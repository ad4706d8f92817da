//! The tree blocks of a disk with pending writes over its bytes: reading a block where a walk expects it, and walking a
//! tree.
#![tactic(auto)]

mod halt;
mod own;
mod read;
mod tops;
mod walk;

pub use halt::{Fault, Halt, told};
pub use own::take_own;
pub use read::{BlockSource, read_block, read_under};
pub use tops::{Chunks, chunk_root, system_chunks, top_root};
pub use walk::{child_at, walk_into, walk_tree};
