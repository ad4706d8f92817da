//! Tree blocks: the rules that a block must keep where the walk of a tree expects it, and what it
//! holds, pointers in a node and items in a leaf.
#![tactic(auto)]

mod block;
mod entries;
mod expect;
mod law;
mod rules;

pub use block::{Block, read_block, read_block_summed};
pub use expect::{Expect, Pointer};
pub use law::high_decides;
