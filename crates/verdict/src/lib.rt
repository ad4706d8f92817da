//! What Recon says of an image and of an event: the words that all of its crates share.
#![tactic(auto)]

mod bytes;
mod finding;
mod key;
pub mod kinds;
mod machine;
mod place;
pub mod trees;

pub use bytes::{Bytes, NoMemory};
pub use finding::{Family, Finding, Rule, Verdict};
pub use key::{Key, get_key, key_at};
pub use machine::{
    Answer, Event, HeldWrite, SUPERBLOCK_AT, SUPERBLOCK_SIZE, Stop, meets_superblock,
};
pub use place::{
    At, Chunk, ORPHAN_OBJECTID, Place, SECTOR, TreeSort, has_group_tree, is_free_id, is_multiple,
    is_node_size,
};
