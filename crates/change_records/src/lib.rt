//! What a commit's changed items do: which items differ between two images, and which kept ones post
//! otherwise.
#![tactic(auto)]

mod changes;
mod homes;
mod item_ref;
mod kept;
mod kept_items;
mod made;
mod reached;
mod search;

pub use changes::{ItemChange, pair};
pub use item_ref::ItemRef;
pub use kept::{Inode, Made};
pub use kept_items::affected;
