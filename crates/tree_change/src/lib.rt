//! What changes between the trees of two images.
#![tactic(auto)]

mod array;
mod change;
mod compared;
mod differ;
mod distinct;
mod firsts;
mod gather;
mod lasts;
mod laws;
mod lives;
mod merge;
mod path;
mod rising;
mod roots;
mod sides;
mod tops;
mod trees;
mod walks;

pub use change::{Change, Diff};
pub use differ::{are_read_alike, difference};
pub use laws::{
    accepted_law, all_trees_law, gone_looks_law, gone_trees_law, named_law, one_tree_law,
    risen_law, tree_looks_law,
};
pub use path::{Path, PathStep};
