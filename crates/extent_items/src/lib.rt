//! The readers of the items of the extent tree: extents with their references, references that are
//! items of their own, and block groups.
#![tactic(auto)]

mod extent;
mod group;
mod keyed;
mod reference;

pub use extent::{ExtentItem, read_extent};
pub use group::{GroupItem, read_group};
pub use keyed::{KeyedRef, read_keyed};
pub use reference::{Reference, References};
