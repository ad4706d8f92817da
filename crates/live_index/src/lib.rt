//! The table of live pairs: what is kept of each tree block of the accepted image, under the tree that
//! visits it and its logical address. Each look into it is counted.
#![tactic(auto)]

mod in_order;
mod index;
mod kept;
mod live;
mod orders;
mod places;

pub use in_order::InKeyOrder;
pub use kept::LiveIndex;
pub use live::Live;
