//! What records say of the names in directories and of subvolumes, as postings to the accounts A11 to A14 and A17.
#![tactic(auto)]

mod entries;
mod subvolumes;
mod table;
mod way;

pub use entries::{post_entry, post_link};
pub use table::{post, post_by};
pub use way::{NameWay, OneByOne};
