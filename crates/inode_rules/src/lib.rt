//! What records say of inodes and their types, as postings to the accounts A9 and A10.
#![tactic(auto)]

mod rows;
mod table;

pub use rows::type_of_mode;
pub use table::{post, post_own};
