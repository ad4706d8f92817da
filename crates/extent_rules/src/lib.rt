//! What a record says of extents and of who refers to them, as postings to accounts.
#![tactic(auto)]

mod rows;

pub use rows::post;
