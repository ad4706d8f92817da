//! The maps in which a ledger keeps the sums of accounts: the pages of inodes, a part of a table by keys, and the accounts that have no key.
#![tactic(auto)]

mod name_part;
mod page;
mod pages;
mod part;
mod whole;

pub use name_part::{post_at, post_to, take_from};
pub use page::Page;
pub use pages::Pages;
pub use part::{add_at, add_by_hash, find_in, is_at, kept_at, take_at};
pub use whole::{Whole, copy_of};
