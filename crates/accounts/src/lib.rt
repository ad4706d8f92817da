//! Accounts: what one item of an image says and another must say too, as sums that have to agree.
#![tactic(auto)]

mod account;
mod context;
pub mod kinds;
mod laws;
mod name;
mod postings;
mod tally;
mod totals;
mod user;

pub use account::Account;
pub use context::{Ctx, Home};
pub use laws::least_broken_law;
pub use name::NameAccount;
pub use postings::{Poster, Posting, Postings};
pub use tally::Tally;
pub use totals::{Totals, broken, finding_of, sector_keeps};
pub use user::User;
