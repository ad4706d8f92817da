//! The ledger of an accepted image: the totals of its accounts. Each look into it is counted.
#![tactic(auto)]

mod judge;
mod judged;
mod ledger;
mod singles;
mod table;
mod unpaged;

pub use ledger::LedgerIndex;
