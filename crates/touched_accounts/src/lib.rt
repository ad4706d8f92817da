//! The accounts that a change touches: old amounts are taken away, new ones added, and the least account among the touched that is
//! broken then is the least of all.
#![tactic(auto)]

mod adding;
mod laws;
mod touched;

pub use adding::Adding;
pub use laws::{moves_law, touched_law};
pub use touched::{judge_touched, put_all, take_all};
