//! The keys under which a ledger keeps the sums of accounts, and what is kept under a key: nine sums of one account, or the sums of the two
//! accounts of a name. A key is a short place, a long place or a seat in a page.
#![tactic(auto)]

mod exact;
mod hint;
mod kept;
mod link;
mod long_place;
mod name;
mod place;
mod seat;
mod seeded;
mod side;
#[cfg(test)]
mod tests;

pub use exact::Exact;
pub use hint::{HINTS, Hint, bits_of, hint_of, slot_of};
pub use kept::Kept;
pub use link::Link;
pub use long_place::LongPlace;
pub use name::{LINK, Name, Side};
pub use place::{Place, mixed_by, mixed_of, part_at, part_by};
pub use seat::{PageKey, Seat, kind_at};
pub use seeded::Seeded;
