//! Laws of accounts that a change touches. Each stands on a function that does nothing.

ghost use Rattle.touched_accounts.specs.Laws.{MovesLaw, TouchedLaw};

/// Postings that are the same but for some of each move the sums by exactly these.
pub fn moves_law()
    ensures { MovesLaw }
{}

/// Where no account was broken, the least broken account among the touched ones is the least of all.
pub fn touched_law()
    ensures { TouchedLaw }
{}
