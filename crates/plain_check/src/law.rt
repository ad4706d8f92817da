//! What an image holds, and what is known of it before all its trees are walked.

ghost use Rattle.plain_check.specs.OpeningLaw.{OpeningLaw};

/// What an image holds is what is known of it once its chunk tree and its root tree were walked, and then the records of
/// the trees that its root items name. So a walk that begins with what is known gives what a walk from nothing gives.
pub fn opening_law()
    ensures { OpeningLaw }
{}
