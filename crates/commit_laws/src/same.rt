//! What two images hold alike.

ghost use Rattle.commit_laws.specs.Same.{HeldLaw, RecordsLaw};

/// What an image holds is what its walks come to, where these have no finding.
pub fn held_law()
    ensures { HeldLaw }
{}

/// The records of two images are the same, but for the superblock's and those of the pairs that are not shared.
pub fn records_law()
    ensures { RecordsLaw }
{}
