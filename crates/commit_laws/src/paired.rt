//! Laws of items that are paired by their trees and keys.

ghost use Rattle.commit_laws.specs.Kept.{FoundLaw};
ghost use Rattle.commit_laws.specs.Paired.{AllChangesLaw, PairedLaw};

/// The changes between two lists of items say which are gone and which came; the rest are the same wherever they stand.
pub fn paired_law()
    ensures { PairedLaw }
{}

/// The names of all kept items that post otherwise say what changes of the postings of kept items.
pub fn found_law()
    ensures { FoundLaw }
{}

/// Where all items go and all come, all old items are gone and all new ones came.
pub fn all_changes_law()
    ensures { AllChangesLaw }
{}
