//! Laws of sectors, and of the finding of the accounts.

ghost use Rattle.commit_laws.specs.Judged.{JudgedLaw};
ghost use Rattle.commit_laws.specs.Sectors.{RunsLaw, SectorsLaw};

/// What records post to a sector is what their spans come to there.
pub fn sectors_law()
    ensures { SectorsLaw }
{}

/// A step leaves each sector as it was that is outside of what is gone, came or was found.
pub fn runs_law()
    ensures { RunsLaw }
{}

/// The finding of the accounts is that of the lesser of the least broken sector and the least broken account among the others.
pub fn judged_law()
    ensures { JudgedLaw }
{}
