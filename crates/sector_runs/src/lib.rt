//! Runs of sectors that are used alike, and the sums of all sectors that they come to.
#![tactic(auto)]

mod edge;
mod kept;
mod run;
mod sectors;

pub use kept::Sectors;
pub use run::{SectorRun, SectorUse};
