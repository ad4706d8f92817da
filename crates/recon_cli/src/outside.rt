//! What a replay is lent.

use recon_disk::Steps;

/// What a replay is lent: a disk, a trace, a place for lines, and the steps that are looked at.
#[derive(Drop)]
pub struct Outside<'d, 't, 'o, 's, D, S, K, L> {
    /// The disk that holds the image.
    pub disk: &'d mut D,
    /// The trace.
    pub trace: &'t mut S,
    /// The place for lines.
    pub out: &'o mut K,
    /// The steps.
    pub steps: &'s mut Steps<L>,
}
