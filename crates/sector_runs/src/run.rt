//! Runs of sectors.

/// What sectors are used for.
#[derive(Clone, Copy, Debug, PartialEq, Eq)]
pub enum SectorUse {
    /// An extent of file data has them.
    Data,
    /// An extent of a tree block has them.
    Block,
    /// They have checksums.
    Summed,
    /// A file whose data has checksums shows them.
    Shown,
}

/// Sectors of 4096 bytes, one behind the other, that are used alike.
#[derive(Clone, Copy, Debug, PartialEq, Eq)]
pub struct SectorRun {
    /// The logical address in bytes where the first begins, a multiple of 4096.
    pub first: u64,
    /// How many they are.
    pub count: u64,
    /// What they are used for.
    pub sort: SectorUse,
}
