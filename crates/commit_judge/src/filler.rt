//! What fills the tables of an index.

ghost use Rattle.ledger_index.specs.Ledger.{entries_of};
ghost use Rattle.touched_accounts.specs.Looks.{HaveLooks};

use change_records::Inode;
use chunk_map::ChunkMap;
use span_index::SpanIndex;
use std::alloc::Global;
use std::collections::BTreeSet;
use touched_accounts::Adding;

/// The sums of what records post but to sectors, the spans that they have, and the inodes whose data has no checksums. All go into the
/// tables of an index, each by looks that are counted.
#[derive(Drop)]
pub(crate) struct Filling<'m, 's, L> {
    pub(crate) alloc: Global,
    // The chunks of the image.
    pub(crate) map: &'m ChunkMap,
    // Its size of a tree block in bytes.
    pub(crate) nodesize: u32,
    // The sums, and the looks.
    pub(crate) adding: Adding<'s, L>,
    // The spans.
    pub(crate) spans: SpanIndex<L>,
    // The inodes.
    pub(crate) free: BTreeSet<Inode>,
    // The looks before the first record.
    pub(crate) began: u64,
    ghost few: { HaveLooks began (entries_of adding.ledger) adding.steps.now },
}
