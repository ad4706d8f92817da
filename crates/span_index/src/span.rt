//! Spans: the sectors that an extent owns, that checksums cover, or that a file shows.

ghost use Rattle.std.specs.Prelude.{◌≡◌, refl};
ghost use Rattle.std.specs.Ordering.{as_partial_cmp, eq_by_cmp};
ghost use Rattle.span_index.specs.Order.{name_cmp, name_of, rank, sort_cmp};
ghost use Rattle.span_index.specs.OrderLaws.{name_equiv, name_per, name_po, name_total};
ghost use Rattle.span_index.specs.OrderLaws.{sort_equiv, sort_per, sort_po, sort_total};

use std::cmp::Ordering;

/// A run of sectors of the volume, of 4096 bytes each, and what it is of. Spans are ordered by their first byte,
/// by their sectors, and then by their sort and its fields as written.
#[derive(Clone, Copy, Debug, PartialEq, Eq, PartialOrd, Ord)]
pub struct Span {
    /// The logical address in bytes of its first byte.
    pub first: u64,
    /// Its length in sectors. The last byte may lie at the end of 64 bits or past it.
    pub sectors: u64,
    /// What it is of.
    pub sort: SpanSort,
}

impl Span {
    // No span is below it.
    pub(crate) const LEAST: Span = Span {
        first: 0,
        sectors: 0,
        sort: SpanSort::Owned { of_data: false },
    };
}

/// What a span is of.
#[derive(Clone, Copy, Debug)]
pub enum SpanSort {
    /// The range of an `EXTENT_ITEM`, or the tree block of a `METADATA_ITEM`.
    Owned {
        /// Whether it is of file data, as an `EXTENT_ITEM` is.
        of_data: bool,
    },
    /// The range that the checksums of an `EXTENT_CSUM` cover.
    Summed,
    /// The range that an `EXTENT_DATA` of written data shows of its extent on disk.
    Shown {
        /// The id of the tree with the item.
        tree: u64,
        /// The inode's number.
        ino: u64,
        /// The offset in the file of the first byte shown.
        file_offset: u64,
        /// The logical address in bytes of the whole extent.
        extent: u64,
        /// The length in bytes of the whole extent on disk.
        length: u64,
    },
}

/// The name of a sort of spans.
#[derive(Clone, Copy, Debug)]
pub enum SortName {
    /// The spans that extents own.
    Owned,
    /// The spans that checksums cover.
    Summed,
    /// The spans that files show.
    Shown,
}

/// Sectors of the volume: the bytes from one logical address up to another, both multiples of 4096, the first
/// below the second.
#[derive(Clone, Copy, Debug, PartialEq, Eq)]
pub struct Run {
    /// The logical address in bytes where it begins.
    pub from: u64,
    /// The logical address in bytes where it ends: that of the first byte behind it.
    pub until: u64,
}

impl PartialEq for SpanSort {
    ghost eq = { eq_by_cmp sort_cmp };

    ghost laws = { sort_per };

    fn eq(&self, other: &SpanSort) -> bool {
        self.cmp(other) == Ordering::Equal
    }
}

impl Eq for SpanSort {
    ghost laws = { sort_equiv };
}

impl PartialOrd for SpanSort {
    ghost partial_cmp = { as_partial_cmp sort_cmp };

    ghost laws = { sort_po };

    fn partial_cmp(&self, other: &SpanSort) -> Option<Ordering> {
        Some(self.cmp(other))
    }
}

impl Ord for SpanSort {
    ghost cmp = { sort_cmp };

    ghost total = { sort_total };

    ghost matches_partial_cmp = { λ _ _. refl };

    ghost matches_eq = { λ _ _. refl };

    fn cmp(&self, other: &SpanSort) -> Ordering {
        match (self, other) {
            (SpanSort::Owned { of_data }, SpanSort::Owned { of_data: and_data }) => {
                of_data.cmp(and_data)
            }
            (
                SpanSort::Shown {
                    tree,
                    ino,
                    file_offset,
                    extent,
                    length,
                },
                SpanSort::Shown {
                    tree: other_tree,
                    ino: other_ino,
                    file_offset: other_offset,
                    extent: other_extent,
                    length: other_length,
                },
            ) => tree
                .cmp(other_tree)
                .then_with(|| ino.cmp(other_ino))
                .then_with(|| file_offset.cmp(other_offset))
                .then_with(|| extent.cmp(other_extent))
                .then_with(|| length.cmp(other_length)),
            _ => self.name().cmp(&other.name()),
        }
    }
}

impl PartialEq for SortName {
    ghost eq = { eq_by_cmp name_cmp };

    ghost laws = { name_per };

    fn eq(&self, other: &SortName) -> bool {
        self.cmp(other) == Ordering::Equal
    }
}

impl Eq for SortName {
    ghost laws = { name_equiv };
}

impl PartialOrd for SortName {
    ghost partial_cmp = { as_partial_cmp name_cmp };

    ghost laws = { name_po };

    fn partial_cmp(&self, other: &SortName) -> Option<Ordering> {
        Some(self.cmp(other))
    }
}

impl Ord for SortName {
    ghost cmp = { name_cmp };

    ghost total = { name_total };

    ghost matches_partial_cmp = { λ _ _. refl };

    ghost matches_eq = { λ _ _. refl };

    fn cmp(&self, other: &SortName) -> Ordering {
        self.rank().cmp(&other.rank())
    }
}

impl SpanSort {
    /// The name of what a span is of.
    pub(crate) fn name(&self) -> SortName
        ensures { result ≡ name_of self.now }
    {
        match self {
            SpanSort::Owned { .. } => SortName::Owned,
            SpanSort::Summed => SortName::Summed,
            SpanSort::Shown { .. } => SortName::Shown,
        }
    }
}

impl SortName {
    // The number of a sort in their order.
    fn rank(&self) -> u8
        ensures { result ≡ rank self.now }
    {
        match self {
            SortName::Owned => 0,
            SortName::Summed => 1,
            SortName::Shown => 2,
        }
    }
}
