//! Where a span stands in each of the two orders.

ghost use Rattle.std.specs.Prelude.{◌≡◌};
ghost use Rattle.span_index.specs.Places.{class_of, place_of};

use crate::span::{SortName, Span};

/// By sort, then by the class of its length, then in the order of spans. Spans of no sector have a class of their
/// own. In each other class the longest span is less than twice as long as the shortest, so that those that end after
/// an address begin not far before it.
#[derive(Clone, Copy, PartialEq, Eq, PartialOrd, Ord)]
pub(crate) struct Place {
    pub(crate) sort: SortName,
    pub(crate) class: u8,
    pub(crate) span: Span,
}

/// By tree, inode and offset in the file, then in the order of spans.
#[derive(Clone, Copy, PartialEq, Eq, PartialOrd, Ord)]
pub(crate) struct ByFile {
    pub(crate) tree: u64,
    pub(crate) ino: u64,
    pub(crate) file_offset: u64,
    pub(crate) span: Span,
}

// Where a span stands among those of its sort and class.
pub(crate) fn place_of(span: &Span) -> Place
    ensures { result ≡ place_of span.now }
{
    Place {
        sort: span.sort.name(),
        class: class_of(span.sectors),
        span: *span,
    }
}

// The class of a length in sectors: how many bits the number has.
fn class_of(sectors: u64) -> u8
    ensures { result ≡ class_of sectors }
{
    if sectors == 0 {
        0
    } else {
        sectors.ilog2() as u8 + 1
    }
}
