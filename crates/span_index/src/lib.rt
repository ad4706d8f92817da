//! The table of spans: the sectors of the accepted image that extents own, that checksums cover and that files
//! show. Each look into it is counted.
#![tactic(auto)]

mod cursor;
mod files;
mod index;
mod judge;
mod kept;
mod meeting;
mod places;
mod reach;
mod span;

pub use kept::SpanIndex;
pub use span::{Run, SortName, Span, SpanSort};
