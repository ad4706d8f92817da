//! The shown spans by file.

ghost use Rattle.std.specs.Prelude.{◌≡◌, true, false, OnOk, OnErr, if◌then◌else◌};
ghost use Rattle.std.specs.BTreeMap.Range.{range_contains};
ghost use Rattle.std.specs.BTreeSet.{IsOrdered};
ghost use Rattle.std.specs.List.{filter, find};
ghost use Rattle.std.specs.declared.ops.Bound.TheVariants.{Included, Unbounded};
ghost use Rattle.span_index.specs.Places.{IsNextFile, file_cmp, file_in, is_file_stop, has_file, is_file_of};
ghost use Rattle.span_index.specs.Spans.{is_behind};
ghost use Rattle.span_index.specs.declared.places.ByFile.{ByFile as InFile};

use crate::places::ByFile;
use crate::span::{Span, SpanSort};
use std::alloc::Global;
use std::collections::BTreeSet;
use verdict::NoMemory;

/// The places by file of the shown spans.
#[derive(Drop)]
pub(crate) struct Files {
    pub(crate) places: BTreeSet<ByFile>,
}

impl Files {
    /// No places. They take their memory from this allocator.
    pub(crate) fn new(alloc: Global) -> Files
        ensures { (place : InFile) → has_file result place ≡ false }
    {
        Files {
            places: BTreeSet::new(alloc),
        }
    }

    /// Adds the place of a span, where it is shown. When out of memory, nothing changes.
    pub(crate) fn add(&mut self, span: &Span) -> Result<(), NoMemory>
        ensures ok { OnOk result ((place : InFile) →
            has_file self.new place
            ≡ (if is_file_of span.now place then true else has_file self.old place)) }
        ensures err { OnErr result
            ((place : InFile) → has_file self.new place ≡ has_file self.old place) }
    {
        let Some(place) = file_of(span) else {
            return Ok(());
        };
        self.places.insert(place)?;
        Ok(())
    }

    /// Takes the place of a span away, where it is shown.
    pub(crate) fn take(&mut self, span: &Span)
        ensures { (place : InFile) →
            has_file self.new place
            ≡ (if is_file_of span.now place then false else has_file self.old place) }
    {
        if let Some(place) = file_of(span) {
            self.places.remove(&place);
        }
    }

    /// The first place of an inode of a tree, or the first at an offset above `after`.
    pub(crate) fn next_of(&self, tree: u64, ino: u64, after: Option<u64>) -> Option<ByFile>
        ensures { IsNextFile self.now tree ino after result }
    {
        let start = ByFile {
            tree,
            ino,
            file_offset: after.unwrap_or(0),
            span: Span::LEAST,
        };
        let place = self.first_stop(start, tree, ino, after)?;
        if place.tree == tree && place.ino == ino {
            Some(place)
        } else {
            None
        }
    }

    // The first place from another on that is of another inode, or behind an offset where one is given.
    fn first_stop(&self, start: ByFile, tree: u64, ino: u64, after: Option<u64>) -> Option<ByFile>
        ensures value { result ≡ find (is_file_stop tree ino after)
            (filter (λ p. range_contains file_cmp (Included start) Unbounded p)
            self.now.places.keys) }
        ensures ordered { IsOrdered file_cmp self.now.places }
    {
        let place = self
            .places
            .range(start..)
            .find(|place| { is_stop(place, tree, ino, after) })?;
        Some(*place)
    }
}

// Whether a place is of another inode, or behind an offset where one is given.
fn is_stop(place: &ByFile, tree: u64, ino: u64, after: Option<u64>) -> bool
    ensures { result ≡ is_file_stop tree ino after place.now }
{
    !(place.tree == tree && place.ino == ino) || is_behind(after, place.file_offset)
}

// Whether an offset is above another, where one is given.
fn is_behind(after: Option<u64>, offset: u64) -> bool
    ensures { result ≡ is_behind after offset }
{
    match after {
        Some(after) => offset > after,
        None => true,
    }
}

// Where a span stands by file, where it is shown.
fn file_of(span: &Span) -> Option<ByFile>
    ensures { result ≡ file_in span.now.sort span.now }
{
    match span.sort {
        SpanSort::Shown {
            tree,
            ino,
            file_offset,
            ..
        } => Some(ByFile {
            tree,
            ino,
            file_offset,
            span: *span,
        }),
        _ => None,
    }
}
