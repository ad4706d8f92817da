//! The table of spans.

ghost use Rattle.std.specs.Prelude.{◌≡◌, ◌<◌, OnOk, OnErr, nat_lt, option_map};
ghost use Rattle.recon_disk.specs.Outside.{counted};
ghost use Rattle.span_index.specs.Spans.{IsMeeting, IsNextShown, no_spans, with_span, without_span};
ghost use Rattle.span_index.specs.Table.{times_of};

use crate::files::Files;
use crate::kept::SpanIndex;
use crate::places::place_of;
use crate::span::{SortName, Span};
use recon_disk::Steps;
use std::alloc::Global;
use std::collections::BTreeMap;
use std::marker::PhantomData;
use verdict::NoMemory;

impl<L> SpanIndex<L> {
    /// The empty table. It takes its memory from this allocator.
    pub fn new(alloc: Global) -> SpanIndex<L>
        ensures { times_of result ≡ no_spans }
    {
        SpanIndex {
            spans: BTreeMap::new(alloc),
            files: Files::new(alloc),
            mark: PhantomData,
        }
    }

    /// Puts a span into the table once more. When out of memory, nothing changes.
    pub fn insert(&mut self, span: Span, steps: &mut Steps<L>) -> Result<(), NoMemory>
        ensures ok { OnOk result (times_of self.new ≡ with_span (times_of self.old) span) }
        ensures err { OnErr result (times_of self.new ≡ times_of self.old) }
        ensures looks { steps.new ≡ counted steps.old }
    {
        steps.look();
        let place = place_of(&span);
        match self.spans.insert(place, 1)? {
            None => match self.files.add(&span) {
                Ok(()) => Ok(()),
                Err(_) => {
                    self.spans.remove(&place);
                    Err(NoMemory)
                }
            },
            // A span stands there, so that neither takes memory.
            Some(times) => match times.checked_add(1) {
                Some(more) => {
                    let _ = self.spans.insert(place, more);
                    Ok(())
                }
                None => {
                    let _ = self.spans.insert(place, times);
                    Err(NoMemory)
                }
            },
        }
    }

    /// Takes a span out of the table once. `false` exactly where it does not stand.
    pub fn remove(&mut self, span: &Span, steps: &mut Steps<L>) -> bool
        ensures value { result ≡ nat_lt 0 (times_of self.old span.now) }
        ensures left { times_of self.new ≡ without_span (times_of self.old) span.now }
        ensures looks { steps.new ≡ counted steps.old }
    {
        steps.look();
        let place = place_of(span);
        match self.spans.get(&place).copied() {
            Some(1) => {
                self.spans.remove(&place);
                self.files.take(span);
                true
            }
            Some(times) => {
                // A span stands there, so that this takes no memory.
                let _ = self.spans.insert(place, times - 1);
                true
            }
            None => false,
        }
    }

    /// The least span of a sort, in order, that ends after an address and is above `after` where one is given.
    /// Equal spans are answered once. `None` exactly where there is none.
    pub fn meeting(
        &self,
        sort: SortName,
        address: u64,
        after: Option<&Span>,
        steps: &mut Steps<L>,
    ) -> Option<Span>
        ensures value { IsMeeting (times_of self.now) sort address
            (option_map (λ a. a.now) after.entry) result }
        ensures looks { steps.new ≡ counted steps.old }
    {
        steps.look();
        let (span, _) = self.next_meeting(0, sort, address, after.copied())?;
        Some(span)
    }

    /// The span that an inode of a tree shows at the least offset in its file, or at the least above `after`.
    /// Where several stand at that offset, it is the least of them in the order of spans. `None` exactly where
    /// there is none.
    pub fn shown_of(
        &self,
        tree: u64,
        ino: u64,
        after: Option<u64>,
        steps: &mut Steps<L>,
    ) -> Option<Span>
        ensures value { IsNextShown (times_of self.now) tree ino after result }
        ensures looks { steps.new ≡ counted steps.old }
    {
        steps.look();
        let place = self.files.next_of(tree, ino, after)?;
        Some(place.span)
    }
}
