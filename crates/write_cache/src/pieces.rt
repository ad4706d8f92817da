//! The pieces of the pending writes, lent one after the other.

ghost use Rattle.std.specs.Prelude.{◌≡◌};
ghost use Rattle.std.specs.Iterator.{item_count, YieldsFirstBy};
ghost use Rattle.write_cache.specs.Lent.{piece_lent, pieces_left};

use crate::run::Run;
use std::collections::btree_map::Iter;

/// The pieces of the pending writes, or their parts, in rising order: each item is the offset on the
/// device where one begins, and its bytes.
#[derive(Drop)]
pub struct Pieces<'a> {
    entries: Iter<'a, u64, Run>,
}

impl<'a> Pieces<'a> {
    pub(crate) fn new(entries: Iter<'a, u64, Run>) -> Pieces<'a>
        ensures { result.entries ≡ entries.entry }
    {
        Pieces { entries }
    }
}

impl<'a> Iterator for Pieces<'a> {
    type Item = (u64, &'a [u8]);

    ghost next_gives = { YieldsFirstBy piece_lent pieces_left };

    ghost remaining = { item_count pieces_left };

    fn next(&mut self) -> Option<(u64, &'a [u8])> {
        let (at, bytes) = self.entries.next()?;
        Some((*at, bytes.as_slice()))
    }
}
