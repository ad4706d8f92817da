//! A cache in which no two runs touch.

ghost use Rattle.std.specs.Prelude.{◌≡◌};
ghost use Rattle.write_cache.specs.Lent.{pieces_left};
ghost use Rattle.write_cache.specs.Pieces.{ArePiecesOf, map_of};
ghost use Rattle.write_cache.specs.Runs.{AreJoined, pieces_of};
ghost use Rattle.write_cache.specs.JoinedOnce.{AreJoined-prop};

use crate::cache::WriteCache;
use crate::pieces::Pieces;
use crate::runs::Runs;

/// A cache in which no two runs touch, lent, so that each of its pieces is one run.
#[derive(Clone, Copy)]
pub struct Joined<'a> {
    /// The cache.
    pub cache: &'a WriteCache,
    // Its runs.
    pub(crate) runs: &'a Runs,
    ghost joined: { AreJoined runs.now.entries } by { AreJoined-prop runs.now.entries },
    ghost whole: { map_of (pieces_of runs.now.entries) ≡ cache.now },
}

impl<'a> Joined<'a> {
    /// The pieces: the maximal runs of offsets at which a byte is pending, in rising order, each in one buffer.
    pub fn pieces(&self) -> Pieces<'a>
        ensures { ArePiecesOf self.now.cache.now (pieces_left result) }
    {
        Pieces::new(self.runs.iter())
    }
}
