//! Where runs begin and end.

ghost use Rattle.std.specs.Prelude.{◌≡◌, ◌+◌, ℕ, ◌==◌, IfOk, if◌then◌else◌};
ghost use Rattle.sector_runs.specs.Kept.{begins, ends};
ghost use Rattle.sector_runs.specs.Runs.{counts_in};

use crate::SectorUse;
use verdict::NoMemory;

/// How many runs begin at an address and how many end there, of those that count in one sum. Where one begins at the
/// end of another, neither is counted.
#[derive(Clone, Copy, Debug, PartialEq, Eq)]
pub struct Edge {
    /// How many begin.
    pub begins: u64,
    /// How many end.
    pub ends: u64,
}

impl Edge {
    /// Nothing begins and nothing ends.
    pub const NONE: Edge = Edge { begins: 0, ends: 0 };

    /// One run begins.
    pub const BEGIN: Edge = Edge { begins: 1, ends: 0 };

    /// One run ends.
    pub const END: Edge = Edge { begins: 0, ends: 1 };

    // Both together. A number that would pass 64 bits is want of memory.
    fn joined(self, more: Edge) -> Result<Edge, NoMemory>
        ensures { IfOk result (λ edge.
            edge.begins + (self.ends + more.ends) ≡ edge.ends + (self.begins + more.begins)) }
    {
        let begins = self.begins.checked_add(more.begins).ok_or(NoMemory)?;
        let ends = self.ends.checked_add(more.ends).ok_or(NoMemory)?;
        let both = begins.min(ends);
        Ok(Edge {
            begins: begins - both,
            ends: ends - both,
        })
    }
}

/// What begins and ends at an address, in each of the four sums.
#[derive(Clone, Copy, Debug, PartialEq, Eq)]
pub struct Edges {
    /// Of the extents that have a sector.
    pub owned: Edge,
    /// Of those of file data.
    pub of_data: Edge,
    /// Of checksums.
    pub summed: Edge,
    /// Of files.
    pub shown: Edge,
}

impl Edges {
    /// Nothing in any sum.
    pub const NONE: Edges = Edges {
        owned: Edge::NONE,
        of_data: Edge::NONE,
        summed: Edge::NONE,
        shown: Edge::NONE,
    };

    // What begins or ends with a run of a use.
    pub fn of(sort: SectorUse, edge: Edge) -> Edges
        ensures begins { (field : ℕ) →
            begins field result ≡ (if counts_in sort field then edge.begins else 0) }
        ensures ends { (field : ℕ) →
            ends field result ≡ (if counts_in sort field then edge.ends else 0) }
    {
        let none = Edges::NONE;
        match sort {
            SectorUse::Data => Edges {
                owned: edge,
                of_data: edge,
                ..none
            },
            SectorUse::Block => Edges {
                owned: edge,
                ..none
            },
            SectorUse::Summed => Edges {
                summed: edge,
                ..none
            },
            SectorUse::Shown => Edges {
                shown: edge,
                ..none
            },
        }
    }

    // Both together. A number that would pass 64 bits is want of memory.
    pub fn joined(self, more: Edges) -> Result<Edges, NoMemory>
        ensures { IfOk result (λ edges. (field : ℕ) →
            begins field edges + (ends field self + ends field more)
            ≡ ends field edges + (begins field self + begins field more)) }
    {
        Ok(Edges {
            owned: self.owned.joined(more.owned)?,
            of_data: self.of_data.joined(more.of_data)?,
            summed: self.summed.joined(more.summed)?,
            shown: self.shown.joined(more.shown)?,
        })
    }
}
