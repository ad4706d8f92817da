//! The way from the root of a tree down to the block that is walked.

ghost use Rattle.std.specs.Prelude.{◌≡◌, ◌<◌, ◌↔◌, [], ◌∷◌, ◌++◌, length, IsSome, option_to_list};

use smallvec::SmallVec;
use std::alloc::Global;
use std::marker::Model;

/// A block on the way down, and where the way goes on from it.
#[derive(Clone, Copy, Debug, Default, PartialEq, Eq)]
pub struct PathStep {
    /// The block's logical address in bytes.
    pub address: u64,
    /// The block's level, 0 for a leaf.
    pub level: u8,
    /// The place of the next child among the block's pointers.
    pub next: u32,
}

/// The steps from the root of a tree down to the block that is walked, seen as their list. A tree has at
/// most eight levels, so that each path is kept in place, and no call takes memory.
#[derive(Drop)]
pub struct Path {
    steps: SmallVec<PathStep, 8>,
}

impl Model for Path {
    ghost use Rattle.std.specs.Prelude.{◌≡◌, ◌≤◌, List, length};
    ghost use Rattle.tree_change.specs.declared.path.PathStep.{PathStep};

    ghost Value = { List PathStep };

    ghost view = { λ p. p.steps.items };

    ghost invariant = { λ p. (p.steps.capacity ≡ 8) × (length p.steps.items ≤ 8) };
}

impl Path {
    /// The empty path.
    pub fn new(alloc: Global) -> Path
        ensures { result ≡ [] }
    {
        Path {
            steps: SmallVec::new(alloc),
        }
    }

    /// Goes a step down. Fewer than eight steps must stand.
    pub fn push(&mut self, step: PathStep)
        requires { length self.old < 8 }
        ensures { self.new ≡ self.old ++ step ∷ [] }
    {
        self.steps.push_reserved(step);
    }

    /// Takes the last step back, `None` exactly where none stands.
    pub fn pop(&mut self) -> Option<PathStep>
        ensures last { self.old ≡ self.new ++ option_to_list result }
        ensures some { IsSome result ↔ (0 < length self.old) }
    {
        self.steps.pop()
    }

    /// The steps, from the root down.
    pub fn steps(&self) -> &[PathStep]
        ensures { result.now ≡ self.now }
    {
        self.steps.as_slice()
    }
}
