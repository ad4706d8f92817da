//! What says which blocks a walk keeps.

ghost use Rattle.std.specs.Prelude.{◌≡◌, ℕ, Bool, true, ◌+◌, ◌-◌, ◌<◌, ◌≤◌, ◌∷◌, [], length, drop, IfSome, OnOk};
ghost use Rattle.std.specs.Borrow.{GName};
ghost use Rattle.live_index.specs.Pairs.{Pairs};
ghost use Rattle.node_reader.specs.declared.expect.Expect.{Expect};
ghost use Rattle.tree_laws.specs.Ending.{Held, Lasts, with_ended};
ghost use Rattle.tree_laws.specs.Meeting.{Met as HeldMet, with_met};
ghost use Rattle.tree_laws.specs.Skips.{Anew, Kept};

use live_index::Live;
use node_reader::Expect;
use tree_laws::{Ended, Met};
use verdict::{Key, NoMemory};

/// What says which blocks a walk keeps without reading them, and to which blocks it goes on below each of them.
pub trait Keeps {
    /// The greatest key that is sure to stand in each block that is kept, or below it.
    ghost keeps: { Self → Kept };
    /// The blocks that are walked below each kept block.
    ghost anew: { Self → Anew };
    /// The kept blocks that the walk met so far, in its order, where they are held.
    ghost met: { Self → HeldMet };
    /// The live pairs by which blocks are kept.
    ghost pairs: { Self → Pairs };
    /// The greatest key of each kept block, none where it is that of the last block that is walked below it.
    ghost lasts: { Self → Lasts };
    /// The blocks that the walk is done with so far, each behind all below it, where they are held.
    ghost ended: { Self → Held };
    /// How many looks into a table of live pairs were counted so far.
    ghost looks: { Self → ℕ };
    /// Which loan the counter is of these looks: it stays the one that was lent.
    ghost loan: { Self → GName };
    /// Whether what is known of a block is at hand, with no look.
    ghost ready: { Self → Expect → Bool };

    /// The greatest key that is sure to stand in the block that is expected, or below it, `None` where it is not kept.
    fn kept(&mut self, e: &Expect) -> Option<Key>
        ensures value { result ≡ keeps self.old e.now }
        ensures same { keeps self.new ≡ keeps self.old }
        ensures same_anew { anew self.new ≡ anew self.old }
        ensures same_met { met self.new ≡ met self.old }
        ensures same_pairs { pairs self.new ≡ pairs self.old }
        ensures same_lasts { lasts self.new ≡ lasts self.old }
        ensures same_loan { loan self.new ≡ loan self.old }
        ensures same_ended { ended self.new ≡ ended self.old }
        ensures looks { looks self.new ≤ looks self.old + 3 }
        ensures ready { IfSome result (λ _. ready self.new e.now ≡ true) };

    /// Holds a kept block that the walk meets behind those that it met, where they are held.
    fn meet(&mut self, e: &Expect) -> Result<(), NoMemory>
        ensures met { OnOk result (met self.new ≡ with_met (met self.old) (e.now ∷ [])) }
        ensures same { keeps self.new ≡ keeps self.old }
        ensures same_anew { anew self.new ≡ anew self.old }
        ensures same_pairs { pairs self.new ≡ pairs self.old }
        ensures same_lasts { lasts self.new ≡ lasts self.old }
        ensures same_loan { loan self.new ≡ loan self.old }
        ensures same_ended { ended self.new ≡ ended self.old }
        ensures looks { ready self.old e.now ≡ true → looks self.new ≡ looks self.old }
        ensures ready { ready self.old e.now ≡ true → ready self.new e.now ≡ true };

    /// How many blocks are walked below a kept one.
    fn count(&self, e: &Expect) -> usize
        ensures { result ≡ length (anew self.now e.now) };

    /// What is expected of one of these, by its number in their order. It is on the next level.
    fn next(&mut self, e: &Expect, i: usize) -> Expect
        requires inside { i < length (anew self.old e.now) }
        ensures next { drop i (anew self.old e.now) ≡ result ∷ drop (i + 1) (anew self.old e.now) }
        ensures level { result.level ≡ e.now.level - 1 }
        ensures same { keeps self.new ≡ keeps self.old }
        ensures same_anew { anew self.new ≡ anew self.old }
        ensures same_met { met self.new ≡ met self.old }
        ensures same_pairs { pairs self.new ≡ pairs self.old }
        ensures same_lasts { lasts self.new ≡ lasts self.old }
        ensures same_loan { loan self.new ≡ loan self.old }
        ensures same_ended { ended self.new ≡ ended self.old }
        ensures looks { looks self.new ≡ looks self.old };

    /// The greatest key of a kept block, `None` where it is that of the last block that is walked below it.
    fn last(&mut self, e: &Expect) -> Option<Key>
        ensures value { result ≡ lasts self.old e.now }
        ensures same { keeps self.new ≡ keeps self.old }
        ensures same_anew { anew self.new ≡ anew self.old }
        ensures same_met { met self.new ≡ met self.old }
        ensures same_pairs { pairs self.new ≡ pairs self.old }
        ensures same_lasts { lasts self.new ≡ lasts self.old }
        ensures same_loan { loan self.new ≡ loan self.old }
        ensures same_ended { ended self.new ≡ ended self.old }
        ensures looks { ready self.old e.now ≡ true → looks self.new ≡ looks self.old };

    /// Holds a block that the walk is done with, and its greatest key, behind those that it was done with, where they are held.
    fn end(&mut self, e: &Expect, last: Key) -> Result<(), NoMemory>
        ensures ended { OnOk result (
            ended self.new ≡ with_ended (ended self.old)
            (record { expect = e.now; last = last } ∷ [])) }
        ensures same { keeps self.new ≡ keeps self.old }
        ensures same_anew { anew self.new ≡ anew self.old }
        ensures same_met { met self.new ≡ met self.old }
        ensures same_pairs { pairs self.new ≡ pairs self.old }
        ensures same_lasts { lasts self.new ≡ lasts self.old }
        ensures same_loan { loan self.new ≡ loan self.old }
        ensures looks { looks self.new ≡ looks self.old };
}
