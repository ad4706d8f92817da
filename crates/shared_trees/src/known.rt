//! What is known of a tree as it was, and which of its blocks are kept by it.

ghost use Rattle.std.specs.Prelude.{◌≡◌, ◌+◌, ◌-◌, ◌∷◌, ◌<◌, ◌≤◌, true, Some, IfSome, length, drop};
ghost use Rattle.std.specs.Option.{option_copied};
ghost use Rattle.std.proofs.Props.{props};
ghost use Rattle.live_index.specs.Table.{pairs_of};
ghost use Rattle.touched_blocks.specs.Marks.{marked_by};
ghost use Rattle.touched_blocks.specs.Moves.{move_passes};
ghost use Rattle.tree_laws.specs.Keeping.{anew_of, bound_of, is_first, is_same, last_if_same, or_high, start_of, starts_of};
ghost use Rattle.tree_laws.specs.Known.{AreMetBy, is_last_walked};
ghost use Rattle.shared_trees.specs.Under.{under_of};
ghost use Rattle.tree_laws.specs.Visits.{is_found};

use crate::keeps::Keeps;
use crate::starts::Starts;
use live_index::{InKeyOrder, Live, LiveIndex};
use node_reader::Expect;
use recon_disk::Steps;
use touched_blocks::{AddressTest, Marks, Move};
use tree_laws::{Ended, Met, Start};
use verdict::{Key, NoMemory};

/// What is known of a tree as it was: its live pairs, marks on those that are not kept, which blocks stand at another place now, and the
/// children that are walked below kept blocks. Each block that is asked for looks at most three times into
/// the table. Where it is kept its pair is at hand then: to meet it, and to tell its greatest key before another block is asked for, takes
/// no look. The children of a node are asked for in the order of their keys: most look once, at the pair behind the one that was found last.
#[derive(Drop)]
pub struct KnownTree<'a, 's, L> {
    /// The live pairs.
    pub table: &'a LiveIndex<L>,
    /// The pairs of which no block is kept.
    pub marks: &'a Marks,
    /// Which blocks stand at another place.
    pub moves: &'a Move<'a>,
    /// The children that are walked below kept blocks.
    pub starts: &'a Starts,
    /// The counter of looks into the table.
    pub steps: &'s mut Steps<L>,
    /// The kept blocks that the walk met so far, each with its pair.
    pub met: Vec<Met>,
    /// The blocks that the walk is done with so far, each with its greatest key.
    pub ended: Vec<Ended>,
    /// The pair that the table gave last, none before a walk.
    pub found: Option<Live>,
    /// The walk over the pairs behind one that was looked for, none before a walk.
    pub behind: Option<InKeyOrder<'a, L>>,
    ghost held: { AreMetBy (pairs_of table.now) met.items },
    ghost walks: { IfSome behind (λ walk. walk.table.now ≡ table.now) } by { Prim.hlevel props },
    ghost stands: { IfSome found (λ live.
        pairs_of table.now live.tree live.address ≡ Some live) } by { Prim.hlevel props },
}

impl<'a, 's, L> KnownTree<'a, 's, L> {
    // Finds the pair of a block in the table. A block that is asked for again is not looked for again.
    fn find(&mut self, e: &Expect)
        ensures value { self.new.found ≡ pairs_of self.old.table.now (e.now).tree (e.now).address }
        ensures table { self.new.table.now ≡ self.old.table.now }
        ensures marks { self.new.marks.now ≡ self.old.marks.now }
        ensures moves { self.new.moves.now ≡ self.old.moves.now }
        ensures starts { self.new.starts.now ≡ self.old.starts.now }
        ensures met { self.new.met ≡ self.old.met }
        ensures ended { self.new.ended ≡ self.old.ended }
        ensures loan { self.new.steps.ghost_name ≡ self.old.steps.ghost_name }
        ensures looks { self.new.steps.now ≤ self.old.steps.now + 3 }
        ensures found { IfSome self.new.found (λ _. is_found self.new.found e.now ≡ true) }
        ensures again { is_found self.old.found e.now ≡ true
            → self.new.steps.now ≡ self.old.steps.now }
    {
        if let Some(live) = &self.found
            && live.address == e.address
            && live.tree == e.tree
        {
            return;
        }
        self.found = self.look_for(e);
    }

    // The pair of a block, looked for in the table: first at the pair that comes next in the order of keys.
    fn look_for(&mut self, e: &Expect) -> Option<Live>
        ensures value { result ≡ pairs_of self.old.table.now (e.now).tree (e.now).address }
        ensures table { self.new.table.now ≡ self.old.table.now }
        ensures marks { self.new.marks.now ≡ self.old.marks.now }
        ensures moves { self.new.moves.now ≡ self.old.moves.now }
        ensures starts { self.new.starts.now ≡ self.old.starts.now }
        ensures met { self.new.met ≡ self.old.met }
        ensures ended { self.new.ended ≡ self.old.ended }
        ensures loan { self.new.steps.ghost_name ≡ self.old.steps.ghost_name }
        ensures looks { self.new.steps.now ≤ self.old.steps.now + 3 }
        ensures own { IfSome result (λ live.
            (live.tree ≡ (e.now).tree) × (live.address ≡ (e.now).address)) }
    {
        if let Some(walk) = &mut self.behind
            && let Some(live) = walk.next(self.steps)
            && live.address == e.address
            && live.tree == e.tree
        {
            return Some(live);
        }
        let live = self.table.get(e.tree, e.address, self.steps)?;
        self.behind = Some(self.table.behind(&live, self.steps));
        Some(live)
    }
}

impl<'a, 's, L> Keeps for KnownTree<'a, 's, L> {
    ghost use Rattle.shared_trees.specs.KnownTrees.{ended_by, kept_by, lasts_by, listed_by, loan_by, looks_by, met_by, pairs_by, ready_by};

    ghost keeps = { kept_by };

    ghost anew = { listed_by };

    ghost met = { met_by };

    ghost pairs = { pairs_by };

    ghost lasts = { lasts_by };

    ghost ended = { ended_by };

    ghost looks = { looks_by };

    ghost loan = { loan_by };

    ghost ready = { ready_by };

    #[tactic(auto, unfolding(tree_laws::specs::Keeping::kept_of))]
    fn kept(&mut self, e: &Expect) -> Option<Key> {
        if self.marks.has(e.tree, e.address) || self.moves.passes(e.address) {
            return None;
        }
        self.find(e);
        bound_in(self.found.as_ref(), self.starts, e)
    }

    #[tactic(auto, unfolding(tree_laws::specs::Meeting::with_met))]
    fn meet(&mut self, e: &Expect) -> Result<(), NoMemory> {
        self.find(e);
        let one = Met {
            expect: *e,
            live: self.found,
        };
        Ok(self.met.push(one)?)
    }

    fn count(&self, e: &Expect) -> usize {
        count_below(self.starts, e)
    }

    fn next(&mut self, e: &Expect, i: usize) -> Expect {
        next_below(self.starts, e, i)
    }

    #[tactic(auto, unfolding(tree_laws::specs::Known::last_of))]
    fn last(&mut self, e: &Expect) -> Option<Key> {
        if is_last_walked(self.starts.of(e.tree, e.address)) {
            return None;
        }
        self.find(e);
        Some(self.found.as_ref()?.last)
    }

    #[tactic(auto, unfolding(tree_laws::specs::Ending::with_ended))]
    fn end(&mut self, e: &Expect, last: Key) -> Result<(), NoMemory> {
        Ok(self.ended.push(Ended { expect: *e, last })?)
    }
}

// The greatest key that is sure to stand in the block that is expected, or below it, where its pair is as it is expected.
pub(crate) fn bound_in(live: Option<&Live>, starts: &Starts, e: &Expect) -> Option<Key>
    ensures value { result ≡ last_if_same e.now (under_of starts.now (e.now).tree (e.now).address)
        (option_copied live.entry) }
{
    let live = live?;
    if is_same(e, live) {
        Some(bound(starts.of(e.tree, e.address), live.last))
    } else {
        None
    }
}

// How many children are listed below the block that is expected.
#[tactic(auto, using(tree_laws::proofs::Knowing::starts_length))]
pub(crate) fn count_below(starts: &Starts, e: &Expect) -> usize
    ensures { result ≡ length (anew_of (under_of starts.now) e.now) }
{
    starts.of(e.tree, e.address).len()
}

// What is expected of one of these, by its number in their order.
#[tactic(auto, using(tree_laws::proofs::Knowing::starts_length, tree_laws::proofs::Knowing::starts_more))]
pub(crate) fn next_below(starts: &Starts, e: &Expect, i: usize) -> Expect
    requires inside { i < length (anew_of (under_of starts.now) e.now) }
    ensures next { drop i (anew_of (under_of starts.now) e.now)
        ≡ result ∷ drop (i + 1) (anew_of (under_of starts.now) e.now) }
    ensures level { result.level ≡ e.now.level - 1 }
{
    let start = starts.of(e.tree, e.address)[i];
    expected(e, &start)
}

// Whether the last child of a block is among those that are walked: no pointer follows it.
fn is_last_walked(starts: &[Start]) -> bool
    ensures { result ≡ is_last_walked starts.now }
{
    starts.iter().any(|start| start.next.is_none())
}

// What is expected of a child that is walked below a block.
fn expected(e: &Expect, start: &Start) -> Expect
    ensures { result ≡ start_of (e.now.level - 1) e.now start.now }
{
    Expect {
        tree: e.tree,
        address: start.pointer.address,
        generation: start.pointer.generation,
        level: e.level.saturating_sub(1),
        low: Some(start.pointer.key),
        high: start.next.or(e.high),
        parent: e.address,
    }
}

// The greatest key that is sure to stand in a block or below it, of which this was the greatest.
#[tactic(auto, using(tree_laws::proofs::Knowing::bound_here, tree_laws::proofs::Knowing::bound_later))]
fn bound(starts: &[Start], last: Key) -> Key
    ensures { result ≡ bound_of starts.now last }
{
    for start in starts {
        match start.next {
            None => return start.pointer.key,
            Some(_) => {}
        }
    }
    last
}

// Whether the block that is expected is the one that is known.
fn is_same(e: &Expect, live: &Live) -> bool
    ensures { result ≡ is_same e.now live.now }
{
    e.level == live.level && e.generation == live.generation && is_first(e, live)
}

// Whether the first key of a block is the one that is expected. A root expects none, and has no high key. An empty leaf, whose first key
// is above its greatest one, is a root alone.
fn is_first(e: &Expect, live: &Live) -> bool
    ensures { result ≡ is_first live.now e.now.low e.now.high }
{
    match e.low {
        None => e.high.is_none(),
        Some(low) => live.first == low && live.last >= live.first,
    }
}
