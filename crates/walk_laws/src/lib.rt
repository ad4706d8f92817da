//! Laws of the walk of a tree, which follow from its definition. Each stands on a function that does nothing.
#![tactic(auto)]

ghost use Rattle.walk_laws.specs.WalkOrder.{WalksAscend};

/// The keys of the items that a walk gives ascend, whatever is stored: each stands before all later ones, by object id,
/// then kind, then offset, as unsigned numbers.
pub fn walks_ascend()
    ensures { WalksAscend }
{}
