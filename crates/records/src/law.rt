//! What the walk of a tree rests on.

ghost use Rattle.records.specs.WalkLaw.{HighLeaves, VisitsDecide};

/// A walk rests on what is stored where it comes to alone: where the same is stored at each of these addresses, it
/// gives the same.
pub fn visits_decide()
    ensures { VisitsDecide }
{}

/// A high key leaves a block's own records as they are: no record has it, and no rule of an item looks at it. The
/// node above stands in the record of the block alone.
pub fn high_leaves()
    ensures { HighLeaves }
{}
