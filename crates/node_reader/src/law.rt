//! What the rules of a block rest on.

ghost use Rattle.node_reader.specs.HighLaw.{HighDecides};

/// The high key of what is expected of a block decides the rule on its last key (N12) alone, and the node above
/// decides none. So what breaks no rule under one high key breaks at most that rule under another.
pub fn high_decides()
    ensures { HighDecides }
{}
