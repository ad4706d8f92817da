//! The pieces of pending writes.

ghost use Rattle.lookup_bounds.specs.Pieces.{PiecesLaw};

/// Each map of pending bytes has pieces, as many as runs begin in it.
pub fn pieces_law()
    ensures { PiecesLaw }
{}
