//! The law of the sectors that a commit changes.

ghost use Rattle.lookup_bounds.specs.Named.{NamedLaw};

use commit_laws::{blocks_law, held_law, items_law, paired_law};

/// To each sector of what is gone and counted, of what came and counts, and of the kept items that post otherwise, a posting goes that counts.
pub fn named_law()
    ensures { NamedLaw }
{
    held_law();
    items_law();
    blocks_law();
    paired_law();
}
