//! The blocks and items of a commit, by what two images do not share.

ghost use Rattle.lookup_bounds.specs.Blocks.{BlocksCountedLaw};

use commit_laws::{all_changes_law, paired_law};

/// A commit changes the blocks that are not shared, no more items than these have entries, and no more spans than items.
pub fn blocks_counted_law()
    ensures { BlocksCountedLaw }
{
    all_changes_law();
    paired_law();
}
