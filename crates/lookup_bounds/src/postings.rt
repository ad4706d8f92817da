//! How much a commit posts.

ghost use Rattle.lookup_bounds.specs.Postings.{PostingsLaw};

use commit_laws::{
    all_changes_law, blocks_law, flags_law, found_law, held_law, items_law, paired_law,
};

/// A commit takes away and brings no more postings than there are of the items that count and of the blocks that are not shared.
pub fn postings_law()
    ensures { PostingsLaw }
{
    held_law();
    items_law();
    blocks_law();
    all_changes_law();
    found_law();
    paired_law();
    flags_law();
}
