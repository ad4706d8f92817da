//! The law of a commit.

ghost use Rattle.commit_laws.specs.Commit.{CommitLaw};

use crate::flags::{flags_law, table_moved_law};
use crate::items::{blocks_law, items_law};
use crate::paired::{all_changes_law, found_law};
use crate::same::held_law;
use crate::sectors::{judged_law, runs_law, sectors_law};
use crate::steps::{posts_law, spans_law, step_law, whole_step_law};

/// What is known of an accepted image, moved by what a commit changes, decides the full check of the next image.
pub fn commit_law()
    ensures { CommitLaw }
{
    held_law();
    items_law();
    blocks_law();
    all_changes_law();
    found_law();
    step_law();
    whole_step_law();
    posts_law();
    spans_law();
    sectors_law();
    runs_law();
    judged_law();
    flags_law();
    table_moved_law();
}
