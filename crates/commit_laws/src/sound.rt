//! Laws of what is known of an accepted image, and of what a commit takes away.

ghost use Rattle.commit_laws.specs.Sound.{AscendLaw, KnownSpansLaw, SoundLaw};

use crate::flags::{flags_law, table_moved_law};
use crate::items::{blocks_law, items_law};
use crate::paired::{all_changes_law, found_law};
use crate::same::held_law;
use crate::sectors::{judged_law, runs_law, sectors_law};
use crate::steps::{posts_law, spans_law, step_law, whole_step_law};

/// The spans that are known of an accepted image are lawful and whole, and an inode shows one at most at an offset.
pub fn known_spans_law()
    ensures { KnownSpansLaw }
{
    held_law();
    items_law();
}

/// What a commit takes away and brings is sound, and what it takes away stands.
pub fn sound_law()
    ensures { SoundLaw }
{
    held_law();
    items_law();
    blocks_law();
    all_changes_law();
    found_law();
    step_law();
    whole_step_law();
    posts_law();
    spans_law();
    sectors_law();
    runs_law();
    judged_law();
    flags_law();
    table_moved_law();
}

/// The root items of an image ascend strictly by their keys.
pub fn ascend_law()
    ensures { AscendLaw }
{}
