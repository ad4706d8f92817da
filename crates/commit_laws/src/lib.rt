//! Laws of what a commit changes: which records of two images are the same, and what that does to accounts, spans and the rest of what an
//! index keeps. Each stands on a function that does nothing.
#![tactic(auto)]

mod commit;
mod flags;
mod frame;
mod items;
mod paired;
mod same;
mod sectors;
mod sound;
mod steps;
mod stops;

pub use commit::commit_law;
pub use flags::{flags_law, hot_law, table_moved_law};
pub use frame::frame_law;
pub use items::{blocks_law, items_law};
pub use paired::{all_changes_law, found_law, paired_law};
pub use same::{held_law, records_law};
pub use sectors::{judged_law, runs_law, sectors_law};
pub use sound::{ascend_law, known_spans_law, sound_law};
pub use steps::{posts_law, spans_law, step_law, whole_step_law};
pub use stops::stop_law;
