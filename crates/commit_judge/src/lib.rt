//! The judge of a commit: from the blocks that the accepted image and the judged one do not share, and from an index of the accepted image.
#![tactic(auto)]

mod apply;
mod build;
mod context;
mod filler;
mod filling;
mod finding;
mod fresh;
mod hot;
mod index;
mod judge;
mod laws;
mod moves;
mod plan;
mod posts;
mod roots;
mod runs;
mod spans;

pub use build::Built;
pub use index::Index;
pub use judge::{Judged, judge_commit, judge_within};
pub use laws::{few_looks_law, frame_law, known_law, stop_law, work_law};
