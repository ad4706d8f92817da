//! The lines that Recon prints.
#![tactic(auto)]

mod json_text;
mod line;
mod text;

pub use json_text::json_of;
pub use line::Line;
pub use text::text_of;
