//! How did a run end: with which status, and in which words?
#![tactic(auto)]

mod end;
mod lines;
mod statuses;
mod usage;

pub use end::End;
pub use lines::{Scene, status_line};
pub use statuses::{status_kept, status_of_config, status_of_fault};
pub use usage::usage_line;
