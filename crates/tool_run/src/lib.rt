//! Where is a message in a store, and is the store sound? The tools over a store that no broker has open. They change
//! nothing of it.
#![tactic(auto)]

mod asked;
mod beside;
mod dump;
mod ends;
mod lines;
mod loading;
mod ran;
mod reading;
mod run;
mod sound;
mod texts;

pub use asked::asked_tool;
pub use beside::Beside;
pub use ends::{end_damaged, end_unopened, end_whole};
pub use lines::Lines;
pub use ran::ToolRan;
pub use run::run_tool;
