//! What the arguments ask for, and whose the store is: its format, and which sizes it has.
#![tactic(auto)]

mod format;
mod gen_words;
mod help_text;
mod host;
mod laws;
mod number;
mod opening;
mod options;
mod serve_words;
mod settings;
mod status;
mod tool_words;
mod unfit;
mod words;

pub use format::{AskedSizes, Sizes};
pub use gen_words::{GenCommand, read_gen_words};
pub use help_text::{help, help_of};
pub use laws::a_cut_off_opening_leaves_a_store;
pub use opening::open_format;
pub use serve_words::{ServeCommand, read_serve_words};
pub use settings::Verb;
pub use status::Status;
pub use tool_words::{Tool, ToolCommand, read_tool_words};
pub use unfit::{Unfit, unfit_at};
pub use words::{Command, read_words};
