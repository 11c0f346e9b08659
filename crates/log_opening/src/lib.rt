//! With which core does a log open? It is recovered and loaded, the files that hold it are frozen, and the core opens over both.
#![tactic(auto)]

mod freezing;
mod loading;
mod opening;

pub use opening::{Opened, open_log, open_log_with};
