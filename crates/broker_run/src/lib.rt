//! What does one call of `pipe` do, from its arguments to its status?
#![tactic(auto)]

mod ended;
mod run;
mod serving;

pub use run::run_pipe;
