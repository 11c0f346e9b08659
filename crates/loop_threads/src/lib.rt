//! The threads of a broker over many links: two loops, whoever makes flush turns, and the keeper of the config files. Each thread owns
//! what it works with, and gives it back at its end.
#![tactic(auto)]

mod callers;
mod keeper;
mod threads;

pub use callers::CALLERS;
pub use threads::{Keeping, Ran, Worker, run_all};
