//! Does the broker keep what it is given? `gen` fills an empty store by requests of a fixed kind, settles each half message, lets
//! what is due happen, reads the log back, and tells what it holds.
#![tactic(auto)]

mod asking;
mod counting;
mod giving;
mod kinds;
mod opening;
mod requests;
mod rounds;
mod run;
mod settling;
mod stop;
mod summary;
mod texts;

pub use run::run_gen;
