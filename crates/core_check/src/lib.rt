//! Does a core have in its tables what its log says? All of a table is looked at, and each record of the log once.
#![tactic(auto)]

mod comparison;

pub use comparison::compare;
