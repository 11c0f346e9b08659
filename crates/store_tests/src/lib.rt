//! Tests of what a store says of itself: arguments, formats and config files.
#![tactic(auto)]

#[cfg(test)]
mod config_tests;
#[cfg(test)]
mod open_tests;
