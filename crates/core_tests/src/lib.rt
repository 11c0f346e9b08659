//! The core over a disk in memory: what no client sees, and one answer to each kind of event.
#![tactic(auto)]

#[cfg(test)]
mod answers;
#[cfg(test)]
mod check_tests;
#[cfg(test)]
mod event_tests;
#[cfg(test)]
mod events;
#[cfg(test)]
mod stage;
#[cfg(test)]
mod turn_tests;
#[cfg(test)]
mod words;
