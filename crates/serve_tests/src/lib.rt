//! Tests of what serves many links: the lock, the turns of the workers, what a link says, and callers who share a
//! broker.
#![tactic(auto)]

#[cfg(test)]
mod ask_way_tests;
#[cfg(test)]
mod messages;
#[cfg(test)]
mod numbers;
#[cfg(test)]
mod sharing_tests;
#[cfg(test)]
mod story_tests;
#[cfg(test)]
mod talk_tests;
#[cfg(test)]
mod turn_tests;
