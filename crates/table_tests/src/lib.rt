//! Tests of the tables: chunks, queues, keys, half messages, delays and what they keep, groups, and the end of the log that is not
//! yet on the disk.
#![tactic(auto)]

#[cfg(test)]
mod chunk_tests;
#[cfg(test)]
mod delay_tests;
#[cfg(test)]
mod group_tests;
#[cfg(test)]
mod half_tests;
#[cfg(test)]
mod key_tests;
#[cfg(test)]
mod level_tests;
#[cfg(test)]
mod pending_tests;
#[cfg(test)]
mod queue_tests;
