//! Tests of the log: what it says, its tail, its files, its recovery, its flush turns and the tools.
#![tactic(auto)]

#[cfg(test)]
mod flush_tests;
#[cfg(test)]
mod model_tests;
#[cfg(test)]
mod recovery_tests;
#[cfg(test)]
mod replay_tests;
#[cfg(test)]
mod segment_tests;
#[cfg(test)]
mod tail_tests;
#[cfg(test)]
mod tool_tests;
#[cfg(test)]
mod worked;
