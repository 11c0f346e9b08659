//! Tests of what is outside: disks, keeps, streams, clocks, doors and links, in memory and real.
#![tactic(auto)]

#[cfg(test)]
mod disk_tests;
#[cfg(test)]
mod echo;
#[cfg(test)]
mod folder_tests;
#[cfg(test)]
mod keep_tests;
#[cfg(test)]
mod mem_tests;
#[cfg(test)]
mod moves;
#[cfg(test)]
mod stream_tests;
#[cfg(test)]
mod tcp_tests;
