//! Tests of calls of `serve`, over devices in memory, and one over TCP.
#![tactic(auto)]

#[cfg(test)]
mod delay_runs;
#[cfg(test)]
mod held_disk;
#[cfg(test)]
mod journal;
#[cfg(test)]
mod links;
#[cfg(test)]
mod peer;
#[cfg(test)]
mod peer_runs;
#[cfg(test)]
mod replies;
#[cfg(test)]
mod serve_runs;
#[cfg(test)]
mod tcp_runs;
