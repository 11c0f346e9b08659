//! Tests of calls of `pipe`, over devices in memory; and what they have in common with those of `serve`: requests as bytes, what the
//! first of them is answered with, and where a reply has a text.
#![tactic(auto)]

#[cfg(test)]
mod devices;
mod frames;
#[cfg(test)]
mod pipe_runs;
mod replies;

pub use frames::{
    put_delayed_send, put_half_send, put_hasty_send, put_heartbeat, put_pull, put_send,
};
pub use replies::{FIRST_SENT, HOST, end_of};
