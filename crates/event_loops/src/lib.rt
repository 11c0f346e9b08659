//! Loops over links: each waits until one of its links may have something to say, serves what came on all of them, and sends what
//! is due.
#![tactic(auto)]

mod asks;
mod entrance;
mod event_loop;
mod flushing;
mod laws;
mod ledger;
mod links;
mod outside;

pub use asks::{NoAsks, Picked, Takes};
pub use entrance::{Bounds, Entrance};
pub use event_loop::{Around, EventLoop, LoopEnd};
pub use flushing::{Flushes, wake_waiting};
pub use laws::{a_loop_is_told_from_its_beginning_on, each_link_of_a_loop_is_answered_in_order};
pub use ledger::Ledger;
pub use links::{Links, Numbered};
pub use outside::{Outside, watch_door};
