//! The turns of the workers: one flush turn, turns until nothing is pending, one dispatch, and deliveries and checks until none is
//! due. Each is generic over who makes the broker's steps.
#![tactic(auto)]

mod broken;
mod checks;
mod delays;
mod dispatch;
mod due;
mod flush;
mod turning;

pub use broken::Broken;
pub use checks::{check_turn, ripe_asks};
pub use delays::delay_turn;
pub use dispatch::dispatch_turn;
pub use due::{due_asks, due_turns};
pub use flush::{FlushEnd, flush_turn};
pub use turning::{flush_all, flush_and_dispatch, turn};
