//! What the log says, as the core knows it.

ghost use Rattle.std.specs.Prelude.{◌≡◌, ◌↔◌, ◌≤◌, ◌⊎◌, ℕ, IsTrue};
ghost use Rattle.log_model.specs.Bases.{geometry};
ghost use Rattle.log_model.specs.Log.{IsWellFormed};
ghost use Rattle.log_model.specs.Numbered.{Log, count_of};
ghost use Rattle.half_view.specs.OfLog.{AreHalvesOf};
ghost use Rattle.broker_model.specs.State.{State, seen};
ghost use Rattle.core_log.specs.Represents.{Represents};
ghost use Rattle.gen_run.specs.Sums.{CountsOrigins, IsOriginIn, IsSummaryOf, half_count, in_queue};

use crate::summary::Summary;
use broker_core::Core;
use half_view::HalfView;
use log_model::OriginState;

// How many records of this queue of the generator's topic consumers see.
fn count_queue(core: &Core, queue: u32) -> u64
    ensures { (s : State) → Represents core.now s → result ≡ in_queue (seen s) queue }
{
    let queues = core.queues();
    match queues.find("gen", queue) {
        Some(table) => queues.max(table),
        None => 0,
    }
}

// Whether the half message with this queue offset is an origin of which this became.
fn is_origin_in(halves: &HalfView, state: OriginState, half: u64) -> bool
    ensures { (segment : ℕ) (log : Log) → IsWellFormed (geometry segment log.base) log.records → AreHalvesOf log halves.now
        → (IsTrue result ↔ IsOriginIn log.records state half) }
{
    match halves.state_of(half) {
        Some(found) => found == state,
        None => false,
    }
}

// 1 where the half message with this queue offset is an origin of which this became.
fn count_origin(halves: &HalfView, state: OriginState, half: u64) -> u64
    ensures counts { (segment : ℕ) (log : Log) → IsWellFormed (geometry segment log.base) log.records → AreHalvesOf log halves.now
        → (IsOriginIn log.records state half × (result ≡ 1)) ⊎ ((IsOriginIn log.records state half → ⊥) × (result ≡ 0)) }
    ensures few { result ≤ 1 }
{
    if is_origin_in(halves, state, half) {
        1
    } else {
        0
    }
}

// How many half messages are origins of which this became.
fn count_origins(halves: &HalfView, state: OriginState) -> u64
    ensures { (segment : ℕ) (log : Log) → IsWellFormed (geometry segment log.base) log.records → AreHalvesOf log halves.now
        → CountsOrigins log.records state (half_count log) result }
{
    let mut count = 0;
    for half in 0..halves.end() {
        count += count_origin(halves, state, half);
    }
    count
}

/// What the log of the core says, where so many items were given and so many pulls found messages.
pub(crate) fn summary_of(core: &Core, items: u32, start: u32, found: u32) -> Summary
    ensures { (s : State) → Represents core.now s → s.dispatched ≡ count_of s.log → IsSummaryOf items start found s.log result }
{
    let halves = core.halves().table();
    let levels = core.levels().table();
    Summary {
        items,
        start,
        records: core.counts().records,
        queues: [
            count_queue(core, 0),
            count_queue(core, 1),
            count_queue(core, 2),
            count_queue(core, 3),
        ],
        halves: halves.end(),
        committed: count_origins(halves, OriginState::Committed),
        rolled_back: count_origins(halves, OriginState::RolledBack),
        left_open: count_origins(halves, OriginState::Open),
        delayed: levels.max(1),
        delivered: levels.progress(1),
        found,
    }
}
