//! The keeper: the two kept files follow what the core has, a few seconds behind it.

ghost use Rattle.std.specs.Prelude.{◌≤◌};
ghost use Rattle.loop_threads.specs.Kept.{KeepsUp, keep_over};

use broker_core::Owner;
use keeper_turns::keeper_turn;
use link_service::Shared;
use mq_outside::Keep;
use std::alloc::Global;
use std::sync::Wait;
use std::thread::Parker;
use std::time::Duration;

/// So many milliseconds the keeper sleeps between two turns.
const PERIOD_MILLIS: u64 = 5_000;

/// Makes a keeper turn every five seconds, until the loops have ended: they ring the bell then. What one turn could not replace
/// the next one tries again.
pub(crate) fn keep_up<W: Wait, C: Owner, E: Keep>(
    rt: &W,
    alloc: Global,
    shared: &Shared,
    bell: &Parker,
    calls: &mut C,
    keep: &mut E,
)
    ensures kept { KeepsUp C.sees (keep_over E.tells (E.state keep.old) (E.state keep.new)) calls.old calls.new }
    ensures grow { E.faults keep.old ≤ E.faults keep.new }
{
    let mut last = None;
    for _ in rt.forever() {
        bell.park_timeout(rt, Duration::from_millis(PERIOD_MILLIS));
        if shared.is_over() {
            return;
        }
        let _ = keeper_turn(alloc, calls, keep, &mut last);
    }
    unreachable!()
}
