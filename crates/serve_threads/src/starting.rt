//! Whether threads can be started. Where one can't, `join` makes its work last, in the thread that called it: a run of
//! `serve` would then wait for a loop that never begins, and let nobody in.

use std::sync::Wait;
use std::sync::atomic::{AtomicU64, Ordering};
use std::thread::{Scope, Threads, scope, scope_env};

/// So many threads `serve` starts beside the one that it is called in: the flusher's, the keeper's and one loop's.
const STARTED: usize = 3;

// Waits until the gate is open, which is when its word is 1.
fn await_gate<W: Wait>(rt: &W, gate: &AtomicU64) {
    for _ in rt.forever() {
        if gate.load(Ordering::SeqCst) == 1 {
            return;
        }
        gate.park(rt, 0);
    }
    unreachable!()
}

// Opens the gate.
fn open_gate(gate: &AtomicU64) {
    gate.store(1, Ordering::SeqCst);
    gate.wake_all();
}

// Starts as many threads as `serve` does, each of which waits at the gate. Answers whether all could be started.
fn start_all<'s, E, W: Wait + Sync>(scope: &Scope<'s, E>, rt: &'s W, gate: &'s AtomicU64) -> bool {
    for _ in 0..STARTED {
        if scope.spawn(move || await_gate(rt, gate)).is_err() {
            return false;
        }
    }
    true
}

/// Whether as many threads can be started at a time as `serve` needs. It starts them, and lets all of them end. Nothing
/// is claimed of the answer, which tells of this moment alone.
pub fn can_start_threads<W: Wait + Threads + Sync>(rt: &W) -> bool {
    let gate = AtomicU64::new(0);
    let shut = &gate;
    scope(scope_env(), rt, move |it| {
        let all = start_all(it, rt, shut);
        open_gate(shut);
        all
    })
}
