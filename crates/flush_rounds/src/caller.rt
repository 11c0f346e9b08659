//! A caller at the lock: the flusher, which makes rounds, or a loop, which makes a turn where nobody else is at one.

ghost use Rattle.std.specs.Prelude.{IsSome, IfSome};
ghost use Rattle.std.proofs.Props.{props};
ghost use Rattle.story_lock.specs.Passes.{IsPassOf, HasSeat};

use crate::flusher::is_idle;
use crate::state::FlushState;
use crate::timetable::is_long;
use broker_core::Owner;
use event_loops::{Around, Flushes};
use link_service::Shared;
use mq_outside::{Clock, Disk};
use mq_peers::Ready;
use std::alloc::Global;
use std::sync::Wait;
use story_lock::{Chronicle, Pass, Story};

/// A pass with its lock, and with what its turns wait by.
#[derive(Drop)]
pub struct FlushCaller<'a, S: Chronicle, W: Wait> {
    lock: &'a Story<S>,
    rt: &'a W,
    // It is there but while a call uses it.
    pass: Option<Pass<S>>,
    ghost here: { IsSome pass } by { Prim.hlevel props },
    ghost of: { IfSome pass (λ p. IsPassOf lock.now p × HasSeat p) } by { Prim.hlevel props },
}

impl<'a, S: Chronicle, W: Wait> FlushCaller<'a, S, W> {
    /// A caller with this pass.
    pub fn new(lock: &'a Story<S>, rt: &'a W, pass: Pass<S>) -> FlushCaller<'a, S, W>
        requires of { IsPassOf lock.now pass }
        requires seat { HasSeat pass }
    {
        FlushCaller {
            lock,
            rt,
            pass: Some(pass),
        }
    }
}

impl<'a, C: Owner + Drop, D: Disk + Drop, K: Clock + Drop, W: Wait> FlushCaller<
    'a,
    FlushState<C, D, K>,
    W,
> {
    // One round of the flusher.
    fn round<P: Ready>(&mut self, around: &Around<'_, W, P>, is_last: bool) -> Option<u64> {
        let Some(pass) = self.pass.take() else {
            unreachable!()
        };
        let mut turn = self.lock.enter(self.rt, pass);
        let rest = turn.state().round(around, is_last);
        self.pass = Some(turn.end(&(), &()));
        rest
    }

    /// Flushes whenever it is rung for, delivers delayed messages and checks half messages in their time by the clock of the state, and
    /// sends check-backs to the loops, until these have ended, and then flushes what is left.
    pub fn keep_flushing<P: Ready>(&mut self, around: &Around<'_, W, P>) {
        for _ in around.rt.forever() {
            // Looked at before the turns, so that these flush what the loops appended to their end.
            let over = around.shared.is_over();
            around.shared.begin_turn();
            let rest = self.round(around, over);
            let turns = around.shared.turns();
            around.shared.end_turn();
            if over {
                return;
            }
            if is_long(rest) {
                around.shared.sleep_long(around.rt, rest, turns);
            } else {
                around.shared.sleep(around.rt, rest);
            }
        }
        unreachable!()
    }
}

impl<'a, C: Owner + Drop, D: Disk + Drop, K: Clock + Drop, W: Wait> Flushes
    for FlushCaller<'a, FlushState<C, D, K>, W> {
    fn flush(&mut self, alloc: Global, shared: &Shared) -> bool {
        let Some(pass) = self.pass.take() else {
            unreachable!()
        };
        let mut turn = self.lock.enter(self.rt, pass);
        let end = turn.state().turn(alloc, shared);
        self.pass = Some(turn.end(&(), &()));
        !is_idle(end)
    }
}
