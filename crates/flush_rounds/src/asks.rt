//! How check-backs come from the flusher to the loops: a way to each, whose one end the flusher has.

ghost use Rattle.std.specs.Prelude.{◌≡◌, ◌<◌, ◌^◌, [], ◌∷◌, IfOk};
ghost use Rattle.flush_rounds.specs.Ways.{ArePair, taken_by};
ghost use Rattle.worker_turns.specs.Acts.{IsFree};
ghost use Rattle.flush_rounds.specs.Asking.{HasNoneAsked, MakesAsking, PutsSome, Ripens};
ghost use Rattle.flush_rounds.specs.Timing.{AreDueNow, AreNotDue};

use crate::ways::{Receiver, Sender, way};
use broker_events::Calls;
use event_loops::{Picked, Takes};
use link_service::Port;
use mq_peers::Ready;
use reply_fields::Ask;
use std::alloc::{AllocError, Global};
use worker_turns::{check_turn, ripe_asks};

/// How many loops there are.
pub const LOOPS: usize = 2;

/// So many check-backs may be on their way to a loop. One that finds no room is dropped: the next check asks again.
const WAY_MAX: usize = 1_024;

/// The end of a way at which a loop takes check-backs.
#[derive(Drop)]
pub struct LoopAsks {
    pub way: Receiver<Ask>,
}

impl Takes for LoopAsks {
    ghost use Rattle.flush_rounds.specs.Asking.{HasTaken, taken_none, taken_more};

    ghost takes = { λ old taken new. HasTaken old.way taken new.way };

    fn take(&mut self) -> Picked {
        match self.way.take() {
            Some(ask) => Picked::Ask(ask),
            None => Picked::Nothing,
        }
    }

    ghost takes_none = { λ end. taken_none end.way };

    ghost takes_more = { λ old first mid rest new h k. taken_more old.way first mid.way rest new.way h k };
}

/// The flusher's ends of the ways to both loops, and the check-backs that wait until their records are on the disk, each with the
/// number of its record.
#[derive(Drop)]
pub struct AskWays {
    pub first: Sender<Ask>,
    pub second: Sender<Ask>,
    pub held: Vec<(u64, Ask)>,
}

/// Both ways, all ends of them.
#[derive(Drop)]
pub struct Ways {
    pub sends: AskWays,
    pub first: LoopAsks,
    pub second: LoopAsks,
}

impl Ways {
    /// Ways by which nothing has come.
    pub fn new(alloc: Global) -> Result<Ways, AllocError>
        ensures pairs { IfOk result (λ it. ArePair it.sends.first it.first.way × ArePair it.sends.second it.second.way) }
        ensures none_asked { IfOk result (λ it. HasNoneAsked it.sends) }
        ensures none_taken { IfOk result (λ it. (taken_by it.first.way ≡ []) × (taken_by it.second.way ≡ [])) }
    {
        let (to_first, first) = way(alloc, WAY_MAX)?;
        let (to_second, second) = way(alloc, WAY_MAX)?;
        Ok(Ways {
            sends: AskWays {
                first: to_first,
                second: to_second,
                held: Vec::new(alloc),
            },
            first: LoopAsks { way: first },
            second: LoopAsks { way: second },
        })
    }
}

impl AskWays {
    // Puts a check-back on the way to one of the two loops. Answers whether there was room.
    fn put(&mut self, to: usize, ask: Ask) -> bool
        ensures { PutsSome self.old (ask ∷ []) self.new }
    {
        if to == 0 {
            self.first.put(ask)
        } else {
            self.second.put(ask)
        }
    }

    // Sends a check-back to the loop that has the link that it names, if one has it, and wakes this loop.
    fn send<P: Ready>(&mut self, ports: &[Port<P>], ask: Ask)
        ensures { PutsSome self.old (ask ∷ []) self.new }
    {
        let to = ask.link as usize % LOOPS;
        if self.put(to, ask)
            && let Some(port) = ports.get(to)
        {
            port.wake();
        }
    }

    // Sends all of these.
    fn send_all<P: Ready>(&mut self, ports: &[Port<P>], asks: Vec<Ask>)
        ensures { PutsSome self.old asks.items self.new }
    {
        let mut asks = asks.into_iter();
        while let Some(ask) = asks.next() {
            self.send(ports, ask);
        }
    }

    /// Checks the half messages that are due at this reading of the clock, in milliseconds. Whom to ask is held. Answers whether any
    /// was checked. What memory ran out for is checked later.
    pub(crate) fn check<C: Calls>(&mut self, alloc: Global, calls: &mut C, now: u64) -> bool
        requires now { now < 2 ^ 62 }
        ensures made { MakesAsking C.makes (AreDueNow now) calls.old self.old calls.new self.new }
        ensures free { IsFree (C.has_key calls.old) (C.shown calls.old) → IsFree (C.has_key calls.new) (C.shown calls.new) }
    {
        check_turn(alloc, calls, now, &mut self.held).unwrap_or(0) > 0
    }

    // Takes out those that wait no further, and answers the ones whose records are on the disk. Where memory runs out all wait
    // further.
    fn ripen<C: Calls>(&mut self, alloc: Global, calls: &mut C) -> Vec<Ask>
        ensures made { Ripens C.makes calls.old self.old result.items calls.new self.new }
        ensures free { IsFree (C.has_key calls.old) (C.shown calls.old) → IsFree (C.has_key calls.new) (C.shown calls.new) }
    {
        let mut ripe = Vec::new(alloc);
        match ripe_asks(alloc, calls, &mut self.held, &mut ripe) {
            Ok(()) => ripe,
            Err(_) => {
                drop(ripe);
                Vec::new(alloc)
            }
        }
    }

    /// Sends the check-backs whose records are on the disk, each to the loop that has its link. Those of a failed flush turn are
    /// dropped, and the others wait further. What memory ran out for waits, too.
    pub(crate) fn hand_out<C: Calls, P: Ready>(
        &mut self,
        alloc: Global,
        calls: &mut C,
        ports: &[Port<P>],
    )
        ensures made { MakesAsking C.makes AreNotDue calls.old self.old calls.new self.new }
        ensures free { IsFree (C.has_key calls.old) (C.shown calls.old) → IsFree (C.has_key calls.new) (C.shown calls.new) }
    {
        if self.held.is_empty() {
            return;
        }
        let ripe = self.ripen(alloc, calls);
        self.send_all(ports, ripe);
    }
}
