//! When delayed messages are to be delivered and half messages to be checked, which the flusher does.

ghost use Rattle.std.specs.Prelude.{◌≡◌, ◌<◌, ◌≤◌, ◌^◌};
ghost use Rattle.core_log.specs.declared.parts.Parts.{Parts};
ghost use Rattle.worker_turns.specs.Acts.{IsFree};
ghost use Rattle.worker_turns.specs.Delays.{Delivers};
ghost use Rattle.event_loops.specs.Timing.{clock_over};
ghost use Rattle.flush_rounds.specs.Asking.{MakesAsking};
ghost use Rattle.flush_rounds.specs.Deliveries.{DeliversSome, IsNextDue, MakesDuties, most_at_once, sooner_of};
ghost use Rattle.flush_rounds.specs.Timing.{AreDueNow, AreNotDue, IsAttended};

use crate::asks::AskWays;
use broker_core::{Core, Owner};
use broker_events::{Calls, Event, Said};
use mq_outside::Clock;
use std::alloc::{AllocError, Global};
use worker_turns::FlushEnd;

/// So many messages are delivered before what that appended is flushed: about what a flush writes where many producers send. So
/// however many fall due at once, sends go on between, and find room among the pending bytes.
const DELIVERIES_MAX: u32 = 256;

/// Where records were appended since the last look, the next one is made so many milliseconds after it: a message that they delay is
/// due after a second at the earliest, and a half message is checked after six, so both are seen in time, and no flush turn costs a look
/// of its own.
const LOOK_MILLIS: u64 = 500;

/// Where what is due could not be delivered, it is tried again after so many milliseconds.
const RETRY_MILLIS: u64 = 500;

/// So many milliseconds the flusher sleeps at most while a message waits, so that a clock that was set forward is noticed.
const SLEEP_MAX_MILLIS: u64 = 60_000;

/// Whether a turn that a loop makes meanwhile has to wake the flusher, which sleeps so many milliseconds at most: by itself it looks too
/// late whether what was appended is due.
pub(crate) fn is_long(rest: Option<u64>) -> bool {
    match rest {
        Some(millis) => millis > LOOK_MILLIS,
        None => true,
    }
}

// The earlier of two times, each of which may be none.
fn sooner(one: Option<u64>, other: Option<u64>) -> Option<u64>
    ensures { result ≡ sooner_of one other }
{
    match (one, other) {
        (Some(one), Some(other)) => Some(one.min(other)),
        (Some(one), None) => Some(one),
        (None, other) => other,
    }
}

// When a delivery or a check is next due, by one look. `None` where no message waits.
fn next_due<C: Owner>(alloc: Global, calls: &mut C) -> Option<u64>
    ensures next { (core : Parts) × C.sees calls.old core calls.new × IsNextDue core result }
    ensures made { MakesDuties C.makes AreNotDue calls.old calls.new }
    ensures free { IsFree (C.has_key calls.old) (C.shown calls.old) → IsFree (C.has_key calls.new) (C.shown calls.new) }
{
    calls.look(
        alloc,
        |core: &Core| -> Option<u64>
            ensures { IsNextDue core.now result }
        { sooner(core.next_delivery(), core.next_check()) },
    )
}

// Makes one delivery, if a message is due. Answers whether one was made.
fn deliver<C: Calls>(alloc: Global, calls: &mut C, now: u64) -> Result<bool, AllocError>
    requires now { now < 2 ^ 62 }
    ensures made { Delivers C.makes now calls.old result calls.new }
    ensures free { IsFree (C.has_key calls.old) (C.shown calls.old) → IsFree (C.has_key calls.new) (C.shown calls.new) }
{
    let event = Event::Deliver { now };
    let said = calls.call(alloc, &event);
    drop(event);
    match said {
        Ok(Said::Delivered(delivered)) => Ok(delivered.is_some()),
        Ok(said) => {
            drop(said);
            Ok(false)
        }
        Err(fault) => Err(fault),
    }
}

// Delivers the messages that are due at this reading of the clock, in milliseconds, until none is, there is no room for one, or as many
// were delivered as are at once. Answers how many.
fn deliver_due<C: Calls>(alloc: Global, calls: &mut C, now: u64) -> u32
    requires now { now < 2 ^ 62 }
    ensures few { result ≤ most_at_once }
    ensures made { DeliversSome C.makes now calls.old result calls.new }
    ensures free { IsFree (C.has_key calls.old) (C.shown calls.old) → IsFree (C.has_key calls.new) (C.shown calls.new) }
{
    for count in 0..DELIVERIES_MAX {
        match deliver(alloc, calls, now) {
            Ok(true) => {}
            Ok(false) => return count,
            Err(_) => return count,
        }
    }
    DELIVERIES_MAX
}

// How many milliseconds the flusher may sleep after so many deliveries, and checks or none: none where anything is to be flushed.
fn rest_after(delivered: u32, checked: bool) -> u64 {
    if delivered > 0 || checked {
        0
    } else {
        RETRY_MILLIS
    }
}

// When a look was made, and how many flush turns had ended then.
#[derive(Clone, Copy)]
struct Looked {
    at: u64,
    turns: u64,
}

/// The flusher's clock, and what it knows of the messages that wait.
#[derive(Drop)]
pub struct Timetable<K: Clock> {
    pub(crate) clock: K,
    // When the next one is due, by the last look.
    next: Option<u64>,
    // The last look, unless a new one has to be made.
    looked: Option<Looked>,
}

impl<K: Clock> Timetable<K> {
    /// Nothing is known yet.
    pub fn new(clock: K) -> Timetable<K>
        ensures { result.clock ≡ clock }
    {
        Timetable {
            clock,
            next: None,
            looked: None,
        }
    }

    /// The clock again.
    pub fn into_clock(self) -> K
        ensures { result ≡ self.clock }
    {
        let Timetable {
            clock,
            next: _,
            looked: _,
        } = self;
        clock
    }

    // Whether another look has to be made, where so many flush turns have ended. Of a clock that stands or went back nothing can be
    // said, so then it has.
    fn is_old(&self, now: u64, turns: u64) -> bool {
        match self.looked {
            Some(looked) => {
                looked.turns != turns && (now <= looked.at || now - looked.at >= LOOK_MILLIS)
            }
            None => true,
        }
    }

    // Looks when something is next due, where that may have changed.
    #[tactic(auto, using(crate::proofs::Delivering::no_duties))]
    fn look_up<C: Owner>(&mut self, alloc: Global, calls: &mut C, now: u64, turns: u64)
        ensures clock { self.new.clock ≡ self.old.clock }
        ensures made { MakesDuties C.makes AreNotDue calls.old calls.new }
        ensures free { IsFree (C.has_key calls.old) (C.shown calls.old) → IsFree (C.has_key calls.new) (C.shown calls.new) }
    {
        if self.is_old(now, turns) {
            self.next = next_due(alloc, calls);
            self.looked = Some(Looked { at: now, turns });
        }
    }

    // Whether something is due.
    fn is_due(&self, now: u64) -> bool {
        match self.next {
            Some(next) => next <= now,
            None => false,
        }
    }

    // How many milliseconds the flusher may sleep where so many flush turns have ended, and nothing is due.
    fn rest(&self, now: u64, turns: u64) -> Option<u64> {
        let soon = self
            .next
            .map(|next| next.saturating_sub(now).min(SLEEP_MAX_MILLIS));
        match self.looked {
            Some(looked) if looked.turns == turns => soon,
            _ => Some(soon.unwrap_or(LOOK_MILLIS).min(LOOK_MILLIS)),
        }
    }

    // Delivers and checks what is due. Answers how many milliseconds the flusher may sleep then.
    fn do_due<C: Calls>(
        &mut self,
        alloc: Global,
        calls: &mut C,
        ways: &mut AskWays,
        now: u64,
    ) -> u64
        requires now { now < 2 ^ 62 }
        ensures clock { self.new.clock ≡ self.old.clock }
        ensures made { MakesAsking C.makes (AreDueNow now) calls.old ways.old calls.new ways.new }
        ensures free { IsFree (C.has_key calls.old) (C.shown calls.old) → IsFree (C.has_key calls.new) (C.shown calls.new) }
    {
        self.looked = None;
        let delivered = deliver_due(alloc, calls, now);
        let checked = ways.check(alloc, calls, now);
        rest_after(delivered, checked)
    }

    /// Delivers the messages that are due at the clock's reading, as many as are delivered at once, and checks the half messages that
    /// are, where nothing is pending: `end` is how the last flush turn ended, and `turns` how many have. Answers how many milliseconds
    /// the flusher may sleep: none where anything was appended, which is to be flushed; `None` where no message waits.
    pub(crate) fn work<C: Owner>(
        &mut self,
        alloc: Global,
        calls: &mut C,
        ways: &mut AskWays,
        end: FlushEnd,
        turns: u64,
    ) -> Option<u64>
        ensures made { MakesAsking C.makes
            (IsAttended (clock_over K.tells (K.readings self.old.clock) (K.readings self.new.clock)))
            calls.old ways.old calls.new ways.new }
        ensures free { IsFree (C.has_key calls.old) (C.shown calls.old) → IsFree (C.has_key calls.new) (C.shown calls.new) }
    {
        let Ok(now) = self.clock.now() else {
            return Some(RETRY_MILLIS);
        };
        self.look_up(alloc, calls, now, turns);
        if !self.is_due(now) {
            return self.rest(now, turns);
        }
        if end != FlushEnd::Idle {
            return Some(RETRY_MILLIS);
        }
        Some(self.do_due(alloc, calls, ways, now))
    }
}
