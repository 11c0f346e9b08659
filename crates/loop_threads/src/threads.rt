//! The threads: each owns what it works with, and gives it back at its end.

ghost use Rattle.std.specs.Prelude.{◌≡◌, ◌≤◌, length};
ghost use denote.Param.Send.{IsSync, IsSend};
ghost use Rattle.story_lock.specs.Passes.{IsPassOf, numbers_of, start_of};
ghost use Rattle.worker_turns.specs.Acts.{view_of};
ghost use Rattle.event_loops.specs.Causes.{CountsEnd, loop_faults};
ghost use Rattle.event_loops.specs.Doors.{AtDoor};
ghost use Rattle.event_loops.specs.Tales.{loop_view};
ghost use Rattle.event_loops.specs.Timing.{clock_over};
ghost use Rattle.loop_threads.specs.Kept.{KeepsUp, keep_over};
ghost use Rattle.loop_threads.specs.Loops.{Worked, part_of, reader_over};
ghost use Rattle.flush_rounds.specs.Timing.{clock_view};
ghost use Rattle.flush_rounds.specs.Working.{Worked as WorkedOn};

use crate::callers::{Callers, callers_of};
use crate::keeper::keep_up;
use broker_core::Owner;
use broker_events::Calls;
use event_loops::{Around, EventLoop, Flushes, LoopEnd, Outside};
use flush_rounds::{FlushState, LoopAsks};
use mq_outside::{Clock, Disk, Keep, Reader};
use mq_peers::Ready;
use std::sync::Wait;
use std::thread::{Parker, Threads, join};
use story_lock::{Pass, Story};

/// A loop with what is outside it, where check-backs come from, what it makes steps by, and what it reads pulls by.
#[derive(Drop)]
pub struct Worker<P: Ready + Drop, K: Clock + Drop, C: Calls + Drop, R: Reader + Drop> {
    pub event_loop: EventLoop<P>,
    pub outside: Outside<P, K>,
    pub asks: LoopAsks,
    pub calls: C,
    pub reader: R,
    pub end: LoopEnd,
}

// Tells the other threads that a loop has ended. A fault ends the other loops too.
fn tell_end<W: Wait, P: Ready>(around: &Around<'_, W, P>, end: LoopEnd) {
    around.shared.close();
    if end != LoopEnd::Done {
        around.shared.end();
    }
    for port in around.ports {
        port.wake();
    }
}

impl<P: Ready + Drop, K: Clock + Drop, C: Calls + Drop, R: Reader + Drop> Worker<P, K, C, R> {
    // Runs the loop to its end. It makes flush turns by this caller.
    fn run<W: Wait, H: Flushes + Drop>(
        self,
        around: &Around<'_, W, P>,
        flusher: H,
    ) -> Worker<P, K, C, R>
        ensures went { Worked C.makes (loop_view P.Link.tells P.Link.given P.Link.taken P.Ends.tells P.Ends.entries)
            (reader_over R.gives (R.faults self.reader) (R.faults result.reader))
            (clock_over K.tells (K.readings self.outside.clock) (K.readings result.outside.clock))
            (part_of self.calls self.asks self.event_loop.links)
            (part_of result.calls result.asks result.event_loop.links) }
        ensures door { AtDoor P.Door.gave result.end self.outside.entrance result.outside.entrance }
        ensures cause { CountsEnd result.end (loop_faults P.faults P.Door.faults K.faults self.outside)
            (loop_faults P.faults P.Door.faults K.faults result.outside) }
    {
        let Worker {
            mut event_loop,
            mut outside,
            mut asks,
            mut calls,
            mut reader,
            end: _,
        } = self;
        let mut flusher = flusher;
        let end = event_loop.run(
            around,
            &mut outside,
            &mut asks,
            &mut calls,
            &mut reader,
            &mut flusher,
        );
        drop(flusher);
        tell_end(around, end);
        Worker {
            event_loop,
            outside,
            asks,
            calls,
            reader,
            end,
        }
    }
}

/// What the keeper works with.
#[derive(Drop)]
pub struct Keeping<C: Owner + Drop, E: Keep + Drop> {
    pub calls: C,
    pub keep: E,
}

impl<C: Owner + Drop, E: Keep + Drop> Keeping<C, E> {
    // Keeps up until the loops have ended.
    fn run<W: Wait, P: Ready + Drop>(
        self,
        around: &Around<'_, W, P>,
        bell: &Parker,
    ) -> Keeping<C, E>
        ensures kept { KeepsUp C.sees (keep_over E.tells (E.state self.keep) (E.state result.keep)) self.calls result.calls }
        ensures grow { E.faults self.keep ≤ E.faults result.keep }
    {
        let Keeping {
            mut calls,
            mut keep,
        } = self;
        keep_up(
            around.rt,
            around.alloc,
            around.shared,
            bell,
            &mut calls,
            &mut keep,
        );
        Keeping { calls, keep }
    }
}

// Runs both loops until they have ended, and tells the flusher and the keeper so.
fn run_loops<
    W: Wait + Threads + Sync,
    P: Ready + Send + Sync + Drop,
    K: Clock + Send + Drop,
    C: Calls + Send + Drop,
    R: Reader + Send + Drop,
    H: Flushes + Send + Drop,
>(
    around: &Around<'_, W, P>,
    bell: &Parker,
    first: Worker<P, K, C, R>,
    second: Worker<P, K, C, R>,
    flushers: (H, H),
) -> (Worker<P, K, C, R>, Worker<P, K, C, R>)
    ensures first { Worked C.makes (loop_view P.Link.tells P.Link.given P.Link.taken P.Ends.tells P.Ends.entries)
        (reader_over R.gives (R.faults first.reader) (R.faults result.0.reader))
        (clock_over K.tells (K.readings first.outside.clock) (K.readings result.0.outside.clock))
        (part_of first.calls first.asks first.event_loop.links)
        (part_of result.0.calls result.0.asks result.0.event_loop.links) }
    ensures second { Worked C.makes (loop_view P.Link.tells P.Link.given P.Link.taken P.Ends.tells P.Ends.entries)
        (reader_over R.gives (R.faults second.reader) (R.faults result.1.reader))
        (clock_over K.tells (K.readings second.outside.clock) (K.readings result.1.outside.clock))
        (part_of second.calls second.asks second.event_loop.links)
        (part_of result.1.calls result.1.asks result.1.event_loop.links) }
    ensures first_door { AtDoor P.Door.gave result.0.end first.outside.entrance result.0.outside.entrance }
    ensures first_cause { CountsEnd result.0.end (loop_faults P.faults P.Door.faults K.faults first.outside)
        (loop_faults P.faults P.Door.faults K.faults result.0.outside) }
    ensures second_cause { CountsEnd result.1.end (loop_faults P.faults P.Door.faults K.faults second.outside)
        (loop_faults P.faults P.Door.faults K.faults result.1.outside) }
{
    let (near, far) = flushers;
    let (mut first, mut second) = join(
        around.rt,
        move || -> Worker<P, K, C, R>
            requires { IsSend P.Link.row × IsSend P.Door.row × IsSend P.Ends.row × IsSend P.Waker.row × IsSync P.Waker.row
                × IsSend K.row }
            ensures went { Worked C.makes (loop_view P.Link.tells P.Link.given P.Link.taken P.Ends.tells P.Ends.entries)
                (reader_over R.gives (R.faults first.reader) (R.faults result.reader))
                (clock_over K.tells (K.readings first.outside.clock) (K.readings result.outside.clock))
                (part_of first.calls first.asks first.event_loop.links)
                (part_of result.calls result.asks result.event_loop.links) }
            ensures door { AtDoor P.Door.gave result.end first.outside.entrance result.outside.entrance }
            ensures cause { CountsEnd result.end (loop_faults P.faults P.Door.faults K.faults first.outside)
                (loop_faults P.faults P.Door.faults K.faults result.outside) }
        { first.run(around, near) },
        move || -> Worker<P, K, C, R>
            requires { IsSend P.Link.row × IsSend P.Door.row × IsSend P.Ends.row × IsSend P.Waker.row × IsSync P.Waker.row
                × IsSend K.row }
            ensures went { Worked C.makes (loop_view P.Link.tells P.Link.given P.Link.taken P.Ends.tells P.Ends.entries)
                (reader_over R.gives (R.faults second.reader) (R.faults result.reader))
                (clock_over K.tells (K.readings second.outside.clock) (K.readings result.outside.clock))
                (part_of second.calls second.asks second.event_loop.links)
                (part_of result.calls result.asks result.event_loop.links) }
            ensures cause { CountsEnd result.end (loop_faults P.faults P.Door.faults K.faults second.outside)
                (loop_faults P.faults P.Door.faults K.faults result.outside) }
        { second.run(around, far) },
    );
    around.shared.loops_ended();
    bell.unpark();
    // Neither hands a link over any more.
    first
        .event_loop
        .refuse_left::<W, C, R>(around, &mut first.calls);
    second
        .event_loop
        .refuse_left::<W, C, R>(around, &mut second.calls);
    (first, second)
}

// Runs both loops, and the keeper until they have ended.
fn run_kept<
    W: Wait + Threads + Sync,
    P: Ready + Send + Sync + Drop,
    K: Clock + Send + Drop,
    C: Owner + Send + Drop,
    R: Reader + Send + Drop,
    E: Keep + Send + Drop,
    H: Flushes + Send + Drop,
>(
    around: &Around<'_, W, P>,
    first: Worker<P, K, C, R>,
    second: Worker<P, K, C, R>,
    keeping: Keeping<C, E>,
    flushers: (H, H),
) -> (Keeping<C, E>, (Worker<P, K, C, R>, Worker<P, K, C, R>))
    ensures kept { KeepsUp C.sees (keep_over E.tells (E.state keeping.keep) (E.state result.0.keep)) keeping.calls result.0.calls }
    ensures keep_grows { E.faults keeping.keep ≤ E.faults result.0.keep }
    ensures first { Worked C.makes (loop_view P.Link.tells P.Link.given P.Link.taken P.Ends.tells P.Ends.entries)
        (reader_over R.gives (R.faults first.reader) (R.faults result.1.0.reader))
        (clock_over K.tells (K.readings first.outside.clock) (K.readings result.1.0.outside.clock))
        (part_of first.calls first.asks first.event_loop.links)
        (part_of result.1.0.calls result.1.0.asks result.1.0.event_loop.links) }
    ensures second { Worked C.makes (loop_view P.Link.tells P.Link.given P.Link.taken P.Ends.tells P.Ends.entries)
        (reader_over R.gives (R.faults second.reader) (R.faults result.1.1.reader))
        (clock_over K.tells (K.readings second.outside.clock) (K.readings result.1.1.outside.clock))
        (part_of second.calls second.asks second.event_loop.links)
        (part_of result.1.1.calls result.1.1.asks result.1.1.event_loop.links) }
    ensures first_door { AtDoor P.Door.gave result.1.0.end first.outside.entrance result.1.0.outside.entrance }
    ensures first_cause { CountsEnd result.1.0.end (loop_faults P.faults P.Door.faults K.faults first.outside)
        (loop_faults P.faults P.Door.faults K.faults result.1.0.outside) }
    ensures second_cause { CountsEnd result.1.1.end (loop_faults P.faults P.Door.faults K.faults second.outside)
        (loop_faults P.faults P.Door.faults K.faults result.1.1.outside) }
{
    let bell = Parker::new();
    let rings = &bell;
    join(
        around.rt,
        move || -> Keeping<C, E>
            ensures kept { KeepsUp C.sees (keep_over E.tells (E.state keeping.keep) (E.state result.keep)) keeping.calls result.calls }
            ensures grow { E.faults keeping.keep ≤ E.faults result.keep }
        { keeping.run(around, rings) },
        move || -> (Worker<P, K, C, R>, Worker<P, K, C, R>)
            requires { IsSync W.row × IsSend P.row × IsSync P.row × IsSend P.Link.row × IsSend P.Door.row × IsSend P.Waker.row
                × IsSync P.Waker.row × IsSend K.row × IsSend C.row × IsSend R.row × IsSend H.row }
            ensures first { Worked C.makes (loop_view P.Link.tells P.Link.given P.Link.taken P.Ends.tells P.Ends.entries)
                (reader_over R.gives (R.faults first.reader) (R.faults result.0.reader))
                (clock_over K.tells (K.readings first.outside.clock) (K.readings result.0.outside.clock))
                (part_of first.calls first.asks first.event_loop.links)
                (part_of result.0.calls result.0.asks result.0.event_loop.links) }
            ensures second { Worked C.makes (loop_view P.Link.tells P.Link.given P.Link.taken P.Ends.tells P.Ends.entries)
                (reader_over R.gives (R.faults second.reader) (R.faults result.1.reader))
                (clock_over K.tells (K.readings second.outside.clock) (K.readings result.1.outside.clock))
                (part_of second.calls second.asks second.event_loop.links)
                (part_of result.1.calls result.1.asks result.1.event_loop.links) }
            ensures first_door { AtDoor P.Door.gave result.0.end first.outside.entrance result.0.outside.entrance }
            ensures first_cause { CountsEnd result.0.end (loop_faults P.faults P.Door.faults K.faults first.outside)
                (loop_faults P.faults P.Door.faults K.faults result.0.outside) }
            ensures second_cause { CountsEnd result.1.end (loop_faults P.faults P.Door.faults K.faults second.outside)
                (loop_faults P.faults P.Door.faults K.faults result.1.outside) }
        { run_loops(around, rings, first, second, flushers) },
    )
}

/// What is left once the threads have ended.
#[derive(Drop)]
pub struct Ran<
    P: Ready + Drop,
    D: Disk + Drop,
    K: Clock + Drop,
    C: Owner + Drop,
    R: Reader + Drop,
    E: Keep + Drop,
> {
    /// The flusher's clock is in it.
    pub flushing: FlushState<C, D, K>,
    pub keeping: Keeping<C, E>,
    pub first: Worker<P, K, C, R>,
    pub second: Worker<P, K, C, R>,
}

/// Runs both loops, the keeper and the flusher until the loops have ended and what they left is flushed. Then it takes the state of the
/// flush turns out of its lock.
pub fn run_all<
    W: Wait + Threads + Sync,
    P: Ready + Send + Sync + Drop,
    D: Disk + Send + Drop,
    K: Clock + Send + Drop,
    C: Owner + Send + Drop,
    R: Reader + Send + Drop,
    E: Keep + Send + Drop,
>(
    around: &Around<'_, W, P>,
    first: Worker<P, K, C, R>,
    second: Worker<P, K, C, R>,
    keeping: Keeping<C, E>,
    lock: Story<FlushState<C, D, K>>,
    turns: Pass<FlushState<C, D, K>>,
) -> Ran<P, D, K, C, R, E>
where
    D::Reader: Send,
    requires of { IsPassOf lock turns }
    requires seats { length (numbers_of turns) ≡ 3 }
    ensures worked { WorkedOn C.makes C.has_key C.shown (view_of D.tells D.state D.faults D.syncs)
        (clock_view K.tells K.readings) (start_of lock) result.flushing }
    ensures kept { KeepsUp C.sees (keep_over E.tells (E.state keeping.keep) (E.state result.keeping.keep)) keeping.calls
        result.keeping.calls }
    ensures first { Worked C.makes (loop_view P.Link.tells P.Link.given P.Link.taken P.Ends.tells P.Ends.entries)
        (reader_over R.gives (R.faults first.reader) (R.faults result.first.reader))
        (clock_over K.tells (K.readings first.outside.clock) (K.readings result.first.outside.clock))
        (part_of first.calls first.asks first.event_loop.links)
        (part_of result.first.calls result.first.asks result.first.event_loop.links) }
    ensures second { Worked C.makes (loop_view P.Link.tells P.Link.given P.Link.taken P.Ends.tells P.Ends.entries)
        (reader_over R.gives (R.faults second.reader) (R.faults result.second.reader))
        (clock_over K.tells (K.readings second.outside.clock) (K.readings result.second.outside.clock))
        (part_of second.calls second.asks second.event_loop.links)
        (part_of result.second.calls result.second.asks result.second.event_loop.links) }
    ensures first_door { AtDoor P.Door.gave result.first.end first.outside.entrance result.first.outside.entrance }
    ensures first_cause { CountsEnd result.first.end (loop_faults P.faults P.Door.faults K.faults first.outside)
        (loop_faults P.faults P.Door.faults K.faults result.first.outside) }
    ensures second_cause { CountsEnd result.second.end (loop_faults P.faults P.Door.faults K.faults second.outside)
        (loop_faults P.faults P.Door.faults K.faults result.second.outside) }
    ensures keep_grows { E.faults keeping.keep ≤ E.faults result.keeping.keep }
{
    let Callers {
        flusher,
        loops,
        closing,
    } = callers_of(&lock, around.rt, turns);
    let (_, (keeping, (first, second))) = join(
        around.rt,
        move || -> ()
            requires { IsSend P.Link.row × IsSend P.Door.row × IsSend P.Ends.row × IsSend P.Waker.row }
        {
            let mut flusher = flusher;
            flusher.keep_flushing(around);
        },
        move || -> (Keeping<C, E>, (Worker<P, K, C, R>, Worker<P, K, C, R>))
            requires { IsSync W.row × IsSend P.row × IsSync P.row × IsSend P.Link.row × IsSend P.Door.row × IsSend P.Waker.row
                × IsSync P.Waker.row × IsSend K.row × IsSend C.row × IsSend R.row × IsSend E.row × IsSend D.row }
            ensures kept { KeepsUp C.sees (keep_over E.tells (E.state keeping.keep) (E.state result.0.keep)) keeping.calls result.0.calls }
            ensures keep_grows { E.faults keeping.keep ≤ E.faults result.0.keep }
            ensures first { Worked C.makes (loop_view P.Link.tells P.Link.given P.Link.taken P.Ends.tells P.Ends.entries)
                (reader_over R.gives (R.faults first.reader) (R.faults result.1.0.reader))
                (clock_over K.tells (K.readings first.outside.clock) (K.readings result.1.0.outside.clock))
                (part_of first.calls first.asks first.event_loop.links)
                (part_of result.1.0.calls result.1.0.asks result.1.0.event_loop.links) }
            ensures second { Worked C.makes (loop_view P.Link.tells P.Link.given P.Link.taken P.Ends.tells P.Ends.entries)
                (reader_over R.gives (R.faults second.reader) (R.faults result.1.1.reader))
                (clock_over K.tells (K.readings second.outside.clock) (K.readings result.1.1.outside.clock))
                (part_of second.calls second.asks second.event_loop.links)
                (part_of result.1.1.calls result.1.1.asks result.1.1.event_loop.links) }
            ensures first_door { AtDoor P.Door.gave result.1.0.end first.outside.entrance result.1.0.outside.entrance }
            ensures first_cause { CountsEnd result.1.0.end (loop_faults P.faults P.Door.faults K.faults first.outside)
                (loop_faults P.faults P.Door.faults K.faults result.1.0.outside) }
            ensures second_cause { CountsEnd result.1.1.end (loop_faults P.faults P.Door.faults K.faults second.outside)
                (loop_faults P.faults P.Door.faults K.faults result.1.1.outside) }
        { run_kept(around, first, second, keeping, loops) },
    );
    Ran {
        flushing: lock.close(around.rt, closing),
        keeping,
        first,
        second,
    }
}
