//! Callers on threads: each message of each caller is one record, and an owner reads the core that has them all.

ghost use Rattle.std.specs.Prelude.{◌≡◌, ◌+◌, ◌<◌, ◌≤◌, None, length};
ghost use Rattle.std.specs.Thread.{IsSync};
ghost use Rattle.core_log.specs.Shows.{shown_of};
ghost use Rattle.story_lock.specs.Passes.{IsPassOf, HasSeat, numbers_of};

use crate::messages::{empty, message, pending, send};
use crate::numbers::Numbers;
use broker_core::{Core, Owner};
use broker_events::Event;
use spine::{Pass, Spine, SpinePass};
use std::alloc::Global;
use std::sync::Wait;
use std::thread::{Threads, join};

const CALLERS: u32 = 8;

// How many messages each caller sends.
const MESSAGES: u64 = 50;

fn send_all<R: Wait>(alloc: Global, calls: &mut SpinePass<'_, R>, event: &Event) -> Numbers
    ensures { calls.new.spine.now ≡ calls.old.spine.now }
{
    let mut numbers = Numbers::new();
    for _ in 0..MESSAGES {
        if let Some(number) = send(alloc, calls, event) {
            numbers.note(number);
        }
    }
    numbers
}

// The messages of one caller: its pass, and the numbers of their records.
fn caller<R: Wait>(
    rt: &R,
    alloc: Global,
    spine: &Spine,
    pass: Pass,
    event: &Event,
) -> (Pass, Numbers)
    requires of { IsPassOf spine.now.story pass × HasSeat pass }
    ensures { IsPassOf spine.now.story result.0 × HasSeat result.0 }
{
    let mut calls = spine.seat(rt, pass);
    let numbers = send_all(alloc, &mut calls, event);
    (calls.leave(), numbers)
}

// A second pass with the greatest seat number.
fn split<R: Wait>(rt: &R, spine: &Spine, pass: Pass) -> (Pass, Pass)
    requires of { IsPassOf spine.now.story pass }
    requires two { 2 ≤ length (numbers_of pass) }
    ensures first { IsPassOf spine.now.story result.0 }
    ensures second { IsPassOf spine.now.story result.1 × HasSeat result.1 }
    ensures count { length (numbers_of result.0) + 1 ≡ length (numbers_of pass) }
{
    let mut calls = spine.seat(rt, pass);
    let other = calls.twin();
    (calls.leave(), other.leave())
}

// Two passes as one.
fn met<R: Wait>(rt: &R, spine: &Spine, one: Pass, other: Pass) -> Pass
    requires one { IsPassOf spine.now.story one × HasSeat one }
    requires other { IsPassOf spine.now.story other × HasSeat other }
    ensures { IsPassOf spine.now.story result × HasSeat result }
{
    let mut calls = spine.seat(rt, one);
    calls.learn(other);
    calls.leave()
}

// The messages of so many callers, each on a thread of its own.
fn callers<R: Threads + Wait + Sync>(
    rt: &R,
    alloc: Global,
    spine: &Spine,
    pass: Pass,
    event: &Event,
    count: u32,
) -> (Pass, Numbers)
    requires of { IsPassOf spine.now.story pass }
    requires some { 0 < count }
    requires seats { length (numbers_of pass) ≡ count }
    ensures { IsPassOf spine.now.story result.0 × HasSeat result.0 }
{
    if count == 1 {
        return caller(rt, alloc, spine, pass, event);
    }
    let (pass, other) = split(rt, spine, pass);
    let ((one, first), (two, second)) = join(
        rt,
        || -> (Pass, Numbers)
            requires { IsSync R.row × IsPassOf spine.now.story pass × (1 < count) × (length (numbers_of pass) + 1 ≡ count) }
            ensures { IsPassOf spine.entry.now.story result.0 × HasSeat result.0 }
        { callers(rt, alloc, spine, pass, event, count - 1) },
        || -> (Pass, Numbers)
            requires { IsSync R.row × IsPassOf spine.now.story other × HasSeat other }
            ensures { IsPassOf spine.entry.now.story result.0 × HasSeat result.0 }
        { caller(rt, alloc, spine, other, event) },
    );
    (met(rt, spine, one, two), first.and(&second))
}

// What a look behind all messages sees.
fn looked<R: Wait>(rt: &R, alloc: Global, spine: &Spine, pass: Pass) -> (Pass, u64)
    requires of { IsPassOf spine.now.story pass × HasSeat pass }
    ensures { IsPassOf spine.now.story result.0 }
{
    let mut calls = spine.seat(rt, pass);
    let seen = calls.look(alloc, |_| 7u64);
    (calls.leave(), seen)
}

// How many numbers all callers were told, which, what a look behind their messages sees, and how many records wait for the disk at
// the end.
type Seen = (u64, [u64; 7], u64, Option<u64>);

fn shared<R: Threads + Wait + Sync>(
    rt: &R,
    alloc: Global,
    core: Core,
    event: &Event,
) -> Option<Seen>
    requires { (shown_of core).out ≡ None }
{
    let (spine, pass) = Spine::open(alloc, core, CALLERS).ok()?;
    let (pass, numbers) = callers(rt, alloc, &spine, pass, event, CALLERS);
    let (pass, seen) = looked(rt, alloc, &spine, pass);
    let pending = pending(alloc, spine.close(rt, pass));
    let words = numbers.words;
    Some((numbers.count, words, seen, pending))
}

// The same over an empty log, with a message that it makes.
fn shared_message<R: Threads + Wait + Sync>(rt: &R, alloc: Global) -> Option<Seen> {
    let core = empty(alloc)?;
    let event = message(alloc)?;
    let seen = shared(rt, alloc, core, &event);
    drop(event);
    seen
}

#[test]
fn each_message_of_eight_callers_is_one_record(rt: HostRuntime) {
    let mut words = [u64::MAX; 7];
    words[6] = 0xFFFF;
    assert_eq!(rt;
        shared_message(&rt, rt.alloc()),
        Some((400, words, 7, Some(400)))
    );
}
