//! Gives a request to the broker. Where that has no room for its record, a flush turn makes some and it is given again.

ghost use Rattle.std.specs.Prelude.{◌≡◌, ◌<◌, ◌^◌, true, IfOk};
ghost use Rattle.log_model.specs.Stored.{StaysOutside};
ghost use Rattle.segment_files.specs.Turn.{IsInside};
ghost use Rattle.broker_events.specs.Served.{is_served as is_served_of};
ghost use Rattle.broker_events.specs.Shown.{Shown, Accepts};
ghost use Rattle.session.specs.Owing.{IsRequest, IsApplied};
ghost use Rattle.worker_turns.specs.Acts.{IsFree, Acted, place_of, view_of, change_of};
ghost use Rattle.pipe_stream.specs.Asking.{GivesUp, MakesRoom, IsTry, Asks, Gives, Refuses, event_for};
ghost use Rattle.pipe_stream.specs.Asking.{no_room as no_room_of};

use crate::answer::Answer;
use broker_events::{Calls, Event, is_served};
use group_flush::Flusher;
use mq_outside::Disk;
use reply_fields::Reply;
use request_fields::{Request, RequestFault};
use session::{Applied, apply, no_room};
use std::alloc::{AllocError, Global};
use worker_turns::{Broken, FlushEnd, turn};

// The host of every sender: 127.0.0.1, port 0.
const BORN_HOST: [u8; 8] = [127, 0, 0, 1, 0, 0, 0, 0];

// The answer to a request that found no room, where the disk failed, with its count.
fn without_room(alloc: Global, count: u64) -> Result<Answer, AllocError>
    ensures { IfOk result (λ answer. answer ≡ no_room_of count) }
{
    Ok(Answer {
        reply: no_room(alloc, count)?,
        awaits: None,
    })
}

// The answer to what the broker isn't given.
fn refuse(alloc: Global, fault: &RequestFault) -> Result<Answer, Broken>
    ensures { Refuses fault.now result }
{
    match Reply::of_fault(alloc, fault) {
        Ok(reply) => Ok(Answer {
            reply,
            awaits: None,
        }),
        Err(_) => Err(Broken::Memory),
    }
}

// One step: the request is given.
fn give<C: Calls>(alloc: Global, calls: &mut C, event: &Event) -> Result<Applied, AllocError>
    requires request { IsRequest event.now }
    requires accepted { (shown : Shown) → Accepts shown event.now }
    requires free { IsFree (C.has_key calls.old) (C.shown calls.old) }
    ensures applied { IsApplied C.makes calls.old event.now result calls.new }
    ensures free { IsFree (C.has_key calls.new) (C.shown calls.new) }
{
    apply(alloc, calls, event)
}

// Gives a request up, since the disk failed, with this count.
fn give_up(alloc: Global, count: u64) -> Result<Option<Answer>, Broken>
    ensures { GivesUp count result }
{
    match without_room(alloc, count) {
        Ok(answer) => Ok(Some(answer)),
        Err(_) => Err(Broken::Memory),
    }
}

// One flush turn for room. Where it fails, the request is given up.
#[tactic(auto, using(log_model::proofs::OutsideLemmas::outside_start))]
fn make_room<C: Calls, D: Disk>(
    alloc: Global,
    calls: &mut C,
    flusher: &mut Flusher,
    disk: &mut D,
) -> Result<Option<Answer>, Broken>
    requires free { IsFree (C.has_key calls.old) (C.shown calls.old) }
    requires inside { D.tells → IsInside flusher.old.file.base flusher.old.file.offset (D.state disk.old) }
    ensures acted { Acted C.makes (view_of D.tells D.state D.faults D.syncs) (MakesRoom result)
        (change_of calls.old (place_of flusher.old.file disk.old)
        calls.new (place_of flusher.new.file disk.new)) }
    ensures free { IsFree (C.has_key calls.new) (C.shown calls.new) }
    ensures inside { D.tells → IsInside flusher.new.file.base flusher.new.file.offset (D.state disk.new) }
    ensures outside { D.tells → StaysOutside (D.state disk.old) (D.state disk.new) }
{
    match turn(alloc, calls, flusher, disk) {
        FlushEnd::Idle => Err(Broken::Memory),
        FlushEnd::Misplaced => Err(Broken::Misplaced),
        FlushEnd::Memory => Err(Broken::Memory),
        FlushEnd::Failed(count) => give_up(alloc, count),
        FlushEnd::Done => Ok(None),
    }
}

// Gives the request once. No answer where it found no room, and a flush turn made some.
#[tactic(auto, using(log_model::proofs::OutsideLemmas::outside_start))]
fn try_once<C: Calls, D: Disk>(
    alloc: Global,
    calls: &mut C,
    flusher: &mut Flusher,
    disk: &mut D,
    event: &Event,
) -> Result<Option<Answer>, Broken>
    requires request { IsRequest event.now }
    requires accepted { (shown : Shown) → Accepts shown event.now }
    requires free { IsFree (C.has_key calls.old) (C.shown calls.old) }
    requires inside { D.tells → IsInside flusher.old.file.base flusher.old.file.offset (D.state disk.old) }
    ensures acted { Acted C.makes (view_of D.tells D.state D.faults D.syncs) (IsTry event.now result)
        (change_of calls.old (place_of flusher.old.file disk.old)
        calls.new (place_of flusher.new.file disk.new)) }
    ensures free { IsFree (C.has_key calls.new) (C.shown calls.new) }
    ensures inside { D.tells → IsInside flusher.new.file.base flusher.new.file.offset (D.state disk.new) }
    ensures outside { D.tells → StaysOutside (D.state disk.old) (D.state disk.new) }
{
    match give(alloc, calls, event) {
        Err(_) => Err(Broken::Memory),
        Ok(Applied::Full(_pending)) => make_room(alloc, calls, flusher, disk),
        Ok(Applied::Owes(reply, awaits)) => Ok(Some(Answer { reply, awaits })),
    }
}

// Gives the request until it is answered.
#[tactic(auto, using(log_model::proofs::OutsideLemmas::outside_start))]
fn ask<C: Calls, D: Disk>(
    alloc: Global,
    calls: &mut C,
    flusher: &mut Flusher,
    disk: &mut D,
    event: &Event,
) -> Result<Answer, Broken>
    requires request { IsRequest event.now }
    requires accepted { (shown : Shown) → Accepts shown event.now }
    requires free { IsFree (C.has_key calls.old) (C.shown calls.old) }
    requires inside { D.tells → IsInside flusher.old.file.base flusher.old.file.offset (D.state disk.old) }
    ensures acted { Acted C.makes (view_of D.tells D.state D.faults D.syncs) (Asks event.now result)
        (change_of calls.old (place_of flusher.old.file disk.old)
        calls.new (place_of flusher.new.file disk.new)) }
    ensures free { IsFree (C.has_key calls.new) (C.shown calls.new) }
    ensures inside { D.tells → IsInside flusher.new.file.base flusher.new.file.offset (D.state disk.new) }
    ensures outside { D.tells → StaysOutside (D.state disk.old) (D.state disk.new) }
{
    for _i in 0..u64::MAX {
        match try_once(alloc, calls, flusher, disk, event) {
            Err(fault) => return Err(fault),
            Ok(Some(answer)) => return Ok(answer),
            Ok(None) => {}
        }
    }
    Err(Broken::Memory)
}

// Gives a request that the broker answers, at this reading of the clock.
fn ask_at<C: Calls, D: Disk>(
    alloc: Global,
    calls: &mut C,
    flusher: &mut Flusher,
    disk: &mut D,
    now: u64,
    request: Request,
) -> Result<Answer, Broken>
    requires now { now < 2 ^ 62 }
    requires served { is_served_of request ≡ true }
    requires free { IsFree (C.has_key calls.old) (C.shown calls.old) }
    requires inside { D.tells → IsInside flusher.old.file.base flusher.old.file.offset (D.state disk.old) }
    ensures acted { Acted C.makes (view_of D.tells D.state D.faults D.syncs) (Asks (event_for now request) result)
        (change_of calls.old (place_of flusher.old.file disk.old)
        calls.new (place_of flusher.new.file disk.new)) }
    ensures free { IsFree (C.has_key calls.new) (C.shown calls.new) }
    ensures inside { D.tells → IsInside flusher.new.file.base flusher.new.file.offset (D.state disk.new) }
    ensures outside { D.tells → StaysOutside (D.state disk.old) (D.state disk.new) }
{
    let event = Event::Request {
        link: 0,
        host: BORN_HOST,
        now,
        request,
    };
    let answer = ask(alloc, calls, flusher, disk, &event);
    drop(event);
    answer
}

/// Gives what was read of a frame with this code to the broker, at this reading of the clock in milliseconds, or refuses what is no
/// request that it answers. `Err` where memory ran out for the answer or for a flush turn, or a batch was misplaced.
#[tactic(auto, using(log_model::proofs::OutsideLemmas::outside_start))]
pub fn give_request<C: Calls, D: Disk>(
    alloc: Global,
    calls: &mut C,
    flusher: &mut Flusher,
    disk: &mut D,
    now: u64,
    code: i32,
    request: Result<Request, RequestFault>,
) -> Result<Answer, Broken>
    requires now { now < 2 ^ 62 }
    requires free { IsFree (C.has_key calls.old) (C.shown calls.old) }
    requires inside { D.tells → IsInside flusher.old.file.base flusher.old.file.offset (D.state disk.old) }
    ensures acted { Acted C.makes (view_of D.tells D.state D.faults D.syncs) (Gives code now request result)
        (change_of calls.old (place_of flusher.old.file disk.old)
        calls.new (place_of flusher.new.file disk.new)) }
    ensures free { IsFree (C.has_key calls.new) (C.shown calls.new) }
    ensures inside { D.tells → IsInside flusher.new.file.base flusher.new.file.offset (D.state disk.new) }
    ensures outside { D.tells → StaysOutside (D.state disk.old) (D.state disk.new) }
{
    match request {
        Err(fault) => refuse(alloc, &fault),
        Ok(request) => {
            if is_served(&request) {
                ask_at(alloc, calls, flusher, disk, now, request)
            } else {
                refuse(alloc, &RequestFault::Unsupported(code))
            }
        }
    }
}
