//! A request that found no room. It is given again once the record that was the first pending one is flushed. Where the disk fails
//! meanwhile it is refused: a look for that record tells the failure, and a look directly after the request did not.

ghost use Rattle.std.specs.Prelude.{◌≡◌, None, Some, Ok};
ghost use Rattle.std.specs.Option.{option_map};
ghost use Rattle.session.specs.Owing.{IsRequest, room_at};
ghost use Rattle.session.specs.Room.{GivesUp, LooksForRoom, is_flushed as is_flushed_of, new_failure as new_failure_of, waiting_of};
ghost use Rattle.session.specs.Serving.{KeepsOut, Leads, OnRequest, caller_of, heard_from};

use crate::caller::Caller;
use crate::heard::Heard;
use crate::owed::{Awaits, look, no_room};
use crate::serving::Halt;
use crate::session::Session;
use broker_events::{Awaited, Calls, Event};
use std::alloc::Global;

/// A request that found no room.
#[derive(Drop)]
pub struct HeldRequest {
    pub heard: Heard,
    /// The first record that was pending then.
    pub pending: u64,
    /// What a look for that record said directly after.
    pub before: Awaited,
}

/// What is looked for where a request found no room: a turn since the beginning of the log that held the first pending record.
pub(crate) fn awaits_room(pending: u64) -> Awaits
    ensures { result ≡ room_at pending }
{
    Awaits {
        number: pending,
        turn: 0,
    }
}

// Whether the record is on the disk.
fn is_flushed(what: Awaited) -> bool
    ensures { result ≡ is_flushed_of what }
{
    match what {
        Awaited::Flushed => true,
        Awaited::Failed { count: _ } | Awaited::NotYet => false,
    }
}

// The disk's failure that a look tells, where the look before told another one or none.
fn new_failure(before: Awaited, what: Awaited) -> Option<u64>
    ensures { result ≡ new_failure_of before what }
{
    let Awaited::Failed { count } = what else {
        return None;
    };
    match before {
        Awaited::NotYet => Some(count),
        Awaited::Failed { count: earlier } => { if earlier == count { None } else { Some(count) } }
        Awaited::Flushed => None,
    }
}

impl Session {
    // Keeps a request that found no room.
    pub(crate) fn hold(
        &mut self,
        caller: Caller,
        code: i32,
        event: Event,
        pending: u64,
        before: Awaited,
    )
        requires { IsRequest event }
        ensures held { OnRequest event (λ request. self.new.held
            ≡ Some (record { heard = heard_from caller code (Ok request); pending = pending; before = before })) }
        ensures owed { self.new.owed.items ≡ self.old.owed.items }
        ensures talk { self.new.talk ≡ self.old.talk }
        ensures out { KeepsOut self.old self.new }
    {
        let Event::Request { request, .. } = event else {
            unreachable!();
        };
        let heard = Heard {
            form: caller.form,
            code,
            opaque: caller.opaque,
            one_way: caller.one_way,
            request: Ok(request),
        };
        self.held = Some(HeldRequest {
            heard,
            pending,
            before,
        });
    }

    // The record that was the first pending one, and what a look for it said, where a request found no room.
    fn waiting(&self) -> Option<(u64, Awaited)>
        ensures { result ≡ option_map waiting_of self.now.held }
    {
        match &self.held {
            Some(held) => Some((held.pending, held.before)),
            None => None,
        }
    }

    // Who asked what found no room, and is refused now.
    fn let_go(&mut self) -> Option<Caller>
        ensures caller { result ≡ option_map (λ held. caller_of held.heard) self.old.held }
        ensures held { self.new.held ≡ None }
        ensures talk { self.new.talk ≡ self.old.talk }
        ensures owed { self.new.owed.items ≡ self.old.owed.items }
        ensures out { KeepsOut self.old self.new }
    {
        match self.held.take() {
            Some(held) => Some(held.heard.caller()),
            None => None,
        }
    }

    // Refuses the request that found no room, with the disk's failure of this number. Nothing where there is none.
    fn give_up(&mut self, alloc: Global, count: u64) -> Result<bool, Halt>
        ensures gives_up { GivesUp self.old.held count self.old result self.new }
        ensures held { self.new.held ≡ None }
        ensures talk { self.new.talk ≡ self.old.talk }
        ensures out { KeepsOut self.old self.new }
    {
        let Some(caller) = self.let_go() else {
            return Ok(true);
        };
        let Ok(reply) = no_room(alloc, count) else {
            return Err(Halt::Memory);
        };
        self.owe(caller, reply, None)?;
        Ok(true)
    }

    /// Looks for the record that has to be flushed before the request that found no room is given again. Answers whether it is, or
    /// no such request is held: the next call of `serve_next` may find room. Where the look tells a failure of the disk that the look
    /// directly after the request did not tell, the request is refused with it. After `Memory` the link has to end, since a
    /// request is not answered.
    pub fn look_for_room<C: Calls>(&mut self, alloc: Global, calls: &mut C) -> Result<bool, Halt>
        ensures looks { Leads C.makes calls.old calls.new (λ made. LooksForRoom self.old.held self.old made result self.new) }
        ensures talk { self.new.talk ≡ self.old.talk }
        ensures out { KeepsOut self.old self.new }
    {
        let Some((pending, before)) = self.waiting() else {
            return Ok(true);
        };
        let what = look(alloc, calls, awaits_room(pending));
        match new_failure(before, what) {
            Some(count) => self.give_up(alloc, count),
            None => Ok(is_flushed(what)),
        }
    }
}
