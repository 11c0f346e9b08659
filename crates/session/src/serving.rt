//! One link as a machine: the bytes that were heard, and the requests that are given to the broker. It waits for nothing, and
//! has no device.

ghost use Rattle.std.specs.Prelude.{◌≡◌, ◌<◌, ◌^◌, ◌++◌, [], true, None, Ok, OnOk, OnErr};
ghost use Rattle.reply_fields.specs.Refusals.{fault_reply};
ghost use Rattle.broker_events.specs.Served.{is_served as is_served_of};
ghost use Rattle.session.specs.Serving.{KeepsRest, KeepsReplies, KeepsLink, KeepsOut, TakesNext, OwesOne};
ghost use Rattle.session.specs.Serving.{Leads, Serves, ServesNext, heard_from, halt_of as halt_of_fault};

use crate::caller::Caller;
use crate::heard::Heard;
use crate::owed::{Applied, Awaits, Owed, apply, look};
use crate::room::awaits_room;
use crate::session::Session;
use crate::talk::Talk;
use broker_events::{Calls, Event, is_served};
use remoting_frame::FrameFault;
use reply_fields::Reply;
use request_fields::{Request, RequestFault};
use std::alloc::{AllocError, Global};
use std::collections::VecDeque;

/// What came of the next request.
#[derive(Debug, Clone, Copy, PartialEq, Eq)]
pub enum Step {
    /// It was given to the broker, or refused, and its reply is owed.
    Request,
    /// No whole request is held.
    Nothing,
    /// The broker has no room for its record. It is given again by the next call, and stays the next one until then.
    Full,
}

/// Why a link ends.
#[derive(Debug, Clone, Copy, PartialEq, Eq)]
pub enum Halt {
    /// No frame stands at this place of its stream.
    BadFrame(u64),
    /// There is no memory.
    Memory,
}

fn halt_of(fault: FrameFault) -> Halt
    ensures { result ≡ halt_of_fault fault }
{
    match fault {
        FrameFault::BadLength(at) | FrameFault::BadForm(at) | FrameFault::BadHeader(at) => {
            Halt::BadFrame(at)
        }
        FrameFault::Memory => Halt::Memory,
    }
}

impl Session {
    /// A new link. The host is its peer, an IPv4 address and a port of four bytes each.
    pub fn new(alloc: Global, link: u32, host: [u8; 8]) -> Session
        ensures link { (result.talk.link ≡ link) × (result.talk.host ≡ host) }
        ensures held { result.talk.cutter ≡ record { at = 0; bytes = [] } }
        ensures none { (result.held ≡ None) × (result.owed.items ≡ []) × (result.out.items ≡ []) × (result.sent ≡ 0) }
        ensures asked { result.asked ≡ 0 }
    {
        Session {
            talk: Talk::new(alloc, link, host),
            held: None,
            owed: VecDeque::new(alloc),
            out: Vec::new(alloc),
            sent: 0,
            asked: 0,
        }
    }

    /// The link's number.
    pub fn link(&self) -> u32
        ensures { result ≡ self.now.talk.link }
    {
        self.talk.link()
    }

    /// Takes the next piece of the stream. A stream longer than 2^64 - 1 bytes is refused as want of memory.
    pub fn feed(&mut self, piece: &[u8]) -> Result<(), AllocError>
        ensures ok { OnOk result (self.new.talk.cutter
            ≡ record { at = self.old.talk.cutter.at; bytes = self.old.talk.cutter.bytes ++ piece.now }) }
        ensures err { OnErr result (self.new.talk.cutter ≡ self.old.talk.cutter) }
        ensures rest { KeepsRest self.old self.new }
    {
        self.talk.feed(piece)
    }

    // The next request: the one that found no room, else the next of the stream.
    fn next(&mut self, alloc: Global) -> Result<Option<Heard>, Halt>
        ensures taken { TakesNext self.old result self.new }
        ensures held { self.new.held ≡ None }
        ensures rest { KeepsReplies self.old self.new }
    {
        if let Some(held) = self.held.take() {
            return Ok(Some(held.heard));
        }
        match self.talk.next(alloc) {
            Ok(heard) => Ok(heard),
            Err(fault) => Err(halt_of(fault)),
        }
    }

    // Owes a reply.
    pub(crate) fn owe(
        &mut self,
        caller: Caller,
        reply: Reply,
        awaits: Option<Awaits>,
    ) -> Result<Step, Halt>
        ensures owes { OwesOne (record { caller = caller; reply = reply; awaits = awaits }) self.old result self.new }
        ensures held { self.new.held ≡ self.old.held }
        ensures talk { self.new.talk ≡ self.old.talk }
        ensures out { KeepsOut self.old self.new }
    {
        let owed = Owed {
            caller,
            reply,
            awaits,
        };
        match self.owed.push_back(owed) {
            Ok(()) => Ok(Step::Request),
            Err(_) => Err(Halt::Memory),
        }
    }

    /// Gives the next request to the broker, at this reading of the clock, in milliseconds. Where it finds no room the first pending
    /// record is looked for directly after, and the request is held. After `Memory` the link has to end, since a request may have been
    /// answered whose reply is not owed.
    pub fn serve_next<C: Calls>(
        &mut self,
        alloc: Global,
        calls: &mut C,
        now: u64,
    ) -> Result<Step, Halt>
        requires { now < 2 ^ 62 }
        ensures serves { Leads C.makes calls.old calls.new (λ made. ServesNext now self.old made result self.new) }
        ensures link { KeepsLink self.old self.new }
        ensures out { KeepsOut self.old self.new }
    {
        let Some(heard) = self.next(alloc)? else {
            return Ok(Step::Nothing);
        };
        self.serve(alloc, calls, now, heard)
    }

    // Gives a request that was heard to the broker, or refuses what is none.
    fn serve<C: Calls>(
        &mut self,
        alloc: Global,
        calls: &mut C,
        now: u64,
        heard: Heard,
    ) -> Result<Step, Halt>
        requires { now < 2 ^ 62 }
        ensures serves { Leads C.makes calls.old calls.new (λ made. Serves now heard self.old made result self.new) }
        ensures talk { self.new.talk ≡ self.old.talk }
        ensures out { KeepsOut self.old self.new }
    {
        let caller = heard.caller();
        let Heard {
            form: _,
            code,
            opaque: _,
            one_way: _,
            request,
        } = heard;
        match request {
            Err(fault) => self.refuse(alloc, caller, &fault),
            Ok(request) => self.give(alloc, calls, now, caller, code, request),
        }
    }

    // Owes the reply to what is no request that is served.
    fn refuse(&mut self, alloc: Global, caller: Caller, fault: &RequestFault) -> Result<Step, Halt>
        ensures owes { OwesOne (record { caller = caller; reply = fault_reply fault.now; awaits = None }) self.old result self.new }
        ensures held { self.new.held ≡ self.old.held }
        ensures talk { self.new.talk ≡ self.old.talk }
        ensures out { KeepsOut self.old self.new }
    {
        let Ok(reply) = Reply::of_fault(alloc, fault) else {
            return Err(Halt::Memory);
        };
        self.owe(caller, reply, None)
    }

    // Gives a request to the broker, if it is of a kind that the broker answers.
    fn give<C: Calls>(
        &mut self,
        alloc: Global,
        calls: &mut C,
        now: u64,
        caller: Caller,
        code: i32,
        request: Request,
    ) -> Result<Step, Halt>
        requires { now < 2 ^ 62 }
        ensures serves { Leads C.makes calls.old calls.new
            (λ made. Serves now (heard_from caller code (Ok request)) self.old made result self.new) }
        ensures talk { self.new.talk ≡ self.old.talk }
        ensures out { KeepsOut self.old self.new }
    {
        if !is_served(&request) {
            drop(request);
            return self.refuse(alloc, caller, &RequestFault::Unsupported(code));
        }
        self.give_request(alloc, calls, now, caller, code, request)
    }

    // Gives a request to the broker, and keeps it where it finds no room.
    fn give_request<C: Calls>(
        &mut self,
        alloc: Global,
        calls: &mut C,
        now: u64,
        caller: Caller,
        code: i32,
        request: Request,
    ) -> Result<Step, Halt>
        requires now { now < 2 ^ 62 }
        requires served { is_served_of request ≡ true }
        ensures serves { Leads C.makes calls.old calls.new
            (λ made. Serves now (heard_from caller code (Ok request)) self.old made result self.new) }
        ensures talk { self.new.talk ≡ self.old.talk }
        ensures out { KeepsOut self.old self.new }
    {
        let event = Event::Request {
            link: self.talk.link(),
            host: self.talk.host(),
            now,
            request,
        };
        match apply(alloc, calls, &event) {
            Ok(Applied::Owes(reply, awaits)) => {
                drop(event);
                self.owe(caller, reply, awaits)
            }
            Ok(Applied::Full(pending)) => {
                let before = look(alloc, calls, awaits_room(pending));
                self.hold(caller, code, event, pending, before);
                Ok(Step::Full)
            }
            Err(_) => {
                drop(event);
                Err(Halt::Memory)
            }
        }
    }
}
