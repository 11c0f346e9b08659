//! A loop: it waits until one of its links may have something to say or a check-back for one has come, serves what came on all of
//! them, and sends what is due.

ghost use Rattle.std.specs.Prelude.{length, ◌≡◌, ◌<◌, ◌≤◌, ◌^◌, [], true, false};
ghost use Rattle.std.specs.Prelude.{Some, None, IfOk, IfSome, slice_get, vec_len};
ghost use Rattle.link_service.specs.Clocks.{at_reading, unasked};
ghost use Rattle.link_service.specs.Transcripts.{ByReader};
ghost use Rattle.event_loops.specs.Causes.{CountsEnd, CountsLoop, Grow, loop_faults};
ghost use Rattle.event_loops.specs.Doors.{AtDoor, IsDoorDone, KeepsDoor};
ghost use Rattle.event_loops.specs.Takings.{LeadsTaking};
ghost use Rattle.event_loops.specs.Tales.{GoesOn, LeadsBy, loop_view};
ghost use Rattle.event_loops.specs.Timing.{GoesTimed, clock_over};

use crate::asks::{Picked, Takes};
use crate::flushing::Flushes;
use crate::links::Links;
use crate::outside::{DOOR, Outside};
use broker_events::Calls;
use link_service::{NewLink, Port, Shared};
use mq_outside::{Clock, Reader};
use mq_peers::{Ends, Event, Ready};
use std::alloc::{AllocError, Global};
use std::sync::Wait;

/// So many bytes are read of a link at once.
const READ_SIZE: usize = 1 << 16;

/// So many links are let in by one pass.
const ACCEPTS_MAX: usize = 64;

/// So many check-backs are taken by one pass.
const ASKS_MAX: usize = 1024;

/// Why a loop ends.
#[derive(Debug, Clone, Copy, PartialEq, Eq)]
pub enum LoopEnd {
    /// The door takes no further link, and all links have ended.
    Done,
    /// Another loop had a fault.
    Stopped,
    /// The clock failed.
    Clock,
    /// The door failed.
    Door,
    /// Waiting for links failed.
    Poll,
    /// There is no memory.
    Memory,
}

/// What all loops use.
#[derive(Drop)]
pub struct Around<'a, W: Wait, P: Ready> {
    pub rt: &'a W,
    pub alloc: Global,
    pub shared: &'a Shared,
    pub ports: &'a [Port<P>],
}

// A link that was let in is not served: the door may let in another.
fn uncount<W: Wait, P: Ready>(around: &Around<'_, W, P>) {
    around.shared.link_ended();
    if let Some(port) = around.ports.first() {
        port.wake();
    }
}

/// A loop with its links.
#[derive(Drop)]
pub struct EventLoop<P: Ready + Drop> {
    pub(crate) links: Links<P::Link, P::Ends>,
    pub(crate) events: Vec<Event>,
    pub(crate) buffer: Vec<u8>,
    pub(crate) turns: u64,
    // Someone may stand at the door who was not let in yet, at once or once a link has ended.
    pub(crate) at_door: bool,
    pub(crate) door_waits: bool,
}

impl<P: Ready + Drop> EventLoop<P> {
    /// A loop without links, this one of so many. Those that end go into this ledger.
    pub fn new(
        alloc: Global,
        number: usize,
        loops: usize,
        ends: P::Ends,
    ) -> Result<EventLoop<P>, AllocError>
        ensures loops { IfOk result (λ it. (it.links.loops ≡ loops) × (it.links.number ≡ number)) }
        ensures none { IfOk result (λ it. it.links.slots.items ≡ []) }
        ensures ends { IfOk result (λ it. it.links.ledger.ends ≡ ends) }
    {
        let mut buffer = Vec::new(alloc);
        buffer.resize(READ_SIZE, 0)?;
        Ok(EventLoop {
            links: Links::new(alloc, number, loops, ends),
            events: Vec::new(alloc),
            buffer,
            turns: 0,
            at_door: false,
            door_waits: false,
        })
    }

    // A slot for one more link, which is reported from now on. There may be none, or the link can't be reported.
    fn slot_for<K: Clock + Drop, R: Reader>(
        &mut self,
        outside: &mut Outside<P, K>,
        link: &mut P::Link,
    ) -> Option<usize>
        ensures free { IfSome result (λ at. slice_get self.new.links.slots.items at ≡ Some None) }
        ensures went { ByReader R.gives 0
            (λ read. GoesOn (loop_view P.Link.tells P.Link.given P.Link.taken P.Ends.tells P.Ends.entries) read
            self.old.links [] self.new.links) }
        ensures newest { self.new.links.newest ≡ self.old.links.newest }
        ensures same { link.new ≡ link.old }
        ensures clock { outside.new.clock ≡ outside.old.clock }
        ensures entrance { outside.new.entrance ≡ outside.old.entrance }
        ensures grow { Grow (loop_faults P.faults P.Door.faults K.faults outside.old)
            (loop_faults P.faults P.Door.faults K.faults outside.new) }
    {
        let Some(slot) = self.links.free_slot::<R>() else {
            return None;
        };
        let Ok(token) = u32::try_from(slot) else {
            return None;
        };
        if !outside.register(link, token) {
            return None;
        }
        Some(slot)
    }

    // Serves this link from now on. One for which there is no place is let go of, and one that doesn't fall to the loop is lost.
    // Answers whether it is served.
    fn adopt<K: Clock + Drop, C: Calls, R: Reader>(
        &mut self,
        alloc: Global,
        outside: &mut Outside<P, K>,
        calls: &mut C,
        new: NewLink<P::Link>,
    ) -> bool
        ensures went { ByReader R.gives 0 (λ read. LeadsBy (unasked C.makes) calls.old calls.new 0 0
            (λ acts. GoesOn (loop_view P.Link.tells P.Link.given P.Link.taken P.Ends.tells P.Ends.entries) read
            self.old.links acts self.new.links)) }
        ensures clock { outside.new.clock ≡ outside.old.clock }
        ensures entrance { outside.new.entrance ≡ outside.old.entrance }
        ensures grow { Grow (loop_faults P.faults P.Door.faults K.faults outside.old)
            (loop_faults P.faults P.Door.faults K.faults outside.new) }
    {
        let NewLink { number, mut link } = new;
        if !self.links.may_have(number) {
            self.links.lose::<R>();
            return false;
        }
        match self.slot_for::<K, R>(outside, &mut link) {
            Some(slot) => {
                self.links.put::<R>(alloc, slot, number, link);
                true
            }
            None => {
                self.links.refuse::<C, R>(alloc, calls, number, link);
                false
            }
        }
    }

    // Serves a link that is new, or hands it over to the loop to which it falls.
    fn place<W: Wait, K: Clock + Drop, C: Calls, R: Reader>(
        &mut self,
        around: &Around<'_, W, P>,
        outside: &mut Outside<P, K>,
        calls: &mut C,
        new: NewLink<P::Link>,
    )
        ensures went { ByReader R.gives 0 (λ read. LeadsBy (unasked C.makes) calls.old calls.new 0 0
            (λ acts. GoesOn (loop_view P.Link.tells P.Link.given P.Link.taken P.Ends.tells P.Ends.entries) read
            self.old.links acts self.new.links)) }
        ensures clock { outside.new.clock ≡ outside.old.clock }
        ensures entrance { outside.new.entrance ≡ outside.old.entrance }
        ensures grow { Grow (loop_faults P.faults P.Door.faults K.faults outside.old)
            (loop_faults P.faults P.Door.faults K.faults outside.new) }
    {
        // Counted first: the loop that gets it may end it at once.
        around.shared.link_opened();
        let to = self.links.loop_of(new.number);
        if to != self.links.number
            && let Some(port) = around.ports.get(to)
        {
            if !port.hand_over(around.rt, new) {
                self.links.lose::<R>();
                uncount(around);
            }
            return;
        }
        if !self.adopt::<K, C, R>(around.alloc, outside, calls, new) {
            uncount(around);
        }
    }

    // The next link at the door, if one may come in now. Notes where it has to wait for another one's end.
    fn next_in<K: Clock + Drop>(
        &mut self,
        shared: &Shared,
        outside: &mut Outside<P, K>,
    ) -> Result<Option<NewLink<P::Link>>, LoopEnd>
        ensures links { self.new.links ≡ self.old.links }
        ensures clock { outside.new.clock ≡ outside.old.clock }
        ensures door { KeepsDoor P.Door.gave outside.old.entrance outside.new.entrance }
        ensures cause { CountsLoop result (loop_faults P.faults P.Door.faults K.faults outside.old)
            (loop_faults P.faults P.Door.faults K.faults outside.new) }
    {
        let Some(entrance) = &mut outside.entrance else {
            return Ok(None);
        };
        if entrance.is_done() {
            return Ok(None);
        }
        if shared.open_links() >= u64::from(entrance.bounds.open) {
            self.door_waits = true;
            return Ok(None);
        }
        entrance.accept()
    }

    // Lets in whoever stands at the door, as many as one pass takes.
    fn let_in<W: Wait, K: Clock + Drop, C: Calls, R: Reader>(
        &mut self,
        around: &Around<'_, W, P>,
        outside: &mut Outside<P, K>,
        calls: &mut C,
    ) -> Result<(), LoopEnd>
        ensures went { ByReader R.gives 0 (λ read. LeadsBy (unasked C.makes) calls.old calls.new 0 0
            (λ acts. GoesOn (loop_view P.Link.tells P.Link.given P.Link.taken P.Ends.tells P.Ends.entries) read
            self.old.links acts self.new.links)) }
        ensures clock { outside.new.clock ≡ outside.old.clock }
        ensures door { KeepsDoor P.Door.gave outside.old.entrance outside.new.entrance }
        ensures cause { CountsLoop result (loop_faults P.faults P.Door.faults K.faults outside.old)
            (loop_faults P.faults P.Door.faults K.faults outside.new) }
    {
        for _ in 0..ACCEPTS_MAX {
            let came = self.next_in(around.shared, outside)?;
            let Some(new) = came else {
                return Ok(());
            };
            self.place::<W, K, C, R>(around, outside, calls, new);
        }
        self.at_door = true;
        Ok(())
    }

    // Asks at the door, where someone may stand there.
    fn ask_door<W: Wait, K: Clock + Drop, C: Calls, R: Reader>(
        &mut self,
        around: &Around<'_, W, P>,
        outside: &mut Outside<P, K>,
        calls: &mut C,
    ) -> Result<(), LoopEnd>
        ensures went { ByReader R.gives 0 (λ read. LeadsBy (unasked C.makes) calls.old calls.new 0 0
            (λ acts. GoesOn (loop_view P.Link.tells P.Link.given P.Link.taken P.Ends.tells P.Ends.entries) read
            self.old.links acts self.new.links)) }
        ensures clock { outside.new.clock ≡ outside.old.clock }
        ensures door { KeepsDoor P.Door.gave outside.old.entrance outside.new.entrance }
        ensures cause { CountsLoop result (loop_faults P.faults P.Door.faults K.faults outside.old)
            (loop_faults P.faults P.Door.faults K.faults outside.new) }
    {
        if !self.at_door && !self.door_waits && !around.shared.take_retry() {
            return Ok(());
        }
        self.at_door = false;
        self.door_waits = false;
        self.let_in::<W, K, C, R>(around, outside, calls)
    }

    // Serves the links that other loops handed over, as many as one pass takes. Answers whether there may be more.
    fn take_in<W: Wait, K: Clock + Drop, C: Calls, R: Reader>(
        &mut self,
        around: &Around<'_, W, P>,
        outside: &mut Outside<P, K>,
        calls: &mut C,
    ) -> bool
        ensures went { ByReader R.gives 0 (λ read. LeadsBy (unasked C.makes) calls.old calls.new 0 0
            (λ acts. GoesOn (loop_view P.Link.tells P.Link.given P.Link.taken P.Ends.tells P.Ends.entries) read
            self.old.links acts self.new.links)) }
        ensures clock { outside.new.clock ≡ outside.old.clock }
        ensures entrance { outside.new.entrance ≡ outside.old.entrance }
        ensures grow { Grow (loop_faults P.faults P.Door.faults K.faults outside.old)
            (loop_faults P.faults P.Door.faults K.faults outside.new) }
    {
        let Some(port) = around.ports.get(self.links.number) else {
            return false;
        };
        for _ in 0..ACCEPTS_MAX {
            let Some(new) = port.take(around.rt) else {
                return false;
            };
            if !self.adopt::<K, C, R>(around.alloc, outside, calls, new) {
                uncount(around);
            }
        }
        true
    }

    // Notes what was reported of a link, or of the door.
    fn note_report<R: Reader>(&mut self, event: &Event)
        ensures events { vec_len self.new.events ≡ vec_len self.old.events }
        ensures went { ByReader R.gives 0
            (λ read. GoesOn (loop_view P.Link.tells P.Link.given P.Link.taken P.Ends.tells P.Ends.entries) read
            self.old.links [] self.new.links) }
    {
        if event.token == DOOR {
            self.at_door = true;
            return;
        }
        self.links.report::<R>(event);
    }

    // Notes what was reported.
    fn note_reports<R: Reader>(&mut self)
        ensures went { ByReader R.gives 0
            (λ read. GoesOn (loop_view P.Link.tells P.Link.given P.Link.taken P.Ends.tells P.Ends.entries) read
            self.old.links [] self.new.links) }
    {
        for i in 0..self.events.len() {
            let event = self.events[i];
            self.note_report::<R>(&event);
        }
    }

    // Notes how many flush turns have ended.
    fn note_turns(&mut self, shared: &Shared)
        ensures links { self.new.links ≡ self.old.links }
    {
        self.turns = shared.turns();
    }

    // Takes the check-backs that have arrived, as many as one pass takes, and writes each to the link that it names. Answers
    // whether there may be more.
    fn take_asks<W: Wait, A: Takes, C: Calls, R: Reader>(
        &mut self,
        around: &Around<'_, W, P>,
        asks: &mut A,
        calls: &mut C,
        reader: &mut R,
    ) -> bool
        ensures went { ByReader R.gives (R.faults reader.new)
            (λ read. LeadsTaking (unasked C.makes) A.takes calls.old calls.new asks.old asks.new
            (R.faults reader.old) (R.faults reader.new)
            (λ acts. GoesOn (loop_view P.Link.tells P.Link.given P.Link.taken P.Ends.tells P.Ends.entries) read
            self.old.links acts self.new.links)) }
        ensures grows { R.faults reader.old ≤ R.faults reader.new }
    {
        for _ in 0..ASKS_MAX {
            let Picked::Ask(next) = asks.take() else {
                return false;
            };
            self.links.ask(around.alloc, calls, reader, &next);
        }
        true
    }

    // Serves what came on each link, has a flush turn made where a request was given to the broker, and sends what is due.
    fn serve<W: Wait, C: Calls, R: Reader, F: Flushes>(
        &mut self,
        around: &Around<'_, W, P>,
        calls: &mut C,
        reader: &mut R,
        now: u64,
        flusher: &mut F,
    )
        requires { now < 2 ^ 62 }
        ensures went { ByReader R.gives (R.faults reader.new) (λ read. LeadsBy (at_reading now C.makes) calls.old calls.new
            (R.faults reader.old) (R.faults reader.new)
            (λ acts. GoesOn (loop_view P.Link.tells P.Link.given P.Link.taken P.Ends.tells P.Ends.entries) read
            self.old.links acts self.new.links)) }
        ensures grows { R.faults reader.old ≤ R.faults reader.new }
    {
        let buffer = self.buffer.as_mut_slice();
        let given = self.links.hear::<C, R>(around.alloc, calls, buffer, now);
        let made = given && self.flush_or_ring(around, flusher);
        if self.links.reply(around.alloc, around.shared, calls, reader)
            && let Some(port) = around.ports.first()
        {
            port.wake();
        }
        self.ring_for_rest(around, made);
    }

    // How many milliseconds the loop may wait for reports, where more may have come or not. Where a link waits for a
    // flush turn the end of the next one wakes it.
    fn timeout<W: Wait>(&self, around: &Around<'_, W, P>, more_came: bool) -> Option<u64> {
        let outlook = self.links.outlook();
        if outlook.awaits
            && let Some(port) = around.ports.get(self.links.number)
        {
            port.await_turn();
        }
        // Looked at once the turn's end would wake the loop, so that no end falls between.
        let turned = outlook.awaits && around.shared.turns() != self.turns;
        if turned || more_came || self.at_door {
            return Some(0);
        }
        outlook.timeout()
    }

    // Whether no link comes any more. Links that were handed over before the door was closed are on their way.
    fn is_last<W: Wait, K: Clock + Drop>(
        &self,
        around: &Around<'_, W, P>,
        outside: &Outside<P, K>,
    ) -> bool
        ensures { result ≡ true → IsDoorDone outside.now.entrance }
    {
        if let Some(entrance) = &outside.entrance {
            return entrance.is_done();
        }
        if !around.shared.is_closed() {
            return false;
        }
        match around.ports.get(self.links.number) {
            Some(port) => port.is_empty(around.rt),
            None => true,
        }
    }

    // Whether the loop has no link, and gets none any more.
    fn is_done<W: Wait, K: Clock + Drop>(
        &self,
        around: &Around<'_, W, P>,
        outside: &Outside<P, K>,
    ) -> bool
        ensures { result ≡ true → IsDoorDone outside.now.entrance }
    {
        self.links.is_empty() && self.is_last(around, outside)
    }

    // Waits for reports, so many milliseconds at most.
    fn wait<K: Clock + Drop>(
        &mut self,
        outside: &mut Outside<P, K>,
        timeout: Option<u64>,
    ) -> Result<(), LoopEnd>
        ensures links { self.new.links ≡ self.old.links }
        ensures clock { outside.new.clock ≡ outside.old.clock }
        ensures entrance { outside.new.entrance ≡ outside.old.entrance }
        ensures cause { CountsLoop result (loop_faults P.faults P.Door.faults K.faults outside.old)
            (loop_faults P.faults P.Door.faults K.faults outside.new) }
    {
        outside.wait(timeout, &mut self.events)
    }

    // Waits for reports, so many milliseconds at most, notes them and lets in who came. Answers whether more may have
    // come.
    fn gather<W: Wait, K: Clock + Drop, C: Calls, R: Reader>(
        &mut self,
        around: &Around<'_, W, P>,
        outside: &mut Outside<P, K>,
        calls: &mut C,
        timeout: Option<u64>,
    ) -> Result<bool, LoopEnd>
        ensures went { ByReader R.gives 0 (λ read. LeadsBy (unasked C.makes) calls.old calls.new 0 0
            (λ acts. GoesOn (loop_view P.Link.tells P.Link.given P.Link.taken P.Ends.tells P.Ends.entries) read
            self.old.links acts self.new.links)) }
        ensures clock { outside.new.clock ≡ outside.old.clock }
        ensures door { KeepsDoor P.Door.gave outside.old.entrance outside.new.entrance }
        ensures cause { CountsLoop result (loop_faults P.faults P.Door.faults K.faults outside.old)
            (loop_faults P.faults P.Door.faults K.faults outside.new) }
    {
        self.wait(outside, timeout)?;
        self.note_reports::<R>();
        self.ask_door::<W, K, C, R>(around, outside, calls)?;
        Ok(self.take_in::<W, K, C, R>(around, outside, calls))
    }

    // One pass: what was reported, the check-backs that have arrived, what came, and what is due. Answers how long the next one
    // may wait for reports.
    fn pass<W: Wait, K: Clock + Drop, A: Takes, C: Calls, R: Reader, F: Flushes>(
        &mut self,
        around: &Around<'_, W, P>,
        outside: &mut Outside<P, K>,
        asks: &mut A,
        calls: &mut C,
        reader: &mut R,
        timeout: Option<u64>,
        flusher: &mut F,
    ) -> Result<Option<u64>, LoopEnd>
        ensures went { ByReader R.gives (R.faults reader.new)
            (λ read. LeadsTaking C.makes A.takes calls.old calls.new asks.old asks.new
            (R.faults reader.old) (R.faults reader.new)
            (λ acts. GoesTimed (loop_view P.Link.tells P.Link.given P.Link.taken P.Ends.tells P.Ends.entries) read
            (clock_over K.tells (K.readings outside.old.clock) (K.readings outside.new.clock)) self.old.links acts self.new.links)) }
        ensures grows { R.faults reader.old ≤ R.faults reader.new }
        ensures door { KeepsDoor P.Door.gave outside.old.entrance outside.new.entrance }
        ensures cause { CountsLoop result (loop_faults P.faults P.Door.faults K.faults outside.old)
            (loop_faults P.faults P.Door.faults K.faults outside.new) }
    {
        let more_came = self.gather::<W, K, C, R>(around, outside, calls, timeout)?;
        let now = outside.now()?;
        self.note_turns(around.shared);
        let more_asks = self.take_asks(around, asks, calls, reader);
        self.serve(around, calls, reader, now, flusher);
        Ok(self.timeout(around, more_came || more_asks))
    }

    // Serves links until the door is done and all of them have ended, or a fault of it or of another loop ends it.
    fn go_on<W: Wait, K: Clock + Drop, A: Takes, C: Calls, R: Reader, F: Flushes>(
        &mut self,
        around: &Around<'_, W, P>,
        outside: &mut Outside<P, K>,
        asks: &mut A,
        calls: &mut C,
        reader: &mut R,
        flusher: &mut F,
    ) -> LoopEnd
        ensures went { ByReader R.gives (R.faults reader.new)
            (λ read. LeadsTaking C.makes A.takes calls.old calls.new asks.old asks.new
            (R.faults reader.old) (R.faults reader.new)
            (λ acts. GoesTimed (loop_view P.Link.tells P.Link.given P.Link.taken P.Ends.tells P.Ends.entries) read
            (clock_over K.tells (K.readings outside.old.clock) (K.readings outside.new.clock)) self.old.links acts self.new.links)) }
        ensures grows { R.faults reader.old ≤ R.faults reader.new }
        ensures door { AtDoor P.Door.gave result outside.old.entrance outside.new.entrance }
        ensures cause { CountsEnd result (loop_faults P.faults P.Door.faults K.faults outside.old)
            (loop_faults P.faults P.Door.faults K.faults outside.new) }
    {
        let mut timeout = None;
        for _ in around.rt.forever() {
            if around.shared.is_ending() {
                return LoopEnd::Stopped;
            }
            if self.is_done(around, outside) {
                return LoopEnd::Done;
            }
            match self.pass(around, outside, asks, calls, reader, timeout, flusher) {
                Ok(next) => timeout = next,
                Err(end) => return end,
            }
        }
        unreachable!()
    }

    /// Serves links until the door is done and all of them have ended, or a fault of it or of another loop ends it; then it lets go of
    /// those that are left. Meanwhile it writes the check-backs that come. Whoever sends one wakes the loop.
    pub fn run<W: Wait, K: Clock + Drop, A: Takes, C: Calls, R: Reader, F: Flushes>(
        &mut self,
        around: &Around<'_, W, P>,
        outside: &mut Outside<P, K>,
        asks: &mut A,
        calls: &mut C,
        reader: &mut R,
        flusher: &mut F,
    ) -> LoopEnd
        // Each step is one of a link's pass, or its end. The requests of each pass are given to the broker at the reading that the
        // clock gave for it. What was written to links are some of the check-backs that were taken.
        ensures went { ByReader R.gives (R.faults reader.new)
            (λ read. LeadsTaking C.makes A.takes calls.old calls.new asks.old asks.new
            (R.faults reader.old) (R.faults reader.new)
            (λ acts. GoesTimed (loop_view P.Link.tells P.Link.given P.Link.taken P.Ends.tells P.Ends.entries) read
            (clock_over K.tells (K.readings outside.old.clock) (K.readings outside.new.clock)) self.old.links acts self.new.links)) }
        ensures grows { R.faults reader.old ≤ R.faults reader.new }
        // Each link that it had is let go of.
        ensures none { self.new.links.slots.items ≡ [] }
        // No more links are let in than its door gave. It ends as done only where none is let in any more.
        ensures door { AtDoor P.Door.gave result outside.old.entrance outside.new.entrance }
        // It ends by a fault only where the count of what it blames rose.
        ensures cause { CountsEnd result (loop_faults P.faults P.Door.faults K.faults outside.old)
            (loop_faults P.faults P.Door.faults K.faults outside.new) }
    {
        let end = self.go_on(around, outside, asks, calls, reader, flusher);
        self.links.let_go::<C, R>(around.alloc, calls);
        end
    }

    // Lets go of a link that was handed over and is served by nobody.
    fn refuse<C: Calls, R: Reader>(&mut self, alloc: Global, calls: &mut C, new: NewLink<P::Link>)
        ensures went { ByReader R.gives 0 (λ read. LeadsBy (unasked C.makes) calls.old calls.new 0 0
            (λ acts. GoesOn (loop_view P.Link.tells P.Link.given P.Link.taken P.Ends.tells P.Ends.entries) read
            self.old.links acts self.new.links)) }
        ensures slots { self.new.links.slots ≡ self.old.links.slots }
    {
        let NewLink { number, link } = new;
        if !self.links.may_have(number) {
            self.links.lose::<R>();
            return;
        }
        self.links.refuse::<C, R>(alloc, calls, number, link);
    }

    /// Lets go of the links that were handed over to it and not served any more, once all loops have ended.
    pub fn refuse_left<W: Wait, C: Calls, R: Reader>(
        &mut self,
        around: &Around<'_, W, P>,
        calls: &mut C,
    )
        ensures went { ByReader R.gives 0 (λ read. LeadsBy (unasked C.makes) calls.old calls.new 0 0
            (λ acts. GoesOn (loop_view P.Link.tells P.Link.given P.Link.taken P.Ends.tells P.Ends.entries) read
            self.old.links acts self.new.links)) }
        ensures slots { self.new.links.slots ≡ self.old.links.slots }
    {
        let Some(port) = around.ports.get(self.links.number) else {
            return;
        };
        for _ in around.rt.forever() {
            let Some(new) = port.take(around.rt) else {
                return;
            };
            self.refuse::<C, R>(around.alloc, calls, new);
        }
        unreachable!()
    }

    /// Whether each link that it had is in its ledger, with a number that is at most this one.
    pub fn is_whole(&self, came: u32) -> bool
        ensures { result ≡ true → (self.now.links.ledger.lost ≡ false) × (self.now.links.newest ≤ came) }
    {
        !self.links.ledger.lost && self.links.newest <= came
    }

    /// How many links are in its ledger.
    pub fn count_ended(&self) -> u64
        ensures { P.Ends.tells → result ≡ length (P.Ends.entries self.now.links.ledger.ends) }
    {
        self.links.ledger.ends.count()
    }

    /// Its ledger.
    pub fn into_ends(self) -> P::Ends
        ensures { result ≡ self.links.ledger.ends }
    {
        let EventLoop {
            links,
            events,
            buffer,
            turns: _,
            at_door: _,
            door_waits: _,
        } = self;
        drop(events);
        drop(buffer);
        links.into_ends()
    }
}
