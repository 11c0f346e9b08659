//! A link with its session: what one pass of a loop does for it.
//!
//! `whole -> broken [read, serve, settle, write, has_room, break_off]`, where the link fails or there is no memory. A broken link makes
//! no further call.
//! `whole -> garbled [serve]`, where what it says is no frame: nothing more is served. `drain.rt` says how it ends.

ghost use Rattle.std.specs.Prelude.{◌≡◌, ◌<◌, ◌≤◌, ◌^◌, [], false, true, IfOk};
ghost use Rattle.session.specs.Serving.{Leads, LeadsReading};
ghost use Rattle.link_service.specs.Clocks.{at_reading, unasked};
ghost use Rattle.link_service.specs.Transcripts.{ByReader, WentOn, WentOnWith, WentOnUnread, IsFresh, if_asked, seen_of};
ghost use Rattle.link_service.specs.Unfinished.{unfinished_in};

use broker_events::Calls;
use mq_outside::Reader;
use mq_peers::{Incoming, Link};
use reply_fields::Ask;
use session::{Halt, Session, Step};
use std::alloc::Global;

/// So many reads of one link are made in one pass at most.
const READS_MAX: usize = 16;

/// So many bytes are read of one link in one pass at most, where its loop reads 64 KiB at once.
const PASS_BYTES: u64 = 1 << 20;

/// So many requests of one link are served in one pass at most.
const REQUESTS_MAX: usize = 4096;

/// So many writes to one link are made in one pass at most.
const WRITES_MAX: usize = 64;

/// A link that a loop serves.
#[derive(Drop)]
pub struct Linked<L: Link + Drop> {
    pub(crate) link: L,
    pub(crate) session: Session,
    // It may have more to say, or may take more, than it said and took so far.
    pub(crate) readable: bool,
    pub(crate) writable: bool,
    // Its peer has ended its side: reads go on until one says so.
    pub(crate) ended: bool,
    // Nothing more is read: its stream ended, or it was read on as far as a garbled link is.
    pub(crate) deaf: bool,
    // What it says is no frame.
    pub(crate) garbled: bool,
    // Since when it is read on, in milliseconds, and until how many bytes are held of it.
    pub(crate) drained_since: Option<u64>,
    pub(crate) drained_to: u64,
    // It may hold a whole request that was not served yet, since so much was owed or unsent, or so many were served.
    pub(crate) behind: bool,
    // Replies may be due, or unsent and taken at once, that its last pass did not come to.
    pub(crate) owes: bool,
    // It failed, or there was no memory for it.
    pub(crate) broken: bool,
}

impl<L: Link + Drop> Linked<L> {
    /// A new link with this number.
    pub fn new(alloc: Global, number: u32, link: L) -> Linked<L>
        requires given { L.tells → L.given link ≡ [] }
        requires taken { L.tells → L.taken link ≡ [] }
        ensures fresh { IsFresh L.tells number (L.peer link) (seen_of L.given L.taken result) }
    {
        let host = link.peer();
        Linked {
            link,
            session: Session::new(alloc, number, host),
            readable: true,
            writable: true,
            ended: false,
            deaf: false,
            garbled: false,
            drained_since: None,
            drained_to: 0,
            behind: false,
            owes: false,
            broken: false,
        }
    }

    /// The link's number.
    pub fn number(&self) -> u32
        ensures { result ≡ self.now.session.talk.link }
    {
        self.session.link()
    }

    /// The link, which makes no further call here.
    pub fn into_link(self) -> L
        ensures { result ≡ self.link }
    {
        let Linked {
            link,
            session,
            readable: _,
            writable: _,
            ended: _,
            deaf: _,
            garbled: _,
            drained_since: _,
            drained_to: _,
            behind: _,
            owes: _,
            broken: _,
        } = self;
        drop(session);
        link
    }

    /// It was reported. Where its peer has ended its side, it is read until a read says so.
    pub fn report(&mut self, readable: bool, writable: bool, ended: bool)
        ensures { seen_of L.given L.taken self.new ≡ seen_of L.given L.taken self.old }
    {
        self.readable = self.readable || readable || ended;
        self.writable = self.writable || writable || ended;
        self.ended = self.ended || ended;
    }

    // Whether it is read. While whole requests may be held it isn't: it could say more in each pass than is served.
    fn is_heard(&self) -> bool
        ensures { result ≡ true → self.now.broken ≡ false }
    {
        self.readable && !self.deaf && !self.broken && !self.behind && !self.session.is_loaded()
    }

    // Takes in what one read brings.
    fn read_once(&mut self, buffer: &mut [u8])
        requires whole { self.old.broken ≡ false }
        ensures went { WentOnUnread L.tells (seen_of L.given L.taken self.old) [] (seen_of L.given L.taken self.new) }
    {
        match self.link.read(buffer) {
            Ok(Incoming::Bytes(n)) => match self.session.feed(&buffer[..n]) {
                Ok(()) => self.readable = (n == buffer.len()) | self.ended,
                Err(_) => self.broken = true,
            },
            Ok(Incoming::NotNow) => self.readable = false,
            Ok(Incoming::End) => self.deaf = true,
            Err(_) => self.broken = true,
        }
    }

    // Takes in what the link says now, at most as much as one pass reads.
    pub(crate) fn read(&mut self, buffer: &mut [u8])
        ensures went { WentOnUnread L.tells (seen_of L.given L.taken self.old) [] (seen_of L.given L.taken self.new) }
    {
        for _ in 0..READS_MAX {
            if !self.is_heard() {
                return;
            }
            self.read_once(buffer);
        }
    }

    // Gives the next request that was heard to the broker.
    fn serve_once<C: Calls>(&mut self, alloc: Global, calls: &mut C, now: u64) -> Result<Step, Halt>
        requires now { now < 2 ^ 62 }
        requires whole { self.old.broken ≡ false }
        ensures went { Leads (at_reading now C.makes) calls.old calls.new
            (λ made. WentOnUnread L.tells (seen_of L.given L.taken self.old) made (seen_of L.given L.taken self.new)) }
        ensures whole { IfOk result (λ step. self.new.broken ≡ false) }
    {
        let end = self.session.serve_next(alloc, calls, now);
        match end {
            Ok(_) => {}
            Err(Halt::BadFrame(_)) => self.garbled = true,
            Err(Halt::Memory) => self.broken = true,
        }
        end
    }

    // Gives each whole request that was heard to the broker. Answers whether any was.
    fn serve<C: Calls>(&mut self, alloc: Global, calls: &mut C, now: u64) -> bool
        requires now { now < 2 ^ 62 }
        requires whole { self.old.broken ≡ false }
        ensures went { Leads (at_reading now C.makes) calls.old calls.new
            (λ made. WentOnUnread L.tells (seen_of L.given L.taken self.old) made (seen_of L.given L.taken self.new)) }
    {
        let mut any = false;
        self.behind = false;
        for _ in 0..REQUESTS_MAX {
            if self.session.is_full() {
                self.behind = true;
                return any;
            }
            match self.serve_once(alloc, calls, now) {
                Ok(Step::Request) => any = true,
                Ok(Step::Nothing) | Err(Halt::BadFrame(_)) => return any,
                // For want of memory a request may have been answered of which nothing is owed.
                Ok(Step::Full) | Err(Halt::Memory) => return true,
            }
        }
        self.behind = true;
        any
    }

    // Looks for room where a request found none. Answers whether none waits for it now, or its record is flushed.
    fn has_room<C: Calls>(&mut self, alloc: Global, calls: &mut C, now: u64) -> bool
        requires whole { self.old.broken ≡ false }
        ensures went { Leads (at_reading now C.makes) calls.old calls.new
            (λ made. WentOnUnread L.tells (seen_of L.given L.taken self.old) made (seen_of L.given L.taken self.new)) }
    {
        match self.session.look_for_room(alloc, calls) {
            Ok(has) => has,
            Err(_) => {
                self.broken = true;
                false
            }
        }
    }

    /// Reads and serves what came. Answers whether a request was given to the broker. While a request waits for room one look is made for
    /// it, and nothing is read or served.
    pub fn hear<C: Calls>(
        &mut self,
        alloc: Global,
        calls: &mut C,
        buffer: &mut [u8],
        now: u64,
    ) -> bool
        requires { now < 2 ^ 62 }
        ensures went { Leads (at_reading now C.makes) calls.old calls.new
            (λ made. WentOnUnread L.tells (seen_of L.given L.taken self.old) made (seen_of L.given L.taken self.new)) }
    {
        if self.broken {
            return false;
        }
        if self.garbled {
            self.drain(buffer, now);
            return false;
        }
        if !self.has_room(alloc, calls, now) {
            return false;
        }
        self.read(buffer);
        if self.broken {
            return false;
        }
        self.serve(alloc, calls, now)
    }

    // Writes the replies that are due.
    fn settle<C: Calls, R: Reader>(&mut self, alloc: Global, calls: &mut C, reader: &mut R)
        requires whole { self.old.broken ≡ false }
        ensures went { ByReader R.gives (R.faults reader.new) (λ read. LeadsReading (unasked C.makes) calls.old calls.new
            (R.faults reader.old) (R.faults reader.new) (λ made reads.
            WentOn L.tells read (seen_of L.given L.taken self.old) made reads (seen_of L.given L.taken self.new))) }
        ensures grows { R.faults reader.old ≤ R.faults reader.new }
        ensures talk { self.new.session.talk ≡ self.old.session.talk }
    {
        match self.session.settle(alloc, calls, reader) {
            Ok(()) => {}
            Err(_) => self.broken = true,
        }
    }

    // The same, unless the first reply waits for a record that isn't below this number. Each look is a step of the broker.
    fn settle_below<C: Calls, R: Reader>(
        &mut self,
        alloc: Global,
        calls: &mut C,
        reader: &mut R,
        flushed: u64,
    )
        requires whole { self.old.broken ≡ false }
        ensures went { ByReader R.gives (R.faults reader.new) (λ read. LeadsReading (unasked C.makes) calls.old calls.new
            (R.faults reader.old) (R.faults reader.new) (λ made reads.
            WentOn L.tells read (seen_of L.given L.taken self.old) made reads (seen_of L.given L.taken self.new))) }
        ensures grows { R.faults reader.old ≤ R.faults reader.new }
    {
        if !self.session.is_due_below(flushed) {
            return;
        }
        self.settle(alloc, calls, reader);
    }

    // Whether something is to be sent, and it takes it.
    fn is_sent(&self) -> bool
        ensures { result ≡ true → self.now.broken ≡ false }
    {
        self.writable && !self.broken && !self.session.unsent().is_empty()
    }

    // Sends as much as one write takes.
    fn write_once(&mut self)
        requires whole { self.old.broken ≡ false }
        ensures went { WentOnUnread L.tells (seen_of L.given L.taken self.old) [] (seen_of L.given L.taken self.new) }
    {
        match self.link.write(self.session.unsent()) {
            Ok(Some(n)) => self.session.sent(n),
            Ok(None) => self.writable = false,
            Err(_) => self.broken = true,
        }
    }

    // Sends what is to be sent, as far as the link takes it.
    fn write(&mut self)
        ensures went { WentOnUnread L.tells (seen_of L.given L.taken self.old) [] (seen_of L.given L.taken self.new) }
    {
        for _ in 0..WRITES_MAX {
            if !self.is_sent() {
                return;
            }
            self.write_once();
        }
    }

    /// Writes and sends the replies that are due. While the first waits for a record that isn't below `flushed`, none is looked for:
    /// the caller knows that a look would say that nothing became of it yet, and gives `u64::MAX` where it doesn't.
    pub fn reply<C: Calls, R: Reader>(
        &mut self,
        alloc: Global,
        calls: &mut C,
        reader: &mut R,
        flushed: u64,
    )
        ensures went { ByReader R.gives (R.faults reader.new) (λ read. LeadsReading (unasked C.makes) calls.old calls.new
            (R.faults reader.old) (R.faults reader.new) (λ made reads.
            WentOn L.tells read (seen_of L.given L.taken self.old) made reads (seen_of L.given L.taken self.new))) }
        ensures grows { R.faults reader.old ≤ R.faults reader.new }
    {
        self.owes = false;
        for _ in 0..WRITES_MAX {
            if self.broken {
                return;
            }
            self.settle_below(alloc, calls, reader, flushed);
            if self.session.unsent().is_empty() {
                return;
            }
            self.write();
            if !self.session.unsent().is_empty() {
                self.owes = self.writable;
                return;
            }
        }
        self.owes = true;
    }

    // Whether its peer may answer a check-back.
    fn can_answer(&self) -> bool
        ensures { result ≡ true → self.now.broken ≡ false }
    {
        !self.broken && !self.garbled && !self.deaf
    }

    // Puts a check-back behind what is to be sent. Answers whether it did.
    fn put_ask<R: Reader>(&mut self, alloc: Global, ask: &Ask) -> bool
        requires { ask.now.link ≡ self.old.session.talk.link }
        ensures { ByReader R.gives 0 (λ read. WentOnWith L.tells read (seen_of L.given L.taken self.old) []
            (if_asked result ask.now) 0 (seen_of L.given L.taken self.new)) }
    {
        if !self.can_answer() {
            return false;
        }
        self.session.ask(alloc, ask)
    }

    /// Writes the replies that are due, and behind them a check-back for this link, before all later replies. It is sent by the
    /// next `reply`. Answers whether it was written: it is left out where the link says nothing more, where so much is to be sent
    /// that no further reply is written either, or where there is no memory for it.
    pub fn ask<C: Calls, R: Reader>(
        &mut self,
        alloc: Global,
        calls: &mut C,
        reader: &mut R,
        ask: &Ask,
    ) -> bool
        requires { ask.now.link ≡ self.old.session.talk.link }
        ensures went { ByReader R.gives (R.faults reader.new) (λ read. LeadsReading (unasked C.makes) calls.old calls.new
            (R.faults reader.old) (R.faults reader.new) (λ made reads. WentOnWith L.tells read (seen_of L.given L.taken self.old)
            made (if_asked result ask.now) reads (seen_of L.given L.taken self.new))) }
        ensures grows { R.faults reader.old ≤ R.faults reader.new }
    {
        if !self.can_answer() {
            return false;
        }
        self.settle(alloc, calls, reader);
        self.put_ask::<R>(alloc, ask)
    }

    /// How many bytes are held of a frame that isn't whole, or of what is no frame. Where whole requests may be held too, as many as
    /// one pass reads don't count.
    pub fn unfinished(&self) -> u64
        ensures { result ≡ unfinished_in self.now }
    {
        if self.broken {
            return 0;
        }
        let (_, held) = self.session.rest();
        if self.behind || self.session.is_loaded() {
            held.saturating_sub(PASS_BYTES)
        } else {
            held
        }
    }

    /// Breaks it: its owner has no memory for what it holds.
    pub fn break_off(&mut self)
        ensures broken { self.new.broken ≡ true }
        ensures went { WentOnUnread L.tells (seen_of L.given L.taken self.old) [] (seen_of L.given L.taken self.new) }
    {
        self.broken = true;
    }

    /// Whether a flush turn may bring it on.
    pub fn awaits(&self) -> bool {
        self.session.awaits()
    }

    // Whether nothing is left to be served or sent.
    pub(crate) fn is_settled(&self) -> bool {
        !self.behind && !self.owes && !self.session.awaits() && self.session.unsent().is_empty()
    }

    /// Whether it can go on at once.
    pub fn has_more(&self) -> bool {
        if self.broken {
            return false;
        }
        if self.garbled {
            return self.owes || self.may_drain();
        }
        self.owes
            || (self.behind && !self.session.is_full())
            || (self.readable && !self.deaf && !self.session.is_loaded())
    }

    /// Whether nothing more is to be done for it.
    pub fn has_ended(&self) -> bool {
        self.broken || (self.deaf && self.is_settled())
    }
}
