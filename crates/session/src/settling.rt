//! What is owed leaves a link: the replies that are due, in the order of their requests, and their bytes.

ghost use Rattle.std.specs.Prelude.{◌≡◌, ◌≢◌, ◌≤◌, ◌<◌, ◌+◌, ℕ, drop, length, IfOk, OnOk, OnErr};
ghost use Rattle.broker_events.specs.declared.said.Awaited.TheVariants.{NotYet};
ghost use Rattle.session.specs.Readers.{reads_between, risen_from};
ghost use Rattle.session.specs.Serving.{Leads, LeadsReading, KeepsOut};
ghost use Rattle.session.specs.Settling.{Became, IsDueAt, TakesDue, GivesDue, SettlesAll, IsPut, awaits_of, unsent_of};
ghost use Rattle.session.specs.Settling.{front_is_below, is_below as is_below_of, is_full_of, is_loaded_of};

use crate::caller::Caller;
use crate::owed::{Awaits, look, not_flushed, write_reply};
use crate::session::Session;
use broker_events::{Awaited, Calls};
use mq_outside::Reader;
use reply_fields::Reply;
use std::alloc::{AllocError, Global};

/// So many replies may be owed before no further request is read.
pub const OWED_MAX: usize = 1024;

/// So many bytes of replies may wait before no further request is read.
pub const UNSENT_MAX: usize = 1 << 20;

// What became of the record that a reply waits for; it is as if flushed where the reply waits for none.
fn became<C: Calls>(alloc: Global, calls: &mut C, awaits: Option<Awaits>) -> Awaited
    ensures { Leads C.makes calls.old calls.new (λ made. Became awaits result made) }
{
    match awaits {
        None => Awaited::Flushed,
        Some(awaits) => look(alloc, calls, awaits),
    }
}

// The reply that is due once this became of its record.
fn due(alloc: Global, reply: Reply, awaited: Awaited) -> Result<Reply, AllocError>
    requires { awaited ≢ NotYet }
    ensures { IfOk result (λ due. IsDueAt awaited reply due) }
{
    match awaited {
        Awaited::Failed { count } => not_flushed(alloc, reply, count),
        Awaited::Flushed | Awaited::NotYet => Ok(reply),
    }
}

// Whether a reply waits for no record, or for one below this number.
fn is_below(awaits: Option<Awaits>, flushed: u64) -> bool
    ensures { result ≡ is_below_of awaits flushed }
{
    match awaits {
        None => true,
        Some(awaits) => awaits.number < flushed,
    }
}

impl Session {
    // The front reply, where its record is not pending any more; none where it is, or nothing is owed.
    fn next_due<C: Calls>(
        &mut self,
        alloc: Global,
        calls: &mut C,
    ) -> Result<Option<(Caller, Reply)>, AllocError>
        ensures due { Leads C.makes calls.old calls.new (λ made. GivesDue self.old made result self.new) }
        ensures held { self.new.held ≡ self.old.held }
        ensures talk { self.new.talk ≡ self.old.talk }
        ensures out { KeepsOut self.old self.new }
    {
        let Some(front) = self.owed.front() else {
            return Ok(None);
        };
        let awaited = became(alloc, calls, front.awaits);
        if let Awaited::NotYet = awaited {
            return Ok(None);
        }
        self.take_due(alloc, awaited)
    }

    // Takes off the front reply, of whose record this became. At `Err` it was taken off, and is lost.
    fn take_due(
        &mut self,
        alloc: Global,
        awaited: Awaited,
    ) -> Result<Option<(Caller, Reply)>, AllocError>
        requires come { awaited ≢ NotYet }
        requires owed { 0 < length self.old.owed.items }
        ensures took { TakesDue awaited self.old.owed.items result self.new.owed.items }
        ensures held { self.new.held ≡ self.old.held }
        ensures talk { self.new.talk ≡ self.old.talk }
        ensures out { KeepsOut self.old self.new }
    {
        let Some(owed) = self.owed.pop_front() else {
            return Ok(None);
        };
        let due = due(alloc, owed.reply, awaited)?;
        Ok(Some((owed.caller, due)))
    }

    /// Writes the replies that are due, in the order of the requests, up to one whose record is pending still, and until
    /// so many bytes wait that no further reply is written before some are sent; none where nobody waits for one. At `Err` there
    /// is no memory, and the link has to end, since a reply has left that was not written.
    pub fn settle<C: Calls, R: Reader>(
        &mut self,
        alloc: Global,
        calls: &mut C,
        reader: &mut R,
    ) -> Result<(), AllocError>
        // Each reply `read N` is one at which the reader failed, and its count rose to N. They are at most as many as it rose by.
        ensures settles { LeadsReading C.makes calls.old calls.new (R.faults reader.old) (R.faults reader.new)
            (λ made reads. SettlesAll (reads_between R.gives R.faults reader.old reader.new) self.old made reads result self.new) }
        ensures held { self.new.held ≡ self.old.held }
        ensures talk { self.new.talk ≡ self.old.talk }
        ensures sent { self.new.sent ≡ self.old.sent }
        ensures asked { self.new.asked ≡ self.old.asked }
        ensures grows { R.faults reader.old ≤ R.faults reader.new }
    {
        'owed: while !self.owed.is_empty() {
            if self.out.len() - self.sent >= UNSENT_MAX {
                return Ok(());
            }
            let Some((caller, reply)) = self.next_due(alloc, calls)? else {
                return Ok(());
            };
            self.put(alloc, caller, reply, reader)?;
        }
        Ok(())
    }

    // Puts the bytes of a reply behind those that are to be sent, none where nobody waits for it.
    fn put<R: Reader>(
        &mut self,
        alloc: Global,
        caller: Caller,
        reply: Reply,
        reader: &mut R,
    ) -> Result<(), AllocError>
        ensures put { OnOk result ((reads : ℕ) × (R.faults reader.old + reads ≤ R.faults reader.new)
            × IsPut (risen_from R.gives (R.faults reader.old)) caller reply (R.faults reader.new) reads
            self.old.out.items self.new.out.items) }
        ensures err { OnErr result (self.new.out.items ≡ self.old.out.items) }
        ensures grows { R.faults reader.old ≤ R.faults reader.new }
        ensures owed { self.new.owed.items ≡ self.old.owed.items }
        ensures held { self.new.held ≡ self.old.held }
        ensures talk { self.new.talk ≡ self.old.talk }
        ensures sent { self.new.sent ≡ self.old.sent }
        ensures asked { self.new.asked ≡ self.old.asked }
    {
        if caller.one_way {
            drop(reply);
            Ok(())
        } else {
            write_reply(alloc, caller, reply, reader, &mut self.out)
        }
    }

    /// Whether a reply waits for its record, or a request for room: a flush turn may bring it on.
    pub fn awaits(&self) -> bool
        ensures { result ≡ awaits_of self.now }
    {
        if self.held.is_some() {
            return true;
        }
        match self.owed.front() {
            Some(owed) => owed.awaits.is_some(),
            None => false,
        }
    }

    /// Whether a reply is owed, and the first one waits for no record, or for one below this number.
    pub fn is_due_below(&self, flushed: u64) -> bool
        ensures { result ≡ front_is_below self.now.owed.items flushed }
    {
        match self.owed.front() {
            Some(owed) => is_below(owed.awaits, flushed),
            None => false,
        }
    }

    /// Whether so much is owed or unsent that no further request is to be served.
    pub fn is_full(&self) -> bool
        ensures { result ≡ is_full_of self.now }
    {
        self.owed.len() >= OWED_MAX || self.out.len() - self.sent >= UNSENT_MAX
    }

    /// Whether a request waits for room, or so much is owed or unsent, that no further request is to be read.
    pub fn is_loaded(&self) -> bool
        ensures { result ≡ is_loaded_of self.now }
    {
        self.held.is_some() || self.is_full()
    }

    /// The bytes that are to be sent.
    pub fn unsent(&self) -> &[u8]
        ensures { result.now ≡ unsent_of self.now }
    {
        &self.out[self.sent..]
    }

    /// So many of the unsent bytes were sent, at most all.
    pub fn sent(&mut self, count: usize)
        ensures unsent { unsent_of self.new ≡ drop count (unsent_of self.old) }
        ensures held { self.new.held ≡ self.old.held }
        ensures talk { self.new.talk ≡ self.old.talk }
        ensures owed { self.new.owed.items ≡ self.old.owed.items }
        ensures asked { self.new.asked ≡ self.old.asked }
    {
        if count >= self.out.len() - self.sent {
            self.out.clear();
            self.sent = 0;
        } else {
            self.sent += count;
        }
    }

    /// The place at which the next frame starts, and how many bytes of it and what follows are held.
    pub fn rest(&self) -> (u64, u64)
        ensures { (result.0 ≡ self.now.talk.cutter.at) × (result.1 ≡ length self.now.talk.cutter.bytes) }
    {
        self.talk.rest()
    }
}
