//! The core as its callers see it: it represents some state at all times, so that no call asks for one.

ghost use Rattle.std.specs.Prelude.{◌≡◌, ◌<◌, ℕ, List, None, is_some, IfOk, IfSome, OnErr};
ghost use Rattle.record_codec.specs.Entry.{Entry};
ghost use Rattle.log_model.specs.Delays.{due_delayed};
ghost use Rattle.log_model.specs.Numbered.{count_of, place_end};
ghost use Rattle.delay_view.specs.Levels.{has_come};
ghost use Rattle.broker_model.specs.Appended.{due_origin};
ghost use Rattle.broker_model.specs.State.{State, Saved};
ghost use Rattle.broker_model.specs.Run.{opened};
ghost use Rattle.broker_events.specs.Shown.{Accepts, moved};
ghost use Rattle.broker_events.specs.Steps.{IsAnswerTo, MayTakeMemory, said_in};
ghost use Rattle.core_log.specs.Counts.{AreCountsOf};
ghost use Rattle.core_log.specs.Represents.{Represents, setup_of};
ghost use Rattle.core_log.specs.Loads.{MayOpen, whole_log};
ghost use Rattle.broker_core.specs.Makes.{Makes};
ghost use Rattle.core_log.specs.Shows.{shown_of};

use crate::check_back::check;
use crate::delivery::deliver;
use crate::heartbeats::leave;
use broker_events::{Event, Said, Setup};
use client_tables::Topics;
use core_log::{Counts, Loaded, Parts};
use group_tables::Groups;
use half_records::Halves;
use key_view::KeyView;
use level_records::Levels;
use mq_outside::FrozenRanges;
use queue_view::QueueView;
use std::alloc::{AllocError, Global};
use std::marker::Model;

/// The broker, as far as it is in memory.
#[derive(Drop)]
pub struct Core {
    parts: Parts,
}

impl Model for Core {
    ghost use Rattle.core_log.specs.declared.parts.Parts.{Parts};
    ghost use Rattle.core_log.specs.contracts.parts.Parts.{the_row};

    ghost Value = { Parts };

    ghost coded = { the_row.coded };

    ghost use Rattle.core_log.specs.Carries.{RepresentsSome};

    ghost view = { λ c. c.parts };

    ghost invariant = { λ c. RepresentsSome c.parts };
}

impl Core {
    /// The broker over a log that was loaded, whose records are in these stored ranges: all of it is on the disk, and consumers
    /// see all of it. Takes no memory.
    pub fn open(alloc: Global, setup: Setup, loaded: Loaded, stored: FrozenRanges) -> Core
        requires some { (saved : Saved) × (records : List Entry) × MayOpen setup saved records loaded stored }
        ensures represents { (saved : Saved) (records : List Entry) → MayOpen setup saved records loaded stored
            → Represents result (opened (setup_of setup) (whole_log records) saved) }
        ensures shown { (saved : Saved) (records : List Entry) → MayOpen setup saved records loaded stored
            → shown_of result ≡ record { flushed = count_of (whole_log records); end = place_end (whole_log records); out = None } }
    {
        Core {
            parts: Parts::open(alloc, setup, loaded, stored),
        }
    }

    /// The topics of clients.
    pub fn topics(&self) -> &Topics
        ensures { result.now ≡ self.now.topics }
    {
        &self.parts.topics
    }

    /// What consumer groups keep.
    pub fn groups(&self) -> &Groups
        ensures { result.now ≡ self.now.groups }
    {
        &self.parts.groups
    }

    /// The tables of queues.
    pub fn queues(&self) -> &QueueView
        ensures { result.now ≡ self.now.queues }
    {
        &self.parts.queues
    }

    /// The table of keys.
    pub fn keys(&self) -> &KeyView
        ensures { result.now ≡ self.now.keys }
    {
        &self.parts.keys
    }

    /// The half messages.
    pub fn halves(&self) -> &Halves
        ensures { result.now ≡ self.now.halves }
    {
        &self.parts.halves
    }

    /// The delayed messages.
    pub fn levels(&self) -> &Levels
        ensures { result.now ≡ self.now.levels }
    {
        &self.parts.levels
    }

    /// How many records there are.
    pub fn counts(&self) -> Counts
        ensures { (s : State) → Represents self.now s → AreCountsOf s result }
    {
        self.parts.counts()
    }

    /// The earliest time at which a delivery delivers anything, in milliseconds: it does from that time on, and none does before it.
    /// `None` where no delayed message waits that consumers see.
    pub fn next_delivery(&self) -> Option<u64>
        ensures { (s : State) (now : ℕ) → Represents self.now s → has_come now result ≡ is_some (due_delayed s.log s.dispatched now) }
    {
        self.parts.levels.next_due()
    }

    /// The earliest time at which a check checks anything, in milliseconds: none does before it. `None` where no half message is open.
    pub fn next_check(&self) -> Option<u64>
        ensures { (s : State) (now : ℕ) → Represents self.now s → IfSome result (λ time. now < time) → due_origin s now ≡ None }
    {
        self.parts.halves.next_due()
    }

    /// Makes one step. Want of memory comes only at a request, at `Take`, at a delivery and at a check, and changes nothing.
    pub fn apply(&mut self, alloc: Global, event: &Event) -> Result<Said, AllocError>
        requires accepted { Accepts (shown_of self.old) event.now }
        ensures step { (s : State) → Represents self.old s → Makes s event.now (said_in result) self.new }
        ensures shown { shown_of self.new ≡ moved (shown_of self.old) event.now (said_in result) }
        ensures answer { IfOk result (IsAnswerTo event.now) }
        ensures memory { OnErr result (MayTakeMemory event.now) }
    {
        match event {
            Event::Request {
                link,
                host,
                now,
                request,
            } => crate::request::request(&mut self.parts, alloc, *link, host, *now, request),
            Event::Take => match self.parts.take(alloc) {
                Ok(batch) => Ok(Said::Batch(batch)),
                Err(fault) => Err(fault),
            },
            Event::Flushed(receipt) => {
                self.parts.flushed(receipt);
                Ok(Said::Done)
            }
            Event::FlushFailed { count } => {
                self.parts.flush_failed(*count);
                Ok(Said::Done)
            }
            Event::Look { number, turn } => Ok(Said::Awaited(self.parts.look(*number, *turn))),
            Event::Dispatch { most } => Ok(Said::Moved(self.parts.dispatch(*most))),
            Event::Deliver { now } => deliver(&mut self.parts, alloc, *now),
            Event::Check { now } => check(&mut self.parts, alloc, *now),
            Event::Leave { link } => {
                leave(&mut self.parts, *link);
                Ok(Said::Done)
            }
        }
    }
}
