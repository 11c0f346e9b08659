//! The delay levels. A level's messages that are still to be delivered are kept whole; each is let go once it was delivered.

ghost use Rattle.std.specs.Prelude.{◌≡◌, length};

use crate::deliveries::delivered_level;
use crate::lines::{empty_lines, let_go, make_room, put};
use crate::waiting::Waiting;
use delay_view::{DelayView, LEVELS};
use mq_bytes::level_delay;
use record_codec::View;
use record_copies::Whole;
use std::alloc::{AllocError, Global};

// No level has as many deliveries: no log has as many records.
const DELIVERIES_MAX: u64 = 1 << 62;

/// The delay levels.
#[derive(Drop)]
pub struct Levels {
    view: DelayView,
    // Of each level the messages that are to be delivered, the next one first.
    waiting: Vec<Waiting>,
    ghost eighteen: { length waiting.items ≡ 18 },
}

impl Levels {
    ghost use Rattle.std.specs.Prelude.{◌<◌, ◌≤◌, ◌+◌, ◌-◌, ◌^◌, ◌∷◌, [], ℕ, length, slice_get, option_map, is_some, Some, IfOk, OnOk};
    ghost use Rattle.record_codec.specs.Entry.{Entry};
    ghost use Rattle.log_model.specs.Admissible.{level_topic};
    ghost use Rattle.log_model.specs.Bases.{no_base};
    ghost use Rattle.log_model.specs.Delays.{due_delayed, next_delayed, progress};
    ghost use Rattle.log_model.specs.Numbered.{Log, IsLawful, count_of, queue_max, record_at, with_appended};
    ghost use Rattle.delay_view.specs.Levels.{Level, has_come};
    ghost use Rattle.delay_view.specs.OfLog.{IsMessageOf, IsCopyOf, empty_log};
    ghost use Rattle.level_records.specs.Loads.{IsNextMessage};
    ghost use Rattle.level_records.specs.OfLog.{HasLevels, HasRoomFor};

    /// No messages, and none delivered.
    pub fn new(alloc: Global) -> Result<Levels, AllocError>
        ensures { IfOk result (HasLevels (empty_log no_base) 0) }
    {
        let waiting = empty_lines(alloc)?;
        Ok(Levels {
            view: DelayView::new(alloc)?,
            waiting,
        })
    }

    /// The table of the levels.
    pub fn table(&self) -> &DelayView
        ensures { result.now ≡ self.now.view }
    {
        &self.view
    }

    /// The lowest level that is due, and the number of its next message.
    pub fn due(&self, now: u64) -> Option<(u8, u64)>
        ensures { (log : Log) (d : ℕ) → HasLevels log d self.now
            → result ≡ option_map (λ next. (next.0, progress log next.0)) (due_delayed log d now) }
    {
        self.view.due(now)
    }

    /// The earliest time at which a level is due, in milliseconds: `due` answers a level from that time on, and none before it.
    /// `None` where it answers none at any time.
    pub fn next_due(&self) -> Option<u64>
        ensures { (log : Log) (d now : ℕ) → HasLevels log d self.now → has_come now result ≡ is_some (due_delayed log d now) }
    {
        self.view.next_due()
    }

    /// The next message of a level.
    pub fn next(&self, level: u8) -> Option<&Whole>
        requires low { 1 ≤ level }
        requires high { level ≤ 18 }
        ensures { (log : Log) (d : ℕ) (r : Entry) → HasLevels log d self.now → next_delayed log d level ≡ Some r
            → option_map (λ whole. whole.now) result ≡ Some r }
    {
        self.waiting[level as usize - 1].first()
    }

    /// Makes room for a message more of a level. Nothing else changes, at `Err` either.
    pub fn reserve(&mut self, alloc: Global, level: u8) -> Result<(), AllocError>
        requires low { 1 ≤ level }
        requires high { level ≤ 18 }
        ensures room { OnOk result (HasRoomFor self.new (level - 1)) }
        ensures same { (log : Log) (d : ℕ) → HasLevels log d self.old → HasLevels log d self.new }
    {
        self.view.reserve(alloc, level)?;
        make_room(&mut self.waiting, level as usize - 1)
    }

    /// Adds the message with this number in its level, for which there is room; takes no memory.
    pub fn add(&mut self, level: u8, number: u64, store: u64, whole: Whole)
        requires low { 1 ≤ level }
        requires high { level ≤ 18 }
        requires room { HasRoomFor self.old (level - 1) }
        requires store { store < 2 ^ 62 }
        ensures { (log : Log) (d : ℕ) → HasLevels log d self.old → d ≤ count_of log → IsMessageOf level whole
            → number ≡ queue_max log level_topic (level - 1) → store ≡ whole.store
            → HasLevels (with_appended log (whole ∷ [])) d self.new }
    {
        self.view.add(level, store + level_delay(level));
        if number >= self.view.progress(level) {
            put(&mut self.waiting, level as usize - 1, whole);
        }
    }

    /// Consumers see the next message of a level that they don't see yet; takes no memory.
    pub fn see(&mut self, level: u8)
        requires low { 1 ≤ level }
        requires high { level ≤ 18 }
        requires some { (l : Level) → slice_get self.old.view (level - 1) ≡ Some l → l.seen < length l.times }
        ensures { (log : Log) (d : ℕ) (r : Entry) → HasLevels log d self.old → record_at log d ≡ Some r → IsMessageOf level r
            → HasLevels log (d + 1) self.new }
    {
        self.view.see(level);
    }

    /// The next message of a level was delivered, and is let go; takes no memory.
    pub fn delivered(&mut self, level: u8)
        requires low { 1 ≤ level }
        requires high { level ≤ 18 }
        requires few { (l : Level) → slice_get self.old.view (level - 1) ≡ Some l → l.copied < 2 ^ 62 }
        ensures { (log : Log) (d : ℕ) (r : Entry) → HasLevels log d self.old → d ≤ count_of log → IsCopyOf level r
            → HasLevels (with_appended log (r ∷ [])) d self.new }
    {
        // A message that was removed from the log isn't kept.
        let is_kept = self.view.min(level) <= self.view.progress(level);
        self.view.copied(level);
        if is_kept {
            let_go(&mut self.waiting, level as usize - 1);
        }
    }

    // ---- loading

    // Loads a delayed message. No log has one of a level past the last.
    fn load_message(&mut self, alloc: Global, view: &View<'_>) -> Result<(), AllocError>
        ensures { (log : Log) → HasLevels log 0 self.old → IsNextMessage log view.now
            → OnOk result (HasLevels (with_appended log (view.now ∷ [])) 0 self.new) }
    {
        if view.queue() >= u32::from(LEVELS) {
            return Ok(());
        }
        let level = view.queue() as u8 + 1;
        self.reserve(alloc, level)?;
        let whole = Whole::of_view(alloc, view)?;
        self.add(level, view.queue_offset(), view.store(), whole);
        Ok(())
    }

    // Loads the delivery of a message of this level.
    fn load_delivery(&mut self, level: u8) -> Result<(), AllocError>
        requires low { 1 ≤ level }
        requires high { level ≤ 18 }
        ensures { (log : Log) (r : Entry) → HasLevels log 0 self.old → IsCopyOf level r
            → OnOk result (HasLevels (with_appended log (r ∷ [])) 0 self.new) }
    {
        if self.view.progress(level) >= DELIVERIES_MAX {
            return Err(AllocError);
        }
        self.delivered(level);
        Ok(())
    }

    /// Loads the next record of a log of which none is dispatched yet. A delayed message is kept whole until its delivery is
    /// loaded; other records change nothing. At `Err` what is loaded serves for nothing.
    pub fn load(&mut self, alloc: Global, view: &View<'_>) -> Result<(), AllocError>
        ensures { (segment : ℕ) (log : Log) → HasLevels log 0 self.old → IsLawful segment (with_appended log (view.now ∷ []))
            → OnOk result (HasLevels (with_appended log (view.now ∷ [])) 0 self.new) }
    {
        if view.topic() == "SCHEDULE_TOPIC_XXXX" {
            return self.load_message(alloc, view);
        }
        match delivered_level(view) {
            Some(level) => self.load_delivery(level),
            None => Ok(()),
        }
    }
}
