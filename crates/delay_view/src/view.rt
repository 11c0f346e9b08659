//! The table of the delay levels. Which level is due is found in eighteen steps, however many messages wait.

ghost use Rattle.std.specs.Prelude.{◌≡◌, ◌<◌, ◌≤◌, ◌+◌, ◌-◌, ◌^◌, ◌∷◌, [], ℕ, length, slice_get, slice_set, Some, OnOk, IfOk, option_map, is_some};
ghost use Rattle.record_codec.specs.Entry.{Entry};
ghost use Rattle.log_model.specs.Admissible.{level_topic};
ghost use Rattle.log_model.specs.Bases.{Base, no_base};
ghost use Rattle.log_model.specs.Numbered.{Log, above, below, count_of, queue_min, record_at, records_of, with_appended};
ghost use Rattle.log_model.specs.Delays.{progress as progress_of, due_delayed};
ghost use Rattle.delay_view.specs.Levels.{Level, empty_level, started, with_room, with_time};
ghost use Rattle.delay_view.specs.Levels.{with_next_seen, with_next_copied, cut_at, due_of, has_come};
ghost use Rattle.delay_view.specs.OfLog.{AreLevelsOf, CutsLevels, IsLevelOf, IsMessageOf, IsCopyOf, delivery_time, empty_log};

use crate::level::LevelTable;
use crate::levels::{
    add_time, copy_one, cut_one, idle_after, lowest_from, make_room, see_one, soonest_from,
    start_one,
};
use std::alloc::{AllocError, Global};
use std::marker::Model;

/// How many levels there are: they have the numbers 1 to 18.
pub const LEVELS: u8 = 18;

/// The delay levels. Contracts see the list of them, the level 1 first.
#[derive(Drop)]
pub struct DelayView {
    levels: Vec<LevelTable>,
    // The first so many levels have no message that was dispatched and is to be delivered.
    idle: usize,
}

impl Model for DelayView {
    ghost use Rattle.std.specs.Prelude.{List};
    ghost use Rattle.delay_view.specs.Levels.{Level};

    ghost Value = { List Level };

    ghost use Rattle.delay_view.specs.Rooms.{AreAll};

    ghost view = { λ v. v.levels.items };

    ghost invariant = { λ v. AreAll v.levels.items v.idle };
}

impl DelayView {
    /// No messages, and none delivered.
    pub fn new(alloc: Global) -> Result<DelayView, AllocError>
        ensures levels { IfOk result (λ view. (k : ℕ) (l : Level) → slice_get view k ≡ Some l → l ≡ empty_level l.spare) }
        ensures records { IfOk result (λ view. AreLevelsOf (empty_log no_base) 0 view) }
    {
        DelayView::make(alloc)
    }

    // Eighteen levels that have no messages.
    fn make(alloc: Global) -> Result<DelayView, AllocError>
        ensures { IfOk result (λ view. (length view ≡ 18)
            × ((k : ℕ) (l : Level) → slice_get view k ≡ Some l → l ≡ empty_level l.spare)) }
    {
        let mut levels = Vec::new(alloc);
        for _ in 0..LEVELS {
            levels.push(LevelTable::new(alloc))?;
        }
        Ok(DelayView { levels, idle: 0 })
    }

    /// The next message of a level has the offset `items`, and `copies` were delivered: of a log of which records were removed.
    pub fn start(&mut self, level: u8, items: u64, copies: u64)
        requires low { 1 ≤ level }
        requires high { level ≤ 18 }
        requires none { (l : Level) → slice_get self.old (level - 1) ≡ Some l → length l.times ≡ 0 }
        requires items { items ≤ 2 ^ 62 }
        requires copies { copies ≤ 2 ^ 62 }
        ensures level { (l : Level) → slice_get self.old (level - 1) ≡ Some l
            → (s : ℕ) × (self.new ≡ slice_set self.old (level - 1) (started l items copies s)) }
        ensures records { (base : Base) (d : ℕ) (l : Level) → items ≡ base.queues level_topic (level - 1) → copies ≡ base.levels level
            → slice_get self.new (level - 1) ≡ Some l → IsLevelOf (empty_log base) d level l }
    {
        self.idle = self.idle.min(level as usize - 1);
        start_one(&mut self.levels, level as usize - 1, items, copies);
    }

    /// Makes room for a message more of a level. At `Err` there may be more room, and nothing else has changed.
    pub fn reserve(&mut self, alloc: Global, level: u8) -> Result<(), AllocError>
        requires low { 1 ≤ level }
        requires high { level ≤ 18 }
        ensures room { OnOk result ((l : Level) → slice_get self.new (level - 1) ≡ Some l → 0 < l.spare) }
        ensures records { (log : Log) (d : ℕ) → AreLevelsOf log d self.old → AreLevelsOf log d self.new }
        ensures level { (l : Level) → slice_get self.old (level - 1) ≡ Some l
            → (s : ℕ) × (l.spare ≤ s) × (OnOk result (0 < s)) × (self.new ≡ slice_set self.old (level - 1) (with_room l s)) }
    {
        make_room(&mut self.levels, alloc, level as usize - 1)
    }

    /// Adds a message of a level that has room for it, to be delivered at `time`, in milliseconds; takes no memory. It is not
    /// due before it is seen.
    pub fn add(&mut self, level: u8, time: u64)
        requires low { 1 ≤ level }
        requires high { level ≤ 18 }
        requires room { (l : Level) → slice_get self.old (level - 1) ≡ Some l → 0 < l.spare }
        ensures records { (log : Log) (d : ℕ) (r : Entry) → AreLevelsOf log d self.old → d ≤ count_of log → IsMessageOf level r
            → time ≡ delivery_time level r → AreLevelsOf (with_appended log (r ∷ [])) d self.new }
        ensures level { (l : Level) → slice_get self.old (level - 1) ≡ Some l
            → (s : ℕ) × (l.spare ≤ s + 1) × (self.new ≡ slice_set self.old (level - 1) (with_time l time s)) }
        ensures unseen { (l : Level) → slice_get self.new (level - 1) ≡ Some l → l.seen < length l.times }
    {
        add_time(&mut self.levels, level as usize - 1, time);
    }

    /// The first message of a level that isn't seen is dispatched; takes no memory.
    pub fn see(&mut self, level: u8)
        requires low { 1 ≤ level }
        requires high { level ≤ 18 }
        requires some { (l : Level) → slice_get self.old (level - 1) ≡ Some l → l.seen < length l.times }
        ensures records { (log : Log) (d : ℕ) (r : Entry) → AreLevelsOf log d self.old → record_at log d ≡ Some r → IsMessageOf level r
            → AreLevelsOf log (d + 1) self.new }
        ensures level { (l : Level) → slice_get self.old (level - 1) ≡ Some l
            → self.new ≡ slice_set self.old (level - 1) (with_next_seen l) }
    {
        self.idle = self.idle.min(level as usize - 1);
        see_one(&mut self.levels, level as usize - 1);
    }

    /// A message of a level was delivered: its copy is appended; takes no memory.
    pub fn copied(&mut self, level: u8)
        requires low { 1 ≤ level }
        requires high { level ≤ 18 }
        requires few { (l : Level) → slice_get self.old (level - 1) ≡ Some l → l.copied < 2 ^ 62 }
        ensures records { (log : Log) (d : ℕ) (r : Entry) → AreLevelsOf log d self.old → d ≤ count_of log → IsCopyOf level r
            → AreLevelsOf (with_appended log (r ∷ [])) d self.new }
        ensures level { (l : Level) → slice_get self.old (level - 1) ≡ Some l
            → self.new ≡ slice_set self.old (level - 1) (with_next_copied l) }
    {
        copy_one(&mut self.levels, level as usize - 1);
        self.idle = idle_after(&self.levels, self.idle, level as usize - 1);
    }

    /// Removes the messages of a level below an offset, which are dispatched; takes no memory.
    pub fn cut(&mut self, level: u8, min: u64)
        requires first { 1 ≤ level }
        requires last { level ≤ 18 }
        requires low { (l : Level) → slice_get self.old (level - 1) ≡ Some l → l.low ≤ min }
        requires high { (l : Level) → slice_get self.old (level - 1) ≡ Some l → min ≤ l.low + l.seen }
        ensures level { (l : Level) → slice_get self.old (level - 1) ≡ Some l
            → self.new ≡ slice_set self.old (level - 1) (cut_at l min) }
        ensures records { (log : Log) (d n : ℕ) (later : Base) (l m : Level) → slice_get self.old (level - 1) ≡ Some l
            → IsLevelOf log d level l → CutsLevels log n later → later.records ≤ d → min ≡ later.queues level_topic (level - 1)
            → slice_get self.new (level - 1) ≡ Some m → IsLevelOf (above log later) d level m }
    {
        self.idle = self.idle.min(level as usize - 1);
        cut_one(&mut self.levels, level as usize - 1, min);
    }

    /// The offset of a level's first message: how many were removed.
    pub fn min(&self, level: u8) -> u64
        requires low { 1 ≤ level }
        requires high { level ≤ 18 }
        ensures level { (l : Level) → slice_get self.now (level - 1) ≡ Some l → result ≡ l.low }
        ensures records { (log : Log) (d : ℕ) → AreLevelsOf log d self.now → result ≡ queue_min log level_topic (level - 1) }
    {
        self.levels[level as usize - 1].min()
    }

    /// The offset after a level's last message that is dispatched.
    pub fn max(&self, level: u8) -> u64
        requires low { 1 ≤ level }
        requires high { level ≤ 18 }
        ensures level { (l : Level) → slice_get self.now (level - 1) ≡ Some l → result ≡ l.low + l.seen }
        ensures records { (log : Log) (d : ℕ) → AreLevelsOf log d self.now → result
            ≡ queue_min log level_topic (level - 1) + length (records_of (below log d) level_topic (level - 1)) }
    {
        self.levels[level as usize - 1].max()
    }

    /// How many messages of a level were delivered.
    pub fn progress(&self, level: u8) -> u64
        requires low { 1 ≤ level }
        requires high { level ≤ 18 }
        ensures all { length self.now ≡ 18 }
        ensures level { (l : Level) → slice_get self.now (level - 1) ≡ Some l → result ≡ l.copied }
        ensures records { (log : Log) (d : ℕ) → AreLevelsOf log d self.now → result ≡ progress_of log level }
    {
        self.levels[level as usize - 1].progress()
    }

    // The lowest level that is due.
    fn lowest_due(&self, now: u64) -> Option<(u8, u64)>
        ensures { result ≡ due_of now self.now }
    {
        lowest_from(&self.levels, self.idle, now)
    }

    /// The lowest level whose next message is seen and is to be delivered at `now` or before, in milliseconds, and the queue
    /// offset of that message in the level.
    pub fn due(&self, now: u64) -> Option<(u8, u64)>
        ensures levels { result ≡ due_of now self.now }
        ensures records { (log : Log) (d : ℕ) → AreLevelsOf log d self.now
            → result ≡ option_map (λ next. (next.0, progress_of log next.0)) (due_delayed log d now) }
    {
        self.lowest_due(now)
    }

    // The earliest time at which a level is due. Those that are passed over have nothing to deliver.
    fn soonest_due(&self) -> Option<u64>
        ensures { (now : ℕ) → has_come now result ≡ is_some (due_of now self.now) }
    {
        soonest_from(&self.levels, self.idle)
    }

    /// The earliest time at which a level is due, in milliseconds: `due` answers a level from that time on, and none before it.
    /// `None` where it answers none at any time.
    pub fn next_due(&self) -> Option<u64>
        ensures levels { (now : ℕ) → has_come now result ≡ is_some (due_of now self.now) }
        ensures records { (log : Log) (d now : ℕ) → AreLevelsOf log d self.now → has_come now result ≡ is_some (due_delayed log d now) }
    {
        self.soonest_due()
    }
}
