//! Dispatch: consumers see records that are on the disk, in the order of the log.

ghost use Rattle.std.specs.Prelude.{◌≡◌, ◌≤◌, ◌<◌, ◌+◌, ◌-◌, ℕ, length};
ghost use Rattle.record_codec.specs.Entry.{Entry};
ghost use Rattle.log_model.specs.Numbered.{Log, IsLawful};
ghost use Rattle.pending_log.specs.Rows.{AreRowsOf};
ghost use Rattle.broker_model.specs.Events as model;
ghost use Rattle.core_log.specs.Carries.{Carries, RepresentsSome};
ghost use Rattle.core_log.specs.Shows.{shown_of};
ghost use Rattle.level_records.specs.OfLog.{HasLevels};
ghost use Rattle.core_log.specs.Represents.{AreTabled, AreTablesOf};
ghost use Rattle.core_log.specs.Sees.{IsNextSeen};

use crate::parts::Parts;
use level_records::Levels;
use pending_log::Rows;
use queue_view::QueueView;

// Consumers see the records with these numbers.
pub(crate) fn see(queues: &mut QueueView, rows: &Rows, from: u64, to: u64)
    requires some { (log : Log) × AreRowsOf log rows.now × AreTabled queues.old log.records rows.now.items
        × AreTablesOf log.base log.records (from - log.base.records) queues.old }
    requires kept { rows.now.first ≤ from }
    requires ordered { from ≤ to }
    requires within { to ≤ rows.now.first + length rows.now.items }
    ensures { (log : Log) → AreRowsOf log rows.now → AreTabled queues.old log.records rows.now.items
        → AreTablesOf log.base log.records (from - log.base.records) queues.old
        → AreTabled queues.new log.records rows.now.items × AreTablesOf log.base log.records (to - log.base.records) queues.new }
{
    for number in from..to {
        queues.see(rows.at(number).table);
    }
}

// A record of the queue with this table is seen: where it is a delayed message, its level has one more.
fn see_record(queues: &QueueView, levels: &mut Levels, table: u32)
    requires there { table < length queues.now }
    requires some { (segment d : ℕ) × (log : Log) × (r : Entry) × IsNextSeen segment log d r queues.now table levels.old }
    ensures { (segment d : ℕ) (log : Log) (r : Entry) → IsNextSeen segment log d r queues.now table levels.old
        → HasLevels log (d + 1) levels.new }
{
    if queues.topic(table) == "SCHEDULE_TOPIC_XXXX" {
        levels.see(queues.queue(table) as u8 + 1);
    }
}

// The delayed messages among the records with these numbers are seen.
pub(crate) fn see_levels(queues: &QueueView, levels: &mut Levels, rows: &Rows, from: u64, to: u64)
    requires some { (segment : ℕ) × (log : Log) × IsLawful segment log × AreRowsOf log rows.now
        × AreTabled queues.now log.records rows.now.items × HasLevels log from levels.old }
    requires kept { rows.now.first ≤ from }
    requires ordered { from ≤ to }
    requires within { to ≤ rows.now.first + length rows.now.items }
    ensures { (segment : ℕ) (log : Log) → IsLawful segment log → AreRowsOf log rows.now → AreTabled queues.now log.records rows.now.items
        → HasLevels log from levels.old → HasLevels log to levels.new }
{
    for number in from..to {
        see_record(queues, levels, rows.at(number).table);
    }
}

impl Parts {
    /// Consumers see at most so many records more, of those that are on the disk; how many they see then. Takes no memory.
    pub fn dispatch(&mut self, most: u32) -> u64
        requires some { RepresentsSome self.old }
        ensures carries { Carries self.old (model.Dispatch most) (λ answer. answer ≡ model.Moved result) self.new }
        ensures shown { shown_of self.new ≡ shown_of self.old }
    {
        let from = self.dispatched;
        let flushed = self.pending.flushed_count();
        let to = flushed.min(from.saturating_add(u64::from(most)));
        see(&mut self.queues, &self.rows, from, to);
        see_levels(&self.queues, &mut self.levels, &self.rows, from, to);
        self.dispatched = to;
        to
    }
}
