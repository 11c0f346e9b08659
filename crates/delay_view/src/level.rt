//! The table of one delay level: the delivery times of its messages, how many of these are seen, and its progress. A time is
//! added when its message is appended, and seen when the message is dispatched.

ghost use Rattle.std.specs.Prelude.{◌≡◌, ◌<◌, ◌≤◌, ◌+◌, ◌^◌, length, OnOk};
ghost use Rattle.delay_view.specs.Levels.{empty_level, started, with_room, with_time, with_next_seen};
ghost use Rattle.delay_view.specs.Levels.{with_next_copied, cut_at, next_time, has_come};
ghost use Rattle.delay_view.specs.Rooms.{is_idle};

use chunks::Chunks;
use std::alloc::{AllocError, Global};
use std::marker::Model;

// Past this offset no room is made: no log has as many records.
const OFFSET_MAX: u64 = 1 << 62;

/// A delay level.
#[derive(Drop)]
pub struct LevelTable {
    // How many messages of the level were removed: the offset of the first one.
    low: u64,
    // In milliseconds.
    times: Chunks<u64>,
    // How many of the messages were dispatched.
    seen: usize,
    // How many messages of the level were delivered, the removed ones among them.
    copied: u64,
}

impl Model for LevelTable {
    ghost use Rattle.delay_view.specs.Levels.{Level};

    ghost Value = { Level };

    ghost use Rattle.delay_view.specs.Rooms.{level_of, IsLevel};

    ghost view = { λ l. level_of l.low l.times l.seen l.copied };

    ghost invariant = { λ l. IsLevel l.low l.times.items l.seen l.copied };
}

impl LevelTable {
    // No messages, and none delivered.
    pub(crate) fn new(alloc: Global) -> LevelTable
        ensures { result ≡ empty_level result.spare }
    {
        LevelTable {
            low: 0,
            times: Chunks::new(alloc),
            seen: 0,
            copied: 0,
        }
    }

    // The next message has the offset `items`, and so many were delivered.
    pub(crate) fn start(&mut self, items: u64, copies: u64)
        requires none { length self.old.times ≡ 0 }
        requires items { items ≤ 2 ^ 62 }
        requires copies { copies ≤ 2 ^ 62 }
        ensures { self.new ≡ started self.old items copies self.new.spare }
    {
        self.low = items;
        self.copied = copies;
        self.seen = 0;
    }

    // Makes room for a message more.
    pub(crate) fn reserve(&mut self, alloc: Global) -> Result<(), AllocError>
        ensures same { self.new ≡ with_room self.old self.new.spare }
        ensures spare { OnOk result (0 < self.new.spare) }
        ensures kept { self.old.spare ≤ self.new.spare }
    {
        if self.low + self.times.len() as u64 >= OFFSET_MAX {
            return Err(AllocError);
        }
        self.times.reserve(alloc, 1)
    }

    // Adds a message's delivery time, for which there is room. It is not seen yet.
    pub(crate) fn add(&mut self, time: u64)
        requires { 0 < self.old.spare }
        ensures added { self.new ≡ with_time self.old time self.new.spare }
        ensures unseen { self.new.seen < length self.new.times }
        ensures spare { self.old.spare ≤ self.new.spare + 1 }
    {
        self.times.push(time);
    }

    // One message more is seen.
    pub(crate) fn see(&mut self)
        requires { self.old.seen < length self.old.times }
        ensures { self.new ≡ with_next_seen self.old }
    {
        self.seen += 1;
    }

    // One message more was delivered.
    pub(crate) fn copy(&mut self)
        requires { self.old.copied < 2 ^ 62 }
        ensures { self.new ≡ with_next_copied self.old }
    {
        self.copied += 1;
    }

    // Removes the messages below this offset, which are seen.
    pub(crate) fn cut(&mut self, min: u64)
        requires low { self.old.low ≤ min }
        requires high { min ≤ self.old.low + self.old.seen }
        ensures { self.new ≡ cut_at self.old min }
    {
        let count = (min - self.low) as usize;
        self.times.cut(count);
        self.seen -= count;
        self.low = min;
    }

    // The offset of the first message.
    pub(crate) fn min(&self) -> u64
        ensures { result ≡ self.now.low }
    {
        self.low
    }

    // The offset after the last message that is seen.
    pub(crate) fn max(&self) -> u64
        ensures { result ≡ self.now.low + self.now.seen }
    {
        self.low + self.seen as u64
    }

    // How many messages were delivered.
    pub(crate) fn progress(&self) -> u64
        ensures { result ≡ self.now.copied }
    {
        self.copied
    }

    // Whether the next message isn't seen or was removed.
    pub(crate) fn is_idle(&self) -> bool
        ensures { result ≡ is_idle self.now }
    {
        self.copied < self.low || self.low + self.seen as u64 <= self.copied
    }

    // When the next message is to be delivered, `None` where it isn't seen or was removed.
    pub(crate) fn next_time(&self) -> Option<u64>
        ensures { result ≡ next_time self.now }
    {
        if self.copied < self.low {
            return None;
        }
        let index = self.copied - self.low;
        if index < self.seen as u64 {
            Some(self.times.at(index as usize))
        } else {
            None
        }
    }

    // Whether the next message is seen and its time has come.
    pub(crate) fn is_due(&self, now: u64) -> bool
        ensures { result ≡ has_come now (next_time self.now) }
    {
        match self.next_time() {
            Some(time) => time <= now,
            None => false,
        }
    }
}
