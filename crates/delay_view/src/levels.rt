//! One level among all, and the lowest that is due.

ghost use Rattle.std.specs.Prelude.{◌≡◌, ◌≢◌, ◌<◌, ◌≤◌, ◌+◌, ◌^◌, ℕ, ◌||◌, drop, length, slice_get, slice_set, Some, true, OnOk, vec_len};
ghost use Rattle.delay_view.specs.Levels.{Level, started, with_room, with_time, with_next_seen, with_next_copied, cut_at, due_from, has_come, is_any_due};
ghost use Rattle.delay_view.specs.Rooms.{is_idle};

use crate::level::LevelTable;
use std::alloc::{AllocError, Global};

// Makes room for a message more in this level.
pub(crate) fn make_room(
    levels: &mut Vec<LevelTable>,
    alloc: Global,
    k: usize,
) -> Result<(), AllocError>
    requires { k < vec_len levels.old }
    ensures all { length levels.new.items ≡ length levels.old.items }
    ensures level { (l : Level) → slice_get levels.old.items k ≡ Some l
        → (s : _) × (l.spare ≤ s) × (OnOk result (0 < s)) × (levels.new.items ≡ slice_set levels.old.items k (with_room l s)) }
{
    let level = &mut levels[k];
    level.reserve(alloc)?;
    Ok(())
}

// The level begins at these numbers.
pub(crate) fn start_one(levels: &mut Vec<LevelTable>, k: usize, items: u64, copies: u64)
    requires there { k < vec_len levels.old }
    requires none { (l : Level) → slice_get levels.old.items k ≡ Some l → length l.times ≡ 0 }
    requires items { items ≤ 2 ^ 62 }
    requires copies { copies ≤ 2 ^ 62 }
    ensures all { length levels.new.items ≡ length levels.old.items }
    ensures level { (l : Level) → slice_get levels.old.items k ≡ Some l
        → (s : _) × (levels.new.items ≡ slice_set levels.old.items k (started l items copies s)) }
{
    let level = &mut levels[k];
    level.start(items, copies);
}

// Adds a delivery time to this level, which has room for it.
pub(crate) fn add_time(levels: &mut Vec<LevelTable>, k: usize, time: u64)
    requires there { k < vec_len levels.old }
    requires room { (l : Level) → slice_get levels.old.items k ≡ Some l → 0 < l.spare }
    ensures all { length levels.new.items ≡ length levels.old.items }
    ensures level { (l : Level) → slice_get levels.old.items k ≡ Some l
        → (s : _) × (l.spare ≤ s + 1) × (levels.new.items ≡ slice_set levels.old.items k (with_time l time s)) }
    ensures unseen { (l : Level) → slice_get levels.new.items k ≡ Some l → l.seen < length l.times }
{
    let level = &mut levels[k];
    level.add(time);
}

// One message more of this level is seen.
pub(crate) fn see_one(levels: &mut Vec<LevelTable>, k: usize)
    requires there { k < vec_len levels.old }
    requires some { (l : Level) → slice_get levels.old.items k ≡ Some l → l.seen < length l.times }
    ensures all { length levels.new.items ≡ length levels.old.items }
    ensures level { (l : Level) → slice_get levels.old.items k ≡ Some l
        → levels.new.items ≡ slice_set levels.old.items k (with_next_seen l) }
{
    let level = &mut levels[k];
    level.see();
}

// One message more of this level was delivered.
pub(crate) fn copy_one(levels: &mut Vec<LevelTable>, k: usize)
    requires there { k < vec_len levels.old }
    requires few { (l : Level) → slice_get levels.old.items k ≡ Some l → l.copied < 2 ^ 62 }
    ensures all { length levels.new.items ≡ length levels.old.items }
    ensures level { (l : Level) → slice_get levels.old.items k ≡ Some l
        → levels.new.items ≡ slice_set levels.old.items k (with_next_copied l) }
{
    let level = &mut levels[k];
    level.copy();
}

// Removes the messages of this level below an offset.
pub(crate) fn cut_one(levels: &mut Vec<LevelTable>, k: usize, min: u64)
    requires there { k < vec_len levels.old }
    requires low { (l : Level) → slice_get levels.old.items k ≡ Some l → l.low ≤ min }
    requires high { (l : Level) → slice_get levels.old.items k ≡ Some l → min ≤ l.low + l.seen }
    ensures all { length levels.new.items ≡ length levels.old.items }
    ensures level { (l : Level) → slice_get levels.old.items k ≡ Some l
        → levels.new.items ≡ slice_set levels.old.items k (cut_at l min) }
{
    let level = &mut levels[k];
    level.cut(min);
}

// A message of level `k` was delivered, and none of the first `idle` levels beside it has one to deliver: how many of the first
// ones have none now.
pub(crate) fn idle_after(levels: &Vec<LevelTable>, idle: usize, k: usize) -> usize
    requires there { k < vec_len levels.now }
    requires few { idle ≤ vec_len levels.now }
    requires others { (j : ℕ) (l : Level) → j < idle → j ≢ k → slice_get levels.now.items j ≡ Some l → is_idle l ≡ true }
    ensures few { result ≤ vec_len levels.now }
    ensures none { (j : ℕ) (l : Level) → j < result → slice_get levels.now.items j ≡ Some l → is_idle l ≡ true }
{
    if !levels[k].is_idle() {
        return idle.min(k);
    }
    if idle == k { k + 1 } else { idle }
}

// The lowest level that is due but for the first `idle` ones, with the offset of its next message.
pub(crate) fn lowest_from(levels: &Vec<LevelTable>, idle: usize, now: u64) -> Option<(u8, u64)>
    requires idle { idle ≤ vec_len levels.now }
    requires few { vec_len levels.now ≤ 18 }
    ensures { result ≡ due_from now (1 + idle) (drop idle levels.now.items) }
{
    let mut number = idle as u8 + 1;
    for level in &levels[idle..] {
        if level.is_due(now) {
            return Some((number, level.progress()));
        }
        number += 1;
    }
    None
}

// The earlier of two times, or the only one.
fn sooner(time: Option<u64>, other: Option<u64>) -> Option<u64>
    ensures { (now : ℕ) → has_come now result ≡ (has_come now time || has_come now other) }
{
    match (time, other) {
        (Some(time), Some(other)) => Some(time.min(other)),
        (None, _) => other,
        (_, None) => time,
    }
}

// The earliest time at which a level but for the first `idle` ones is due, if one is at any time.
pub(crate) fn soonest_from(levels: &Vec<LevelTable>, idle: usize) -> Option<u64>
    requires { idle ≤ vec_len levels.now }
    ensures { (now : ℕ) → has_come now result ≡ is_any_due now (drop idle levels.now.items) }
{
    let mut time = None;
    for level in &levels[idle..] {
        time = sooner(time, level.next_time());
    }
    time
}
