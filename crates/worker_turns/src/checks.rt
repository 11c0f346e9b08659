//! A check turn: half messages that are due are checked, and their groups are to be asked about them. An ask is handed out once the
//! record that it is for is on the disk.

ghost use Rattle.std.specs.Prelude.{◌≡◌, ◌<◌, ◌≤◌, ◌+◌, ◌^◌, ◌++◌, [], Some, OnOk, OnErr, vec_len, vec_capacity};
ghost use Rattle.broker_events.specs.Makes.{Makes};
ghost use Rattle.broker_events.specs.declared.event.Event.TheVariants.{Look};
ghost use Rattle.broker_events.specs.declared.said.Said.TheVariants as said;
ghost use Rattle.worker_turns.specs.Acts.{IsFree};
ghost use Rattle.worker_turns.specs.Checks.{Checks, HasChecked, HasLooked, held_by, ripe_by, waiting_by};

use broker_events::{Awaited, Calls, Checked, Event, Said};
use reply_fields::Ask;
use std::alloc::{AllocError, Global};
use std::mem;

// Makes one check, if an origin is due. Answers what it did.
fn check<C: Calls>(alloc: Global, calls: &mut C, now: u64) -> Result<Option<Checked>, AllocError>
    requires now { now < 2 ^ 62 }
    ensures made { Checks C.makes now calls.old result calls.new }
    ensures free { IsFree (C.has_key calls.old) (C.shown calls.old) → IsFree (C.has_key calls.new) (C.shown calls.new) }
{
    let event = Event::Check { now };
    let said = calls.call(alloc, &event);
    drop(event);
    match said {
        Ok(Said::Checked(checked)) => Ok(checked),
        Ok(said) => {
            drop(said);
            Ok(None)
        }
        Err(fault) => Err(fault),
    }
}

// Holds the ask of a check, if it has one, until its record is on the disk.
fn hold(held: &mut Vec<(u64, Ask)>, checked: Checked)
    requires room { vec_len held.old < vec_capacity held.old }
    ensures { held.new.items ≡ held.old.items ++ held_by checked }
{
    let Checked {
        origin: _,
        number,
        ask,
    } = checked;
    match ask {
        Some(ask) => held.push_reserved((number, ask)),
        None => {}
    }
}

/// Checks the half messages that are due at this reading of the clock, in milliseconds: until none is, the pending bytes are full,
/// or the log is at its end. Answers how many checks were made. Who is to be asked is held, with the number of the record that has
/// to be on the disk first. At `Err`, which is want of memory, what was checked stands, and its asks are held.
pub fn check_turn<C: Calls>(
    alloc: Global,
    calls: &mut C,
    now: u64,
    held: &mut Vec<(u64, Ask)>,
) -> Result<u32, AllocError>
    requires now { now < 2 ^ 62 }

    // The steps that it made: no other than these checks. Each ask of theirs is held.
    ensures made { HasChecked C.makes now calls.old held.old.items result calls.new held.new.items }

    // Who has the key with no batch out still does.
    ensures free { IsFree (C.has_key calls.old) (C.shown calls.old) → IsFree (C.has_key calls.new) (C.shown calls.new) }
{
    for count in 0..u32::MAX {
        // After the event nothing may fail: the record that it appended would never be asked about.
        match held.reserve(1) {
            Ok(()) => {}
            Err(fault) => return Err(fault),
        }
        match check(alloc, calls, now) {
            Ok(Some(checked)) => hold(held, checked),
            Ok(None) => return Ok(count),
            Err(fault) => return Err(fault),
        }
    }
    Ok(u32::MAX)
}

// One look at the record with this number. That a turn which held it failed is told of every turn.
fn look_at<C: Calls>(alloc: Global, calls: &mut C, number: u64) -> Awaited
    ensures made { C.makes calls.old (Look number 0) (Some (said.Awaited result)) calls.new }
    ensures free { IsFree (C.has_key calls.old) (C.shown calls.old) → IsFree (C.has_key calls.new) (C.shown calls.new) }
{
    let event = Event::Look { number, turn: 0 };
    let said = calls.call(alloc, &event);
    drop(event);
    match said {
        Ok(Said::Awaited(what)) => what,
        Ok(_) | Err(_) => unreachable!(),
    }
}

// Puts an ask where it belongs by what became of its record: it is handed out, held further, or dropped.
fn sort(number: u64, ask: Ask, what: Awaited, held: &mut Vec<(u64, Ask)>, out: &mut Vec<Ask>)
    requires held_room { vec_len held.old < vec_capacity held.old }
    requires out_room { vec_len out.old < vec_capacity out.old }
    ensures held { held.new.items ≡ held.old.items ++ waiting_by what (number, ask) }
    ensures out { out.new.items ≡ out.old.items ++ ripe_by what ask }
    ensures held_room { (vec_len held.new ≤ vec_len held.old + 1) × (vec_capacity held.new ≡ vec_capacity held.old) }
    ensures out_room { (vec_len out.new ≤ vec_len out.old + 1) × (vec_capacity out.new ≡ vec_capacity out.old) }
{
    match what {
        Awaited::Flushed => out.push_reserved(ask),
        Awaited::Failed { count: _ } => drop(ask),
        Awaited::NotYet => held.push_reserved((number, ask)),
    }
}

// Looks once for each of these asks. There is room for all of them.
fn look_at_all<C: Calls>(
    alloc: Global,
    calls: &mut C,
    asked: Vec<(u64, Ask)>,
    held: &mut Vec<(u64, Ask)>,
    out: &mut Vec<Ask>,
)
    requires held_room { vec_len held.old + vec_len asked ≤ vec_capacity held.old }
    requires out_room { vec_len out.old + vec_len asked ≤ vec_capacity out.old }
    ensures looked { HasLooked C.makes calls.old asked.items held.old.items out.old.items calls.new held.new.items out.new.items }
    ensures free { IsFree (C.has_key calls.old) (C.shown calls.old) → IsFree (C.has_key calls.new) (C.shown calls.new) }
{
    let mut asked = asked.into_iter();
    while let Some((number, ask)) = asked.next() {
        let what = look_at(alloc, calls, number);
        sort(number, ask, what, held, out);
    }
}

/// Looks once for each ask that is held. Those whose record is on the disk are handed out, in their order; those of a record that a
/// failed flush turn held are dropped; the others are held further. At `Err`, which is want of memory, no look was made.
pub fn ripe_asks<C: Calls>(
    alloc: Global,
    calls: &mut C,
    held: &mut Vec<(u64, Ask)>,
    out: &mut Vec<Ask>,
) -> Result<(), AllocError>
    // The steps that it made: one look for each, by which it was handed out, dropped or held.
    ensures looked { OnOk result (HasLooked C.makes calls.old held.old.items [] out.old.items calls.new held.new.items out.new.items) }
    ensures still { OnErr result ((calls.new ≡ calls.old) × (held.new.items ≡ held.old.items) × (out.new.items ≡ out.old.items)) }

    // Who has the key with no batch out still does.
    ensures free { IsFree (C.has_key calls.old) (C.shown calls.old) → IsFree (C.has_key calls.new) (C.shown calls.new) }
{
    out.reserve(held.len())?;
    let rest = Vec::with_capacity(alloc, held.len())?;
    let asked = mem::replace(held, rest);
    look_at_all(alloc, calls, asked, held, out);
    Ok(())
}
