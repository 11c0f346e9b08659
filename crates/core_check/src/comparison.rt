//! A core beside a log.

ghost use Rattle.std.specs.Prelude.{◌≡◌, ◌↔◌, ◌≤◌, ◌^◌, ◌++◌, ◌∷◌, [], ℕ, List, IfOk, OnOk, IsTrue, All};
ghost use Rattle.record_codec.specs.Entry.{Entry};
ghost use Rattle.log_model.specs.Numbered.{IsLawful, queue_min, count_of};
ghost use Rattle.log_model.specs.Queues.{said_by, entries_of, IsStored};
ghost use Rattle.log_replay.specs.Told.{log_of};
ghost use Rattle.broker_model.specs.State.{State};
ghost use Rattle.core_log.specs.Represents.{Represents};
ghost use Rattle.table_check.specs.Beside.{IsBeside, IsOfSame};
ghost use Rattle.core_check.specs.Equal.{HasAllOf};

use broker_core::Core;
use log_model::Base;
use record_codec::{Record, SEGMENT_MAX, encode, test};
use std::alloc::{AllocError, Global};
use table_check::{Comparing, Tables};

// Goes on by this record of a log. No broker writes one that isn't encoded.
fn add_record(alloc: Global, comparing: &mut Comparing<'_>, r: &Record) -> Result<(), AllocError>
    requires { IsStored r.now }
    ensures same { IsOfSame comparing.old comparing.new }
    ensures beside { (records : List Entry) → IsBeside records comparing.old
        → OnOk result (IsBeside (records ++ said_by r.now ∷ []) comparing.new) }
{
    let Ok(_size) = r.draft.check(SEGMENT_MAX) else {
        return Err(AllocError);
    };
    let mut bytes = Vec::new(alloc);
    encode(&r.draft, &r.place, &mut bytes)?;
    match test(&bytes) {
        Some(view) => comparing.add(alloc, &view),
        None => unreachable!(),
    }
}

// Goes on by these records of a log.
fn add_records(
    alloc: Global,
    comparing: &mut Comparing<'_>,
    log: &[Record],
) -> Result<(), AllocError>
    requires { All IsStored log.now }
    ensures same { IsOfSame comparing.old comparing.new }
    ensures beside { IsBeside [] comparing.old → OnOk result (IsBeside (entries_of log.now) comparing.new) }
{
    for record in log {
        add_record(alloc, comparing, record)?;
    }
    Ok(())
}

// Whether the core's tables have what this log says.
fn has_all(alloc: Global, core: &Core, log: &[Record], base: &Base) -> Result<bool, AllocError>
    requires stored { All IsStored log.now }
    requires counts { (topic : List ℕ) (queue : ℕ) → queue_min (log_of base.now log.now) topic queue ≤ 2 ^ 62 }
    ensures { (segment : ℕ) → IsLawful segment (log_of base.now log.now)
        → IfOk result (λ equal. IsTrue equal ↔ HasAllOf (log_of base.now log.now) core.now) }
{
    let tables = Tables {
        queues: core.queues(),
        keys: core.keys(),
        halves: core.halves().table(),
        levels: core.levels().table(),
    };
    let mut comparing = Comparing::new(alloc, tables, base)?;
    add_records(alloc, &mut comparing, log)?;
    if !comparing.end() {
        return Ok(false);
    }
    Ok(comparing.are_seen())
}

/// Whether the core's tables have what this log says from this base on: each queue's minimum and units, of which consumers see all,
/// each key, each half message with what became of it, and how far each level was delivered. `Err` comes for want of memory, for 2^32
/// tables of queues, and for a record that no broker writes.
pub fn compare(alloc: Global, core: &Core, log: &[Record], base: &Base) -> Result<bool, AllocError>
    requires stored { All IsStored log.now }
    requires counts { (topic : List ℕ) (queue : ℕ) → queue_min (log_of base.now log.now) topic queue ≤ 2 ^ 62 }
    ensures equal { (segment : ℕ) → IsLawful segment (log_of base.now log.now)
        → IfOk result (λ equal. IsTrue equal ↔ HasAllOf (log_of base.now log.now) core.now) }
    // Of its own log that is so where consumers see all of it, and only there.
    ensures own { (s : State) → Represents core.now s → log_of base.now log.now ≡ s.log
        → IfOk result (λ equal. IsTrue equal ↔ (s.dispatched ≡ count_of s.log)) }
{
    has_all(alloc, core, log, base)
}
