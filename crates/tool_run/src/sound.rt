//! Is a log sound? It is loaded as a broker loads it that opens, and read once more beside the tables that came of it.

ghost use Rattle.std.specs.Prelude.{◌≡◌, ◌⊎◌, ◌↔◌, List, codes, IfOk, IsTrue};
ghost use Rattle.mq_outside.specs.Disk.{Rests};
ghost use Rattle.record_codec.specs.Entry.{Entry};
ghost use Rattle.log_model.specs.Bases.{whole};
ghost use Rattle.log_model.specs.Log.{IsSegmentSize};
ghost use Rattle.log_model.specs.Store.{IsDamagedAt, Keeps};
ghost use Rattle.log_recovery.specs.Recovered.{CountsRecoverFault, OnDamage};
ghost use Rattle.log_recovery.specs.declared.fault.RecoverFault.TheVariants as told;
ghost use Rattle.tool_run.specs.Sounds.{IsLoadedLog, IsLoadedOf, KeptSound, SaysAllOf, SoundLog};

use crate::beside::Beside;
use crate::loading::Loading;
use core_log::Loaded;
use log_model::Base;
use log_recovery::{RecoverFault, read_kept};
use mq_bytes::Text;
use mq_outside::Disk;
use std::alloc::Global;
use table_check::{Comparing, Tables};

/// A log that was loaded: what a broker would know of it, how many records it has, and where it ends.
#[derive(Drop)]
struct LoadedLog {
    loaded: Loaded,
    records: u64,
    end: u64,
}

/// How many records a sound log has, and where the last one ends.
#[derive(Clone, Copy)]
pub(crate) struct Sound {
    pub(crate) records: u64,
    pub(crate) end: u64,
}

// Loads the records that recovery keeps of the log's files. Nothing of the disk is changed.
fn load_log<D: Disk>(alloc: Global, segment: u32, disk: &mut D) -> Result<LoadedLog, RecoverFault>
    requires { IsSegmentSize segment }
    ensures loaded { IfOk result (IsLoadedLog (whole segment)) }
    ensures kept { D.tells → IfOk result (IsLoadedOf (whole segment) (D.state disk.old).reads) }
    ensures damaged { D.tells → OnDamage result (IsDamagedAt (whole segment) (D.state disk.old).reads) }
    ensures rests { D.tells → Rests (D.state disk.old) (D.state disk.new) }
    ensures cause { CountsRecoverFault result (D.faults disk.old) (D.faults disk.new) }
{
    let base = Base::none(alloc);
    let mut loading = Loading {
        loaded: Loaded::new(alloc)?,
        records: 0,
        alloc,
    };
    let end = read_kept(alloc, disk, segment, &base, &mut loading)?;
    Ok(LoadedLog {
        loaded: loading.loaded,
        records: loading.records,
        end,
    })
}

// Whether the records that recovery keeps of the log's files say what was loaded. Nothing of the disk is changed.
fn is_said<D: Disk>(
    alloc: Global,
    segment: u32,
    loaded: &Loaded,
    disk: &mut D,
) -> Result<bool, RecoverFault>
    requires { IsSegmentSize segment }
    ensures said { D.tells → IfOk result (λ said. (records : List Entry) → Keeps (whole segment) records (D.state disk.old).reads
        → (IsTrue said ↔ SaysAllOf records loaded.now)) }
    ensures damaged { D.tells → OnDamage result (IsDamagedAt (whole segment) (D.state disk.old).reads) }
    ensures rests { D.tells → Rests (D.state disk.old) (D.state disk.new) }
    ensures cause { CountsRecoverFault result (D.faults disk.old) (D.faults disk.new) }
{
    let base = Base::none(alloc);
    let tables = Tables {
        queues: loaded.queues(),
        keys: loaded.keys(),
        halves: loaded.halves().table(),
        levels: loaded.levels().table(),
    };
    let mut beside = Beside {
        comparing: Comparing::new(alloc, tables, &base)?,
        alloc,
    };
    read_kept(alloc, disk, segment, &base, &mut beside)?;
    Ok(beside.comparing.end())
}

// The log's files say something else than they did before: the folder is damaged, or there is no memory to say so.
fn unequal(alloc: Global) -> RecoverFault
    ensures { (result ≡ told.Damaged 0 (codes "commitlog")) ⊎ (result ≡ told.Memory) }
{
    match String::from_str(alloc, "commitlog") {
        Ok(name) => RecoverFault::Damaged(0, Text::of(name)),
        Err(_) => RecoverFault::Memory,
    }
}

/// Reads the log's files twice: loads the records that recovery keeps, and looks whether the tables that a broker would have of them
/// are what they say. Nothing of the disk is changed.
pub(crate) fn verified<D: Disk>(
    alloc: Global,
    segment: u32,
    disk: &mut D,
) -> Result<Sound, RecoverFault>
    requires { IsSegmentSize segment }
    ensures lawful { IfOk result (SoundLog (whole segment)) }
    ensures kept { D.tells → IfOk result (KeptSound (whole segment) (D.state disk.old).reads) }
    ensures damaged { D.tells → OnDamage result (IsDamagedAt (whole segment) (D.state disk.old).reads) }
    ensures rests { D.tells → Rests (D.state disk.old) (D.state disk.new) }
    ensures cause { CountsRecoverFault result (D.faults disk.old) (D.faults disk.new) }
{
    let log = load_log(alloc, segment, disk)?;
    if !is_said(alloc, segment, &log.loaded, disk)? {
        return Err(unequal(alloc));
    }
    Ok(Sound {
        records: log.records,
        end: log.end,
    })
}
