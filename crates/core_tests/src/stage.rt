//! The core over a disk in memory, and tables of what happens to it.

ghost use Rattle.std.specs.Prelude.{◌≡◌, None, IfOk};
ghost use Rattle.mq_outside.specs.MemDiskState.{state_of};
ghost use Rattle.segment_files.specs.Turn.{IsInside};
ghost use Rattle.core_log.specs.Shows.{shown_of};

use crate::answers::tell;
use crate::events::What;
use broker_core::Alone;
use broker_events::Setup;
use group_flush::Flusher;
use log_opening::{Opened, open_log};
use mq_outside::{Disk, MemDisk, Room};
use std::alloc::Global;
use std::process::Abort;
use std::test::Fail;
use worker_turns::flush_turn;

/// The broker's host is 127.0.0.1:10911, segments have 1 GiB, and replies wait for the disk.
const SETUP: Setup = Setup {
    segment: 1 << 30,
    host: [127, 0, 0, 1, 0, 0, 42, 159],
    sync: true,
};

/// The file of the log's first segment.
const FIRST_FILE: &str = "commitlog/00000000000000000000";

/// A reading of the clock, what happens, and what is said to that, in words.
pub(crate) type Row = (u64, What, &'static str);

/// The core, and what its flush turns need.
#[derive(Drop)]
pub(crate) struct Stage {
    pub(crate) alone: Alone,
    pub(crate) flusher: Flusher,
    pub(crate) disk: MemDisk,
}

// A disk with these bytes in the file of the log's first segment, if any. The calls with these numbers fail.
fn disk_with(alloc: Global, log: &[u8], fails: &[u64]) -> Result<MemDisk, Fail> {
    let room = Room {
        bytes: 1_000_000,
        files: 256,
        calls: 4096,
    };
    let mut disk = MemDisk::new(alloc, Vec::new(alloc), room, Vec::from_slice(alloc, fails)?)?;
    if !log.is_empty() && disk.write_at(FIRST_FILE, 0, log).is_err() {
        return Err(Fail::from("not written"));
    }
    Ok(disk)
}

/// The core over a log with these bytes in its first segment. The calls of its disk with these numbers fail.
pub(crate) fn begin(alloc: Global, log: &[u8], fails: &[u64]) -> Result<Stage, Fail>
    ensures none_out { IfOk result (λ it. (shown_of it.alone.core).out ≡ None) }
    ensures inside { IfOk result (λ it. IsInside it.flusher.file.base it.flusher.file.offset (state_of it.disk)) }
{
    let mut disk = disk_with(alloc, log, fails)?;
    match open_log(alloc, &mut disk, SETUP) {
        Ok(Opened { core, flusher }) => Ok(Stage {
            alone: Alone::new(core),
            flusher,
            disk,
        }),
        Err(_) => Err(Fail::from("the store is not opened")),
    }
}

// What is said to this at this reading of the clock.
fn play(alloc: Global, stage: &mut Stage, now: u64, what: &What) -> Result<String, Fail>
    requires none_out { (shown_of stage.old.alone.core).out ≡ None }
    requires inside { IsInside stage.old.flusher.file.base stage.old.flusher.file.offset (state_of stage.old.disk) }
    ensures none_out { (shown_of stage.new.alone.core).out ≡ None }
    ensures inside { IsInside stage.new.flusher.file.base stage.new.flusher.file.offset (state_of stage.new.disk) }
{
    if let What::Flush = what {
        let end = flush_turn(alloc, &mut stage.alone, &mut stage.flusher, &mut stage.disk);
        return Ok(format!(in alloc; "{end:?}")?);
    }
    tell(alloc, &mut stage.alone, now, what)
}

/// Goes through a table, from an empty store on. The calls of its disk with these numbers fail.
pub(crate) fn follow(
    rt: &impl Abort,
    alloc: Global,
    fails: &[u64],
    rows: &[Row],
) -> Result<(), Fail> {
    let mut stage = begin(alloc, b"", fails)?;
    for row in rows {
        let words = play(alloc, &mut stage, row.0, &row.1)?;
        assert!(rt;
            words.as_str() == row.2,
            "{}: {words}, not {}",
            row.0,
            row.2
        );
    }
    Ok(())
}
