//! The log's files are read as recovery reads them, once by `dump` and twice by `verify`, and a tool writes of them what it has to.

ghost use Rattle.std.specs.Prelude.{◌≡◌};
ghost use Rattle.mq_outside.specs.Disk.{Rests};
ghost use Rattle.log_model.specs.Bases.{whole};
ghost use Rattle.log_model.specs.Log.{IsSegmentSize};
ghost use Rattle.log_model.specs.Store.{IsDamagedAt};
ghost use Rattle.store_open.specs.Statuses.{FitsTable};
ghost use Rattle.store_open.specs.declared.tool_words.Tool.TheVariants as tool;
ghost use Rattle.tool_run.specs.Tools.{CountsReport, Reports, WroteKept, seen_of};

use crate::dump::Dump;
use crate::ends::{end_broken, end_damaged, end_failed, end_sound, end_whole};
use crate::lines::Lines;
use crate::ran::ToolRan;
use crate::sound::verified;
use log_model::Base;
use log_recovery::{RecoverFault, read_kept};
use mq_outside::{Disk, Sink};
use std::alloc::Global;
use store_open::Tool;

/// Writes a line for each record that recovery keeps of the log's files. Nothing of the disk is changed.
fn dump_log<K: Sink + Drop, D: Disk>(
    alloc: Global,
    segment: u32,
    sink: K,
    disk: &mut D,
) -> ToolRan<K>
    requires { IsSegmentSize segment }
    ensures reports { Reports tool.Dump (whole segment) result.status (seen_of K.Sink sink result.sink) }
    ensures kept { D.tells → result.status.code ≡ 0
        → WroteKept tool.Dump (whole segment) (D.state disk.old).reads (seen_of K.Sink sink result.sink) }
    ensures damaged { D.tells → result.status.code ≡ 8
        → IsDamagedAt (whole segment) (D.state disk.old).reads result.status.place result.status.name }
    ensures rests { D.tells → Rests (D.state disk.old) (D.state disk.new) }
    ensures causes { CountsReport result.status (K.faults sink) (K.faults result.sink) (D.faults disk.old) (D.faults disk.new) }
    ensures table { FitsTable result.status }
{
    let base = Base::none(alloc);
    let mut dump = Dump {
        lines: Lines::new(alloc, sink),
    };
    match read_kept(alloc, disk, segment, &base, &mut dump) {
        Ok(_) => end_whole(alloc, dump.lines),
        Err(RecoverFault::Damaged(place, name)) => end_damaged(alloc, dump.lines, place, name),
        Err(RecoverFault::Failed) => end_failed(alloc, dump.lines),
        Err(RecoverFault::Memory) => end_broken(alloc, dump.lines),
    }
}

/// Writes how many records recovery keeps of the log's files, and where they end, once they were compared with the tables that a
/// broker would have of them. Nothing of the disk is changed.
fn verify_log<K: Sink + Drop, D: Disk>(
    alloc: Global,
    segment: u32,
    sink: K,
    disk: &mut D,
) -> ToolRan<K>
    requires { IsSegmentSize segment }
    ensures reports { Reports tool.Verify (whole segment) result.status (seen_of K.Sink sink result.sink) }
    ensures kept { D.tells → result.status.code ≡ 0
        → WroteKept tool.Verify (whole segment) (D.state disk.old).reads (seen_of K.Sink sink result.sink) }
    ensures damaged { D.tells → result.status.code ≡ 8
        → IsDamagedAt (whole segment) (D.state disk.old).reads result.status.place result.status.name }
    ensures rests { D.tells → Rests (D.state disk.old) (D.state disk.new) }
    ensures causes { CountsReport result.status (K.faults sink) (K.faults result.sink) (D.faults disk.old) (D.faults disk.new) }
    ensures table { FitsTable result.status }
{
    let lines = Lines::new(alloc, sink);
    match verified(alloc, segment, disk) {
        Ok(sound) => end_sound(alloc, lines, sound.records, sound.end),
        Err(RecoverFault::Damaged(place, name)) => end_damaged(alloc, lines, place, name),
        Err(RecoverFault::Failed) => end_failed(alloc, lines),
        Err(RecoverFault::Memory) => end_broken(alloc, lines),
    }
}

/// Reads the log's files, and writes what this tool says of them. Nothing of the disk is changed.
pub(crate) fn read_for<K: Sink + Drop, D: Disk>(
    tool: Tool,
    alloc: Global,
    segment: u32,
    sink: K,
    disk: &mut D,
) -> ToolRan<K>
    requires { IsSegmentSize segment }
    ensures reports { Reports tool (whole segment) result.status (seen_of K.Sink sink result.sink) }
    ensures kept { D.tells → result.status.code ≡ 0
        → WroteKept tool (whole segment) (D.state disk.old).reads (seen_of K.Sink sink result.sink) }
    ensures damaged { D.tells → result.status.code ≡ 8
        → IsDamagedAt (whole segment) (D.state disk.old).reads result.status.place result.status.name }
    ensures rests { D.tells → Rests (D.state disk.old) (D.state disk.new) }
    ensures causes { CountsReport result.status (K.faults sink) (K.faults result.sink) (D.faults disk.old) (D.faults disk.new) }
    ensures table { FitsTable result.status }
{
    match tool {
        Tool::Dump => dump_log(alloc, segment, sink, disk),
        Tool::Verify => verify_log(alloc, segment, sink, disk),
    }
}
