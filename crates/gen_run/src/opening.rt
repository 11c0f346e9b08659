//! A store without records is opened and filled, and its log is read back.

ghost use Rattle.std.specs.Prelude.{◌≡◌, ◌≢◌, ◌⊎◌, ◌≤◌, [], None, IfOk, IfErr, OnOk, codes, true, false};
ghost use Rattle.mq_outside.specs.Disk.{Rests};
ghost use Rattle.log_model.specs.Bases.{whole};
ghost use Rattle.log_model.specs.Log.{IsSegmentSize};
ghost use Rattle.log_model.specs.Numbered.{count_of};
ghost use Rattle.log_model.specs.Store.{IsDamagedAt, Keeps};
ghost use Rattle.log_model.specs.Stored.{StaysOutside};
ghost use Rattle.log_recovery.specs.Recovered.{CountsRecoverFault, OnDamage};
ghost use Rattle.segment_files.specs.Turn.{IsInside};
ghost use Rattle.store_open.specs.Statuses.{FitsTable};
ghost use Rattle.broker_model.specs.State.{State};
ghost use Rattle.core_log.specs.Represents.{Represents};
ghost use Rattle.core_log.specs.Shows.{shown_of};
ghost use Rattle.gen_run.specs.Fills.{CountsFill, HasFilled, LeavesRecords, OpensEmpty, StatusTellsStop};
ghost use Rattle.gen_run.specs.Fills.{AreDamaged, AtDamage, FindsDamage, GivesOther, SaysOther, WereDamaged};
ghost use Rattle.gen_run.specs.Sums.{IsSummaryOf};

use crate::counting::summary_of;
use crate::giving::give_all;
use crate::stop::Stop;
use crate::summary::Summary;
use broker_core::{Alone, Core};
use broker_events::Setup;
use exit_status::status_of_fault;
use log_model::Base;
use log_opening::{Opened, open_log};
use log_recovery::{RecoverFault, Visit, read_kept};
use mq_bytes::Text;
use mq_outside::Disk;
use record_codec::View;
use std::alloc::{AllocError, Global};
use store_open::Status;
use table_check::{Comparing, Tables};
use tool_run::Beside;

// 127.0.0.1:10911
const STORE_HOST: [u8; 8] = [127, 0, 0, 1, 0, 0, 42, 159];

/// Looks whether there is a record: the first ends the reading, and none is taken.
#[derive(Drop)]
struct First {
    is_there: bool,
}

impl Visit for First {
    ghost use Rattle.std.specs.Prelude.{◌≡◌, []};

    ghost stands = { λ _ _ records. records ≡ [] };

    fn record(&mut self, _view: &View<'_>) -> Result<(), AllocError> {
        self.is_there = true;
        Err(AllocError)
    }
}

// Whether recovery keeps a record of the log's files. Nothing of the disk is changed.
fn has_records<D: Disk>(alloc: Global, segment: u32, disk: &mut D) -> Result<bool, RecoverFault>
    requires { IsSegmentSize segment }
    ensures none { D.tells → IfOk result (λ there. there ≡ false → Keeps (whole segment) [] (D.state disk.old).reads) }
    ensures damaged { D.tells → OnDamage result (IsDamagedAt (whole segment) (D.state disk.old).reads) }
    ensures rests { D.tells → Rests (D.state disk.old) (D.state disk.new) }
    ensures cause { CountsRecoverFault result (D.faults disk.old) (D.faults disk.new) }
{
    let base = Base::none(alloc);
    let mut first = First { is_there: false };
    match read_kept(alloc, disk, segment, &base, &mut first) {
        Ok(_end) => Ok(false),
        Err(RecoverFault::Memory) if first.is_there => Ok(true),
        Err(fault) => Err(fault),
    }
}

// Whether the records that recovery keeps of the log's files say what the core's tables have, and consumers see all of them. Nothing
// of the disk is changed.
fn is_equal<D: Disk>(
    alloc: Global,
    segment: u32,
    core: &Core,
    disk: &mut D,
) -> Result<bool, RecoverFault>
    requires { IsSegmentSize segment }
    ensures seen { IfOk result (λ equal. equal ≡ true → (s : State) → Represents core.now s → s.dispatched ≡ count_of s.log) }
    ensures damaged { D.tells → OnDamage result (IsDamagedAt (whole segment) (D.state disk.old).reads) }
    ensures rests { D.tells → Rests (D.state disk.old) (D.state disk.new) }
    ensures cause { CountsRecoverFault result (D.faults disk.old) (D.faults disk.new) }
{
    let base = Base::none(alloc);
    let tables = Tables {
        queues: core.queues(),
        keys: core.keys(),
        halves: core.halves().table(),
        levels: core.levels().table(),
    };
    let mut beside = Beside {
        comparing: Comparing::new(alloc, tables, &base)?,
        alloc,
    };
    read_kept(alloc, disk, segment, &base, &mut beside)?;
    let counts = core.counts();
    Ok(counts.dispatched == counts.records && beside.comparing.end())
}

// The log's files say something else than the core does: the folder is damaged, or there is no memory to say so.
fn unequal(alloc: Global) -> Status
    ensures code { (result.code ≡ 7) ⊎ (result.code ≡ 8) }
    ensures place { result.code ≡ 8 → (result.place ≡ 0) × (result.name ≡ codes "commitlog") }
    ensures table { FitsTable result }
{
    match String::from_str(alloc, "commitlog") {
        Ok(name) => Status::damaged(0, Text::of(name)),
        Err(_) => Status::plain(alloc, 7),
    }
}

// The status of a generator that stopped before its end.
fn status_of_stop(alloc: Global, stop: Stop) -> Status
    ensures tells { StatusTellsStop result stop }
    ensures table { FitsTable result }
{
    match stop {
        Stop::Disk => Status::plain(alloc, 5),
        Stop::Memory => Status::plain(alloc, 7),
    }
}

// Ends where the store has records. Nothing of the disk is changed.
fn refuse_records<D: Disk>(alloc: Global, segment: u32, disk: &mut D) -> Result<(), Status>
    requires { IsSegmentSize segment }
    ensures none { D.tells → OnOk result (Keeps (whole segment) [] (D.state disk.old).reads) }
    ensures damaged { IfErr result (λ status. AtDamage D.tells status (AreDamaged segment status (D.state disk.old).reads)) }
    ensures rests { D.tells → Rests (D.state disk.old) (D.state disk.new) }
    ensures cause { IfErr result (λ status. CountsFill status (D.faults disk.old) (D.faults disk.new)) }
    ensures still { OnOk result (D.faults disk.new ≡ D.faults disk.old) }
    ensures table { IfErr result FitsTable }
{
    match has_records(alloc, segment, disk) {
        Err(fault) => Err(status_of_fault(alloc, fault)),
        Ok(there) => {
            if there {
                return Err(Status::named(alloc, 6, "records"));
            }
            Ok(())
        }
    }
}

// Opens the log, which has no records.
#[tactic(auto, using(log_model::proofs::OutsideLemmas::outside_start))]
fn open_unfilled<D: Disk>(alloc: Global, segment: u32, disk: &mut D) -> Result<Opened, Status>
    requires { IsSegmentSize segment }
    ensures damaged { (D.tells → Keeps (whole segment) [] (D.state disk.old).reads)
        → IfErr result (λ status. AtDamage D.tells status (WereDamaged segment status (D.state disk.old) (D.state disk.new))) }
    ensures opens { IfOk result (OpensEmpty D.tells segment (D.state disk.old) (D.state disk.new)) }
    ensures inside { D.tells → IfOk result (λ it. IsInside it.flusher.file.base it.flusher.file.offset (D.state disk.new)) }
    ensures cause { IfErr result (λ status. CountsFill status (D.faults disk.old) (D.faults disk.new)) }
    ensures still { OnOk result (D.faults disk.new ≡ D.faults disk.old) }
    ensures others { IfErr result (λ status. status.code ≢ 6) }
    ensures outside { D.tells → StaysOutside (D.state disk.old) (D.state disk.new) }
    ensures table { IfErr result FitsTable }
{
    let setup = Setup {
        segment,
        host: STORE_HOST,
        sync: false,
    };
    match open_log(alloc, disk, setup) {
        Err(fault) => Err(status_of_fault(alloc, fault)),
        Ok(opened) => {
            let counts = opened.core.counts();
            if counts.records == 0 {
                return Ok(opened);
            }
            drop(opened);
            Err(unequal(alloc))
        }
    }
}

// Opens the log of a store without records.
#[tactic(auto, using(log_model::proofs::OutsideLemmas::outside_start))]
fn open_empty<D: Disk>(alloc: Global, segment: u32, disk: &mut D) -> Result<Opened, Status>
    requires { IsSegmentSize segment }
    ensures damaged { IfErr result (λ status. AtDamage D.tells status (WereDamaged segment status (D.state disk.old) (D.state disk.new))) }
    ensures opens { IfOk result (OpensEmpty D.tells segment (D.state disk.old) (D.state disk.new)) }
    ensures inside { D.tells → IfOk result (λ it. IsInside it.flusher.file.base it.flusher.file.offset (D.state disk.new)) }
    ensures cause { IfErr result (λ status. CountsFill status (D.faults disk.old) (D.faults disk.new)) }
    ensures still { OnOk result (D.faults disk.new ≡ D.faults disk.old) }
    ensures records { IfErr result (λ status. LeavesRecords D.tells status (D.state disk.old) (D.state disk.new)) }
    ensures outside { D.tells → StaysOutside (D.state disk.old) (D.state disk.new) }
    ensures table { IfErr result FitsTable }
{
    match refuse_records(alloc, segment, disk) {
        Err(status) => Err(status),
        Ok(()) => match open_unfilled(alloc, segment, disk) {
            Err(status) => Err(status),
            Ok(opened) => Ok(opened),
        },
    }
}

// What the core's log says, once it was read back and compared with the core's tables.
fn checked<D: Disk>(
    alloc: Global,
    segment: u32,
    core: &Core,
    disk: &mut D,
    items: u32,
    start: u32,
    found: u32,
) -> Result<Summary, Status>
    requires { IsSegmentSize segment }
    ensures sums { IfOk result (λ summary. (s : State) → Represents core.now s → (s.dispatched ≡ count_of s.log)
        × IsSummaryOf items start found s.log summary) }
    ensures damaged { IfErr result (λ status. AtDamage D.tells status (SaysOther segment status (D.state disk.old).reads)) }
    ensures rests { D.tells → Rests (D.state disk.old) (D.state disk.new) }
    ensures cause { IfErr result (λ status. CountsFill status (D.faults disk.old) (D.faults disk.new)) }
    ensures kept { IfErr result (λ status. status.code ≢ 6) }
    ensures table { IfErr result FitsTable }
{
    match is_equal(alloc, segment, core, disk) {
        Err(fault) => Err(status_of_fault(alloc, fault)),
        Ok(equal) => {
            if equal {
                return Ok(summary_of(core, items, start, found));
            }
            Err(unequal(alloc))
        }
    }
}

// Fills the store whose log was opened by so many items from this start on, and reads its log back.
#[tactic(auto, using(log_model::proofs::OutsideLemmas::outside_start))]
fn fill_opened<D: Disk>(
    alloc: Global,
    segment: u32,
    opened: Opened,
    disk: &mut D,
    items: u32,
    start: u32,
) -> Result<Summary, Status>
    requires segment { IsSegmentSize segment }
    requires items { items ≤ 1000000 }
    requires start { start ≤ 1000000 }
    requires none_out { (shown_of opened.core).out ≡ None }
    requires inside { D.tells → IsInside opened.flusher.file.base opened.flusher.file.offset (D.state disk.old) }
    ensures filled { (before : D) → OpensEmpty D.tells segment (D.state before) (D.state disk.old) opened
        → IfOk result (λ summary. HasFilled D.tells segment items start summary (D.state before) (D.state disk.new)) }
    ensures damaged { (before : D) → OpensEmpty D.tells segment (D.state before) (D.state disk.old) opened
        → IfErr result (λ status. AtDamage D.tells status (GivesOther segment items start status (D.state before) (D.state disk.new))) }
    ensures cause { IfErr result (λ status. CountsFill status (D.faults disk.old) (D.faults disk.new)) }
    ensures others { IfErr result (λ status. status.code ≢ 6) }
    ensures outside { D.tells → StaysOutside (D.state disk.old) (D.state disk.new) }
    ensures table { IfErr result FitsTable }
{
    let Opened { core, flusher } = opened;
    let mut calls = Alone::new(core);
    let mut flusher = flusher;
    match give_all(alloc, &mut calls, &mut flusher, disk, items, start) {
        Err(stop) => Err(status_of_stop(alloc, stop)),
        Ok(found) => {
            let core = calls.into_core();
            match checked(alloc, segment, &core, disk, items, start, found) {
                Err(status) => Err(status),
                Ok(summary) => Ok(summary),
            }
        }
    }
}

/// Fills a store without records by so many items from this start on, in segments of this size.
#[tactic(auto, using(log_model::proofs::OutsideLemmas::outside_start))]
pub(crate) fn fill<D: Disk>(
    alloc: Global,
    segment: u32,
    disk: &mut D,
    items: u32,
    start: u32,
) -> Result<Summary, Status>
    requires segment { IsSegmentSize segment }
    requires items { items ≤ 1000000 }
    requires start { start ≤ 1000000 }
    ensures filled { IfOk result (λ summary. HasFilled D.tells segment items start summary (D.state disk.old) (D.state disk.new)) }
    ensures damaged { IfErr result (λ status. AtDamage D.tells status
        (FindsDamage segment items start status (D.state disk.old) (D.state disk.new))) }
    ensures cause { IfErr result (λ status. CountsFill status (D.faults disk.old) (D.faults disk.new)) }
    ensures records { IfErr result (λ status. LeavesRecords D.tells status (D.state disk.old) (D.state disk.new)) }
    ensures outside { D.tells → StaysOutside (D.state disk.old) (D.state disk.new) }
    ensures table { IfErr result FitsTable }
{
    match open_empty(alloc, segment, disk) {
        Err(status) => Err(status),
        Ok(opened) => match fill_opened(alloc, segment, opened, disk, items, start) {
            Err(status) => Err(status),
            Ok(summary) => Ok(summary),
        },
    }
}
