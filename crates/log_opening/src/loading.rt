//! The log is recovered, and each record that is kept is loaded.

ghost use Rattle.std.specs.Prelude.{◌≡◌, ◌+◌, ◌^◌, ◌≤◌, List, [], ℕ, All, IfOk, OnOk, IsTrue};
ghost use Rattle.mq_outside.specs.Disk.{Rests};
ghost use Rattle.record_codec.specs.Entry.{Entry};
ghost use Rattle.log_model.specs.Bases.{whole};
ghost use Rattle.log_model.specs.Log.{IsSegmentSize};
ghost use Rattle.log_model.specs.Store.{IsDamagedAt, IsHonest, StoresLog};
ghost use Rattle.log_model.specs.Stored.{StaysOutside};
ghost use Rattle.log_recovery.specs.Recovered.{Handed, StaysFlushed, OnDamage, CountsRecoverFault};
ghost use Rattle.broker_model.specs.Tables.{TopicRow};
ghost use Rattle.group_tables.specs.Offsets.{IsOffset};
ghost use Rattle.core_log.specs.Loads.{IsLoadedFrom, IsLoadedWith};
ghost use Rattle.config_store.specs.Texts.{IsKeptTopic};
ghost use Rattle.log_opening.specs.Opens.{IsKeptLog, IsOurLog};

use client_tables::TopicQueues;
use core_log::Loaded;
use group_tables::GroupOffset;
use log_model::Base;
use log_recovery::{RecoverFault, Visit, recover};
use mq_outside::Disk;
use record_codec::View;
use std::alloc::{AllocError, Global};

// Takes the records that recovery keeps, behind these topics.
#[derive(Drop)]
struct Loading<'a> {
    loaded: Loaded,
    topics: &'a [TopicQueues],
    alloc: Global,
}

impl<'a> Visit for Loading<'a> {
    ghost use Rattle.core_log.specs.Loads.{IsLoadedFrom};

    ghost stands = { λ base loading records. IsLoadedFrom loading.topics.now records loading.loaded };

    fn record(&mut self, view: &View<'_>) -> Result<(), AllocError> {
        self.loaded.add(self.alloc, view)
    }
}

/// A log that was recovered: what was loaded of it, and where it ends.
#[derive(Drop)]
pub(crate) struct LoadedLog {
    pub(crate) loaded: Loaded,
    pub(crate) end: u64,
}

// Loads the topics of the kept file.
fn add_topics(alloc: Global, loaded: &mut Loaded, topics: &[TopicQueues]) -> Result<(), AllocError>
    requires { All IsKeptTopic topics.now }
    ensures { IsLoadedFrom [] [] loaded.old → OnOk result (IsLoadedFrom topics.now [] loaded.new) }
{
    for row in topics {
        loaded.add_topic(alloc, row.topic.as_str(), row.queues)?;
    }
    Ok(())
}

/// What is loaded of the kept topics.
pub(crate) fn loaded_topics(alloc: Global, topics: &[TopicQueues]) -> Result<Loaded, AllocError>
    requires { All IsKeptTopic topics.now }
    ensures { IfOk result (IsLoadedFrom topics.now []) }
{
    let mut loaded = Loaded::new(alloc)?;
    add_topics(alloc, &mut loaded, topics)?;
    Ok(loaded)
}

// Loads the offsets of the kept file, the first one last, so that it counts.
fn add_offsets(loaded: &mut Loaded, rows: &[GroupOffset]) -> Result<(), AllocError>
    requires { All IsOffset rows.now }
    ensures { (topics : List TopicRow) (records : List Entry) → IsLoadedFrom topics records loaded.old
        → OnOk result (IsLoadedWith topics records rows.now loaded.new) }
{
    let mut left = rows;
    while let Some((row, front)) = left.split_last() {
        loaded.add_offset(
            row.group.as_str(),
            row.topic.as_str(),
            row.queue,
            row.offset,
        )?;
        left = front;
    }
    Ok(())
}

/// The log with the offsets of the kept file, each at most the end of its queue.
pub(crate) fn with_offsets(log: LoadedLog, rows: &[GroupOffset]) -> Result<LoadedLog, AllocError>
    requires { All IsOffset rows.now }
    ensures loaded { (topics : List TopicRow) (records : List Entry) → IsLoadedFrom topics records log.loaded
        → IfOk result (λ it. IsLoadedWith topics records rows.now it.loaded) }
    ensures ends { IfOk result (λ it. it.end ≡ log.end) }
{
    let LoadedLog { loaded, end } = log;
    let mut loaded = loaded;
    add_offsets(&mut loaded, rows)?;
    Ok(LoadedLog { loaded, end })
}

fn is_same(topic: &TopicQueues, other: &TopicQueues) -> bool
    ensures { IsTrue result → topic.now ≡ other.now }
{
    topic.queues == other.queues && topic.topic.as_str() == other.topic.as_str()
}

// Whether these are the same topics.
fn are_same(topics: &[TopicQueues], others: &[TopicQueues]) -> bool
    ensures { IsTrue result → topics.now ≡ others.now }
{
    if topics.len() != others.len() {
        return false;
    }
    for i in 0..topics.len() {
        if !is_same(&topics[i], &others[i]) {
            return false;
        }
    }
    true
}

/// Recovers the log and loads its records, behind these topics, which are loaded already.
pub(crate) fn load_log<D: Disk>(
    alloc: Global,
    disk: &mut D,
    segment: u32,
    loaded: Loaded,
    topics: &[TopicQueues],
) -> Result<LoadedLog, RecoverFault>
    requires size { IsSegmentSize segment }
    requires topics { IsLoadedFrom topics.now [] loaded }
    ensures low { IfOk result (λ log. log.end ≤ 2 ^ 62) }

    // Whatever the disk tells, a log was loaded. Where it tells, it is the one that recovery keeps of its files.
    ensures loaded { IfOk result (λ log. Handed (whole segment) (λ records. IsLoadedFrom topics.now records log.loaded) log.end) }
    ensures kept { D.tells → IfOk result (IsKeptLog (whole segment) topics.now (D.state disk.old).reads (D.state disk.new).reads) }
    ensures damaged { D.tells → OnDamage result (IsDamagedAt (whole segment) (D.state disk.old).reads) }
    ensures untouched { D.tells → OnDamage result (λ place name. Rests (D.state disk.old) (D.state disk.new)) }
    ensures ours { D.tells → (log : List Entry) (flushed : ℕ) → StoresLog (whole segment) log flushed (D.state disk.old)
        → IsHonest (whole segment) log flushed (D.state disk.old).reads
        → IfOk result (IsOurLog (whole segment) topics.now log flushed (D.state disk.new)) }
    ensures flushed { D.tells → StaysFlushed (whole segment) (D.state disk.old) (D.state disk.new) }
    ensures outside { D.tells → StaysOutside (D.state disk.old) (D.state disk.new) }
    ensures cause { CountsRecoverFault result (D.faults disk.old) (D.faults disk.new) }
    ensures syncs { D.syncs disk.new ≤ D.syncs disk.old + 1 }
{
    let base = Base::none(alloc);
    let mut loading = Loading {
        loaded,
        topics,
        alloc,
    };
    let end = match recover(alloc, disk, segment, &base, &mut loading) {
        Ok(end) => end,
        Err(fault) => return Err(fault),
    };
    // A visitor's clause says nothing of what it doesn't change, so this is looked at.
    if !are_same(loading.topics, topics) {
        return Err(RecoverFault::Memory);
    }
    Ok(LoadedLog {
        loaded: loading.loaded,
        end,
    })
}
