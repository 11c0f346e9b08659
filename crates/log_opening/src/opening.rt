//! A log opens: the core over its records, and the flusher where they end.

ghost use Rattle.std.specs.Prelude.{◌≡◌, ◌+◌, ◌/◌, ◌≤◌, List, ℕ, All, IfOk};
ghost use Rattle.mq_outside.specs.Disk.{Rests};
ghost use Rattle.mq_outside.specs.Files.{Files};
ghost use Rattle.record_codec.specs.Entry.{Entry};
ghost use Rattle.log_model.specs.Bases.{whole};
ghost use Rattle.log_model.specs.Log.{IsSegmentSize};
ghost use Rattle.log_model.specs.Store.{IsDamagedAt, IsHonest, StoresLog};
ghost use Rattle.log_model.specs.Stored.{StaysOutside};
ghost use Rattle.log_recovery.specs.Recovered.{StaysFlushed, OnDamage, CountsRecoverFault};
ghost use Rattle.segment_files.specs.Turn.{IsInside};
ghost use Rattle.broker_model.specs.State.{Saved};
ghost use Rattle.broker_model.specs.Tables.{OffsetRow, TopicRow};
ghost use Rattle.group_tables.specs.Offsets.{IsOffset};
ghost use Rattle.config_store.specs.Texts.{IsKeptTopic};
ghost use Rattle.log_opening.specs.Opens.{saved_as, CanOpen, OpensWith, OpensLog, OpensLogWith};
ghost use Rattle.log_opening.specs.Opens.{OpensKept, OpensKeptWith, OpensOurs, OpensOursWith};

use crate::freezing::freeze_log;
use crate::loading::{LoadedLog, load_log, loaded_topics, with_offsets};
use broker_core::Core;
use broker_events::Setup;
use client_tables::TopicQueues;
use group_flush::Flusher;
use group_tables::GroupOffset;
use log_recovery::RecoverFault;
use mq_outside::{Disk, FrozenRanges};
use segment_files::LastFile;
use std::alloc::Global;

/// A log that is open.
#[derive(Drop)]
pub struct Opened {
    /// The broker over the log: all of its records are on the disk, and consumers see all of them.
    pub core: Core,
    /// Makes the flush turns, from the end of the log on. It is to be given the same disk.
    pub flusher: Flusher,
}

impl Opened {
    /// The same over this disk, but the flusher writes zeros ahead in the log's files, which have segments of so many bytes.
    pub fn with_zeros<D: Disk>(self, segment: u32, disk: &D) -> Opened
        ensures core { result.core ≡ self.core }
        ensures place { (result.flusher.file.base ≡ self.flusher.file.base) × (result.flusher.file.offset ≡ self.flusher.file.offset) }
        ensures over { (setup : Setup) (saved : Saved) → OpensLogWith setup saved self → OpensLogWith setup saved result }
        ensures kept { (setup : Setup) (saved : Saved) (files : Files) → OpensKeptWith setup saved files self
            → OpensKeptWith setup saved files result }
        ensures ours { (setup : Setup) (saved : Saved) (log : List Entry) (flushed : ℕ) → segment ≡ setup.segment
            → OpensOursWith setup saved log flushed (D.state disk.now) self → OpensOursWith setup saved log flushed (D.state disk.now) result }
    {
        let Opened { core, flusher } = self;
        Opened {
            core,
            flusher: flusher.with_zeros(segment),
        }
    }
}

// The core and the flusher of a log that was loaded, which these pieces cover.
fn open_loaded(alloc: Global, setup: Setup, log: LoadedLog, pieces: FrozenRanges) -> Opened
    requires size { IsSegmentSize setup.segment }
    requires some { (offsets : List OffsetRow) × (topics : List TopicRow) × (records : List Entry)
        × CanOpen setup offsets topics records log pieces }
    ensures opens { (offsets : List OffsetRow) (topics : List TopicRow) (records : List Entry)
        → CanOpen setup offsets topics records log pieces → OpensWith setup (saved_as offsets topics) records result }
    ensures ahead { result.flusher.file.ahead ≡ 0 }
{
    let file = LastFile::at(setup.segment, log.end);
    let core = Core::open(alloc, setup, log.loaded, pieces);
    Opened {
        core,
        flusher: Flusher::new(file),
    }
}

/// Opens the log of this disk with what is kept beside it: it is recovered and loaded, each of its files is synced and frozen, and
/// the core opens over it. Of two rows of one topic, or of one group and queue, the first counts.
///
/// At `Err` nothing is open, and it may be tried again. What was flushed still stands. At `Damaged` nothing was changed.
pub fn open_log_with<D: Disk>(
    alloc: Global,
    disk: &mut D,
    setup: Setup,
    offsets: &[GroupOffset],
    topics: &[TopicQueues],
) -> Result<Opened, RecoverFault>
    requires size { IsSegmentSize setup.segment }
    requires offsets { All IsOffset offsets.now }
    requires topics { All IsKeptTopic topics.now }

    // Whatever the disk tells, it opens over a log. Where it tells, over the one that recovery keeps of its files.
    ensures represents { IfOk result (OpensLogWith setup (saved_as offsets.now topics.now)) }
    ensures kept { D.tells → IfOk result (OpensKeptWith setup (saved_as offsets.now topics.now) (D.state disk.old).reads) }
    ensures inside { D.tells → IfOk result (λ it. IsInside it.flusher.file.base it.flusher.file.offset (D.state disk.new)) }
    ensures ahead { IfOk result (λ it. it.flusher.file.ahead ≡ 0) }
    ensures damaged { D.tells → OnDamage result (IsDamagedAt (whole setup.segment) (D.state disk.old).reads) }
    ensures untouched { D.tells → OnDamage result (λ place name. Rests (D.state disk.old) (D.state disk.new)) }

    // A disk that stores a log, and is read honestly: it opens over a prefix with all that was flushed, which is stored.
    ensures ours { D.tells → (log : List Entry) (flushed : ℕ) → StoresLog (whole setup.segment) log flushed (D.state disk.old)
        → IsHonest (whole setup.segment) log flushed (D.state disk.old).reads
        → IfOk result (OpensOursWith setup (saved_as offsets.now topics.now) log flushed (D.state disk.new)) }

    // Whatever the answer, what was flushed stays, at each moment, and so do files outside the log's folder.
    ensures flushed { D.tells → StaysFlushed (whole setup.segment) (D.state disk.old) (D.state disk.new) }
    ensures outside { D.tells → StaysOutside (D.state disk.old) (D.state disk.new) }
    ensures cause { CountsRecoverFault result (D.faults disk.old) (D.faults disk.new) }

    // It asks for one sync a file, and for one more.
    ensures syncs { IfOk result (λ it. D.syncs disk.new ≤ D.syncs disk.old + (it.flusher.file.base / setup.segment + 2)) }
{
    let loaded = match loaded_topics(alloc, topics) {
        Ok(loaded) => loaded,
        Err(_) => return Err(RecoverFault::Memory),
    };
    let log = match load_log(alloc, disk, setup.segment, loaded, topics) {
        Ok(log) => log,
        Err(fault) => return Err(fault),
    };
    let log = match with_offsets(log, offsets) {
        Ok(log) => log,
        Err(_) => return Err(RecoverFault::Memory),
    };
    let pieces = match freeze_log(alloc, disk, setup.segment, log.end) {
        Ok(pieces) => pieces,
        Err(fault) => return Err(fault),
    };
    Ok(open_loaded(alloc, setup, log, pieces))
}

/// The same with nothing beside the log.
pub fn open_log<D: Disk>(alloc: Global, disk: &mut D, setup: Setup) -> Result<Opened, RecoverFault>
    requires { IsSegmentSize setup.segment }
    ensures represents { IfOk result (OpensLog setup) }
    ensures kept { D.tells → IfOk result (OpensKept setup (D.state disk.old).reads) }
    ensures inside { D.tells → IfOk result (λ it. IsInside it.flusher.file.base it.flusher.file.offset (D.state disk.new)) }
    ensures ahead { IfOk result (λ it. it.flusher.file.ahead ≡ 0) }
    ensures damaged { D.tells → OnDamage result (IsDamagedAt (whole setup.segment) (D.state disk.old).reads) }
    ensures untouched { D.tells → OnDamage result (λ place name. Rests (D.state disk.old) (D.state disk.new)) }
    ensures ours { D.tells → (log : List Entry) (flushed : ℕ) → StoresLog (whole setup.segment) log flushed (D.state disk.old)
        → IsHonest (whole setup.segment) log flushed (D.state disk.old).reads
        → IfOk result (OpensOurs setup log flushed (D.state disk.new)) }
    ensures flushed { D.tells → StaysFlushed (whole setup.segment) (D.state disk.old) (D.state disk.new) }
    ensures outside { D.tells → StaysOutside (D.state disk.old) (D.state disk.new) }
    ensures cause { CountsRecoverFault result (D.faults disk.old) (D.faults disk.new) }
    ensures syncs { IfOk result (λ it. D.syncs disk.new ≤ D.syncs disk.old + (it.flusher.file.base / setup.segment + 2)) }
{
    let no_offsets = Vec::new(alloc);
    let no_topics = Vec::new(alloc);
    let offsets: &[GroupOffset] = no_offsets.as_slice();
    let topics: &[TopicQueues] = no_topics.as_slice();
    open_log_with(alloc, disk, setup, offsets, topics)
}
