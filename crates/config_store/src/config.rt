//! Loads the two kept files. An absent one has no rows.

ghost use Rattle.std.specs.Prelude.{All, IfOk};
ghost use Rattle.mq_outside.specs.Disk.{Moves, Rests};
ghost use Rattle.mq_outside.specs.Files.{Same};
ghost use Rattle.config_store.specs.Configs.{OFFSETS as OFFSETS_NAME, TOPICS as TOPICS_NAME, HasConfig, HasOffsets, HasTopics};
ghost use Rattle.config_store.specs.Texts.{IsOffset, IsKeptTopic};
ghost use Rattle.config_store.specs.Faults.{OnBadText, CountsConfigFault, IsBadText, IsNoOffsets, IsNoTopics};

use crate::reading::{read_offsets, read_topics};
use crate::text_fault::TextFault;
use client_tables::TopicQueues;
use group_tables::GroupOffset;
use mq_outside::{DiskFault, Keep};
use std::alloc::Global;

pub(crate) const OFFSETS: &str = "consumerOffset.json";

pub(crate) const TOPICS: &str = "topics.json";

/// What the two kept files have: the offsets that groups stored, and the topics of clients.
#[derive(Debug, Drop)]
pub struct Config {
    pub offsets: Vec<GroupOffset>,
    pub topics: Vec<TopicQueues>,
}

/// Why the two files aren't loaded.
#[derive(Debug, Clone, Copy)]
pub enum ConfigFault {
    /// The file of this name isn't of its form.
    BadText(&'static str),
    /// The keep failed.
    Failed,
    /// There was no memory for it.
    Memory,
}

// The rows of the file of offsets.
fn load_offsets<P: Keep>(alloc: Global, keep: &mut P) -> Result<Vec<GroupOffset>, ConfigFault>
    ensures read { P.tells → IfOk result (λ rows. HasOffsets ((P.state keep.old).reads OFFSETS_NAME) rows.items) }
    ensures each { IfOk result (λ rows. All IsOffset rows.items) }
    ensures bad { P.tells → OnBadText result (IsNoOffsets (P.state keep.old).reads) }
    ensures moves { P.tells → Moves Same (P.state keep.old) (P.state keep.new) }
    ensures cause { CountsConfigFault result (P.faults keep.old) (P.faults keep.new) }
{
    let text = match keep.load(alloc, OFFSETS) {
        Ok(Some(text)) => text,
        Ok(None) => return Ok(Vec::new(alloc)),
        Err(DiskFault::Failed) => return Err(ConfigFault::Failed),
        Err(DiskFault::Memory) => return Err(ConfigFault::Memory),
    };
    match read_offsets(alloc, text.as_slice()) {
        Ok(rows) => Ok(rows),
        Err(TextFault::Bad) => Err(ConfigFault::BadText(OFFSETS)),
        Err(TextFault::Memory) => Err(ConfigFault::Memory),
    }
}

// The rows of the file of topics.
fn load_topics<P: Keep>(alloc: Global, keep: &mut P) -> Result<Vec<TopicQueues>, ConfigFault>
    ensures read { P.tells → IfOk result (λ rows. HasTopics ((P.state keep.old).reads TOPICS_NAME) rows.items) }
    ensures each { IfOk result (λ rows. All IsKeptTopic rows.items) }
    ensures bad { P.tells → OnBadText result (IsNoTopics (P.state keep.old).reads) }
    ensures moves { P.tells → Moves Same (P.state keep.old) (P.state keep.new) }
    ensures cause { CountsConfigFault result (P.faults keep.old) (P.faults keep.new) }
{
    let text = match keep.load(alloc, TOPICS) {
        Ok(Some(text)) => text,
        Ok(None) => return Ok(Vec::new(alloc)),
        Err(DiskFault::Failed) => return Err(ConfigFault::Failed),
        Err(DiskFault::Memory) => return Err(ConfigFault::Memory),
    };
    match read_topics(alloc, text.as_slice()) {
        Ok(rows) => Ok(rows),
        Err(TextFault::Bad) => Err(ConfigFault::BadText(TOPICS)),
        Err(TextFault::Memory) => Err(ConfigFault::Memory),
    }
}

/// What the two kept files have. The keep stays as it is.
pub fn load_config<P: Keep>(alloc: Global, keep: &mut P) -> Result<Config, ConfigFault>
    ensures read { P.tells → IfOk result (λ config. HasConfig (P.state keep.old).reads config.offsets.items config.topics.items) }

    // Whatever the keep tells, each row can be kept.
    ensures each { IfOk result (λ config. All IsOffset config.offsets.items × All IsKeptTopic config.topics.items) }

    // `BadText` comes only where the file of that name isn't the text of any rows.
    ensures bad { P.tells → OnBadText result (IsBadText (P.state keep.old).reads) }
    ensures rests { P.tells → Rests (P.state keep.old) (P.state keep.new) }

    // `Failed` comes exactly where the keep's count rose.
    ensures cause { CountsConfigFault result (P.faults keep.old) (P.faults keep.new) }
{
    let offsets = match load_offsets(alloc, keep) {
        Ok(offsets) => offsets,
        Err(fault) => return Err(fault),
    };
    let topics = match load_topics(alloc, keep) {
        Ok(topics) => topics,
        Err(fault) => return Err(fault),
    };
    Ok(Config { offsets, topics })
}
