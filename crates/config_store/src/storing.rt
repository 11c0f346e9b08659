//! Replaces the two kept files by new texts.

ghost use Rattle.std.specs.Prelude.{OnOk};
ghost use Rattle.mq_outside.specs.Counts.{CountsDiskFault};
ghost use Rattle.config_store.specs.Configs.{KeepsConfig, PutsConfig};

use crate::config::{OFFSETS, TOPICS};
use mq_outside::{DiskFault, Keep};
use std::alloc::Global;

/// Replaces the file of offsets and then that of topics. At `Err` each of the two has its old text or its new one.
pub fn store_config<P: Keep>(
    alloc: Global,
    keep: &mut P,
    offsets: &[u8],
    topics: &[u8],
) -> Result<(), DiskFault>
    ensures done { P.tells → OnOk result (KeepsConfig offsets.now topics.now (P.state keep.new)) }

    // At each moment each file has its old text or its new one, and nothing else changes.
    ensures puts { P.tells → PutsConfig offsets.now topics.now (P.state keep.old) (P.state keep.new) }
    ensures cause { CountsDiskFault result (P.faults keep.old) (P.faults keep.new) }
{
    match keep.replace(alloc, OFFSETS, offsets) {
        Ok(()) => keep.replace(alloc, TOPICS, topics),
        Err(fault) => Err(fault),
    }
}
