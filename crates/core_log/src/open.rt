//! The broker opens over a log that was loaded: all of it is on the disk, and consumers see all of it.

ghost use Rattle.std.specs.Prelude.{◌≡◌, List, None};
ghost use Rattle.std.specs.Int.{w64, from_be_bytes};
ghost use Rattle.record_codec.specs.Entry.{Entry};
ghost use Rattle.record_codec.specs.Layout.{IsHost};
ghost use Rattle.log_model.specs.Numbered.{count_of, place_end};
ghost use Rattle.broker_model.specs.State.{Saved};
ghost use Rattle.broker_model.specs.Run.{opened};
ghost use Rattle.core_log.specs.Loads.{MayOpen, whole_log};
ghost use Rattle.core_log.specs.Shows.{shown_of};
ghost use Rattle.core_log.specs.Represents.{Represents, setup_of};

use crate::dispatch::{see, see_levels};
use crate::loaded::Loaded;
use crate::parts::Parts;
use broker_events::Setup;
use client_tables::Clients;
use mq_outside::FrozenRanges;
use pending_log::Pending;
use std::alloc::Global;

// The number that the eight bytes of a host spell.
fn host_number(host: [u8; 8]) -> u64
    ensures number { result ≡ from_be_bytes w64 host }
    ensures host { IsHost host }
{
    u64::from_be_bytes(host)
}

impl Parts {
    /// The parts over a log that was loaded, whose records are in these stored ranges. Takes no memory.
    pub fn open(alloc: Global, setup: Setup, loaded: Loaded, stored: FrozenRanges) -> Parts
        requires some { (saved : Saved) × (records : List Entry) × MayOpen setup saved records loaded stored }
        ensures represents { (saved : Saved) (records : List Entry) → MayOpen setup saved records loaded stored
            → Represents result (opened (setup_of setup) (whole_log records) saved) }
        ensures shown { (saved : Saved) (records : List Entry) → MayOpen setup saved records loaded stored
            → shown_of result ≡ record { flushed = count_of (whole_log records); end = place_end (whole_log records); out = None } }
    {
        // Only what it shows of the host is of use.
        let _number = host_number(setup.host);
        let clients = Clients::new(alloc);
        let count = loaded.rows.end();
        let pending = Pending::new(alloc, setup.segment, count, loaded.end);
        let mut queues = loaded.queues;
        let mut levels = loaded.levels;
        see(&mut queues, &loaded.rows, 0, count);
        see_levels(&queues, &mut levels, &loaded.rows, 0, count);
        Parts {
            setup,
            rows: loaded.rows,
            pending,
            stored,
            keys: loaded.keys,
            halves: loaded.halves,
            levels,
            queues,
            topics: loaded.topics,
            groups: loaded.groups,
            clients,
            dispatched: count,
            now: loaded.store,
        }
    }
}
