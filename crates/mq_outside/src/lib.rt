//! The outside of the broker, as traits: disk, keep, streams and clock, in memory and real.
#![tactic(auto)]

mod clock;
mod disk;
mod fails;
mod faults;
mod frozen;
mod frozen_ranges;
mod keep;
mod machine_clock;
mod mem_buffer;
mod mem_calls;
mod mem_clock;
mod mem_disk;
mod mem_files;
mod mem_keep;
mod mem_reader;
mod mem_sink;
mod mem_source;
mod pieces;
mod reader;
mod real_pieces;
mod std_streams;
mod stream;

pub use clock::Clock;
pub use disk::{Disk, UNSYNCED_MAX};
pub use faults::{DiskFault, Failed};
pub use frozen::Frozen;
pub use frozen_ranges::FrozenRanges;
pub use keep::Keep;
pub use machine_clock::MachineClock;
pub use mem_clock::MemClock;
pub use mem_disk::{MemDisk, Room};
pub use mem_keep::MemKeep;
pub use mem_reader::MemReader;
pub use mem_sink::MemSink;
pub use mem_source::MemSource;
pub use reader::Reader;
pub use std_streams::{StdSink, StdSource};
pub use stream::{Sink, Source};
