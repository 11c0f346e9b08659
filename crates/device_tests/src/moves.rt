//! Which devices may go to another thread: each type is named to a function that asks for `Send`.

use mq_folder::{FolderDisk, FolderKeep, FolderReader};
use mq_outside::{
    FrozenRanges, MachineClock, MemClock, MemDisk, MemKeep, MemReader, MemSink, MemSource, StdSink,
    StdSource,
};
use mq_peers::{MemDoor, MemLink, MemReady, TcpDoor, TcpLink, TcpReady, TcpWaker};

fn may_move_to_another_thread<T: Send>() {}

/// Those of the disk, the keep, the streams and the clock.
pub fn move_outside() {
    may_move_to_another_thread::<MemDisk>();
    may_move_to_another_thread::<MemReader>();
    may_move_to_another_thread::<FolderDisk<HostRuntime>>();
    may_move_to_another_thread::<FolderReader<HostRuntime>>();
    may_move_to_another_thread::<FrozenRanges>();
    may_move_to_another_thread::<MemKeep>();
    may_move_to_another_thread::<FolderKeep<HostRuntime>>();
    may_move_to_another_thread::<MemSource>();
    may_move_to_another_thread::<StdSource>();
    may_move_to_another_thread::<MemSink>();
    may_move_to_another_thread::<StdSink>();
    may_move_to_another_thread::<MemClock>();
    may_move_to_another_thread::<MachineClock<HostRuntime>>();
}

/// Those of the peers.
pub fn move_peers() {
    may_move_to_another_thread::<MemLink>();
    may_move_to_another_thread::<MemDoor<MemLink>>();
    may_move_to_another_thread::<MemReady<MemLink>>();
    may_move_to_another_thread::<TcpLink>();
    may_move_to_another_thread::<TcpDoor<HostRuntime>>();
    may_move_to_another_thread::<TcpReady<HostRuntime>>();
    may_move_to_another_thread::<TcpWaker>();
}
