//! The parts of the core. Each has its own contract; what they say together of a state is `Represents`.

use broker_events::Setup;
use client_tables::{Clients, Topics};
use group_tables::Groups;
use half_records::Halves;
use key_view::KeyView;
use level_records::Levels;
use mq_outside::FrozenRanges;
use pending_log::{Pending, Rows};
use queue_view::QueueView;

/// All that the broker keeps in memory.
#[derive(Drop)]
pub struct Parts {
    // Constant.
    pub setup: Setup,
    // The log: where each record stands, what isn't on the disk yet, and the ranges that are.
    pub rows: Rows,
    pub pending: Pending,
    pub stored: FrozenRanges,
    // The keys of the records.
    pub keys: KeyView,
    // The half messages, and the delayed messages of each level.
    pub halves: Halves,
    pub levels: Levels,
    // The tables of queues, and of topics.
    pub queues: QueueView,
    pub topics: Topics,
    // The offsets that consumer groups stored, and which of their clients has a queue for itself.
    pub groups: Groups,
    // Their clients, and what these subscribed to.
    pub clients: Clients,
    // How many records consumers see, the removed ones counted, and the greatest time so far, in milliseconds.
    pub dispatched: u64,
    pub now: u64,
}
