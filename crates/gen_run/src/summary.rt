//! What the generator tells at its end.

/// What a store holds that the generator filled: how many items were given from which start on, and of the log how many records, of
/// each queue, half messages and what became of them, and delayed messages; and how many pulls found messages.
#[derive(Clone, Copy, Debug, PartialEq, Eq)]
pub(crate) struct Summary {
    pub(crate) items: u32,
    pub(crate) start: u32,
    pub(crate) records: u64,
    pub(crate) queues: [u64; 4],
    pub(crate) halves: u64,
    pub(crate) committed: u64,
    pub(crate) rolled_back: u64,
    pub(crate) left_open: u64,
    pub(crate) delayed: u64,
    pub(crate) delivered: u64,
    pub(crate) found: u32,
}
