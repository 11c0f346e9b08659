//! What consumer groups keep: the offset that a group stored for a queue, until it stores another, and which of its clients has
//! a queue for itself.

ghost use Rattle.std.specs.Prelude.{◌≡◌, ◌==◌, ◌&&◌, ℕ, List, Some, None, if◌then◌else◌, OnOk, OnErr};
ghost use Rattle.std.specs.Prelude.{IfOk, All};
ghost use Rattle.std.specs.Str.{bytes_eq};
ghost use Rattle.broker_model.specs.Tables.{OffsetRow, LockRow, offset_in, with_offset};
ghost use Rattle.broker_model.specs.Tables.{distinct_queues, granted, with_locks, without_locks};
ghost use Rattle.group_tables.specs.Held.{lock_of, HasLocks};
ghost use Rattle.group_tables.specs.Offsets.{offset_of, offset_row, HasOffsets, IsStored};

use crate::kept::{GroupOffset, rows_of};
use crate::locks::{Slots, grant, lock_all, unlock_all};
use crate::table::{ByGroup, set_value, value_of};
use request_fields::QueueName;
use std::alloc::{AllocError, Global};
use std::collections::HashMap;

/// What consumer groups keep.
#[derive(Drop)]
pub struct Groups {
    alloc: Global,
    offsets: ByGroup<u64>,
    slots: Slots,
}

impl Groups {
    /// No offsets and no locks; takes no memory.
    pub fn new(alloc: Global) -> Groups
        ensures offsets { (group topic : List ℕ) (queue : ℕ) → offset_of result group topic queue ≡ None }
        ensures locks { (group topic : List ℕ) (queue : ℕ) → lock_of result group topic queue ≡ None }
    {
        Groups {
            alloc,
            offsets: HashMap::new(alloc),
            slots: HashMap::new(alloc),
        }
    }

    /// The offset that a group stored for a queue, or `None` where it stored none.
    pub fn offset(&self, group: &str, topic: &str, queue: u32) -> Option<u64>
        ensures { result ≡ offset_of self.now group.now topic.now queue }
    {
        value_of(&self.offsets, group, topic, queue).copied()
    }

    /// Stores an offset of a group for a queue. At `Err` each offset is as before.
    pub fn set_offset(
        &mut self,
        group: &str,
        topic: &str,
        queue: u32,
        offset: u64,
    ) -> Result<(), AllocError>
        ensures stored { OnOk result ((g t : List ℕ) (q : ℕ) → offset_of self.new g t q
            ≡ (if bytes_eq group.now g && (bytes_eq topic.now t && (queue == q)) then Some offset else offset_of self.old g t q)) }
        ensures same { OnErr result ((g t : List ℕ) (q : ℕ) → offset_of self.new g t q ≡ offset_of self.old g t q) }

        // What equals rows equals these with the new one then.
        ensures rows { OnOk result ((rows : List OffsetRow) → HasOffsets self.old rows
            → HasOffsets self.new (with_offset (offset_row group.now topic.now queue offset) rows)) }

        ensures locks { (g t : List ℕ) (q : ℕ) → lock_of self.new g t q ≡ lock_of self.old g t q }
    {
        set_value(self.alloc, &mut self.offsets, group, topic, queue, offset)
    }

    /// The offsets that groups stored, a row for each, in any order.
    pub fn stored(&self) -> Result<Vec<GroupOffset>, AllocError>
        ensures same { IfOk result (λ rows. (group topic : List ℕ) (queue : ℕ)
            → offset_in rows.items group topic queue ≡ offset_of self.now group topic queue) }
        ensures each { IfOk result (λ rows. All (IsStored self.now) rows.items) }
    {
        rows_of(self.alloc, &self.offsets)
    }

    /// Those of the queues that the client would get: those that are free, its own, or whose lock was last renewed more than
    /// 60,000 ms before `now` or after it; each once, in the order of the request, under the name of its first broker.
    /// `now` is a reading of the clock, which may have been set back since.
    pub fn granted(
        &self,
        group: &str,
        client: &str,
        queues: &[QueueName],
        now: u64,
    ) -> Result<Vec<QueueName>, AllocError>
        ensures granted { IfOk result (λ given. (rows : List LockRow) → HasLocks self.now rows
            → given.items ≡ granted now group.now client.now rows queues.now) }
        ensures once { IfOk result (λ given. distinct_queues given.items ≡ given.items) }
    {
        grant(self.alloc, &self.slots, group, client, queues, now)
    }

    /// The client has each of these queues from `now` on, whoever had it. At `Err` each lock is as before.
    pub fn lock(
        &mut self,
        group: &str,
        client: &str,
        queues: &[QueueName],
        now: u64,
    ) -> Result<(), AllocError>
        requires once { distinct_queues queues.now ≡ queues.now }
        ensures locked { OnOk result ((rows : List LockRow) → HasLocks self.old rows
            → HasLocks self.new (with_locks now group.now client.now queues.now rows)) }
        ensures same { OnErr result ((g t : List ℕ) (q : ℕ) → lock_of self.new g t q ≡ lock_of self.old g t q) }
        ensures offsets { (g t : List ℕ) (q : ℕ) → offset_of self.new g t q ≡ offset_of self.old g t q }
    {
        lock_all(self.alloc, &mut self.slots, group, client, queues, now)
    }

    /// The client gets those of the queues that are `granted` to it. At `Err` each lock is as before.
    pub fn lock_batch(
        &mut self,
        group: &str,
        client: &str,
        queues: &[QueueName],
        now: u64,
    ) -> Result<Vec<QueueName>, AllocError>
        ensures granted { IfOk result (λ given. (rows : List LockRow) → HasLocks self.old rows
            → given.items ≡ granted now group.now client.now rows queues.now) }
        ensures locked { IfOk result (λ given. (rows : List LockRow) → HasLocks self.old rows
            → HasLocks self.new (with_locks now group.now client.now given.items rows)) }
        ensures same { OnErr result ((g t : List ℕ) (q : ℕ) → lock_of self.new g t q ≡ lock_of self.old g t q) }
        ensures offsets { (g t : List ℕ) (q : ℕ) → offset_of self.new g t q ≡ offset_of self.old g t q }
    {
        let given = self.granted(group, client, queues, now)?;
        self.lock(group, client, given.as_slice(), now)?;
        Ok(given)
    }

    /// Frees those of the queues that the client has. Takes no memory.
    pub fn unlock_batch(&mut self, group: &str, client: &str, queues: &[QueueName])
        ensures unlocked { (rows : List LockRow) → HasLocks self.old rows
            → HasLocks self.new (without_locks group.now client.now queues.now rows) }
        ensures offsets { (g t : List ℕ) (q : ℕ) → offset_of self.new g t q ≡ offset_of self.old g t q }
    {
        unlock_all(&mut self.slots, group, client, queues);
    }
}
