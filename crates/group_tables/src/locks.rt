//! Which client of a group has which queue for itself. A lock that was last renewed more than 60,000 ms ago hinders nobody, and
//! neither does one from more than 60,000 ms ahead: the clock was set back since.

ghost use Rattle.std.specs.Prelude.{◌≡◌, ◌==◌, ◌&&◌, ◌<◌, ◌++◌, [], ◌∷◌, ℕ, List, length, take, filter, not, true, is_some};
ghost use Rattle.std.specs.Prelude.{All, IsTrue, Option, Some, None, option_copied, if◌then◌else◌, IfOk, OnOk, OnErr};
ghost use Rattle.std.specs.Option.{option_and};
ghost use Rattle.std.specs.List.{list_any};
ghost use Rattle.std.specs.Str.{bytes_eq};
ghost use Rattle.broker_model.specs.Tables.{LockRow, distinct_queues, granted, is_live, with_locks, without_locks};
ghost use Rattle.group_tables.specs.Table.{in_groups};
ghost use Rattle.group_tables.specs.declared.locks.Lock.{Lock};
ghost use Rattle.group_tables.specs.Locks.{lock_in, keeps_off, without_own, lock_from, names_queue};

use crate::table::{ByGroup, change_value, set_value, value_of};
use mq_bytes::Text;
use request_fields::QueueName;
use std::alloc::{AllocError, Global};
use std::collections::HashSet;

/// Who has a queue for itself, and the reading of the clock when it last asked for it, in milliseconds.
#[derive(Drop)]
pub(crate) struct Lock {
    client: Text,
    renewed: u64,
}

/// A place for the lock of each queue that was ever granted.
pub(crate) type Slots = ByGroup<Option<Lock>>;

// The lock on a queue.
fn lock_on<'a>(slots: &'a Slots, group: &str, queue: &QueueName) -> Option<&'a Lock>
    ensures { option_copied result ≡ lock_in slots.now group.now queue.now.topic queue.now.queue }
{
    match value_of(slots, group, queue.topic.as_str(), queue.queue) {
        Some(lock) => lock.as_ref(),
        None => None,
    }
}

// Two readings of the clock are at most 60,000 ms apart.
fn is_near(now: u64, renewed: u64) -> bool
    ensures { result ≡ is_live now renewed }
{
    now.saturating_sub(renewed) <= 60_000 && renewed.saturating_sub(now) <= 60_000
}

// Another client has the queue.
fn is_kept_off(slots: &Slots, group: &str, client: &str, queue: &QueueName, now: u64) -> bool
    ensures { result ≡ keeps_off now client.now (lock_in slots.now group.now queue.now.topic queue.now.queue) }
{
    match lock_on(slots, group, queue) {
        Some(lock) => lock.client.as_str() != client && is_near(now, lock.renewed),
        None => false,
    }
}

// The same name once more.
fn copied(alloc: Global, queue: &QueueName) -> Result<QueueName, AllocError>
    ensures { IfOk result (λ copy. copy ≡ queue.now) }
{
    let topic = String::from_str(alloc, queue.topic.as_str())?;
    let broker = String::from_str(alloc, queue.broker.as_str())?;
    Ok(QueueName {
        topic: Text::of(topic),
        broker: Text::of(broker),
        queue: queue.queue,
    })
}

// The queue comes to those that are granted, if it is new among them and no other client has it.
fn grant_next(
    alloc: Global,
    granted: &mut Vec<QueueName>,
    queue: &QueueName,
    is_new: bool,
    is_free: bool,
) -> Result<(), AllocError>
    ensures { OnOk result (granted.new.items ≡ granted.old.items ++ (if is_new && is_free then queue.now ∷ [] else [])) }
{
    if is_new && is_free {
        granted.push(copied(alloc, queue)?)?;
    }
    Ok(())
}

/// Those of the queues that no other client has, each once.
pub(crate) fn grant(
    alloc: Global,
    slots: &Slots,
    group: &str,
    client: &str,
    queues: &[QueueName],
    now: u64,
) -> Result<Vec<QueueName>, AllocError>
    ensures { IfOk result (λ granted. granted.items
        ≡ filter (λ q. not (keeps_off now client.now (lock_in slots.now group.now q.topic q.queue))) (distinct_queues queues.now)) }
{
    let mut seen: HashSet<(&str, u32)> = HashSet::new(alloc);
    let mut granted = Vec::new(alloc);
    for queue in queues {
        let is_new = seen.insert((queue.topic.as_str(), queue.queue))?;
        let is_free = !is_kept_off(slots, group, client, queue, now);
        grant_next(alloc, &mut granted, queue, is_new, is_free)?;
    }
    Ok(granted)
}

// Makes a place for the lock of a queue. Each lock stays, and each place.
fn make_slot(
    alloc: Global,
    slots: &mut Slots,
    group: &str,
    queue: &QueueName,
) -> Result<(), AllocError>
    ensures same { (g t : List ℕ) (q : ℕ) → lock_in slots.new g t q ≡ lock_in slots.old g t q }
    ensures there { OnOk result (is_some (in_groups slots.new group.now queue.now.topic queue.now.queue) ≡ true) }
    ensures stay { (g t : List ℕ) (q : ℕ) → is_some (in_groups slots.old g t q) ≡ true → is_some (in_groups slots.new g t q) ≡ true }
{
    if value_of(slots, group, queue.topic.as_str(), queue.queue).is_none() {
        set_value(alloc, slots, group, queue.topic.as_str(), queue.queue, None)?;
    }
    Ok(())
}

// Makes a place for the lock of each of these queues. Each lock stays.
fn make_slots(
    alloc: Global,
    slots: &mut Slots,
    group: &str,
    queues: &[QueueName],
) -> Result<(), AllocError>
    ensures same { (g t : List ℕ) (q : ℕ) → lock_in slots.new g t q ≡ lock_in slots.old g t q }
    ensures there { OnOk result (All (λ q. is_some (in_groups slots.new group.now q.topic q.queue) ≡ true) queues.now) }
{
    for queue in queues {
        make_slot(alloc, slots, group, queue)?;
    }
    Ok(())
}

// So many locks of the client.
fn locks_for(alloc: Global, client: &str, now: u64, count: usize) -> Result<Vec<Lock>, AllocError>
    ensures count { IfOk result (λ locks. length locks.items ≡ count) }
    ensures each { IfOk result (λ locks. All (λ lock. lock ≡ lock_from client.now now) locks.items) }
{
    let mut locks = Vec::new(alloc);
    for _ in 0..count {
        locks.push(Lock {
            client: Text::of(String::from_str(alloc, client)?),
            renewed: now,
        })?;
    }
    Ok(locks)
}

// Each of these queues that has a place has one of these locks then. Takes no memory.
fn put_locks(slots: &mut Slots, group: &str, queues: &[QueueName], locks: Vec<Lock>)
    requires { length locks.items ≡ length queues.now }
    ensures { (held : Lock) → All (λ lock. lock ≡ held) locks.items → (g t : List ℕ) (q : ℕ) → in_groups slots.new g t q
        ≡ (if bytes_eq group.now g && list_any (names_queue t q) queues.now then option_and (in_groups slots.old g t q) (Some (Some held))
        else in_groups slots.old g t q) }
{
    let mut left = locks;
    for queue in queues {
        match left.pop() {
            Some(lock) => put_lock(slots, group, queue, lock),
            None => unreachable!(),
        }
    }
}

// The queue has this lock, if it has a place.
fn put_lock(slots: &mut Slots, group: &str, queue: &QueueName, lock: Lock)
    ensures { (g t : List ℕ) (q : ℕ) → in_groups slots.new g t q
        ≡ (if bytes_eq group.now g && names_queue t q queue.now then option_and (in_groups slots.old g t q) (Some (Some lock))
        else in_groups slots.old g t q) }
{
    change_value(
        slots,
        group,
        queue.topic.as_str(),
        queue.queue,
        Some(Some(lock)),
    );
}

// The queue is free, if the client has it.
fn unlock(slots: &mut Slots, group: &str, client: &str, queue: &QueueName)
    ensures { (g t : List ℕ) (q : ℕ) → lock_in slots.new g t q
        ≡ (if bytes_eq group.now g && names_queue t q queue.now then without_own client.now (lock_in slots.old g t q)
        else lock_in slots.old g t q) }
{
    let is_own = match lock_on(slots, group, queue) {
        Some(lock) => lock.client.as_str() == client,
        None => false,
    };
    if is_own {
        change_value(slots, group, queue.topic.as_str(), queue.queue, None);
    }
}

/// Each of these queues that the client has is free then. Takes no memory.
pub(crate) fn unlock_all(slots: &mut Slots, group: &str, client: &str, queues: &[QueueName])
    ensures { (g t : List ℕ) (q : ℕ) → lock_in slots.new g t q
        ≡ (if bytes_eq group.now g && list_any (names_queue t q) queues.now then without_own client.now (lock_in slots.old g t q)
        else lock_in slots.old g t q) }
{
    for queue in queues {
        unlock(slots, group, client, queue);
    }
}

/// The client has each of these queues from now on. At `Err` each lock is as before.
pub(crate) fn lock_all(
    alloc: Global,
    slots: &mut Slots,
    group: &str,
    client: &str,
    queues: &[QueueName],
    now: u64,
) -> Result<(), AllocError>
    ensures locked { OnOk result ((g t : List ℕ) (q : ℕ) → lock_in slots.new g t q
        ≡ (if bytes_eq group.now g && list_any (names_queue t q) queues.now then Some (lock_from client.now now)
        else lock_in slots.old g t q)) }
    ensures same { OnErr result ((g t : List ℕ) (q : ℕ) → lock_in slots.new g t q ≡ lock_in slots.old g t q) }
{
    let locks = locks_for(alloc, client, now, queues.len())?;
    make_slots(alloc, slots, group, queues)?;
    put_locks(slots, group, queues, locks);
    Ok(())
}
