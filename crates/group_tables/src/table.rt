//! A value for each queue of each group: by the group, in it by the topic, and there by the queue's number. A look-up makes no text.

ghost use Rattle.std.specs.Prelude.{◌≡◌, ◌==◌, ◌&&◌, ℕ, List, Some, option_copied, if◌then◌else◌, OnOk, OnErr};
ghost use Rattle.std.specs.Option.{option_and};
ghost use Rattle.std.specs.Str.{bytes_eq};
ghost use Rattle.group_tables.specs.Table.{in_queues, in_topics, in_groups};

use std::alloc::{AllocError, Global};
use std::collections::HashMap;

/// The values of a topic, by the queue's number.
pub(crate) type ByQueue<V> = HashMap<u32, V>;

/// The values of a group, by the topic.
pub(crate) type ByTopic<V> = HashMap<String, ByQueue<V>>;

/// The values of all groups, by the group.
pub(crate) type ByGroup<V> = HashMap<String, ByTopic<V>>;

/// The value of this queue of the group.
pub(crate) fn value_of<'a, V>(
    groups: &'a ByGroup<V>,
    group: &str,
    topic: &str,
    queue: u32,
) -> Option<&'a V>
    ensures { option_copied result ≡ in_groups groups.now group.now topic.now queue }
{
    groups.get(group)?.get(topic)?.get(&queue)
}

// Gives the queue this value. At `Err` each queue has the value that it had.
fn set_in_queues<V: Drop>(queues: &mut ByQueue<V>, queue: u32, value: V) -> Result<(), AllocError>
    ensures set { OnOk result ((other : ℕ)
        → in_queues queues.new other ≡ (if queue == other then Some value else in_queues queues.old other)) }
    ensures same { OnErr result ((other : ℕ) → in_queues queues.new other ≡ in_queues queues.old other) }
{
    queues.insert(queue, value)?;
    Ok(())
}

// Gives the queue of the topic this value. At `Err` each queue has the value that it had.
fn set_in_topics<V: Drop>(
    alloc: Global,
    topics: &mut ByTopic<V>,
    topic: &str,
    queue: u32,
    value: V,
) -> Result<(), AllocError>
    ensures set { OnOk result ((other : List ℕ) (at : ℕ) → in_topics topics.new other at
        ≡ (if bytes_eq topic.now other && (queue == at) then Some value else in_topics topics.old other at)) }
    ensures same { OnErr result ((other : List ℕ) (at : ℕ) → in_topics topics.new other at ≡ in_topics topics.old other at) }
{
    if let Some(queues) = topics.get_mut(topic) {
        set_in_queues(queues, queue, value)?;
        return Ok(());
    }
    let mut queues = HashMap::new(alloc);
    set_in_queues(&mut queues, queue, value)?;
    let name = String::from_str(alloc, topic)?;
    topics.insert(name, queues)?;
    Ok(())
}

/// Gives the queue of the group this value. At `Err` each queue has the value that it had.
pub(crate) fn set_value<V: Drop>(
    alloc: Global,
    groups: &mut ByGroup<V>,
    group: &str,
    topic: &str,
    queue: u32,
    value: V,
) -> Result<(), AllocError>
    ensures set { OnOk result ((g t : List ℕ) (q : ℕ) → in_groups groups.new g t q
        ≡ (if bytes_eq group.now g && (bytes_eq topic.now t && (queue == q)) then Some value else in_groups groups.old g t q)) }
    ensures same { OnErr result ((g t : List ℕ) (q : ℕ) → in_groups groups.new g t q ≡ in_groups groups.old g t q) }
{
    if let Some(topics) = groups.get_mut(group) {
        set_in_topics(alloc, topics, topic, queue, value)?;
        return Ok(());
    }
    let mut topics = HashMap::new(alloc);
    set_in_topics(alloc, &mut topics, topic, queue, value)?;
    let name = String::from_str(alloc, group)?;
    groups.insert(name, topics)?;
    Ok(())
}

// Where the queue has a value, it has this one then, or none.
fn change_in_queues<V: Drop>(queues: &mut ByQueue<V>, queue: u32, value: Option<V>)
    ensures { (other : ℕ) → in_queues queues.new other
        ≡ (if queue == other then option_and (in_queues queues.old other) value else in_queues queues.old other) }
{
    match value {
        Some(value) => {
            if let Some(kept) = queues.get_mut(&queue) {
                *kept = value;
            }
        }
        None => {
            queues.remove(&queue);
        }
    }
}

// Where the queue of the topic has a value, it has this one then, or none.
fn change_in_topics<V: Drop>(topics: &mut ByTopic<V>, topic: &str, queue: u32, value: Option<V>)
    ensures { (other : List ℕ) (at : ℕ) → in_topics topics.new other at
        ≡ (if bytes_eq topic.now other && (queue == at) then option_and (in_topics topics.old other at) value
        else in_topics topics.old other at) }
{
    if let Some(queues) = topics.get_mut(topic) {
        change_in_queues(queues, queue, value);
    }
}

/// Where the queue of the group has a value, it has this one then, or none. Takes no memory.
pub(crate) fn change_value<V: Drop>(
    groups: &mut ByGroup<V>,
    group: &str,
    topic: &str,
    queue: u32,
    value: Option<V>,
)
    ensures { (g t : List ℕ) (q : ℕ) → in_groups groups.new g t q
        ≡ (if bytes_eq group.now g && (bytes_eq topic.now t && (queue == q)) then option_and (in_groups groups.old g t q) value
        else in_groups groups.old g t q) }
{
    if let Some(topics) = groups.get_mut(group) {
        change_in_topics(topics, topic, queue, value);
    }
}
