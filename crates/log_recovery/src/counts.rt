//! How many records each queue of a topic has, by the queue's number.

ghost use Rattle.std.specs.Prelude.{◌≡◌, ◌==◌, ◌&&◌, ◌<◌, ◌^◌, ℕ, List, [], slice_index, if◌then◌else◌, IfOk, OnOk, OnErr};
ghost use Rattle.std.specs.Str.{bytes_eq};
ghost use Rattle.log_model.specs.Told.{counts_in};
ghost use Rattle.log_recovery.specs.Counts.{count_in};

use std::alloc::{AllocError, Global};
use std::collections::BTreeMap;
use std::marker::Model;

/// The counts of a topic's queues. Contracts see the list of them; a queue behind its end has none.
#[derive(Drop)]
pub(crate) struct QueueCounts {
    of_queues: Vec<u64>,
}

impl Model for QueueCounts {
    ghost use Rattle.std.specs.Prelude.{List, ℕ};

    ghost Value = { List ℕ };

    ghost view = { λ counts. counts.of_queues.items };
}

impl QueueCounts {
    /// No records.
    pub(crate) fn new(alloc: Global) -> QueueCounts
        ensures { result ≡ [] }
    {
        QueueCounts {
            of_queues: Vec::new(alloc),
        }
    }

    /// How many records this queue has.
    pub(crate) fn at(&self, queue: u32) -> u64
        ensures { result ≡ slice_index self.now queue }
    {
        match self.of_queues.get(queue as usize) {
            Some(count) => *count,
            None => 0,
        }
    }

    /// Gives this queue so many records.
    pub(crate) fn set(&mut self, queue: u32, count: u64) -> Result<(), AllocError>
        ensures set { OnOk result ((other : ℕ) → slice_index self.new other
            ≡ (if queue == other then count else slice_index self.old other)) }
        ensures same { OnErr result ((other : ℕ) → slice_index self.new other ≡ slice_index self.old other) }
    {
        set_at(&mut self.of_queues, queue as usize, count)
    }
}

// Writes the count at this place, behind zeros where the list is shorter.
fn set_at(counts: &mut Vec<u64>, at: usize, count: u64) -> Result<(), AllocError>
    requires { at < 2 ^ 32 }
    ensures set { OnOk result ((other : ℕ) → slice_index counts.new.items other
        ≡ (if at == other then count else slice_index counts.old.items other)) }
    ensures same { OnErr result ((other : ℕ) → slice_index counts.new.items other ≡ slice_index counts.old.items other) }
{
    if at < counts.len() {
        counts[at] = count;
        return Ok(());
    }
    for _ in counts.len()..at {
        counts.push(0)?;
    }
    counts.push(count)?;
    Ok(())
}

/// How many records this queue of the topic has.
pub(crate) fn count_of(counts: &BTreeMap<String, QueueCounts>, topic: &str, queue: u32) -> u64
    ensures { result ≡ count_in counts.now topic.now queue }
{
    match counts.get(topic) {
        Some(of_topic) => of_topic.at(queue),
        None => 0,
    }
}

/// Gives this queue of the topic so many records. At `Err` each queue has as many as before.
pub(crate) fn set_count(
    alloc: Global,
    counts: &mut BTreeMap<String, QueueCounts>,
    topic: &str,
    queue: u32,
    count: u64,
) -> Result<(), AllocError>
    ensures counted { OnOk result ((other : List ℕ) (number : ℕ) → count_in counts.new other number
        ≡ (if bytes_eq topic.now other && (queue == number) then count else count_in counts.old other number)) }
    ensures same { OnErr result ((other : List ℕ) (number : ℕ) → count_in counts.new other number ≡ count_in counts.old other number) }
{
    if let Some(of_topic) = counts.get_mut(topic) {
        of_topic.set(queue, count)?;
        return Ok(());
    }
    let mut of_topic = QueueCounts::new(alloc);
    of_topic.set(queue, count)?;
    let name = String::from_str(alloc, topic)?;
    counts.insert(name, of_topic)?;
    Ok(())
}

/// The counts of these entries, of which the last one counts where a queue has several.
pub(crate) fn counts_of(
    alloc: Global,
    entries: &[(String, u32, u64)],
) -> Result<BTreeMap<String, QueueCounts>, AllocError>
    ensures { IfOk result (λ counts. (topic : List ℕ) (queue : ℕ) → count_in counts topic queue ≡ counts_in entries.now topic queue) }
{
    let mut counts = BTreeMap::new(alloc);
    for entry in entries {
        set_count(alloc, &mut counts, entry.0.as_str(), entry.1, entry.2)?;
    }
    Ok(counts)
}
