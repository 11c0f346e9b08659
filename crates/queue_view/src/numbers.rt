//! The numbers of the queues' tables: by topic, and in a topic by the queue's number. A look-up makes no text.

ghost use Rattle.std.specs.Prelude.{◌≡◌, ◌==◌, ◌&&◌, ◌<◌, ◌+◌, ◌^◌, ℕ, List, [], slice_index, if◌then◌else◌, OnOk, OnErr};
ghost use Rattle.std.specs.Str.{bytes_eq};
ghost use Rattle.queue_view.specs.Numbers.{kept_for, number_kept};

use std::alloc::{AllocError, Global};
use std::collections::HashMap;
use std::marker::Model;

/// The numbers of the tables of a topic's queues: at each queue one more than its table's number, 0 where it has none.
#[derive(Drop)]
pub(crate) struct QueueNumbers {
    of_queues: Vec<u32>,
}

impl Model for QueueNumbers {
    ghost use Rattle.std.specs.Prelude.{List, ℕ};

    ghost Value = { List ℕ };

    ghost view = { λ numbers. numbers.of_queues.items };
}

impl QueueNumbers {
    // No queue has a table.
    fn new(alloc: Global) -> QueueNumbers
        ensures { result ≡ [] }
    {
        QueueNumbers {
            of_queues: Vec::new(alloc),
        }
    }

    // What is kept for this queue.
    fn at(&self, queue: u32) -> u32
        ensures { result ≡ slice_index self.now queue }
    {
        match self.of_queues.get(queue as usize) {
            Some(kept) => *kept,
            None => 0,
        }
    }

    // Keeps this for the queue.
    fn set(&mut self, queue: u32, kept: u32) -> Result<(), AllocError>
        ensures set { OnOk result ((other : ℕ)
            → slice_index self.new other ≡ (if queue == other then kept else slice_index self.old other)) }
        ensures same { OnErr result ((other : ℕ) → slice_index self.new other ≡ slice_index self.old other) }
    {
        set_at(&mut self.of_queues, queue as usize, kept)
    }
}

// Writes what is kept at this place, behind zeros where the list is shorter.
fn set_at(list: &mut Vec<u32>, at: usize, kept: u32) -> Result<(), AllocError>
    requires { at < 2 ^ 32 }
    ensures set { OnOk result ((other : ℕ)
        → slice_index list.new.items other ≡ (if at == other then kept else slice_index list.old.items other)) }
    ensures same { OnErr result ((other : ℕ) → slice_index list.new.items other ≡ slice_index list.old.items other) }
{
    if at < list.len() {
        list[at] = kept;
        return Ok(());
    }
    for _ in list.len()..at {
        list.push(0)?;
    }
    list.push(kept)?;
    Ok(())
}

/// The number of the table of this queue.
pub(crate) fn number_in(
    numbers: &HashMap<String, QueueNumbers>,
    topic: &str,
    queue: u32,
) -> Option<u32>
    ensures { result ≡ number_kept (kept_for numbers.now topic.now queue) }
{
    let kept = match numbers.get(topic) {
        Some(of_topic) => of_topic.at(queue),
        None => 0,
    };
    kept.checked_sub(1)
}

/// Gives this queue's table the number. At `Err` each queue has the number that it had.
pub(crate) fn set_number(
    alloc: Global,
    numbers: &mut HashMap<String, QueueNumbers>,
    topic: &str,
    queue: u32,
    number: u32,
) -> Result<(), AllocError>
    requires { number + 1 < 2 ^ 32 }
    ensures kept { OnOk result ((other : List ℕ) (at : ℕ) → kept_for numbers.new other at
        ≡ (if bytes_eq topic.now other && (queue == at) then number + 1 else kept_for numbers.old other at)) }
    ensures same { OnErr result ((other : List ℕ) (at : ℕ) → kept_for numbers.new other at ≡ kept_for numbers.old other at) }
{
    if let Some(of_topic) = numbers.get_mut(topic) {
        of_topic.set(queue, number + 1)?;
        return Ok(());
    }
    let mut of_topic = QueueNumbers::new(alloc);
    of_topic.set(queue, number + 1)?;
    let name = String::from_str(alloc, topic)?;
    numbers.insert(name, of_topic)?;
    Ok(())
}
