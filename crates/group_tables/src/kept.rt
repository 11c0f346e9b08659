//! The offsets that groups stored, as rows for who keeps them over a restart.

ghost use Rattle.std.specs.Prelude.{◌≡◌, ◌&&◌, ◌++◌, ℕ, List, All, None, OnOk, IfOk, if◌then◌else◌};
ghost use Rattle.std.specs.Option.{option_or};
ghost use Rattle.std.specs.Str.{bytes_eq};
ghost use Rattle.broker_model.specs.Tables.{OffsetRow, offset_in};
ghost use Rattle.group_tables.specs.Offsets.{offset_row, IsOfQueues, IsOfTopics, IsOfGroups};
ghost use Rattle.group_tables.specs.Table.{in_queues, in_topics, in_groups};

use crate::table::{ByGroup, ByQueue, ByTopic};
use mq_bytes::Text;
use std::alloc::{AllocError, Global};
use std::marker::Model;

/// The offset that a consumer group stored for a queue.
#[derive(Debug, Drop)]
pub struct GroupOffset {
    pub group: Text,
    pub topic: Text,
    pub queue: u32,
    pub offset: u64,
}

impl Model for GroupOffset {
    ghost use Rattle.broker_model.specs.Tables.{OffsetRow};

    ghost Value = { OffsetRow };

    ghost view = { λ r. record { group = r.group; topic = r.topic; queue = r.queue; offset = r.offset } };
}

fn text(alloc: Global, text: &str) -> Result<Text, AllocError>
    ensures { IfOk result (λ copy. copy ≡ text.now) }
{
    Ok(Text::of(String::from_str(alloc, text)?))
}

fn row_of(
    alloc: Global,
    group: &str,
    topic: &str,
    queue: u32,
    offset: u64,
) -> Result<GroupOffset, AllocError>
    ensures { IfOk result (λ row. row ≡ offset_row group.now topic.now queue offset) }
{
    Ok(GroupOffset {
        group: text(alloc, group)?,
        topic: text(alloc, topic)?,
        queue,
        offset,
    })
}

// Appends the rows of a topic. What was found before is found as it was.
fn put_queues(
    alloc: Global,
    rows: &mut Vec<GroupOffset>,
    group: &str,
    topic: &str,
    queues: &ByQueue<u64>,
) -> Result<(), AllocError>
    ensures found { OnOk result ((g t : List ℕ) (q : ℕ) → offset_in rows.new.items g t q
        ≡ option_or (offset_in rows.old.items g t q)
        (if bytes_eq group.now g && bytes_eq topic.now t then in_queues queues.now q else None)) }
    ensures each { OnOk result ((more : List OffsetRow) × (rows.new.items ≡ rows.old.items ++ more)
        × All (IsOfQueues group.now topic.now queues.now) more) }
{
    for (queue, offset) in queues.iter() {
        rows.push(row_of(alloc, group, topic, *queue, *offset)?)?;
    }
    Ok(())
}

// Appends the rows of a group. What was found before is found as it was.
fn put_topics(
    alloc: Global,
    rows: &mut Vec<GroupOffset>,
    group: &str,
    topics: &ByTopic<u64>,
) -> Result<(), AllocError>
    ensures found { OnOk result ((g t : List ℕ) (q : ℕ) → offset_in rows.new.items g t q
        ≡ option_or (offset_in rows.old.items g t q) (if bytes_eq group.now g then in_topics topics.now t q else None)) }
    ensures each { OnOk result ((more : List OffsetRow) × (rows.new.items ≡ rows.old.items ++ more)
        × All (IsOfTopics group.now topics.now) more) }
{
    for (topic, queues) in topics.iter() {
        put_queues(alloc, rows, group, topic.as_str(), queues)?;
    }
    Ok(())
}

/// The rows of all groups.
pub(crate) fn rows_of(alloc: Global, groups: &ByGroup<u64>) -> Result<Vec<GroupOffset>, AllocError>
    ensures found { IfOk result (λ rows. (g t : List ℕ) (q : ℕ) → offset_in rows.items g t q ≡ in_groups groups.now g t q) }
    ensures each { IfOk result (λ rows. All (IsOfGroups groups.now) rows.items) }
{
    let mut rows = Vec::new(alloc);
    for (group, topics) in groups.iter() {
        put_topics(alloc, &mut rows, group.as_str(), topics)?;
    }
    Ok(rows)
}
