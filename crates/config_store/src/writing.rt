//! Writes the two texts. A row's place among the rows doesn't show in them: names stand in byte order.
//!
//! | file                  | text                                   |
//! |-----------------------|----------------------------------------|
//! | `consumerOffset.json` | `{"offsetTable":{"T@G":{"0":1}}}`      |
//! | `topics.json`         | `{"topicConfigTable":{"T":{"queues":4}}}` |
//!
//! `T` is a topic, `G` a group, `"0"` a queue, `1` its offset, and `4` how many queues a topic has.

ghost use Rattle.std.specs.Prelude.{◌≡◌, string_bytes, unwrap_or, IfOk, OnOk, false};
ghost use Rattle.serde_json.specs.Data.{Data, object, put, member, no_members};
ghost use Rattle.serde_json.specs.Find.{as_object};
ghost use Rattle.serde_json.specs.View.{view, members_view};
ghost use Rattle.serde_json.specs.Written.{compact_text, members_have_float};
ghost use Rattle.config_store.specs.Texts.{key_of, members_at, with_offset_row, with_topic_row};
ghost use Rattle.config_store.specs.Texts.{offset_members, topic_members, offsets_text_of, topics_text_of};

use client_tables::TopicQueues;
use group_tables::GroupOffset;
use itoa::Buffer;
use serde_json::{Map, Value};
use std::alloc::{AllocError, Global};

// The name of a group's offsets of a topic: the topic, `@` and the group.
fn key_text(alloc: Global, row: &GroupOffset) -> Result<String, AllocError>
    ensures { IfOk result (λ key. string_bytes key ≡ key_of row.now.topic row.now.group) }
{
    let mut key = String::from_str(alloc, row.topic.as_str())?;
    key.push('@')?;
    key.push_str(row.group.as_str())?;
    Ok(key)
}

// The members of the value, none where it is no object.
fn object_or_empty(alloc: Global, value: Value) -> Map<String, Value>
    ensures { members_view result.entries ≡ unwrap_or (as_object (view value)) no_members }
{
    match value {
        Value::Object(members) => members,
        _ => Map::new(alloc),
    }
}

// Takes the object at this name out, or makes an empty one. What is put there next replaces it.
fn take_queues(alloc: Global, table: &mut Map<String, Value>, key: &str) -> Map<String, Value>
    ensures taken { members_view result.entries ≡ members_at key.now (members_view table.old.entries) }
    ensures back { (d : Data) → put key.now d (members_view table.new.entries) ≡ put key.now d (members_view table.old.entries) }
{
    // Read once, so that the names are known to ascend.
    let _names = table.len();
    match table.remove(key) {
        Some(value) => object_or_empty(alloc, value),
        None => Map::new(alloc),
    }
}

// Adds a row in front of those that the table has: it counts before them.
fn put_offset(
    alloc: Global,
    table: &mut Map<String, Value>,
    row: &GroupOffset,
) -> Result<(), AllocError>
    ensures { OnOk result (members_view table.new.entries ≡ with_offset_row row.now (members_view table.old.entries)) }
{
    let key = key_text(alloc, row)?;
    let mut queues = take_queues(alloc, table, key.as_str());
    let mut buffer = Buffer::new();
    let queue = buffer.format(row.queue);
    serde_json::put(&mut queues, alloc, queue, Value::from(row.offset))?;
    serde_json::put(table, alloc, key.as_str(), Value::from(queues))
}

// The table of these rows.
fn offsets_table(alloc: Global, rows: &[GroupOffset]) -> Result<Map<String, Value>, AllocError>
    ensures { IfOk result (λ table. members_view table.entries ≡ offset_members rows.now) }
{
    let mut table = Map::new(alloc);
    let mut left = rows;
    while let Some((row, front)) = left.split_last() {
        put_offset(alloc, &mut table, row)?;
        left = front;
    }
    Ok(table)
}

// Adds a topic in front of those that the table has: it counts before them.
fn put_topic(
    alloc: Global,
    table: &mut Map<String, Value>,
    row: &TopicQueues,
) -> Result<(), AllocError>
    ensures { OnOk result (members_view table.new.entries ≡ with_topic_row row.now (members_view table.old.entries)) }
{
    let mut settings = Map::new(alloc);
    serde_json::put(&mut settings, alloc, "queues", Value::from(row.queues))?;
    serde_json::put(table, alloc, row.topic.as_str(), Value::from(settings))
}

// The table of these topics.
fn topics_table(alloc: Global, rows: &[TopicQueues]) -> Result<Map<String, Value>, AllocError>
    ensures { IfOk result (λ table. members_view table.entries ≡ topic_members rows.now) }
{
    let mut table = Map::new(alloc);
    let mut left = rows;
    while let Some((row, front)) = left.split_last() {
        put_topic(alloc, &mut table, row)?;
        left = front;
    }
    Ok(table)
}

// The text of an object with this table alone.
fn text_with(alloc: Global, name: &str, table: Map<String, Value>) -> Result<Vec<u8>, AllocError>
    ensures { IfOk result (λ text. members_have_float (members_view table.entries) ≡ false
        → text.items ≡ compact_text (object (member name.now (object (members_view table.entries)) no_members))) }
{
    let mut members = Map::new(alloc);
    serde_json::put(&mut members, alloc, name, Value::from(table))?;
    let value = Value::from(members);
    value.to_vec(alloc)
}

/// The text of the file of offsets, for these rows in any order. Of two rows of one group and queue the first counts.
pub fn offsets_text(alloc: Global, rows: &[GroupOffset]) -> Result<Vec<u8>, AllocError>
    ensures { IfOk result (λ text. text.items ≡ offsets_text_of rows.now) }
{
    let table = offsets_table(alloc, rows)?;
    text_with(alloc, "offsetTable", table)
}

/// The text of the file of topics, for these rows in any order. Of two rows of one topic the first counts.
pub fn topics_text(alloc: Global, rows: &[TopicQueues]) -> Result<Vec<u8>, AllocError>
    ensures { IfOk result (λ text. text.items ≡ topics_text_of rows.now) }
{
    let table = topics_table(alloc, rows)?;
    text_with(alloc, "topicConfigTable", table)
}
