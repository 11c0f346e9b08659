//! Reads the two texts. Only what a broker writes is of its form: what was read is written once more and compared, so the same
//! JSON in another spelling, with names in another order, or with a name that comes twice, is refused.

ghost use Rattle.std.specs.Prelude.{◌≡◌, ◌<◌, ◌++◌, ◌∷◌, ◌^◌, ℕ, [], List, All, Err, IfOk, OnOk, Some, MatchOption};
ghost use Rattle.std.specs.Prelude.{IfSome, codes, option_and_then, string_bytes, true};
ghost use Rattle.std.specs.Str.{IsUtf8};
ghost use Rattle.request_fields.specs.Clients.{IsName};
ghost use Rattle.mq_bytes.specs.Decimal.{digits_of};
ghost use Rattle.record_codec.specs.Layout.{is_legal};
ghost use Rattle.broker_model.specs.Tables.{OffsetRow, TopicRow};
ghost use Rattle.serde_json.specs.Data.{object};
ghost use Rattle.serde_json.specs.Find.{get, as_object};
ghost use Rattle.serde_json.specs.Read.{read as read_data};
ghost use Rattle.serde_json.specs.View.{view, members_view};
ghost use Rattle.config_store.specs.declared.text_fault.TextFault.TheVariants.{Bad};
ghost use Rattle.config_store.specs.Texts.{key_of, IsOffset, IsKeptTopic, offsets_text_of, topics_text_of};
ghost use Rattle.config_store.specs.Reads.{number_in, AreKeyRows, AreQueueRows, AreTableRows, AreTopicRows};
ghost use Rattle.config_store.specs.Configs.{IsOffsetsText, IsTopicsText};

use crate::text_fault::TextFault;
use crate::writing::{offsets_text, topics_text};
use client_tables::TopicQueues;
use group_tables::GroupOffset;
use itoa::Buffer;
use log_model::is_system_topic;
use mq_bytes::Text;
use record_codec::is_legal_topic;
use serde_json::{Map, Value};
use std::alloc::Global;

// Queues have numbers of 31 bits, and offsets have 62.
const QUEUE_END: u32 = 1 << 31;

const OFFSET_END: u64 = 1 << 62;

const NAME_MAX: usize = 120;

const QUEUES_MAX: u64 = 1024;

// The topic and the group that a name of the table of offsets has.
fn read_key(name: &str) -> Option<(&str, &str)>
    ensures found { IfSome result (λ r. (name.now ≡ key_of r.0.now r.1.now) × (is_legal r.0.now ≡ true) × IsName r.1.now) }
    ensures exact { (topic group : List ℕ) → name.now ≡ key_of topic group → is_legal topic ≡ true → IsName group
        → MatchOption result ⊥ (λ r. (r.0.now ≡ topic) × (r.1.now ≡ group)) }
{
    let (topic, group) = name.split_once('@')?;
    let size = group.len();
    if is_legal_topic(topic) && size > 0 && size <= NAME_MAX {
        Some((topic, group))
    } else {
        None
    }
}

// The number of the queue that the text writes.
fn read_queue(text: &str) -> Option<u32>
    ensures found { IfSome result (λ n. (text.now ≡ digits_of n) × (n < 2 ^ 31)) }
    ensures exact { (n : ℕ) → text.now ≡ digits_of n → n < 2 ^ 31 → result ≡ Some n }
{
    let Ok(n) = text.parse::<u32>() else {
        return None;
    };
    // `parse` takes a `+` and leading zeros, which are in no number that is written.
    if n >= QUEUE_END || Buffer::new().format(n) != text {
        return None;
    }
    Some(n)
}

// The offset that the value is.
fn read_offset(value: &Value) -> Option<u64>
    ensures found { IfSome result (λ n. (number_in (view value.now) ≡ Some n) × (n < 2 ^ 62)) }
    ensures exact { (n : ℕ) → number_in (view value.now) ≡ Some n → n < 2 ^ 62 → result ≡ Some n }
{
    let offset = value.as_u64()?;
    if offset < OFFSET_END {
        Some(offset)
    } else {
        None
    }
}

// One row.
fn offset_row(
    alloc: Global,
    topic: &str,
    group: &str,
    name: &str,
    value: &Value,
) -> Result<GroupOffset, TextFault>
    requires legal { is_legal topic.now ≡ true }
    requires group { IsName group.now }
    ensures read { IfOk result (λ row. (row.topic ≡ topic.now) × (row.group ≡ group.now) × (name.now ≡ digits_of row.queue)
        × (number_in (view value.now) ≡ Some row.offset) × IsOffset row) }
    ensures bad { result ≡ Err Bad → (queue offset : ℕ) → queue < 2 ^ 31 → offset < 2 ^ 62 → name.now ≡ digits_of queue
        → number_in (view value.now) ≡ Some offset → ⊥ }
{
    let Some(queue) = read_queue(name) else {
        return Err(TextFault::Bad);
    };
    let Some(offset) = read_offset(value) else {
        return Err(TextFault::Bad);
    };
    let group = Text::of(String::from_str(alloc, group)?);
    let topic = Text::of(String::from_str(alloc, topic)?);
    Ok(GroupOffset {
        group,
        topic,
        queue,
        offset,
    })
}

// Adds the rows of one group and topic.
fn add_queues(
    alloc: Global,
    rows: &mut Vec<GroupOffset>,
    topic: &str,
    group: &str,
    queues: &Map<String, Value>,
) -> Result<(), TextFault>
    requires legal { is_legal topic.now ≡ true }
    requires group { IsName group.now }
    ensures read { OnOk result ((more : List OffsetRow) × (rows.new.items ≡ rows.old.items ++ more)
        × AreQueueRows topic.now group.now (members_view queues.now.entries) more × All IsOffset more) }
    ensures bad { result ≡ Err Bad → (more : List OffsetRow) → AreQueueRows topic.now group.now (members_view queues.now.entries) more
        → All IsOffset more → ⊥ }
{
    for (name, value) in queues.iter() {
        rows.push(offset_row(alloc, topic, group, name.as_str(), value)?)?;
    }
    Ok(())
}

// Adds the rows of one member of the table of offsets.
fn add_key(
    alloc: Global,
    rows: &mut Vec<GroupOffset>,
    name: &str,
    value: &Value,
) -> Result<(), TextFault>
    ensures read { OnOk result ((more : List OffsetRow) × (rows.new.items ≡ rows.old.items ++ more)
        × AreKeyRows name.now (view value.now) more × All IsOffset more) }
    ensures bad { result ≡ Err Bad → (more : List OffsetRow) → AreKeyRows name.now (view value.now) more → All IsOffset more → ⊥ }
{
    let Some((topic, group)) = read_key(name) else {
        return Err(TextFault::Bad);
    };
    let Value::Object(queues) = value else {
        return Err(TextFault::Bad);
    };
    if queues.is_empty() {
        return Err(TextFault::Bad);
    }
    add_queues(alloc, rows, topic, group, queues)
}

// The rows of the table of offsets.
fn table_rows(alloc: Global, table: &Map<String, Value>) -> Result<Vec<GroupOffset>, TextFault>
    ensures read { IfOk result (λ rows. AreTableRows (members_view table.now.entries) rows.items × All IsOffset rows.items) }
    ensures bad { result ≡ Err Bad → (rows : List OffsetRow) → AreTableRows (members_view table.now.entries) rows
        → All IsOffset rows → ⊥ }
{
    let mut rows = Vec::new(alloc);
    for (name, value) in table.iter() {
        add_key(alloc, &mut rows, name.as_str(), value)?;
    }
    Ok(rows)
}

// One topic.
fn topic_row(alloc: Global, name: &str, value: &Value) -> Result<TopicQueues, TextFault>
    ensures read { IfOk result (λ row. (row.topic ≡ name.now)
        × (option_and_then number_in (get (codes "queues") (view value.now)) ≡ Some row.queues) × IsKeptTopic row) }
    ensures bad { result ≡ Err Bad → (row : TopicRow) → row.topic ≡ name.now
        → option_and_then number_in (get (codes "queues") (view value.now)) ≡ Some row.queues → IsKeptTopic row → ⊥ }
{
    let Some(queues) = value.get("queues").and_then(Value::as_u64) else {
        return Err(TextFault::Bad);
    };
    if queues == 0 || queues > QUEUES_MAX || !is_legal_topic(name) || is_system_topic(name) {
        return Err(TextFault::Bad);
    }
    Ok(TopicQueues {
        topic: Text::of(String::from_str(alloc, name)?),
        queues: queues as u32,
    })
}

// The rows of the table of topics.
fn topic_rows(alloc: Global, table: &Map<String, Value>) -> Result<Vec<TopicQueues>, TextFault>
    ensures read { IfOk result (λ rows. AreTopicRows (members_view table.now.entries) rows.items × All IsKeptTopic rows.items) }
    ensures bad { result ≡ Err Bad → (rows : List TopicRow) → AreTopicRows (members_view table.now.entries) rows
        → All IsKeptTopic rows → ⊥ }
{
    let mut rows = Vec::new(alloc);
    for (name, value) in table.iter() {
        rows.push(topic_row(alloc, name.as_str(), value)?)?;
    }
    Ok(rows)
}

// The value that the text is.
fn value_of(alloc: Global, text: &[u8]) -> Result<Value, TextFault>
    ensures read { IfOk result (λ value. read_data text.now ≡ Some (view value)) }
    ensures bad { result ≡ Err Bad → IsUtf8 text.now → read_data text.now ≡ None }
{
    match Value::from_slice(alloc, text) {
        Ok(value) => Ok(value),
        Err(error) => {
            if error.is_memory() {
                Err(TextFault::Memory)
            } else {
                Err(TextFault::Bad)
            }
        }
    }
}

// The table that stands at this name.
fn table_in<'a>(value: &'a Value, name: &str) -> Result<&'a Map<String, Value>, TextFault>
    ensures read { IfOk result (λ table. option_and_then as_object (get name.now (view value.now))
        ≡ Some (members_view table.now.entries)) }
    ensures bad { result ≡ Err Bad → option_and_then as_object (get name.now (view value.now)) ≡ None }
{
    match value.get(name).and_then(Value::as_object) {
        Some(table) => Ok(table),
        None => Err(TextFault::Bad),
    }
}

// The rows of the text, if it is of the form, whatever its spelling.
fn offsets_in(alloc: Global, text: &[u8]) -> Result<Vec<GroupOffset>, TextFault>
    ensures each { IfOk result (λ rows. All IsOffset rows.items) }
    ensures read { (rows : List OffsetRow) → IsOffsetsText text.now rows → IfOk result (λ read. offsets_text_of read.items ≡ text.now) }
    ensures bad { result ≡ Err Bad → (rows : List OffsetRow) → IsOffsetsText text.now rows → ⊥ }
{
    let value = value_of(alloc, text)?;
    let table = table_in(&value, "offsetTable")?;
    table_rows(alloc, table)
}

/// The rows of the file of offsets.
pub(crate) fn read_offsets(alloc: Global, text: &[u8]) -> Result<Vec<GroupOffset>, TextFault>
    ensures read { IfOk result (λ rows. IsOffsetsText text.now rows.items) }
    ensures bad { result ≡ Err Bad → (rows : List OffsetRow) → IsOffsetsText text.now rows → ⊥ }
{
    let rows = offsets_in(alloc, text)?;
    if offsets_text(alloc, rows.as_slice())?.as_slice() == text {
        Ok(rows)
    } else {
        Err(TextFault::Bad)
    }
}

// The topics of the text, if it is of the form, whatever its spelling.
fn topics_in(alloc: Global, text: &[u8]) -> Result<Vec<TopicQueues>, TextFault>
    ensures each { IfOk result (λ rows. All IsKeptTopic rows.items) }
    ensures read { (rows : List TopicRow) → IsTopicsText text.now rows → IfOk result (λ read. topics_text_of read.items ≡ text.now) }
    ensures bad { result ≡ Err Bad → (rows : List TopicRow) → IsTopicsText text.now rows → ⊥ }
{
    let value = value_of(alloc, text)?;
    let table = table_in(&value, "topicConfigTable")?;
    topic_rows(alloc, table)
}

/// The rows of the file of topics.
pub(crate) fn read_topics(alloc: Global, text: &[u8]) -> Result<Vec<TopicQueues>, TextFault>
    ensures read { IfOk result (λ rows. IsTopicsText text.now rows.items) }
    ensures bad { result ≡ Err Bad → (rows : List TopicRow) → IsTopicsText text.now rows → ⊥ }
{
    let rows = topics_in(alloc, text)?;
    if topics_text(alloc, rows.as_slice())?.as_slice() == text {
        Ok(rows)
    } else {
        Err(TextFault::Bad)
    }
}
