//! The kept files: documented texts, and their replacement.

use config_store::{
    Config, GroupOffset, TopicQueues, load_config, offsets_text, store_config, topics_text,
};
use mq_bytes::Text;
use mq_outside::MemKeep;
use std::alloc::{AllocError, Global};
use std::test::Fail;

const OFFSETS: &str = "consumerOffset.json";

const TOPICS: &str = "topics.json";

fn offset(
    alloc: Global,
    topic: &str,
    group: &str,
    queue: u32,
    offset: u64,
) -> Result<GroupOffset, AllocError> {
    Ok(GroupOffset {
        group: Text::of(String::from_str(alloc, group)?),
        topic: Text::of(String::from_str(alloc, topic)?),
        queue,
        offset,
    })
}

fn topic(alloc: Global, topic: &str, queues: u32) -> Result<TopicQueues, AllocError> {
    Ok(TopicQueues {
        topic: Text::of(String::from_str(alloc, topic)?),
        queues,
    })
}

#[test]
fn rows_in_any_order_are_written_in_byte_order(rt: HostRuntime) -> Result<(), Fail> {
    let alloc = rt.alloc();
    let none: &[GroupOffset] = &[];
    let text: &[u8] = b"{\"offsetTable\":{}}";
    assert!(rt; offsets_text(alloc, none)?.as_slice() == text);
    let rows = [
        offset(alloc, "T", "G", 2, 20)?,
        offset(alloc, "T", "g\"@", 0, 7)?,
        offset(alloc, "T", "G", 10, 4_611_686_018_427_387_903)?,
        offset(alloc, "A", "G", 0, 0)?,
        offset(alloc, "T", "G", 2, 1)?,
    ];
    let text: &[u8] =
        b"{\"offsetTable\":{\"A@G\":{\"0\":0},\"T@G\":{\"10\":4611686018427387903,\"2\":20},\"T@g\\\"@\":{\"0\":7}}}";
    assert!(rt; offsets_text(alloc, &rows)?.as_slice() == text);
    let topics = [topic(alloc, "b", 1024)?, topic(alloc, "T", 4)?];
    let text: &[u8] = b"{\"topicConfigTable\":{\"T\":{\"queues\":4},\"b\":{\"queues\":1024}}}";
    assert!(rt; topics_text(alloc, &topics)?.as_slice() == text);
    Ok(())
}

// One offset, of the group `G@H`, and one topic.
fn is_worked(config: &Config) -> bool {
    let ([row], [topic]) = (config.offsets.as_slice(), config.topics.as_slice()) else {
        return false;
    };
    row.topic.as_str() == "T"
        && row.group.as_str() == "G@H"
        && row.queue == 0
        && row.offset == 1
        && topic.topic.as_str() == "T"
        && topic.queues == 4
}

#[test]
fn what_was_stored_is_loaded(rt: HostRuntime) -> Result<(), Fail> {
    let alloc = rt.alloc();
    let mut keep = MemKeep::new(alloc, Vec::new(alloc), Vec::new(alloc))?;
    let rows = match load_config(alloc, &mut keep) {
        Ok(config) => config.offsets.len() + config.topics.len(),
        Err(_) => 1,
    };
    assert!(rt; rows == 0);
    let offsets: &[u8] = b"{\"offsetTable\":{\"T@G@H\":{\"0\":1}}}";
    let topics: &[u8] = b"{\"topicConfigTable\":{\"T\":{\"queues\":4}}}";
    assert!(rt; store_config(alloc, &mut keep, offsets, topics) == Ok(()));
    assert!(rt; keep.bytes(OFFSETS) == Some(offsets));
    assert!(rt; keep.bytes(TOPICS) == Some(topics));
    let is_loaded = match load_config(alloc, &mut keep) {
        Ok(config) => is_worked(&config),
        Err(_) => false,
    };
    assert!(rt; is_loaded);
    Ok(())
}
