//! The topics as rows, for who keeps them over a restart.

ghost use Rattle.std.specs.Prelude.{◌≡◌, ℕ, List, All, Some, IfOk};
ghost use Rattle.indexmap.specs.IndexMap.{get_by_text};
ghost use Rattle.broker_model.specs.Tables.{queues_in};
ghost use Rattle.client_tables.specs.Counts.{topic_row};

use indexmap::IndexMap;
use mq_bytes::Text;
use std::alloc::{AllocError, Global};
use std::marker::Model;

/// A topic of clients, and how many queues it has.
#[derive(Debug, Drop)]
pub struct TopicQueues {
    pub topic: Text,
    pub queues: u32,
}

impl Model for TopicQueues {
    ghost use Rattle.broker_model.specs.Tables.{TopicRow};

    ghost Value = { TopicRow };

    ghost view = { λ r. record { topic = r.topic; queues = r.queues } };
}

fn row_of(alloc: Global, topic: &str, queues: u32) -> Result<TopicQueues, AllocError>
    ensures { IfOk result (λ row. row ≡ topic_row topic.now queues) }
{
    let topic = Text::of(String::from_str(alloc, topic)?);
    Ok(TopicQueues { topic, queues })
}

/// A row for each topic.
pub(crate) fn rows_of(
    alloc: Global,
    counts: &IndexMap<String, u32>,
) -> Result<Vec<TopicQueues>, AllocError>
    ensures same { IfOk result (λ rows. (topic : List ℕ) → queues_in rows.items topic ≡ get_by_text counts.now topic) }
    ensures each { IfOk result (λ rows. All (λ row. get_by_text counts.now row.topic ≡ Some row.queues) rows.items) }
{
    let mut rows = Vec::new(alloc);
    for (topic, queues) in counts.iter() {
        rows.push(row_of(alloc, topic.as_str(), *queues)?)?;
    }
    Ok(rows)
}
