//! The units of a queue, found by looking at each record of a log: slow, and plain to read beside the definition.

ghost use Rattle.std.specs.Prelude.{◌≡◌, IfOk, All};
ghost use Rattle.record_codec.specs.Units.{unit_of as unit_of_entry};
ghost use Rattle.log_model.specs.Queues.{entries_of, said_by, units_of, IsStored};

use record_codec::{Record, Unit, tag_code};
use std::alloc::{AllocError, Global};

fn unit_of(r: &Record) -> Unit
    requires { IsStored r.now }
    ensures { result ≡ unit_of_entry (said_by r.now) }
{
    let tags = r.draft.props.get("TAGS");
    Unit {
        offset: r.place.offset,
        size: r.size,
        tag: tag_code(r.draft.topic.as_str(), tags, r.draft.queue, r.place.store),
    }
}

/// The units of this queue of the topic, in the order of the log.
pub fn queue_of(
    alloc: Global,
    log: &[Record],
    topic: &str,
    queue: u32,
) -> Result<Vec<Unit>, AllocError>
    requires { All IsStored log.now }
    ensures { IfOk result (λ units. units.items ≡ units_of (entries_of log.now) topic.now queue) }
{
    let mut units = Vec::new(alloc);
    for record in log {
        if record.draft.topic.as_str() == topic && record.draft.queue == queue {
            units.push(unit_of(record))?;
        }
    }
    Ok(units)
}
