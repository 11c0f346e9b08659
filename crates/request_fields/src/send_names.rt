//! The names of a SEND's fields.

ghost use Rattle.std.specs.Prelude.{◌≡◌};
ghost use Rattle.request_fields.specs.Rows.{long_names as long_names_of, short_names as short_names_of};
ghost use Rattle.request_fields.specs.Names.{names_view};

/// The names of a SEND's fields.
#[derive(Clone, Copy)]
pub(crate) struct SendNames<'a> {
    pub(crate) group: &'a str,
    pub(crate) topic: &'a str,
    pub(crate) default_topic: &'a str,
    pub(crate) default_queues: &'a str,
    pub(crate) queue: &'a str,
    pub(crate) sysflag: &'a str,
    pub(crate) born: &'a str,
    pub(crate) flag: &'a str,
    pub(crate) props: &'a str,
    pub(crate) reconsume: &'a str,
    pub(crate) unit_mode: &'a str,
    pub(crate) max_reconsume: &'a str,
    pub(crate) batch: &'a str,
}

/// The names of code 10.
pub(crate) fn long_names() -> SendNames<'static>
    ensures { names_view result ≡ long_names_of }
{
    SendNames {
        group: "producerGroup",
        topic: "topic",
        default_topic: "defaultTopic",
        default_queues: "defaultTopicQueueNums",
        queue: "queueId",
        sysflag: "sysFlag",
        born: "bornTimestamp",
        flag: "flag",
        props: "properties",
        reconsume: "reconsumeTimes",
        unit_mode: "unitMode",
        max_reconsume: "maxReconsumeTimes",
        batch: "batch",
    }
}

/// The names of code 310.
pub(crate) fn short_names() -> SendNames<'static>
    ensures { names_view result ≡ short_names_of }
{
    SendNames {
        group: "a",
        topic: "b",
        default_topic: "c",
        default_queues: "d",
        queue: "e",
        sysflag: "f",
        born: "g",
        flag: "h",
        props: "i",
        reconsume: "j",
        unit_mode: "k",
        max_reconsume: "l",
        batch: "m",
    }
}
