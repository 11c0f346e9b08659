//! What a log says of its queues, keys, transactions and delays, found by looking at each record: slow, and plain to read
//! beside the definitions.
#![tactic(auto)]

mod delays;
mod halves;
mod keys;
mod kinds;
mod laws;
mod queries;
mod queues;
mod replays;
mod said;
mod words;

pub use delays::delays_of;
pub use halves::{copies_of, family_of, halves_of, state_of};
pub use keys::{hash_after, index_keys_of, key_hash, topic_hash};
pub use laws::{
    a_delivery_is_progress, a_half_joins_its_family, a_record_adds_its_keys,
    a_record_ends_its_queue, a_record_settles_by_earlier_halves, the_lowest_due_level_is_delivered,
};
pub use queries::{query_of, query_reply};
pub use queues::{bounds_of, item_at};
pub use replays::replay;
pub use said::Replay;
pub use words::next_word;
