//! The bytes of a log's records: written from drafts, and tested in place.
#![tactic(auto)]

mod append;
mod blank;
mod body;
mod draft;
mod join;
mod laws;
mod layout;
mod lengths;
mod marks;
mod props;
mod reading;
mod scan;
mod seal;
mod sysflag;
mod system_topics;
mod topic;
mod unit;
mod view;
mod whole;

pub use blank::{BLANK_FRONT, blank_front, test_blank};
pub use body::Body;
pub use draft::{BODY_MAX, Draft, DraftFault, Place, Record, SEGMENT_MAX, SEGMENT_MIN};
pub use join::{crc32_join, shift_over};
pub use laws::{last_properties_count, layouts_are_apart, layouts_read_back, records_write_back};
pub use layout::encode;
pub use props::Props;
pub use reading::{size_in_front, test};
pub use sysflag::{COMMITTED, HOSTS_LONG, PREPARED, TRANSACTION_BITS};
pub use system_topics::{DISCARD_TOPIC, HALF_TOPIC, OP_TOPIC, SCHEDULE_TOPIC};
pub use topic::is_legal_topic;
pub use unit::{Unit, tag_code, unit_of};
pub use view::View;
pub use whole::whole_records;
