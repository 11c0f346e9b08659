//! The segment files of the log: a batch comes onto the disk whole, or it is written again.
#![tactic(auto)]

mod blank;
mod last_file;
mod laws;
mod read;
mod zeros;

pub use last_file::LastFile;
pub use laws::{
    a_batch_goes_to_its_place, a_ready_log_has_its_records, a_ready_log_stays_ready,
    a_stored_log_is_ready,
};
pub use read::read_record;
