//! What a log is, how its segment files hold it, and what a crash and a recovery leave of it.
#![tactic(auto)]

mod admissible;
mod base;
mod batch;
mod fault;
mod laws;
mod made;
mod origin;
mod place;
mod queues;
mod texts;

pub use admissible::{is_admissible, is_system_topic, names_earlier};
pub use base::Base;
pub use batch::{Batch, Receipt};
pub use fault::LoadFault;
pub use laws::{
    a_crashed_disk_stores_the_log, a_flush_turn_counts_from_its_end,
    a_log_whose_files_stay_is_stored, a_place_is_the_first_that_fits,
    an_empty_disk_stores_the_empty_log, crashes_leave_a_prefix, cut_files_are_honest,
    damage_has_one_place, each_log_has_files, files_before_the_last_are_full, files_only_grow,
    files_recover_to_their_log, files_tell_their_log, first_records_are_kept,
    flushed_records_stand_at_their_places, images_agree_before_the_last_file,
    kept_files_are_honest, kept_files_are_undamaged, kept_is_well_formed,
    kept_records_stand_at_their_places, other_files_do_not_matter, recovery_is_idempotent,
    recovery_is_unique, the_last_file_ends_with_the_log, torn_ends_leave_a_prefix,
    units_are_pulled_as_records, what_a_crash_left_stores_the_log, what_is_kept_stays_kept,
    what_is_made_of_a_record_can_be_written,
};
pub use origin::OriginState;
pub use place::next_place;
pub use queues::queue_of;
pub use texts::{number_in, number_of};
