//! What holds of every run of the broker, whatever crashes.
#![tactic(auto)]

mod laws;

pub use laws::{
    a_commit_happens, a_delivery_happens, a_removal_happens, a_replay_happens, a_rollback_happens,
    a_run_happens, acknowledged_stay, commits_stay, delays_once, halves_hold, offsets_hold,
    pulls_are_slices, removed_are_done, rollbacks_stay, tables_are_replay,
};
