//! What do flush turns leave on the disk of a broker's run? Laws on stories, which are steps of the broker and turns of
//! its disk, in order.
#![tactic(auto)]

mod acts;
mod laws;

pub use acts::acts_keep_the_log;
pub use laws::{a_story_is_a_run, a_story_keeps_the_log, a_story_keeps_the_place};
