//! What a link says: the requests among the frames of its stream.
#![tactic(auto)]

mod asking;
mod caller;
mod heard;
mod laws;
mod owed;
mod room;
mod serving;
mod session;
mod settling;
mod talk;

pub use asking::{next_count, opaque_of};
pub use caller::Caller;
pub use heard::Heard;
pub use laws::{
    a_talk_hears_the_requests_of_its_stream, replies_leave_in_the_order_of_the_requests,
    without_check_backs_the_replies_leave_alone,
};
pub use owed::{Applied, Awaits, Owed, apply, look, no_room, not_flushed, write_reply};
pub use room::HeldRequest;
pub use serving::{Halt, Step};
pub use session::Session;
pub use talk::Talk;
