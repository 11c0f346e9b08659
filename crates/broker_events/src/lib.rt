//! What may happen to the broker, what it says to that, and who makes it happen.
#![tactic(auto)]

mod calls;
mod event;
mod said;
mod served;

pub use calls::Calls;
pub use event::{Event, Setup};
pub use said::{Awaited, Checked, Said};
pub use served::is_served;
