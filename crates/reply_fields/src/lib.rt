//! The bytes of what the broker says: replies to requests, the body that names the queues a client got, and check-backs
//! of half messages.
#![tactic(auto)]

mod ask;
mod body;
mod ext;
mod granted;
mod refusals;
mod reply;
mod slice;

pub use ask::Ask;
pub use ext::{Ext, Sent};
pub use granted::granted_body;
pub use reply::Reply;
pub use slice::{Slice, StoredRange};
