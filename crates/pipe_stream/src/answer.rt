//! What is to be answered to a request.

use reply_fields::Reply;
use session::Awaits;

/// A reply, and the record that has to be on the disk before it is told, if one has.
#[derive(Drop)]
pub struct Answer {
    pub reply: Reply,
    pub awaits: Option<Awaits>,
}
