//! A link with its session.

ghost use Rattle.std.specs.Prelude.{◌≤◌, length};

use crate::owed::Owed;
use crate::room::HeldRequest;
use crate::talk::Talk;
use std::collections::VecDeque;

/// A link. It is seen as its stream (`talk`), the request that found no room (`held`), what is owed for the requests before
/// it, oldest first, and the bytes of the replies before these with the check-backs between them, of which the first `sent`
/// are sent.
#[derive(Drop)]
pub struct Session {
    pub(crate) talk: Talk,
    pub(crate) held: Option<HeldRequest>,
    pub(crate) owed: VecDeque<Owed>,
    pub(crate) out: Vec<u8>,
    pub(crate) sent: usize,
    // How many check-backs were written, up to overflow.
    pub(crate) asked: u32,
    ghost within: { sent ≤ length out.items },
}
