//! The front of a frame that was read: all of it but the body.

ghost use Rattle.std.specs.Prelude.{◌+◌, ◌≤◌};

use crate::frame::Form;
use crate::header::Header;

/// A frame's header, how long that is, and how long the whole frame is with its own length.
#[derive(Drop)]
pub(crate) struct FrameFront {
    pub(crate) form: Form,
    pub(crate) header: Header,
    pub(crate) header_len: u32,
    pub(crate) len: u32,
    pub(crate) ghost room: { 8 + header_len ≤ len },
}
