//! A frame of the remoting protocol: a header in one of its forms, and a body of any bytes.

use crate::header::Header;
use mq_bytes::Rows;

/// The most bytes that may follow the length of a frame.
pub(crate) const FRAME_MAX: u32 = 0x0100_0000;

/// What a form counts in the word that it shares with the header's length, which has three bytes.
pub(crate) const FORM_UNIT: u32 = 0x0100_0000;

/// How a header is written.
#[derive(Clone, Copy, Debug, PartialEq, Eq)]
pub enum Form {
    /// As a JSON text, form 0 of a frame.
    Json,
    /// As numbers and texts behind their lengths, form 1 of a frame.
    Binary,
}

/// A frame, which starts `at` bytes behind the beginning of its stream.
#[derive(Drop)]
pub struct Frame {
    pub at: u64,
    pub form: Form,
    pub header: Header,
    pub body: Rows<u8>,
}
