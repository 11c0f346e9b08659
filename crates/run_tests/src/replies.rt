//! What a reply's bytes are, and where they have a text.

/// The address that the broker is told to have whose reply `FIRST_SENT` is: it is in the message id.
pub const HOST: &str = "127.0.0.1:27911";

/// The reply to a send of `put_send` that is the first one to an empty store. `pipe` and `serve` answer with the same bytes, and each
/// one's tests compare with these, so that no crate of tests runs both.
pub const FIRST_SENT: &[u8] =
    b"\0\0\0\xBB\0\0\0\xB7{\"code\":0,\"extFields\":{\"msgId\":\"7F00000100006D070000000000000000\",\"queueId\":\"0\",\
\"queueOffset\":\"0\"},\"flag\":1,\"language\":\"OTHER\",\"opaque\":7,\"serializeTypeCurrentRPC\":\"JSON\",\"version\":0}";

/// Where the text ends that stands behind this place, or 0 where it doesn't.
pub fn end_of(written: &[u8], from: usize, text: &[u8]) -> usize {
    for at in from..written.len() {
        if written[at..].starts_with(text) {
            return at.saturating_add(text.len());
        }
    }
    0
}
