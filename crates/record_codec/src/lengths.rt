//! The lengths of a record's parts.

ghost use Rattle.std.specs.Prelude.{◌≡◌, ◌+◌, ◌<◌, ◌≤◌, ◌^◌, length, drop, take, option_map, Some};
ghost use Rattle.std.specs.Int.{w16, w32, from_be_bytes};
ghost use Rattle.record_codec.specs.LengthsViews.{lengths_view};
ghost use Rattle.record_codec.specs.Parsed.{n16, n32, n64, lengths_in, lengths_past_body as lengths_past_body_of};
ghost use Rattle.record_codec.specs.Parsed.{lengths_past_topic as lengths_past_topic_of};

/// The lengths of the body, the topic, and the properties without the seal.
#[derive(Drop)]
pub(crate) struct Lengths {
    pub(crate) body: u32,
    pub(crate) topic: u8,
    pub(crate) props: u16,
}

pub(crate) fn u16_at(bytes: &[u8], at: usize) -> u16
    requires { at + 2 ≤ length bytes.now }
    ensures { result ≡ n16 bytes.now at }
{
    u16::from_be_bytes([bytes[at], bytes[at + 1]])
}

pub(crate) fn u32_at(bytes: &[u8], at: usize) -> u32
    requires { at + 4 ≤ length bytes.now }
    ensures { result ≡ n32 bytes.now at }
{
    u32::from_be_bytes([bytes[at], bytes[at + 1], bytes[at + 2], bytes[at + 3]])
}

pub(crate) fn u64_at(bytes: &[u8], at: usize) -> u64
    requires { at + 8 ≤ length bytes.now }
    ensures { result ≡ n64 bytes.now at }
{
    u64::from_be_bytes(host_at(bytes, at))
}

pub(crate) fn host_at(bytes: &[u8], at: usize) -> [u8; 8]
    requires { at + 8 ≤ length bytes.now }
    ensures { result ≡ take 8 (drop at bytes.now) }
{
    [
        bytes[at],
        bytes[at + 1],
        bytes[at + 2],
        bytes[at + 3],
        bytes[at + 4],
        bytes[at + 5],
        bytes[at + 6],
        bytes[at + 7],
    ]
}

#[tactic(auto, unfolding(crate::specs::Parsed::lengths_past_topic))]
fn lengths_past_topic(bytes: &[u8], size: u32, body: u32, topic: u8) -> Option<Lengths>
    requires within { size ≤ length bytes.now }
    requires body { body + topic + 105 ≤ size }
    ensures { option_map lengths_view result ≡ lengths_past_topic_of bytes.now size body topic }
{
    let at = 89 + body as usize + topic as usize;
    let props = u16_at(bytes, at);
    if at + 2 + props as usize != size as usize {
        return None;
    }
    Some(Lengths {
        body,
        topic,
        props: props - 14,
    })
}

#[tactic(auto, unfolding(crate::specs::Parsed::lengths_past_body))]
fn lengths_past_body(bytes: &[u8], size: u32, body: u32) -> Option<Lengths>
    requires within { size ≤ length bytes.now }
    requires body { body + 105 ≤ size }
    ensures { option_map lengths_view result ≡ lengths_past_body_of bytes.now size body }
{
    let topic = bytes[88 + body as usize];
    if size - 105 - body < topic as u32 {
        return None;
    }
    lengths_past_topic(bytes, size, body, topic)
}

#[tactic(auto, unfolding(crate::specs::Parsed::lengths_past_size, crate::specs::Parsed::lengths_in))]
pub(crate) fn lengths_of(bytes: &[u8]) -> Option<Lengths>
    ensures { option_map lengths_view result ≡ lengths_in bytes.now }
{
    if bytes.len() < 4 {
        return None;
    }
    let size = u32_at(bytes, 0);
    if size < 105 || bytes.len() < size as usize {
        return None;
    }
    let body = u32_at(bytes, 84);
    if size - 105 < body {
        return None;
    }
    lengths_past_body(bytes, size, body)
}
