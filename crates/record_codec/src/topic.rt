//! Which topics are legal: 1 to 127 characters, each of them `%`, `|`, `_`, `-`, a digit or an ASCII letter.

ghost use Rattle.std.specs.Prelude.{◌≡◌};
ghost use Rattle.record_codec.specs.Layout.{all_topic_chars, is_legal as is_legal_of};
ghost use Rattle.record_codec.specs.Layout.{is_named as is_named_of, is_topic_char as is_topic_char_of};

/// The most bytes that a topic has.
pub(crate) const TOPIC_MAX: usize = 127;

fn is_topic_char(byte: u8) -> bool
    ensures { result ≡ is_topic_char_of byte }
{
    byte == b'%'
        || byte == b'|'
        || byte == b'_'
        || byte == b'-'
        || (b'0' <= byte && byte <= b'9')
        || (b'A' <= byte && byte <= b'Z')
        || (b'a' <= byte && byte <= b'z')
}

fn are_topic_chars(topic: &[u8]) -> bool
    ensures { result ≡ all_topic_chars topic.now }
{
    for byte in topic {
        if !is_topic_char(*byte) {
            return false;
        }
    }
    true
}

/// Whether the topic isn't empty and all its characters are legal.
pub(crate) fn is_named(topic: &[u8]) -> bool
    ensures { result ≡ is_named_of topic.now }
{
    !topic.is_empty() && are_topic_chars(topic)
}

/// Whether a record may have the topic that these bytes spell.
pub(crate) fn is_legal(topic: &[u8]) -> bool
    ensures { result ≡ is_legal_of topic.now }
{
    is_named(topic) && topic.len() <= TOPIC_MAX
}

/// Whether a record may have this topic.
pub fn is_legal_topic(topic: &str) -> bool
    ensures { result ≡ is_legal_of topic.now }
{
    is_legal(topic.as_bytes())
}
