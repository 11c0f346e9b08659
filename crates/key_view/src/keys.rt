//! The keys of a record: its `UNIQ_KEY` and each word of its `KEYS`, as hashes with its topic. They are read where the
//! record stands, one after another, and nothing is copied.

ghost use Rattle.std.specs.Prelude.{◌≡◌, ◌≤◌, ◌++◌, ◌∷◌, [], length, map, option_map, option_to_list, Some, IsNone};
ghost use Rattle.std.specs.Str.{IsUtf8};
ghost use Rattle.mq_bytes.specs.Hashes.{java_hash};
ghost use Rattle.log_model.specs.Keys.{hash_of, words, index_keys};
ghost use Rattle.key_view.specs.Hashes.{keys_in};

use log_replay::{hash_after, next_word, topic_hash};
use record_codec::{Draft, View};
use std::marker::Model;

/// The keys of a record that are left to be read. Contracts see their hashes.
#[derive(Drop)]
pub struct RecordKeys<'a> {
    topic: &'a str,
    // The hash with which each key of the topic begins.
    start: i32,
    unique: Option<&'a str>,
    // What is left of the text of the words.
    rest: &'a [u8],
}

impl<'a> Model for RecordKeys<'a> {
    ghost use Rattle.std.specs.Prelude.{List, ℕ, option_map};
    ghost use Rattle.key_view.specs.Hashes.{hashes_left, IsReading};

    ghost Value = { List ℕ };

    ghost view = { λ k. hashes_left k.topic.now (option_map (λ text. text.now) k.unique) k.rest.now };

    ghost invariant = { λ k. IsReading k.topic.now k.start k.rest.now };
}

// The bytes of a text, and none where there is no text.
fn bytes_of<'a>(text: Option<&'a str>) -> &'a [u8]
    ensures words { words (Some result.now) ≡ words (option_map (λ t. t.now) text.entry) }
    ensures utf8 { IsUtf8 result.now }
{
    match text {
        Some(text) => text.as_bytes(),
        None => b"",
    }
}

// How many keys this is.
fn count_of(key: Option<&str>) -> usize
    ensures value { result ≡ length (option_to_list (option_map (λ t. t.now) key.entry)) }
    ensures most { result ≤ 1 }
{
    match key {
        Some(_) => 1,
        None => 0,
    }
}

// The hash of a key of a topic, where `start` is that of the topic and `#`.
fn hash_from(topic: &str, start: i32, key: &str) -> u32
    requires { start ≡ java_hash (topic.now ++ 35 ∷ []) }
    ensures { result ≡ hash_of topic.now key.now }
{
    hash_after(start, key)
}

// The keys of this topic: this one, if it is there, and the words of this text.
fn keys_of<'a>(topic: &'a str, unique: Option<&'a str>, text: Option<&'a str>) -> RecordKeys<'a>
    ensures { result ≡ map (hash_of topic.entry.now) (option_to_list (option_map (λ t. t.now) unique.entry)
        ++ words (option_map (λ t. t.now) text.entry)) }
{
    RecordKeys {
        topic,
        start: topic_hash(topic),
        unique,
        rest: bytes_of(text),
    }
}

impl<'a> RecordKeys<'a> {
    /// The keys of the record of a draft, wherever it stands.
    pub fn of_draft(draft: &'a Draft) -> RecordKeys<'a>
        ensures { result ≡ keys_in draft.entry.now.topic draft.entry.now.props }
    {
        keys_of(
            draft.topic.as_str(),
            draft.props.get("UNIQ_KEY"),
            draft.props.get("KEYS"),
        )
    }

    /// The keys of a record that stands in bytes.
    pub fn of_view(view: &'a View<'_>) -> RecordKeys<'a>
        ensures { result ≡ index_keys view.entry.now }
    {
        keys_of(view.topic(), view.prop("UNIQ_KEY"), view.prop("KEYS"))
    }

    /// The hash of the next key; nothing where none is left.
    pub fn next(&mut self) -> Option<u32>
        ensures first { self.old ≡ option_to_list result ++ self.new }
        ensures none { IsNone result → self.old ≡ [] }
    {
        if let Some(key) = self.unique {
            self.unique = None;
            return Some(hash_from(self.topic, self.start, key));
        }
        let (word, rest) = next_word(self.rest)?;
        self.rest = rest;
        Some(hash_from(self.topic, self.start, word))
    }

    /// How many keys are left.
    pub fn count(&self) -> usize
        ensures { result ≡ length self.now }
    {
        let mut count = count_of(self.unique);
        let mut rest = self.rest;
        while let Some((_, behind)) = next_word(rest) {
            count += 1;
            rest = behind;
        }
        count
    }
}
