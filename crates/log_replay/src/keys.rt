//! The keys of records, and the records that have one.

ghost use Rattle.std.specs.Prelude.{◌≡◌, ℕ, List, [], ◌∷◌, ◌++◌, IfOk, OnOk, map, option_map, option_to_list};
ghost use Rattle.std.specs.Str.{IsUtf8};
ghost use Rattle.mq_bytes.specs.Hashes.{java_hash as java_hash_of};
ghost use Rattle.log_model.specs.Queues.{said_by};
ghost use Rattle.log_model.specs.Keys.{hash_of, words, index_keys};

use crate::words::next_word;
use mq_bytes::{java_hash, java_hash_more, key_hash_more};
use record_codec::Record;
use std::alloc::{AllocError, Global};

/// The hash of a topic and `#`, with which each key of the topic begins.
pub fn topic_hash(topic: &str) -> i32
    ensures { result ≡ java_hash_of (topic.now ++ 35 ∷ []) }
{
    java_hash_more(java_hash(topic), "#")
}

/// The hash of a key of the topic that has this hash: of the topic, `#` and the key, which stand apart and aren't copied.
pub fn hash_after(topic_hash: i32, key: &str) -> u32
    ensures { (topic : List ℕ) → IsUtf8 topic → topic_hash ≡ java_hash_of (topic ++ 35 ∷ []) → result ≡ hash_of topic key.now }
{
    key_hash_more(topic_hash, key)
}

/// The hash of a key of a topic.
pub fn key_hash(topic: &str, key: &str) -> u32
    ensures { result ≡ hash_of topic.now key.now }
{
    hash_after(topic_hash(topic), key)
}

// Appends the hash of the key, where there is one.
fn put_key(topic: &str, key: Option<&str>, hashes: &mut Vec<u32>) -> Result<(), AllocError>
    ensures { OnOk result (hashes.new.items ≡ hashes.old.items
        ++ map (hash_of topic.now) (option_to_list (option_map (λ text. text.now) key.entry))) }
{
    match key {
        Some(key) => {
            hashes.push(key_hash(topic, key))?;
            Ok(())
        }
        None => Ok(()),
    }
}

// Appends the hash of each word of the text.
fn put_words(topic: &str, text: &str, hashes: &mut Vec<u32>) -> Result<(), AllocError>
    ensures { OnOk result (hashes.new.items ≡ hashes.old.items ++ map (hash_of topic.now) (words (Some text.now))) }
{
    let mut rest = text.as_bytes();
    while let Some((word, behind)) = next_word(rest) {
        hashes.push(key_hash(topic, word))?;
        rest = behind;
    }
    Ok(())
}

fn put_all_words(topic: &str, text: Option<&str>, hashes: &mut Vec<u32>) -> Result<(), AllocError>
    ensures { OnOk result (hashes.new.items ≡ hashes.old.items
        ++ map (hash_of topic.now) (words (option_map (λ text. text.now) text.entry))) }
{
    match text {
        Some(text) => put_words(topic, text, hashes),
        None => Ok(()),
    }
}

/// The hashes of the record's keys: of its `UNIQ_KEY`, and of each word of its `KEYS`.
pub fn index_keys_of(alloc: Global, r: &Record) -> Result<Vec<u32>, AllocError>
    ensures { IfOk result (λ hashes. hashes.items ≡ index_keys (said_by r.now)) }
{
    let topic = r.draft.topic.as_str();
    let mut hashes = Vec::new(alloc);
    put_key(topic, r.draft.props.get("UNIQ_KEY"), &mut hashes)?;
    put_all_words(topic, r.draft.props.get("KEYS"), &mut hashes)?;
    Ok(hashes)
}
