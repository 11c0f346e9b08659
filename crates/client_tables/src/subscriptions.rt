//! What groups subscribe to: by the group, and in it by the topic. A look-up makes no text.

ghost use Rattle.std.specs.Prelude.{◌≡◌, ◌&&◌, ◌++◌, ◌∷◌, [], ℕ, List, not, filter, if◌then◌else◌, OnOk, OnErr};
ghost use Rattle.std.specs.Str.{bytes_eq};
ghost use Rattle.client_tables.specs.Kept.{goes, last_words, in_topics, in_groups};

use crate::heard::{Heard, Said};
use std::alloc::{AllocError, Global};
use std::collections::BTreeMap;

/// What was said of a group, by the topic.
pub(crate) type ByTopic = BTreeMap<String, Heard>;

/// What was said of all groups, by the group.
pub(crate) type ByGroup = BTreeMap<String, ByTopic>;

// Something more is said of a topic. At `Err` all is as before.
fn put_in_topics(
    alloc: Global,
    topics: &mut ByTopic,
    topic: &str,
    said: Said,
) -> Result<(), AllocError>
    ensures put { OnOk result ((t : List ℕ) → in_topics topics.new t
        ≡ (if bytes_eq topic.now t then in_topics topics.old t ++ said ∷ [] else in_topics topics.old t)) }
    ensures same { OnErr result ((t : List ℕ) → in_topics topics.new t ≡ in_topics topics.old t) }
{
    if let Some(heard) = topics.get_mut(topic) {
        heard.put(said)?;
        return Ok(());
    }
    let mut heard = Heard::new(alloc);
    heard.put(said)?;
    let name = String::from_str(alloc, topic)?;
    topics.insert(name, heard)?;
    Ok(())
}

/// Something more is said of a topic of a group. At `Err` all is as before.
pub(crate) fn put(
    alloc: Global,
    groups: &mut ByGroup,
    group: &str,
    topic: &str,
    said: Said,
) -> Result<(), AllocError>
    ensures put { OnOk result ((g t : List ℕ) → in_groups groups.new g t
        ≡ (if bytes_eq group.now g && bytes_eq topic.now t then in_groups groups.old g t ++ said ∷ [] else in_groups groups.old g t)) }
    ensures same { OnErr result ((g t : List ℕ) → in_groups groups.new g t ≡ in_groups groups.old g t) }
{
    if let Some(topics) = groups.get_mut(group) {
        put_in_topics(alloc, topics, topic, said)?;
        return Ok(());
    }
    let mut topics = BTreeMap::new(alloc);
    put_in_topics(alloc, &mut topics, topic, said)?;
    let name = String::from_str(alloc, group)?;
    groups.insert(name, topics)?;
    Ok(())
}

// Forgets what the client said of these topics by the heartbeats from the first to the last.
fn forget_in_topics(topics: &mut ByTopic, client: &str, first: u64, last: u64)
    ensures { (t : List ℕ) → in_topics topics.new t ≡ filter (λ said. not (goes client.now first last said)) (in_topics topics.old t) }
{
    topics.retain(|_, heard| {
        heard.forget(client, first, last);
        true
    });
}

/// Forgets what the client said of a group by the heartbeats from the first to the last.
pub(crate) fn forget_in(groups: &mut ByGroup, group: &str, client: &str, first: u64, last: u64)
    ensures { (g t : List ℕ) → in_groups groups.new g t
        ≡ filter (λ said. not (bytes_eq group.now g && goes client.now first last said)) (in_groups groups.old g t) }
{
    if let Some(topics) = groups.get_mut(group) {
        forget_in_topics(topics, client, first, last);
    }
}

/// Forgets what the client said by the heartbeats from the first to the last.
pub(crate) fn forget(groups: &mut ByGroup, client: &str, first: u64, last: u64)
    ensures { (g t : List ℕ) → in_groups groups.new g t
        ≡ filter (λ said. not (goes client.now first last said)) (in_groups groups.old g t) }
{
    groups.retain(|_, topics| {
        forget_in_topics(topics, client, first, last);
        true
    });
}

// The words that were last heard of a topic, or none.
fn words_in<'a>(topics: &'a ByTopic, topic: &str) -> &'a str
    ensures { result.now ≡ last_words (in_topics topics.now topic.now) }
{
    match topics.get(topic) {
        Some(heard) => heard.words(),
        None => "",
    }
}

/// The words that were last heard of a topic of a group, or none.
pub(crate) fn words<'a>(groups: &'a ByGroup, group: &str, topic: &str) -> &'a str
    ensures { result.now ≡ last_words (in_groups groups.now group.now topic.now) }
{
    match groups.get(group) {
        Some(topics) => words_in(topics, topic),
        None => "",
    }
}
