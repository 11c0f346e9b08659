//! What clients said that a group subscribes to of one topic. Each heartbeat has a number, so that what the last one said can be
//! taken back.

ghost use Rattle.std.specs.Prelude.{◌≡◌, ◌++◌, ◌∷◌, [], not, filter, IfOk, OnOk, OnErr};
ghost use Rattle.client_tables.specs.Kept.{goes, last_words};

use mq_bytes::Text;
use std::alloc::{AllocError, Global};

/// What a client said, and by which heartbeat.
#[derive(Drop)]
pub(crate) struct Said {
    pub(crate) client: Text,
    pub(crate) words: Text,
    pub(crate) beat: u64,
}

/// What was said of one topic of a group, the last heard last.
#[derive(Drop)]
pub(crate) struct Heard {
    pub(crate) said: Vec<Said>,
}

fn copied(alloc: Global, text: &str) -> Result<Text, AllocError>
    ensures { IfOk result (λ copy. copy ≡ text.now) }
{
    Ok(Text::of(String::from_str(alloc, text)?))
}

impl Said {
    /// These words, as the client said them.
    pub(crate) fn new(
        alloc: Global,
        client: &str,
        words: &str,
        beat: u64,
    ) -> Result<Said, AllocError>
        ensures { IfOk result (λ said. said ≡ record { client = client.now; words = words.now; beat = beat }) }
    {
        Ok(Said {
            client: copied(alloc, client)?,
            words: copied(alloc, words)?,
            beat,
        })
    }

    // The client said it by one of the heartbeats from the first to the last.
    fn is_of(&self, client: &str, first: u64, last: u64) -> bool
        ensures { result ≡ goes client.now first last self.now }
    {
        self.client.as_str() == client && first <= self.beat && self.beat <= last
    }
}

impl Heard {
    /// Nothing was said; takes no memory.
    pub(crate) fn new(alloc: Global) -> Heard
        ensures { result.said.items ≡ [] }
    {
        Heard {
            said: Vec::new(alloc),
        }
    }

    /// Something more was said. At `Err` nothing was.
    pub(crate) fn put(&mut self, said: Said) -> Result<(), AllocError>
        ensures put { OnOk result (self.new.said.items ≡ self.old.said.items ++ said ∷ []) }
        ensures same { OnErr result (self.new.said.items ≡ self.old.said.items) }
    {
        self.said.push(said)?;
        Ok(())
    }

    /// Forgets what the client said by the heartbeats from the first to the last.
    pub(crate) fn forget(&mut self, client: &str, first: u64, last: u64)
        ensures { self.new.said.items ≡ filter (λ said. not (goes client.now first last said)) self.old.said.items }
    {
        self.said.retain(|said| !said.is_of(client, first, last));
    }

    /// The words that were last heard, or none.
    pub(crate) fn words(&self) -> &str
        ensures { result.now ≡ last_words self.now.said.items }
    {
        match self.said.last() {
            Some(said) => said.words.as_str(),
            None => "",
        }
    }
}
