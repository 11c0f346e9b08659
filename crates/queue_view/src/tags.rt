//! Which units a subscription takes: read from its text once a request, and then tried on one unit after another.

ghost use Rattle.std.specs.Prelude.{◌≡◌, ◌++◌, ◌∷◌, [], ◌||◌, List, ℕ, ℤ, true, map, IfOk, OnOk, IfSome, IfNone, reverse};
ghost use Rattle.log_model.specs.Pulls.{takes, past_spaces, trimmed, words_in};
ghost use Rattle.mq_bytes.specs.Hashes.{java_hash as java_hash_of};
ghost use Rattle.queue_view.specs.Subscriptions.{tags_take, word_in};

use mq_bytes::java_hash;
use record_codec::Unit;
use std::alloc::{AllocError, Global};

/// All units, or those with one of these tag codes.
#[derive(Drop)]
pub struct Tags {
    pub(crate) all: bool,
    pub(crate) codes: Vec<i64>,
}

impl Tags {
    /// All units.
    pub fn all(alloc: Global) -> Tags
        ensures { result.all ≡ true }
    {
        Tags {
            all: true,
            codes: Vec::new(alloc),
        }
    }

    /// Those that this subscription takes: all where it is empty or `*`, else those whose tag code is the hash of one of its
    /// words, which are parted by `||`; spaces round a word don't count, and an empty word takes none.
    pub fn read(alloc: Global, text: &str) -> Result<Tags, AllocError>
        ensures { IfOk result (λ tags. tags_take tags ≡ takes text.now) }
    {
        if text.is_empty() || text == "*" {
            return Ok(Tags::all(alloc));
        }
        let mut codes = Vec::new(alloc);
        hash_words(text, &mut codes)?;
        Ok(Tags { all: false, codes })
    }

    /// Whether the unit is taken.
    pub fn takes(&self, unit: &Unit) -> bool
        ensures { result ≡ tags_take self.now unit.now }
    {
        self.all || self.codes.as_slice().contains(&unit.tag)
    }
}

// Appends the hashes of the words between bars.
fn hash_words(text: &str, codes: &mut Vec<i64>) -> Result<(), AllocError>
    ensures { OnOk result (codes.new.items ≡ codes.old.items ++ map java_hash_of (words_in text.now)) }
{
    let mut rest = text;
    while let Some((word, behind)) = rest.split_once("||") {
        hash_word(word, codes)?;
        rest = behind;
    }
    hash_word(rest, codes)?;
    Ok(())
}

// Appends the hash of this word, unless it is empty.
fn hash_word(word: &str, codes: &mut Vec<i64>) -> Result<(), AllocError>
    ensures { OnOk result (codes.new.items ≡ codes.old.items ++ map java_hash_of (word_in word.now)) }
{
    let word = without_spaces(word);
    if !word.is_empty() {
        codes.push(i64::from(java_hash(word)))?;
    }
    Ok(())
}

// The text without the spaces at its ends.
fn without_spaces(text: &str) -> &str
    ensures { result.now ≡ trimmed text.now }
{
    without_last_spaces(without_first_spaces(text))
}

// The text without the spaces in front.
fn without_first_spaces(text: &str) -> &str
    ensures { result.now ≡ past_spaces text.now }
{
    let mut rest = text;
    while let Some(shorter) = rest.strip_prefix(' ') {
        rest = shorter;
    }
    rest
}

// The text without the spaces at its end.
fn without_last_spaces(text: &str) -> &str
    ensures { result.now ≡ reverse (past_spaces (reverse text.now)) }
{
    let mut rest = text;
    while let Some(shorter) = rest.strip_suffix(' ') {
        rest = shorter;
    }
    rest
}
