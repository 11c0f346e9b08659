//! How many connections the limit of open files leaves, and the arguments that ask for so many.

ghost use Rattle.std.specs.Prelude.{◌≡◌, ◌+◌, ◌-◌, max, min};

use std::alloc::{AllocError, Global};

/// How many files `serve` may open besides its connections: those of the store, the door, what waits, and some to spare.
pub(crate) const OWN_FILES: u64 = 32;

/// The least limit of open files with which `serve` runs.
pub(crate) const LEAST_FILES: u64 = 40;

/// The connections that a limit of open files leaves.
#[derive(Clone, Copy)]
pub(crate) struct Room {
    pub(crate) links: u64,
    pub(crate) limit: u64,
}

/// The limit of open files that leaves all connections that are asked for.
pub(crate) fn limit_for(asked: u32) -> u64
    ensures { result ≡ max (asked + 32) 40 }
{
    (u64::from(asked) + OWN_FILES).max(LEAST_FILES)
}

/// How many of the connections that are asked for this limit of open files leaves.
pub(crate) fn links_within(asked: u32, limit: u64) -> u64
    ensures { result ≡ min asked (limit - 32) }
{
    u64::from(asked).min(limit.saturating_sub(OWN_FILES))
}

// Whether the word at this place is the value of `--links`: the command is followed by options, each with its value.
fn is_links_value(words: &[&str], at: usize) -> bool {
    if at < 2 || at % 2 == 1 {
        return false;
    }
    match words.get(at - 1) {
        Some(word) => *word == "--links",
        None => false,
    }
}

/// The arguments of `serve`, which fit, with this number of `--links`: in place of the one that they have, or as one more option.
pub(crate) fn with_links(
    alloc: Global,
    words: &[&str],
    links: u64,
) -> Result<Vec<String>, AllocError> {
    let mut given = Vec::with_capacity(alloc, words.len())?;
    let mut is_given = false;
    for at in 0..words.len() {
        if is_links_value(words, at) {
            given.push(format!(in alloc; "{links}")?)?;
            is_given = true;
        } else {
            given.push(String::from_str(alloc, words[at])?)?;
        }
    }
    if !is_given {
        given.push(String::from_str(alloc, "--links")?)?;
        given.push(format!(in alloc; "{links}")?)?;
    }
    Ok(given)
}
