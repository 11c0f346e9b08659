//! The arguments of `gen`: the command, how many items, with which number they start, and then the store's folder, if another one
//! is meant.

ghost use Rattle.std.specs.Prelude.{◌≡◌, ◌≢◌, ◌∷◌, [], IfOk, IfErr};
ghost use Rattle.store_open.specs.Options.{texts_of};
ghost use Rattle.store_open.specs.GenWords.{SaysStore, SaysStart, SaysItems, IsGenCommand};
ghost use Rattle.store_open.specs.GenWords.{IsWrongFolder, IsWrongOption, IsWrongStart, IsWrongItems, IsFirstWrongOfGen};

use crate::number::read_number;
use crate::settings::{DEFAULT_STORE, Verb};

/// What the arguments of `gen` ask for. `store` is the path of the store's folder.
#[derive(Debug, Clone, Copy, PartialEq, Eq)]
pub struct GenCommand<'a> {
    pub items: u32,
    pub start: u32,
    pub store: &'a str,
}

// The folder that these words after the option's name name.
fn read_folder<'a>(words: &[&'a str]) -> Result<&'a str, u64>
    ensures fits { IfOk result (λ store. (texts_of words.now ≡ store.now ∷ []) × (store.now ≢ [])) }
    ensures wrong { IfErr result (λ place. IsWrongFolder (texts_of words.now) place) }
{
    let Some((folder, more)) = words.split_first() else {
        return Err(4);
    };
    if folder.is_empty() {
        return Err(4);
    }
    if !more.is_empty() {
        return Err(5);
    }
    Ok(*folder)
}

// The store's folder by the words after the start.
fn read_store<'a>(words: &[&'a str]) -> Result<&'a str, u64>
    ensures fits { IfOk result (λ store. SaysStore (texts_of words.now) store.now) }
    ensures wrong { IfErr result (λ place. IsWrongOption (texts_of words.now) place) }
{
    let Some((option, rest)) = words.split_first() else {
        return Ok(DEFAULT_STORE);
    };
    if *option != "--store" {
        return Err(3);
    }
    read_folder(rest)
}

// The start and the store's folder by the words after the number of items.
fn read_start<'a>(words: &[&'a str]) -> Result<(u32, &'a str), u64>
    ensures fits { IfOk result (λ it. SaysStart (texts_of words.now) it.0 it.1.now) }
    ensures wrong { IfErr result (λ place. IsWrongStart (texts_of words.now) place) }
{
    let Some((number, options)) = words.split_first() else {
        return Err(2);
    };
    let Some(start) = read_number(number, 0, 1_000_000) else {
        return Err(2);
    };
    match read_store(options) {
        Ok(store) => Ok((start, store)),
        Err(place) => Err(place),
    }
}

// What the words after the command ask for.
fn read_items<'a>(words: &[&'a str]) -> Result<GenCommand<'a>, u64>
    ensures fits { IfOk result (λ command. SaysItems (texts_of words.now) command) }
    ensures wrong { IfErr result (λ place. IsWrongItems (texts_of words.now) place) }
{
    let Some((number, more)) = words.split_first() else {
        return Err(1);
    };
    let Some(items) = read_number(number, 1, 1_000_000) else {
        return Err(1);
    };
    match read_start(more) {
        Ok((start, store)) => Ok(GenCommand {
            items,
            start,
            store,
        }),
        Err(place) => Err(place),
    }
}

/// What the words ask for, or the place of the first word that doesn't fit, counted from 0.
pub fn read_gen_words<'a>(words: &[&'a str]) -> Result<GenCommand<'a>, u64>
    ensures fits { IfOk result (λ command. IsGenCommand (texts_of words.now) command) }
    ensures wrong { IfErr result (λ place. IsFirstWrongOfGen (texts_of words.now) place) }
{
    let Some((command, more)) = words.split_first() else {
        return Err(0);
    };
    if *command != Verb::Gen.word() {
        return Err(0);
    }
    read_items(more)
}
