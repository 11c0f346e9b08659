//! What the arguments ask for, found before anything is made.

use std::alloc::{AllocError, Global};
use store_open::{Tool, Verb, read_gen_words, read_serve_words, read_tool_words, read_words};
use tool_run::asked_tool;

/// The commands, in the order in which the help shows them.
pub(crate) const COMMANDS: [Verb; 5] = [
    Verb::Serve,
    Verb::Pipe,
    Verb::Dump,
    Verb::Verify,
    Verb::Gen,
];

/// A run: the command, the store's folder, where `serve` listens (the address, and the port in four bytes, high byte first), and
/// how many connections it may have at a time, none for `pipe`.
#[derive(Clone, Copy)]
pub(crate) struct Target<'a> {
    pub(crate) verb: Verb,
    pub(crate) store: &'a str,
    pub(crate) listen: [u8; 8],
    pub(crate) links: Option<u32>,
}

/// What the arguments ask for.
#[derive(Clone, Copy)]
pub(crate) enum Asked<'a> {
    Help,
    HelpOf(Verb),
    Version,
    Run(Target<'a>),
    /// A tool over the store in this folder.
    Use(Tool, &'a str),
    /// The store in this folder is filled.
    Fill(&'a str),
    /// The argument at this place, counted from 0, is the first that doesn't fit.
    Unfit(u64),
}

/// The texts of arguments.
pub(crate) fn texts_of<'a>(alloc: Global, words: &'a [String]) -> Result<Vec<&'a str>, AllocError> {
    let mut texts = Vec::with_capacity(alloc, words.len())?;
    for word in words {
        texts.push(word.as_str())?;
    }
    Ok(texts)
}

// The run that the arguments of `pipe` ask for. It doesn't listen.
fn asked_of_pipe<'a>(words: &[&'a str]) -> Asked<'a> {
    match read_words(words) {
        Err(place) => Asked::Unfit(place),
        Ok(command) => Asked::Run(Target {
            verb: Verb::Pipe,
            store: command.store,
            listen: command.host,
            links: None,
        }),
    }
}

// The run that the arguments of `serve` ask for.
fn asked_of_serve<'a>(words: &[&'a str]) -> Asked<'a> {
    match read_serve_words(words) {
        Err(place) => Asked::Unfit(place),
        Ok(command) => Asked::Run(Target {
            verb: Verb::Serve,
            store: command.store,
            listen: command.listen,
            links: Some(command.links),
        }),
    }
}

// The use of a tool that its arguments ask for.
fn asked_of_tool<'a>(tool: Tool, words: &[&'a str]) -> Asked<'a> {
    match read_tool_words(tool, words) {
        Err(place) => Asked::Unfit(place),
        Ok(command) => Asked::Use(tool, command.store),
    }
}

// The store that the arguments of `gen` ask to be filled.
fn asked_of_gen<'a>(words: &[&'a str]) -> Asked<'a> {
    match read_gen_words(words) {
        Err(place) => Asked::Unfit(place),
        Ok(command) => Asked::Fill(command.store),
    }
}

// Whether the argument asks for help.
fn is_help(word: &str) -> bool {
    word == "--help" || word == "-h"
}

// The help or the version, where the one argument asks for it.
fn asked_alone<'a>(word: &str) -> Option<Asked<'a>> {
    if is_help(word) {
        Some(Asked::Help)
    } else if word == "--version" {
        Some(Asked::Version)
    } else {
        None
    }
}

// The help of a command, where its last argument asks for it.
fn asked_help<'a>(command: &str, word: &str) -> Option<Asked<'a>> {
    if !is_help(word) {
        return None;
    }
    for verb in &COMMANDS {
        if command == verb.word() {
            return Some(Asked::HelpOf(*verb));
        }
    }
    None
}

// The text that the arguments ask for, if it is one.
fn asked_text<'a>(words: &[&str]) -> Option<Asked<'a>> {
    let first = words.first()?;
    if words.len() == 1 {
        return asked_alone(first);
    }
    asked_help(first, words.last()?)
}

/// What these arguments ask for.
pub(crate) fn asked_of<'a>(words: &[&'a str]) -> Asked<'a> {
    if let Some(asked) = asked_text(words) {
        return asked;
    }
    if let Some(tool) = asked_tool(words) {
        return asked_of_tool(tool, words);
    }
    match words.first() {
        Some(word) if *word == Verb::Serve.word() => asked_of_serve(words),
        Some(word) if *word == Verb::Gen.word() => asked_of_gen(words),
        _ => asked_of_pipe(words),
    }
}
