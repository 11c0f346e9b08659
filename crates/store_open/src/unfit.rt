//! What is wrong with the first argument that doesn't fit, in words.

use crate::settings::{Verb, read_any_choice, read_choice};

/// What is wrong with the argument at a place.
#[derive(Debug, Clone, Copy, PartialEq, Eq)]
pub enum Unfit<'a> {
    /// There are no arguments.
    NoCommand,
    /// The first is the name of no command.
    NotACommand(&'a str),
    /// It is the name of no option of the command.
    NotAnOption(&'a str),
    /// It is the name of an option that was given before.
    Twice(&'a str),
    /// The option is the last argument.
    NoValue(&'a str),
    /// The value isn't one of the option, whose values these are.
    NotAValue(&'a str, &'a str, &'static str),
}

// The command with this name.
fn verb_of(word: &str) -> Verb {
    if word == Verb::Serve.word() {
        Verb::Serve
    } else if word == Verb::Dump.word() {
        Verb::Dump
    } else if word == Verb::Verify.word() {
        Verb::Verify
    } else if word == Verb::Gen.word() {
        Verb::Gen
    } else {
        Verb::Pipe
    }
}

// What is wrong with a name where an option should stand.
fn unfit_name<'a>(verb: Verb, name: &'a str) -> Unfit<'a> {
    match read_choice(verb, name) {
        Some(_) => Unfit::Twice(name),
        None => Unfit::NotAnOption(name),
    }
}

// What is wrong with an option's value.
fn unfit_value<'a>(name: &'a str, value: &'a str) -> Unfit<'a> {
    match read_any_choice(name) {
        Some(choice) => Unfit::NotAValue(name, value, choice.about().value),
        None => Unfit::NotAnOption(name),
    }
}

// What is wrong with the number at this place of the arguments of `gen`.
fn unfit_number<'a>(at: usize, value: &'a str) -> Unfit<'a> {
    if at == 1 {
        return Unfit::NotAValue("N", value, "1..1000000");
    }
    Unfit::NotAValue("START", value, "0..1000000")
}

/// What is wrong with the first argument that doesn't fit, whose place `read_words`, `read_serve_words`, `read_tool_words` or
/// `read_gen_words` gave.
pub fn unfit_at<'a>(words: &[&'a str], place: u64) -> Unfit<'a> {
    let Some(command) = words.first() else {
        return Unfit::NoCommand;
    };
    if place == 0 {
        return Unfit::NotACommand(*command);
    }
    let Ok(at) = usize::try_from(place) else {
        return Unfit::NotACommand(*command);
    };
    let before = match words.get(at.saturating_sub(1)) {
        Some(word) => *word,
        None => *command,
    };
    match words.get(at) {
        None => Unfit::NoValue(before),
        Some(word) if at <= 2 && *command == Verb::Gen.word() => unfit_number(at, *word),
        Some(word) if at % 2 == 1 => unfit_name(verb_of(command), *word),
        Some(word) => unfit_value(before, *word),
    }
}
