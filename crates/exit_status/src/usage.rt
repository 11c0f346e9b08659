//! The line of a usage error: which argument doesn't fit, and why.

use std::alloc::{AllocError, Global};
use store_open::{Unfit, unfit_at};

// An argument in quotes, and what is said of it.
fn of_argument(alloc: Global, argument: &str, said: &str) -> Result<String, AllocError> {
    let mut text = String::from_str(alloc, "\"")?;
    text.push_str(argument)?;
    text.push_str("\" ")?;
    text.push_str(said)?;
    Ok(text)
}

// What is wrong with a value.
fn of_value(alloc: Global, name: &str, value: &str, values: &str) -> Result<String, AllocError> {
    let mut text = of_argument(alloc, value, "is no value of ")?;
    text.push_str(name)?;
    text.push_str(" ")?;
    text.push_str(values)?;
    Ok(text)
}

// What is wrong.
fn reason_of(alloc: Global, unfit: &Unfit) -> Result<String, AllocError> {
    match *unfit {
        Unfit::NoCommand => String::from_str(alloc, "no command is given"),
        Unfit::NotACommand(word) => of_argument(alloc, word, "is no command"),
        Unfit::NotAnOption(word) => of_argument(alloc, word, "is no option of the command"),
        Unfit::Twice(word) => of_argument(alloc, word, "is given twice"),
        Unfit::NoValue(word) => of_argument(alloc, word, "has no value"),
        Unfit::NotAValue(name, value, values) => of_value(alloc, name, value, values),
    }
}

/// The line of a run whose arguments don't fit: the first that doesn't, at this place, and why.
pub fn usage_line(alloc: Global, words: &[&str], place: u64) -> Result<String, AllocError> {
    let mut line = String::from_str(alloc, "mq_broker: ")?;
    line.push_str(reason_of(alloc, &unfit_at(words, place))?.as_str())?;
    line.push_str(" (status 1): see mq_broker --help")?;
    Ok(line)
}
