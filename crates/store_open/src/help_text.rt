//! The help, made from the table of options by which the arguments are read (`settings.rt`).

use crate::settings::{CHOICES, Choice, Verb, is_offered};
use std::alloc::{AllocError, Global};

/// Where the column of the options' texts begins.
const COLUMN: usize = 34;

/// Where the column of the commands' texts begins.
const COMMAND_COLUMN: usize = 10;

// Appends spaces up to this column of a line of so many bytes, and at least one.
fn pad(line: usize, column: usize, out: &mut String) -> Result<(), AllocError> {
    out.push_str(" ")?;
    for _ in line.saturating_add(1)..column {
        out.push_str(" ")?;
    }
    Ok(())
}

// Appends the line of an option.
fn push_option(choice: Choice, out: &mut String) -> Result<(), AllocError> {
    let about = choice.about();
    out.push_str("  ")?;
    out.push_str(choice.name())?;
    out.push_str(" ")?;
    out.push_str(about.value)?;
    let size = choice.name().len().saturating_add(about.value.len());
    pad(size.saturating_add(3), COLUMN, out)?;
    out.push_str(about.text)?;
    out.push_str(" (default: ")?;
    out.push_str(about.default)?;
    out.push_str(")\n")
}

// What the command does.
fn purpose(verb: Verb) -> &'static str {
    match verb {
        Verb::Pipe => "answers the requests of standard input on standard output, and ends with it",
        Verb::Serve => "accepts connections over TCP and answers their requests",
        Verb::Dump => "writes a line for each record of a store that no broker has open",
        Verb::Verify => "reads a store that no broker has open and tells whether it is sound",
        Verb::Gen => "fills an empty store by N requests of a fixed kind, and tells what it holds",
    }
}

// What stands between the command and its options.
fn operands(verb: Verb) -> &'static str {
    match verb {
        Verb::Gen => " N START",
        Verb::Pipe | Verb::Serve | Verb::Dump | Verb::Verify => "",
    }
}

// Appends the line of what stands between the command and its options.
fn push_operand(operand: &str, text: &str, out: &mut String) -> Result<(), AllocError> {
    out.push_str("\n  ")?;
    out.push_str(operand)?;
    pad(operand.len().saturating_add(2), COLUMN, out)?;
    out.push_str(text)
}

// Appends the lines of all that stands between the command and its options.
fn push_operands(verb: Verb, out: &mut String) -> Result<(), AllocError> {
    match verb {
        Verb::Pipe | Verb::Serve | Verb::Dump | Verb::Verify => Ok(()),
        Verb::Gen => {
            out.push_str("\n")?;
            push_operand("N 1..1000000", "how many requests are made", out)?;
            push_operand(
                "START 0..1000000",
                "request i is for queue (i + START) mod 4",
                out,
            )
        }
    }
}

// Appends the options that `verb` has, and where `beside` is given only those that this one has not.
fn push_options(verb: Verb, beside: Option<Verb>, out: &mut String) -> Result<(), AllocError> {
    for choice in &CHOICES {
        let is_told = match beside {
            Some(other) => is_offered(other, *choice),
            None => false,
        };
        if is_offered(verb, *choice) && !is_told {
            push_option(*choice, out)?;
        }
    }
    Ok(())
}

/// The help of one command: what it does and its options.
pub fn help_of(alloc: Global, verb: Verb) -> Result<String, AllocError> {
    let mut out = String::from_str(alloc, "mq_broker ")?;
    out.push_str(verb.word())?;
    out.push_str(operands(verb))?;
    out.push_str(" [OPTION VALUE]...\n\n  ")?;
    out.push_str(purpose(verb))?;
    push_operands(verb, &mut out)?;
    out.push_str("\n\noptions, each at most once and in any order:\n")?;
    push_options(verb, None, &mut out)?;
    Ok(out)
}

// Appends the line of a command.
fn push_command(verb: Verb, out: &mut String) -> Result<(), AllocError> {
    out.push_str("  ")?;
    out.push_str(verb.word())?;
    pad(verb.word().len().saturating_add(2), COMMAND_COLUMN, out)?;
    out.push_str(purpose(verb))?;
    out.push_str("\n")
}

// Appends the options of a tool, where the command is one.
fn push_tool(verb: Verb, out: &mut String) -> Result<(), AllocError> {
    match verb {
        Verb::Serve | Verb::Pipe => Ok(()),
        Verb::Dump | Verb::Verify | Verb::Gen => {
            out.push_str("\noption of ")?;
            out.push_str(verb.word())?;
            out.push_str(":\n")?;
            push_options(verb, None, out)
        }
    }
}

/// The help of a program that has these commands: what each does, and its options.
pub fn help(alloc: Global, verbs: &[Verb]) -> Result<String, AllocError> {
    let mut out = String::from_str(alloc, "mq_broker COMMAND [OPTION VALUE]...\n\ncommands:\n")?;
    for verb in verbs {
        push_command(*verb, &mut out)?;
    }
    out.push_str("\noptions of serve and pipe, each at most once and in any order:\n")?;
    push_options(Verb::Pipe, None, &mut out)?;
    out.push_str("\noptions of serve alone:\n")?;
    push_options(Verb::Serve, Some(Verb::Pipe), &mut out)?;
    for verb in verbs {
        push_tool(*verb, &mut out)?;
    }
    out.push_str("\nmq_broker --help | --version; mq_broker COMMAND --help\n")?;
    Ok(out)
}
