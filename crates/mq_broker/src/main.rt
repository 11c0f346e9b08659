//! `mq_broker pipe` answers the requests of standard input on standard output; `mq_broker serve` accepts connections over TCP;
//! `mq_broker dump` and `mq_broker verify` tell what a store holds, and `mq_broker gen` fills one. A standard input, output or
//! error that is closed is opened on `/dev/null` before anything else, and the arguments are read before anything is made.
//! Standard output has replies and the texts of the tools, of `--help` and of `--version` alone; standard error has one line for
//! each run that ends with another status than 0, two of each run of `serve`, and one where a start finds something amiss.
#![tactic(auto)]

mod asked;
mod descriptors;
mod room;
mod running;
mod telling;
mod tooling;

use asked::{Asked, COMMANDS, asked_of, texts_of};
use descriptors::open_standard;
use exit_status::usage_line;
use running::run_target;
use std::alloc::{AllocError, Global};
use std::process::ExitCode;
use std::sync::Wait;
use std::thread::Threads;
use store_open::{help, help_of};
use telling::{say, warn};
use tooling::{fill_store, use_tool};

/// The status of a usage error, and of a closed standard input, output or error.
const USAGE: u8 = 1;

/// The status of a run that is out of memory.
const NO_MEMORY: u8 = 7;

/// The text of `--version`.
const VERSION: &str = "mq_broker 0.1.0\n";

// The arguments. If one isn't UTF-8, a single empty argument, which is a usage error.
fn words_of(rt: HostRuntime, alloc: Global) -> Result<Vec<String>, AllocError> {
    let mut words = Vec::new(alloc);
    match std::env::args(&rt) {
        Ok(args) => {
            for word in args.skip(1) {
                words.push(word)?;
            }
        }
        Err(_) => words.push(String::new(alloc))?,
    }
    Ok(words)
}

// Does what the arguments ask for, and answers the exit status.
fn run_words<W: Wait + Threads + Sync>(
    threads: &W,
    rt: HostRuntime,
    alloc: Global,
    words: &[&str],
) -> Result<u8, AllocError> {
    match asked_of(words) {
        Asked::Help => Ok(say(rt, help(alloc, &COMMANDS)?.as_str())),
        Asked::HelpOf(verb) => Ok(say(rt, help_of(alloc, verb)?.as_str())),
        Asked::Version => Ok(say(rt, VERSION)),
        Asked::Unfit(place) => {
            warn(rt, usage_line(alloc, words, place)?.as_str());
            Ok(USAGE)
        }
        Asked::Run(target) => run_target(threads, rt, alloc, words, &target),
        Asked::Use(tool, store) => use_tool(rt, alloc, words, tool, store),
        Asked::Fill(store) => fill_store(rt, alloc, words, store),
    }
}

// Takes the arguments, and does as they say.
fn run_program<W: Wait + Threads + Sync>(
    threads: &W,
    rt: HostRuntime,
    alloc: Global,
) -> Result<u8, AllocError> {
    let words = words_of(rt, alloc)?;
    let texts = texts_of(alloc, words.as_slice())?;
    run_words(threads, rt, alloc, texts.as_slice())
}

fn main(rt: HostRuntime) -> ExitCode {
    if open_standard(rt).is_err() {
        warn(
            rt,
            "mq_broker: standard input, output or error is closed, and /dev/null can't be opened (status 1): open all three",
        );
        return ExitCode::from(USAGE);
    }
    let alloc = rt.alloc();
    match run_program(&rt, rt, alloc) {
        Ok(code) => ExitCode::from(code),
        Err(AllocError) => {
            warn(
                rt,
                "mq_broker: out of memory (status 7): give it more memory, then run again",
            );
            ExitCode::from(NO_MEMORY)
        }
    }
}
