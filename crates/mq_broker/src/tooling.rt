//! A tool, and the generator, over the real devices: the folder of the store and standard output.

use crate::running::{store_in, store_to_read, tell_run};
use crate::telling::warn;
use gen_run::run_gen;
use mq_outside::StdSink;
use std::alloc::{AllocError, Global};
use store_open::{Tool, Verb};
use tool_run::run_tool;

/// The status of a store that isn't for the command.
const FOREIGN: u8 = 6;

/// Uses the tool over the store in this folder, which it only reads, and answers the exit status. These are its arguments.
pub(crate) fn use_tool(
    rt: HostRuntime,
    alloc: Global,
    words: &[&str],
    tool: Tool,
    folder: &str,
) -> Result<u8, AllocError> {
    let mut store = store_to_read(rt, alloc, folder)?;
    let sink = StdSink::new(rt);
    let ran = run_tool(alloc, tool, words, sink, &mut store.disk, &mut store.keep);
    tell_run(rt, alloc, tool.verb(), folder, "", &store, &ran.status)
}

// Prints that the store has records, which the generator leaves alone, and answers the exit status.
fn tell_records(rt: HostRuntime, alloc: Global, store: &str) -> Result<u8, AllocError> {
    let line = format!(in alloc;
        "mq_broker: {store} has records (status 6): name an empty folder by --store; nothing was changed"
    )?;
    warn(rt, line.as_str());
    Ok(FOREIGN)
}

/// Fills the store in this folder, and answers the exit status. These are the arguments of `gen`.
pub(crate) fn fill_store(
    rt: HostRuntime,
    alloc: Global,
    words: &[&str],
    folder: &str,
) -> Result<u8, AllocError> {
    let mut store = store_in(rt, alloc, folder)?;
    let sink = StdSink::new(rt);
    let ran = run_gen(alloc, words, sink, &mut store.disk, &mut store.keep);
    if ran.status.code == FOREIGN && ran.status.name.as_str() == "records" {
        return tell_records(rt, alloc, folder);
    }
    tell_run(rt, alloc, Verb::Gen, folder, "", &store, &ran.status)
}
