//! What the program prints besides replies.

/// The status where standard output failed.
const SINK: u8 = 4;

/// Prints a text on standard output, and answers the exit status.
pub(crate) fn say(rt: HostRuntime, text: &str) -> u8 {
    match print!(rt; "{text}") {
        Ok(()) => 0,
        Err(_) => SINK,
    }
}

/// Prints a line on standard error. Where that fails nothing else would tell of it.
pub(crate) fn warn(rt: HostRuntime, line: &str) {
    if eprintln!(rt; "{line}").is_err() {}
}
