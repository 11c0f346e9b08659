//! Whether the clock was ahead once: store times never fall, so a log whose last record was stored at a time that is still
//! to come gives that time to all that is stored until the clock is there.

use crate::folder_bytes::read_up_to;
use crate::folder_place::Place;
use mq_outside::{Clock as _, MachineClock};
use record_codec::{size_in_front, test};
use std::alloc::Global;
use std::fs::File;
use std::io;
use std::rt::{Clock, Files};

// A clock may be ahead by so many milliseconds before it is told.
const LEEWAY: u64 = 60_000;

// The last record is looked for in so many bytes at the end of a log file: none is longer.
const END: u64 = 8_388_608;

// So many places that look like the record's are tried: bodies are the senders', and may be made to look so.
const TRIES: u32 = 16;

// Where a record says its physical offset.
const OFFSET_AT: usize = 28;

// Whether a record that says this place as its own may begin these bytes.
fn is_likely(bytes: &[u8], place: u64) -> bool {
    if size_in_front(bytes).is_none() {
        return false;
    }
    match bytes.get(OFFSET_AT..OFFSET_AT + 8) {
        Some(offset) => offset == place.to_be_bytes().as_slice(),
        None => false,
    }
}

// The store time of the last record in these bytes, which begin at this physical offset.
fn last_time_in(bytes: &[u8], place: u64) -> Option<u64> {
    let mut tries: u32 = 0;
    for back in 0..bytes.len() {
        let at = bytes.len() - 1 - back;
        if is_likely(&bytes[at..], place.saturating_add(at as u64)) {
            if let Some(view) = test(&bytes[at..]) {
                return Some(view.store());
            }
            tries = tries.saturating_add(1);
            if tries >= TRIES {
                return None;
            }
        }
    }
    None
}

// The store time of the last record of a log file that begins at this physical offset.
fn last_time(alloc: Global, file: &File, base: u64) -> Option<u64> {
    let len = file.metadata().ok()?.len();
    let from = len.saturating_sub(END);
    let size = usize::try_from(len - from).ok()?;
    let mut bytes = vec![in alloc; 0; size].ok()?;
    let n = read_up_to(file, from, bytes.as_mut_slice()).ok()?;
    last_time_in(&bytes[..n], base.saturating_add(from))
}

/// Tells where the last record of this log file was stored later than it is now. Nothing is told where that can't be found.
pub(crate) fn tell_clock<R: Files<File = File> + Clock + Eprint + AllocGlobal + Clone + Drop>(
    place: &Place<R>,
    file: &File,
    base: u64,
) {
    let (Some(stored), Ok(now)) = (
        last_time(place.rt.alloc(), file, base),
        MachineClock::new(&place.rt).now(),
    ) else {
        return;
    };
    let ahead = stored.saturating_sub(now);
    if ahead <= LEEWAY {
        return;
    }
    let root = place.root.as_str();
    let told = eprintln!(place.rt;
        "mq_broker: the last record of {root} was stored {ahead} ms ahead of the clock: until the clock is there \
         new messages get its store time, and delayed messages and check-backs wait"
    );
    if told.is_err() {}
}
