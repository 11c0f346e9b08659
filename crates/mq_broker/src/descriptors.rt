//! The descriptors of this process: standard input, output and error, and how many files it may have open.

use libc::net::{POLLNVAL, poll};
use libc::types::{pollfd, rlimit};
use std::fs::OpenOptions;
use std::io;
use std::os::fd::IntoRawFd;

/// The descriptors of standard input, output and error.
const STANDARD: [i32; 3] = [0, 1, 2];

// What is asked of a descriptor by poll: nothing but whether it is one.
fn asked_of(fd: i32) -> pollfd {
    pollfd {
        fd,
        events: 0,
        revents: 0,
    }
}

// Whether standard input, output and error are open. Where the system doesn't say, they aren't.
fn are_open() -> bool {
    let [input, output, error] = STANDARD;
    let mut asked = [asked_of(input), asked_of(output), asked_of(error)];
    let answer = poll(&mut asked, 0);
    answer >= 0 && asked.iter().all(|one| one.revents & POLLNVAL == 0)
}

/// Opens `/dev/null` in place of each of standard input, output and error that is closed, and leaves it open. No file that is
/// opened from then on gets one of their numbers, so that what is printed can't go into a file of a store.
pub(crate) fn open_standard(rt: HostRuntime) -> io::Result<()> {
    let mut options = OpenOptions::new();
    options.read(true).write(true);
    // What is opened gets the lowest number that is free.
    for _ in STANDARD {
        if are_open() {
            break;
        }
        options.open(&rt, "/dev/null")?.into_raw_fd();
    }
    Ok(())
}

/// How many files this process may have open, by the limit that holds now. `None` where the system doesn't say.
pub(crate) fn open_files_limit() -> Option<u64> {
    let mut limit = rlimit {
        rlim_cur: 0,
        rlim_max: 0,
    };
    if libc::getrlimit(libc::RLIMIT_NOFILE, &mut limit) != 0 {
        return None;
    }
    Some(limit.rlim_cur)
}
