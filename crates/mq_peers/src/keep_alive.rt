//! Keep-alive of a TCP connection: probes that find a peer that has vanished without an end.

ghost use Rattle.libc.specs.Net.{SockOption};

use libc::net as c;
use mio::net::TcpStream;
use std::os::fd::{AsRawFd, RawFd};

/// After this many seconds without a byte from the peer it is probed.
const IDLE_SECONDS: i32 = 60;

/// Seconds between two probes.
const INTERVAL_SECONDS: i32 = 15;

/// After this many probes without an answer the connection has failed: two minutes after the peer's last byte.
const PROBES: i32 = 4;

// Sets an option of a socket whose value is an `int` of C's. Answers whether the system took it.
fn set_option(fd: RawFd, level: i32, name: i32, value: i32) -> bool
    requires option { SockOption level name }
{
    let mut bytes = [0u8; 16];
    bytes[..4].copy_from_slice(&value.to_ne_bytes());
    // No pointer is passed: the option's value is the first four of these bytes.
    unsafe { c::setsockopt(fd, level, name, &bytes, 4) == 0 }
}

/// Has the system probe a peer that says nothing, and fail reads and writes where it does not answer. Answers whether
/// the system does. A peer that owes the acknowledgement of bytes is not probed: they are sent again, and given up by
/// the system's own limit.
pub(crate) fn set_keep_alive(stream: &TcpStream) -> bool {
    let fd = stream.as_raw_fd();
    set_option(fd, c::IPPROTO_TCP, c::TCP_KEEPIDLE, IDLE_SECONDS)
        && set_option(fd, c::IPPROTO_TCP, c::TCP_KEEPINTVL, INTERVAL_SECONDS)
        && set_option(fd, c::IPPROTO_TCP, c::TCP_KEEPCNT, PROBES)
        && set_option(fd, c::SOL_SOCKET, c::SO_KEEPALIVE, 1)
}
