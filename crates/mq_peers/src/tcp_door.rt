//! A door over TCP: peers come in by IPv4, links don't wait to gather what they send, and peers that vanish are found.

ghost use Rattle.std.specs.Prelude.{◌≡◌, IfOk, IfSome};
ghost use Rattle.mq_outside.specs.Counts.{Rises};

use crate::door::Door;
use crate::keep_alive::set_keep_alive;
use crate::link::Link;
use crate::tcp_link::{TcpLink, peer_of};
use mio::net::{TcpListener, TcpStream};
use mq_outside::Failed;
use std::io;
use std::io::ErrorKind;
use std::net::{Ipv4Addr, Net, SocketAddr};

// Errors of Linux's `accept` that have no kind of their own.
const TABLE_FULL: i32 = 23; // ENFILE: no more descriptors in the system

const PROCESS_FULL: i32 = 24; // EMFILE: no more descriptors in the process

const NO_BUFFERS: i32 = 105; // ENOBUFS

const NO_MEMORY: i32 = 12; // ENOMEM

const PEER_ERRORS: [i32; 5] = [
    64, // ENONET: no network on the peer's machine
    71, // EPROTO: the peer broke the protocol
    92, // ENOPROTOOPT
    95, // EOPNOTSUPP
    112, // EHOSTDOWN: the peer's machine is down
];

/// A door over TCP, on one address of this machine or on all. Where the system has no descriptor or no memory for one
/// more link it says 'not now', and the peer waits: ask again once a link was closed.
#[derive(Drop)]
pub struct TcpDoor<R: Net + Drop> {
    rt: R,
    address: Ipv4Addr,
    // None until it is open.
    pub(crate) listener: Option<TcpListener>,
    faults: u64,
    // How many links it gave.
    gave: u64,
}

// Whom a refusal of `accept` concerns.
enum Refusal {
    // Nobody waits, or the system has no room for one more.
    NotNow,
    // A peer that can't be let in, and that leaves the door as it is.
    OfPeer,
    OfDoor,
}

// What an error of `accept` says.
fn refusal_of(error: &io::Error) -> Refusal {
    if let Some(code) = error.raw_os_error() {
        if PEER_ERRORS.contains(&code) {
            return Refusal::OfPeer;
        }
        if [TABLE_FULL, PROCESS_FULL, NO_BUFFERS, NO_MEMORY].contains(&code) {
            return Refusal::NotNow;
        }
    }
    match error.kind() {
        ErrorKind::WouldBlock => Refusal::NotNow,
        ErrorKind::Interrupted
        | ErrorKind::ConnectionAborted
        | ErrorKind::ConnectionReset
        | ErrorKind::HostUnreachable
        | ErrorKind::NetworkDown
        | ErrorKind::NetworkUnreachable
        | ErrorKind::PermissionDenied
        | ErrorKind::TimedOut => Refusal::OfPeer,
        _ => Refusal::OfDoor,
    }
}

// The link of a stream that came from this address. A peer that isn't at an IPv4 address is closed, and so is one of
// whose stream the system refuses an option.
fn link_of(stream: TcpStream, address: SocketAddr) -> Option<TcpLink>
    ensures faults { IfSome result (λ link. ⟦<TcpLink as Link>⟧.faults link ≡ 0) }
{
    let SocketAddr::V4(address) = address else {
        return None;
    };
    if stream.set_nodelay(true).is_err() || !set_keep_alive(&stream) {
        return None;
    }
    Some(TcpLink::new(stream, peer_of(&address)))
}

// Accepts until a peer is let in or none waits.
fn accept_some(listener: &TcpListener) -> Result<Option<TcpLink>, Failed>
    ensures faults { IfOk result (λ came. IfSome came (λ link. ⟦<TcpLink as Link>⟧.faults link ≡ 0)) }
{
    for _ in 0..u64::MAX {
        match listener.accept() {
            Ok((stream, address)) => {
                if let Some(link) = link_of(stream, address) {
                    return Ok(Some(link));
                }
            }
            Err(error) => match refusal_of(&error) {
                Refusal::NotNow => return Ok(None),
                Refusal::OfPeer => {}
                Refusal::OfDoor => return Err(Failed),
            },
        }
    }
    Err(Failed)
}

impl<R: Net + Drop> TcpDoor<R> {
    /// A door on all addresses of this machine.
    pub fn new(rt: R) -> TcpDoor<R>
        ensures { result.faults ≡ 0 }
    {
        TcpDoor::at(rt, Ipv4Addr::UNSPECIFIED)
    }

    /// A door on this address alone, as `Ipv4Addr::LOCALHOST`.
    pub fn at(rt: R, address: Ipv4Addr) -> TcpDoor<R>
        ensures { result.faults ≡ 0 }
    {
        TcpDoor {
            rt,
            address,
            listener: None,
            faults: 0,
            gave: 0,
        }
    }

    /// The port on which it listens, `None` until it is open. It is of the system's choice where 0 was opened.
    pub fn port(&self) -> Option<u16> {
        match &self.listener {
            Some(listener) => listener.local_addr().ok().map(|address| address.port()),
            None => None,
        }
    }

    // The next link, if one waits.
    fn next_link(&self) -> Result<Option<TcpLink>, Failed>
        ensures faults { IfOk result (λ came. IfSome came (λ link. ⟦<TcpLink as Link>⟧.faults link ≡ 0)) }
    {
        match &self.listener {
            Some(listener) => accept_some(listener),
            None => Err(Failed),
        }
    }

    // Counts a failure.
    fn fail(&mut self) -> Failed
        ensures faults { Rises self.old.faults self.new.faults }
        ensures gave { self.new.gave ≡ self.old.gave }
    {
        self.faults = self.faults.saturating_add(1);
        Failed
    }
}

impl<R: Net + Drop> Door for TcpDoor<R> {
    type Link = TcpLink;

    ghost faults = { λ s. s.faults };

    ghost gave = { λ s. s.gave };

    fn open(&mut self, port: u16) -> Result<(), Failed> {
        let address = SocketAddr::from((self.address, port));
        match TcpListener::bind(&self.rt, address) {
            Ok(listener) => {
                self.listener = Some(listener);
                Ok(())
            }
            Err(_) => {
                self.faults = self.faults.saturating_add(1);
                Err(Failed)
            }
        }
    }

    fn accept(&mut self) -> Result<Option<TcpLink>, Failed> {
        // It counts no further.
        let Some(gave) = self.gave.checked_add(1) else {
            return Err(self.fail());
        };
        match self.next_link() {
            Ok(Some(link)) => {
                self.gave = gave;
                Ok(Some(link))
            }
            Ok(None) => Ok(None),
            Err(Failed) => Err(self.fail()),
        }
    }
}
