//! One link's talk: its stream comes in pieces, and its requests are heard one by one. Responses are skipped.

ghost use Rattle.std.specs.Prelude.{◌≡◌, ◌<◌, ◌++◌, [], length, OnOk, OnErr};
ghost use Rattle.session.specs.Hearing.{Hears};

use crate::heard::{Heard, hear, is_response};
use remoting_frame::{Cutter, FrameFault};
use std::alloc::{AllocError, Global};

/// A link with its stream. It is seen as the link's number and host, and as what its cutter holds: the place at which the
/// next frame starts, and the bytes from there on.
#[derive(Drop)]
pub struct Talk {
    // Constant.
    link: u32,
    host: [u8; 8],
    // What is held of the stream.
    cutter: Cutter,
}

impl Talk {
    /// The beginning of a link's stream. The host is its peer, an IPv4 address and a port of four bytes each.
    pub fn new(alloc: Global, link: u32, host: [u8; 8]) -> Talk
        ensures link { result.link ≡ link }
        ensures host { result.host ≡ host }
        ensures held { result.cutter ≡ record { at = 0; bytes = [] } }
    {
        Talk {
            link,
            host,
            cutter: Cutter::new(alloc),
        }
    }

    /// The link's number.
    pub fn link(&self) -> u32
        ensures { result ≡ self.now.link }
    {
        self.link
    }

    /// The link's peer.
    pub fn host(&self) -> [u8; 8]
        ensures { result ≡ self.now.host }
    {
        self.host
    }

    /// Takes the next piece of the stream. A stream longer than 2^64 - 1 bytes is refused as want of memory; a piece of no
    /// bytes never is.
    pub fn feed(&mut self, piece: &[u8]) -> Result<(), AllocError>
        ensures ok { OnOk result (self.new.cutter ≡ record { at = self.old.cutter.at; bytes = self.old.cutter.bytes ++ piece.now }) }
        ensures err { OnErr result (self.new.cutter ≡ self.old.cutter) }
        ensures some { OnErr result (0 < length piece.now) }
        ensures link { self.new.link ≡ self.old.link }
        ensures host { self.new.host ≡ self.old.host }
    {
        self.cutter.feed(piece)
    }

    /// The next request, or `None` where the bytes held behind the responses are neither a whole frame nor show a fault. A
    /// fault is answered again by each further call, whatever is fed. At `Memory` the call may be made again.
    pub fn next(&mut self, alloc: Global) -> Result<Option<Heard>, FrameFault>
        ensures hears { Hears self.old.cutter result self.new.cutter }
        ensures link { self.new.link ≡ self.old.link }
        ensures host { self.new.host ≡ self.old.host }
    {
        'skip: loop {
            let frame = match self.cutter.next(alloc) {
                Err(fault) => return Err(fault),
                Ok(None) => return Ok(None),
                Ok(Some(frame)) => frame,
            };
            if !is_response(&frame.header) {
                return Ok(Some(hear(alloc, frame)));
            }
            drop(frame);
        }
    }

    /// The place at which the next frame starts, and how many bytes of it and what follows are held.
    pub fn rest(&self) -> (u64, u64)
        ensures { (result.0 ≡ self.now.cutter.at) × (result.1 ≡ length self.now.cutter.bytes) }
    {
        self.cutter.rest()
    }
}
