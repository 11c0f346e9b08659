//! A link over TCP. Its stream doesn't wait: where it would, it says 'not now'.

ghost use Rattle.std.specs.Prelude.{◌≡◌, ◌≤◌, ◌<◌, ◌++◌, ◌∷◌, ◌/◌, ◌%◌, [], length, IfOk, IfSome};
ghost use Rattle.std.specs.Io.KnownBytes.{Appends, Consumes, IsAtEnd};
ghost use Rattle.std.specs.Net.Addr.{ipv4_octets};
ghost use Rattle.std.specs.Net.Socket.{v4_ip, v4_port};
ghost use Rattle.mq_outside.specs.Counts.{Rises};
ghost use Rattle.mq_peers.specs.Passing.{IfBytes, bytes_read, bytes_taken};

use crate::incoming::Incoming;
use crate::link::Link;
use mio::net::TcpStream;
use mq_outside::Failed;
use std::io::{ErrorKind, Read, Write};
use std::net::{Shutdown, SocketAddrV4};

/// A link over TCP. It says nothing of the bytes that pass, and fails where the system refuses. To close it while bytes
/// have come that weren't read resets it, and what it took may then be lost on its way: call `done` and read on first.
#[derive(Drop)]
pub struct TcpLink {
    // None once it is closed.
    pub(crate) stream: Option<TcpStream>,
    peer: [u8; 8],
    faults: u64,
}

// Four bytes of the address, then the port in four bytes, the high byte first.
pub(crate) fn peer_of(address: &SocketAddrV4) -> [u8; 8]
    ensures { result ≡ ipv4_octets (v4_ip address.now)
        ++ 0 ∷ 0 ∷ (v4_port address.now / 256) ∷ (v4_port address.now % 256) ∷ [] }
{
    let [a, b, c, d] = address.ip().octets();
    let [high, low] = address.port().to_be_bytes();
    [a, b, c, d, 0, 0, high, low]
}

// One read, made again where a signal interrupts it.
pub(crate) fn read_now<R: Read>(stream: &mut R, out: &mut [u8]) -> Result<Incoming, Failed>
    ensures within { IfBytes result (λ n. n ≤ length out.old) }
    ensures some { IfBytes result (λ n. 0 < n) }
    ensures bytes { Consumes (R.remaining stream.old) (R.remaining stream.new) (bytes_read result out.new) }
    ensures end { result ≡ Ok Incoming.End → IsAtEnd (R.remaining stream.new) }
{
    if out.is_empty() {
        return Ok(Incoming::NotNow);
    }
    for _ in 0..u64::MAX {
        match stream.read(out) {
            Ok(0) => return Ok(Incoming::End),
            Ok(n) => return Ok(Incoming::Bytes(n)),
            Err(e) => {
                if e.kind() == ErrorKind::WouldBlock {
                    return Ok(Incoming::NotNow);
                }
                if e.kind() != ErrorKind::Interrupted {
                    return Err(Failed);
                }
            }
        }
    }
    Err(Failed)
}

// One write, made again where a signal interrupts it. A write that takes nothing of a piece is a failure.
pub(crate) fn write_now<W: Write>(stream: &mut W, piece: &[u8]) -> Result<Option<usize>, Failed>
    ensures within { IfOk result (λ took. IfSome took (λ n. n ≤ length piece.now)) }
    ensures some { IfOk result (λ took. IfSome took (λ n. 0 < length piece.now → 0 < n)) }
    ensures bytes { Appends (W.contents stream.old) (W.contents stream.new) (bytes_taken result piece.now) }
{
    for _ in 0..u64::MAX {
        match stream.write(piece) {
            Ok(n) => {
                if n == 0 && !piece.is_empty() {
                    return Err(Failed);
                }
                return Ok(Some(n));
            }
            Err(e) => {
                if e.kind() == ErrorKind::WouldBlock {
                    return Ok(None);
                }
                if e.kind() != ErrorKind::Interrupted {
                    return Err(Failed);
                }
            }
        }
    }
    Err(Failed)
}

impl TcpLink {
    // The link of a stream that doesn't wait.
    pub(crate) fn new(stream: TcpStream, peer: [u8; 8]) -> TcpLink
        ensures peer { result.peer ≡ peer }
        ensures faults { result.faults ≡ 0 }
    {
        TcpLink {
            stream: Some(stream),
            peer,
            faults: 0,
        }
    }

    // Counts a failure.
    fn fail(&mut self) -> Failed
        ensures faults { Rises self.old.faults self.new.faults }
        ensures peer { self.new.peer ≡ self.old.peer }
    {
        self.faults = self.faults.saturating_add(1);
        Failed
    }
}

impl Link for TcpLink {
    ghost tells = { ⊥ };

    ghost given = { λ _. [] };

    ghost left = { λ _. [] };

    ghost taken = { λ _. [] };

    ghost peer = { λ s. s.peer };

    ghost faults = { λ s. s.faults };

    fn read(&mut self, out: &mut [u8]) -> Result<Incoming, Failed> {
        let Some(stream) = &mut self.stream else {
            return Err(self.fail());
        };
        match read_now(stream, out) {
            Ok(incoming) => Ok(incoming),
            Err(Failed) => Err(self.fail()),
        }
    }

    fn write(&mut self, piece: &[u8]) -> Result<Option<usize>, Failed> {
        let Some(stream) = &mut self.stream else {
            return Err(self.fail());
        };
        match write_now(stream, piece) {
            Ok(took) => Ok(took),
            Err(Failed) => Err(self.fail()),
        }
    }

    fn done(&mut self) {
        if let Some(stream) = &self.stream {
            let _ = stream.shutdown(Shutdown::Write);
        }
    }

    fn close(&mut self) {
        self.stream = None;
    }

    fn peer(&self) -> [u8; 8] {
        self.peer
    }
}
