//! Readiness of links over TCP, by the system's own poll.

ghost use Rattle.std.specs.Prelude.{◌≡◌, IfOk};
ghost use Rattle.mq_outside.specs.Counts.{Rises};

use crate::event::Event;
use crate::ready::Ready;
use crate::tcp_door::TcpDoor;
use crate::tcp_ends::TcpEnds;
use crate::tcp_link::TcpLink;
use crate::wake::Wake;
use mio::{Events, Interest, Poll, Token};
use mq_outside::{DiskFault, Failed};
use std::alloc::{AllocError, Global};
use std::net::Net;
use std::sync::Arc;
use std::time::Duration;

// The most events of one wait. What is ready beyond them is reported by the next.
const MOST_EVENTS: usize = 256;

// The token of the waker, above each token of a link.
const WAKER: usize = 1 << 32;

/// Ends the waits of a `TcpReady`.
#[derive(Drop)]
pub struct TcpWaker {
    inner: Arc<mio::Waker, Global>,
}

impl Wake for TcpWaker {
    fn wake(&self) {
        let _ = self.inner.wake();
    }

    fn share(&self) -> Result<TcpWaker, AllocError> {
        Ok(TcpWaker {
            inner: Arc::try_clone(&self.inner)?,
        })
    }
}

/// Waits for links and doors over TCP.
#[derive(Drop)]
pub struct TcpReady<R: Net + Copy + Drop> {
    rt: R,
    alloc: Global,
    poll: Poll,
    events: Events,
    waker: TcpWaker,
    faults: u64,
}

// What was reported, but wakes. A peer that left is worth a read and a write, which then answer so.
fn put_events(events: &Events, out: &mut Vec<Event>) -> Result<(), AllocError> {
    for event in events {
        if let Ok(token) = u32::try_from(event.token().0) {
            let ended = event.is_read_closed() || event.is_error();
            let readable = event.is_readable() || ended;
            let writable = event.is_writable() || event.is_write_closed() || event.is_error();
            out.push(Event {
                token,
                readable,
                writable,
                ended,
            })?;
        }
    }
    Ok(())
}

impl<R: Net + Copy + Drop> TcpReady<R> {
    /// With nothing registered. It takes memory for the events of a wait.
    pub fn new(rt: R, alloc: Global) -> Result<TcpReady<R>, DiskFault>
        ensures faults { IfOk result (λ ready. ready.faults ≡ 0) }
    {
        let Ok(events) = Events::with_capacity(alloc, MOST_EVENTS) else {
            return Err(DiskFault::Memory);
        };
        let Ok(poll) = Poll::new(&rt) else {
            return Err(DiskFault::Failed);
        };
        let Ok(waker) = mio::Waker::new(poll.registry(), Token(WAKER)) else {
            return Err(DiskFault::Failed);
        };
        let Ok(inner) = Arc::new(alloc, waker) else {
            return Err(DiskFault::Memory);
        };
        Ok(TcpReady {
            rt,
            alloc,
            poll,
            events,
            waker: TcpWaker { inner },
            faults: 0,
        })
    }

    // Counts a failure.
    fn fail(&mut self) -> DiskFault
        ensures failed { result ≡ DiskFault.Failed }
        ensures faults { Rises self.old.faults self.new.faults }
    {
        self.faults = self.faults.saturating_add(1);
        DiskFault::Failed
    }
}

impl<R: Net + Copy + Send + Drop> Ready for TcpReady<R> {
    type Link = TcpLink;

    type Door = TcpDoor<R>;

    type Ends = TcpEnds;

    type Waker = TcpWaker;

    ghost faults = { λ s. s.faults };

    fn twin(&mut self) -> Result<TcpReady<R>, DiskFault> {
        match TcpReady::new(self.rt, self.alloc) {
            Ok(twin) => Ok(twin),
            Err(DiskFault::Memory) => Err(DiskFault::Memory),
            Err(DiskFault::Failed) => Err(self.fail()),
        }
    }

    fn ends(&self) -> TcpEnds {
        TcpEnds::new()
    }

    fn waker(&self) -> Result<TcpWaker, AllocError> {
        self.waker.share()
    }

    fn register(&mut self, link: &mut TcpLink, token: u32) -> Result<(), DiskFault> {
        let Some(stream) = &mut link.stream else {
            return Err(self.fail());
        };
        let both = Interest::READABLE | Interest::WRITABLE;
        match self
            .poll
            .registry()
            .register(stream, Token(token as usize), both)
        {
            Ok(()) => Ok(()),
            Err(_) => Err(self.fail()),
        }
    }

    fn register_door(&mut self, door: &mut TcpDoor<R>, token: u32) -> Result<(), DiskFault> {
        let Some(listener) = &mut door.listener else {
            return Err(self.fail());
        };
        match self
            .poll
            .registry()
            .register(listener, Token(token as usize), Interest::READABLE)
        {
            Ok(()) => Ok(()),
            Err(_) => Err(self.fail()),
        }
    }

    fn deregister(&mut self, link: &mut TcpLink, _token: u32) -> Result<(), Failed> {
        let Some(stream) = &mut link.stream else {
            return Ok(());
        };
        match self.poll.registry().deregister(stream) {
            Ok(()) => Ok(()),
            Err(_) => {
                let _ = self.fail();
                Err(Failed)
            }
        }
    }

    fn wait(&mut self, timeout_millis: Option<u64>, out: &mut Vec<Event>) -> Result<(), DiskFault> {
        out.clear();
        if out.reserve(MOST_EVENTS).is_err() {
            return Err(DiskFault::Memory);
        }
        let timeout = timeout_millis.map(Duration::from_millis);
        if self.poll.poll(&mut self.events, timeout).is_err() {
            return Err(self.fail());
        }
        match put_events(&self.events, out) {
            Ok(()) => Ok(()),
            Err(_) => {
                out.clear();
                Err(DiskFault::Memory)
            }
        }
    }
}
