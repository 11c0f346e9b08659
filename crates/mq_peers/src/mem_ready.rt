//! Readiness without waiting: all that is registered is reported, so many times.

ghost use Rattle.std.specs.Prelude.{◌≡◌, ◌++◌, ◌∷◌, ◌-◌, ◌==◌, ◌↔◌, [], filter, not, IfOk, OnOk, OnErr};
ghost use Rattle.mq_outside.specs.Counts.{CountsDiskFault, CountsFailure};
ghost use Rattle.mq_peers.specs.Kept.{ends_of};
ghost use Rattle.mq_peers.specs.Reports.{events_of};

use crate::event::Event;
use crate::link::Link;
use crate::mem_door::MemDoor;
use crate::mem_ends::MemEnds;
use crate::ready::Ready;
use crate::wake::Wake;
use mq_outside::{DiskFault, Failed};
use std::alloc::{AllocError, Global};
use std::marker::PhantomData;

/// Reports all that is registered as ready both ways at each wait, so many times, and then fails. It never waits.
#[derive(Drop)]
pub struct MemReady<L: Link + Drop> {
    alloc: Global,
    tokens: Vec<u32>,
    // How many waits it has left.
    waits: u64,
    faults: u64,
    links: PhantomData<L>,
}

/// Wakes nobody, since nobody waits.
#[derive(Drop)]
pub struct MemWaker;

impl Wake for MemWaker {
    fn wake(&self) {}

    fn share(&self) -> Result<MemWaker, AllocError> {
        Ok(MemWaker)
    }
}

// An event both ways for each of these tokens.
fn report(tokens: &[u32], out: &mut Vec<Event>) -> Result<(), AllocError>
    requires { out.old.items ≡ [] }
    ensures { OnOk result (out.new.items ≡ events_of tokens.now) }
{
    for token in tokens {
        out.push(Event {
            token: *token,
            readable: true,
            writable: true,
            ended: false,
        })?;
    }
    Ok(())
}

impl<L: Link + Drop> MemReady<L> {
    /// With nothing registered, for so many waits.
    pub fn new(alloc: Global, waits: u64) -> MemReady<L>
        ensures tokens { result.tokens.items ≡ [] }
        ensures waits { result.waits ≡ waits }
        ensures faults { result.faults ≡ 0 }
    {
        MemReady {
            alloc,
            tokens: Vec::new(alloc),
            waits,
            faults: 0,
            links: PhantomData,
        }
    }

    // Registers what has this token.
    fn add(&mut self, token: u32) -> Result<(), DiskFault>
        ensures added { OnOk result (self.new.tokens.items ≡ self.old.tokens.items ++ token ∷ []) }
        ensures still { OnErr result (self.new.tokens.items ≡ self.old.tokens.items) }
        ensures cause { CountsDiskFault result self.old.faults self.new.faults }
        ensures waits { self.new.waits ≡ self.old.waits }
    {
        match self.tokens.push(token) {
            Ok(()) => Ok(()),
            Err(_) => Err(DiskFault::Memory),
        }
    }
}

impl<L: Link + Send + Drop> Ready for MemReady<L> {
    type Link = L;

    type Door = MemDoor<L>;

    type Ends = MemEnds<L>;

    type Waker = MemWaker;

    ghost faults = { λ s. s.faults };

    fn twin(&mut self) -> Result<MemReady<L>, DiskFault>
        ensures fresh { IfOk result (λ twin. twin.faults ≡ 0) }
        ensures cause { CountsDiskFault result self.old.faults self.new.faults }
        ensures waits { IfOk result (λ twin. twin.waits ≡ self.old.waits) }
        ensures tokens { IfOk result (λ twin. twin.tokens.items ≡ []) }
        ensures still { self.new ≡ self.old }
    {
        Ok(MemReady::new(self.alloc, self.waits))
    }

    fn ends(&self) -> MemEnds<L>
        ensures none { L.tells → ends_of L.peer L.given L.taken result.links.items ≡ [] }
    {
        MemEnds::new(self.alloc)
    }

    fn waker(&self) -> Result<MemWaker, AllocError> {
        Ok(MemWaker)
    }

    fn register(&mut self, _link: &mut L, token: u32) -> Result<(), DiskFault>
        ensures same { _link.new ≡ _link.old }
        ensures cause { CountsDiskFault result self.old.faults self.new.faults }
        ensures added { OnOk result (self.new.tokens.items ≡ self.old.tokens.items ++ token ∷ []) }
        ensures still { OnErr result (self.new.tokens.items ≡ self.old.tokens.items) }
        ensures waits { self.new.waits ≡ self.old.waits }
    {
        self.add(token)
    }

    fn register_door(&mut self, _door: &mut MemDoor<L>, token: u32) -> Result<(), DiskFault>
        ensures same { _door.new ≡ _door.old }
        ensures cause { CountsDiskFault result self.old.faults self.new.faults }
        ensures added { OnOk result (self.new.tokens.items ≡ self.old.tokens.items ++ token ∷ []) }
        ensures still { OnErr result (self.new.tokens.items ≡ self.old.tokens.items) }
        ensures waits { self.new.waits ≡ self.old.waits }
    {
        self.add(token)
    }

    fn deregister(&mut self, _link: &mut L, token: u32) -> Result<(), Failed>
        ensures same { _link.new ≡ _link.old }
        ensures cause { CountsFailure result self.old.faults self.new.faults }
        ensures removed { self.new.tokens.items ≡ filter (λ one. not (one == token)) self.old.tokens.items }
        ensures waits { self.new.waits ≡ self.old.waits }
    {
        self.tokens.retain(|one| *one != token);
        Ok(())
    }

    fn wait(&mut self, _timeout_millis: Option<u64>, out: &mut Vec<Event>) -> Result<(), DiskFault>
        ensures cause { CountsDiskFault result self.old.faults self.new.faults }
        ensures none { OnErr result (out.new.items ≡ []) }
        ensures reports { OnOk result (out.new.items ≡ events_of self.old.tokens.items) }
        ensures stops { (result ≡ Err DiskFault.Failed) ↔ (self.old.waits ≡ 0) }
        ensures waits { self.new.waits ≡ self.old.waits - 1 }
        ensures tokens { self.new.tokens.items ≡ self.old.tokens.items }
    {
        out.clear();
        if self.waits == 0 {
            self.faults = self.faults.saturating_add(1);
            return Err(DiskFault::Failed);
        }
        self.waits -= 1;
        match report(&self.tokens, out) {
            Ok(()) => Ok(()),
            Err(_) => {
                out.clear();
                Err(DiskFault::Memory)
            }
        }
    }
}
