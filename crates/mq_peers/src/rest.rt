//! Resting for a while.

use std::time::Duration;
use std::{rt, thread};

/// What rests for a while. Nothing is claimed of how long.
pub trait Rest {
    /// Rests for about so many milliseconds.
    fn rest(&mut self, millis: u64);
}

/// Rests by the clock of the system.
#[derive(Drop)]
pub struct MachineRest<R: rt::Clock + Drop> {
    rt: R,
}

impl<R: rt::Clock + Drop> MachineRest<R> {
    pub fn new(rt: R) -> MachineRest<R> {
        MachineRest { rt }
    }
}

impl<R: rt::Clock + Drop> Rest for MachineRest<R> {
    fn rest(&mut self, millis: u64) {
        thread::sleep(&self.rt, Duration::from_millis(millis));
    }
}

/// Doesn't rest at all, and counts how often it was to, up to 2^64 - 1.
#[derive(Drop)]
pub struct MemRest {
    pub rests: u64,
}

impl Rest for MemRest {
    fn rest(&mut self, _millis: u64) {
        self.rests = self.rests.saturating_add(1);
    }
}
