//! A clock in memory: it gives the readings of a list, and then its last one again and again.

ghost use Rattle.std.specs.Prelude.{◌≡◌, ◌<◌, ◌^◌, ◌-◌, ◌++◌, ◌∷◌, ◌⊎◌, ◌↔◌, [], length, IfOk, OnErr, IsErr};
ghost use Rattle.std.proofs.Props.{props};
ghost use Rattle.mq_outside.specs.Counts.{CountsFailure, Rises};
ghost use Rattle.mq_outside.specs.MemClock.{AreReadings, first_readings, reading_at};

use crate::clock::Clock;
use crate::fails::Fails;
use crate::faults::Failed;
use std::alloc::{AllocError, Global};

/// Gives the readings of a list, the last one again and again, and fails at listed calls. It tells what it gave.
#[derive(Drop)]
pub struct MemClock {
    list: Vec<u64>,
    // How many readings it gave.
    given: u64,
    fails: Fails,
    faults: u64,
    ghost has_reading: { 0 < length list.items },
    ghost small: { AreReadings list.items } by { Prim.hlevel props },
}

impl MemClock {
    ghost use Rattle.mq_outside.specs.Listed.{IsListed, after_call};

    /// A clock of these readings in milliseconds, of whose calls those with the numbers `fails` are to fail;
    /// the first call is number 1. It takes no memory of its own.
    pub fn new(_alloc: Global, readings: Vec<u64>, fails: Vec<u64>) -> Result<MemClock, AllocError>
        requires some { 0 < length readings.items }
        requires small { AreReadings readings.items }
        ensures list { IfOk result (λ clock. clock.list ≡ readings) }
        ensures readings { IfOk result (λ clock. ⟦<MemClock as Clock>⟧.readings clock ≡ []) }
        ensures faults { IfOk result (λ clock. ⟦<MemClock as Clock>⟧.faults clock ≡ 0) }
        ensures fails { IfOk result (λ clock. clock.fails ≡ record { calls = fails; asked = 0 }) }
    {
        Ok(MemClock {
            list: readings,
            given: 0,
            fails: Fails::new(fails),
            faults: 0,
        })
    }

    // Counts a failure.
    fn fail(&mut self) -> Failed
        ensures faults { Rises self.old.faults self.new.faults }
        ensures list { self.new.list ≡ self.old.list }
        ensures given { self.new.given ≡ self.old.given }
        ensures fails { self.new.fails ≡ self.old.fails }
    {
        self.faults = self.faults.saturating_add(1);
        Failed
    }
}

impl Clock for MemClock {
    ghost use Rattle.mq_outside.specs.Listed.{IsListed, after_call};

    ghost tells = { Unit {0} };

    ghost readings = { λ s. first_readings s.list.items s.given };

    ghost faults = { λ s. s.faults };

    fn now(&mut self) -> Result<u64, Failed>
        ensures small { IfOk result (λ now. now < 2 ^ 62) }
        ensures given { IfOk result (λ now. ⟦<MemClock as Clock>⟧.readings self.new ≡ ⟦<MemClock as Clock>⟧.readings self.old ++ now ∷ []) }
        ensures still { OnErr result (⟦<MemClock as Clock>⟧.readings self.new ≡ ⟦<MemClock as Clock>⟧.readings self.old) }
        ensures cause { CountsFailure result (⟦<MemClock as Clock>⟧.faults self.old) (⟦<MemClock as Clock>⟧.faults self.new) }

        // It gives the readings in order, and fails exactly at a listed call and past 2^64 - 1 readings.
        ensures next { IfOk result (λ now. now ≡ reading_at self.old.list.items self.old.given) }
        ensures listed { IsErr result ↔ (IsListed self.old.fails ⊎ (self.old.given ≡ 2 ^ 64 - 1)) }
        ensures list { self.new.list ≡ self.old.list }
        ensures asks { self.new.fails ≡ after_call self.old.fails }
    {
        if self.fails.next() {
            return Err(self.fail());
        }
        let Some(given) = self.given.checked_add(1) else {
            return Err(self.fail());
        };
        let last = self.list.len() - 1;
        let now = self.list[last.min(self.given as usize)];
        self.given = given;
        Ok(now)
    }
}
