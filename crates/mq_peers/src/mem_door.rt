//! A door in memory: it gives listed links in order, and then says 'not now'.

ghost use Rattle.std.specs.Prelude.{◌≡◌, ◌+◌, ◌-◌, ◌^◌, ◌⊎◌, ◌++◌, ◌∷◌, [], IfOk, IfSome, IsErr, OnOk, OnErr, ◌↔◌, option_to_list};
ghost use Rattle.std.specs.List.{All};
ghost use Rattle.std.proofs.Props.{props};
ghost use Rattle.mq_outside.specs.Counts.{CountsFailure, Rises};
ghost use Rattle.mq_peers.specs.Passing.{links_in};

use crate::calls::{Calls, Marked};
use crate::door::Door;
use crate::link::Link;
use mq_outside::Failed;
use std::alloc::{AllocError, Global};
use std::collections::VecDeque;

/// Gives the links of a list in order, fails at marked calls, and says 'not now' once none is left. It is open from the
/// start.
#[derive(Drop)]
pub struct MemDoor<L: Link + Drop> {
    links: VecDeque<L>,
    fails: Marked,
    faults: u64,
    // How many links it gave.
    gave: u64,
    ghost given: { L.tells → All (λ link. L.given link ≡ []) links.items } by { Prim.hlevel props },
    ghost taken: { L.tells → All (λ link. L.taken link ≡ []) links.items } by { Prim.hlevel props },
    ghost sound: { All (λ link. L.faults link ≡ 0) links.items } by { Prim.hlevel props },
}

impl<L: Link + Drop> MemDoor<L> {
    ghost use Rattle.mq_peers.specs.Calls.{IsMarked, after_call};

    /// A door without links, of whose calls of `open` and `accept` those in `fails` fail; the first is number 1.
    pub fn new(alloc: Global, fails: Calls) -> MemDoor<L>
        ensures links { result.links.items ≡ [] }
        ensures fails { result.fails ≡ record { calls = fails; asked = 0 } }
        ensures faults { result.faults ≡ 0 }
        ensures gave { result.gave ≡ 0 }
    {
        MemDoor {
            links: VecDeque::new(alloc),
            fails: Marked::new(fails),
            faults: 0,
            gave: 0,
        }
    }

    /// Puts a link behind those that wait. It has given and taken nothing and never failed.
    pub fn put(&mut self, link: L) -> Result<(), AllocError>
        requires given { L.tells → L.given link ≡ [] }
        requires taken { L.tells → L.taken link ≡ [] }
        requires sound { L.faults link ≡ 0 }
        ensures last { OnOk result (self.new.links.items ≡ self.old.links.items ++ link ∷ []) }
        ensures still { OnErr result (self.new.links.items ≡ self.old.links.items) }
        ensures fails { self.new.fails ≡ self.old.fails }
        ensures faults { self.new.faults ≡ self.old.faults }
        ensures gave { self.new.gave ≡ self.old.gave }
    {
        self.links.push_back(link)?;
        Ok(())
    }

    // Counts a failure.
    fn fail(&mut self) -> Failed
        ensures faults { Rises self.old.faults self.new.faults }
        ensures links { self.new.links ≡ self.old.links }
        ensures fails { self.new.fails ≡ self.old.fails }
        ensures gave { self.new.gave ≡ self.old.gave }
    {
        self.faults = self.faults.saturating_add(1);
        Failed
    }
}

impl<L: Link + Drop> Door for MemDoor<L> {
    ghost use Rattle.mq_peers.specs.Calls.{IsMarked, after_call};

    type Link = L;

    ghost faults = { λ s. s.faults };

    ghost gave = { λ s. s.gave };

    fn open(&mut self, _port: u16) -> Result<(), Failed>
        ensures gave { self.new.gave ≡ self.old.gave }
        ensures cause { CountsFailure result self.old.faults self.new.faults }
        ensures marked { IsErr result ↔ IsMarked self.old.fails }
        ensures asks { self.new.fails ≡ after_call self.old.fails }
        ensures links { self.new.links ≡ self.old.links }
    {
        if self.fails.next() {
            return Err(self.fail());
        }
        Ok(())
    }

    fn accept(&mut self) -> Result<Option<L>, Failed>
        ensures given { L.tells → IfOk result (λ came. IfSome came (λ link. L.given link ≡ [])) }
        ensures taken { L.tells → IfOk result (λ came. IfSome came (λ link. L.taken link ≡ [])) }
        ensures faults { IfOk result (λ came. IfSome came (λ link. L.faults link ≡ 0)) }
        ensures counted { self.new.gave ≡ self.old.gave + links_in result }
        ensures cause { CountsFailure result self.old.faults self.new.faults }

        // It gives the next link, if one is left, and fails exactly at a marked call and past 2^64 - 1 links.
        ensures next { IfOk result (λ came. self.old.links.items ≡ option_to_list came ++ self.new.links.items) }
        ensures none { result ≡ Ok None → self.old.links.items ≡ [] }
        ensures still { OnErr result (self.new.links.items ≡ self.old.links.items) }
        ensures marked { IsErr result ↔ (IsMarked self.old.fails ⊎ (self.old.gave ≡ 2 ^ 64 - 1)) }
        ensures asks { self.new.fails ≡ after_call self.old.fails }
    {
        if self.fails.next() {
            return Err(self.fail());
        }
        let Some(gave) = self.gave.checked_add(1) else {
            return Err(self.fail());
        };
        if self.links.is_empty() {
            return Ok(None);
        }
        self.gave = gave;
        Ok(self.links.pop_front())
    }
}
