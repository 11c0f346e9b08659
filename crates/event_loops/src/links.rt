//! The links of a loop: each is read and served, and then what is due on each is sent.

ghost use Rattle.std.specs.Prelude.{◌≡◌, ◌<◌, ◌≤◌, ◌^◌, ◌∷◌, [], List, true, false};
ghost use Rattle.std.specs.Prelude.{slice_get, Option, Some, None, IfSome};
ghost use Rattle.mq_peers.specs.Ended.{LinkEnd};
ghost use Rattle.broker_events.specs.declared.event.Event.TheVariants.{Leave};
ghost use Rattle.broker_events.specs.declared.said.Said.{Said};
ghost use Rattle.link_service.specs.Clocks.{at_reading, unasked};
ghost use Rattle.link_service.specs.Transcripts.{ByReader};
ghost use Rattle.event_loops.specs.Tales.{Acts, ActsOrLeaves, Enters, Keeps, Leaves, LetsGo, LeadsWith, LeadsBy, GoesOn, IsSeenAs};
ghost use Rattle.event_loops.specs.Tales.{MayBreak, IsLink, IsSlotOf, end_in, link_view, loop_view, loop_of as loop_of_link};

use crate::ledger::{Ledger, let_go};
use broker_events::{Calls, Event as BrokerEvent};
use link_service::{Linked, Shared};
use mq_outside::Reader;
use mq_peers::{Ends, Event, Link};
use reply_fields::Ask;
use std::alloc::Global;

/// So many links a loop has at most.
const LINKS_MAX: usize = 1 << 16;

/// So many bytes at most are held of the unfinished frames of a loop's links together. A buffer grows by doubling, so that they take
/// 256 MiB at most.
const UNFINISHED_MAX: u64 = 1 << 27;

/// How often, in milliseconds, a loop looks at the clock for links whose time passes.
const LOOK_MILLIS: u64 = 500;

/// What a loop's links wait for.
#[derive(Clone, Copy)]
pub(crate) struct Outlook {
    // One waits for a flush turn.
    pub(crate) awaits: bool,
    // One can go on at once.
    pub(crate) has_more: bool,
    // One waits for a time to pass.
    pub(crate) is_timed: bool,
}

impl Outlook {
    /// How many milliseconds the loop may wait for reports at most; `None` sets no time.
    pub(crate) fn timeout(&self) -> Option<u64> {
        if self.has_more {
            Some(0)
        } else if self.is_timed {
            Some(LOOK_MILLIS)
        } else {
            None
        }
    }
}

/// A link that a loop serves, with its number, and its peer as it showed it at first.
#[derive(Drop)]
pub struct Numbered<L: Link + Drop> {
    pub(crate) number: u32,
    pub(crate) peer: [u8; 8],
    pub(crate) linked: Linked<L>,
}

/// The links of one of several loops. It takes those that fall to it, with greater and greater numbers.
#[derive(Drop)]
pub struct Links<L: Link + Drop, N: Drop> {
    // Which loop it is, of how many.
    pub(crate) number: usize,
    pub(crate) loops: usize,
    // The greatest number that a link of it had.
    pub(crate) newest: u32,
    pub(crate) slots: Vec<Option<Numbered<L>>>,
    pub(crate) ledger: Ledger<N>,
}

// It was reported.
fn report_one<L: Link + Drop>(slot: &mut Option<Numbered<L>>, event: &Event)
    ensures { IsSeenAs (link_view L.tells L.given L.taken) slot.old slot.new }
{
    if let Some(numbered) = slot {
        numbered
            .linked
            .report(event.readable, event.writable, event.ended);
    }
}

// Serves what came on one link. Answers whether a request was given to the broker.
fn hear_one<L: Link + Drop, C: Calls, R: Reader>(
    alloc: Global,
    calls: &mut C,
    numbered: &mut Numbered<L>,
    buffer: &mut [u8],
    now: u64,
) -> bool
    requires { now < 2 ^ 62 }
    ensures went { ByReader R.gives 0 (λ read. LeadsBy (at_reading now C.makes) calls.old calls.new 0 0
        (λ acts. Acts (link_view L.tells L.given L.taken) read (Some numbered.old) acts (Some numbered.new))) }
{
    numbered.linked.hear(alloc, calls, buffer, now)
}

// The same of a slot.
fn hear_slot<L: Link + Drop, C: Calls, R: Reader>(
    alloc: Global,
    calls: &mut C,
    slot: &mut Option<Numbered<L>>,
    buffer: &mut [u8],
    now: u64,
) -> bool
    requires { now < 2 ^ 62 }
    ensures went { ByReader R.gives 0 (λ read. LeadsBy (at_reading now C.makes) calls.old calls.new 0 0
        (λ acts. Acts (link_view L.tells L.given L.taken) read slot.old acts slot.new)) }
{
    match slot {
        Some(numbered) => hear_one::<L, C, R>(alloc, calls, numbered, buffer, now),
        None => false,
    }
}

// Serves what came on each link. Answers whether a request was given to the broker.
fn hear_each<L: Link + Drop, C: Calls, R: Reader>(
    alloc: Global,
    calls: &mut C,
    slots: &mut [Option<Numbered<L>>],
    buffer: &mut [u8],
    now: u64,
) -> bool
    requires { now < 2 ^ 62 }
    ensures went { ByReader R.gives 0 (λ read. LeadsBy (at_reading now C.makes) calls.old calls.new 0 0
        (λ acts. Keeps (link_view L.tells L.given L.taken) read slots.old acts slots.new [])) }
{
    let mut any = false;
    for i in 0..slots.len() {
        let slot = &mut slots[i];
        any |= hear_slot::<L, C, R>(alloc, calls, slot, buffer, now);
    }
    any
}

// How many bytes are held of unfinished frames of all these links, and the slot of the link that has most of them.
fn unfinished_in<L: Link + Drop>(slots: &[Option<Numbered<L>>]) -> (u64, usize) {
    let mut sum = 0;
    let mut most = 0;
    let mut at = 0;
    for i in 0..slots.len() {
        if let Some(numbered) = &slots[i] {
            let held = numbered.linked.unfinished();
            sum = held.saturating_add(sum);
            if held > most {
                most = held;
                at = i;
            }
        }
    }
    (sum, at)
}

// The link in a slot breaks, if there is one.
fn break_slot<L: Link + Drop>(slot: &mut Option<Numbered<L>>)
    ensures { MayBreak (link_view L.tells L.given L.taken) slot.old slot.new }
{
    if let Some(numbered) = slot {
        numbered.linked.break_off();
    }
}

// Breaks the link that has most of an unfinished frame, again until all of them together are within their bound.
fn break_largest<L: Link + Drop, R: Reader>(slots: &mut [Option<Numbered<L>>])
    ensures went { ByReader R.gives 0 (λ read. Keeps (link_view L.tells L.given L.taken) read slots.old [] slots.new []) }
{
    for _ in 0..slots.len() {
        let (sum, at) = unfinished_in(slots);
        if sum <= UNFINISHED_MAX || at >= slots.len() {
            return;
        }
        let slot = &mut slots[at];
        break_slot(slot);
    }
}

// Tells the broker that a link has ended.
fn leave<C: Calls>(alloc: Global, calls: &mut C, link: u32)
    ensures { (said : Option Said) × C.makes calls.old (Leave link) said calls.new }
{
    let event = BrokerEvent::Leave { link };
    drop(calls.call(alloc, &event));
    drop(event);
}

// The same of the link in a slot, if there is one.
fn leave_slot<L: Link + Drop, C: Calls>(alloc: Global, calls: &mut C, slot: &Option<Numbered<L>>)
    ensures left { LeadsBy (unasked C.makes) calls.old calls.new 0 0 (λ acts. LetsGo slot.now acts) }
{
    match slot {
        Some(numbered) => leave(alloc, calls, numbered.number),
        None => {}
    }
}

// Lets go of the link in a slot, once its end is told.
fn end_slot<L: Link + Drop, N: Ends<L> + Drop, C: Calls>(
    alloc: Global,
    calls: &mut C,
    slot: Option<Numbered<L>>,
    ledger: &mut Ledger<N>,
)
    ensures left { LeadsBy (unasked C.makes) calls.old calls.new 0 0 (λ acts. LetsGo slot acts) }
    ensures enters { Enters (loop_view L.tells L.given L.taken N.tells N.entries) ledger.old
        (end_in (link_view L.tells L.given L.taken) slot) ledger.new }
{
    leave_slot(alloc, calls, &slot);
    let_go(slot, ledger);
}

// Sends what is due on one link, and tells the broker where it has nothing more to do. Answers whether it has.
fn reply_one<L: Link + Drop, C: Calls, R: Reader>(
    alloc: Global,
    calls: &mut C,
    numbered: &mut Numbered<L>,
    reader: &mut R,
    flushed: u64,
) -> bool
    ensures replied { result ≡ false → ByReader R.gives (R.faults reader.new) (λ read. LeadsBy (unasked C.makes) calls.old calls.new
        (R.faults reader.old) (R.faults reader.new)
        (λ acts. Acts (link_view L.tells L.given L.taken) read (Some numbered.old) acts (Some numbered.new))) }
    ensures left { result ≡ true → ByReader R.gives (R.faults reader.new) (λ read. LeadsBy (unasked C.makes) calls.old calls.new
        (R.faults reader.old) (R.faults reader.new)
        (λ acts. Leaves (link_view L.tells L.given L.taken) read numbered.old acts numbered.new)) }
    ensures grows { R.faults reader.old ≤ R.faults reader.new }
{
    numbered.linked.reply(alloc, calls, reader, flushed);
    if !numbered.linked.has_ended() {
        return false;
    }
    leave(alloc, calls, numbered.number);
    true
}

// The same of a slot. A link that has ended is let go of, and the slot is free.
fn reply_slot<L: Link + Drop, N: Ends<L> + Drop, C: Calls, R: Reader>(
    alloc: Global,
    calls: &mut C,
    slot: &mut Option<Numbered<L>>,
    ledger: &mut Ledger<N>,
    reader: &mut R,
    flushed: u64,
) -> bool
    ensures went { ByReader R.gives (R.faults reader.new) (λ read. LeadsBy (unasked C.makes) calls.old calls.new
        (R.faults reader.old) (R.faults reader.new) (λ acts. (gone : List LinkEnd)
        × Enters (loop_view L.tells L.given L.taken N.tells N.entries) ledger.old gone ledger.new
        × ActsOrLeaves (link_view L.tells L.given L.taken) read slot.old acts slot.new gone)) }
    ensures grows { R.faults reader.old ≤ R.faults reader.new }
{
    let Some(numbered) = slot else {
        return false;
    };
    if !reply_one(alloc, calls, numbered, reader, flushed) {
        return false;
    }
    let_go(slot.take(), ledger);
    true
}

// Sends what is due on each link, as far as the last flush turn left it, and lets go of those that have ended. Answers whether any
// has.
fn reply_each<L: Link + Drop, N: Ends<L> + Drop, C: Calls, R: Reader>(
    alloc: Global,
    shared: &Shared,
    calls: &mut C,
    slots: &mut [Option<Numbered<L>>],
    ledger: &mut Ledger<N>,
    reader: &mut R,
) -> bool
    ensures went { ByReader R.gives (R.faults reader.new) (λ read. LeadsBy (unasked C.makes) calls.old calls.new
        (R.faults reader.old) (R.faults reader.new) (λ acts. (gone : List LinkEnd)
        × Enters (loop_view L.tells L.given L.taken N.tells N.entries) ledger.old gone ledger.new
        × Keeps (link_view L.tells L.given L.taken) read slots.old acts slots.new gone)) }
    ensures grows { R.faults reader.old ≤ R.faults reader.new }
{
    let mut any = false;
    let flushed = shared.flushed();
    for i in 0..slots.len() {
        let slot = &mut slots[i];
        if reply_slot(alloc, calls, slot, ledger, reader, flushed) {
            shared.link_ended();
            any = true;
        }
    }
    any
}

// Whether this is the slot of the link with this number.
fn is_link<L: Link + Drop>(slot: &Option<Numbered<L>>, link: u32) -> bool
    ensures { result ≡ true → IsLink slot.now link }
{
    match slot {
        Some(numbered) => numbered.linked.number() == link,
        None => false,
    }
}

// The slot of the link with this number, if it is here.
fn slot_of<L: Link + Drop>(slots: &[Option<Numbered<L>>], link: u32) -> Option<usize>
    ensures { IfSome result (λ at. IsSlotOf slots.now at link) }
{
    for i in 0..slots.len() {
        let slot = &slots[i];
        if is_link(slot, link) {
            return Some(i);
        }
    }
    None
}

// Writes a check-back for this link.
fn ask_one<L: Link + Drop, C: Calls, R: Reader>(
    alloc: Global,
    calls: &mut C,
    numbered: &mut Numbered<L>,
    reader: &mut R,
    ask: &Ask,
)
    requires { ask.now.link ≡ numbered.old.linked.session.talk.link }
    ensures went { ByReader R.gives (R.faults reader.new) (λ read. LeadsWith (unasked C.makes) calls.old calls.new (ask.now ∷ [])
        (R.faults reader.old) (R.faults reader.new)
        (λ acts. Acts (link_view L.tells L.given L.taken) read (Some numbered.old) acts (Some numbered.new))) }
    ensures grows { R.faults reader.old ≤ R.faults reader.new }
{
    let _ = numbered.linked.ask(alloc, calls, reader, ask);
}

// The same of its slot.
fn ask_slot<L: Link + Drop, C: Calls, R: Reader>(
    alloc: Global,
    calls: &mut C,
    slot: &mut Option<Numbered<L>>,
    reader: &mut R,
    ask: &Ask,
)
    requires { IsLink slot.old ask.now.link }
    ensures went { ByReader R.gives (R.faults reader.new) (λ read. LeadsWith (unasked C.makes) calls.old calls.new (ask.now ∷ [])
        (R.faults reader.old) (R.faults reader.new) (λ acts. Acts (link_view L.tells L.given L.taken) read slot.old acts slot.new)) }
    ensures grows { R.faults reader.old ≤ R.faults reader.new }
{
    match slot {
        Some(numbered) => ask_one(alloc, calls, numbered, reader, ask),
        None => {}
    }
}

// Whether a link is here that waits for a flush turn.
fn is_awaiting<L: Link + Drop>(slot: &Option<Numbered<L>>) -> bool {
    match slot {
        Some(numbered) => numbered.linked.awaits(),
        None => false,
    }
}

// The first free slot.
fn free_in<L: Link + Drop>(slots: &[Option<Numbered<L>>]) -> Option<usize>
    ensures { IfSome result (λ at. slice_get slots.now at ≡ Some None) }
{
    slots.iter().position(|slot| slot.is_none())
}

impl<L: Link + Drop, N: Ends<L> + Drop> Links<L, N> {
    /// No links, of this loop of so many. Those that end go into this ledger.
    pub(crate) fn new(alloc: Global, number: usize, loops: usize, ends: N) -> Links<L, N>
        ensures loops { (result.loops ≡ loops) × (result.number ≡ number) }
        ensures none { result.slots.items ≡ [] }
        ensures ends { result.ledger.ends ≡ ends }
    {
        Links {
            number,
            loops,
            newest: 0,
            slots: Vec::new(alloc),
            ledger: Ledger { ends, lost: false },
        }
    }

    /// The loop that serves the link with this number.
    pub(crate) fn loop_of(&self, link: u32) -> usize
        ensures { result ≡ loop_of_link self.now.loops link }
    {
        link as usize % self.loops.max(1)
    }

    /// Whether a link with this number may be served: it falls to this loop, and comes after all that the loop had.
    pub(crate) fn may_have(&self, link: u32) -> bool
        ensures { result ≡ true → (self.now.newest < link) × (loop_of_link self.now.loops link ≡ self.now.number) }
    {
        self.newest < link && self.loop_of(link) == self.number
    }

    // One more slot, if there is memory for it.
    fn add_slot<R: Reader>(&mut self) -> Option<usize>
        ensures free { IfSome result (λ at. slice_get self.new.slots.items at ≡ Some None) }
        ensures went { ByReader R.gives 0
            (λ read. GoesOn (loop_view L.tells L.given L.taken N.tells N.entries) read self.old [] self.new) }
        ensures newest { self.new.newest ≡ self.old.newest }
    {
        let at = self.slots.len();
        self.slots.push(None).ok()?;
        Some(at)
    }

    /// A slot for one more link, if there is one.
    pub(crate) fn free_slot<R: Reader>(&mut self) -> Option<usize>
        ensures free { IfSome result (λ at. slice_get self.new.slots.items at ≡ Some None) }
        ensures went { ByReader R.gives 0
            (λ read. GoesOn (loop_view L.tells L.given L.taken N.tells N.entries) read self.old [] self.new) }
        ensures newest { self.new.newest ≡ self.old.newest }
    {
        if let Some(at) = free_in(self.slots.as_slice()) {
            return Some(at);
        }
        if self.slots.len() >= LINKS_MAX {
            return None;
        }
        self.add_slot::<R>()
    }

    /// Serves this link from now on, in a free slot.
    pub(crate) fn put<R: Reader>(&mut self, alloc: Global, slot: usize, number: u32, link: L)
        requires free { slice_get self.old.slots.items slot ≡ Some None }
        requires newest { self.old.newest < number }
        requires falls { loop_of_link self.old.loops number ≡ self.old.number }
        requires given { L.tells → L.given link ≡ [] }
        requires taken { L.tells → L.taken link ≡ [] }
        ensures went { ByReader R.gives 0
            (λ read. GoesOn (loop_view L.tells L.given L.taken N.tells N.entries) read self.old [] self.new) }
    {
        let peer = link.peer();
        let linked = Linked::new(alloc, number, link);
        self.newest = number;
        let free = self.slots[slot].replace(Numbered {
            number,
            peer,
            linked,
        });
        drop(free);
    }

    /// Lets go of a link with this number, which is served by nobody.
    pub(crate) fn refuse<C: Calls, R: Reader>(
        &mut self,
        alloc: Global,
        calls: &mut C,
        number: u32,
        link: L,
    )
        requires newest { self.old.newest < number }
        requires falls { loop_of_link self.old.loops number ≡ self.old.number }
        requires given { L.tells → L.given link ≡ [] }
        requires taken { L.tells → L.taken link ≡ [] }
        ensures went { ByReader R.gives 0 (λ read. LeadsBy (unasked C.makes) calls.old calls.new 0 0
            (λ acts. GoesOn (loop_view L.tells L.given L.taken N.tells N.entries) read self.old acts self.new)) }
        ensures slots { self.new.slots ≡ self.old.slots }
    {
        let peer = link.peer();
        let linked = Linked::new(alloc, number, link);
        let slot = Some(Numbered {
            number,
            peer,
            linked,
        });
        self.newest = number;
        end_slot(alloc, calls, slot, &mut self.ledger);
    }

    /// A link is let go of that isn't entered.
    pub(crate) fn lose<R: Reader>(&mut self)
        ensures went { ByReader R.gives 0
            (λ read. GoesOn (loop_view L.tells L.given L.taken N.tells N.entries) read self.old [] self.new) }
        ensures slots { self.new.slots ≡ self.old.slots }
    {
        self.ledger.lose();
    }

    /// Tells the broker that all links have ended, and lets go of them.
    pub(crate) fn let_go<C: Calls, R: Reader>(&mut self, alloc: Global, calls: &mut C)
        ensures went { ByReader R.gives 0 (λ read. LeadsBy (unasked C.makes) calls.old calls.new 0 0
            (λ acts. GoesOn (loop_view L.tells L.given L.taken N.tells N.entries) read self.old acts self.new)) }
        ensures none { self.new.slots.items ≡ [] }
    {
        while let Some(slot) = self.slots.pop() {
            end_slot(alloc, calls, slot, &mut self.ledger);
        }
    }

    /// The link with this token was reported.
    pub(crate) fn report<R: Reader>(&mut self, event: &Event)
        ensures went { ByReader R.gives 0
            (λ read. GoesOn (loop_view L.tells L.given L.taken N.tells N.entries) read self.old [] self.new) }
    {
        let at = event.token as usize;
        if at < self.slots.len() {
            let slot = &mut self.slots[at];
            report_one(slot, event);
        }
    }

    // Serves what came on each link. Answers whether a request was given to the broker.
    fn hear_links<C: Calls, R: Reader>(
        &mut self,
        alloc: Global,
        calls: &mut C,
        buffer: &mut [u8],
        now: u64,
    ) -> bool
        requires { now < 2 ^ 62 }
        ensures went { ByReader R.gives 0 (λ read. LeadsBy (at_reading now C.makes) calls.old calls.new 0 0
            (λ acts. GoesOn (loop_view L.tells L.given L.taken N.tells N.entries) read self.old acts self.new)) }
    {
        hear_each::<L, C, R>(alloc, calls, self.slots.as_mut_slice(), buffer, now)
    }

    // Breaks links until what all of them hold of unfinished frames is within its bound.
    fn bound_unfinished<R: Reader>(&mut self)
        ensures went { ByReader R.gives 0
            (λ read. GoesOn (loop_view L.tells L.given L.taken N.tells N.entries) read self.old [] self.new) }
    {
        break_largest::<L, R>(self.slots.as_mut_slice());
    }

    /// Serves what came on each link. Answers whether a request was given to the broker. Where more is held of unfinished frames then
    /// than there is memory for, the links that hold most of them break.
    pub(crate) fn hear<C: Calls, R: Reader>(
        &mut self,
        alloc: Global,
        calls: &mut C,
        buffer: &mut [u8],
        now: u64,
    ) -> bool
        requires { now < 2 ^ 62 }
        ensures went { ByReader R.gives 0 (λ read. LeadsBy (at_reading now C.makes) calls.old calls.new 0 0
            (λ acts. GoesOn (loop_view L.tells L.given L.taken N.tells N.entries) read self.old acts self.new)) }
    {
        let any = self.hear_links::<C, R>(alloc, calls, buffer, now);
        self.bound_unfinished::<R>();
        any
    }

    /// Sends what is due on each link, and lets go of those that have ended. Answers whether any has.
    pub(crate) fn reply<C: Calls, R: Reader>(
        &mut self,
        alloc: Global,
        shared: &Shared,
        calls: &mut C,
        reader: &mut R,
    ) -> bool
        ensures went { ByReader R.gives (R.faults reader.new) (λ read. LeadsBy (unasked C.makes) calls.old calls.new
            (R.faults reader.old) (R.faults reader.new)
            (λ acts. GoesOn (loop_view L.tells L.given L.taken N.tells N.entries) read self.old acts self.new)) }
        ensures grows { R.faults reader.old ≤ R.faults reader.new }
    {
        reply_each(
            alloc,
            shared,
            calls,
            self.slots.as_mut_slice(),
            &mut self.ledger,
            reader,
        )
    }

    /// Writes a check-back to the link that it names, behind the replies that are due. It is dropped where the link is not here
    /// any more, or takes none.
    pub(crate) fn ask<C: Calls, R: Reader>(
        &mut self,
        alloc: Global,
        calls: &mut C,
        reader: &mut R,
        ask: &Ask,
    )
        ensures went { ByReader R.gives (R.faults reader.new)
            (λ read. LeadsWith (unasked C.makes) calls.old calls.new (ask.now ∷ [])
            (R.faults reader.old) (R.faults reader.new)
            (λ acts. GoesOn (loop_view L.tells L.given L.taken N.tells N.entries) read self.old acts self.new)) }
        ensures grows { R.faults reader.old ≤ R.faults reader.new }
    {
        let Some(at) = slot_of(self.slots.as_slice(), ask.link) else {
            return;
        };
        let slot = &mut self.slots[at];
        ask_slot(alloc, calls, slot, reader, ask);
    }

    /// What its links wait for.
    pub(crate) fn outlook(&self) -> Outlook {
        let mut outlook = Outlook {
            awaits: false,
            has_more: false,
            is_timed: false,
        };
        for slot in &self.slots {
            if let Some(numbered) = slot {
                outlook.awaits = outlook.awaits || numbered.linked.awaits();
                outlook.has_more = outlook.has_more || numbered.linked.has_more();
                outlook.is_timed = outlook.is_timed || numbered.linked.is_timed();
            }
        }
        outlook
    }

    /// Whether any of its links waits for a flush turn.
    pub(crate) fn is_awaiting(&self) -> bool {
        self.slots.iter().any(|slot| is_awaiting(slot))
    }

    /// Whether it has one link alone.
    pub(crate) fn has_one(&self) -> bool {
        let mut has = false;
        for slot in &self.slots {
            if slot.is_some() {
                if has {
                    return false;
                }
                has = true;
            }
        }
        has
    }

    /// Whether there is none.
    pub(crate) fn is_empty(&self) -> bool {
        !self.slots.iter().any(|slot| slot.is_some())
    }

    /// Its ledger.
    pub(crate) fn into_ends(self) -> N
        ensures { result ≡ self.ledger.ends }
    {
        let Links {
            number: _,
            loops: _,
            newest: _,
            slots,
            ledger,
        } = self;
        drop(slots);
        let Ledger { ends, lost: _ } = ledger;
        ends
    }
}
