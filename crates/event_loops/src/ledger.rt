//! The ledger of a loop: each link that it lets go of is closed and entered, with the number that it had.

ghost use Rattle.std.specs.Prelude.{◌≡◌, ◌∷◌, [], true};
ghost use Rattle.event_loops.specs.Tales.{Enters, end_as, end_in, link_view, loop_view, seen_in};

use crate::links::Numbered;
use mq_peers::{Ends, Link};

/// The links that have ended.
#[derive(Drop)]
pub struct Ledger<N: Drop> {
    pub(crate) ends: N,
    // One was let go of that isn't entered.
    pub(crate) lost: bool,
}

impl<N: Drop> Ledger<N> {
    /// A link is let go of that isn't entered.
    pub(crate) fn lose(&mut self)
        ensures { self.new ≡ record self.old { lost = true } }
    {
        self.lost = true;
    }
}

// Closes a link and enters it. One that shows another peer than in its beginning is lost.
fn enter<L: Link + Drop, N: Ends<L> + Drop>(ledger: &mut Ledger<N>, numbered: Numbered<L>)
    ensures { Enters (loop_view L.tells L.given L.taken N.tells N.entries) ledger.old
        (end_as numbered (seen_in (link_view L.tells L.given L.taken) numbered) ∷ []) ledger.new }
{
    let Numbered {
        number,
        peer,
        linked,
    } = numbered;
    let link = linked.into_link();
    if link.peer() != peer {
        ledger.lose();
        return;
    }
    if !ledger.ends.end(number, link) {
        ledger.lose();
    }
}

// The same of what was in a slot.
pub(crate) fn let_go<L: Link + Drop, N: Ends<L> + Drop>(
    slot: Option<Numbered<L>>,
    ledger: &mut Ledger<N>,
)
    ensures { Enters (loop_view L.tells L.given L.taken N.tells N.entries) ledger.old
        (end_in (link_view L.tells L.given L.taken) slot) ledger.new }
{
    if let Some(numbered) = slot {
        enter(ledger, numbered);
    }
}
