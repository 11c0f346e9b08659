//! What holds of every loop. The functions do nothing: each stands for its law.

ghost use Rattle.std.specs.Prelude.{◌≡◌, ℕ, List, []};
ghost use Rattle.mq_peers.specs.Ended.{LinkEnd};
ghost use Rattle.reply_fields.specs.Parts.{AskParts};
ghost use Rattle.session.specs.Serving.{Made};
ghost use Rattle.link_service.specs.Transcripts.{counted_to};
ghost use Rattle.event_loops.specs.Tales.{Act, GoesOn, IsToldOf, IsTale, IsAnsweredInOrder, loop_view};
ghost use Rattle.event_loops.specs.declared.links.Links.{Links as TheLinks};

use link_service::a_link_is_answered_in_order;
use mq_outside::Reader;
use mq_peers::{Ends, Link};

/// What a loop has done that began without links, it has done for its links: for each that it has or that has ended its tale, and for
/// no other number anything.
pub fn a_loop_is_told_from_its_beginning_on<L: Link, N: Ends<L>, R: Reader>()
    ensures { (failures : ℕ) (old new : TheLinks L N) (acts : List Act) → old.slots.items ≡ []
        → (N.tells → N.entries old.ledger.ends ≡ [])
        → GoesOn (loop_view L.tells L.given L.taken N.tells N.entries) (counted_to R.gives failures) old acts new
        → IsToldOf (loop_view L.tells L.given L.taken N.tells N.entries) (counted_to R.gives failures) acts new }
{}

/// What a loop did for a link that has ended, from its beginning on, is a transcript of the link, with the check-backs and the number of
/// replies `read N` that it wrote, and behind it the link's `Leave`.
pub fn each_link_of_a_loop_is_answered_in_order<L: Link, R: Reader>()
    ensures { (failures : ℕ) (it : LinkEnd) (made : Made) (asks : List AskParts) (reads : ℕ)
        → IsTale L.tells (counted_to R.gives failures) it made asks reads
        → IsAnsweredInOrder L.tells (counted_to R.gives failures) it made asks reads }
{
    a_link_is_answered_in_order::<L, R>();
}
