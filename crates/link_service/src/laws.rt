//! What holds of every link. The functions do nothing: each stands for its law.

ghost use Rattle.std.specs.Prelude.{ℕ, List};
ghost use Rattle.reply_fields.specs.Parts.{AskParts};
ghost use Rattle.session.specs.Serving.{Made};
ghost use Rattle.link_service.specs.Transcripts.{Seen, WentOnWith, IsFresh, IsTranscript, counted_to};

use mq_outside::Reader;
use mq_peers::Link;
use session::replies_leave_in_the_order_of_the_requests;

/// Whatever passes did for a link from its beginning on, and by whatever steps of the broker: what it was sent are the replies to the
/// first requests of what it gave, in order, one each, and none to those that want none; each was applied by one of the steps, in
/// order, or refused. Between the replies are the check-backs that were written, each whole and for this link. A reply `read N` has
/// a count N that is none above those of the reader's failures, and so many of the replies are `read N`. A reply `disk N` is one to a
/// request that found no room, where two of the steps are looks for the record that was the first pending one then, and the later one tells
/// the failure N and the earlier one doesn't. Where there was no memory for a call this holds up to that call, and the link made no
/// other since.
pub fn a_link_is_answered_in_order<L: Link, R: Reader>()
    ensures { (failures number : ℕ) (host : List ℕ) (first : Seen) (made : Made) (asks : List AskParts) (reads : ℕ) (now : Seen)
        → IsFresh L.tells number host first → WentOnWith L.tells (counted_to R.gives failures) first made asks reads now
        → IsTranscript L.tells (counted_to R.gives failures) number host made asks reads now }
{
    replies_leave_in_the_order_of_the_requests::<R>();
}
