//! What holds of every talk and of every session. The functions do nothing: each stands for its law.

ghost use Rattle.std.specs.Prelude.{◌≡◌, ◌++◌, [], List};
ghost use Rattle.remoting_frame.specs.Held.{Held};
ghost use Rattle.session.specs.Readers.{reads_of};
ghost use Rattle.session.specs.Talks.{Call, AreCalls, HasHeard, stream_of, heard_of};
ghost use Rattle.session.specs.Sessions as sessions;
ghost use Rattle.session.specs.Settling.{unsent_of};
ghost use Rattle.session.specs.declared.session.Session.{Session as ASession};

use mq_outside::Reader;

/// After any calls of a new talk, what was heard are the requests of the stream that was fed, each once and in order, and what
/// is held is the rest of it. So the pieces do not matter.
pub fn a_talk_hears_the_requests_of_its_stream()
    ensures { (calls : List Call) (held : Held) → AreCalls (record { at = 0; bytes = [] }) calls held
        → HasHeard 0 (stream_of calls) (heard_of calls) held }
{}

/// After any calls of a new session in which memory did not want, the requests of the stream that was fed were answered one by one
/// and in order, but for one that is held; what was sent and what is to be sent are the replies to the first of them, in order, one
/// each, and none to those that want none. The requests that the broker applied are those that were answered, in order and each
/// once, and each reply that waited for its record stands behind a look that found it flushed, or tells the failure that it found.
/// A request that found no room is given again, or given up by a look for the record that was the first pending one then, and so exactly
/// where the look tells a failure that a look directly after the request did not tell; its reply then has this failure's count.
pub fn replies_leave_in_the_order_of_the_requests<R: Reader>()
    ensures { (old : ASession) (calls : List sessions.Call) (new : ASession) → sessions.IsNew old
        → sessions.AreCalls (reads_of R.gives R.faults) old calls new
        → sessions.RepliesInOrder (reads_of R.gives R.faults) old calls new }
{}

/// Where no check-back was written, what calls of a new session sent are the replies alone.
pub fn without_check_backs_the_replies_leave_alone<R: Reader>()
    ensures { (old : ASession) (calls : List sessions.Call) (new : ASession) → sessions.asks_of calls ≡ []
        → (is : sessions.RepliesInOrder (reads_of R.gives R.faults) old calls new)
        → sessions.AreReplies (reads_of R.gives R.faults) (sessions.owed_among is.pieces) (sessions.found_in (sessions.settling_of calls))
        (sessions.sent_of calls ++ unsent_of new) }
{}
