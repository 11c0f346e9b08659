//! What holds of the history that a flusher, two loops and a keeper make. No call is made: the clause speaks of the definitions.

ghost use Rattle.core_log.specs.Represents.{Represents};
ghost use Rattle.core_log.specs.declared.parts.Parts.{Parts};
ghost use Rattle.broker_model.specs.State.{State};
ghost use Rattle.worker_turns.specs.Acts.{Act, Change, Place, steps_of, view_of};
ghost use Rattle.reply_fields.specs.Parts.{AskParts};
ghost use Rattle.session.specs.Serving.{Made};
ghost use Rattle.spine.specs.Stands.{Stands};
ghost use Rattle.std.specs.Prelude.{ℕ, List};
ghost use Rattle.mq_peers.specs.Ended.{LinkEnd};
ghost use Rattle.serve_threads.specs.Links.{AreAnsweredFrom, loop_links};
ghost use Rattle.flush_rounds.specs.Flushing.{Write};
ghost use Rattle.serve_threads.specs.Served.{AreLooks, IsMerged, LeadsOn};

use mq_outside::{Disk, Reader};
use mq_peers::{Ends, Link};

/// A history of flush turns, of what two loops made for their links, and of looks is a story of the model and the disk: from a state
/// that the first core represented it leads to one that the second represents, and the disk stores the log as it did before.
pub fn a_shared_history_is_a_story<D: Disk, L: Link, N: Ends<L>, R: Reader>()
    ensures { (failures : ℕ × ℕ) (change : Change Parts (Place D)) (history first second looks : Made) (turns : List Act)
        (put : List AskParts × List AskParts) (ended : List LinkEnd × List LinkEnd) → Stands change.calls history change.calls_then
        → IsMerged history (steps_of turns) first second looks
        → AreAnsweredFrom (loop_links L.tells N.tells ended.0) R.gives failures.0 0 put.0 first
        × AreAnsweredFrom (loop_links L.tells N.tells ended.1) R.gives failures.1 1 put.1 second → AreLooks looks
        → Write (view_of D.tells D.state D.faults D.syncs) turns change.place change.place_then
        → (s : State) → Represents change.calls s → LeadsOn (view_of D.tells D.state D.faults D.syncs) history change s }
{}
