//! A record that is known without its body is added as the record would be.

ghost use Rattle.std.specs.Prelude.{◌≡◌, ◌<◌, ◌≤◌, ◌+◌, ◌∷◌, [], ◌^◌, ℕ, codes, true, false};
ghost use Rattle.std.specs.List.Sorted.{IsNonDecreasingBy};
ghost use Rattle.record_codec.specs.Entry.{Entry};
ghost use Rattle.record_codec.specs.Props.{value_of};
ghost use Rattle.log_model.specs.Admissible.{number_at};
ghost use Rattle.log_model.specs.Bases.{geometry};
ghost use Rattle.log_model.specs.Kinds.{is_half as is_half_entry, origin_text};
ghost use Rattle.log_model.specs.Log.{Follows, IsWellFormed};
ghost use Rattle.log_model.specs.Numbered.{Log, count_of, with_appended};
ghost use Rattle.half_view.specs.Halves.{with_half, place_of};
ghost use Rattle.half_view.specs.Heads.{IsHeadOf};
ghost use Rattle.half_view.specs.OfLog.{AreHalvesOf, committed_by, discarded_by, with_settlement};

use crate::head::Head;
use crate::kinds::{is_copy_flag, is_discard_topic, is_half_topic};
use crate::view::HalfView;
use log_model::{OriginState, number_in};
use record_codec::Props;

// The queue offset that a half message of these properties names.
fn named_half(props: &Props) -> Option<u64>
    ensures { result ≡ number_at (value_of (codes "TRAN_PREPARED_QUEUE_OFFSET") props.now) }
{
    number_in(props.get("TRAN_PREPARED_QUEUE_OFFSET")?)
}

impl HalfView {
    // The queue offset that the half message names of which this record is a copy.
    fn committed_by_head(&self, head: &Head) -> Option<u64>
        ensures { (r : Entry) → IsHeadOf r head.now → IsNonDecreasingBy place_of self.now.halves → result ≡ committed_by self.now r }
    {
        if is_copy_flag(head.sysflag) {
            self.named_at(head.prepared)
        } else {
            None
        }
    }

    // The same of a discarded copy.
    fn discarded_by_head(&self, head: &Head) -> Option<u64>
        ensures { (r : Entry) → IsHeadOf r head.now → IsNonDecreasingBy place_of self.now.halves → result ≡ discarded_by self.now r }
    {
        if is_discard_topic(head.topic.as_str()) {
            self.named_at(head.prepared)
        } else {
            None
        }
    }

    // Origins are settled by a record with this number.
    fn settle_by_head(&mut self, head: &Head, number: u64)
        requires { number < 2 ^ 63 }
        ensures table { (r : Entry) → IsHeadOf r head.now → IsNonDecreasingBy place_of self.old.halves
            → self.new ≡ with_settlement self.old r number }
        ensures spare { self.new.spare ≡ self.old.spare }
    {
        let committed = self.committed_by_head(head);
        let discarded = self.discarded_by_head(head);
        self.settle(head.op, OriginState::RolledBack, number);
        self.settle(committed, OriginState::Committed, number);
        self.settle(discarded, OriginState::Discarded, number);
    }

    /// Adds the record with this number that has this head, as `add` adds the record itself. There has to be room for a half
    /// message more; takes no memory.
    pub fn add_head(&mut self, head: &Head, number: u64)
        requires room { 0 < self.old.spare }
        requires store { head.now.store < 2 ^ 62 }
        requires number { number < 2 ^ 63 }
        ensures spare { self.old.spare ≤ self.new.spare + 1 }
        ensures half { (r : Entry) → IsHeadOf r head.now → is_half_entry r ≡ true
            → self.new ≡ with_half self.old (number_at (origin_text r)) r.offset r.store self.new.spare }
        ensures other { (r : Entry) → IsHeadOf r head.now → is_half_entry r ≡ false → IsNonDecreasingBy place_of self.old.halves
            → self.new ≡ with_settlement self.old r number }
        ensures records { (segment : ℕ) (log : Log) (r : Entry) → IsHeadOf r head.now
            → IsWellFormed (geometry segment log.base) log.records → Follows (geometry segment log.base) log.records r
            → number ≡ count_of log → AreHalvesOf log self.old → AreHalvesOf (with_appended log (r ∷ [])) self.new }
    {
        if is_half_topic(head.topic.as_str()) {
            self.add_half(named_half(&head.props), head.place, head.store);
            return;
        }
        self.settle_by_head(head, number);
    }
}
