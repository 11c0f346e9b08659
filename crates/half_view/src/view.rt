//! The table of the half messages. A half message is a row; a record that settles an origin, or a renewal of it, changes its
//! row. All is told of the whole log: what is appended counts at once.

ghost use Rattle.std.specs.Prelude.{◌≡◌, ◌↔◌, ◌<◌, ◌≤◌, ◌+◌, ◌∷◌, [], ◌^◌, ℕ, OnOk, Some, None, true, false, find, option_map, IfSome, IsSome, IsTrue};
ghost use Rattle.std.specs.List.Sorted.{IsNonDecreasingBy};
ghost use Rattle.record_codec.specs.Entry.{Entry};
ghost use Rattle.log_model.specs.Admissible.{half_topic, number_at};
ghost use Rattle.log_model.specs.Bases.{Base, geometry, no_base};
ghost use Rattle.log_model.specs.Kinds.{is_half as is_half_entry, origin_text};
ghost use Rattle.log_model.specs.Log.{Follows, IsWellFormed};
ghost use Rattle.log_model.specs.Numbered.{Log, above, count_of, queue_max, with_appended};
ghost use Rattle.log_model.specs.Origins.{told_state};
ghost use Rattle.log_model.specs.Transactions.{half_at, is_origin, transaction_state};
ghost use Rattle.half_view.specs.declared.row.HalfRow.{HalfRow};
ghost use Rattle.half_view.specs.Halves.{HalfTable, next_of, row_at, index_of, renewed_row, changed, with_half, with_settled, cut_at};
ghost use Rattle.half_view.specs.Halves.{family_at, due_of, place_of, if_at, origin_at, origin_named, settling_number};
ghost use Rattle.half_view.specs.OfLog.{AreHalvesOf, CutsHalves, empty_log, origin_in};
ghost use Rattle.half_view.specs.OfLog.{due_origin, check_of as check_of_origin, settling_in};
ghost use Rattle.half_view.specs.OfLog.{committed_by, discarded_by, with_settlement};

use crate::check::Check;
use crate::due::check_of;
use crate::front::{drop_front, first_from};
use crate::kinds::{is_copy, is_discard, is_half, named_half, rolled_back};
use crate::row::HalfRow;
use crate::rows::{named_at, push, renew_at, set_all, settle_at};
use crate::times::{NEVER, Times};
use log_model::OriginState;
use mq_bytes::PLACE_END;
use record_codec::View;
use std::alloc::{AllocError, Global};
use std::marker::Model;

/// The half messages, in the order of their queue offsets.
#[derive(Drop)]
pub struct HalfView {
    // How many half messages were removed: the queue offset of the first one.
    low: u64,
    halves: Vec<HalfRow>,
    // From when on each of them is due, and room for more.
    times: Times,
}

impl Model for HalfView {
    ghost use Rattle.half_view.specs.Halves.{HalfTable};

    ghost Value = { HalfTable };

    ghost use Rattle.half_view.specs.Due.{AreTimed};
    ghost use Rattle.half_view.specs.Rooms.{table_of};

    ghost view = { λ v. table_of v.low v.halves v.times };

    ghost invariant = { λ v. AreTimed v.low v.halves.items v.times };
}

impl HalfView {
    /// No half messages; takes no memory.
    pub fn new(alloc: Global) -> HalfView
        ensures low { result.low ≡ 0 }
        ensures halves { result.halves ≡ [] }
        ensures records { AreHalvesOf (empty_log no_base) result }
    {
        HalfView {
            low: 0,
            halves: Vec::new(alloc),
            times: Times::new(alloc),
        }
    }

    /// The queue offset of the next half message.
    pub fn end(&self) -> u64
        ensures table { result ≡ next_of self.now }
        ensures records { (segment : ℕ) (log : Log) → IsWellFormed (geometry segment log.base) log.records → AreHalvesOf log self.now
            → result ≡ queue_max log half_topic 0 }
    {
        self.low + self.halves.len() as u64
    }

    /// Whether the other table has the same half messages.
    pub fn is_same(&self, other: &HalfView) -> bool
        ensures { IsTrue result ↔ ((self.now.low ≡ other.now.low) × (self.now.halves ≡ other.now.halves)) }
    {
        self.low == other.low && self.halves.as_slice() == other.halves.as_slice()
    }

    /// Makes room for a half message more. Nothing else changes, at `Err` either.
    pub fn reserve(&mut self, alloc: Global) -> Result<(), AllocError>
        ensures spare { OnOk result (0 < self.new.spare) }
        ensures low { self.new.low ≡ self.old.low }
        ensures halves { self.new.halves ≡ self.old.halves }
        ensures kept { self.old.spare ≤ self.new.spare }
    {
        let count = self.halves.len();
        // No log has as many records.
        if self.low + count as u64 >= PLACE_END {
            return Err(AllocError);
        }
        if count >= self.times.len() {
            self.times.grow(alloc)?;
        }
        self.halves.reserve(1)
    }

    /// The next half message has this queue offset: so many were removed of a log, and none stands. Takes no memory.
    pub fn start(&mut self, low: u64)
        requires none { self.old.halves ≡ [] }
        requires low { low ≤ 2 ^ 62 }
        ensures low { self.new.low ≡ low }
        ensures halves { self.new.halves ≡ [] }
        ensures records { (base : Base) → low ≡ base.queues half_topic 0 → AreHalvesOf (empty_log base) self.new }
    {
        self.low = low;
    }

    /// Removes the half messages that stand below a place; takes no memory. The places must not fall. Families may be cut: of
    /// a renewal that is left `origin_of` then answers `None`.
    pub fn cut(&mut self, place: u64)
        ensures table { IsNonDecreasingBy place_of self.old.halves → self.new ≡ cut_at self.old place self.new.spare }
        ensures spare { self.old.spare ≤ self.new.spare }
        ensures records { (segment n : ℕ) (log : Log) (later : Base) → IsWellFormed (geometry segment log.base) log.records
            → AreHalvesOf log self.old → CutsHalves log n later → place ≡ later.place → AreHalvesOf (above log later) self.new }
    {
        let count = first_from(&self.halves, place);
        drop_front(&mut self.halves, count);
        self.low += count as u64;
        set_all(&self.halves, &mut self.times, self.low);
    }

    // The index of the half message with this queue offset.
    fn index(&self, half: u64) -> Option<usize>
        ensures { result ≡ index_of self.now half }
    {
        if half < self.low {
            return None;
        }
        let k = half - self.low;
        if k < self.halves.len() as u64 {
            Some(k as usize)
        } else {
            None
        }
    }

    // The half message with this queue offset, where it stands, is named by a renewal.
    fn renew(&mut self, half: u64, renewal: u64, store: u64)
        requires { store < 2 ^ 62 }
        ensures { self.new ≡ changed (renewed_row renewal store) half self.old }
    {
        if let Some(k) = self.index(half) {
            renew_at(
                &mut self.halves,
                &mut self.times,
                self.low,
                k,
                renewal,
                store,
            );
        }
    }

    /// Adds a half message, for which there is room; takes no memory. A renewal names the queue offset of another half message.
    /// The time is in milliseconds.
    pub fn add_half(&mut self, named: Option<u64>, place: u64, store: u64)
        requires room { 0 < self.old.spare }
        requires store { store < 2 ^ 62 }
        ensures table { self.new ≡ with_half self.old named place store self.new.spare }
        ensures spare { self.old.spare ≤ self.new.spare + 1 }
    {
        let own = self.low + self.halves.len() as u64;
        let names = named.unwrap_or(own);
        self.renew(names, own, store);
        let row = HalfRow {
            place,
            names,
            due: store + 6_000,
            last: own,
            settled: 0,
            checks: 0,
            state: OriginState::Open,
        };
        push(&mut self.halves, &mut self.times, self.low, row);
    }

    /// The half message with this queue offset, where one is told and it stands, is settled by the record with this number;
    /// takes no memory.
    pub fn settle(&mut self, half: Option<u64>, how: OriginState, number: u64)
        requires { number < 2 ^ 63 }
        ensures { self.new ≡ with_settled self.old half how number }
    {
        let Some(half) = half else {
            return;
        };
        if let Some(k) = self.index(half) {
            settle_at(&mut self.halves, &mut self.times, self.low, k, how, number);
        }
    }

    /// The queue offset that the half message at this place names, its own where it is an origin; the places must not fall.
    pub fn named_at(&self, place: u64) -> Option<u64>
        ensures { IsNonDecreasingBy place_of self.now.halves → result ≡ family_at self.now place }
    {
        named_at(&self.halves, place)
    }

    /// The queue offset that the half message names of which this record is a committed copy; the places must not fall.
    pub fn committed(&self, view: &View<'_>) -> Option<u64>
        ensures { IsNonDecreasingBy place_of self.now.halves → result ≡ committed_by self.now view.now }
    {
        if is_copy(view) {
            self.named_at(view.prepared())
        } else {
            None
        }
    }

    /// The same of a discarded copy.
    pub fn discarded(&self, view: &View<'_>) -> Option<u64>
        ensures { IsNonDecreasingBy place_of self.now.halves → result ≡ discarded_by self.now view.now }
    {
        if is_discard(view) {
            self.named_at(view.prepared())
        } else {
            None
        }
    }

    // Origins are settled by a record with this number.
    fn settle_by(&mut self, view: &View<'_>, number: u64)
        requires { number < 2 ^ 63 }
        ensures table { IsNonDecreasingBy place_of self.old.halves → self.new ≡ with_settlement self.old view.now number }
        ensures spare { self.new.spare ≡ self.old.spare }
    {
        let committed = self.committed(view);
        let discarded = self.discarded(view);
        self.settle(rolled_back(view), OriginState::RolledBack, number);
        self.settle(committed, OriginState::Committed, number);
        self.settle(discarded, OriginState::Discarded, number);
    }

    /// Adds the record with this number, of any topic. There has to be room for a half message more; takes no memory.
    pub fn add(&mut self, view: &View<'_>, number: u64)
        requires room { 0 < self.old.spare }
        requires number { number < 2 ^ 63 }
        ensures spare { self.old.spare ≤ self.new.spare + 1 }
        ensures half { is_half_entry view.now ≡ true
            → self.new ≡ with_half self.old (number_at (origin_text view.now)) view.now.offset view.now.store self.new.spare }
        ensures other { is_half_entry view.now ≡ false → IsNonDecreasingBy place_of self.old.halves
            → self.new ≡ with_settlement self.old view.now number }
        ensures records { (segment : ℕ) (log : Log) → IsWellFormed (geometry segment log.base) log.records
            → Follows (geometry segment log.base) log.records view.now → number ≡ count_of log → AreHalvesOf log self.old
            → AreHalvesOf (with_appended log (view.now ∷ [])) self.new }
    {
        if is_half(view) {
            self.add_half(named_half(view), view.offset(), view.store());
            return;
        }
        self.settle_by(view, number);
    }

    /// The half message with this queue offset, where it stands.
    pub fn half(&self, half: u64) -> Option<HalfRow>
        ensures { result ≡ row_at self.now half }
    {
        let k = self.index(half)?;
        Some(self.halves[k])
    }

    // The origin with this queue offset.
    fn origin(&self, half: u64) -> Option<HalfRow>
        ensures { result ≡ origin_at self.now half }
    {
        let row = self.half(half)?;
        if row.names == half { Some(row) } else { None }
    }

    // The half message with this queue offset and place.
    fn half_at(&self, half: u64, place: u64) -> Option<HalfRow>
        ensures { result ≡ if_at place (row_at self.now half) }
    {
        let row = self.half(half)?;
        if row.place == place { Some(row) } else { None }
    }

    /// The queue offset of the origin of the half message with this queue offset and place. `None` exactly where none stands
    /// there, or a renewal that names no origin.
    pub fn origin_of(&self, queue_offset: u64, place: u64) -> Option<u64>
        ensures table { result ≡ origin_named self.now (if_at place (row_at self.now queue_offset)) }
        ensures records { (segment : ℕ) (log : Log) → IsWellFormed (geometry segment log.base) log.records → AreHalvesOf log self.now
            → result ≡ option_map (λ origin. origin.queue_offset) (origin_in log.records (half_at log.records queue_offset place)) }
    {
        self.named_origin(queue_offset, place)
    }

    // The queue offset of the origin of the half message with this queue offset and place.
    fn named_origin(&self, queue_offset: u64, place: u64) -> Option<u64>
        ensures { result ≡ origin_named self.now (if_at place (row_at self.now queue_offset)) }
    {
        let row = self.half_at(queue_offset, place)?;
        self.origin(row.names)?;
        Some(row.names)
    }

    // What became of the origin with this queue offset.
    fn state_at(&self, origin: u64) -> Option<OriginState>
        ensures { result ≡ option_map (λ row. row.state) (origin_at self.now origin) }
    {
        Some(self.origin(origin)?.state)
    }

    /// What became of the origin with this queue offset, `None` exactly where it is no origin.
    pub fn state_of(&self, origin: u64) -> Option<OriginState>
        ensures table { result ≡ option_map (λ row. row.state) (origin_at self.now origin) }
        ensures records { (segment : ℕ) (log : Log) → IsWellFormed (geometry segment log.base) log.records → AreHalvesOf log self.now
            → result ≡ option_map (λ r. told_state (transaction_state log.records r.queue_offset)) (find (is_origin origin) log.records) }
    {
        self.state_at(origin)
    }

    // The number of the last record that settles the origin with this queue offset.
    fn settling_at(&self, origin: u64) -> Option<u64>
        ensures { result ≡ settling_number (origin_at self.now origin) }
    {
        let row = self.origin(origin)?;
        if row.settled == 0 {
            None
        } else {
            Some(row.settled - 1)
        }
    }

    /// The number of the last record that settles the origin with this queue offset: with that on the disk a verdict that was
    /// repeated can be answered. `None` exactly where it is open or no origin.
    pub fn settled_by(&self, origin: u64) -> Option<u64>
        ensures table { result ≡ settling_number (origin_at self.now origin) }
        ensures records { (segment : ℕ) (log : Log) → IsWellFormed (geometry segment log.base) log.records → AreHalvesOf log self.now
            → result ≡ settling_in log (find (is_origin origin) log.records) }
    {
        self.settling_at(origin)
    }

    // The first origin that is due.
    fn due_check(&self, now: u64) -> Option<Check>
        ensures { result ≡ due_of now self.now }
    {
        let k = self.times.first(now.min(NEVER - 1))?;
        Some(check_of(&self.halves[k], self.low + k as u64))
    }

    /// The first origin that is due for a check-back at `now`, in milliseconds.
    pub fn due(&self, now: u64) -> Option<Check>
        ensures table { result ≡ due_of now self.now }
        ensures records { (segment : ℕ) (log : Log) → IsWellFormed (geometry segment log.base) log.records → AreHalvesOf log self.now
            → result ≡ option_map (check_of_origin log.records) (due_origin log.records now) }
    {
        self.due_check(now)
    }

    // The earliest time at which an origin is due.
    fn earliest_due(&self) -> Option<u64>
        ensures before { (now : ℕ) → IfSome result (λ time. now < time) → due_of now self.now ≡ None }
        ensures at { IfSome result (λ time. IsSome (due_of time self.now)) }
    {
        let time = self.times.earliest()?;
        if time == NEVER { None } else { Some(time) }
    }

    /// The earliest time at which an origin is due for a check-back, as things are, in milliseconds: none is due before it, and
    /// one is at it. `None` exactly where no origin is open.
    pub fn next_due(&self) -> Option<u64>
        ensures before { (now : ℕ) → IfSome result (λ time. now < time) → due_of now self.now ≡ None }
        ensures at { IfSome result (λ time. IsSome (due_of time self.now)) }
        ensures records { (segment : ℕ) (log : Log) → IsWellFormed (geometry segment log.base) log.records → AreHalvesOf log self.now
            → (now : ℕ) → IfSome result (λ time. now < time) → due_origin log.records now ≡ None }
        ensures found { (segment : ℕ) (log : Log) → IsWellFormed (geometry segment log.base) log.records → AreHalvesOf log self.now
            → IfSome result (λ time. IsSome (due_origin log.records time)) }
    {
        self.earliest_due()
    }
}
