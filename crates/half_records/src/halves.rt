//! The half messages of the log: what became of each, who may give a verdict on it, and whole what an open origin may still need.

ghost use Rattle.std.specs.Prelude.{◌≡◌, ◌<◌, ◌^◌, ◌==◌, ◌∷◌, [], ℕ, find, option_map, true, false, IfSome, IsSome, Some, None};
ghost use Rattle.std.specs.Prelude.{vec_len, vec_capacity};
ghost use Rattle.record_codec.specs.Entry.{Entry};
ghost use Rattle.log_model.specs.Admissible.{half_topic};
ghost use Rattle.log_model.specs.Bases.{geometry, no_base};
ghost use Rattle.log_model.specs.Kinds.{is_half};
ghost use Rattle.log_model.specs.Log.{Follows, IsWellFormed};
ghost use Rattle.log_model.specs.Numbered.{Log, count_of, queue_max, with_appended};
ghost use Rattle.log_model.specs.Transactions.{family, half_at, is_origin, is_settled};
ghost use Rattle.half_view.specs.Halves.{with_half, with_settled, origin_at};
ghost use Rattle.half_view.specs.OfLog.{check_of, due_origin, empty_log, settling_in, with_settlement};
ghost use Rattle.half_records.specs.Kept.{KeptRow, AreKeptWith};
ghost use Rattle.half_records.specs.OfLog.{HasHalfMore, HasHalves, KeepsFamilies};
ghost use Rattle.half_records.specs.Tables.{HasRoomFor, kept_at, kept_index, family_of, is_open_at, renewed_family, settled_family};
ghost use Rattle.half_records.specs.Verdicts.{is_kept_of, judged_at, judged_of, judged_origin};

use crate::judged::Judged;
use crate::kept::KeptHalf;
use crate::list::{let_go, put};
use crate::names::Names;
use half_view::{Check, HalfView};
use log_model::OriginState;
use record_copies::Whole;
use std::alloc::Global;

/// The half messages.
#[derive(Drop)]
pub struct Halves {
    pub(crate) view: HalfView,
    pub(crate) groups: Names,
    // The queue offset of the first that stands.
    first: u64,
    pub(crate) kept: Vec<KeptHalf>,
}

impl Halves {
    /// No half messages; takes no memory.
    pub fn new(alloc: Global) -> Halves
        ensures { HasHalves (empty_log no_base) result }
    {
        Halves {
            view: HalfView::new(alloc),
            groups: Names::new(alloc),
            first: 0,
            kept: Vec::new(alloc),
        }
    }

    /// The table of what became of each.
    pub fn table(&self) -> &HalfView
        ensures { result.now ≡ self.now.view }
    {
        &self.view
    }

    // ---- what is known

    /// The queue offset of the next half message.
    pub fn end(&self) -> u64
        ensures { (segment : ℕ) (log : Log) → IsWellFormed (geometry segment log.base) log.records → HasHalves log self.now
            → result ≡ queue_max log half_topic 0 }
    {
        self.view.end()
    }

    /// The first open origin that is due for a check at this time.
    pub fn due(&self, now: u64) -> Option<Check>
        ensures { (segment : ℕ) (log : Log) → IsWellFormed (geometry segment log.base) log.records → HasHalves log self.now
            → result ≡ option_map (check_of log.records) (due_origin log.records now) }
    {
        self.view.due(now)
    }

    /// The earliest time at which an origin is due, as things are: none is due before it, and one is at it. `None` exactly where
    /// no origin is open.
    pub fn next_due(&self) -> Option<u64>
        ensures before { (segment : ℕ) (log : Log) → IsWellFormed (geometry segment log.base) log.records → HasHalves log self.now
            → (now : ℕ) → IfSome result (λ time. now < time) → due_origin log.records now ≡ None }
        ensures at { (segment : ℕ) (log : Log) → IsWellFormed (geometry segment log.base) log.records → HasHalves log self.now
            → IfSome result (λ time. IsSome (due_origin log.records time)) }
    {
        self.view.next_due()
    }

    /// The number of the last record that settles the origin. `None` exactly where it is open or no origin.
    pub fn settled_by(&self, origin: u64) -> Option<u64>
        ensures { (segment : ℕ) (log : Log) → IsWellFormed (geometry segment log.base) log.records → HasHalves log self.now
            → result ≡ settling_in log (find (is_origin origin) log.records) }
    {
        self.view.settled_by(origin)
    }

    // The index of the half message with this queue offset.
    pub(crate) fn index(&self, half: u64) -> Option<usize>
        ensures within { IfSome result (λ k. k < vec_len self.now.kept) }
        ensures index { result ≡ kept_index self.now half }
    {
        if half < self.first {
            return None;
        }
        let k = half - self.first;
        if k < self.kept.len() as u64 {
            Some(k as usize)
        } else {
            None
        }
    }

    // What is kept of the half message with this queue offset.
    fn kept_at(&self, half: u64) -> Option<&KeptHalf>
        ensures { option_map (λ x. x.now) result ≡ kept_at self.now half }
    {
        let k = self.index(half)?;
        Some(&self.kept[k])
    }

    // The half message is of this group, and has this id or none, where one is named.
    fn is_of(&self, half: u64, group: &str, id: &str) -> bool
        ensures { result ≡ is_kept_of self.now.groups group.now id.now (kept_at self.now half) }
    {
        match self.kept_at(half) {
            None => false,
            Some(kept) => self.groups.is(group, kept.group()) && kept.has_id(id),
        }
    }

    // What became of this origin.
    fn judged_row(&self, origin: u64) -> Option<Judged>
        ensures { result ≡ option_map (λ r. record { origin = origin; state = r.state }) (origin_at self.now.view origin) }
    {
        let state = self.view.state_of(origin)?;
        Some(Judged { origin, state })
    }

    // The origin that a verdict is on.
    fn judge(&self, half: u64, place: u64, group: &str, id: &str) -> Option<Judged>
        ensures { result ≡ judged_at self.now half place group.now id.now }
    {
        let origin = self.view.origin_of(half, place)?;
        if self.is_of(half, group, id) {
            self.judged_row(origin)
        } else {
            None
        }
    }

    /// The origin that a verdict is on, by the half message that it names, its group and its id, which may be empty. `None`
    /// exactly where no such half message is there, or a renewal of an origin that isn't.
    pub fn judged(&self, half: u64, place: u64, group: &str, id: &str) -> Option<Judged>
        ensures { (segment : ℕ) (log : Log) → IsWellFormed (geometry segment log.base) log.records → HasHalves log self.now
            → result ≡ option_map (judged_of log.records) (judged_origin log.records group.now id.now (half_at log.records half place)) }
    {
        self.judge(half, place, group, id)
    }

    // The member of what is kept of an origin's family that has this queue offset.
    fn member(&self, origin: u64, half: u64) -> Option<&Whole>
        ensures { option_map (λ whole. whole.now) result ≡ find (λ r. r.queue_offset == half) (family_of (kept_at self.now origin)) }
    {
        self.kept_at(origin)?.member(half)
    }

    /// The half message of an open origin's family that has this queue offset.
    pub fn whole(&self, origin: u64, half: u64) -> Option<&Whole>
        ensures found { (segment : ℕ) (log : Log) (r : Entry) → IsWellFormed (geometry segment log.base) log.records
            → HasHalves log self.now → find (is_origin origin) log.records ≡ Some r → is_settled log.records origin ≡ false
            → option_map (λ whole. whole.now) result ≡ find (λ r. r.queue_offset == half) (family log.records origin) }
        ensures settled { (segment : ℕ) (log : Log) → IsWellFormed (geometry segment log.base) log.records → HasHalves log self.now
            → is_settled log.records origin ≡ true → result ≡ None }
    {
        self.member(origin, half)
    }

    // The half message with this queue offset is an open origin.
    pub(crate) fn is_open(&self, origin: u64) -> bool
        ensures { result ≡ is_open_at self.now.view origin }
    {
        match self.view.state_of(origin) {
            Some(OriginState::Open) => true,
            _ => false,
        }
    }

    // ---- a half message more

    // A renewal of this origin is kept whole, where it is open and there is room for it.
    fn keep_renewal(&mut self, origin: u64, whole: Whole)
        requires room { (x : KeptRow) → kept_at self.old origin ≡ Some x → 0 < x.spare }
        ensures view { self.new.view ≡ self.old.view }
        ensures groups { self.new.groups ≡ self.old.groups }
        ensures first { self.new.first ≡ self.old.first }
        ensures room { (vec_len self.new.kept ≡ vec_len self.old.kept) × (vec_capacity self.new.kept ≡ vec_capacity self.old.kept) }
        ensures kept { AreKeptWith (renewed_family self.old origin whole) self.old.kept.items self.new.kept.items }
    {
        if !self.is_open(origin) {
            return;
        }
        if let Some(k) = self.index(origin) {
            put(&mut self.kept, k, whole);
        }
    }

    // Adds an origin, for which there is room.
    fn add_origin(&mut self, place: u64, store: u64, kept: KeptHalf, whole: Whole)
        requires store { store < 2 ^ 62 }
        requires room { HasRoomFor self.old None kept }
        ensures view { self.new.view ≡ with_half self.old.view None place store self.new.view.spare }
        ensures records { HasHalfMore self.old self.new None place store kept whole }
    {
        let mut kept = kept;
        kept.put(whole);
        self.view.add_half(None, place, store);
        self.kept.push_reserved(kept);
    }

    // Adds a renewal of this origin, for which there is room.
    fn add_renewal(&mut self, origin: u64, place: u64, store: u64, kept: KeptHalf, whole: Whole)
        requires store { store < 2 ^ 62 }
        requires room { HasRoomFor self.old (Some origin) kept }
        ensures view { self.new.view ≡ with_half self.old.view (Some origin) place store self.new.view.spare }
        ensures records { HasHalfMore self.old self.new (Some origin) place store kept whole }
    {
        self.keep_renewal(origin, whole);
        self.view.add_half(Some(origin), place, store);
        self.kept.push_reserved(kept);
    }

    /// Adds a half message that names this origin or none, at this place and time in milliseconds, for which all is ready; takes
    /// no memory.
    pub fn add(&mut self, named: Option<u64>, place: u64, store: u64, kept: KeptHalf, whole: Whole)
        requires store { store < 2 ^ 62 }
        requires room { HasRoomFor self.old named kept }
        ensures view { self.new.view ≡ with_half self.old.view named place store self.new.view.spare }
        ensures records { HasHalfMore self.old self.new named place store kept whole }
    {
        match named {
            None => self.add_origin(place, store, kept, whole),
            Some(origin) => self.add_renewal(origin, place, store, kept, whole),
        }
    }

    // ---- an origin is settled

    // What is kept whole of the half message is let go, where it isn't an open origin.
    fn let_go_settled(&mut self, alloc: Global, half: u64)
        ensures view { self.new.view ≡ self.old.view }
        ensures groups { self.new.groups ≡ self.old.groups }
        ensures first { self.new.first ≡ self.old.first }
        ensures room { (vec_len self.new.kept ≡ vec_len self.old.kept) × (vec_capacity self.new.kept ≡ vec_capacity self.old.kept) }
        ensures kept { AreKeptWith (settled_family self.old.first self.old.view half) self.old.kept.items self.new.kept.items }
    {
        if self.is_open(half) {
            return;
        }
        if let Some(k) = self.index(half) {
            let_go(&mut self.kept, alloc, k);
        }
    }

    // The half message with this queue offset, where one is told and it stands, is settled by the record with this number, and
    // what was kept whole of it is let go.
    pub(crate) fn settle_kept(
        &mut self,
        alloc: Global,
        half: Option<u64>,
        how: OriginState,
        number: u64,
    )
        requires { number < 2 ^ 63 }
        ensures view { self.new.view ≡ with_settled self.old.view half how number }
        ensures families { (log : Log) → KeepsFamilies log self.old → KeepsFamilies log self.new }
    {
        self.view.settle(half, how, number);
        if let Some(half) = half {
            self.let_go_settled(alloc, half);
        }
    }

    /// The half message with this queue offset, where one is told and it stands, is settled by the record with this number: what
    /// was kept whole of it is let go. Takes no memory.
    pub fn settle(&mut self, alloc: Global, half: Option<u64>, how: OriginState, number: u64)
        requires { number < 2 ^ 63 }
        ensures view { self.new.view ≡ with_settled self.old.view half how number }
        ensures records { (segment : ℕ) (log : Log) (r : Entry) → IsWellFormed (geometry segment log.base) log.records
            → Follows (geometry segment log.base) log.records r → HasHalves log self.old → is_half r ≡ false
            → with_settlement self.old.view r (count_of log) ≡ with_settled self.old.view half how number
            → HasHalves (with_appended log (r ∷ [])) self.new }
    {
        self.settle_kept(alloc, half, how, number);
    }
}
