//! What holds of logs, of their segment files and of recovery. No call is made: the clauses speak of the definitions.

ghost use Rattle.std.specs.Prelude.{◌≡◌, ◌⊎◌, ◌<◌, ◌≤◌, ◌+◌, ◌*◌, ◌/◌, ◌%◌, ◌^◌, ◌++◌, List, [], ◌∷◌, ℕ, suc};
ghost use Rattle.std.specs.Prelude.{Some, IsSome, length, take, drop, slice_get, ℤ, Bool, map, None, true};
ghost use Rattle.mq_outside.specs.Disk.{EachImage, IsCrashImage, IsDurable};
ghost use Rattle.mq_outside.specs.Files.{Files, HasNoFile, At, Shortened, bytes_of};
ghost use Rattle.record_codec.specs.Entry.{Entry};
ghost use Rattle.record_codec.specs.Units.{unit_of};
ghost use Rattle.record_codec.specs.declared.unit.Unit.{Unit as QueueUnit};
ghost use Rattle.record_codec.specs.Layout.{IsRecord};
ghost use Rattle.record_codec.specs.Drafts.{entry_of, draft_fault};
ghost use Rattle.record_codec.specs.declared.draft.Place.{Place};
ghost use Rattle.log_model.specs.Admissible.{IsAdmissible};
ghost use Rattle.log_model.specs.Drafts.{copy_draft, renewal_draft, discard_draft, delivery_draft, op_draft};
ghost use Rattle.log_model.specs.Kinds.{is_half, is_delayed, origin_text};
ghost use Rattle.log_model.specs.Bases.{Geometry, first_segment};
ghost use Rattle.log_model.specs.Log.{place_after, end_of, IsGeometry, IsWellFormed};
ghost use Rattle.log_model.specs.Pulls.{pulled, pulled_as};
ghost use Rattle.log_model.specs.Segments.{Shape, shape_of, segment_file, last_name, Counts, AreSegmentFiles};
ghost use Rattle.log_model.specs.Store.{StartsWith, IsDamagedAt, IsHonest, IsLaid, Keeps, KeepsPrefix};
ghost use Rattle.log_model.specs.Store.{KeepsIfHonest, Stands, StoresLog, StandsAtPlace, HasLogFilesOf};
ghost use Rattle.log_model.specs.Stored.{FlushTurn, HasFirst, KeepsAtLeast, LogStays, StoresFirst, flush_turn, turned_by, turned_in};

use mq_outside::Disk;

/// The place of a record of n bytes is the first that fits, of the place where the log ends and the starts of segments behind it.
pub fn a_place_is_the_first_that_fits()
    ensures behind { (S end n : ℕ) → 0 < S → end ≤ place_after S end n }
    ensures either { (S end n : ℕ) → 0 < S → (place_after S end n ≡ end) ⊎ (place_after S end n % S ≡ 0) }
    ensures fits { (S end n : ℕ) → n + 8 ≤ S → place_after S end n % S + n + 8 ≤ S }
    ensures first { (S end n place : ℕ) → 0 < S → end ≤ place → (place ≡ end) ⊎ (place % S ≡ 0) → place % S + n + 8 ≤ S
        → place_after S end n ≤ place }
{}

/// Each log has segment files.
pub fn each_log_has_files()
    ensures { (S : Geometry) (log : List Entry) → IsWellFormed S log → (files : Files) × AreSegmentFiles S log files }
{}

/// The file of the segment where a log ends has no byte behind its records.
pub fn the_last_file_ends_with_the_log()
    ensures { (S : Geometry) (log : List Entry) (files : Files) → IsWellFormed S log → AreSegmentFiles S log files
        → length (bytes_of files (segment_file S (end_of S.base log / S.size))) ≡ end_of S.base log % S.size }
{}

/// The file of each segment before that one has a segment's size, and so has each file behind which another stands.
pub fn files_before_the_last_are_full()
    ensures before { (S : Geometry) (log : List Entry) (files : Files) (k : ℕ) → IsWellFormed S log → AreSegmentFiles S log files
        → first_segment S ≤ k → k < end_of S.base log / S.size → length (bytes_of files (segment_file S k)) ≡ S.size }
    ensures behind { (S : Geometry) (log : List Entry) (files : Files) (k : ℕ) → IsWellFormed S log → AreSegmentFiles S log files
        → first_segment S ≤ k → suc k * S.size < 2 ^ 64 → IsSome (files (segment_file S (suc k)))
        → length (bytes_of files (segment_file S k)) ≡ S.size }
{}

/// Where a disk stores a log, each flushed record stands where it says, as the disk is read and in each crash image.
pub fn flushed_records_stand_at_their_places<D: Disk>(disk: &D)
    ensures read { D.tells → (S : Geometry) (log : List Entry) (flushed k : ℕ) (r : Entry) → StoresLog S log flushed (D.state disk.now)
        → k < flushed → slice_get log k ≡ Some r → StandsAtPlace S (D.state disk.now).reads r }
    ensures crash { D.tells → (S : Geometry) (log : List Entry) (flushed k : ℕ) (r : Entry) → StoresLog S log flushed (D.state disk.now)
        → k < flushed → slice_get log k ≡ Some r → EachImage (λ files. StandsAtPlace S files r) (D.state disk.now) }
{}

/// What a disk stores depends on the files of the log's own segments alone, and on none before its base.
pub fn other_files_do_not_matter<D: Disk, E: Disk>(before: &D, after: &E)
    ensures { D.tells → E.tells → (S : Geometry) (log : List Entry) (flushed : ℕ) → StoresLog S log flushed (D.state before.now)
        → EachImage (HasLogFilesOf S (D.state before.now)) (E.state after.now) → StoresLog S log flushed (E.state after.now) }
{}

/// Where a disk stores a log, each crash leaves the files before the one where the flushed records end as they are read.
pub fn images_agree_before_the_last_file<D: Disk>(disk: &D)
    ensures { D.tells → (S : Geometry) (log : List Entry) (flushed k : ℕ) → StoresLog S log flushed (D.state disk.now)
        → first_segment S ≤ k → k < end_of S.base (take flushed log) / S.size → IsDurable (segment_file S k) (D.state disk.now) }
{}

/// Each honest crash of a disk that stores a log leaves a prefix of the log with all that is flushed.
pub fn crashes_leave_a_prefix<D: Disk>(disk: &D)
    ensures { D.tells → (S : Geometry) (log : List Entry) (flushed : ℕ) (files : Files) → StoresLog S log flushed (D.state disk.now)
        → IsCrashImage (D.state disk.now) files → IsHonest S log flushed files → KeepsPrefix S log flushed files }
{}

/// A disk without files stores the empty log.
pub fn an_empty_disk_stores_the_empty_log<D: Disk>(disk: &D)
    ensures { D.tells → (S : Geometry) → IsGeometry S → EachImage HasNoFile (D.state disk.now) → StoresLog S [] 0 (D.state disk.now) }
{}

/// What a disk is after a crash, which holds one of the images, stores the same log.
pub fn a_crashed_disk_stores_the_log<D: Disk, E: Disk>(before: &D, after: &E)
    ensures { D.tells → E.tells → (S : Geometry) (log : List Entry) (flushed : ℕ) (files : Files)
        → StoresLog S log flushed (D.state before.now)
        → IsCrashImage (D.state before.now) files → EachImage (λ image. image ≡ files) (E.state after.now)
        → StoresLog S log flushed (E.state after.now) }
{}

/// Recovery of a log's own files keeps the log.
pub fn files_recover_to_their_log()
    ensures { (S : Geometry) (log : List Entry) (files : Files) → IsWellFormed S log → AreSegmentFiles S log files → Keeps S log files }
{}

/// Logs with the same files are the same.
pub fn files_tell_their_log()
    ensures { (S : Geometry) (first second : List Entry) (files : Files) → IsWellFormed S first → IsWellFormed S second
        → AreSegmentFiles S first files → AreSegmentFiles S second files → first ≡ second }
{}

/// Recovery keeps one list of records of any files.
pub fn recovery_is_unique()
    ensures { (S : Geometry) (first second : List Entry) (files : Files) → Keeps S first files → Keeps S second files → first ≡ second }
{}

/// Recovery of what recovery kept keeps the same.
pub fn recovery_is_idempotent()
    ensures { (S : Geometry) (records again : List Entry) (files after : Files) → Keeps S records files → AreSegmentFiles S records after
        → Keeps S again after → again ≡ records }
{}

/// What recovery keeps is a well-formed log.
pub fn kept_is_well_formed()
    ensures { (S : Geometry) (records : List Entry) (files : Files) → Keeps S records files → IsWellFormed S records }
{}

/// Each record that recovery keeps stands where it says: in the file of its segment, at its offset there.
pub fn kept_records_stand_at_their_places()
    ensures { (S : Geometry) (records : List Entry) (files : Files) (k : ℕ) (r : Entry) → Keeps S records files
        → slice_get records k ≡ Some r
        → StandsAtPlace S files r }
{}

/// The files that a log is recovered from are honest for it.
pub fn kept_files_are_honest()
    ensures { (S : Geometry) (log : List Entry) (flushed : ℕ) (files : Files) → Keeps S log files → IsHonest S log flushed files }
{}

/// Where the flushed records stand at the front of the files, and any bytes behind them that are honest, recovery keeps a prefix.
pub fn torn_ends_leave_a_prefix()
    ensures { (S : Geometry) (log : List Entry) (flushed : ℕ) (shape : Shape) (reach : ℕ) (files : Files) → IsWellFormed S log
        → flushed ≤ length log → IsLaid S (take flushed log) shape → Stands S shape reach files
        → IsHonest S log flushed files → KeepsPrefix S log flushed files }
{}

/// Files that recovery keeps records of are not damaged.
pub fn kept_files_are_undamaged()
    ensures { (S : Geometry) (records : List Entry) (files : Files) (place : ℕ) (name : List ℕ) → Keeps S records files
        → IsDamagedAt S files place name → ⊥ }
{}

/// Damage stands at one place, in one file.
pub fn damage_has_one_place()
    ensures { (S : Geometry) (files : Files) (place other_place : ℕ) (name other : List ℕ) → IsDamagedAt S files place name
        → IsDamagedAt S files other_place other → (place ≡ other_place) × (name ≡ other) }
{}

/// Each file of a log begins that file of each longer log.
pub fn files_only_grow()
    ensures { (S : Geometry) (log more : List Entry) (files longer : Files) (name : List ℕ) → IsWellFormed S (log ++ more)
        → AreSegmentFiles S log files → AreSegmentFiles S (log ++ more) longer → Counts S name
        → take (length (bytes_of files name)) (bytes_of longer name) ≡ bytes_of files name }
{}

/// The files of a log whose last one was cut anywhere are honest for the log.
pub fn cut_files_are_honest()
    ensures { (S : Geometry) (log : List Entry) (flushed : ℕ) (files cut : Files) → IsWellFormed S log → AreSegmentFiles S log files
        → At (last_name S (shape_of S log)) (Shortened 0) files cut → IsHonest S log flushed cut }
{}

/// Recovery keeps at least these records of files that have them, where the files are honest for the log.
pub fn first_records_are_kept()
    ensures { (S : Geometry) (log : List Entry) (least : ℕ) (files : Files) → IsWellFormed S log → HasFirst S log least files
        → KeepsIfHonest S log least files }
{}

/// A disk that holds what a crash left, with the first records of a log at their places, stores the log with these flushed.
pub fn what_a_crash_left_stores_the_log<D: Disk>(after: &D)
    ensures { D.tells → (S : Geometry) (log : List Entry) (least : ℕ) (files : Files) → IsWellFormed S log → HasFirst S log least files
        → EachImage (λ image. image ≡ files) (D.state after.now) → StoresFirst S log least (D.state after.now) }
{}

/// What each moment keeps of a log, it keeps of each longer one, and one run behind another keeps what both keep.
pub fn what_is_kept_stays_kept<D: Disk>(old: &D, mid: &D, new: &D)
    ensures longer { (S : Geometry) (log more : List Entry) (least : ℕ → ℕ) → KeepsAtLeast S log least (D.state old.now) (D.state new.now)
        → KeepsAtLeast S (log ++ more) least (D.state old.now) (D.state new.now) }
    ensures both { (S : Geometry) (log : List Entry) (least : ℕ → ℕ) → KeepsAtLeast S log least (D.state old.now) (D.state mid.now)
        → KeepsAtLeast S log least (D.state mid.now) (D.state new.now) → KeepsAtLeast S log least (D.state old.now) (D.state new.now) }
{}

/// Behind flush turns that ended Ok, one more that keeps their records and has flushed its own at its end.
pub fn a_flush_turn_counts_from_its_end<D: Disk>(old: &D, mid: &D, new: &D)
    ensures { (S : Geometry) (log : List Entry) (before count : ℕ) (turns : List FlushTurn)
        → KeepsAtLeast S log (λ m. before + turned_by turns m) (D.state old.now) (D.state mid.now)
        → KeepsAtLeast S log (λ m. before + turned_in turns) (D.state mid.now) (D.state new.now)
        → EachImage (HasFirst S log (before + turned_in turns + count)) (D.state new.now)
        → KeepsAtLeast S log (λ m. before + turned_by (turns
        ++ flush_turn count (D.state new.now).moment ∷ []) m) (D.state old.now) (D.state new.now) }
{}

/// Where the log's files stay, the disk stores the log as before.
pub fn a_log_whose_files_stay_is_stored<D: Disk>(old: &D, new: &D)
    ensures { (S : Geometry) (log : List Entry) (flushed : ℕ) → LogStays (D.state old.now) (D.state new.now)
        → StoresLog S log flushed (D.state old.now) → StoresLog S log flushed (D.state new.now) }
{}

/// A pull of a queue's units gives the units of a pull of its records, with the same code and the same offsets.
pub fn units_are_pulled_as_records()
    ensures { (low most : ℕ) (queue : List Entry) (from : ℤ) (test : QueueUnit → Bool)
        → pulled (λ unit. unit) low (map unit_of queue) from most test ≡ pulled_as unit_of (pulled unit_of low queue from most test) }
{}

/// What the broker makes of a record that a log may have can be written: the committed copy, the renewal and the discarded
/// copy of a half message, also the one of its renewal, and the delivery of a delayed message; and what names a settled half.
pub fn what_is_made_of_a_record_can_be_written()
    ensures copy { (S : ℕ) (r : Entry) (host : List ℕ) → IsRecord r → IsAdmissible S r → is_half r ≡ true
        → draft_fault S (copy_draft host r) ≡ None }
    ensures renewal { (S : ℕ) (r : Entry) (host : List ℕ) (n : ℕ) → IsRecord r → IsAdmissible S r → is_half r ≡ true → n < 100
        → draft_fault S (renewal_draft host n r) ≡ None }
    ensures discard { (S : ℕ) (r : Entry) (host : List ℕ) → IsRecord r → IsAdmissible S r → is_half r ≡ true → IsSome (origin_text r)
        → draft_fault S (discard_draft host r) ≡ None }
    ensures renewed { (S : ℕ) (r : Entry) (host later : List ℕ) (n : ℕ) (at : Place) → IsRecord r → IsAdmissible S r
        → is_half r ≡ true → n < 100
        → draft_fault S (discard_draft later (entry_of (renewal_draft host n r) at)) ≡ None }
    ensures delivery { (S : ℕ) (r : Entry) (host : List ℕ) (level number : ℕ) → IsRecord r → IsAdmissible S r
        → is_delayed r ≡ true → level < 100 → number < 2 ^ 62 → draft_fault S (delivery_draft host level number r) ≡ None }
    ensures op { (S now origin : ℕ) (host : List ℕ) → 4096 ≤ S → origin < 2 ^ 62 → draft_fault S (op_draft host now origin) ≡ None }
{}
