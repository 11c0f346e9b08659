//! What holds of every story of a broker over its disk. No call is made: the clauses speak of the definitions.

ghost use Rattle.std.specs.Prelude.{◌≤◌, ◌+◌, List, ℕ, Some};
ghost use Rattle.mq_outside.specs.Files.{Files};
ghost use Rattle.log_model.specs.Numbered.{IsLawful};
ghost use Rattle.log_model.specs.Store.{KeepsIfHonest, StoresLog};
ghost use Rattle.log_model.specs.Stored.{turned_by};
ghost use Rattle.log_model.specs.declared.batch.Batch.{Batch};
ghost use Rattle.segment_files.specs.Turn.{GoesToPlace, growing};
ghost use Rattle.segment_files.specs.declared.last_file.LastFile.{LastFile};
ghost use Rattle.broker_model.specs.State.{State};
ghost use Rattle.broker_events.specs.declared.event.Event.TheVariants.{Take};
ghost use Rattle.broker_events.specs.declared.said.Said.TheVariants as said;
ghost use Rattle.flush_story.specs.Story.{Happening, Story, Reaches, StepsAs, steps_of, turns_of, span_of};
ghost use Rattle.flush_story.specs.Keeping.{IsOpenFor, IsPlacedFor, Keeps, flushed_in, geometry_of};

use mq_outside::Disk;

/// Where the next bytes go where a broker's next batch is written, they do so behind every story, whatever the disk tells. Each batch
/// that is taken then goes to its place.
pub fn a_story_keeps_the_place<D: Disk>(old: &D, new: &D)
    ensures places { (s t : State) (file file_then : LastFile) (story : List Happening) → s.log.base.records ≤ s.flushed
        → IsLawful t.setup.segment t.log → IsPlacedFor s file
        → Story D.tells (λ (place : LastFile × D). growing place.0 (D.state place.1)) story
        (span_of s (file, old.now) t (file_then, new.now))
        → IsPlacedFor t file_then }
    ensures goes { (s t : State) (file : LastFile) (batch : Batch) → s.log.base.records ≤ s.flushed → IsLawful s.setup.segment s.log
        → IsPlacedFor s file → StepsAs s Take (Some (said.Batch (Some batch))) t → GoesToPlace file batch }
{}

/// The steps of a story, flush turns and all, are a run of the model.
pub fn a_story_is_a_run<D: Disk>(old: &D, new: &D)
    ensures { (s t : State) (file file_then : LastFile) (story : List Happening)
        → Story D.tells (λ (place : LastFile × D). growing place.0 (D.state place.1)) story
        (span_of s (file, old.now) t (file_then, new.now))
        → Reaches s (steps_of story) t }
{}

/// Where a disk stores a broker's log with its flushed number, and is open for the next batch, it does so behind every story. At each
/// moment of it a crash leaves the first records of the log, at least those that were flushed by then, and recovery keeps these of
/// honest files; at the moment at which a turn ended a crash leaves exactly the files of what was flushed, if no zeros are written ahead.
pub fn a_story_keeps_the_log<D: Disk>(old: &D, new: &D)
    ensures keeps { D.tells → (s t : State) (file file_then : LastFile) (story : List Happening) → s.log.base.records ≤ s.flushed
        → IsLawful t.setup.segment t.log → IsOpenFor s (growing file (D.state old.now))
        → Story D.tells (λ (place : LastFile × D). growing place.0 (D.state place.1)) story
        (span_of s (file, old.now) t (file_then, new.now))
        → Keeps s t (turns_of story) (growing file (D.state old.now)) (growing file_then (D.state new.now)) }
    ensures recovers { D.tells → (s t : State) (file file_then : LastFile) (story : List Happening) → s.log.base.records ≤ s.flushed
        → IsLawful t.setup.segment t.log → IsOpenFor s (growing file (D.state old.now))
        → Story D.tells (λ (place : LastFile × D). growing place.0 (D.state place.1)) story
        (span_of s (file, old.now) t (file_then, new.now))
        → (m : ℕ) (files : Files) → (D.state old.now).moment ≤ m → m ≤ (D.state new.now).moment → (D.state new.now).image_at m files
        → KeepsIfHonest (geometry_of t) t.log.records (flushed_in s + turned_by (turns_of story) m) files }
    ensures stores { D.tells → (s t : State) (file file_then : LastFile) (story : List Happening) → s.log.base.records ≤ s.flushed
        → IsLawful t.setup.segment t.log → IsOpenFor s (growing file (D.state old.now))
        → Story D.tells (λ (place : LastFile × D). growing place.0 (D.state place.1)) story
        (span_of s (file, old.now) t (file_then, new.now))
        → StoresLog (geometry_of t) t.log.records (flushed_in t) (D.state new.now) }
{}
