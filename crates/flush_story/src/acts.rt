//! What holds of every row of acts. No call is made: the clauses speak of the definitions.

ghost use Rattle.std.specs.Prelude.{List};
ghost use Rattle.segment_files.specs.declared.last_file.LastFile.{LastFile};
ghost use Rattle.broker_model.specs.State.{State};
ghost use Rattle.core_log.specs.Represents.{Represents};
ghost use Rattle.broker_core.specs.declared.alone.Alone.{Alone};
ghost use Rattle.worker_turns.specs.Acts.{Act, Acts, place_of, view_of, change_of};
ghost use Rattle.flush_story.specs.Leads.{LeadsTo, alone};

use mq_outside::Disk;

/// From each state that a core represents the acts of its caller lead to a state that it represents then, and the disk stores that
/// state's log, with its flushed number, where it did so before. At each moment between a crash leaves what was flushed by then, and
/// at the end of each turn that ended Ok exactly that, if no zeros are written ahead.
pub fn acts_keep_the_log<D: Disk>(old: &D, new: &D)
    ensures { (s : State) (x y : Alone) (acts : List Act) (file file_then : LastFile) → Represents x.core s
        → Acts alone (view_of D.tells D.state D.faults D.syncs) acts
        (change_of x (place_of file old.now) y (place_of file_then new.now))
        → LeadsTo (view_of D.tells D.state D.faults D.syncs) acts s (place_of file old.now) y (place_of file_then new.now) }
{}
