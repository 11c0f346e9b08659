//! The whole run of `pipe`: the arguments, the opening, and the requests of a source, answered to a sink.

ghost use Rattle.std.specs.Prelude.{◌≡◌, ◌≢◌, ◌⊎◌, List, ℕ, Some};
ghost use Rattle.mq_outside.specs.Disk.{Moves};
ghost use Rattle.mq_outside.specs.Files.{Same};
ghost use Rattle.log_model.specs.Stored.{StaysOutside};
ghost use Rattle.store_open.specs.Options.{texts_of};
ghost use Rattle.store_open.specs.Words.{IsCommand, IsFirstWrong};
ghost use Rattle.store_open.specs.declared.words.Command.{Command as TheCommand};
ghost use Rattle.store_open.specs.Openings.{FORMAT, IsForeign};
ghost use Rattle.store_open.specs.Statuses.{FitsTable};
ghost use Rattle.config_store.specs.Configs.{OFFSETS, TOPICS};
ghost use Rattle.worker_turns.specs.Acts.{view_of};
ghost use Rattle.broker_run.specs.Promise.{Call, Causes, IsQuiet, EndsWell};

use crate::serving::serve_log;
use broker_events::Setup;
use config_store::load_config;
use exit_status::{status_of_config, status_of_fault};
use log_opening::open_log_with;
use mq_outside::{Clock, Disk, DiskFault, Keep, Sink, Source};
use std::alloc::Global;
use store_open::{Status, open_format, read_words};

/// Serves the requests of the source, one after another: each record is synced before its reply is written, and pulls are read
/// from the log's files. Consumers resume at the offsets of the kept files, which are replaced at the end. The words are those of
/// the command line. The run waits for nobody, and always returns.
pub fn run_pipe<S: Source, K: Sink, D: Disk, P: Keep, T: Clock>(
    alloc: Global,
    words: &[&str],
    source: &mut S,
    sink: &mut K,
    disk: &mut D,
    keep: &mut P,
    clock: &mut T,
) -> Status
    // Status 1 comes exactly where the words are no command, with the place of the first that doesn't fit. No device is asked.
    ensures usage { result.code ≡ 1 → IsFirstWrong (texts_of words.now) result.place }
    ensures wrong { ((command : TheCommand) → IsCommand (texts_of words.now) command → ⊥) → result.code ≡ 1 }
    ensures idle { result.code ≡ 1 → (source.new ≡ source.old) × (sink.new ≡ sink.old) × (disk.new ≡ disk.old)
        × (keep.new ≡ keep.old) × (clock.new ≡ clock.old) }

    // Else the opening ended the call, or requests were served.
    ensures fits { result.code ≢ 1 → Call (texts_of words.now) result
        (record {
          source = record { tells = S.tells; given = S.given source.old; given_then = S.given source.new; left_then = S.left source.new };
          gives = D.Reader.gives;
          disk = view_of D.tells D.state D.faults D.syncs;
          sink = K.tells;
          clock = T.tells;
          old = disk.old;
          new = disk.new;
          taken = K.taken sink.old;
          taken_then = K.taken sink.new;
          readings = T.readings clock.old;
          readings_then = T.readings clock.new;
        })
        (record {
          tells = P.tells;
          old = P.state keep.old;
          new = P.state keep.new;
          failed = P.faults keep.old;
          failed_then = P.faults keep.new;
        }) }

    // Status 6 comes where the store is foreign, with the name of what shows it. It stays as it is.
    ensures foreign { D.tells → P.tells → result.code ≡ 6 → (command : TheCommand) × IsCommand (texts_of words.now) command
        × IsForeign (D.state disk.old).reads ((P.state keep.old).reads FORMAT) command.sizes result.name }
    ensures theirs { P.tells → result.code ≡ 6 → Moves Same (P.state keep.old) (P.state keep.new) }
    // The disk's files outside the log's folder stay.
    ensures outside { D.tells → StaysOutside (D.state disk.old) (D.state disk.new) }
    // A format that stands stays, and besides the two kept files no other text of the keep is touched.
    ensures stands { P.tells → (text : List ℕ) → (P.state keep.old).reads FORMAT ≡ Some text → (P.state keep.new).reads FORMAT ≡ Some text }
    ensures kept { P.tells → (name : List ℕ) → name ≢ FORMAT → name ≢ OFFSETS → name ≢ TOPICS
        → (P.state keep.new).reads name ≡ (P.state keep.old).reads name }
    // The status has a place and a name only where the table names one, and its cause.
    ensures table { FitsTable result }
    ensures causes { Causes result
        (record {
          source = S.faults source.old;
          sink = K.faults sink.old;
          disk = D.faults disk.old;
          keep = P.faults keep.old;
          clock = T.faults clock.old;
        })
        (record {
          source = S.faults source.new;
          sink = K.faults sink.new;
          disk = D.faults disk.new;
          keep = P.faults keep.new;
          clock = T.faults clock.new;
        }) }
    // Where nothing fails it ends with status 0, or memory ran out.
    ensures complete { IsQuiet (texts_of words.now)
        (record {
          source = record { tells = S.tells; given = S.given source.old; given_then = S.given source.new; left_then = S.left source.new };
          gives = D.Reader.gives;
          disk = view_of D.tells D.state D.faults D.syncs;
          sink = K.tells;
          clock = T.tells;
          old = disk.old;
          new = disk.new;
          taken = K.taken sink.old;
          taken_then = K.taken sink.new;
          readings = T.readings clock.old;
          readings_then = T.readings clock.new;
        })
        (record {
          tells = P.tells;
          old = P.state keep.old;
          new = P.state keep.new;
          failed = P.faults keep.old;
          failed_then = P.faults keep.new;
        })
        (record {
          source = S.faults source.old;
          sink = K.faults sink.old;
          disk = D.faults disk.old;
          keep = P.faults keep.old;
          clock = T.faults clock.old;
        })
        (record {
          source = S.faults source.new;
          sink = K.faults sink.new;
          disk = D.faults disk.new;
          keep = P.faults keep.new;
          clock = T.faults clock.new;
        }) → EndsWell result }
{
    let command = match read_words(words) {
        Err(place) => return Status::at(alloc, 1, place),
        Ok(command) => command,
    };
    let sizes = match open_format(alloc, disk, keep, &command.sizes) {
        Err(status) => return status,
        Ok(sizes) => sizes,
    };
    let config = match load_config(alloc, keep) {
        Err(fault) => return status_of_config(alloc, fault),
        Ok(config) => config,
    };
    let reader = match disk.reader(alloc) {
        Err(DiskFault::Failed) => return Status::plain(alloc, 5),
        Err(DiskFault::Memory) => return Status::plain(alloc, 7),
        Ok(reader) => reader,
    };
    let setup = Setup {
        segment: sizes.segment,
        host: command.host,
        sync: command.sync,
    };
    let offsets = config.offsets.as_slice();
    let topics = config.topics.as_slice();
    let opened = match open_log_with(alloc, disk, setup, offsets, topics) {
        Err(fault) => {
            disk.take_back(reader);
            return status_of_fault(alloc, fault);
        }
        Ok(opened) => opened,
    };
    serve_log(alloc, opened, reader, source, sink, disk, keep, clock)
}
