//! A run of the generator: the arguments, the store's format, the requests, and the lines of what they left.

ghost use Rattle.std.specs.Prelude.{◌≡◌, ◌≢◌, ◌⊎◌, List, ℕ, Some};
ghost use Rattle.mq_outside.specs.Disk.{Moves, Rests};
ghost use Rattle.mq_outside.specs.Files.{Same};
ghost use Rattle.log_model.specs.Stored.{StaysOutside};
ghost use Rattle.store_open.specs.Formats.{no_sizes};
ghost use Rattle.store_open.specs.GenWords.{IsGenCommand, IsFirstWrongOfGen};
ghost use Rattle.store_open.specs.Openings.{FORMAT, IsForeign, PutsOnly, own_format, store_told};
ghost use Rattle.store_open.specs.Options.{texts_of};
ghost use Rattle.store_open.specs.Statuses.{FitsTable};
ghost use Rattle.store_open.specs.declared.gen_words.GenCommand.{GenCommand};
ghost use Rattle.tool_run.specs.Tools.{Causes, Failed as SinkFailed, TookAll, seen_of};
ghost use Rattle.gen_run.specs.Gens.{Fills, HasRecords, IsUnsound, WroteLine};
ghost use Rattle.gen_run.specs.Sums.{summary_text};

use crate::opening::fill;
use crate::summary::Summary;
use crate::texts::push_summary;
use mq_outside::{Disk, Keep, Sink};
use std::alloc::{AllocError, Global};
use store_open::{AskedSizes, Status, open_format, read_gen_words};
use tool_run::{Lines, ToolRan, end_damaged, end_unopened, end_whole};

// Writes the line of a damaged store.
fn end_in_damage<K: Sink + Drop>(alloc: Global, status: Status, sink: K) -> ToolRan<K>
    ensures wrote { WroteLine result.status (seen_of K.Sink sink result.sink) }
    ensures known { (result.status.code ≡ 7) ⊎ (result.status.code ≡ 8) }
    ensures same { result.status.code ≡ 8 → (result.status.place ≡ status.place) × (result.status.name ≡ status.name) }
    ensures table { FitsTable result.status }
{
    let lines = Lines::new(alloc, sink);
    end_damaged(alloc, lines, status.place, status.name)
}

// Writes the line of a store that is foreign or damaged, and nothing where another fault ended the run.
fn end_stopped<K: Sink + Drop>(alloc: Global, status: Status, sink: K) -> ToolRan<K>
    ensures wrote { WroteLine result.status (seen_of K.Sink sink result.sink) }
    ensures status { (result.status.code ≡ status.code) ⊎ (result.status.code ≡ 7) }
    ensures same { (result.status.code ≡ 7) ⊎ ((result.status.place ≡ status.place) × (result.status.name ≡ status.name)) }
    ensures table { FitsTable status → FitsTable result.status }
{
    let is_damaged = status.code == 8;
    if is_damaged {
        return end_in_damage(alloc, status, sink);
    }
    end_unopened(alloc, status, sink)
}

// Writes the lines of the summary.
fn end_filled<K: Sink + Drop>(alloc: Global, summary: Summary, sink: K) -> ToolRan<K>
    ensures done { result.status.code ≡ 0 → TookAll (seen_of K.Sink sink result.sink) (summary_text summary) }
    ensures failed { result.status.code ≡ 4 → SinkFailed (seen_of K.Sink sink result.sink) (summary_text summary) }
    ensures memory { result.status.code ≡ 7 → result.sink ≡ sink }
    ensures known { (result.status.code ≡ 0) ⊎ ((result.status.code ≡ 4) ⊎ (result.status.code ≡ 7)) }
    ensures table { FitsTable result.status }
{
    let mut lines = Lines::new(alloc, sink);
    match push_summary(&summary, &mut lines.held) {
        Ok(()) => end_whole(alloc, lines),
        Err(AllocError) => ToolRan {
            status: Status::plain(alloc, 7),
            sink: lines.sink,
        },
    }
}

/// Fills a store without records by the requests of the generator, and writes what it holds then. The words are those of the command
/// line. The sink comes back.
#[tactic(auto, using(log_model::proofs::OutsideLemmas::outside_start))]
pub fn run_gen<K: Sink + Drop, D: Disk, P: Keep>(
    alloc: Global,
    words: &[&str],
    sink: K,
    disk: &mut D,
    keep: &mut P,
) -> ToolRan<K>
    // Status 1 comes exactly where the words don't fit, with the place of the first that doesn't. No device is asked.
    ensures usage { result.status.code ≡ 1 → IsFirstWrongOfGen (texts_of words.now) result.status.place }
    ensures wrong { ((command : GenCommand) → IsGenCommand (texts_of words.now) command → ⊥) → result.status.code ≡ 1 }
    ensures idle { result.status.code ≡ 1 → (result.sink ≡ sink) × (disk.new ≡ disk.old) × (keep.new ≡ keep.old) }

    // At status 0 the store was filled by all of the items, its disk stores that log, all of it flushed, and the summary was written.
    // At status 4 first bytes of it were.
    ensures did { result.status.code ≡ 0 → Fills (texts_of words.now) result.status (seen_of K.Sink sink result.sink)
        D.tells (D.state disk.old) (D.state disk.new)
        (store_told D.tells (D.state disk.old).reads P.tells (P.state keep.old).reads) (P.state keep.new) }
    ensures broke { result.status.code ≡ 4 → Fills (texts_of words.now) result.status (seen_of K.Sink sink result.sink)
        D.tells (D.state disk.old) (D.state disk.new)
        (store_told D.tells (D.state disk.old).reads P.tells (P.state keep.old).reads) (P.state keep.new) }
    ensures puts { result.status.code ≢ 0 → result.status.code ≢ 4 → WroteLine result.status (seen_of K.Sink sink result.sink) }

    // Status 6 comes where the store is foreign, with the name of what shows it, and its config files stay as they are; or where it is
    // this program's, and is said to have records. Its disk stays as it is.
    ensures foreign { D.tells → P.tells → result.status.code ≡ 6
        → IsForeign (D.state disk.old).reads ((P.state keep.old).reads FORMAT) no_sizes result.status.name
        ⊎ HasRecords result.status
        (store_told D.tells (D.state disk.old).reads P.tells (P.state keep.old).reads) (P.state keep.new) }
    ensures theirs { P.tells → result.status.code ≡ 6 → Moves Same (P.state keep.old) (P.state keep.new)
        ⊎ HasRecords result.status
        (store_told D.tells (D.state disk.old).reads P.tells (P.state keep.old).reads) (P.state keep.new) }
    ensures records { D.tells → result.status.code ≡ 6 → Rests (D.state disk.old) (D.state disk.new) }

    // Status 8 comes where the log's files are damaged at this place, in this file, and then nothing of the disk was changed; or where all
    // items were given, and what was read back then is damaged, or says something else.
    ensures damaged { D.tells → result.status.code ≡ 8 → IsUnsound (texts_of words.now) result.status
        (D.state disk.old) (D.state disk.new)
        (store_told D.tells (D.state disk.old).reads P.tells (P.state keep.old).reads) (P.state keep.new) }

    // The disk's files outside the log's folder stay, and of the config files only the format is put, of a new store or as it stands.
    ensures outside { D.tells → StaysOutside (D.state disk.old) (D.state disk.new) }
    ensures format { P.tells → PutsOnly (own_format ((P.state keep.old).reads FORMAT) no_sizes) (P.state keep.old) (P.state keep.new) }
    ensures others { P.tells → (name : List ℕ) → name ≢ FORMAT → (P.state keep.new).reads name ≡ (P.state keep.old).reads name }
    ensures stands { P.tells → (text : List ℕ) → (P.state keep.old).reads FORMAT ≡ Some text → (P.state keep.new).reads FORMAT ≡ Some text }

    // The status has a place and a name only where the table names one, and its cause.
    ensures table { FitsTable result.status }
    ensures causes { Causes result.status
        (record { sink = K.faults sink; disk = D.faults disk.old; keep = P.faults keep.old })
        (record { sink = K.faults result.sink; disk = D.faults disk.new; keep = P.faults keep.new }) }
{
    let command = match read_gen_words(words) {
        Err(place) => {
            return ToolRan {
                status: Status::at(alloc, 1, place),
                sink,
            };
        }
        Ok(command) => command,
    };
    let sizes = match open_format(alloc, disk, keep, &AskedSizes::none()) {
        Err(status) => return end_unopened(alloc, status, sink),
        Ok(sizes) => sizes,
    };
    let summary = match fill(alloc, sizes.segment, disk, command.items, command.start) {
        Err(status) => return end_stopped(alloc, status, sink),
        Ok(summary) => summary,
    };
    end_filled(alloc, summary, sink)
}
