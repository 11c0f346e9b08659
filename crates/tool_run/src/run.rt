//! A run of a tool: the arguments, the store's format, and what the tool writes.

ghost use Rattle.std.specs.Prelude.{◌≡◌, ◌≢◌, ◌⊎◌, List, ℕ, Some};
ghost use Rattle.mq_outside.specs.Disk.{Moves, Rests};
ghost use Rattle.mq_outside.specs.Files.{Same};
ghost use Rattle.store_open.specs.Formats.{no_sizes};
ghost use Rattle.store_open.specs.Openings.{FORMAT, IsForeign, PutsOnly, own_format, store_told};
ghost use Rattle.store_open.specs.Options.{texts_of};
ghost use Rattle.store_open.specs.Statuses.{FitsTable};
ghost use Rattle.store_open.specs.ToolWords.{IsToolCommand, IsFirstWrongOfTool};
ghost use Rattle.store_open.specs.declared.tool_words.ToolCommand.{ToolCommand};
ghost use Rattle.tool_run.specs.Tools.{Causes, IsSound, IsUnopened, ReadsStore, seen_of};

use crate::ends::end_unopened;
use crate::ran::ToolRan;
use crate::reading::read_for;
use mq_outside::{Disk, Keep, Sink};
use std::alloc::Global;
use store_open::{AskedSizes, Status, Tool, open_format, read_tool_words};

/// Runs a tool over a store, whose words are those of the command line. `dump` writes a line for each record, in the order of
/// the log; `verify` how many records there are and where the last one ends, and then that the tables that a broker would have of
/// them equal them. Nothing of the store is changed, but that a store without files gets its format. The sink comes back.
pub fn run_tool<K: Sink + Drop, D: Disk, P: Keep>(
    alloc: Global,
    tool: Tool,
    words: &[&str],
    sink: K,
    disk: &mut D,
    keep: &mut P,
) -> ToolRan<K>
    // Status 1 comes exactly where the words are no command of the tool, with the place of the first that doesn't fit. No device is asked.
    ensures usage { result.status.code ≡ 1 → IsFirstWrongOfTool tool (texts_of words.now) result.status.place }
    ensures wrong { ((command : ToolCommand) → IsToolCommand tool (texts_of words.now) command → ⊥) → result.status.code ≡ 1 }
    ensures idle { result.status.code ≡ 1 → (result.sink ≡ sink) × (disk.new ≡ disk.old) × (keep.new ≡ keep.old) }

    // Else the store was not opened, or its log was read.
    ensures did { result.status.code ≢ 1 → IsUnopened result.status (seen_of K.Sink sink result.sink)
        ⊎ ReadsStore tool result.status (seen_of K.Sink sink result.sink)
        (store_told D.tells (D.state disk.old).reads P.tells (P.state keep.old).reads) (P.state keep.new) }

    // Status 6 comes where the store is foreign, with the name of what shows it. It stays as it is.
    ensures foreign { D.tells → P.tells → result.status.code ≡ 6
        → IsForeign (D.state disk.old).reads ((P.state keep.old).reads FORMAT) no_sizes result.status.name }
    ensures theirs { P.tells → result.status.code ≡ 6 → Moves Same (P.state keep.old) (P.state keep.new) }

    // Nothing else of the store changes: not the disk, no other text of the keep, and no format that stands.
    ensures rests { D.tells → Rests (D.state disk.old) (D.state disk.new) }
    ensures puts { P.tells → PutsOnly (own_format ((P.state keep.old).reads FORMAT) no_sizes) (P.state keep.old) (P.state keep.new) }
    ensures others { P.tells → (name : List ℕ) → name ≢ FORMAT → (P.state keep.new).reads name ≡ (P.state keep.old).reads name }
    ensures stands { P.tells → (text : List ℕ) → (P.state keep.old).reads FORMAT ≡ Some text → (P.state keep.new).reads FORMAT ≡ Some text }

    // The status has a place and a name only where the table names one, and its cause.
    ensures table { FitsTable result.status }
    ensures causes { Causes result.status
        (record { sink = K.faults sink; disk = D.faults disk.old; keep = P.faults keep.old })
        (record { sink = K.faults result.sink; disk = D.faults disk.new; keep = P.faults keep.new }) }
    // Where nothing fails it ends with status 0, or memory ran out.
    ensures complete { IsSound tool (texts_of words.now)
        (store_told D.tells (D.state disk.old).reads P.tells (P.state keep.old).reads)
        (record { sink = K.faults sink; disk = D.faults disk.old; keep = P.faults keep.old })
        (record { sink = K.faults result.sink; disk = D.faults disk.new; keep = P.faults keep.new })
        → (result.status.code ≡ 0) ⊎ (result.status.code ≡ 7) }
{
    if let Err(place) = read_tool_words(tool, words) {
        return ToolRan {
            status: Status::at(alloc, 1, place),
            sink,
        };
    }
    let sizes = match open_format(alloc, disk, keep, &AskedSizes::none()) {
        Err(status) => return end_unopened(alloc, status, sink),
        Ok(sizes) => sizes,
    };
    read_for(tool, alloc, sizes.segment, sink, disk)
}
