//! How a tool ends: what is left of its text is written, or no more.

ghost use Rattle.std.specs.Prelude.{◌≡◌, ◌≢◌, ◌⊎◌, ◌++◌, List, ℕ, true};
ghost use Rattle.store_open.specs.Statuses.{FitsTable};
ghost use Rattle.tool_run.specs.Texts.{damaged_line, foreign_line, verify_text};
ghost use Rattle.tool_run.specs.Tools.{Failed as SinkFailed, TookAll, TookOrFailed, TookPart, seen_of};
ghost use Rattle.tool_run.specs.Writes.{Told};

use crate::lines::Lines;
use crate::ran::ToolRan;
use crate::texts::{push_damaged, push_foreign, push_sound};
use mq_bytes::Text;
use mq_outside::Sink;
use std::alloc::{AllocError, Global};
use store_open::Status;

// Nothing more is written, and the run ends with this status.
fn end_with<K: Sink + Drop>(alloc: Global, code: u8, lines: Lines<K>) -> ToolRan<K>
    ensures sink { result.sink ≡ lines.sink }
    ensures code { result.status.code ≡ code }
    ensures table { FitsTable result.status }
{
    ToolRan {
        status: Status::plain(alloc, code),
        sink: lines.sink,
    }
}

/// Writes what is left of the text.
pub fn end_whole<K: Sink + Drop>(alloc: Global, lines: Lines<K>) -> ToolRan<K>
    ensures done { (first : K) (text : List ℕ) → Told K.Sink first lines text → result.status.code ≡ 0
        → TookAll (seen_of K.Sink first result.sink) text }
    ensures failed { (first : K) (text : List ℕ) → Told K.Sink first lines text → result.status.code ≡ 4
        → SinkFailed (seen_of K.Sink first result.sink) text }
    ensures known { (result.status.code ≡ 0) ⊎ (result.status.code ≡ 4) }
    ensures table { FitsTable result.status }
{
    let (sink, is_written) = lines.finish();
    if is_written {
        return ToolRan {
            status: Status::plain(alloc, 0),
            sink,
        };
    }
    ToolRan {
        status: Status::plain(alloc, 4),
        sink,
    }
}

/// Writes the line of a sound log, after what is left of the text.
pub(crate) fn end_sound<K: Sink + Drop>(
    alloc: Global,
    lines: Lines<K>,
    records: u64,
    end: u64,
) -> ToolRan<K>
    ensures done { (first : K) (text : List ℕ) → Told K.Sink first lines text → result.status.code ≡ 0
        → TookAll (seen_of K.Sink first result.sink) (text ++ verify_text records end) }
    ensures failed { (first : K) (text : List ℕ) → Told K.Sink first lines text → result.status.code ≡ 4
        → SinkFailed (seen_of K.Sink first result.sink) (text ++ verify_text records end) }
    ensures memory { result.status.code ≡ 7 → result.sink ≡ lines.sink }
    ensures known { (result.status.code ≡ 0) ⊎ ((result.status.code ≡ 4) ⊎ (result.status.code ≡ 7)) }
    ensures table { FitsTable result.status }
{
    let mut lines = lines;
    match push_sound(records, end, &mut lines.held) {
        Ok(()) => end_whole(alloc, lines),
        Err(AllocError) => end_with(alloc, 7, lines),
    }
}

/// Writes what is left of the text, and then the line of the damage.
pub fn end_damaged<K: Sink + Drop>(
    alloc: Global,
    lines: Lines<K>,
    place: u64,
    name: Text,
) -> ToolRan<K>
    ensures damaged { (first : K) (text : List ℕ) → Told K.Sink first lines text → result.status.code ≡ 8
        → TookOrFailed (seen_of K.Sink first result.sink) (text ++ damaged_line name place) }
    ensures memory { result.status.code ≡ 7 → result.sink ≡ lines.sink }
    ensures told { result.status.code ≡ 8 → (result.status.place ≡ place) × (result.status.name ≡ name) }
    ensures known { (result.status.code ≡ 7) ⊎ (result.status.code ≡ 8) }
    ensures table { FitsTable result.status }
{
    let mut lines = lines;
    if push_damaged(place, name.as_str(), &mut lines.held).is_err() {
        return end_with(alloc, 7, lines);
    }
    // Where the sink fails now, the damage is told by the status alone.
    let (sink, _) = lines.finish();
    ToolRan {
        status: Status::damaged(place, name),
        sink,
    }
}

/// The disk failed: no more is written.
pub(crate) fn end_failed<K: Sink + Drop>(alloc: Global, lines: Lines<K>) -> ToolRan<K>
    ensures sink { result.sink ≡ lines.sink }
    ensures code { result.status.code ≡ 5 }
    ensures table { FitsTable result.status }
{
    end_with(alloc, 5, lines)
}

/// The sink failed, or memory ran out: no more is written.
pub(crate) fn end_broken<K: Sink + Drop>(alloc: Global, lines: Lines<K>) -> ToolRan<K>
    ensures sink { result.sink ≡ lines.sink }
    ensures write { result.status.code ≡ 4 → lines.failed ≡ true }
    ensures known { (result.status.code ≡ 4) ⊎ (result.status.code ≡ 7) }
    ensures table { FitsTable result.status }
{
    if lines.failed {
        return end_with(alloc, 4, lines);
    }
    end_with(alloc, 7, lines)
}

/// Writes the line of a store that is not this program's; nothing where another fault ended the opening.
pub fn end_unopened<K: Sink + Drop>(alloc: Global, status: Status, sink: K) -> ToolRan<K>
    ensures line { result.status.code ≡ 6 → TookOrFailed (seen_of K.Sink sink result.sink) (foreign_line result.status.name) }
    ensures nothing { result.status.code ≢ 6 → result.sink ≡ sink }
    ensures status { (result.status ≡ status) ⊎ (result.status.code ≡ 7) }
    ensures table { FitsTable status → FitsTable result.status }
{
    if status.code != 6 {
        return ToolRan { status, sink };
    }
    let mut lines = Lines::new(alloc, sink);
    if push_foreign(status.name.as_str(), &mut lines.held).is_err() {
        return end_with(alloc, 7, lines);
    }
    // Where the sink fails now, the status tells it alone.
    let (sink, _) = lines.finish();
    ToolRan { status, sink }
}
