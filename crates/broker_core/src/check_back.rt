//! A half message whose verdict is missing is asked for again, and given up in the end.

ghost use Rattle.std.specs.Prelude.{◌≡◌, ◌<◌, ◌≤◌, ◌+◌, ◌^◌, ◌∷◌, [], ℕ, length};
ghost use Rattle.std.specs.Prelude.{Some, IfOk, OnOk, OnErr, option_map};
ghost use Rattle.record_codec.specs.Entry.{Entry};
ghost use Rattle.record_codec.specs.Drafts.{draft_size, entry_of, IsEncodable};
ghost use Rattle.log_model.specs.Drafts.{discard_draft as discard_draft_of, op_draft as op_draft_of, renewal_draft as renewal_draft_of};
ghost use Rattle.log_model.specs.Numbered.{next_records};
ghost use Rattle.log_model.specs.Queues.{said_by};
ghost use Rattle.queue_view.specs.Tables.{number_of};
ghost use Rattle.made_records.specs.Made.{IsHalfOf};
ghost use Rattle.log_model.specs.declared.origin.OriginState.TheVariants.{Discarded};
ghost use Rattle.broker_model.specs.Answers.{asked_link};
ghost use Rattle.broker_model.specs.Events as model;
ghost use Rattle.broker_model.specs.State.{State};
ghost use Rattle.broker_model.specs.Step.{with_records};
ghost use Rattle.broker_events.specs.Steps.{Says, asked_of};
ghost use Rattle.core_log.specs.Appends.{HasRoomFor, MayStand};
ghost use Rattle.core_log.specs.Carries.{Carries, Stays, RepresentsSome};
ghost use Rattle.broker_core.specs.Checks.{IsHalfDraft, IsOpenMember, IsRenewed, IsRenewedBy, IsGivenUp, IsCheckedBy};
ghost use Rattle.broker_core.specs.Checks.{IsDueCheck, Checks};
ghost use Rattle.core_log.specs.Represents.{Represents};
ghost use Rattle.core_log.specs.Rooms.{room_of};
ghost use Rattle.core_log.specs.declared.room.Room.TheVariants.{Free};
ghost use Rattle.core_log.specs.Settles.{IsSettling};

use broker_events::{Checked, Said};
use core_log::{Parts, size_of};
use half_view::Check;
use log_model::OriginState;
use mq_bytes::Text;
use record_codec::{Draft, Place, Record};
use record_copies::{Whole, discard_draft, op_draft, renewal_draft};
use reply_fields::Ask;
use std::alloc::{AllocError, Global};

// The same draft again.
fn copy_of(alloc: Global, draft: &Draft) -> Result<Draft, AllocError>
    ensures { IfOk result (λ copy. copy ≡ draft.now) }
{
    Ok(Draft {
        topic: Text::of(String::from_str(alloc, draft.topic.as_str())?),
        queue: draft.queue,
        flag: draft.flag,
        sysflag: draft.sysflag,
        born: draft.born,
        born_host: draft.born_host,
        store_host: draft.store_host,
        reconsume: draft.reconsume,
        prepared: draft.prepared,
        body: draft.body.copy(alloc)?,
        props: draft.props.copy(alloc)?,
    })
}

// The check-back to this link, of the half message of this draft at this place, whose record has so many bytes.
fn ask_to(
    alloc: Global,
    link: u32,
    draft: &Draft,
    place: &Place,
    size: u32,
) -> Result<Ask, AllocError>
    requires { (segment : ℕ) × IsHalfDraft segment draft.now place.now }
    ensures { IfOk result (λ ask. asked_of ask ≡ (link, entry_of draft.now place.now)) }
{
    let group = draft.props.get("PGROUP").unwrap_or("");
    let group = Text::of(String::from_str(alloc, group)?);
    let view = Record {
        draft: copy_of(alloc, draft)?,
        place: *place,
        size,
    };
    Ok(Ask { link, group, view })
}

// The half message of an open origin's family that has this queue offset.
fn half_of(parts: &Parts, alloc: Global, origin: u64, half: u64) -> Result<Record, AllocError>
    requires { (s : State) × (r : Entry) × Represents parts.now s × IsOpenMember s.log.records origin half r }
    ensures { (s : State) (r : Entry) → Represents parts.entry.now s → IsOpenMember s.log.records origin half r
        → IfOk result (λ copy. said_by copy ≡ r) }
{
    match parts.halves.whole(origin, half) {
        Some(whole) => whole.copied(alloc),
        None => unreachable!(),
    }
}

// The first client of the half message's producer group is asked for it, where there is one.
fn ask_for(
    parts: &Parts,
    alloc: Global,
    draft: &Draft,
    place: &Place,
    size: u32,
) -> Result<Option<Ask>, AllocError>
    requires { (segment : ℕ) × IsHalfDraft segment draft.now place.now }
    ensures { (s : State) → Represents parts.entry.now s
        → IfOk result (λ ask. option_map asked_of ask ≡ asked_link s (entry_of draft.now place.now)) }
{
    let group = draft.props.get("PGROUP").unwrap_or("");
    match parts.clients.producer(group) {
        None => Ok(None),
        Some(link) => Ok(Some(ask_to(alloc, link, draft, place, size)?)),
    }
}

// ---- renewals

// Appends the record of this draft, a renewal of this origin, and keeps it whole. At `Err` nothing changes.
fn append_whole(
    parts: &mut Parts,
    alloc: Global,
    origin: u64,
    table: u32,
    draft: &Draft,
    place: &Place,
    size: u32,
) -> Result<(), AllocError>
    requires some { (s : State) × Represents parts.old s × MayStand s draft.now place.now }
    requires encodable { IsEncodable draft.now place.now }
    requires table { number_of parts.old.queues draft.now.topic draft.now.queue ≡ Some table }
    requires room { HasRoomFor parts.old table draft.now }
    requires size { size ≡ draft_size draft.now }
    requires short { length parts.old.pending.bytes + size ≤ 67108864 }
    requires half { IsHalfOf (Some origin) (entry_of draft.now place.now) }
    ensures appended { OnOk result ((s : State) → Represents parts.old s → MayStand s draft.now place.now
        → Represents parts.new (with_records s place.now.store (entry_of draft.now place.now ∷ []))) }
    ensures stays { OnErr result (Stays parts.old parts.new) }
{
    let whole = Whole::of(alloc, draft, place, size)?;
    let kept = parts.halves.make_ready(alloc, Some(origin), &draft.props)?;
    parts.append_half(table, draft, place, size, Some(origin), kept, whole)
}

// Appends a renewal of this origin, for which there is room. At `Err` nothing changes.
fn append_renewal(
    parts: &mut Parts,
    alloc: Global,
    now: u64,
    origin: u64,
    draft: &Draft,
    size: u32,
) -> Result<Said, AllocError>
    requires some { (s : State) × (first : Entry) × Represents parts.old s × IsRenewedBy s now origin first draft.now }
    requires size { size ≡ draft_size draft.now }
    requires room { (s : State) → Represents parts.old s
        → room_of s (next_records s.setup.segment now s.log (draft.now ∷ [])) ≡ Free }
    ensures checked { IfOk result (λ said. (s : State) (first : Entry) → Represents parts.old s
        → IsRenewedBy s now origin first draft.now → IsCheckedBy s now origin (draft.now ∷ []) said parts.new) }
    ensures stays { OnErr result (Stays parts.old parts.new) }
{
    let table = parts.make_ready(alloc, draft)?;
    let place = parts.next_place(table, size, now);
    let ask = ask_for(parts, alloc, draft, &place, size)?;
    let number = parts.rows.end();
    match append_whole(parts, alloc, origin, table, draft, &place, size) {
        Ok(()) => Ok(Said::Checked(Some(Checked {
            origin,
            number,
            ask,
        }))),
        Err(fault) => {
            drop(ask);
            Err(fault)
        }
    }
}

// Appends a renewal of this origin, where there is room. At `Err` nothing changes.
fn renew(
    parts: &mut Parts,
    alloc: Global,
    now: u64,
    origin: u64,
    draft: &Draft,
) -> Result<Said, AllocError>
    requires some { (s : State) × (first : Entry) × Represents parts.old s × IsRenewedBy s now origin first draft.now }
    ensures checked { IfOk result (λ said. (s : State) (first : Entry) → Represents parts.old s
        → IsRenewedBy s now origin first draft.now → IsCheckedBy s now origin (draft.now ∷ []) said parts.new) }
    ensures stays { OnErr result (Stays parts.old parts.new) }
{
    let size = size_of(draft, parts.setup.segment);
    match parts.room(size).refuse_own() {
        Some(said) => Ok(said),
        None => append_renewal(parts, alloc, now, origin, draft, size),
    }
}

// Asks for this origin for the n-th time. At `Err` nothing changes.
fn renew_due(
    parts: &mut Parts,
    alloc: Global,
    now: u64,
    origin: u64,
    n: u64,
) -> Result<Said, AllocError>
    requires some { (s : State) × (first : Entry) × Represents parts.old s × IsRenewed s now origin n first }
    ensures checked { IfOk result (λ said. (s : State) (first : Entry) → Represents parts.old s → IsRenewed s now origin n first
        → IsCheckedBy s now origin (renewal_draft_of s.setup.host n first ∷ []) said parts.new) }
    ensures stays { OnErr result (Stays parts.old parts.new) }
{
    let first = half_of(parts, alloc, origin, origin)?;
    let draft = renewal_draft(alloc, parts.setup.host, n, first)?;
    renew(parts, alloc, now, origin, &draft)
}

// ---- origins that are given up

// Gives this origin up by these two records, for which there is room. At `Err` nothing changes.
fn append_given_up(
    parts: &mut Parts,
    alloc: Global,
    now: u64,
    origin: u64,
    copy: &Draft,
    op: &Draft,
    sizes: (u32, u32),
) -> Result<Said, AllocError>
    requires some { (s : State) × (half : Entry) × Represents parts.old s × IsSettling s now origin Discarded half copy.now op.now }
    requires sizes { (sizes.0 ≡ draft_size copy.now) × (sizes.1 ≡ draft_size op.now) }
    requires room { (s : State) → Represents parts.old s
        → room_of s (next_records s.setup.segment now s.log (copy.now ∷ op.now ∷ [])) ≡ Free }
    ensures checked { IfOk result (λ said. (s : State) (half : Entry) → Represents parts.old s
        → IsSettling s now origin Discarded half copy.now op.now
        → IsCheckedBy s now origin (copy.now ∷ op.now ∷ []) said parts.new) }
    ensures stays { OnErr result (Stays parts.old parts.new) }
{
    let number = parts.rows.end();
    parts.append_both(alloc, now, origin, OriginState::Discarded, copy, op, sizes)?;
    Ok(Said::Checked(Some(Checked {
        origin,
        number,
        ask: None,
    })))
}

// Gives this origin up by these two records, where there is room. At `Err` nothing changes.
fn give_up(
    parts: &mut Parts,
    alloc: Global,
    now: u64,
    origin: u64,
    copy: &Draft,
    op: &Draft,
) -> Result<Said, AllocError>
    requires some { (s : State) × (half : Entry) × Represents parts.old s × IsSettling s now origin Discarded half copy.now op.now }
    ensures checked { IfOk result (λ said. (s : State) (half : Entry) → Represents parts.old s
        → IsSettling s now origin Discarded half copy.now op.now
        → IsCheckedBy s now origin (copy.now ∷ op.now ∷ []) said parts.new) }
    ensures stays { OnErr result (Stays parts.old parts.new) }
{
    let segment = parts.setup.segment;
    let sizes = (size_of(copy, segment), size_of(op, segment));
    match parts.room_for_two(sizes.0, sizes.1).refuse_own() {
        Some(said) => Ok(said),
        None => append_given_up(parts, alloc, now, origin, copy, op, sizes),
    }
}

// Gives this origin up, whose last renewal has this queue offset. At `Err` nothing changes.
fn give_up_due(
    parts: &mut Parts,
    alloc: Global,
    now: u64,
    origin: u64,
    last: u64,
) -> Result<Said, AllocError>
    requires some { (s : State) × (half : Entry) × Represents parts.old s × IsGivenUp s now origin last half }
    ensures checked { IfOk result (λ said. (s : State) (half : Entry) → Represents parts.old s → IsGivenUp s now origin last half
        → IsCheckedBy s now origin (discard_draft_of s.setup.host half ∷ op_draft_of s.setup.host now origin ∷ []) said parts.new) }
    ensures stays { OnErr result (Stays parts.old parts.new) }
{
    let half = half_of(parts, alloc, origin, last)?;
    let host = parts.setup.host;
    let copy = discard_draft(alloc, host, half)?;
    let op = op_draft(alloc, host, now, origin)?;
    give_up(parts, alloc, now, origin, &copy, &op)
}

// ---- checks

// Checks an origin that is due. At `Err` nothing changes.
fn check_due(parts: &mut Parts, alloc: Global, now: u64, due: Check) -> Result<Said, AllocError>
    requires due { (s : State) × Represents parts.old s × IsDueCheck s now due }
    ensures checked { IfOk result (λ said. (s : State) → Represents parts.old s → IsDueCheck s now due → Checks s now said parts.new) }
    ensures stays { OnErr result (Stays parts.old parts.new) }
{
    match due.given_up {
        None => renew_due(parts, alloc, now, due.origin, u64::from(due.checks) + 1),
        Some(last) => give_up_due(parts, alloc, now, due.origin, last),
    }
}

/// Checks the first origin that is due at this reading of the clock, if one is. At `Err` nothing changes.
pub(crate) fn check(parts: &mut Parts, alloc: Global, now: u64) -> Result<Said, AllocError>
    requires some { RepresentsSome parts.old }
    requires time { now < 2 ^ 62 }
    ensures carries { IfOk result (λ said. Carries parts.old (model.Check now) (Says said) parts.new) }
    ensures stays { OnErr result (Stays parts.old parts.new) }
{
    let moment = now.max(parts.now);
    match parts.halves.due(moment) {
        Some(due) => check_due(parts, alloc, moment, due),
        None => {
            parts.now = moment;
            Ok(Said::Checked(None))
        }
    }
}
