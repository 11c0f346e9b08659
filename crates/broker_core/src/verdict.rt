//! A producer's verdict on a half message.
//!
//! | code | remark               | when                                                                   |
//! |-----:|----------------------|------------------------------------------------------------------------|
//! |    1 | `half`               | no half message of this group and id is there, or its origin isn't     |
//! |    1 | `settled committed`  | a Rollback of a committed origin                                       |
//! |    1 | `settled rolledback` | a Commit of one that was rolled back                                   |
//! |    1 | `settled discarded`  | a Commit or a Rollback of a discarded one                              |
//! |   14 | `log end`            | a record would end past all places                                     |
//! |    0 |                      | else: once the records that settle the origin are on the disk          |

ghost use Rattle.std.specs.Prelude.{◌≡◌, ◌⊎◌, ◌<◌, ◌^◌, ◌∷◌, [], find, option_map, Some, IfOk, OnOk, OnErr};
ghost use Rattle.record_codec.specs.Entry.{Entry};
ghost use Rattle.record_codec.specs.Drafts.{draft_size};
ghost use Rattle.log_model.specs.Numbered.{next_records};
ghost use Rattle.log_model.specs.Queues.{said_by};
ghost use Rattle.log_model.specs.Transactions.{is_origin};
ghost use Rattle.log_model.specs.declared.origin.OriginState.TheVariants.{Open, Committed};
ghost use Rattle.request_fields.specs.declared.request.Request.TheVariants.{EndTransaction};
ghost use Rattle.broker_model.specs.State.{State};
ghost use Rattle.broker_model.specs.Step.{with_records};
ghost use Rattle.broker_events.specs.Steps.{Says};
ghost use Rattle.broker_core.specs.Asked.{CarriesAsked};
ghost use Rattle.core_log.specs.Carries.{Stays, RepresentsSome};
ghost use Rattle.core_log.specs.Represents.{Represents};
ghost use Rattle.core_log.specs.Rooms.{room_of};
ghost use Rattle.core_log.specs.declared.room.Room.TheVariants.{Free};
ghost use Rattle.core_log.specs.Settles.{IsSettling};
ghost use Rattle.broker_core.specs.Verdicts.{disagreement_of, is_first_verdict, IsSettled, IsRollingBack, IsNamedBy, IsJudged};
ghost use Rattle.broker_core.specs.Verdicts.{AnswersVerdict, agreed_answer, awaited_in};

use crate::store::answer;
use broker_events::Said;
use core_log::{Parts, size_of};
use half_records::Judged;
use log_model::OriginState;
use made_records::waits;
use record_codec::{Draft, Record};
use record_copies::{commit_draft, op_draft};
use reply_fields::Reply;
use request_fields::EndFields;
use std::alloc::{AllocError, Global};

const COMMIT: u8 = 8;

const ROLL_BACK: u8 = 12;

// Why a verdict is refused that disagrees with what the origin became; 0 is no verdict.
fn disagreement(verdict: u8, state: OriginState) -> Option<&'static str>
    ensures { option_map (λ remark. remark.now) result ≡ disagreement_of verdict state }
{
    match state {
        OriginState::Committed if verdict == ROLL_BACK => Some("settled committed"),
        OriginState::RolledBack if verdict == COMMIT => Some("settled rolledback"),
        OriginState::Discarded if verdict != 0 => Some("settled discarded"),
        _ => None,
    }
}

// It is the first verdict on an open origin.
fn is_first(verdict: u8, state: OriginState) -> bool
    ensures { result ≡ is_first_verdict verdict state }
{
    match state {
        OriginState::Open => verdict == COMMIT || verdict == ROLL_BACK,
        _ => false,
    }
}

// The number of the record that settles an origin, where it isn't flushed yet.
fn awaited(settled: Option<u64>, flushed: u64) -> Option<u64>
    ensures { result ≡ awaited_in settled flushed }
{
    match settled {
        Some(number) if number >= flushed => Some(number),
        _ => None,
    }
}

// The half message that a first verdict names.
fn named_half(
    parts: &Parts,
    alloc: Global,
    end: &EndFields,
    origin: u64,
) -> Result<Record, AllocError>
    requires named { (s : State) × (half : Entry) × Represents parts.now s × IsNamedBy s end.now origin half }
    ensures { (s : State) (half : Entry) → Represents parts.entry.now s → IsNamedBy s end.now origin half
        → IfOk result (λ copy. said_by copy ≡ half) }
{
    match parts.halves.whole(origin, end.queue_offset) {
        Some(whole) => whole.copied(alloc),
        None => unreachable!(),
    }
}

// Commits a half message: appends its copy and the op record, where there is room. At `Err` nothing changes that counts.
fn commit_half(
    parts: &mut Parts,
    alloc: Global,
    now: u64,
    origin: u64,
    awaited: bool,
    copy: &Draft,
    op: &Draft,
) -> Result<Said, AllocError>
    requires some { (s : State) × (half : Entry) × Represents parts.old s × IsSettling s now origin Committed half copy.now op.now }
    ensures settled { IfOk result (λ said. (s : State) (half : Entry) → Represents parts.old s
        → IsSettling s now origin Committed half copy.now op.now → IsSettled s now awaited (copy.now ∷ op.now ∷ []) said parts.new) }
    ensures stays { OnErr result (Stays parts.old parts.new) }
{
    let sizes = (
        size_of(copy, parts.setup.segment),
        size_of(op, parts.setup.segment),
    );
    if let Some(said) = parts.room_for_two(sizes.0, sizes.1).refuse(alloc)? {
        return Ok(said);
    }
    let reply = Reply::plain(alloc, 0, "")?;
    let said = answer(parts, awaited, reply, 2);
    match parts.append_both(alloc, now, origin, OriginState::Committed, copy, op, sizes) {
        Ok(()) => Ok(said),
        Err(fault) => {
            drop(said);
            Err(fault)
        }
    }
}

// Appends the op record of this origin, for which there is room. At `Err` nothing changes that counts.
fn append_alone(
    parts: &mut Parts,
    alloc: Global,
    now: u64,
    origin: u64,
    op: &Draft,
    size: u32,
) -> Result<(), AllocError>
    requires some { (s : State) × Represents parts.old s × IsRollingBack s now origin op.now }
    requires size { size ≡ draft_size op.now }
    requires room { (s : State) → Represents parts.old s → room_of s (next_records s.setup.segment now s.log (op.now ∷ [])) ≡ Free }
    ensures appended { OnOk result ((s : State) → Represents parts.old s → IsRollingBack s now origin op.now
        → Represents parts.new (with_records s now (next_records s.setup.segment now s.log (op.now ∷ [])))) }
    ensures stays { OnErr result (Stays parts.old parts.new) }
{
    let table = parts.make_ready(alloc, op)?;
    let place = parts.next_place(table, size, now);
    parts.append_op(alloc, table, op, &place, size, origin)
}

// Rolls an origin back: appends its op record, where there is room. At `Err` nothing changes that counts.
fn roll_back(
    parts: &mut Parts,
    alloc: Global,
    now: u64,
    origin: u64,
    awaited: bool,
    op: &Draft,
) -> Result<Said, AllocError>
    requires some { (s : State) × Represents parts.old s × IsRollingBack s now origin op.now }
    ensures settled { IfOk result (λ said. (s : State) → Represents parts.old s → IsRollingBack s now origin op.now
        → IsSettled s now awaited (op.now ∷ []) said parts.new) }
    ensures stays { OnErr result (Stays parts.old parts.new) }
{
    let size = size_of(op, parts.setup.segment);
    if let Some(said) = parts.room(size).refuse(alloc)? {
        return Ok(said);
    }
    let reply = Reply::plain(alloc, 0, "")?;
    let said = answer(parts, awaited, reply, 1);
    match append_alone(parts, alloc, now, origin, op, size) {
        Ok(()) => Ok(said),
        Err(fault) => {
            drop(said);
            Err(fault)
        }
    }
}

// The first verdict on an open origin. At `Err` nothing changes that counts.
fn settle(
    parts: &mut Parts,
    alloc: Global,
    now: u64,
    end: &EndFields,
    origin: u64,
) -> Result<Said, AllocError>
    requires some { (s : State) × Represents parts.old s × IsJudged s now end.now origin Open }
    requires verdict { (end.now.verdict ≡ 8) ⊎ (end.now.verdict ≡ 12) }
    ensures answered { IfOk result (λ said. (s : State) → Represents parts.old s → IsJudged s now end.now origin Open
        → AnswersVerdict s now end.now said parts.new) }
    ensures stays { OnErr result (Stays parts.old parts.new) }
{
    let host = parts.setup.host;
    let half = named_half(parts, alloc, end, origin)?;
    let awaited = waits(&half.draft.props);
    let op = op_draft(alloc, host, now, origin)?;
    if end.verdict == COMMIT {
        let copy = commit_draft(alloc, host, half)?;
        return commit_half(parts, alloc, now, origin, awaited, &copy, &op);
    }
    roll_back(parts, alloc, now, origin, awaited, &op)
}

// The answer to a verdict that agrees with what the origin became, or to none.
fn repeated(parts: &Parts, alloc: Global, verdict: u8, origin: u64) -> Result<Said, AllocError>
    ensures { (s : State) (first : Entry) → Represents parts.entry.now s → find (is_origin origin) s.log.records ≡ Some first
        → IfOk result (λ said. Says said (agreed_answer s verdict (Some first))) }
{
    let reply = Reply::plain(alloc, 0, "")?;
    if verdict == 0 || !parts.setup.sync {
        return Ok(Said::Reply(reply));
    }
    match awaited(
        parts.halves.settled_by(origin),
        parts.pending.flushed_count(),
    ) {
        Some(number) => Ok(Said::After {
            reply,
            number,
            turn: parts.pending.turns(),
        }),
        None => Ok(Said::Reply(reply)),
    }
}

// Answers a verdict that isn't refused. At `Err` nothing changes that counts.
fn judge(
    parts: &mut Parts,
    alloc: Global,
    now: u64,
    end: &EndFields,
    judged: &Judged,
) -> Result<Said, AllocError>
    requires some { (s : State) × Represents parts.old s × IsJudged s now end.now judged.now.origin judged.now.state }
    ensures answered { IfOk result (λ said. (s : State) → Represents parts.old s
        → IsJudged s now end.now judged.now.origin judged.now.state → AnswersVerdict s now end.now said parts.new) }
    ensures stays { OnErr result (Stays parts.old parts.new) }
{
    if is_first(end.verdict, judged.state) {
        return settle(parts, alloc, now, end, judged.origin);
    }
    let said = repeated(parts, alloc, end.verdict, judged.origin)?;
    parts.now = now;
    Ok(said)
}

/// Answers a verdict on a half message. At `Err` nothing changes that counts.
pub(crate) fn end_transaction(
    parts: &mut Parts,
    alloc: Global,
    now: u64,
    end: &EndFields,
) -> Result<Said, AllocError>
    requires some { RepresentsSome parts.old }
    requires time { now < 2 ^ 62 }
    ensures carries { CarriesAsked parts.old now (EndTransaction end.now) result parts.new }
    ensures stays { OnErr result (Stays parts.old parts.new) }
{
    let judged = parts.halves.judged(
        end.queue_offset,
        end.place,
        end.group.as_str(),
        end.msg_id.as_str(),
    );
    let Some(judged) = judged else {
        return Ok(Said::Reply(Reply::plain(alloc, 1, "half")?));
    };
    if let Some(remark) = disagreement(end.verdict, judged.state) {
        return Ok(Said::Reply(Reply::plain(alloc, 1, remark)?));
    }
    judge(parts, alloc, parts.now.max(now), end, &judged)
}
