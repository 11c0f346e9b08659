//! The items are given to the broker, one after another, with rounds of the worker between them and at the end.

ghost use Rattle.std.specs.Prelude.{◌≡◌, ◌≤◌, ◌<◌, ◌^◌, ◌⊎◌, IfOk, IfSome};
ghost use Rattle.log_model.specs.Stored.{StaysOutside};
ghost use Rattle.segment_files.specs.Turn.{IsInside};
ghost use Rattle.worker_turns.specs.Acts.{IsFree, Acted, place_of, view_of, change_of};
ghost use Rattle.gen_run.specs.Asks.{HasAsked, NamesHalf, IsFoundBy, GivesSend, GivesVerdict, GivesPlain, GivesHalf, GivesPull, GivesItem};
ghost use Rattle.gen_run.specs.Rounds.{GivesSteps, GivesBefore, GivesPart, GivesItems, GivesAll, MakesLast, CountsStop};

use crate::asking::ask;
use crate::kinds::{Kind, kind_of};
use crate::requests::{pull_request, send_request, time_of, verdict_request};
use crate::rounds::round;
use crate::settling::half_in;
use crate::stop::Stop;
use broker_events::Calls;
use group_flush::Flusher;
use mq_outside::Disk;
use reply_fields::Reply;
use std::alloc::{AllocError, Global};

// So many items are given between two rounds.
const ROUND_ITEMS: u32 = 1000;

// How much later than the last item the last rounds are, in milliseconds: all that can be due is due then.
const LATER: u64 = 3_600_000;

// The item's message is sent. Answers the reply.
fn give_send<C: Calls>(
    alloc: Global,
    calls: &mut C,
    start: u32,
    item: u32,
    kind: Kind,
) -> Result<Reply, AllocError>
    requires item { item < 1000000 }
    requires start { start ≤ 1000000 }
    ensures asked { HasAsked C.makes (GivesSend start item kind result) calls.old calls.new }
    ensures free { IsFree (C.has_key calls.old) (C.shown calls.old) → IsFree (C.has_key calls.new) (C.shown calls.new) }
{
    let Ok(request) = send_request(alloc, start, item, kind) else {
        return Err(AllocError);
    };
    ask(alloc, calls, time_of(item), request)
}

// There is this verdict on the half message of an item.
fn give_verdict<C: Calls>(
    alloc: Global,
    calls: &mut C,
    item: u32,
    queue_offset: u64,
    place: u64,
    verdict: u8,
) -> Result<Reply, AllocError>
    requires item { item < 1000000 }
    requires offset { queue_offset < 2 ^ 62 }
    requires place { place < 2 ^ 62 }
    requires verdict { (verdict ≡ 8) ⊎ (verdict ≡ 12) }
    ensures asked { HasAsked C.makes (GivesVerdict item queue_offset place verdict result) calls.old calls.new }
    ensures free { IsFree (C.has_key calls.old) (C.shown calls.old) → IsFree (C.has_key calls.new) (C.shown calls.new) }
{
    let Ok(request) = verdict_request(alloc, queue_offset, place, verdict) else {
        return Err(AllocError);
    };
    ask(alloc, calls, time_of(item), request)
}

// The item's message is sent, and what its reply says isn't looked at.
fn give_plain<C: Calls>(
    alloc: Global,
    calls: &mut C,
    start: u32,
    item: u32,
    kind: Kind,
) -> Result<(), AllocError>
    requires item { item < 1000000 }
    requires start { start ≤ 1000000 }
    ensures asked { HasAsked C.makes (GivesPlain start item kind result) calls.old calls.new }
    ensures free { IsFree (C.has_key calls.old) (C.shown calls.old) → IsFree (C.has_key calls.new) (C.shown calls.new) }
{
    match give_send(alloc, calls, start, item, kind) {
        Ok(reply) => {
            drop(reply);
            Ok(())
        }
        Err(fault) => Err(fault),
    }
}

// The half message that the reply to its send names, if it names one.
fn take_half(sent: Reply) -> Option<(u64, u64)>
    ensures names { IfSome result (λ half. NamesHalf sent half.0 half.1) }
    ensures offset { IfSome result (λ half. half.0 < 2 ^ 62) }
    ensures place { IfSome result (λ half. half.1 < 2 ^ 62) }
{
    let half = half_in(&sent);
    drop(sent);
    half
}

// The item's half message is sent, and then there is this verdict on it. `Err`, too, where the send was refused.
fn give_half<C: Calls>(
    alloc: Global,
    calls: &mut C,
    start: u32,
    item: u32,
    kind: Kind,
    verdict: u8,
) -> Result<(), AllocError>
    requires item { item < 1000000 }
    requires start { start ≤ 1000000 }
    requires verdict { (verdict ≡ 8) ⊎ (verdict ≡ 12) }
    ensures asked { HasAsked C.makes (GivesHalf start item kind verdict result) calls.old calls.new }
    ensures free { IsFree (C.has_key calls.old) (C.shown calls.old) → IsFree (C.has_key calls.new) (C.shown calls.new) }
{
    let Ok(sent) = give_send(alloc, calls, start, item, kind) else {
        return Err(AllocError);
    };
    let Some((queue_offset, place)) = take_half(sent) else {
        return Err(AllocError);
    };
    match give_verdict(alloc, calls, item, queue_offset, place, verdict) {
        Ok(settled) => {
            drop(settled);
            Ok(())
        }
        Err(fault) => Err(fault),
    }
}

// 1 where messages were found.
fn found_by(reply: Reply) -> u32
    ensures found { IsFoundBy reply result }
    ensures few { result ≤ 1 }
{
    let code = reply.code;
    drop(reply);
    if code == 0 { 1 } else { 0 }
}

// The item's queue is pulled. Answers 1 where messages were found, else 0.
fn give_pull<C: Calls>(
    alloc: Global,
    calls: &mut C,
    start: u32,
    item: u32,
) -> Result<u32, AllocError>
    requires item { item < 1000000 }
    requires start { start ≤ 1000000 }
    ensures asked { HasAsked C.makes (GivesPull start item result) calls.old calls.new }
    ensures few { IfOk result (λ found. found ≤ 1) }
    ensures free { IsFree (C.has_key calls.old) (C.shown calls.old) → IsFree (C.has_key calls.new) (C.shown calls.new) }
{
    let Ok(request) = pull_request(alloc, start, item) else {
        return Err(AllocError);
    };
    match ask(alloc, calls, time_of(item), request) {
        Ok(reply) => Ok(found_by(reply)),
        Err(fault) => Err(fault),
    }
}

// Gives an item of this kind. Answers how many pulls of it found messages.
fn give_kind<C: Calls>(
    alloc: Global,
    calls: &mut C,
    start: u32,
    item: u32,
    kind: Kind,
) -> Result<u32, AllocError>
    requires item { item < 1000000 }
    requires start { start ≤ 1000000 }
    ensures asked { HasAsked C.makes (GivesItem kind start item result) calls.old calls.new }
    ensures few { IfOk result (λ found. found ≤ 1) }
    ensures free { IsFree (C.has_key calls.old) (C.shown calls.old) → IsFree (C.has_key calls.new) (C.shown calls.new) }
{
    let given = match kind {
        Kind::Pull => return give_pull(alloc, calls, start, item),
        Kind::Plain => give_plain(alloc, calls, start, item, Kind::Plain),
        Kind::Delayed => give_plain(alloc, calls, start, item, Kind::Delayed),
        Kind::Commit => give_half(alloc, calls, start, item, Kind::Commit, 8),
        Kind::RollBack => give_half(alloc, calls, start, item, Kind::RollBack, 12),
    };
    match given {
        Ok(()) => Ok(0),
        Err(fault) => Err(fault),
    }
}

// Gives an item, and leaves the disk as it is. Answers how many pulls of it found messages.
fn give_item<C: Calls, D: Disk>(
    alloc: Global,
    calls: &mut C,
    flusher: &Flusher,
    disk: &D,
    start: u32,
    item: u32,
) -> Result<u32, AllocError>
    requires item { item < 1000000 }
    requires start { start ≤ 1000000 }
    requires free { IsFree (C.has_key calls.old) (C.shown calls.old) }
    ensures acted { Acted C.makes (view_of D.tells D.state D.faults D.syncs) (GivesSteps start item result)
        (change_of calls.old (place_of flusher.now.file disk.now)
        calls.new (place_of flusher.now.file disk.now)) }
    ensures few { IfOk result (λ found. found ≤ 1) }
    ensures free { IsFree (C.has_key calls.new) (C.shown calls.new) }
{
    give_kind(alloc, calls, start, item, kind_of(item))
}

// Makes a round of the worker before an item, where so many were given since the last one.
#[tactic(auto, using(log_model::proofs::OutsideLemmas::outside_start))]
fn round_before<C: Calls, D: Disk>(
    alloc: Global,
    calls: &mut C,
    flusher: &mut Flusher,
    disk: &mut D,
    item: u32,
) -> Result<(), Stop>
    requires item { item < 1000000 }
    requires free { IsFree (C.has_key calls.old) (C.shown calls.old) }
    requires inside { D.tells → IsInside flusher.old.file.base flusher.old.file.offset (D.state disk.old) }
    ensures acted { Acted C.makes (view_of D.tells D.state D.faults D.syncs) (GivesBefore item result)
        (change_of calls.old (place_of flusher.old.file disk.old)
        calls.new (place_of flusher.new.file disk.new)) }
    ensures free { IsFree (C.has_key calls.new) (C.shown calls.new) }
    ensures inside { D.tells → IsInside flusher.new.file.base flusher.new.file.offset (D.state disk.new) }
    ensures outside { D.tells → StaysOutside (D.state disk.old) (D.state disk.new) }
    ensures cause { CountsStop result (D.faults disk.old) (D.faults disk.new) }
{
    if item == 0 || item % ROUND_ITEMS != 0 {
        return Ok(());
    }
    round(alloc, calls, flusher, disk, time_of(item))
}

// Gives an item, after a round of the worker where so many were given since the last one.
#[tactic(auto, using(log_model::proofs::OutsideLemmas::outside_start))]
fn give_part<C: Calls, D: Disk>(
    alloc: Global,
    calls: &mut C,
    flusher: &mut Flusher,
    disk: &mut D,
    start: u32,
    item: u32,
) -> Result<u32, Stop>
    requires item { item < 1000000 }
    requires start { start ≤ 1000000 }
    requires free { IsFree (C.has_key calls.old) (C.shown calls.old) }
    requires inside { D.tells → IsInside flusher.old.file.base flusher.old.file.offset (D.state disk.old) }
    ensures acted { Acted C.makes (view_of D.tells D.state D.faults D.syncs) (GivesPart start item result)
        (change_of calls.old (place_of flusher.old.file disk.old)
        calls.new (place_of flusher.new.file disk.new)) }
    ensures few { IfOk result (λ found. found ≤ 1) }
    ensures free { IsFree (C.has_key calls.new) (C.shown calls.new) }
    ensures inside { D.tells → IsInside flusher.new.file.base flusher.new.file.offset (D.state disk.new) }
    ensures outside { D.tells → StaysOutside (D.state disk.old) (D.state disk.new) }
    ensures cause { CountsStop result (D.faults disk.old) (D.faults disk.new) }
{
    match round_before(alloc, calls, flusher, disk, item) {
        Err(stop) => Err(stop),
        Ok(()) => match give_item(alloc, calls, flusher, disk, start, item) {
            Ok(found) => Ok(found),
            Err(_) => Err(Stop::Memory),
        },
    }
}

// Gives so many items. Answers how many pulls found messages.
#[tactic(auto, using(log_model::proofs::OutsideLemmas::outside_start))]
fn give_items<C: Calls, D: Disk>(
    alloc: Global,
    calls: &mut C,
    flusher: &mut Flusher,
    disk: &mut D,
    items: u32,
    start: u32,
) -> Result<u32, Stop>
    requires items { items ≤ 1000000 }
    requires start { start ≤ 1000000 }
    requires free { IsFree (C.has_key calls.old) (C.shown calls.old) }
    requires inside { D.tells → IsInside flusher.old.file.base flusher.old.file.offset (D.state disk.old) }
    ensures acted { Acted C.makes (view_of D.tells D.state D.faults D.syncs) (GivesItems start items result)
        (change_of calls.old (place_of flusher.old.file disk.old)
        calls.new (place_of flusher.new.file disk.new)) }
    ensures few { IfOk result (λ found. found ≤ items) }
    ensures free { IsFree (C.has_key calls.new) (C.shown calls.new) }
    ensures inside { D.tells → IsInside flusher.new.file.base flusher.new.file.offset (D.state disk.new) }
    ensures outside { D.tells → StaysOutside (D.state disk.old) (D.state disk.new) }
    ensures cause { CountsStop result (D.faults disk.old) (D.faults disk.new) }
{
    let mut found = 0;
    for item in 0..items {
        match give_part(alloc, calls, flusher, disk, start, item) {
            Ok(more) => found += more,
            Err(stop) => return Err(stop),
        }
    }
    Ok(found)
}

// Makes the last two rounds: what the first of them lets consumers see, the second delivers.
#[tactic(auto, using(log_model::proofs::OutsideLemmas::outside_start))]
fn last_rounds<C: Calls, D: Disk>(
    alloc: Global,
    calls: &mut C,
    flusher: &mut Flusher,
    disk: &mut D,
    items: u32,
) -> Result<(), Stop>
    requires items { items ≤ 1000000 }
    requires free { IsFree (C.has_key calls.old) (C.shown calls.old) }
    requires inside { D.tells → IsInside flusher.old.file.base flusher.old.file.offset (D.state disk.old) }
    ensures acted { Acted C.makes (view_of D.tells D.state D.faults D.syncs) (MakesLast items result)
        (change_of calls.old (place_of flusher.old.file disk.old)
        calls.new (place_of flusher.new.file disk.new)) }
    ensures free { IsFree (C.has_key calls.new) (C.shown calls.new) }
    ensures inside { D.tells → IsInside flusher.new.file.base flusher.new.file.offset (D.state disk.new) }
    ensures outside { D.tells → StaysOutside (D.state disk.old) (D.state disk.new) }
    ensures cause { CountsStop result (D.faults disk.old) (D.faults disk.new) }
{
    let now = 1000 + u64::from(items) + LATER;
    match round(alloc, calls, flusher, disk, now) {
        Err(stop) => Err(stop),
        Ok(()) => round(alloc, calls, flusher, disk, now),
    }
}

/// Gives so many items, and makes the last rounds. Answers how many pulls found messages.
#[tactic(auto, using(log_model::proofs::OutsideLemmas::outside_start))]
pub(crate) fn give_all<C: Calls, D: Disk>(
    alloc: Global,
    calls: &mut C,
    flusher: &mut Flusher,
    disk: &mut D,
    items: u32,
    start: u32,
) -> Result<u32, Stop>
    requires items { items ≤ 1000000 }
    requires start { start ≤ 1000000 }
    requires free { IsFree (C.has_key calls.old) (C.shown calls.old) }
    requires inside { D.tells → IsInside flusher.old.file.base flusher.old.file.offset (D.state disk.old) }
    ensures acted { Acted C.makes (view_of D.tells D.state D.faults D.syncs) (GivesAll start items result)
        (change_of calls.old (place_of flusher.old.file disk.old)
        calls.new (place_of flusher.new.file disk.new)) }
    ensures free { IsFree (C.has_key calls.new) (C.shown calls.new) }
    ensures inside { D.tells → IsInside flusher.new.file.base flusher.new.file.offset (D.state disk.new) }
    ensures outside { D.tells → StaysOutside (D.state disk.old) (D.state disk.new) }
    ensures cause { CountsStop result (D.faults disk.old) (D.faults disk.new) }
{
    match give_items(alloc, calls, flusher, disk, items, start) {
        Err(stop) => Err(stop),
        Ok(found) => match last_rounds(alloc, calls, flusher, disk, items) {
            Err(stop) => Err(stop),
            Ok(()) => Ok(found),
        },
    }
}
