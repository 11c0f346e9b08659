//! Tables as the broker keeps them: units are added and seen, pulled by tags, and removed. The hashes of the tags are Java's.

use queue_view::{Pulled, QueueView, Tags};
use record_codec::Unit;
use std::alloc::Global;
use std::test::Fail;

/// The tag codes of `TagA` and `TagB`.
const TAG_A: i64 = 2_598_919;

const TAG_B: i64 = 2_598_920;

/// Adds a unit to a queue, as an append does, and lets consumers see it.
fn put(
    view: &mut QueueView,
    alloc: Global,
    topic: &str,
    queue: u32,
    unit: Unit,
) -> Result<(), Fail> {
    let table = view.reserve(alloc, topic, queue, 1)?;
    view.add(table, unit, 1000);
    if view.max(table) < view.added(table) {
        view.see(table);
    }
    Ok(())
}

/// A pull of a queue, which is made where it is absent.
fn pull(
    view: &mut QueueView,
    alloc: Global,
    topic: &str,
    queue: u32,
    from: i64,
    text: &str,
) -> Result<Pulled, Fail> {
    let tags = Tags::read(alloc, text)?;
    let table = view.reserve(alloc, topic, queue, 1)?;
    Ok(view.pull(alloc, table, from, 32, &tags)?)
}

/// A unit of this size and tag code.
fn unit(offset: u64, size: u32, tag: i64) -> Unit {
    Unit { offset, size, tag }
}

#[test]
fn a_pull_is_answered_by_where_it_begins_and_by_its_tags(rt: HostRuntime) -> Result<(), Fail> {
    let alloc = rt.alloc();
    let mut view = QueueView::new(alloc);
    put(&mut view, alloc, "T", 3, unit(0, 108, TAG_A))?;
    put(&mut view, alloc, "U", 3, unit(108, 110, TAG_B))?;
    put(&mut view, alloc, "T", 3, unit(218, 109, TAG_B))?;
    put(&mut view, alloc, "T", 0, unit(327, 107, TAG_A))?;
    put(&mut view, alloc, "T", 3, unit(434, 111, TAG_A))?;
    for (from, text, code, next, found) in [
        (0, "*", 0, 3, 3),
        (1, "", 0, 3, 2),
        (0, " TagA || x", 0, 3, 2),
        (0, "TagB||TagA", 0, 3, 3),
        (0, "Tag A|| ||TagC", 20, 3, 0),
        (3, "*", 19, 3, 0),
        (4, "*", 21, 3, 0),
        (-1, "*", 21, 0, 0),
    ] {
        let pulled = pull(&mut view, alloc, "T", 3, from, text)?;
        assert!(rt;
            (pulled.code, pulled.next, pulled.units.len()) == (code, next, found),
            "{text} from {from}"
        );
        assert!(rt; (pulled.min, pulled.max) == (0, 3));
    }
    let other = pull(&mut view, alloc, "T", 1, 0, "*")?;
    assert!(rt; (other.code, other.next, other.max) == (19, 0, 0));
    let past = pull(&mut view, alloc, "T", 1, 7, "*")?;
    assert!(rt; (past.code, past.next) == (21, 0));
    Ok(())
}

#[test]
fn a_body_has_262144_bytes_at_most_or_one_record(rt: HostRuntime) -> Result<(), Fail> {
    let alloc = rt.alloc();
    let mut view = QueueView::new(alloc);
    for (offset, size) in [
        (0, 300_000),
        (300_000, 262_043),
        (562_043, 101),
        (562_144, 100),
    ] {
        put(&mut view, alloc, "T", 0, unit(offset, size, 0))?;
    }
    for (from, next) in [(0, 1), (1, 3), (2, 4), (3, 4)] {
        let pulled = pull(&mut view, alloc, "T", 0, from, "*")?;
        assert!(rt; (pulled.code, pulled.next) == (0, next), "from {from}");
    }
    Ok(())
}

#[test]
fn removed_units_move_the_minimum_and_leave_the_maximum(rt: HostRuntime) -> Result<(), Fail> {
    let alloc = rt.alloc();
    let mut view = QueueView::new(alloc);
    let table = view.start(alloc, "T", 0, 5)?;
    assert!(rt; (view.topic(table), view.queue(table), view.len()) == ("T", 0, 1));
    put(&mut view, alloc, "T", 0, unit(0, 108, 0))?;
    let Some(table) = view.find("T", 0) else {
        return Err(Fail::from("no table"));
    };
    assert!(rt; (view.min(table), view.max(table)) == (5, 6));
    if view.min(table) <= 6 && 6 <= view.max(table) {
        view.cut(table, 6);
    }
    let pulled = pull(&mut view, alloc, "T", 0, 5, "*")?;
    assert!(rt; (pulled.code, pulled.next) == (21, 6));
    assert!(rt; (pulled.min, pulled.max) == (6, 6));
    Ok(())
}
