//! Levels as the broker keeps them, beside answers that were worked out by hand.

ghost use Rattle.std.specs.Prelude.{◌≤◌};

use delay_view::{DelayView, LEVELS};
use std::alloc::Global;
use std::test::Fail;

// A message of a level is appended, and dispatched.
fn put(view: &mut DelayView, alloc: Global, level: u8, time: u64) -> Result<(), Fail> {
    if level < 1 || level > LEVELS {
        return Err(Fail::from("no level"));
    }
    view.reserve(alloc, level)?;
    view.add(level, time);
    view.see(level);
    Ok(())
}

// A message of a level is delivered.
fn deliver(view: &mut DelayView, level: u8)
    requires low { 1 ≤ level }
    requires high { level ≤ 18 }
{
    if view.progress(level) < 1 << 62 {
        view.copied(level);
    }
}

// The messages of a level below an offset are removed; its bounds.
fn cut(view: &mut DelayView, level: u8, min: u64) -> (u64, u64)
    requires low { 1 ≤ level }
    requires high { level ≤ 18 }
{
    if view.min(level) <= min && min <= view.max(level) {
        view.cut(level, min);
    }
    (view.min(level), view.max(level))
}

#[test]
fn a_level_is_due_once_its_message_is_seen_and_its_time_has_come(
    rt: HostRuntime,
) -> Result<(), Fail> {
    let alloc = rt.alloc();
    let mut view = DelayView::new(alloc)?;
    assert!(rt; view.due(u64::MAX) == None);
    view.reserve(alloc, 2)?;
    view.add(2, 5_010);
    assert!(rt; view.due(5_010) == None);
    view.see(2);
    assert!(rt; view.due(5_009) == None);
    assert!(rt; view.due(5_010) == Some((2, 0)));
    put(&mut view, alloc, 1, 5_010)?;
    assert!(rt; view.due(5_010) == Some((1, 0)));
    deliver(&mut view, 1);
    assert!(rt; view.due(5_010) == Some((2, 0)));
    Ok(())
}

#[test]
fn the_next_due_time_is_the_earliest(rt: HostRuntime) -> Result<(), Fail> {
    let alloc = rt.alloc();
    let mut view = DelayView::new(alloc)?;
    assert!(rt; view.next_due() == None);
    put(&mut view, alloc, 2, 5_010)?;
    assert!(rt; view.next_due() == Some(5_010));
    put(&mut view, alloc, 4, 5_000)?;
    assert!(rt; view.next_due() == Some(5_000));
    deliver(&mut view, 4);
    assert!(rt; view.next_due() == Some(5_010));
    Ok(())
}

#[test]
fn a_level_that_was_started_counts_on(rt: HostRuntime) -> Result<(), Fail> {
    let alloc = rt.alloc();
    let mut view = DelayView::new(alloc)?;
    view.start(1, 5, 4);
    deliver(&mut view, 1);
    put(&mut view, alloc, 1, 1_000)?;
    assert!(rt; view.due(999) == None);
    assert!(rt; view.due(1_000) == Some((1, 5)));
    Ok(())
}

#[test]
fn messages_below_an_offset_are_cut_off(rt: HostRuntime) -> Result<(), Fail> {
    let alloc = rt.alloc();
    let mut view = DelayView::new(alloc)?;
    for time in [10, 20, 30] {
        put(&mut view, alloc, 3, time)?;
    }
    deliver(&mut view, 3);
    assert!(rt; cut(&mut view, 3, 1) == (1, 3));
    assert!(rt; view.due(20) == Some((3, 1)));
    assert!(rt; cut(&mut view, 3, 3) == (3, 3));
    assert!(rt; view.due(u64::MAX) == None);
    assert!(rt; view.progress(3) == 1);
    Ok(())
}
