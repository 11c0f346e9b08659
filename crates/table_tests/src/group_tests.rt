//! A group stores offsets, and two of its clients ask for the same queue.

use group_tables::Groups;
use mq_bytes::Text;
use request_fields::QueueName;
use std::alloc::{AllocError, Global};
use std::test::Fail;

fn queue(alloc: Global, topic: &str, broker: &str, queue: u32) -> Result<QueueName, AllocError> {
    Ok(QueueName {
        topic: Text::of(String::from_str(alloc, topic)?),
        broker: Text::of(String::from_str(alloc, broker)?),
        queue,
    })
}

#[test]
fn an_offset_is_kept_for_its_group_and_queue(rt: HostRuntime) -> Result<(), Fail> {
    let mut groups = Groups::new(rt.alloc());
    groups.set_offset("G", "T", 0, 1)?;
    groups.set_offset("G", "T", 1, 5)?;
    groups.set_offset("H", "T", 0, 7)?;
    groups.set_offset("G", "T", 0, 2)?;
    assert!(rt; groups.offset("G", "T", 0) == Some(2));
    assert!(rt; groups.offset("G", "T", 1) == Some(5));
    assert!(rt; groups.offset("H", "T", 0) == Some(7));
    assert!(rt; groups.offset("H", "T", 1) == None);
    assert!(rt; groups.offset("G", "U", 0) == None);
    Ok(())
}

#[test]
fn a_lock_is_granted_again_after_60000_milliseconds(rt: HostRuntime) -> Result<(), Fail> {
    let alloc = rt.alloc();
    let mut groups = Groups::new(alloc);
    let wanted = [queue(alloc, "T", "b", 0)?];
    assert!(rt; groups.lock_batch("G", "A", &wanted, 0)?.len() == 1);
    assert!(rt; groups.lock_batch("G", "B", &wanted, 60_000)?.len() == 0);
    groups.unlock_batch("G", "B", &wanted);
    assert!(rt; groups.lock_batch("G", "B", &wanted, 60_000)?.len() == 0);
    assert!(rt; groups.lock_batch("G", "B", &wanted, 60_001)?.len() == 1);
    groups.unlock_batch("G", "B", &wanted);
    assert!(rt; groups.lock_batch("G", "A", &wanted, 60_001)?.len() == 1);
    Ok(())
}

#[test]
fn a_clock_that_is_set_back_by_more_than_60000_milliseconds_frees_a_lock(
    rt: HostRuntime,
) -> Result<(), Fail> {
    let alloc = rt.alloc();
    let mut groups = Groups::new(alloc);
    let wanted = [queue(alloc, "T", "b", 0)?];
    assert!(rt; groups.lock_batch("G", "A", &wanted, 60_002)?.len() == 1);
    assert!(rt; groups.lock_batch("G", "B", &wanted, 60_001)?.len() == 0);
    assert!(rt; groups.lock_batch("G", "B", &wanted, 2)?.len() == 0);
    assert!(rt; groups.lock_batch("G", "B", &wanted, 1)?.len() == 1);
    assert!(rt; groups.lock_batch("G", "A", &wanted, 60_001)?.len() == 0);
    Ok(())
}

#[test]
fn each_queue_is_granted_once_under_its_first_name(rt: HostRuntime) -> Result<(), Fail> {
    let alloc = rt.alloc();
    let mut groups = Groups::new(alloc);
    let wanted = [
        queue(alloc, "T", "b", 1)?,
        queue(alloc, "U", "b", 0)?,
        queue(alloc, "T", "c", 1)?,
    ];
    let given = groups.lock_batch("G", "A", &wanted, 0)?;
    assert!(rt; given.len() == 2);
    assert!(rt;
        (
            given[0].topic.as_str(),
            given[0].broker.as_str(),
            given[0].queue
        ) == ("T", "b", 1)
    );
    assert!(rt;
        (
            given[1].topic.as_str(),
            given[1].broker.as_str(),
            given[1].queue
        ) == ("U", "b", 0)
    );
    Ok(())
}
