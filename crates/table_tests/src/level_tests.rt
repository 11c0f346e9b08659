//! Delayed messages as they are loaded, from records that were made apart, with the sums of zlib. Each was born at 1000.

ghost use Rattle.std.specs.Prelude.{◌≤◌};

use level_records::Levels;
use record_codec::test as test_record;
use std::alloc::Global;
use std::test::Fail;

/// A message `hi` for queue 0 of the topic `T`, delayed at level 1.
const FIRST: &[u8; 158] =
    b"\x00\x00\x00\x9E\xDA\xA3 \xA7X\x93*\xAC\x00\x00\x00\x00\x00\x00\x00\x00\x00\x00\x00\x00\x00\x00\x00\x00\x00\
\x00\x00\x00\x00\x00\x00\x00\x00\x00\x00\x00\x00\x00\x00\x00\x00\x00\x03\xE8\x7F\x00\x00\x01\x00\x00\x00\x00\x00\x00\
\x00\x00\x00\x00\x07\xD0\x7F\x00\x00\x01\x00\x00*\x9F\x00\x00\x00\x00\x00\x00\x00\x00\x00\x00\x00\x00\x00\x00\x00\
\x02hi\x13SCHEDULE_TOPIC_XXXX\x00.DELAY\x011\x02REAL_TOPIC\x01T\x02REAL_QID\x010\x02SEAL\x01B47E2EE8\x02";

/// Another, `ho`, behind it.
const SECOND: &[u8; 158] =
    b"\x00\x00\x00\x9E\xDA\xA3 \xA71\xF0\x8F\x99\x00\x00\x00\x00\x00\x00\x00\x00\x00\x00\x00\x00\x00\x00\x00\x01\x00\
\x00\x00\x00\x00\x00\x00\x9E\x00\x00\x00\x00\x00\x00\x00\x00\x00\x00\x03\xE8\x7F\x00\x00\x01\x00\x00\x00\x00\x00\x00\
\x00\x00\x00\x00\x07\xD0\x7F\x00\x00\x01\x00\x00*\x9F\x00\x00\x00\x00\x00\x00\x00\x00\x00\x00\x00\x00\x00\x00\x00\
\x02ho\x13SCHEDULE_TOPIC_XXXX\x00.DELAY\x011\x02REAL_TOPIC\x01T\x02REAL_QID\x010\x02SEAL\x015692ADC0\x02";

/// The delivery of the first one, behind them.
const DELIVERY: &[u8; 123] =
    b"\x00\x00\x00{\xDA\xA3 \xA7X\x93*\xAC\x00\x00\x00\x00\x00\x00\x00\x00\x00\x00\x00\x00\x00\x00\x00\x00\x00\x00\
\x00\x00\x00\x00\x01<\x00\x00\x00\x00\x00\x00\x00\x00\x00\x00\x03\xE8\x7F\x00\x00\x01\x00\x00\x00\x00\x00\x00\x00\
\x00\x00\x00\x0B\xB8\x7F\x00\x00\x01\x00\x00*\x9F\x00\x00\x00\x00\x00\x00\x00\x00\x00\x00\x00\x00\x00\x00\x00\x02hi\
\x01T\x00\x1DDELAY_FROM\x011-0\x02SEAL\x01B5D35151\x02";

// Loads the record that these bytes begin with.
fn load(levels: &mut Levels, alloc: Global, bytes: &[u8]) -> Result<(), Fail> {
    let Some(record) = test_record(bytes) else {
        return Err(Fail::from("no record"));
    };
    levels.load(alloc, &record)?;
    Ok(())
}

// The number of a level's next message.
fn next(levels: &Levels, level: u8) -> Option<u64>
    requires low { 1 ≤ level }
    requires high { level ≤ 18 }
{
    match levels.next(level) {
        Some(whole) => Some(whole.queue_offset()),
        None => None,
    }
}

#[test]
fn a_loaded_message_is_kept_until_its_delivery_is_loaded(rt: HostRuntime) -> Result<(), Fail> {
    let alloc = rt.alloc();
    let mut levels = Levels::new(alloc)?;
    assert!(rt; next(&levels, 1) == None);
    load(&mut levels, alloc, FIRST)?;
    load(&mut levels, alloc, SECOND)?;
    assert!(rt; next(&levels, 1) == Some(0));
    load(&mut levels, alloc, DELIVERY)?;
    assert!(rt; next(&levels, 1) == Some(1));
    assert!(rt; next(&levels, 2) == None);
    Ok(())
}

#[test]
fn what_is_loaded_is_not_due_before_it_is_dispatched(rt: HostRuntime) -> Result<(), Fail> {
    let alloc = rt.alloc();
    let mut levels = Levels::new(alloc)?;
    load(&mut levels, alloc, FIRST)?;
    assert!(rt; levels.due(u64::MAX) == None);
    assert!(rt; levels.next_due() == None);
    Ok(())
}
