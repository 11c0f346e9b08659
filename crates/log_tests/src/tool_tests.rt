//! The tools over small stores in memory, of records that were made independently.

use crate::recovery_tests::{ended_segment, torn, two_records};
use mq_bytes::LogFile;
use mq_outside::{Disk, MemDisk, MemKeep, MemSink, Room};
use std::alloc::{AllocError, Global};
use std::test::Fail;
use store_open::Tool;
use tool_run::{ToolRan, run_tool};

const FORMAT: &[u8] = b"mq_broker 1 4096 65536 262144\n";

const ROOM: Room = Room {
    bytes: 65536,
    files: 4,
    calls: 64,
};

/// A store: its disk and its keep.
#[derive(Drop)]
struct Store {
    disk: MemDisk,
    keep: MemKeep,
}

/// The calls of the disk, the keep and the sink that are to fail: at most one of each, and 0 is none.
#[derive(Clone, Copy)]
struct Fails {
    disk: u64,
    keep: u64,
    sink: u64,
}

const NONE: Fails = Fails {
    disk: 0,
    keep: 0,
    sink: 0,
};

/// A store with this first file of the log, and the second one if it has bytes; with a format, if it is to have one.
fn store_of(
    alloc: Global,
    first: &[u8],
    second: &[u8],
    has_format: bool,
    fails: Fails,
) -> Result<Store, Fail> {
    let mut disk = MemDisk::new(alloc, Vec::new(alloc), ROOM, vec![in alloc; fails.disk]?)?;
    disk.write_at(LogFile::of(0).as_str(), 0, first)?;
    if !second.is_empty() {
        disk.write_at(LogFile::of(4096).as_str(), 0, second)?;
    }
    let mut texts = Vec::new(alloc);
    if has_format {
        texts.push((String::from_str(alloc, "format")?, FORMAT.to_vec(alloc)?))?;
    }
    let keep = MemKeep::new(alloc, texts, vec![in alloc; fails.keep]?)?;
    Ok(Store { disk, keep })
}

/// How the tool ends over the store.
fn ran(
    alloc: Global,
    tool: Tool,
    store: &mut Store,
    fail: u64,
) -> Result<ToolRan<MemSink>, AllocError> {
    let sink = MemSink::new(alloc, 1024, 64, vec![in alloc; fail]?)?;
    let words = [tool.verb().word()];
    Ok(run_tool(alloc, tool, &words, sink, &mut store.disk, &mut store.keep))
}

/// Whether the tool ends with this status and this text over a store with these files, and leaves the first one as it is.
fn tells(
    alloc: Global,
    tool: Tool,
    first: &[u8],
    second: &[u8],
    code: u8,
    text: &[u8],
) -> Result<bool, Fail> {
    let mut store = store_of(alloc, first, second, true, NONE)?;
    let ran = ran(alloc, tool, &mut store, 0)?;
    let is_left = store.disk.bytes(LogFile::of(0).as_str()) == Some(first);
    Ok(is_left && ran.status.code == code && ran.sink.bytes() == text)
}

#[test]
fn dump_tells_each_record_and_verify_how_many(rt: HostRuntime) -> Result<(), Fail> {
    let two = two_records();
    let lines = b"0 T 0 0 108\n108 T 0 1 108\n";
    assert!(rt; tells(rt.alloc(), Tool::Dump, &two, &[], 0, lines)?);
    assert!(rt;
        tells(
            rt.alloc(),
            Tool::Verify,
            &two,
            &[],
            0,
            b"records 2 end 216\nequal\n"
        )?
    );
    Ok(())
}

#[test]
fn a_torn_record_is_not_told(rt: HostRuntime) -> Result<(), Fail> {
    let two = two_records();
    let first = torn(&two);
    assert!(rt; tells(rt.alloc(), Tool::Dump, first, &[], 0, b"0 T 0 0 108\n")?);
    assert!(rt;
        tells(
            rt.alloc(),
            Tool::Verify,
            first,
            &[],
            0,
            b"records 1 end 108\nequal\n"
        )?
    );
    Ok(())
}

#[test]
fn damage_is_told_behind_the_records_before_it(rt: HostRuntime) -> Result<(), Fail> {
    let mut first = ended_segment();
    first[120] ^= 0x20;
    let lines = b"0 T 0 0 108\ndamaged commitlog/00000000000000000000 108\n";
    assert!(rt; tells(rt.alloc(), Tool::Dump, &first, b"x", 8, lines)?);
    let line = b"damaged commitlog/00000000000000000000 108\n";
    assert!(rt; tells(rt.alloc(), Tool::Verify, &first, b"x", 8, line)?);
    Ok(())
}

#[test]
fn a_store_without_a_format_is_foreign(rt: HostRuntime) -> Result<(), Fail> {
    for tool in [Tool::Dump, Tool::Verify] {
        let mut store = store_of(rt.alloc(), b"x", &[], false, NONE)?;
        let ran = ran(rt.alloc(), tool, &mut store, 0)?;
        let line = b"foreign commitlog/00000000000000000000\n".as_slice();
        assert!(rt; ran.status.code == 6 && ran.sink.bytes() == line);
        assert!(rt; store.keep.bytes("format").is_none());
    }
    Ok(())
}

/// The status where these calls fail.
fn status_where(alloc: Global, tool: Tool, fails: Fails) -> Result<u8, Fail> {
    let mut store = store_of(alloc, &two_records(), &[], true, fails)?;
    Ok(ran(alloc, tool, &mut store, fails.sink)?.status.code)
}

#[test]
fn a_device_that_fails_is_told_by_the_status(rt: HostRuntime) -> Result<(), Fail> {
    for tool in [Tool::Dump, Tool::Verify] {
        // The first call of the disk makes the file.
        for disk in 2..5 {
            let code = status_where(rt.alloc(), tool, Fails { disk, ..NONE })?;
            assert!(rt; code == 5, "call {disk} of the disk failed");
        }
        for keep in 1..3 {
            let code = status_where(rt.alloc(), tool, Fails { keep, ..NONE })?;
            assert!(rt; code == 10, "call {keep} of the keep failed");
        }
        assert!(rt; status_where(rt.alloc(), tool, Fails { sink: 1, ..NONE })? == 4);
    }
    Ok(())
}
