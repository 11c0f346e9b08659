//! The command line, word by word, and the opening of stores in memory.

use mq_outside::{Disk, MemDisk, MemKeep, Room};
use std::alloc::{AllocError, Global};
use std::test::Fail;
use store_open::{
    AskedSizes, Command, ServeCommand, Sizes, Status, Tool, ToolCommand, Unfit, open_format,
    read_serve_words, read_tool_words, read_words, unfit_at,
};

const LOG: &str = "commitlog/00000000000000000000";

const OF_4096: &[u8] = b"mq_broker 1 4096 65536 262144\n";

const OF_A_GIBIBYTE: &[u8] = b"mq_broker 1 1073741824 65536 262144\n";

const SMALLEST: &[u8] = b"mq_broker 1 4096 1 2\n";

const NOTHING: AskedSizes = AskedSizes {
    segment: None,
    slots: None,
    entries: None,
};

const DEFAULTS: Command = Command {
    sync: true,
    sizes: NOTHING,
    host: [127, 0, 0, 1, 0, 0, 42, 159],
    store: "store",
};

const SERVE_DEFAULTS: ServeCommand = ServeCommand {
    sync: true,
    sizes: NOTHING,
    host: [127, 0, 0, 1, 0, 0, 42, 159],
    store: "store",
    listen: [127, 0, 0, 1, 0, 0, 42, 159],
    links: 1024,
    connections: None,
};

#[test]
fn a_tool_has_the_folder_alone(rt: HostRuntime) {
    for (tool, name) in [(Tool::Dump, "dump"), (Tool::Verify, "verify")] {
        let read = read_tool_words(tool, &[name]);
        assert!(rt; read == Ok(ToolCommand { store: "store" }), "{name}");
        let read = read_tool_words(tool, &[name, "--store", "a"]);
        assert!(rt; read == Ok(ToolCommand { store: "a" }), "{name}");
        assert!(rt; read_tool_words(tool, &["pipe"]) == Err(0), "{name}");
        assert!(rt;
            read_tool_words(tool, &[name, "--flush", "sync"]) == Err(1),
            "{name}"
        );
        assert!(rt;
            read_tool_words(tool, &[name, "--store"]) == Err(2),
            "{name}"
        );
    }
}

#[test]
fn each_option_of_pipe_is_read(rt: HostRuntime) -> Result<(), Fail> {
    assert!(rt; read_words(&["pipe"]) == Ok(DEFAULTS));
    for (value, sync) in [("sync", true), ("async", false)] {
        let read = read_words(&["pipe", "--flush", value]);
        assert!(rt; read == Ok(Command { sync, ..DEFAULTS }), "{value}");
    }
    for (option, value, segment, slots, entries) in [
        ("--segment", "4096", Some(4096), None, None),
        ("--segment", "1073741824", Some(1_073_741_824), None, None),
        ("--slots", "1", None, Some(1), None),
        ("--slots", "5000000", None, Some(5_000_000), None),
        ("--entries", "2", None, None, Some(2)),
        ("--entries", "20000000", None, None, Some(20_000_000)),
    ] {
        let sizes = AskedSizes {
            segment,
            slots,
            entries,
        };
        let read = read_words(&["pipe", option, value]);
        assert!(rt;
            read == Ok(Command { sizes, ..DEFAULTS }),
            "{option} {value}"
        );
    }
    Ok(())
}

#[test]
fn all_options_of_pipe_are_read_together(rt: HostRuntime) -> Result<(), Fail> {
    let all = [
        "pipe",
        "--entries",
        "9",
        "--host",
        "10.2.30.255:65535",
        "--slots",
        "8",
        "--segment",
        "65536",
        "--flush",
        "async",
        "--store",
        "/var/lib/mq",
    ];
    let said = Command {
        sync: false,
        sizes: AskedSizes {
            segment: Some(65536),
            slots: Some(8),
            entries: Some(9),
        },
        host: [10, 2, 30, 255, 0, 0, 255, 255],
        store: "/var/lib/mq",
    };
    assert!(rt; read_words(&all) == Ok(said));
    Ok(())
}

#[test]
fn the_first_word_of_pipe_that_does_not_fit_is_told(rt: HostRuntime) -> Result<(), Fail> {
    assert!(rt; read_words(&[]) == Err(0));
    assert!(rt; read_words(&["dump"]) == Err(0));
    assert!(rt; read_words(&["pipe", "--links", "1"]) == Err(1));
    assert!(rt; read_words(&["pipe", "--listen", "1.2.3.4:5"]) == Err(1));
    assert!(rt; read_words(&["pipe", "--flush"]) == Err(2));
    assert!(rt; read_words(&["pipe", "--segment", "4096", "--segment", "4096"]) == Err(3));
    let rows = [
        ("--flush", "often"),
        ("--segment", ""),
        ("--segment", "4095"),
        ("--segment", "04096"),
        ("--segment", "+4096"),
        ("--segment", "4096 "),
        ("--segment", "1073741825"),
        ("--slots", "0"),
        ("--slots", "5000001"),
        ("--entries", "1"),
        ("--entries", "20000001"),
        ("--host", "1.2.3.4:0"),
        ("--store", ""),
    ];
    for (option, value) in rows {
        assert!(rt;
            read_words(&["pipe", option, value]) == Err(2),
            "{option} {value}"
        );
    }
    Ok(())
}

#[test]
fn the_options_of_links_are_read(rt: HostRuntime) -> Result<(), Fail> {
    assert!(rt; read_serve_words(&["serve"]) == Ok(SERVE_DEFAULTS));
    for (value, n) in [("1", 1), ("4096", 4096)] {
        let read = read_serve_words(&["serve", "--links", value]);
        let said = ServeCommand {
            links: n,
            ..SERVE_DEFAULTS
        };
        assert!(rt; read == Ok(said), "{value}");
        let read = read_serve_words(&["serve", "--connections", value]);
        let said = ServeCommand {
            connections: Some(n),
            ..SERVE_DEFAULTS
        };
        assert!(rt; read == Ok(said), "{value}");
    }
    let all = [
        "serve",
        "--connections",
        "2",
        "--links",
        "3",
        "--host",
        "1.2.3.4:256",
        "--segment",
        "65536",
        "--flush",
        "async",
    ];
    let said = ServeCommand {
        sync: false,
        sizes: AskedSizes {
            segment: Some(65536),
            ..NOTHING
        },
        host: [1, 2, 3, 4, 0, 0, 1, 0],
        store: "store",
        listen: [1, 2, 3, 4, 0, 0, 1, 0],
        links: 3,
        connections: Some(2),
    };
    assert!(rt; read_serve_words(&all) == Ok(said));
    Ok(())
}

#[test]
fn the_address_to_listen_at_is_the_host_unless_another_is_given(
    rt: HostRuntime,
) -> Result<(), Fail> {
    let said = ServeCommand {
        host: [1, 2, 3, 4, 0, 0, 0, 5],
        listen: [1, 2, 3, 4, 0, 0, 0, 5],
        ..SERVE_DEFAULTS
    };
    assert!(rt; read_serve_words(&["serve", "--host", "1.2.3.4:5"]) == Ok(said));
    let said = ServeCommand {
        listen: [0, 0, 0, 0, 0, 0, 0, 6],
        store: "elsewhere",
        ..said
    };
    let all = [
        "serve",
        "--listen",
        "0.0.0.0:6",
        "--host",
        "1.2.3.4:5",
        "--store",
        "elsewhere",
    ];
    assert!(rt; read_serve_words(&all) == Ok(said));
    Ok(())
}

#[test]
fn what_is_wrong_with_the_first_argument_that_does_not_fit_is_named(
    rt: HostRuntime,
) -> Result<(), Fail> {
    assert!(rt; unfit_at(&[], 0) == Unfit::NoCommand);
    assert!(rt; unfit_at(&["dump"], 0) == Unfit::NotACommand("dump"));
    assert!(rt; unfit_at(&["pipe", "x"], 1) == Unfit::NotAnOption("x"));
    assert!(rt; unfit_at(&["pipe", "--links"], 1) == Unfit::NotAnOption("--links"));
    assert!(rt; unfit_at(&["pipe", "--flush"], 2) == Unfit::NoValue("--flush"));
    assert!(rt; unfit_at(&["serve", "--links", "1", "--links", "1"], 3) == Unfit::Twice("--links"));
    assert!(rt;
        unfit_at(&["serve", "--links", "0"], 2) == Unfit::NotAValue("--links", "0", "1..4096")
    );
    Ok(())
}

#[test]
fn the_first_word_of_serve_that_does_not_fit_is_told(rt: HostRuntime) -> Result<(), Fail> {
    assert!(rt; read_serve_words(&["pipe"]) == Err(0));
    assert!(rt; read_serve_words(&["serve", "serve"]) == Err(1));
    assert!(rt; read_serve_words(&["serve", "--port", "1"]) == Err(1));
    assert!(rt; read_serve_words(&["serve", "--links", "1", "--links", "1"]) == Err(3));
    assert!(rt; read_serve_words(&["serve", "--links", "1", "--host"]) == Err(4));
    let rows = [
        ("--host", "1.2.3.4"),
        ("--host", "1.2.3:80"),
        ("--host", "1.2.3.4.5:80"),
        ("--host", "1.2.3.256:80"),
        ("--host", "1.02.3.4:80"),
        ("--host", "1.2.3.4:65536"),
        ("--host", "localhost:80"),
        ("--links", "0"),
        ("--links", "4097"),
        ("--links", "+1"),
        ("--connections", "0"),
        ("--connections", "4097"),
        ("--listen", "0.0.0.0"),
        ("--store", ""),
    ];
    for (option, value) in rows {
        assert!(rt;
            read_serve_words(&["serve", option, value]) == Err(2),
            "{option} {value}"
        );
    }
    Ok(())
}

// A store of which nothing fails: its format, and a log file where it has one.
fn store(
    alloc: Global,
    format: Option<&[u8]>,
    has_log: bool,
) -> Result<(MemDisk, MemKeep), AllocError> {
    let room = Room {
        bytes: 4096,
        files: 4,
        calls: 16,
    };
    let mut disk = MemDisk::new(alloc, Vec::new(alloc), room, Vec::new(alloc))?;
    if has_log {
        let _written = disk.write_at(LOG, 0, b"1");
    }
    let mut texts = Vec::new(alloc);
    if let Some(text) = format {
        texts.push((String::from_str(alloc, "format")?, text.to_vec(alloc)?))?;
    }
    Ok((disk, MemKeep::new(alloc, texts, Vec::new(alloc))?))
}

const OF_PAGES: AskedSizes = AskedSizes {
    segment: Some(4096),
    ..NOTHING
};

const LEAST: AskedSizes = AskedSizes {
    segment: Some(4096),
    slots: Some(1),
    entries: Some(2),
};

#[test]
fn a_store_is_opened_with_the_sizes_that_its_format_says(rt: HostRuntime) -> Result<(), Fail> {
    let alloc = rt.alloc();
    for (format, asked, (segment, slots, entries), text) in [
        (
            None,
            NOTHING,
            (1_073_741_824, 65_536, 262_144),
            OF_A_GIBIBYTE,
        ),
        (None, OF_PAGES, (4096, 65_536, 262_144), OF_4096),
        (None, LEAST, (4096, 1, 2), SMALLEST),
        (Some(OF_4096), NOTHING, (4096, 65_536, 262_144), OF_4096),
        (Some(OF_4096), OF_PAGES, (4096, 65_536, 262_144), OF_4096),
        (Some(SMALLEST), LEAST, (4096, 1, 2), SMALLEST),
    ] {
        let (mut disk, mut keep) = store(alloc, format, format.is_some())?;
        let opened = open_format(alloc, &mut disk, &mut keep, &asked);
        let sizes = Sizes {
            segment,
            slots,
            entries,
        };
        assert!(rt; opened.ok() == Some(sizes));
        assert!(rt; keep.bytes("format") == Some(text));
    }
    Ok(())
}

#[test]
fn another_store_is_refused_by_name(rt: HostRuntime) -> Result<(), Fail> {
    let alloc = rt.alloc();
    let other: &[u8] = b"mq_broker 2 4096 65536 262144\n";
    let padded: &[u8] = b"mq_broker 1 04096 65536 262144\n";
    let segment = AskedSizes {
        segment: Some(8192),
        ..NOTHING
    };
    let slots = AskedSizes {
        slots: Some(1),
        ..NOTHING
    };
    let entries = AskedSizes {
        entries: Some(2),
        ..NOTHING
    };
    let rows = [
        (None, true, NOTHING, LOG),
        (Some(OF_4096), true, segment, "format"),
        (Some(OF_4096), true, slots, "format"),
        (Some(OF_4096), true, entries, "format"),
        (Some(other), true, NOTHING, "format"),
        (Some(padded), true, NOTHING, "format"),
    ];
    for (format, has_log, asked, name) in rows {
        let (mut disk, mut keep) = store(alloc, format, has_log)?;
        let opened = open_format(alloc, &mut disk, &mut keep, &asked);
        let status = opened.err().unwrap_or(Status::plain(alloc, 0));
        assert!(rt; status.code == 6);
        assert!(rt; status.name.as_str() == name);
        assert!(rt; keep.bytes("format") == format);
    }
    Ok(())
}
