//! Streams and clocks, in memory and real: each call once, and each call that is to fail.

use mq_outside::{
    Clock, Failed, MachineClock, MemClock, MemSink, MemSource, Sink, Source, StdSink, StdSource,
};
use std::io;
use std::io::{ErrorKind, Read, Write};
use std::test::Fail;

// A reader and a writer that signals interrupt so often, and that takes 3 bytes of the next piece.
#[derive(Drop)]
struct Interrupted {
    interruptions: u8,
}

impl Read for Interrupted {
    fn read(&mut self, out: &mut [u8]) -> io::Result<usize> {
        if self.interruptions > 0 {
            self.interruptions -= 1;
            return Err(ErrorKind::Interrupted.into());
        }
        Ok(out.len().min(3))
    }
}

impl Write for Interrupted {
    fn write(&mut self, piece: &[u8]) -> io::Result<usize> {
        if self.interruptions > 0 {
            self.interruptions -= 1;
            return Err(ErrorKind::Interrupted.into());
        }
        Ok(piece.len().min(3))
    }

    fn flush(&mut self) -> io::Result<()> {
        Ok(())
    }
}

// A reader and a writer that the system refuses, and a writer that takes nothing.
#[derive(Drop)]
struct Refusing;

impl Read for Refusing {
    fn read(&mut self, _out: &mut [u8]) -> io::Result<usize> {
        Err(ErrorKind::BrokenPipe.into())
    }
}

impl Write for Refusing {
    fn write(&mut self, _piece: &[u8]) -> io::Result<usize> {
        Ok(0)
    }

    fn flush(&mut self) -> io::Result<()> {
        Ok(())
    }
}

// What five reads of at most two bytes answer, the second of which is to fail. They go into these bytes.
fn read_five(source: &mut MemSource, bytes: &mut [u8; 10]) -> [Result<usize, Failed>; 5] {
    [
        source.read(&mut bytes[..2]),
        source.read(&mut bytes[2..4]),
        source.read(&mut bytes[4..6]),
        source.read(&mut bytes[6..8]),
        source.read(&mut bytes[8..]),
    ]
}

#[test]
fn a_source_gives_its_pieces_and_fails_at_its_second_read(rt: HostRuntime) -> Result<(), Fail> {
    let alloc = rt.alloc();
    let pieces = vec![in alloc; b"abc".to_vec(alloc)?, b"de".to_vec(alloc)?]?;
    let mut source = MemSource::new(alloc, pieces, vec![in alloc; 2]?)?;
    let mut bytes = [0; 10];
    let answers = read_five(&mut source, &mut bytes);
    assert!(rt; answers == [Ok(2), Err(Failed), Ok(1), Ok(2), Ok(0)]);
    assert!(rt; &bytes == b"ab\0\0c\0de\0\0");
    Ok(())
}

// What six writes answer, the second of which is to fail.
fn write_six(sink: &mut MemSink) -> [Result<usize, Failed>; 6] {
    [
        sink.write(b"abcd"), // at most three a call
        sink.write(b"x"),
        sink.write(b"de"),
        sink.write(b"xy"), // a byte too many
        sink.write(b"f"),
        sink.write(b""), // a call too many
    ]
}

#[test]
fn a_sink_takes_what_fits_and_fails_past_its_room(rt: HostRuntime) -> Result<(), Fail> {
    let fails = vec![in rt.alloc(); 2]?;
    let mut sink = MemSink::new(rt.alloc(), 6, 5, fails)?.taking_at_most(3);
    let answers = write_six(&mut sink);
    sink.done();
    assert!(rt; answers == [Ok(3), Err(Failed), Ok(2), Err(Failed), Ok(1), Err(Failed)]);
    assert!(rt; sink.bytes() == b"abcdef".as_slice());
    Ok(())
}

#[test]
fn a_clock_repeats_its_last_reading(rt: HostRuntime) -> Result<(), Fail> {
    let alloc = rt.alloc();
    let mut clock = MemClock::new(alloc, vec![in alloc; 7, 5]?, vec![in alloc; 2]?)?;
    let readings = [clock.now(), clock.now(), clock.now(), clock.now()];
    assert!(rt; readings == [Ok(7), Err(Failed), Ok(5), Ok(5)]);
    Ok(())
}

#[test]
fn an_interrupted_call_is_made_again(rt: HostRuntime) {
    let mut source = StdSource::over(Interrupted { interruptions: 2 });
    assert!(rt; source.read(&mut [0; 4]) == Ok(3));
    let mut sink = StdSink::over(Interrupted { interruptions: 2 });
    assert!(rt; sink.write(b"abcd") == Ok(3));
}

#[test]
fn what_the_system_refuses_fails(rt: HostRuntime) {
    let mut source = StdSource::over(Refusing);
    assert!(rt; source.read(&mut [0; 4]) == Err(Failed));
    let mut sink = StdSink::over(Refusing);
    assert!(rt; sink.write(b"abcd") == Err(Failed), "nothing was taken");
    assert!(rt; sink.write(b"") == Ok(0));
}

#[test]
fn the_real_streams_and_the_real_clock_answer(rt: HostRuntime) -> Result<(), Fail> {
    let mut source = StdSource::new(rt);
    assert!(rt; source.read(&mut []) == Ok(0));
    let mut sink = StdSink::new(rt);
    assert!(rt; sink.write(b".") == Ok(1));
    sink.done();
    let mut clock = MachineClock::new(rt);
    let now = clock.now().or(Err("no reading"))?;
    assert!(rt; now > 1_577_836_800_000, "the year 2020 is over");
    Ok(())
}
