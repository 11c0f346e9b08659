//! A core beside a log.

use crate::stage::{Stage, begin};
use core_check::compare;
use log_model::Base;
use std::alloc::Global;
use std::test::Fail;

/// The record of a message `hi` to queue 0 of topic `T`.
const HI: &[u8; 108] =
    b"\x00\x00\x00l\xDA\xA3 \xA7X\x93*\xAC\x00\x00\x00\x00\x00\x00\x00\x00\x00\x00\x00\x00\x00\x00\x00\x00\
\x00\x00\x00\x00\x00\x00\x00\x00\x00\x00\x00\x00\x00\x00\x00\x00\x00\x00\x03\xE8\x7F\x00\x00\x01\x00\x00\x00\x00\x00\x00\x00\x00\
\x00\x00\x07\xD0\x7F\x00\x00\x01\x00\x00*\x9F\x00\x00\x00\x00\x00\x00\x00\x00\x00\x00\x00\x00\x00\x00\x00\x02\
hi\x01T\x00\x0ESEAL\x0122FE9094\x02";

// Whether the core over a log with these bytes in its first segment has what a log without records says.
fn has_none(alloc: Global, log: &[u8]) -> Result<bool, Fail> {
    let Stage {
        alone,
        flusher: _,
        disk: _,
    } = begin(alloc, log, &[])?;
    let core = alone.into_core();
    let equal = compare(alloc, &core, &[], &Base::none(alloc));
    drop(core);
    Ok(equal?)
}

#[test]
fn a_core_has_what_its_log_says(rt: HostRuntime) -> Result<(), Fail> {
    let alloc = rt.alloc();
    assert!(rt; has_none(alloc, b"")?);
    assert!(rt; !has_none(alloc, HI)?);
    Ok(())
}
