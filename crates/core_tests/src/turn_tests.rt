//! Flush turns that fail, a buffer that is full, and what is seen when.

use crate::events::{PULL, SEND, What};
use crate::stage::{Row, follow};
use std::test::Fail;

/// The first write of a batch, by how often the disk was called. The opening of an empty log calls it four times: for its list of
/// files, for the file behind the first, which it removes, for the length of the first, and to sync it.
const FIRST_WRITE: u64 = 5;

const FAILED_TURNS: &[Row] = &[
    (1000, SEND, "after 0 from turn 0: 0, 0"),
    (1000, SEND, "after 1 from turn 0: 0, 0"),
    (1000, What::Flush, "Failed(1)"),
    (
        1000,
        What::Look { number: 0, turn: 0 },
        "Failed { count: 1 }",
    ),
    (
        1000,
        What::Look { number: 1, turn: 0 },
        "Failed { count: 1 }",
    ),
    (1000, What::Look { number: 1, turn: 1 }, "NotYet"),
    (1000, SEND, "after 2 from turn 1: 0, 0"),
    (1000, What::Flush, "Failed(2)"),
    (
        1000,
        What::Look { number: 0, turn: 0 },
        "Failed { count: 2 }",
    ),
    (
        1000,
        What::Look { number: 1, turn: 1 },
        "Failed { count: 2 }",
    ),
    (
        1000,
        What::Look { number: 2, turn: 1 },
        "Failed { count: 2 }",
    ),
    (1000, What::Look { number: 2, turn: 2 }, "NotYet"),
    (1000, What::Flush, "Done"),
    (1000, What::Look { number: 0, turn: 0 }, "Flushed"),
    (1000, What::Look { number: 2, turn: 1 }, "Flushed"),
    (1000, SEND, "after 3 from turn 3: 0, 0"),
    (1000, What::Flush, "Done"),
    (1000, What::Flush, "Idle"),
];

#[test]
fn a_record_of_failed_turns_is_told_of_the_last_one(rt: HostRuntime) -> Result<(), Fail> {
    follow(
        &rt,
        rt.alloc(),
        &[FIRST_WRITE, FIRST_WRITE + 1],
        FAILED_TURNS,
    )
}

const SIXTEEN_BODIES: &[Row] = &[
    (1000, What::SendLongest, "after 0 from turn 0: 0, 0"),
    (1000, What::SendLongest, "after 1 from turn 0: 0, 0"),
    (1000, What::SendLongest, "after 2 from turn 0: 0, 0"),
    (1000, What::SendLongest, "after 3 from turn 0: 0, 0"),
    (1000, What::SendLongest, "after 4 from turn 0: 0, 0"),
    (1000, What::SendLongest, "after 5 from turn 0: 0, 0"),
    (1000, What::SendLongest, "after 6 from turn 0: 0, 0"),
    (1000, What::SendLongest, "after 7 from turn 0: 0, 0"),
    (1000, What::SendLongest, "after 8 from turn 0: 0, 0"),
    (1000, What::SendLongest, "after 9 from turn 0: 0, 0"),
    (1000, What::SendLongest, "after 10 from turn 0: 0, 0"),
    (1000, What::SendLongest, "after 11 from turn 0: 0, 0"),
    (1000, What::SendLongest, "after 12 from turn 0: 0, 0"),
    (1000, What::SendLongest, "after 13 from turn 0: 0, 0"),
    (1000, What::SendLongest, "after 14 from turn 0: 0, 0"),
    (1000, What::SendLongest, "full at 0"),
    (
        1000,
        What::Look {
            number: 14,
            turn: 0,
        },
        "NotYet",
    ),
];

#[test]
fn the_sixteenth_body_of_4_mib_finds_no_room(rt: HostRuntime) -> Result<(), Fail> {
    follow(&rt, rt.alloc(), &[], SIXTEEN_BODIES)
}

const FLUSHED_AND_DISPATCHED: &[Row] = &[
    (1000, SEND, "after 0 from turn 0: 0, 0"),
    (1000, PULL, "19, 0"),
    (1000, What::Look { number: 0, turn: 0 }, "NotYet"),
    (1000, What::Flush, "Done"),
    (1000, What::Look { number: 0, turn: 0 }, "Flushed"),
    (1000, PULL, "19, 0"),
    (1000, SEND, "after 1 from turn 1: 0, 0"),
    (1000, What::Look { number: 1, turn: 1 }, "NotYet"),
    (1000, What::See, "sees 1"),
    (1000, PULL, "0, 1"),
    (1000, What::Flush, "Done"),
    (1000, What::Look { number: 1, turn: 1 }, "Flushed"),
    (1000, PULL, "0, 1"),
    (1000, What::See, "sees 2"),
    (1000, PULL, "0, 2"),
];

#[test]
fn a_record_is_acknowledged_once_flushed_and_pulled_once_dispatched(
    rt: HostRuntime,
) -> Result<(), Fail> {
    follow(&rt, rt.alloc(), &[], FLUSHED_AND_DISPATCHED)
}
