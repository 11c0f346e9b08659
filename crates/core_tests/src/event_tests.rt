//! Each kind of event once, where memory is ample.

use crate::events::{PULL, SEND, What};
use crate::stage::{Row, follow};
use std::test::Fail;

/// The half messages have 347 and 354 bytes, the first one's copy 286 and its op record 140, the delayed message 334 and its delivery
/// 299: so the renewal of the second one is at 1760.
const HALF: What = What::Ask(10, r"TRAN_MSG\u0001true\u0002");

const HALF_WITH_KEY: What = What::Ask(10, r"TRAN_MSG\u0001true\u0002KEYS\u0001k\u0002");

const DELAYED_WITH_KEY: What = What::Ask(10, r"DELAY\u00011\u0002KEYS\u0001k\u0002");

const KINDS: &[Row] = &[
    (1000, What::Ask(34, ""), "0, 0"),
    (1000, HALF, "after 0 from turn 0: 0, 0"),
    (1000, HALF_WITH_KEY, "after 1 from turn 0: 0, 0"),
    (1000, What::Ask(37, ""), "after 3 from turn 0: 0, 0"),
    (1000, DELAYED_WITH_KEY, "after 4 from turn 0: 0, 0"),
    (1000, What::Flush, "Done"),
    (1000, What::See, "sees 5"),
    (1000, PULL, "0, 1"),
    (1999, What::Deliver, "nothing due"),
    (2000, What::Deliver, "delivers 0 of 1"),
    (6999, What::Check, "nothing due"),
    (7000, What::Check, "checks 1, writes 6, asks 1 for 1760"),
    (7000, What::Check, "nothing due"),
    (7000, What::Ask(37, ""), "0, 0"),
    (7000, What::Flush, "Done"),
    (7000, What::See, "sees 7"),
    (7000, PULL, "0, 2"),
    (7000, What::Ask(12, ""), "0, 1"),
    (7000, What::Ask(14, ""), "22, 0"),
    (7000, What::Ask(15, ""), "0, 0"),
    (7000, What::Ask(14, ""), "0, 0"),
    (7000, What::Ask(17, ""), "0, 0"),
    (7000, What::Ask(29, ""), "0, 0"),
    (7000, What::Ask(30, ""), "0, 0"),
    (7000, What::Ask(31, ""), "0, 0"),
    (7000, What::Ask(33, ""), "0, 1"),
    (7000, What::Ask(41, ""), "0, 1"),
    (7000, What::Ask(42, ""), "0, 0"),
    (7000, What::Ask(35, ""), "0, 0"),
    (7000, What::Leave, "done"),
    (7000, SEND, "after 7 from turn 2: 0, 0"),
];

#[test]
fn each_kind_of_event_and_of_request_is_answered(rt: HostRuntime) -> Result<(), Fail> {
    follow(&rt, rt.alloc(), &[], KINDS)
}
