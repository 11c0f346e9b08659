//! The delay levels: a message sent with level 1 to 18 is delivered that much later than it was stored.

ghost use Rattle.std.specs.Prelude.{◌≡◌, ◌≤◌};
ghost use Rattle.mq_bytes.specs.Delays.{level_delay as level_delay_of};

const SECOND: u64 = 1_000;

const MINUTE: u64 = 60 * SECOND;

const HOUR: u64 = 60 * MINUTE;

static DELAYS: [u64; 18] = [
    SECOND,
    5 * SECOND,
    10 * SECOND,
    30 * SECOND,
    MINUTE,
    2 * MINUTE,
    3 * MINUTE,
    4 * MINUTE,
    5 * MINUTE,
    6 * MINUTE,
    7 * MINUTE,
    8 * MINUTE,
    9 * MINUTE,
    10 * MINUTE,
    20 * MINUTE,
    30 * MINUTE,
    HOUR,
    2 * HOUR,
];

/// How long a message of this level waits, in milliseconds.
#[tactic(auto, unfolding(crate::specs::Delays::level_delay))]
pub fn level_delay(level: u8) -> u64
    requires first { 1 ≤ level }
    requires last { level ≤ 18 }
    ensures { result ≡ level_delay_of level }
{
    DELAYS[usize::from(level) - 1]
}
