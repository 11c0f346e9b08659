//! Delayed messages: how far each level was delivered.

ghost use Rattle.std.specs.Prelude.{◌≡◌, ℕ, ◌+◌, ◌-◌, ◌≤◌, ◌^◌, IfOk, length, slice_index, option_map, count_by};
ghost use Rattle.log_model.specs.Queues.{said_by, entries_of};
ghost use Rattle.log_model.specs.Kinds.{before_dash as before_dash_of, delay_level as delay_level_of, is_text as is_text_of};
ghost use Rattle.log_model.specs.Delays.{progress};
ghost use Rattle.log_model.specs.Told.{base_of};
ghost use Rattle.log_replay.specs.Told.{log_of};

use crate::halves::digits;
use log_model::Base;
use record_codec::Record;
use std::alloc::{AllocError, Global};

// What stands before the first dash.
fn before_dash(text: &[u8]) -> Option<&[u8]>
    ensures { option_map (λ text. text.now) result ≡ before_dash_of text.now }
{
    for (i, b) in text.iter().enumerate() {
        if *b == b'-' {
            return Some(&text[..i]);
        }
    }
    None
}

// The level in the text of `DELAY_FROM`.
fn delay_level(r: &Record) -> Option<&[u8]>
    ensures { option_map (λ text. text.now) result ≡ delay_level_of (said_by r.now) }
{
    match r.draft.props.get("DELAY_FROM") {
        Some(text) => before_dash(text.as_bytes()),
        None => None,
    }
}

// Whether the record is the delivery of a message of the level with these digits.
fn is_delivery(r: &Record, digits: &[u8]) -> bool
    ensures { result ≡ is_text_of digits.now (delay_level_of (said_by r.now)) }
{
    match delay_level(r) {
        Some(level) => level == digits,
        None => false,
    }
}

// How many messages of the level with these digits were delivered.
fn deliveries(log: &[Record], digits: &[u8]) -> u64
    ensures value { result ≡ count_by (λ r. is_text_of digits.now (delay_level_of r)) (entries_of log.now) }
    ensures low { result ≤ length log.now }
{
    let mut count = 0;
    for record in log {
        if is_delivery(record, digits) {
            count += 1;
        }
    }
    count
}

/// How many messages of each of the levels 1 to 18 were delivered, those before the base among them.
pub fn delays_of(alloc: Global, log: &[Record], base: &Base) -> Result<[u64; 18], AllocError>
    requires levels { (level : ℕ) → (base_of base.now).levels level ≤ 2 ^ 62 }
    requires few { length log.now ≤ 2 ^ 62 }
    ensures { IfOk result (λ delays. (level : ℕ) → 1 ≤ level → level ≤ 18
        → slice_index delays (level - 1) ≡ progress (log_of base.now log.now) level) }
{
    let mut delays = [0; 18];
    for i in 0..18 {
        let digits = digits(alloc, i as u64 + 1)?;
        delays[i] = base.levels[i] + deliveries(log, &digits);
    }
    Ok(delays)
}
