//! The names of files: a segment is named by the offset where it begins, in 20 decimal digits, and the files of the
//! log stand in the folder `commitlog`.

ghost use Rattle.std.specs.Prelude.{◌≡◌, ◌^◌, ◌<◌, string_bytes, IfOk};
ghost use Rattle.mq_bytes.specs.Names.{digit_at as digit_of, twenty_digits, log_file as log_file_of};

use crate::ascii::text_of;
use std::alloc::{AllocError, Global};
use std::marker::Model;

// The digit that is worth `power`, a power of ten.
fn digit_at(offset: u64, power: u64) -> u8
    requires { 0 < power }
    ensures { result ≡ digit_of offset power }
{
    b'0' + (offset / power % 10) as u8
}

/// The offset in 20 decimal digits, made with no memory.
#[tactic(auto, unfolding(crate::specs::Names::twenty_digits))]
pub fn segment_digits(offset: u64) -> [u8; 20]
    ensures { result ≡ twenty_digits offset }
{
    [
        digit_at(offset, 10_000_000_000_000_000_000),
        digit_at(offset, 1_000_000_000_000_000_000),
        digit_at(offset, 100_000_000_000_000_000),
        digit_at(offset, 10_000_000_000_000_000),
        digit_at(offset, 1_000_000_000_000_000),
        digit_at(offset, 100_000_000_000_000),
        digit_at(offset, 10_000_000_000_000),
        digit_at(offset, 1_000_000_000_000),
        digit_at(offset, 100_000_000_000),
        digit_at(offset, 10_000_000_000),
        digit_at(offset, 1_000_000_000),
        digit_at(offset, 100_000_000),
        digit_at(offset, 10_000_000),
        digit_at(offset, 1_000_000),
        digit_at(offset, 100_000),
        digit_at(offset, 10_000),
        digit_at(offset, 1_000),
        digit_at(offset, 100),
        digit_at(offset, 10),
        digit_at(offset, 1),
    ]
}

/// The name of the segment that begins at this offset.
pub fn segment_name(alloc: Global, offset: u64) -> Result<String, AllocError>
    requires { offset < 2 ^ 62 }
    ensures { IfOk result (λ name. string_bytes name ≡ twenty_digits offset) }
{
    String::from_str(alloc, text_of(&segment_digits(offset)))
}

/// The path of the log file that begins at this place, `commitlog/` and the 20 digits, made with no memory.
#[tactic(auto, unfolding(crate::specs::Names::log_file))]
pub fn log_file(base: u64) -> [u8; 30]
    ensures { result ≡ log_file_of base }
{
    let mut path = *b"commitlog/00000000000000000000";
    path[10..].copy_from_slice(&segment_digits(base));
    path
}

/// The path of a log file as text, with no memory.
#[derive(Debug, Drop)]
pub struct LogFile {
    path: [u8; 30],
}

impl Model for LogFile {
    ghost use Rattle.std.specs.Prelude.{List, ℕ};
    ghost use Rattle.std.specs.Str.{IsAscii};

    ghost Value = { List ℕ };

    ghost view = { λ f. f.path };

    ghost invariant = { λ f. IsAscii f.path };
}

impl LogFile {
    /// The path of the log file that begins at this place.
    pub fn of(base: u64) -> LogFile
        ensures { result ≡ log_file_of base }
    {
        LogFile {
            path: log_file(base),
        }
    }

    /// `commitlog/` and the 20 digits.
    pub fn as_str(&self) -> &str
        ensures { result.now ≡ self.now }
    {
        text_of(&self.path)
    }
}
