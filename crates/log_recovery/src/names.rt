//! The names of the log's files: those of the segments from the first one on, and nothing else.

ghost use Rattle.std.specs.Prelude.{◌≡◌, ◌↔◌, ◌*◌, ◌/◌, ◌^◌, ◌<◌, ◌≤◌, Some, IsTrue, true};
ghost use Rattle.std.specs.Prelude.{false, List, ℕ, map, string_bytes, IfSome, IfNone};
ghost use Rattle.mq_bytes.specs.Names.{log_file};
ghost use Rattle.mq_outside.specs.Files.{Files, Lists};
ghost use Rattle.log_model.specs.Bases.{geometry};
ghost use Rattle.log_model.specs.Told.{base_of};
ghost use Rattle.log_model.specs.Log.{IsSegmentSize, IsGeometry};
ghost use Rattle.log_model.specs.Segments.{IsLogFile};
ghost use Rattle.log_recovery.specs.Names.{AreNamed, NoFurther, IsOdd, IsRemoved, not_negative};

use log_model::Base;
use mq_bytes::{LogFile, read_decimal};

// No segment begins here or later.
const LIMIT: u64 = 0x8000_0000_0000_0000;

const FOLDER: &[u8] = b"commitlog/";

/// What stands in the log's folder.
#[derive(Drop)]
pub(crate) struct Order<'a> {
    /// How many of the first segments have their files.
    pub(crate) count: u64,
    /// The first file that is none of these.
    pub(crate) odd: Option<&'a str>,
}

fn is_log_file(name: &str) -> bool
    ensures { IsTrue result ↔ IsLogFile name.now }
{
    let name = name.as_bytes();
    name.len() >= 10 && &name[..10] == FOLDER
}

// The number, where it isn't negative.
fn unless_negative(number: Option<i64>) -> Option<u64>
    ensures { result ≡ not_negative number }
{
    let number = number?;
    if number < 0 {
        return None;
    }
    Some(number as u64)
}

// The number in the name of a file of the log's folder, where it writes one.
fn number_in(name: &str) -> Option<u64>
    requires { IsLogFile name.now }
    ensures { (n : ℕ) → n < 2 ^ 63 → name.now ≡ log_file n → result ≡ Some n }
{
    match std::str::from_utf8(&name.as_bytes()[10..]) {
        Ok(digits) => unless_negative(read_decimal(digits)),
        Err(_) => None,
    }
}

/// Whether this is the file of a segment before the one that begins at this place.
pub(crate) fn is_removed(name: &str, segment: u32, place: u64) -> bool
    requires size { IsSegmentSize segment }
    requires low { place ≤ 2 ^ 62 }
    requires begins { place ≡ place / segment * segment }
    requires in_folder { IsLogFile name.now }
    ensures { IsTrue result ↔ IsRemoved segment place name.now }
{
    let Some(begins) = number_in(name) else {
        return false;
    };
    if begins >= place {
        return false;
    }
    if begins % u64::from(segment) != 0 {
        return false;
    }
    LogFile::of(begins).as_str() == name
}

// Whether this is a file of the log's folder, and not one of a segment before the one that begins at this place.
fn counts(name: &str, segment: u32, place: u64) -> bool
    requires size { IsSegmentSize segment }
    requires low { place ≤ 2 ^ 62 }
    requires begins { place ≡ place / segment * segment }
    ensures yes { result ≡ true → IsLogFile name.now × (IsRemoved segment place name.now → ⊥) }
    ensures no { result ≡ false → IsLogFile name.now → IsRemoved segment place name.now }
{
    if !is_log_file(name) {
        return false;
    }
    !is_removed(name, segment, place)
}

/// The log's files among these, which are in byte order, in a log that begins at this base.
pub(crate) fn order_of<'a>(names: &'a [String], segment: u32, base: &Base) -> Order<'a>
    requires { IsGeometry (geometry segment (base_of base.now)) }
    ensures low { (k : ℕ) → k < result.count → k * segment < 2 ^ 63 }
    ensures from { base.now.place / segment ≤ result.count }
    ensures named { (files : Files) → Lists files (map (λ name. string_bytes name) names.now)
        → AreNamed (geometry segment (base_of base.now)) result.count files }
    ensures all { (files : Files) → Lists files (map (λ name. string_bytes name) names.now)
        → IfNone result.odd (NoFurther (geometry segment (base_of base.now)) result.count files) }
    ensures odd { (files : Files) → Lists files (map (λ name. string_bytes name) names.now)
        → IfSome result.odd (λ name. IsOdd (geometry segment (base_of base.now)) result.count files name.now) }
{
    let mut count = base.place / u64::from(segment);
    for i in 0..names.len() {
        let name = names[i].as_str();
        if counts(name, segment, base.place) {
            let begins = count * u64::from(segment);
            let file = LogFile::of(begins);
            if begins >= LIMIT || file.as_str() != name {
                return Order {
                    count,
                    odd: Some(name),
                };
            }
            count += 1;
        }
    }
    Order { count, odd: None }
}
