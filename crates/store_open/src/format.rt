//! The text `format` of the keep: which store this is.
//!
//! `mq_broker 1 S SLOTS ENTRIES` and a line end, with one space between. Numbers are decimal, without leading zeros.
//!
//! | part      | says                                   | from | to            | of a new store           |
//! |-----------|----------------------------------------|-----:|--------------:|-------------------------:|
//! | `1`       | the version of the store's files       |      |               |                          |
//! | `S`       | how many bytes a segment of the log has | 4096 | 1,073,741,824 | `--segment`, 1073741824 |
//! | `SLOTS`   | how many slots an index file has       |    1 |     5,000,000 | `--slots`, 65536         |
//! | `ENTRIES` | how many entry numbers an index file has |  2 |    20,000,000 | `--entries`, 262144      |

ghost use Rattle.std.specs.Prelude.{◌≡◌, ◌↔◌, ℕ, List, ◌∷◌, ◌++◌, ◌≤◌, Some, IfSome, IfOk, IsTrue, MatchOption};
ghost use Rattle.mq_bytes.specs.Decimal.{digits_of};
ghost use Rattle.store_open.specs.declared.format.Sizes.{Sizes as TheSizes};
ghost use Rattle.store_open.specs.Formats.{format_text, AreAllowed, IsFormat, AreSizes, Agrees, sizes_text, new_sizes, no_sizes};

use crate::number::read_number;
use mq_bytes::write_number;
use record_codec::{SEGMENT_MAX, SEGMENT_MIN};
use std::alloc::{AllocError, Global};

/// The name and the version of the store's files.
const HEAD: &[u8] = b"mq_broker 1 ";

pub(crate) const SLOTS_MIN: u32 = 1;

pub(crate) const SLOTS_MAX: u32 = 5_000_000;

pub(crate) const ENTRIES_MIN: u32 = 2;

pub(crate) const ENTRIES_MAX: u32 = 20_000_000;

/// The slots and the entries of a new store, where no others are asked for.
const SLOTS: u32 = 65_536;

const ENTRIES: u32 = 262_144;

/// The sizes of a store: the bytes of a segment, and the slots and entry numbers of an index file.
#[derive(Debug, Clone, Copy, PartialEq, Eq)]
pub struct Sizes {
    pub segment: u32,
    pub slots: u32,
    pub entries: u32,
}

/// The sizes that the arguments ask for, each where they say it.
#[derive(Debug, Clone, Copy, PartialEq, Eq)]
pub struct AskedSizes {
    pub segment: Option<u32>,
    pub slots: Option<u32>,
    pub entries: Option<u32>,
}

impl AskedSizes {
    /// No size is asked for.
    pub fn none() -> AskedSizes
        ensures none { result ≡ no_sizes }
        ensures allowed { AreAllowed result }
    {
        AskedSizes {
            segment: None,
            slots: None,
            entries: None,
        }
    }

    /// The sizes of a new store: those that are asked for, and the defaults for the rest.
    pub(crate) fn of_new_store(&self) -> Sizes
        ensures { result ≡ new_sizes self.now }
    {
        Sizes {
            segment: self.segment.unwrap_or(SEGMENT_MAX),
            slots: self.slots.unwrap_or(SLOTS),
            entries: self.entries.unwrap_or(ENTRIES),
        }
    }

    /// Whether each size that is asked for is that of the store.
    pub(crate) fn agree(&self, sizes: &Sizes) -> bool
        ensures { IsTrue result ↔ Agrees self.now sizes.now }
    {
        self.segment.unwrap_or(sizes.segment) == sizes.segment
            && self.slots.unwrap_or(sizes.slots) == sizes.slots
            && self.entries.unwrap_or(sizes.entries) == sizes.entries
    }
}

// The number in front of the first space, and what stands behind that.
fn number_before(text: &str, low: u32, high: u32) -> Option<(u32, &str)>
    ensures found { IfSome result (λ r. (text.now ≡ digits_of r.0 ++ 32 ∷ r.1.now) × (low ≤ r.0) × (r.0 ≤ high)) }
    ensures exact { (n : ℕ) (rest : List ℕ) → text.now ≡ digits_of n ++ 32 ∷ rest → low ≤ n → n ≤ high
        → MatchOption result ⊥ (λ r. (r.0 ≡ n) × (r.1.now ≡ rest)) }
{
    let (digits, rest) = text.split_once(' ')?;
    match read_number(digits, low, high) {
        Some(n) => Some((n, rest)),
        None => None,
    }
}

// The three numbers.
fn read_sizes(text: &str) -> Option<Sizes>
    ensures found { IfSome result (λ sizes. (text.now ≡ sizes_text sizes) × AreSizes sizes) }
    ensures exact { (sizes : TheSizes) → text.now ≡ sizes_text sizes → AreSizes sizes → result ≡ Some sizes }
{
    let (segment, rest) = number_before(text, SEGMENT_MIN, SEGMENT_MAX)?;
    let (slots, rest) = number_before(rest, SLOTS_MIN, SLOTS_MAX)?;
    let entries = read_number(rest, ENTRIES_MIN, ENTRIES_MAX)?;
    Some(Sizes {
        segment,
        slots,
        entries,
    })
}

/// The sizes that the text says, where it is a format.
pub(crate) fn read_format(text: &[u8]) -> Option<Sizes>
    ensures found { IfSome result (IsFormat text.now) }
    ensures exact { (sizes : TheSizes) → IsFormat text.now sizes → result ≡ Some sizes }
{
    let rest = text.strip_prefix(HEAD)?;
    let sizes = rest.strip_suffix(b"\n")?;
    let Ok(sizes) = std::str::from_utf8(sizes) else {
        return None;
    };
    read_sizes(sizes)
}

/// The format of a store of these sizes.
pub(crate) fn write_format(alloc: Global, sizes: &Sizes) -> Result<Vec<u8>, AllocError>
    ensures { IfOk result (λ text. text.items ≡ format_text sizes.now) }
{
    let mut text = Vec::from_slice(alloc, HEAD)?;
    write_number(u64::from(sizes.segment), &mut text)?;
    text.push(b' ')?;
    write_number(u64::from(sizes.slots), &mut text)?;
    text.push(b' ')?;
    write_number(u64::from(sizes.entries), &mut text)?;
    text.push(b'\n')?;
    Ok(text)
}
