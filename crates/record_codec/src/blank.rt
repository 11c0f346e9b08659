//! The blank, which fills the end of a segment.
//!
//! | at | bytes | field | |
//! |---:|------:|-------|-|
//! |  0 |     4 | size | of the whole blank, so up to the segment's end |
//! |  4 |     4 | magic | 0xCBD43194 |
//! |  8 |       | zeros | written, and read over |

ghost use Rattle.std.specs.Prelude.{◌≡◌, ◌<◌, ◌^◌, ◌++◌, List, ℕ, IfSome, IfNone};
ghost use Rattle.record_codec.specs.Blanks.{blank_front as blank_front_of, blank_size};

use crate::lengths::u32_at;

const BLANK_MAGIC: u32 = 0xCBD4_3194;

/// How many bytes the size and the magic of a blank have. So many stay free behind each record of a segment.
pub const BLANK_FRONT: u64 = 8;

/// The size and the magic of a blank of `size` bytes. Zeros follow them up to its end.
pub fn blank_front(size: u32) -> [u8; 8]
    ensures { result ≡ blank_front_of size }
{
    let mut front = [0; 8];
    front[..4].copy_from_slice(&size.to_be_bytes());
    front[4..].copy_from_slice(&BLANK_MAGIC.to_be_bytes());
    front
}

#[tactic(auto, unfolding(crate::specs::Blanks::blank_size))]
fn blank_at_front(bytes: &[u8]) -> Option<u32>
    ensures { result ≡ blank_size bytes.now }
{
    if bytes.len() < 8 || u32_at(bytes, 4) != BLANK_MAGIC {
        return None;
    }
    Some(u32_at(bytes, 0))
}

/// The size of the blank at the front of these bytes. Whether it ends where the segment does is the caller's to test.
pub fn test_blank(bytes: &[u8]) -> Option<u32>
    ensures exact { result ≡ blank_size bytes.now }
    ensures found { IfSome result (λ size. (rest : List ℕ) × (bytes.now ≡ blank_front_of size ++ rest)) }
    ensures none { IfNone result ((size : ℕ) (rest : List ℕ) → size < 2 ^ 32 → bytes.now ≡ blank_front_of size ++ rest → ⊥) }
{
    blank_at_front(bytes)
}
