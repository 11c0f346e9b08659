//! Properties in written form, in place.

ghost use Rattle.std.specs.Prelude.{◌≡◌, List, ℕ, Some, option_map, option_and_then, is_some, length, IsTrue};
ghost use Rattle.mq_bytes.specs.Crc.{crc_of};
ghost use Rattle.record_codec.specs.Marks.{are_marked, marked};
ghost use Rattle.record_codec.specs.Props.{has_name as has_name_of, are_distinct as are_distinct_of, value_of, lacks as lacks_of};
ghost use Rattle.record_codec.specs.Props.{until, pair_in, next_pair as next_pair_of, next_written as next_written_of, pairs_in};

use crate::marks::{WORDS, mark};
use mq_bytes::crc32;

/// Up to so many bytes a look at each pair of names costs less than clearing the marks.
const SHORT: usize = 256;

fn lacks(byte: u8, bytes: &[u8]) -> bool
    ensures { result ≡ lacks_of byte bytes.now }
{
    for b in bytes {
        if *b == byte {
            return false;
        }
    }
    true
}

// What stands before the first such byte, and what behind it.
pub(crate) fn split_at_first(byte: u8, text: &[u8]) -> Option<(&[u8], &[u8])>
    ensures { option_map (λ p. (p.0.now, p.1.now)) result ≡ until byte text.now }
{
    for (i, b) in text.iter().enumerate() {
        if *b == byte {
            return Some((&text[..i], &text[i + 1..]));
        }
    }
    None
}

// The pair of a piece between bytes 2.
pub(crate) fn pair_of(piece: &[u8]) -> Option<(&[u8], &[u8])>
    requires { IsTrue (lacks_of 2 piece.now) }
    ensures { option_map (λ p. (p.0.now, p.1.now)) result ≡ pair_in piece.now }
{
    let (name, value) = split_at_first(1, piece)?;
    if name.is_empty() || !lacks(1, value) {
        return None;
    }
    Some((name, value))
}

#[tactic(auto, unfolding(crate::specs::Props::next_pair))]
pub(crate) fn next_pair(text: &[u8]) -> Option<(&[u8], &[u8], &[u8])>
    ensures { option_map (λ p. (p.0.now, p.1.now, p.2.now)) result ≡ next_pair_of text.now }
{
    let (piece, rest) = split_at_first(2, text)?;
    let (name, value) = pair_of(piece)?;
    Some((name, value, rest))
}

// The pair in front and the rest, of a text that is known to be in written form: nothing is tested again.
#[tactic(auto, unfolding(crate::specs::Props::next_written))]
fn next_written(text: &[u8]) -> Option<(&[u8], &[u8], &[u8])>
    ensures { option_map (λ p. (p.0.now, p.1.now, p.2.now)) result ≡ next_written_of text.now }
{
    let (name, after) = split_at_first(1, text)?;
    let (value, rest) = split_at_first(2, after)?;
    Some((name, value, rest))
}

// Whether the text is pairs in written form.
pub(crate) fn are_written(text: &[u8]) -> bool
    ensures { result ≡ is_some (pairs_in (length text.now) text.now) }
{
    let mut rest = text;
    while rest.len() > 0 {
        match next_pair(rest) {
            None => return false,
            Some((_, _, after)) => rest = after,
        }
    }
    true
}

// Whether a pair of the text has the name.
pub(crate) fn has_name(name: &[u8], text: &[u8]) -> bool
    ensures { (ps : List (List ℕ × List ℕ)) → pairs_in (length text.now) text.now ≡ Some ps → result ≡ has_name_of name.now ps }
{
    let mut rest = text;
    while rest.len() > 0 {
        match next_written(rest) {
            None => return false,
            Some((other, _, after)) => {
                if name == other {
                    return true;
                }
                rest = after;
            }
        }
    }
    false
}

// Whether no two pairs of the text have one name.
pub(crate) fn are_distinct(text: &[u8]) -> bool
    ensures { (ps : List (List ℕ × List ℕ)) → pairs_in (length text.now) text.now ≡ Some ps → result ≡ are_distinct_of ps }
{
    if text.len() <= SHORT {
        are_distinct_by_pairs(text)
    } else {
        are_distinct_by_marks(text)
    }
}

// The same, where each name is compared with all behind it.
fn are_distinct_by_pairs(text: &[u8]) -> bool
    ensures { (ps : List (List ℕ × List ℕ)) → pairs_in (length text.now) text.now ≡ Some ps → result ≡ are_distinct_of ps }
{
    let mut rest = text;
    while rest.len() > 0 {
        match next_written(rest) {
            None => return false,
            Some((name, _, after)) => {
                if has_name(name, after) {
                    return false;
                }
                rest = after;
            }
        }
    }
    true
}

// The same, where a name is compared with those before it only if its marks are there.
fn are_distinct_by_marks(text: &[u8]) -> bool
    ensures { (ps : List (List ℕ × List ℕ)) → pairs_in (length text.now) text.now ≡ Some ps → result ≡ are_distinct_of ps }
{
    let mut words = [0; WORDS];
    let mut rest = text;
    while rest.len() > 0 {
        match next_written(rest) {
            None => return false,
            Some((name, _, after)) => {
                if is_repeated(&mut words, name, &text[..text.len() - rest.len()]) {
                    return false;
                }
                rest = after;
            }
        }
    }
    true
}

// Whether a pair of the text, whose names are marked, has this name. Marks it too.
fn is_repeated(words: &mut [u64; WORDS], name: &[u8], text: &[u8]) -> bool
    ensures repeated { (ps : List (List ℕ × List ℕ)) → pairs_in (length text.now) text.now ≡ Some ps
        → IsTrue (are_marked words.old ps) → result ≡ has_name_of name.now ps }
    ensures marked { words.new ≡ marked words.old (crc_of name.now) }
{
    mark(words, crc32(name)) && has_name(name, text)
}

// The value of the pair of this name.
pub(crate) fn value_in<'a>(name: &[u8], text: &'a [u8]) -> Option<&'a [u8]>
    ensures { (ps : List (List ℕ × List ℕ)) → pairs_in (length text.now) text.now ≡ Some ps
        → option_map (λ value. value.now) result ≡ value_of name.now ps }
{
    let mut rest = text;
    while rest.len() > 0 {
        match next_written(rest) {
            None => return None,
            Some((other, value, after)) => {
                if name == other {
                    return Some(value);
                }
                rest = after;
            }
        }
    }
    None
}
