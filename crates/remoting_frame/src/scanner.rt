//! Reads the tokens of a JSON text one after another, as far as they are plain: names and strings are borrowed from the
//! text, and numbers are whole and of 32 bits.
//!
//! What it doesn't read may still be JSON: arrays, other numbers, `true`, `false` and null are left to `serde_json`.

ghost use Rattle.std.specs.Prelude.{◌≡◌, ◌<◌, ◌≤◌, ◌∷◌, [], length, drop, false, IsTrue, FitsSigned, string_bytes};
ghost use Rattle.std.specs.Prelude.{Some, None, IfSome, OnSome, option_map};
ghost use Rattle.std.specs.Int.{w32};
ghost use Rattle.json.specs.Json.{read_key};
ghost use Rattle.json.specs.Lex.{lex, between, token, colon, begins_colon, tokens};
ghost use Rattle.json.specs.Token.{begin_object, string, number};
ghost use Rattle.mq_bytes.specs.Decimal.{decimal};
ghost use Rattle.remoting_frame.specs.Scanning.{tokens_from};

use crate::escapes::escaped_at;
use crate::json_bytes::{byte_at, past_spaces, string_at};
use crate::plain_numbers::number_at;
use std::alloc::Global;
use std::marker::Model;

/// A text that is being read. It is seen as the tokens that are still to come.
#[derive(Drop)]
pub(crate) struct Scanner<'a> {
    text: &'a str,
    at: usize,
    // Whether a whole value ends at the place, so that a comma or a brace has to follow.
    is_behind: bool,
}

impl<'a> Model for Scanner<'a> {
    ghost use Rattle.std.specs.Prelude.{List, ◌≤◌, length, drop};
    ghost use Rattle.json.specs.Token.{Token, tokens_code};
    ghost use Rattle.remoting_frame.specs.Scanning.{tokens_from};

    ghost Value = { List Token };

    ghost coded = { tokens_code };

    ghost view = { λ s. tokens_from s.is_behind (drop s.at s.text.now) };

    ghost invariant = { λ s. s.at ≤ length s.text.now };
}

// Where a byte stands behind the spaces at a place, the place behind it.
#[inline(always)]
fn behind(text: &str, from: usize, byte: u8) -> Option<usize>
    requires place { from ≤ length text.now }
    requires byte { 0 < byte }
    ensures rest { IfSome result (λ at. lex between (drop from text.now) ≡ lex between (byte ∷ drop at text.now)) }
    ensures bound { IfSome result (λ at. at ≤ length text.now) }
{
    let bytes = text.as_bytes();
    let at = past_spaces(bytes, from);
    if byte_at(bytes, at) != byte {
        return None;
    }
    Some(at + 1)
}

// The place of the comma or the brace that stands behind the spaces at a place. Behind a string no colon stands there,
// so the string is no key.
#[inline(always)]
fn value_end(text: &str, from: usize) -> Option<usize>
    requires { from ≤ length text.now }
    ensures same { IfSome result (λ at. lex between (drop from text.now) ≡ lex between (drop at text.now)) }
    ensures colon { IfSome result (λ at. begins_colon (lex between (drop at text.now)) ≡ false) }
    ensures bound { IfSome result (λ at. at ≤ length text.now) }
{
    let bytes = text.as_bytes();
    let at = past_spaces(bytes, from);
    let byte = byte_at(bytes, at);
    if byte != b',' && byte != b'}' {
        return None;
    }
    Some(at)
}

// The name behind the quote at a place, and where what follows its colon begins.
#[inline(always)]
fn name_at(text: &str, from: usize) -> Option<(&str, usize)>
    requires { from ≤ length text.now }
    ensures key { IfSome result (λ r.
        lex between (drop from text.now) ≡ token (string r.0.now) ∷ colon ∷ lex between (drop r.1 text.now)) }
    ensures bound { IfSome result (λ r. r.1 ≤ length text.now) }
{
    if byte_at(text.as_bytes(), from) != b'"' {
        return None;
    }
    let (name, end) = string_at(text, from + 1)?;
    let value = behind(text, end, b':')?;
    Some((name, value))
}

impl<'a> Scanner<'a> {
    /// The beginning of a text.
    pub(crate) fn new(text: &'a str) -> Scanner<'a>
        ensures { result ≡ tokens text.now }
    {
        Scanner {
            text,
            at: 0,
            is_behind: false,
        }
    }

    /// Takes the brace that opens an object.
    #[inline(always)]
    pub(crate) fn open(&mut self) -> Option<()>
        ensures { OnSome result (self.old ≡ begin_object ∷ self.new) }
    {
        if self.is_behind {
            return None;
        }
        self.at = behind(self.text, self.at, b'{')?;
        Some(())
    }

    /// The name of the next member, or none at the brace that closes the object.
    #[inline(always)]
    pub(crate) fn name(&mut self) -> Option<Option<&'a str>>
        ensures { IfSome result (λ name. read_key self.old ≡ Some (option_map (λ s. s.now) name, self.new)) }
    {
        let bytes = self.text.as_bytes();
        let mut at = past_spaces(bytes, self.at);
        let first = byte_at(bytes, at);
        if first == b'}' {
            self.at = at + 1;
            self.is_behind = true;
            return Some(None);
        }
        if self.is_behind {
            if first != b',' {
                return None;
            }
            at = past_spaces(bytes, at + 1);
        }
        let (name, value) = name_at(self.text, at)?;
        self.at = value;
        self.is_behind = false;
        Some(Some(name))
    }

    /// A string without escapes. Where none is next, nothing is taken.
    #[inline(always)]
    pub(crate) fn string(&mut self) -> Option<&'a str>
        ensures some { IfSome result (λ s. self.old ≡ string s.now ∷ self.new) }
        ensures none { result ≡ None → self.new ≡ self.old }
    {
        if self.is_behind {
            return None;
        }
        let from = behind(self.text, self.at, b'"')?;
        let (text, rest) = string_at(self.text, from)?;
        let end = value_end(self.text, rest)?;
        self.at = end;
        self.is_behind = true;
        Some(text)
    }

    /// A string that may have escapes.
    pub(crate) fn escaped_string(&mut self, alloc: Global) -> Option<String>
        ensures { IfSome result (λ s. self.old ≡ string (string_bytes s) ∷ self.new) }
    {
        if self.is_behind {
            return None;
        }
        let from = behind(self.text, self.at, b'"')?;
        let (text, rest) = escaped_at(alloc, self.text, from)?;
        let end = value_end(self.text, rest)?;
        self.at = end;
        self.is_behind = true;
        Some(text)
    }

    /// A whole number of 32 bits.
    #[inline(always)]
    pub(crate) fn number(&mut self) -> Option<i32>
        ensures value { IfSome result (λ z. self.old ≡ number (decimal z) ∷ self.new) }
        ensures fits { IfSome result (FitsSigned w32) }
    {
        if self.is_behind {
            return None;
        }
        let from = past_spaces(self.text.as_bytes(), self.at);
        let (value, end) = number_at(self.text, from)?;
        self.at = end;
        self.is_behind = true;
        Some(value)
    }

    /// Whether nothing but spaces is left.
    #[inline(always)]
    pub(crate) fn is_over(&self) -> bool
        ensures { IsTrue result → self.now ≡ [] }
    {
        past_spaces(self.text.as_bytes(), self.at) == self.text.len()
    }
}
