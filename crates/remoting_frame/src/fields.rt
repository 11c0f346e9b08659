//! The fields of a header. Their names and values stand in one text, each value behind its name, so that many fields
//! take two pieces of memory.

ghost use Rattle.std.specs.Prelude.{◌≡◌, ℕ, List, ◌+◌, ◌<◌, ◌≤◌, ◌++◌, ◌∷◌, [], length, take, drop, string_bytes};
ghost use Rattle.std.specs.Prelude.{get_or, slice_index_or, OnOk, OnErr, IfOk, IfSome};
ghost use Rattle.std.specs.Str.{IsUtf8, bytes_eq};
ghost use Rattle.mq_bytes.specs.Decimal.{digits_of};
ghost use Rattle.remoting_frame.specs.Fields.{span_behind};
ghost use Rattle.remoting_frame.specs.Head.{IsInOrder};
ghost use Rattle.remoting_frame.specs.Binary.{put_pair};

use itoa::Buffer;
use std::alloc::{AllocError, Global};
use std::cmp::Ordering;
use std::marker::Model;

// How many bytes the names and values have together at most: a span's numbers have 32 bits.
const MOST: usize = 0xFFFF_FFFF;

// Where the name of a field begins, where its value does, and where that ends.
#[derive(Clone, Copy)]
struct Span {
    name: u32,
    value: u32,
    end: u32,
}

/// The fields of a header: names with their values, in the order in which they were pushed, or in that of their names where
/// they were put.
#[derive(Drop)]
pub struct Fields {
    text: String,
    spans: Vec<Span>,
}

impl Model for Fields {
    ghost use Rattle.std.specs.Prelude.{ℕ, List, All, string_bytes};
    ghost use Rattle.remoting_frame.specs.Fields.{fields_at, IsSpan};

    ghost Value = { List (List ℕ × List ℕ) };

    ghost view = { λ f. fields_at (string_bytes f.text) f.spans.items };

    ghost invariant = { λ f. All (IsSpan (string_bytes f.text)) f.spans.items };
}

// The span of a name and a value behind a text that has `start` bytes, if 32 bits suffice.
fn span_from(start: usize, name: &str, value: &str) -> Option<Span>
    ensures { IfSome result (λ span. span ≡ span_behind start name.now value.now) }
{
    if start > MOST || name.len() > MOST || value.len() > MOST {
        return None;
    }
    let between = start + name.len();
    let end = between + value.len();
    if end > MOST {
        return None;
    }
    Some(Span {
        name: start as u32,
        value: between as u32,
        end: end as u32,
    })
}

// Appends both or neither.
#[inline(always)]
fn push_both(text: &mut String, name: &str, value: &str) -> Result<(), AllocError>
    ensures ok { OnOk result (string_bytes text.new ≡ string_bytes text.old ++ (name.now ++ value.now)) }
    ensures err { OnErr result (string_bytes text.new ≡ string_bytes text.old) }
{
    text.reserve(name.len() + value.len())?;
    text.push_str(name)?;
    text.push_str(value)?;
    Ok(())
}

// Puts a span instead of those from one index up to another, of which there is one at most.
fn put_span(spans: &mut Vec<Span>, from: usize, to: usize, span: Span) -> Result<(), AllocError>
    requires { (from ≤ to) × (to ≤ from + 1) × (to ≤ length spans.old.items) }
    ensures ok { OnOk result (spans.new.items ≡ take from spans.old.items ++ span ∷ drop to spans.old.items) }
    ensures err { OnErr result (spans.new.items ≡ spans.old.items) }
{
    if from < to {
        spans[from] = span;
        return Ok(());
    }
    // Mostly so, and cheaper than an insertion.
    if from == spans.len() {
        spans.push(span)?;
        return Ok(());
    }
    spans.insert(from, span)?;
    Ok(())
}

// Whether two names are the same. Their lengths and last bytes are looked at first, as most that are compared differ there.
#[inline(always)]
fn is_same(asked: &[u8], named: &[u8]) -> bool
    ensures { result ≡ bytes_eq asked.now named.now }
{
    let size = asked.len();
    if size != named.len() {
        return false;
    }
    if size > 0 && asked[size - 1] != named[size - 1] {
        return false;
    }
    asked == named
}

impl Fields {
    /// No fields, and no memory.
    pub fn new(alloc: Global) -> Fields
        ensures { result ≡ [] }
    {
        Fields {
            text: String::new(alloc),
            spans: Vec::new(alloc),
        }
    }

    /// No fields, with room for so many of them, whose names and values have so many bytes together.
    pub fn with_room(alloc: Global, fields: usize, bytes: usize) -> Result<Fields, AllocError>
        ensures { IfOk result (λ made. made ≡ []) }
    {
        let spans = Vec::with_capacity(alloc, fields)?;
        let text = String::with_capacity(alloc, bytes)?;
        Ok(Fields { text, spans })
    }

    /// Appends a field. Names and values of more than 4,294,967,295 bytes together are refused as if memory ran out.
    pub fn push(&mut self, name: &str, value: &str) -> Result<(), AllocError>
        ensures ok { OnOk result (self.new ≡ self.old ++ (name.now, value.now) ∷ []) }
        ensures err { OnErr result (self.new ≡ self.old) }
    {
        let Some(span) = span_from(self.text.len(), name, value) else {
            return Err(AllocError);
        };
        self.spans.reserve(1)?;
        push_both(&mut self.text, name, value)?;
        self.spans.push_reserved(span);
        Ok(())
    }

    /// Appends a field whose value is a number in decimal.
    pub fn push_number(&mut self, name: &str, number: u64) -> Result<(), AllocError>
        ensures ok { OnOk result (self.new ≡ self.old ++ (name.now, digits_of number) ∷ []) }
        ensures err { OnErr result (self.new ≡ self.old) }
    {
        self.push(name, Buffer::new().format(number))
    }

    fn name_at(&self, index: usize) -> &str
        requires { index < length self.now }
        ensures { result.now ≡ (get_or self.now index ([], [])).0 }
    {
        let span = self.spans[index];
        &self.text.as_str()[span.name as usize..span.value as usize]
    }

    // Instead of which fields one of this name is put, where they are in order: those from one index up to another. It is
    // looked for from the end, as names mostly ascend.
    fn spot_of(&self, name: &str) -> (usize, usize)
        requires { IsInOrder self.now }
        ensures within { (result.0 ≤ result.1) × (result.1 ≤ result.0 + 1) × (result.1 ≤ length self.now) }
        ensures spot { (value : List ℕ) →
            put_pair self.now (name.now, value) ≡ take result.0 self.now ++ (name.now, value) ∷ drop result.1 self.now }
    {
        let mut at = self.len();
        while at > 0 {
            match name.cmp(self.name_at(at - 1)) {
                Ordering::Less => at -= 1,
                Ordering::Equal => return (at - 1, at),
                Ordering::Greater => return (at, at),
            }
        }
        (0, 0)
    }

    /// Puts a field at the place that its name has among names in byte order, or gives the field of this name the value.
    /// Names and values of more than 4,294,967,295 bytes together, those that were replaced among them, are refused as if
    /// memory ran out.
    pub(crate) fn put(&mut self, name: &str, value: &str) -> Result<(), AllocError>
        requires { IsInOrder self.old }
        ensures ok { OnOk result (self.new ≡ put_pair self.old (name.now, value.now)) }
        ensures err { OnErr result (self.new ≡ self.old) }
    {
        let Some(span) = span_from(self.text.len(), name, value) else {
            return Err(AllocError);
        };
        let (from, to) = self.spot_of(name);
        self.spans.reserve(1)?;
        push_both(&mut self.text, name, value)?;
        put_span(&mut self.spans, from, to, span)?;
        Ok(())
    }

    /// How many fields there are.
    pub fn len(&self) -> usize
        ensures { result ≡ length self.now }
    {
        self.spans.len()
    }

    /// Whether a field has this name.
    pub fn is_named(&self, index: usize, name: &str) -> bool
        requires { index < length self.now }
        ensures { result ≡ bytes_eq name.now (get_or self.now index ([], [])).0 }
    {
        // As bytes, since most fields that are asked have another name: no bounds of characters are looked for.
        let span = self.spans[index];
        let named = &self.text.as_bytes()[span.name as usize..span.value as usize];
        is_same(name.as_bytes(), named)
    }

    /// The name and the value of a field.
    pub fn at(&self, index: usize) -> (&str, &str)
        requires { index < length self.now }
        ensures field { (result.0.now, result.1.now) ≡ slice_index_or self.now index (result.0.now, result.1.now) }
        ensures name { IsUtf8 result.0.now }
        ensures value { IsUtf8 result.1.now }
    {
        let span = self.spans[index];
        let text = self.text.as_str();
        let between = span.value as usize;
        (
            &text[span.name as usize..between],
            &text[between..span.end as usize],
        )
    }
}
