//! Properties: names and values, distinct names, in the order in which they are written.
//!
//! The written form is, for each property: name, byte 1, value, byte 2.

ghost use Rattle.std.specs.Prelude.{◌≡◌, ◌+◌, ◌≤◌, [], ◌++◌, length, string_bytes, vec_len, Some, option_map, IsTrue, IfOk, OnOk, OnErr};
ghost use Rattle.std.specs.Option.{SomeIff};
ghost use Rattle.std.specs.Str.{IsUtf8};
ghost use Rattle.std.specs.Vec.{vec_capacity};
ghost use Rattle.record_codec.specs.LaxProps.{first_piece as first_piece_of, read_props, ArePlacesIn};
ghost use Rattle.record_codec.specs.Props.{pair_text, written, lacks, is_pair, pairs_in, place_in, value_of, with_prop, without, AreProps, IsWritten};

use crate::append::{put, put_byte};
use crate::scan::{next_pair, pair_of, split_at_first};
use mq_bytes::Text;
use std::alloc::{AllocError, Global};
use std::collections::BTreeMap;
use std::marker::Model;

/// A list of properties. Contracts see the list of its names and values.
#[derive(Drop)]
pub struct Props {
    pairs: Vec<(Text, Text)>,
}

impl Model for Props {
    ghost use Rattle.std.specs.Prelude.{List, ℕ};
    ghost use Rattle.record_codec.specs.Props.{AreProps};

    ghost Value = { List (List ℕ × List ℕ) };

    ghost view = { λ p. p.pairs.items };

    ghost invariant = { λ p. AreProps p.pairs.items };
}

/// The most bytes that stored properties have, without the seal.
const STORED_MAX: usize = 32753;

impl Props {
    /// No properties.
    pub fn new(alloc: Global) -> Props
        ensures { result ≡ [] }
    {
        Props {
            pairs: Vec::new(alloc),
        }
    }

    /// The properties of a request's text. It is split at byte 2; a piece that isn't a name, one byte 1 and a value is dropped, and so is
    /// one whose name is empty. A repeated name keeps its first place and its last value.
    pub fn read(alloc: Global, text: &str) -> Result<Props, AllocError>
        ensures { IfOk result (λ props. props ≡ read_props text.now) }
    {
        let mut props = Props::new(alloc);
        let mut places = BTreeMap::new(alloc);
        let mut rest = text.as_bytes();
        while rest.len() > 0 {
            let (piece, after) = first_piece(rest);
            if let Some((name, value)) = pair_of(piece) {
                props.put_placed(alloc, &mut places, name, value)?;
            }
            rest = after;
        }
        Ok(props)
    }

    /// The value that the property of this name has in a request's text, as `Props::read` reads it: the last one counts.
    /// Takes no memory.
    pub fn value_in<'a>(text: &'a str, name: &str) -> Option<&'a str>
        ensures { option_map (λ value. value.now) result ≡ value_of name.now (read_props text.now) }
    {
        let mut last = None;
        let mut rest = text.as_bytes();
        while rest.len() > 0 {
            let (piece, after) = first_piece(rest);
            if let Some((other, value)) = pair_of(piece) {
                if name.as_bytes() == other {
                    last = Some(value);
                }
            }
            rest = after;
        }
        Some(str_of(last?))
    }

    /// The same properties, apart from these.
    pub fn copy(&self, alloc: Global) -> Result<Props, AllocError>
        ensures { IfOk result (λ copy. copy ≡ self.now) }
    {
        Ok(Props {
            pairs: copies_of(alloc, &self.pairs)?,
        })
    }

    /// The value of this name.
    pub fn get(&self, name: &str) -> Option<&str>
        ensures { option_map (λ value. value.now) result ≡ value_of name.now self.now }
    {
        for (other, value) in &self.pairs {
            if name == other.as_str() {
                return Some(value.as_str());
            }
        }
        None
    }

    /// Gives the name this value. A name that is there keeps its place, a new one goes to the end.
    pub fn put(&mut self, alloc: Global, name: &str, value: &str) -> Result<(), AllocError>
        requires { IsTrue (is_pair (name.now, value.now)) }
        ensures ok { OnOk result (self.new ≡ with_prop name.now value.now self.old) }
        ensures err { OnErr result (self.new ≡ self.old) }
    {
        let at = place_of(&self.pairs, name.as_bytes());
        self.put_at(alloc, at, name.as_bytes(), value.as_bytes())
    }

    // Puts the property by the places of the names, so that it isn't compared with each of them, and notes a new name's place.
    fn put_placed<'a>(
        &mut self,
        alloc: Global,
        places: &mut BTreeMap<&'a [u8], usize>,
        name: &'a [u8],
        value: &[u8],
    ) -> Result<(), AllocError>
        requires pair { IsTrue (is_pair (name.now, value.now)) }
        requires name { IsUtf8 name.now }
        requires value { IsUtf8 value.now }
        requires placed { ArePlacesIn self.old places.old }
        ensures ok { OnOk result (self.new ≡ with_prop name.now value.now self.old) }
        ensures places { OnOk result (ArePlacesIn self.new places.new) }
    {
        match places.get(name).copied() {
            Some(at) => self.put_at(alloc, Some(at), name, value),
            None => {
                places.insert(name, self.pairs.len())?;
                self.put_at(alloc, None, name, value)
            }
        }
    }

    // Puts the property where this is its name's place.
    fn put_at(
        &mut self,
        alloc: Global,
        at: Option<usize>,
        name: &[u8],
        value: &[u8],
    ) -> Result<(), AllocError>
        requires pair { IsTrue (is_pair (name.now, value.now)) }
        requires name { IsUtf8 name.now }
        requires value { IsUtf8 value.now }
        requires at { at ≡ place_in name.now self.old }
        ensures ok { OnOk result (self.new ≡ with_prop name.now value.now self.old) }
        ensures err { OnErr result (self.new ≡ self.old) }
    {
        put_pair(&mut self.pairs, alloc, at, name, value)
    }

    /// The written form, as the text of a request has it.
    pub fn text(&self, alloc: Global) -> Result<Text, AllocError>
        ensures { IfOk result (λ text. text ≡ written self.now) }
    {
        let mut text = String::new(alloc);
        for (name, value) in &self.pairs {
            push_pair(&mut text, name.as_str(), value.as_str())?;
        }
        Ok(Text::of(text))
    }

    /// Drops the name and its value, if the name is there.
    pub fn drop_name(&mut self, name: &str)
        ensures { self.new ≡ without name.now self.old }
    {
        drop_pair(&mut self.pairs, name);
    }

    /// How many bytes the written form has, if these and the seal's 14 are at most 32,767.
    pub(crate) fn written_len(&self) -> Option<usize>
        ensures { SomeIff result (length (written self.now) + 14 ≤ 32767) (length (written self.now)) }
    {
        let mut len = 0;
        for (name, value) in &self.pairs {
            len += name.as_str().len().min(STORED_MAX) + value.as_str().len().min(STORED_MAX) + 2;
            if len > STORED_MAX {
                return None;
            }
        }
        Some(len)
    }

    /// Appends the written form.
    pub(crate) fn put_into(&self, out: &mut Vec<u8>)
        requires { vec_len out.old + length (written self.now) ≤ vec_capacity out.old }
        ensures items { out.new.items ≡ out.old.items ++ written self.now }
        ensures len { vec_len out.new ≡ vec_len out.old + length (written self.now) }
        ensures room { vec_capacity out.old ≤ vec_capacity out.new }
        ensures props { AreProps self.now }
    {
        for (name, value) in &self.pairs {
            put(out, name.as_str().as_bytes());
            put_byte(out, 1);
            put(out, value.as_str().as_bytes());
            put_byte(out, 2);
        }
    }

    /// The properties of a text in written form.
    pub(crate) fn of_written(alloc: Global, text: &[u8]) -> Result<Props, AllocError>
        requires { IsWritten text.now }
        ensures { IfOk result (λ props. pairs_in (length text.now) text.now ≡ Some props) }
    {
        let mut pairs = Vec::new(alloc);
        let mut rest = text;
        while let Some((name, value, after)) = next_pair(rest) {
            pairs.push((text_of(alloc, name)?, text_of(alloc, value)?))?;
            rest = after;
        }
        Ok(Props { pairs })
    }
}

// Appends the written form of one property.
fn push_pair(text: &mut String, name: &str, value: &str) -> Result<(), AllocError>
    ensures { OnOk result (string_bytes text.new ≡ string_bytes text.old ++ pair_text (name.now, value.now)) }
{
    text.push_str(name)?;
    text.push_str("\u{1}")?;
    text.push_str(value)?;
    text.push_str("\u{2}")
}

fn copies_of(alloc: Global, pairs: &[(Text, Text)]) -> Result<Vec<(Text, Text)>, AllocError>
    ensures { IfOk result (λ copies. copies.items ≡ pairs.now) }
{
    let mut copies = Vec::with_capacity(alloc, pairs.len())?;
    for (name, value) in pairs {
        copies.push((
            Text::copy(alloc, name.as_str())?,
            Text::copy(alloc, value.as_str())?,
        ))?;
    }
    Ok(copies)
}

fn put_pair(
    pairs: &mut Vec<(Text, Text)>,
    alloc: Global,
    at: Option<usize>,
    name: &[u8],
    value: &[u8],
) -> Result<(), AllocError>
    requires name { IsUtf8 name.now }
    requires value { IsUtf8 value.now }
    requires at { at ≡ place_in name.now pairs.old.items }
    ensures ok { OnOk result (pairs.new.items ≡ with_prop name.now value.now pairs.old.items) }
    ensures err { OnErr result (pairs.new.items ≡ pairs.old.items) }
{
    let value = text_of(alloc, value)?;
    match at {
        Some(at) => {
            let pair = &mut pairs[at];
            pair.1 = value;
        }
        None => {
            let name = text_of(alloc, name)?;
            pairs.push((name, value))?;
        }
    }
    Ok(())
}

fn place_of(pairs: &[(Text, Text)], name: &[u8]) -> Option<usize>
    ensures { result ≡ place_in name.now pairs.now }
{
    for (at, pair) in pairs.iter().enumerate() {
        if name == pair.0.as_str().as_bytes() {
            return Some(at);
        }
    }
    None
}

fn drop_pair(pairs: &mut Vec<(Text, Text)>, name: &str)
    ensures { pairs.new.items ≡ without name.now pairs.old.items }
{
    pairs.retain(|pair| name != pair.0.as_str());
}

/// The piece before the first byte 2, and what stands behind it.
fn first_piece(text: &[u8]) -> (&[u8], &[u8])
    ensures split { (result.0.now, result.1.now) ≡ first_piece_of text.now }
    ensures piece { IsTrue (lacks 2 result.0.now) }
{
    match split_at_first(2, text) {
        Some(parts) => parts,
        None => (text, &text[text.len()..]),
    }
}

/// These bytes as a text.
pub(crate) fn text_of(alloc: Global, bytes: &[u8]) -> Result<Text, AllocError>
    requires { IsUtf8 bytes.now }
    ensures { IfOk result (λ text. text ≡ bytes.now) }
{
    Text::copy(alloc, str_of(bytes))
}

fn str_of(bytes: &[u8]) -> &str
    requires { IsUtf8 bytes.now }
    ensures { result.now ≡ bytes.now }
{
    match std::str::from_utf8(bytes) {
        Ok(text) => text,
        Err(_) => unreachable!(),
    }
}
