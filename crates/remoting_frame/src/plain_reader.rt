//! Reads a header in JSON form in one pass over its text, where it is plain, as those of most senders are:
//!
//! - one object, which has the members of the table in `json_reader`, each whole number written as it is told in decimal;
//! - `remark` is a text, and `extFields` comes once and has texts alone, whose names come in byte order or are few;
//! - any other member is a text without escapes;
//! - names have no escapes, and the escapes of texts stand for characters below 0x80.
//!
//! What is not plain is no fault: `json_reader` then looks at the tree of the whole text. So it does where memory runs out.

ghost use Rattle.std.specs.Prelude.{◌≡◌, ◌∷◌, ℕ, List, length, Some, IfSome, OnSome};
ghost use Rattle.json.specs.Token as token;
ghost use Rattle.serde_json.specs.Data.{Data, Members, number, string, object, no_members, put};
ghost use Rattle.serde_json.specs.Find.{of_integer};
ghost use Rattle.remoting_frame.specs.Binary.{put_pair};
ghost use Rattle.remoting_frame.specs.Head.{IsInOrder};
ghost use Rattle.remoting_frame.specs.Json.{whole, header_of, json_header};
ghost use Rattle.remoting_frame.specs.Written.{texts};
ghost use Rattle.remoting_frame.specs.Plain.{BeginsWith, members_behind, pairs_found, Says};

use crate::binary_reader::{FEW, moves_few};
use crate::fields::Fields;
use crate::header::Header;
use crate::scanner::Scanner;
use mq_bytes::Text;
use std::alloc::Global;

// What the members so far say. Of a name that comes twice, but `extFields`, the last value counts.
#[derive(Drop)]
struct Found {
    code: Option<i32>,
    opaque: Option<i32>,
    flag: i32,
    version: i32,
    remark: Text,
    ext: Option<Fields>,
}

fn take_number(scanner: &mut Scanner<'_>) -> Option<i32>
    ensures begins { IfSome result (λ z. BeginsWith 126 scanner.old (number (of_integer z)) scanner.new) }
    ensures whole { IfSome result (λ z. whole (number (of_integer z)) ≡ Some z) }
{
    scanner.number()
}

#[inline(always)]
fn take_text(alloc: Global, scanner: &mut Scanner<'_>) -> Option<Text>
    ensures { IfSome result (λ text. BeginsWith 126 scanner.old (string text) scanner.new) }
{
    if let Some(text) = scanner.string() {
        return Some(Text::of(String::from_str(alloc, text).ok()?));
    }
    Some(Text::of(scanner.escaped_string(alloc)?))
}

// Passes the value of a member that says nothing here.
#[inline(always)]
fn pass_value(scanner: &mut Scanner<'_>) -> Option<()>
    ensures { OnSome result ((d : Data) × BeginsWith 126 scanner.old d scanner.new) }
{
    scanner.string()?;
    Some(())
}

// Puts the pair of this name, whose value comes next.
#[inline(always)]
fn put_value(alloc: Global, scanner: &mut Scanner<'_>, name: &str, ext: &mut Fields) -> Option<()>
    requires { IsInOrder ext.old }
    ensures { OnSome result ((s : List ℕ) × (scanner.old ≡ token.string s ∷ scanner.new)
        × (ext.new ≡ put_pair ext.old (name.now, s))) }
{
    if !moves_few(name, ext) {
        return None;
    }
    if let Some(text) = scanner.string() {
        return ext.put(name, text).ok();
    }
    let text = scanner.escaped_string(alloc)?;
    ext.put(name, text.as_str()).ok()
}

// The pairs behind the brace that opens their object, which have so many bytes at most.
fn pairs_behind(alloc: Global, scanner: &mut Scanner<'_>, room: usize) -> Option<Fields>
    ensures pairs { IfSome result (λ ext.
        members_behind no_members 125 (length scanner.old) scanner.old ≡ Some (texts ext, scanner.new)) }
    ensures ordered { IfSome result IsInOrder }
{
    let Ok(mut ext) = Fields::with_room(alloc, FEW, room) else {
        return None;
    };
    'members: while let Some(name) = scanner.name()? {
        put_value(alloc, scanner, name, &mut ext)?;
    }
    Some(ext)
}

#[inline(always)]
fn take_pairs(alloc: Global, scanner: &mut Scanner<'_>, room: usize) -> Option<Fields>
    ensures pairs { IfSome result (λ ext. BeginsWith 126 scanner.old (object (texts ext)) scanner.new) }
    ensures ordered { IfSome result IsInOrder }
{
    scanner.open()?;
    pairs_behind(alloc, scanner, room)
}

// Takes the value of the member that has this name.
#[inline(always)]
fn take_member(
    alloc: Global,
    scanner: &mut Scanner<'_>,
    room: usize,
    name: &str,
    found: &mut Found,
) -> Option<()>
    ensures { OnSome result ((d : Data) × BeginsWith 126 scanner.old d scanner.new
        × ((ms : Members) → Says found.old ms → Says found.new (put name.now d ms))) }
{
    match name {
        "code" => found.code = Some(take_number(scanner)?),
        "opaque" => found.opaque = Some(take_number(scanner)?),
        "flag" => found.flag = take_number(scanner)?,
        "version" => found.version = take_number(scanner)?,
        "remark" => found.remark = take_text(alloc, scanner)?,
        "extFields" => {
            if found.ext.is_some() {
                return None;
            }
            found.ext = Some(take_pairs(alloc, scanner, room)?);
        }
        _ => pass_value(scanner)?,
    }
    Some(())
}

// What the members behind the brace that opens the header say.
fn members_from(alloc: Global, scanner: &mut Scanner<'_>, room: usize) -> Option<Found>
    ensures { IfSome result (λ found. (ms : Members) × Says found ms
        × (members_behind no_members 126 (length scanner.old) scanner.old ≡ Some (ms, scanner.new))) }
{
    let mut found = Found {
        code: None,
        opaque: None,
        flag: 0,
        version: 0,
        remark: Text::of(String::new(alloc)),
        ext: None,
    };
    'members: while let Some(name) = scanner.name()? {
        take_member(alloc, scanner, room, name, &mut found)?;
    }
    Some(found)
}

fn pairs_or_none(alloc: Global, ext: Option<Fields>) -> Fields
    ensures { result ≡ pairs_found ext }
{
    match ext {
        Some(ext) => ext,
        None => Fields::new(alloc),
    }
}

fn header_with(code: i32, version: i32, opaque: i32, flag: i32, remark: Text, ext: Fields) -> Header
    requires { IsInOrder ext }
    ensures { result ≡ record { code = code; version = version; opaque = opaque; flag = flag; remark = remark; ext = ext } }
{
    Header {
        code,
        version,
        opaque,
        flag,
        remark,
        ext,
    }
}

// The header that the members make.
fn header_from(alloc: Global, found: Found) -> Option<Header>
    requires { IfSome found.ext IsInOrder }
    ensures { IfSome result (λ h. (ms : Members) → Says found ms → header_of (object ms) ≡ Some h) }
{
    let Found {
        code,
        opaque,
        flag,
        version,
        remark,
        ext,
    } = found;
    let ext = pairs_or_none(alloc, ext);
    Some(header_with(code?, version, opaque?, flag, remark, ext))
}

// The header that a text is, where it is plain.
fn header_in(alloc: Global, text: &str) -> Option<Header>
    ensures { IfSome result (λ h. json_header text.now ≡ Some h) }
{
    let mut scanner = Scanner::new(text);
    scanner.open()?;
    let found = members_from(alloc, &mut scanner, text.len())?;
    if !scanner.is_over() {
        return None;
    }
    header_from(alloc, found)
}

/// The header that the bytes are in JSON form, where it is plain.
pub(crate) fn read_plain(alloc: Global, bytes: &[u8]) -> Option<Header>
    ensures { IfSome result (λ h. json_header bytes.now ≡ Some h) }
{
    let Ok(text) = str::from_utf8(bytes) else {
        return None;
    };
    header_in(alloc, text)
}
