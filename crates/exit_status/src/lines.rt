//! The line that a run prints where its status isn't 0: the program's name, what happened and where, the status, and what to do.

ghost use Rattle.std.specs.Prelude.{◌≡◌, ◌≤◌, ◌++◌, IfOk, string_bytes};
ghost use Rattle.mq_bytes.specs.Decimal.{digits_of};
ghost use Rattle.exit_status.specs.Lines.{code_of, device_text, folder_of, line_text, path_text, what_text, told};
ghost use Rattle.exit_status.specs.declared.end.End.{End as TheEnd};

use crate::end::End;
use itoa::Buffer;
use std::alloc::{AllocError, Global};
use store_open::Status;

/// Where a run was: the store's folder, the address at which it listens, and why a device failed, where that is known.
#[derive(Debug, Clone, Copy)]
pub struct Scene<'a> {
    pub store: &'a str,
    pub address: &'a str,
    pub cause: Option<&'a str>,
}

// Three texts, one after another.
fn three(alloc: Global, one: &str, two: &str, three: &str) -> Result<String, AllocError>
    ensures { IfOk result (λ text. string_bytes text ≡ (one.now ++ two.now) ++ three.now) }
{
    let mut text = String::from_str(alloc, one)?;
    text.push_str(two)?;
    text.push_str(three)?;
    Ok(text)
}

// A number between two texts.
fn numbered(alloc: Global, front: &str, number: u64, rest: &str) -> Result<String, AllocError>
    ensures { IfOk result (λ text. string_bytes text ≡ (front.now ++ digits_of number) ++ rest.now) }
{
    three(alloc, front, Buffer::new().format(number), rest)
}

// The folder in the store's folder that has a file of this name: the texts kept beside the log are in one of their own.
fn folder_in_store(name: &str) -> &'static str
    ensures { result.now ≡ folder_of name.now }
{
    if name == "format" {
        return "/config/";
    }
    if name == "consumerOffset.json" {
        return "/config/";
    }
    if name == "topics.json" {
        return "/config/";
    }
    "/"
}

// The path of a file of the store.
fn path_of(alloc: Global, scene: &Scene, name: &str) -> Result<String, AllocError>
    ensures { IfOk result (λ text. string_bytes text ≡ path_text scene.now name.now) }
{
    three(alloc, scene.store, folder_in_store(name), name)
}

// The cause where it is known, and else where it happened.
fn cause_or<'a>(scene: &Scene<'a>, place: &'a str) -> &'a str
    ensures { result.now ≡ told scene.now.cause place.now }
{
    match scene.cause {
        Some(cause) => cause,
        None => place,
    }
}

// Where the device of this name failed, or why.
fn device_of<'a>(scene: &Scene<'a>, name: &str) -> &'a str
    ensures { result.now ≡ device_text scene.now name.now }
{
    if name == "keep" {
        return cause_or(scene, scene.store);
    }
    if name == "clock" {
        return "no time is to be had";
    }
    scene.address
}

// What happened.
fn what_of(alloc: Global, end: End, status: &Status, scene: &Scene) -> Result<String, AllocError>
    ensures { IfOk result (λ text. string_bytes text ≡ what_text end status.now scene.now) }
{
    match end {
        End::Done => String::from_str(alloc, "it ended"),
        End::Usage => numbered(alloc, "argument ", status.place, " doesn't fit"),
        End::BadFrame => numbered(
            alloc,
            "no frame begins at byte ",
            status.place,
            " of the input",
        ),
        End::Source => String::from_str(alloc, "standard input failed"),
        End::Sink => String::from_str(alloc, "standard output failed"),
        End::Disk => three(alloc, "the disk failed", ": ", cause_or(scene, scene.store)),
        End::Foreign => {
            let path = path_of(alloc, scene, status.name.as_str())?;
            three(
                alloc,
                path.as_str(),
                " is not of this program",
                ", or of a store of other sizes than were asked for",
            )
        }
        End::Memory => String::from_str(alloc, "out of memory"),
        End::Damaged => {
            let path = path_of(alloc, scene, status.name.as_str())?;
            let damaged = three(alloc, path.as_str(), " is damaged at", " ")?;
            numbered(alloc, damaged.as_str(), status.place, "")
        }
        End::Threads => String::from_str(alloc, "no thread can be started"),
        End::Device => {
            let device = three(alloc, "the ", status.name.as_str(), " failed: ")?;
            three(
                alloc,
                device.as_str(),
                device_of(scene, status.name.as_str()),
                "",
            )
        }
    }
}

/// The line of a run that ended with this status. It names the code in digits, and the place and the name where the code has one.
pub fn status_line(alloc: Global, status: &Status, scene: &Scene) -> Result<String, AllocError>
    ensures { IfOk result (λ line. (end : TheEnd) × (status.now.code ≤ 10 → code_of end ≡ status.now.code)
        × (string_bytes line ≡ line_text end status.now scene.now)) }
{
    let end = End::of(status.code);
    let what = what_of(alloc, end, status, scene)?;
    let front = three(alloc, "mq_broker: ", what.as_str(), " (status ")?;
    let code = numbered(alloc, front.as_str(), u64::from(status.code), "): ")?;
    three(alloc, code.as_str(), end.advice(), "")
}
