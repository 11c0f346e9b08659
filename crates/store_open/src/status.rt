//! How a run of the program ended, as its exit status tells it.
//!
//! | code | name     |                                                                                      |
//! |-----:|----------|--------------------------------------------------------------------------------------|
//! |    0 |          | the source ended between two frames, and nothing is pending                          |
//! |    1 |          | usage: `place` is the first word that doesn't fit                                    |
//! |    2 |          | no frame stands at `place` of the stream, or the stream passed 2^62 bytes            |
//! |    3 |          | the source failed                                                                    |
//! |    4 |          | the sink failed                                                                      |
//! |    5 |          | the disk failed                                                                      |
//! |    6 | a file   | foreign: this file stands without a format, or `format` is another than asked for; or `gen` meets `records` |
//! |    7 |          | want of memory                                                                       |
//! |    8 | a file   | damaged: no broker leaves this file as it is; `place` is the physical offset, or 0 of a kept text |
//! |    9 |          | `serve`: no thread can be started, and nothing was served                             |
//! |   10 | a device | the clock, the keep or the door failed                                               |

ghost use Rattle.std.specs.Prelude.{◌≡◌, ◌≢◌, ◌⊎◌, []};
ghost use Rattle.store_open.specs.Statuses.{FitsTable};

use mq_bytes::Text;
use std::alloc::Global;

/// How a run ended. `place` is 0 and `name` is empty where the code names none.
#[derive(Debug, Drop)]
pub struct Status {
    pub code: u8,
    pub place: u64,
    pub name: Text,
}

impl Status {
    /// A status that names nothing.
    pub fn plain(alloc: Global, code: u8) -> Status
        ensures code { result.code ≡ code }
        ensures place { result.place ≡ 0 }
        ensures name { result.name ≡ [] }
        ensures table { FitsTable result }
    {
        Status::at(alloc, code, 0)
    }

    /// A status with a place.
    pub fn at(alloc: Global, code: u8, place: u64) -> Status
        ensures code { result.code ≡ code }
        ensures place { result.place ≡ place }
        ensures name { result.name ≡ [] }
        ensures table { (code ≡ 1) ⊎ (code ≡ 2) → FitsTable result }
    {
        Status {
            code,
            place,
            name: Text::of(String::new(alloc)),
        }
    }

    /// A status with a name, or 7 where there is no memory for it.
    pub fn named(alloc: Global, code: u8, name: &str) -> Status
        ensures code { (result.code ≡ code) ⊎ (result.code ≡ 7) }
        ensures place { result.place ≡ 0 }
        ensures name { result.code ≢ 7 → result.name ≡ name.now }
        ensures none { code ≢ 7 → result.code ≡ 7 → result.name ≡ [] }
        ensures table { (code ≡ 6) ⊎ (code ≡ 10) → FitsTable result }
    {
        match String::from_str(alloc, name) {
            Ok(name) => Status {
                code,
                place: 0,
                name: Text::of(name),
            },
            Err(_) => Status::plain(alloc, 7),
        }
    }

    /// The status of damage: this file has it, at this place.
    pub fn damaged(place: u64, name: Text) -> Status
        ensures code { result.code ≡ 8 }
        ensures place { result.place ≡ place }
        ensures name { result.name ≡ name }
        ensures table { FitsTable result }
    {
        Status {
            code: 8,
            place,
            name,
        }
    }
}
