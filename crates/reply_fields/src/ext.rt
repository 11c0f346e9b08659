//! The fields of a reply. Those of a send are kept as numbers, and are made when the reply is written: a broker that
//! answers makes no text, and takes no memory for one.
//!
//! | name          |                                        |
//! |---------------|----------------------------------------|
//! | `msgId`       | the id that the broker gave the record |
//! | `queueId`     | its queue                              |
//! | `queueOffset` | its queue offset                       |

ghost use Rattle.std.specs.Prelude.{◌≡◌, ◌<◌, ◌≤◌, ◌^◌, [], nat_le, IfOk, IfSome, OnOk};
ghost use Rattle.remoting_frame.specs.Head.{IsInOrder, pairs_size};
ghost use Rattle.reply_fields.specs.Sent.{sent_fields as sent_fields_of, fields_of_sent};

use mq_bytes::message_id;
use remoting_frame::Fields;
use std::alloc::{AllocError, Global};
use std::marker::Model;

/// Where the record of a send stands.
#[derive(Clone, Copy)]
pub struct Sent {
    /// The address and the port of the broker that has it.
    pub host: [u8; 8],
    /// Its physical offset.
    pub place: u64,
    pub queue: u32,
    pub queue_offset: u64,
}

// What the fields are made of.
#[derive(Drop)]
enum Kept {
    Texts(Fields),
    Numbers(Sent),
}

/// The fields of a reply: names with their values.
#[derive(Drop)]
pub struct Ext {
    kept: Kept,
}

impl Model for Ext {
    ghost use Rattle.std.specs.Prelude.{ℕ, List};
    ghost use Rattle.reply_fields.specs.Sent.{fields_kept, IsShortKept};

    ghost Value = { List (List ℕ × List ℕ) };

    ghost view = { λ e. fields_kept e.kept };

    ghost invariant = { λ e. IsShortKept e.kept };
}

// Room for the names and values of the fields of a send.
const SENT_ROOM: usize = 96;

// Appends the fields of a send to no fields. They are the caller's, so that no early return here has fields to drop.
fn fill_sent(alloc: Global, sent: Sent, fields: &mut Fields) -> Result<(), AllocError>
    requires { fields.old ≡ [] }
    ensures { OnOk result (fields.new ≡ fields_of_sent sent) }
{
    let id = message_id(alloc, sent.host, sent.place)?;
    fields.push("msgId", id.as_str())?;
    fields.push_number("queueId", u64::from(sent.queue))?;
    fields.push_number("queueOffset", sent.queue_offset)?;
    Ok(())
}

fn sent_fields(alloc: Global, sent: Sent) -> Result<Fields, AllocError>
    ensures { IfOk result (λ fields. fields ≡ fields_of_sent sent) }
{
    let mut fields = Fields::with_room(alloc, 3, SENT_ROOM)?;
    fill_sent(alloc, sent, &mut fields)?;
    Ok(fields)
}

// How many bytes the fields have with their lengths.
fn size_of(fields: &Fields) -> usize
    requires { pairs_size fields.now < 2 ^ 31 }
    ensures { result ≡ pairs_size fields.now }
{
    let mut size = 0;
    for index in 0..fields.len() {
        let (name, value) = fields.at(index);
        size += 6 + name.len() + value.len();
    }
    size
}

impl Ext {
    /// These fields.
    pub fn of(fields: Fields) -> Ext
        ensures { result ≡ fields }
    {
        Ext {
            kept: Kept::Texts(fields),
        }
    }

    /// No fields, and no memory.
    pub fn none(alloc: Global) -> Ext
        ensures { result ≡ [] }
    {
        Ext::of(Fields::new(alloc))
    }

    /// The fields of a send. They take no memory until the reply is written.
    #[tactic(auto, using(crate::proofs::SentLemmas::sent_is_short))]
    pub fn sent(sent: Sent) -> Ext
        ensures fields { result ≡ sent_fields_of sent.host sent.place sent.queue sent.queue_offset }
        ensures ordered { IsInOrder result }
        ensures short { pairs_size result ≤ 200 }
    {
        Ext {
            kept: Kept::Numbers(sent),
        }
    }

    /// Where the record stands of which these fields tell, if they are kept as those of a send.
    pub fn as_sent(&self) -> Option<Sent>
        ensures { IfSome result (λ sent. self.now ≡ sent_fields_of sent.host sent.place sent.queue sent.queue_offset) }
    {
        match &self.kept {
            Kept::Texts(_) => None,
            Kept::Numbers(sent) => Some(*sent),
        }
    }

    /// Whether the fields have at most so many bytes with their lengths. Those of a send have 200 at most.
    pub fn fits(&self, most: usize) -> bool
        requires most { 200 ≤ most }
        requires size { pairs_size self.now < 2 ^ 31 }
        ensures { result ≡ nat_le (pairs_size self.now) most }
    {
        match &self.kept {
            Kept::Texts(fields) => size_of(fields) <= most,
            Kept::Numbers(_) => true,
        }
    }

    /// The same fields as texts.
    pub(crate) fn into_fields(self, alloc: Global) -> Result<Fields, AllocError>
        ensures { IfOk result (λ fields. fields ≡ self) }
    {
        match self.kept {
            Kept::Texts(fields) => Ok(fields),
            Kept::Numbers(sent) => sent_fields(alloc, sent),
        }
    }
}
