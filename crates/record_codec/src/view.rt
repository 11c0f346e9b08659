//! A record in place: its bytes are borrowed, and read where they stand.

ghost use Rattle.std.specs.Prelude.{◌≡◌, ◌<◌, ◌≤◌, ◌^◌, Some, IfOk, length, option_map};
ghost use Rattle.record_codec.specs.Drafts.{entry_of, IsDraftOf};
ghost use Rattle.record_codec.specs.Entry.{Entry};
ghost use Rattle.record_codec.specs.Layout.{layout as layout_of, size as size_of};
ghost use Rattle.record_codec.specs.Parsed.{parsed};
ghost use Rattle.record_codec.specs.Props.{value_of};

use crate::body::Body;
use crate::draft::{Draft, Place, Record};
use crate::lengths::{host_at, u32_at, u64_at};
use crate::props::{Props, text_of};
use crate::scan::value_in;
use std::alloc::{AllocError, Global};
use std::marker::Model;

/// Bytes with a record in front. Contracts see the record.
#[derive(Drop)]
pub struct View<'a> {
    pub(crate) bytes: &'a [u8],
    pub(crate) body: u32,
    pub(crate) topic: u8,
    pub(crate) props: u16,
}

impl<'a> Model for View<'a> {
    ghost use Rattle.record_codec.specs.Entry.{Entry};
    ghost use Rattle.record_codec.specs.Parsed.{parsed};
    ghost use Rattle.record_codec.specs.Views.{or_blank, IsView};

    ghost Value = { Entry };

    ghost view = { λ v. or_blank (parsed v.bytes.now) };

    ghost invariant = { λ v. IsView v.bytes.now (record { body = v.body; topic = v.topic; props = v.props }) };
}

// The first so many bytes: the layout of a record that they hold.
fn front_of(bytes: &[u8], size: u32) -> &[u8]
    requires { size ≤ length bytes.now }
    ensures { (r : Entry) → parsed bytes.now ≡ Some r → size ≡ size_of r → result.now ≡ layout_of r }
{
    &bytes[..size as usize]
}

impl<'a> View<'a> {
    /// The record as it stands in the log, from its first byte to its last.
    pub fn layout(&self) -> &[u8]
        ensures { result.now ≡ layout_of self.now }
    {
        front_of(self.bytes, self.size())
    }

    /// How many bytes the record has.
    pub fn size(&self) -> u32
        ensures { result ≡ size_of self.now }
    {
        u32_at(self.bytes, 0)
    }

    /// The queue id.
    pub fn queue(&self) -> u32
        ensures { result ≡ self.now.queue }
    {
        u32_at(self.bytes, 12)
    }

    /// The sender's flag, a signed number that the broker gives no meaning.
    pub fn flag(&self) -> i32
        ensures { result ≡ self.now.flag }
    {
        u32_at(self.bytes, 16).cast_signed()
    }

    /// The record's number in its queue, from 0 on.
    pub fn queue_offset(&self) -> u64
        ensures value { result ≡ self.now.queue_offset }
        ensures low { result < 2 ^ 62 }
    {
        u64_at(self.bytes, 20)
    }

    /// The physical offset: where the record begins, in bytes from the start of the log.
    pub fn offset(&self) -> u64
        ensures value { result ≡ self.now.offset }
        ensures low { result < 2 ^ 62 }
    {
        u64_at(self.bytes, 28)
    }

    /// The system flag. Bits 4 and 8 tell the kind of a transaction's record: 4 a half message, 8 its copy after a commit,
    /// 12 a rollback. Bits 16 and 32, an address of 16 bytes for a host, aren't set.
    pub fn sysflag(&self) -> u32
        ensures { result ≡ self.now.sysflag }
    {
        u32_at(self.bytes, 36)
    }

    /// The born time in milliseconds.
    pub fn born(&self) -> u64
        ensures value { result ≡ self.now.born }
        ensures low { result < 2 ^ 62 }
    {
        u64_at(self.bytes, 40)
    }

    /// The sender's host: an IPv4 address of four bytes, and a port of four, the high byte first.
    pub fn born_host(&self) -> [u8; 8]
        ensures { result ≡ self.now.born_host }
    {
        host_at(self.bytes, 48)
    }

    /// The store time in milliseconds.
    pub fn store(&self) -> u64
        ensures value { result ≡ self.now.store }
        ensures low { result < 2 ^ 62 }
    {
        u64_at(self.bytes, 56)
    }

    /// The broker's host, in the form of the born host.
    pub fn store_host(&self) -> [u8; 8]
        ensures { result ≡ self.now.store_host }
    {
        host_at(self.bytes, 64)
    }

    /// How often the message was given to a consumer again, a signed number.
    pub fn reconsume(&self) -> i32
        ensures { result ≡ self.now.reconsume }
    {
        u32_at(self.bytes, 72).cast_signed()
    }

    /// The prepared transaction offset: of a copy of a half message, the physical offset of its half.
    pub fn prepared(&self) -> u64
        ensures value { result ≡ self.now.prepared }
        ensures low { result < 2 ^ 62 }
    {
        u64_at(self.bytes, 76)
    }

    /// The bytes of the message, any of them.
    pub fn body(&self) -> &[u8]
        ensures { result.now ≡ self.now.body }
    {
        &self.bytes[88..88 + self.body as usize]
    }

    /// The topic: 1 to 127 legal characters.
    pub fn topic(&self) -> &str
        ensures { result.now ≡ self.now.topic }
    {
        let from = 89 + self.body as usize;
        match std::str::from_utf8(&self.bytes[from..from + self.topic as usize]) {
            Ok(topic) => topic,
            Err(_) => unreachable!(),
        }
    }

    /// The value of the property of this name. The seal is none of the record's properties.
    pub fn prop(&self, name: &str) -> Option<&str>
        ensures { option_map (λ value. value.now) result ≡ value_of name.now self.now.props }
    {
        let from = 91 + self.body as usize + self.topic as usize;
        let text = &self.bytes[from..from + self.props as usize];
        let value = value_in(name.as_bytes(), text)?;
        match std::str::from_utf8(value) {
            Ok(value) => Some(value),
            Err(_) => unreachable!(),
        }
    }

    fn props(&self, alloc: Global) -> Result<Props, AllocError>
        ensures { IfOk result (λ props. props ≡ self.now.props) }
    {
        let from = 91 + self.body as usize + self.topic as usize;
        Props::of_written(alloc, &self.bytes[from..from + self.props as usize])
    }

    fn draft(&self, alloc: Global) -> Result<Draft, AllocError>
        ensures { IfOk result (λ draft. IsDraftOf draft self.now) }
    {
        Ok(Draft {
            topic: text_of(alloc, self.topic().as_bytes())?,
            queue: self.queue(),
            flag: self.flag(),
            sysflag: self.sysflag(),
            born: self.born(),
            born_host: self.born_host(),
            store_host: self.store_host(),
            reconsume: self.reconsume(),
            prepared: self.prepared(),
            body: Body::of(Vec::from_slice(alloc, self.body())?),
            props: self.props(alloc)?,
        })
    }

    /// The record, apart from these bytes.
    pub fn to_record(&self, alloc: Global) -> Result<Record, AllocError>
        ensures record_is { IfOk result (λ r. entry_of r.draft r.place ≡ self.now) }
        ensures size { IfOk result (λ r. r.size ≡ size_of self.now) }
    {
        let draft = self.draft(alloc)?;
        Ok(Record {
            draft,
            place: Place {
                queue_offset: self.queue_offset(),
                offset: self.offset(),
                store: self.store(),
            },
            size: self.size(),
        })
    }
}
