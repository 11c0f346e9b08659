//! A reply: what a client is told of its request, and how it is written.

ghost use Rattle.std.specs.Prelude.{◌≡◌, ◌+◌, ◌<◌, ◌≤◌, ◌^◌, ◌++◌, [], length, pos, FitsSigned, OnOk, OnErr, IfOk, Some};
ghost use Rattle.std.specs.Int.{w16};
ghost use Rattle.mq_outside.specs.Counts.{CountsDiskFault};
ghost use Rattle.remoting_frame.specs.BinaryText.{Has16Bits};
ghost use Rattle.remoting_frame.specs.Head.{pairs_size};
ghost use Rattle.remoting_frame.specs.Headers.{header_in, header_text, front_bytes};
ghost use Rattle.reply_fields.specs.Parts.{ReplyParts, plain as plain_of};
ghost use Rattle.reply_fields.specs.Ranges.{RisesAtMost, AreAsked};
ghost use Rattle.reply_fields.specs.Sent.{fields_of_sent};
ghost use Rattle.reply_fields.specs.Replies.{reply_head, AppendsReply};
ghost use Rattle.reply_fields.specs.Slices.{body_len, kept_count, AppendsBody};

use crate::body::{size_of, write_body};
use crate::ext::{Ext, Sent};
use crate::slice::Slice;
use mq_bytes::{Rows, Text};
use mq_outside::{DiskFault, Reader};
use remoting_frame::{Form, Header};
use std::alloc::{AllocError, Global};
use std::marker::Model;

/// What a client is told. The code has 16 signed bits. The names of `ext` are distinct and in byte order; the remark and
/// the pairs have together at most 65,536 bytes, where six are counted for the two lengths of each pair. The body has
/// fewer than 2^30 bytes.
#[derive(Drop)]
pub struct Reply {
    pub code: i32,
    pub remark: Text,
    pub ext: Ext,
    pub body: Rows<Slice>,
}

impl Model for Reply {
    ghost use Rattle.reply_fields.specs.Parts.{ReplyParts};

    ghost Value = { ReplyParts };

    ghost use Rattle.reply_fields.specs.Replies.{IsReply};

    ghost view = { λ r. record { code = r.code; remark = r.remark; ext = r.ext; body = r.body } };

    ghost invariant = { λ r. IsReply (record { code = r.code; remark = r.remark; ext = r.ext; body = r.body }) };
}

/// Room for the front of most replies, so that the frame is grown once.
const FRONT_ROOM: usize = 512;

// Appends the front of a frame with this header, which `size` bytes are to follow.
#[tactic(auto, using(remoting_frame::proofs::BinaryWriting::short_fits))]
fn write_front(
    alloc: Global,
    form: Form,
    header: &Header,
    size: usize,
    out: &mut Vec<u8>,
) -> Result<(), AllocError>
    requires bits { Has16Bits header.now }
    requires short { length header.now.remark + pairs_size header.now.ext ≤ 65536 }
    requires within { size < 2 ^ 30 }
    ensures front { OnOk result (out.new.items ≡ out.old.items ++ front_bytes form header.now size) }
    ensures again { OnOk result (header_in form (header_text form header.now) ≡ Some header.now) }
    ensures err { OnErr result (out.new.items ≡ out.old.items) }
{
    out.reserve(size + FRONT_ROOM)?;
    header.write_front(alloc, form, size as u32, out)?;
    Ok(())
}

// Appends the frame of a reply that has this header and these slices.
fn write_frame<R: Reader>(
    alloc: Global,
    form: Form,
    header: &Header,
    slices: &[Slice],
    reader: &mut R,
    out: &mut Vec<u8>,
) -> Result<(), DiskFault>
    requires bits { Has16Bits header.now }
    requires short { length header.now.remark + pairs_size header.now.ext ≤ 65536 }
    requires within { body_len slices.now < 2 ^ 30 }
    ensures written { OnOk result ((reply : ReplyParts) → reply_head reply header.now.opaque ≡ header.now → reply.body ≡ slices.now
        → AppendsReply R.gives form header.now.opaque reply out.old.items out.new.items) }
    ensures again { OnOk result (header_in form (header_text form header.now) ≡ Some header.now) }
    ensures err { OnErr result (out.new.items ≡ out.old.items) }
    ensures cause { CountsDiskFault result (R.faults reader.old) (R.faults reader.new) }
    ensures reads { RisesAtMost (kept_count slices.now) (R.reads reader.old) (R.reads reader.new) }
    ensures asked { OnOk result (AreAsked (kept_count slices.now) (R.reads reader.old) (R.reads reader.new)) }
{
    let size = size_of(slices);
    let start = out.len();
    let Ok(()) = write_front(alloc, form, header, size, out) else {
        return Err(DiskFault::Memory);
    };
    match write_body(slices, size, reader, out) {
        Ok(()) => Ok(()),
        Err(fault) => {
            out.truncate(start);
            Err(fault)
        }
    }
}

impl Reply {
    /// A reply that is a code and a remark, of at most 65,536 bytes, with no fields and no body.
    #[tactic(auto, using(crate::proofs::ReplyLemmas::none_in_order))]
    pub fn plain(alloc: Global, code: i32, remark: &str) -> Result<Reply, AllocError>
        requires code { FitsSigned w16 code }
        requires short { length remark.now ≤ 65536 }
        ensures { IfOk result (λ reply. reply ≡ plain_of code remark.now) }
    {
        Ok(Reply {
            code,
            remark: Text::of(String::from_str(alloc, remark)?),
            ext: Ext::none(alloc),
            body: Rows::of(Vec::new(alloc)),
        })
    }

    /// The reply to a send whose record stands there. It takes no memory.
    pub fn sent(alloc: Global, sent: Sent) -> Reply
        ensures { result ≡ record { code = pos 0; remark = []; ext = fields_of_sent sent; body = [] } }
    {
        Reply {
            code: 0,
            remark: Text::of(String::new(alloc)),
            ext: Ext::sent(sent),
            body: Rows::of(Vec::new(alloc)),
        }
    }

    /// Appends the frame of this reply to the request with this opaque. Ranges that adjoin in one piece are read by one
    /// call of the reader. After a fault `out` is as before.
    pub fn write<R: Reader>(
        self,
        alloc: Global,
        form: Form,
        opaque: i32,
        reader: &mut R,
        out: &mut Vec<u8>,
    ) -> Result<(), DiskFault>
        ensures written { OnOk result (AppendsReply R.gives form opaque self out.old.items out.new.items) }
        ensures again { OnOk result (header_in form (header_text form (reply_head self opaque)) ≡ Some (reply_head self opaque)) }
        ensures err { OnErr result (out.new.items ≡ out.old.items) }
        ensures cause { CountsDiskFault result (R.faults reader.old) (R.faults reader.new) }
        ensures reads { RisesAtMost (kept_count self.body) (R.reads reader.old) (R.reads reader.new) }
        ensures asked { OnOk result (AreAsked (kept_count self.body) (R.reads reader.old) (R.reads reader.new)) }
    {
        let Reply {
            code,
            remark,
            ext,
            body,
        } = self;
        let Ok(ext) = ext.into_fields(alloc) else {
            return Err(DiskFault::Memory);
        };
        let header = Header {
            code,
            version: 0,
            opaque,
            flag: 1,
            remark,
            ext,
        };
        let written = write_frame(alloc, form, &header, body.as_slice(), reader, out);
        drop(header);
        drop(body);
        written
    }
}
