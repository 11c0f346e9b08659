//! The header of a frame: what it says, and its forms on the wire.

ghost use Rattle.std.specs.Prelude.{◌≡◌, ◌<◌, ◌^◌, ◌++◌, length, OnOk, OnErr, IfOk, IfErr, Some};
ghost use Rattle.remoting_frame.specs.Gives.{Gives};
ghost use Rattle.remoting_frame.specs.Head.{IsShort};
ghost use Rattle.remoting_frame.specs.BinaryText.{Has16Bits, FitsLengths};
ghost use Rattle.remoting_frame.specs.Headers.{header_in, header_text, front_bytes};
ghost use Rattle.remoting_frame.specs.declared.fault.HeaderFault.TheVariants.{Memory};

use crate::binary_reader::read_binary;
use crate::binary_writer::write_binary;
use crate::fault::HeaderFault;
use crate::fields::Fields;
use crate::frame::Form;
use crate::front_writer::{write_binary_front, write_json_front};
use crate::json_reader::read_json;
use crate::json_writer::write_json;
use mq_bytes::Text;
use std::alloc::{AllocError, Global};
use std::marker::Model;

/// What a frame says besides its body. The names of `ext` are distinct and in byte order.
///
/// The sender's language, which headers also name, is read over, and written as `OTHER`.
#[derive(Drop)]
pub struct Header {
    /// What a request asks for, or in a reply what came of it: 0 is success.
    pub code: i32,
    /// The version of the program that sends it.
    pub version: i32,
    /// The sender's number of a request, which the reply repeats.
    pub opaque: i32,
    /// Bit 0 is set in a reply, bit 1 in a request that wants none.
    pub flag: i32,
    /// What went wrong, mostly; an empty remark and none are the same.
    pub remark: Text,
    /// The fields: names with their values.
    pub ext: Fields,
}

impl Model for Header {
    ghost use Rattle.remoting_frame.specs.Head.{Head, IsInOrder};

    ghost Value = { Head };

    ghost view = { λ h. record { code = h.code; version = h.version; opaque = h.opaque; flag = h.flag; remark = h.remark; ext = h.ext } };

    ghost invariant = { λ h. IsInOrder h.ext };
}

impl Header {
    /// The header that the bytes are, all of them. What was read in binary form can be written in it again. No bytes are
    /// `Bad` and take no memory.
    pub fn read(alloc: Global, form: Form, bytes: &[u8]) -> Result<Header, HeaderFault>
        ensures header { Gives (λ h. h) result (header_in form bytes.now) }
        ensures memory { IfErr result (λ e. e ≡ Memory → 0 < length bytes.now) }
        ensures bits { form ≡ Form.Binary → IfOk result Has16Bits }
        ensures lengths { form ≡ Form.Binary → IfOk result FitsLengths }
    {
        match form {
            Form::Json => read_json(alloc, bytes),
            Form::Binary => read_binary(alloc, bytes),
        }
    }

    /// Appends the header, which then reads as this one.
    pub fn write(&self, alloc: Global, form: Form, out: &mut Vec<u8>) -> Result<(), AllocError>
        requires bits { form ≡ Form.Binary → Has16Bits self.now }
        requires lengths { form ≡ Form.Binary → FitsLengths self.now }
        ensures text { OnOk result (out.new.items ≡ out.old.items ++ header_text form self.now) }
        ensures again { OnOk result (header_in form (header_text form self.now) ≡ Some self.now) }
        ensures err { OnErr result (out.new.items ≡ out.old.items) }
    {
        match form {
            Form::Json => write_json(alloc, self, out),
            Form::Binary => write_binary(self, out),
        }
    }

    /// Appends a frame but for its body: its length, the form with the header's length, and the header, which then
    /// reads as this one. `body` bytes are to follow. A reader takes the frame where there are no more than
    /// 16,777,216 bytes behind its length.
    pub fn write_front(
        &self,
        alloc: Global,
        form: Form,
        body: u32,
        out: &mut Vec<u8>,
    ) -> Result<(), AllocError>
        requires bits { form ≡ Form.Binary → Has16Bits self.now }
        requires lengths { form ≡ Form.Binary → FitsLengths self.now }
        requires short { IsShort self.now }
        requires within { body < 2 ^ 30 }
        ensures front { OnOk result (out.new.items ≡ out.old.items ++ front_bytes form self.now body) }
        ensures again { OnOk result (header_in form (header_text form self.now) ≡ Some self.now) }
        ensures small { OnOk result (length (header_text form self.now) < 2 ^ 20) }
        ensures err { OnErr result (out.new.items ≡ out.old.items) }
    {
        match form {
            Form::Json => write_json_front(alloc, self, body, out),
            Form::Binary => write_binary_front(self, body, out),
        }
    }
}
