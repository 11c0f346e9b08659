//! Cuts a stream, which comes in pieces, into its frames.
//!
//! `feed` puts a piece behind the bytes that are held, `next` takes the frame off their front. The front of a frame is
//! read once: while its body is still to come it is kept, so small pieces cost no second reading of a header. The bytes
//! behind a frame are not moved for it.

ghost use Rattle.std.specs.Prelude.{◌≡◌, ◌+◌, ◌<◌, ◌++◌, [], length, OnOk, OnErr};
ghost use Rattle.remoting_frame.specs.Fronts.{front_view};
ghost use Rattle.remoting_frame.specs.Frames.{Answers, first_of};
ghost use Rattle.remoting_frame.specs.Cutting.{NextIs};

use crate::fault::FrameFault;
use crate::frame::Frame;
use crate::front::FrameFront;
use crate::front_reader::front_at;
use bytes::BytesMut;
use mq_bytes::Rows;
use std::alloc::{AllocError, Global};
use std::marker::Model;

/// A stream that is being cut. It is seen as the place at which its next frame starts, and the bytes from there on.
#[derive(Drop)]
pub struct Cutter {
    at: u64,
    held: BytesMut,
    front: Option<FrameFront>,
}

impl Model for Cutter {
    ghost use Rattle.remoting_frame.specs.Held.{Held, IsKept};

    ghost Value = { Held };

    ghost view = { λ c. record { at = c.at; bytes = c.held.items } };

    ghost invariant = { λ c. IsKept c.at c.held.items c.front };
}

impl Cutter {
    /// The beginning of a stream.
    pub fn new(alloc: Global) -> Cutter
        ensures { result ≡ record { at = 0; bytes = [] } }
    {
        Cutter {
            at: 0,
            held: BytesMut::new(alloc),
            front: None,
        }
    }

    /// Takes the next piece of the stream. A stream longer than 2^64 - 1 bytes is refused as want of memory; a piece of no
    /// bytes never is.
    pub fn feed(&mut self, piece: &[u8]) -> Result<(), AllocError>
        ensures ok { OnOk result (self.new ≡ record { at = self.old.at; bytes = self.old.bytes ++ piece.now }) }
        ensures err { OnErr result (self.new ≡ self.old) }
        ensures some { OnErr result (0 < length piece.now) }
    {
        let held = self.held.len() as u64;
        if u64::MAX - self.at - held < piece.len() as u64 {
            return Err(AllocError);
        }
        self.held.extend_from_slice(piece)
    }

    // The front of the next frame. It is kept no longer, so a caller that doesn't take the frame puts it back.
    fn take_front(&mut self, alloc: Global) -> Result<Option<FrameFront>, FrameFault>
        ensures front { Answers front_view result (first_of self.old.at self.old.bytes) }
        ensures same { self.new ≡ self.old }
    {
        match self.front.take() {
            Some(front) => Ok(Some(front)),
            None => front_at(alloc, self.at, self.held.as_slice()),
        }
    }

    /// The next frame, or `None` where the bytes held are neither a whole frame nor show a fault. A fault is answered
    /// again by each further call, whatever is fed. At `Memory` the call may be made again.
    pub fn next(&mut self, alloc: Global) -> Result<Option<Frame>, FrameFault>
        ensures { NextIs self.old result self.new }
    {
        let Some(front) = self.take_front(alloc)? else {
            return Ok(None);
        };
        let len = front.len as usize;
        if self.held.len() < len {
            self.front = Some(front);
            return Ok(None);
        }
        let Ok(body) = Vec::from_slice(
            alloc,
            &self.held.as_slice()[8 + front.header_len as usize..len],
        ) else {
            return Err(FrameFault::Memory);
        };
        let frame = Frame {
            at: self.at,
            form: front.form,
            header: front.header,
            body: Rows::of(body),
        };
        self.front = None;
        self.held.advance(len);
        self.at += len as u64;
        Ok(Some(frame))
    }

    /// The place at which the next frame starts, and how many bytes of it and what follows are held.
    pub fn rest(&self) -> (u64, u64)
        ensures { (result.0 ≡ self.now.at) × (result.1 ≡ length self.now.bytes) }
    {
        (self.at, self.held.len() as u64)
    }
}
