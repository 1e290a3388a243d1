//! The bytes that are kept of a line while it is read.
ghost use Rattle.desks.specs.near.Closing.{closed_as};
ghost use Rattle.desks.specs.near.Keeping.{added, kept_of, request_kept};
ghost use Rattle.std.specs.Io.BufRead.{strip_last};
ghost use Rattle.std.specs.Prelude.{◌≡◌, ◌<◌, ◌≤◌, [], IfOk, length, vec_capacity};

use crate::desk::MAX_LINE;
use std::alloc::{AllocError, Global};
use std::marker::Model;

// The number of bytes that are kept of a line: the maximum of a request, and a carriage return.
const KEPT: usize = MAX_LINE + 1;

// What a complete line is: no request, a request that is kept, or a request that is too long.
#[derive(Clone, Copy)]
pub(crate) enum Closed {
    Empty,
    Line,
    TooLong,
}

// The first bytes of a line, and whether it has more. Their memory was allocated when the session opened.
#[derive(Drop)]
pub(crate) struct KeptLine {
    bytes: Vec<u8>,
    more: bool,
}

impl Model for KeptLine {
    ghost use Rattle.desks.specs.declared.kept_lines.TheConstants.{KEPT};
    ghost use Rattle.desks.specs.Requests.{Kept};
    ghost use Rattle.std.specs.Prelude.{◌≤◌, length, vec_capacity};

    ghost Value = { Kept };

    ghost view = { λ k. record { bytes = k.bytes.items; more = k.more } };

    ghost invariant = { λ k. (KEPT ≤ vec_capacity k.bytes) × (length k.bytes.items ≤ KEPT) };
}

// Removes one carriage return from the end of a text.
fn strip(text: &mut Vec<u8>)
    ensures text { text.new.items ≡ strip_last 13 text.old.items }
    ensures capacity { vec_capacity text.new ≡ vec_capacity text.old }
{
    if text.last() == Some(&b'\r') {
        text.pop();
    }
}

impl KeptLine {
    // Creates a line that has no bytes yet.
    pub(crate) fn new(alloc: Global) -> Result<KeptLine, AllocError>
        ensures { IfOk result (λ line. line ≡ kept_of []) }
    {
        Ok(KeptLine {
            bytes: Vec::with_capacity(alloc, KEPT)?,
            more: false,
        })
    }

    // Begins a new line.
    pub(crate) fn clear(&mut self)
        ensures { self.new ≡ kept_of [] }
    {
        self.bytes.clear();
        self.more = false;
    }

    // Adds bytes to the line, and keeps as many as fit.
    pub(crate) fn add(&mut self, bytes: &[u8])
        ensures { self.new ≡ added self.old bytes.now }
    {
        let room = KEPT - self.bytes.len();
        if bytes.len() <= room {
            self.bytes.extend_from_slice(bytes).unwrap();
        } else {
            self.bytes.extend_from_slice(&bytes[..room]).unwrap();
            self.more = true;
        }
    }

    // Ends the line, and removes one carriage return from its end.
    pub(crate) fn close(&mut self) -> Closed
        ensures request { request_kept self.old ≡ closed_as result self.new.bytes }
        ensures kept { result ≡ Closed.Line → (0 < length self.new.bytes) × (length self.new.bytes ≤ MAX_LINE) }
    {
        if self.more {
            return Closed::TooLong;
        }
        strip(&mut self.bytes);
        match self.bytes.len() {
            0 => Closed::Empty,
            1..=MAX_LINE => Closed::Line,
            _ => Closed::TooLong,
        }
    }

    // Returns the bytes that are kept.
    pub(crate) fn as_slice(&self) -> &[u8]
        ensures { result.now ≡ self.now.bytes }
    {
        self.bytes.as_slice()
    }
}
