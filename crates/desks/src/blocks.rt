//! Blocks of bytes that were read.
ghost use Rattle.desks.specs.near.Blocks.{Cuts};
ghost use Rattle.sources.specs.Readings.{HasFailed};
ghost use Rattle.std.specs.Io.KnownBytes.{Consumes, IsAtEnd};
ghost use Rattle.std.specs.Prelude.{◌≡◌, ◌<◌, ◌≤◌, [], IfOk, Ok, OnErr, OnOk, false, length};

use crate::desk::DeskFault;
use crate::kept_lines::KeptLine;
use memchr::memchr;
use sources::input::Input;
use sources::marked_reader::MarkedReader;
use std::alloc::{AllocError, Global};
use std::marker::Model;

// The number of bytes that are read at once.
const BLOCK: usize = 65_536;

// Bytes that were read at once, without those already taken. The value in contracts is the list of bytes that are left.
#[derive(Drop)]
pub(crate) struct Block {
    bytes: Vec<u8>,
    at: usize,
    end: usize,
}

impl Model for Block {
    ghost use Rattle.desks.specs.declared.blocks.TheConstants.{BLOCK};
    ghost use Rattle.std.specs.Prelude.{◌≡◌, ◌≤◌, List, slice_range, vec_len, ℕ};

    ghost Value = { List ℕ };

    ghost view = { λ b. slice_range b.bytes.items b.at b.end };

    ghost invariant = { λ b. (b.at ≤ b.end) × (b.end ≤ vec_len b.bytes) × (vec_len b.bytes ≡ BLOCK) };
}

impl Block {
    // Creates a block with no bytes left.
    pub(crate) fn new(alloc: Global) -> Result<Block, AllocError>
        ensures { IfOk result (λ block. block ≡ []) }
    {
        Ok(Block {
            bytes: vec![in alloc; 0u8; BLOCK]?,
            at: 0,
            end: 0,
        })
    }

    // Reads the next bytes, and returns whether there are any. There are none only at the end.
    pub(crate) fn fill<R: Input>(
        &mut self,
        reader: &mut MarkedReader<'_, R>,
    ) -> Result<bool, DeskFault>
        ensures bytes { Consumes reader.old.bytes reader.new.bytes self.new }
        ensures few { length self.new ≤ BLOCK }
        ensures left { OnOk result (reader.new.left < reader.old.left) }
        ensures end { result ≡ Ok false → (self.new ≡ []) × IsAtEnd reader.new.bytes }
        ensures failed { OnErr result ((self.new ≡ []) × HasFailed R.reads reader.new) }
    {
        self.at = 0;
        self.end = 0;
        match reader.read(self.bytes.as_mut_slice()) {
            Ok(count) => {
                self.end = count;
                Ok(count > 0)
            }
            Err(_) => Err(DeskFault::Input),
        }
    }

    // Moves the bytes up to the first line feed to a line, skips the line feed, and returns whether there is one. If
    // there is none, moves all bytes to the line.
    pub(crate) fn cut(&mut self, line: &mut KeptLine) -> bool
        ensures { Cuts self.old self.new line.old line.new result }
    {
        let unread = &self.bytes[self.at..self.end];
        match memchr(b'\n', unread) {
            Some(place) => {
                line.add(&unread[..place]);
                self.at += place + 1;
                true
            }
            None => {
                line.add(unread);
                self.at = self.end;
                false
            }
        }
    }
}
