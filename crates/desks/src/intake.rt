//! Readers whose bytes are cut into requests.
ghost use Rattle.desks.specs.Events.{request_of};
ghost use Rattle.desks.specs.Takings.{Takes, coming};
ghost use Rattle.desks.specs.declared.intake.Reach.TheVariants as reaches;
ghost use Rattle.desks.specs.near.Closing.{request_taken};
ghost use Rattle.desks.specs.near.Keeping.{kept_of};
ghost use Rattle.desks.specs.near.Lines.{ReadsLine, end_read, measure_of, reach_after};
ghost use Rattle.sources.specs.Readings.{HasFailed};
ghost use Rattle.std.specs.Io.KnownBytes.{IsAtEnd};
ghost use Rattle.std.specs.Prelude.{◌≡◌, ◌-◌, ◌<◌, ◌≤◌, ◌^◌, [], IfOk, None, Ok, OnErr, Some, false, length, true};

use crate::blocks::Block;
use crate::desk::{DeskFault, MAX_LINE, Taken};
use crate::kept_lines::{Closed, KeptLine};
use sources::input::Input;
use sources::marked_reader::MarkedReader;
use std::alloc::{AllocError, Global};

// The number of times that the input of a session is read at most.
const READS: u64 = u64::MAX;

// How far an input was read: more may come, it ended, or a read of it failed. After the last two it is not read again.
#[derive(Clone, Copy)]
pub(crate) enum Reach {
    Open,
    Ended,
    CutOff,
}

/// The requests of a reader: the reader, the bytes that were read and not yet taken, the line that was taken last, and
/// how far the input was read.
#[derive(Drop)]
pub struct Requests<'a, R: Input> {
    reader: MarkedReader<'a, R>,
    block: Block,
    line: KeptLine,
    reach: Reach,
    ghost cut_off: { reach ≡ reaches.CutOff → HasFailed R.reads reader },
}

// Reads until the line is complete, and returns whether it ends in a line feed rather than at the end of the input.
fn complete<R: Input>(
    reader: &mut MarkedReader<'_, R>,
    block: &mut Block,
    line: &mut KeptLine,
) -> Result<bool, DeskFault>
    requires fresh { line.old ≡ kept_of [] }
    ensures reads { ReadsLine (coming block.old reader.old) (coming block.new reader.new) line.new (end_read result) }
    ensures end { result ≡ Ok false → IsAtEnd (coming block.new reader.new) }
    ensures failed { OnErr result (HasFailed R.reads reader.new) }
    ensures measure { result ≡ Ok true → measure_of reader.new block.new < measure_of reader.old block.old }
{
    while !block.cut(line) {
        if !block.fill(reader)? {
            return Ok(false);
        }
    }
    Ok(true)
}

// How far the input was read, by the result of reading a line.
fn reached(completed: Result<bool, DeskFault>) -> Reach
    ensures { result ≡ reach_after completed }
{
    match completed {
        Ok(true) => Reach::Open,
        Ok(false) => Reach::Ended,
        Err(_) => Reach::CutOff,
    }
}

impl<'a, R: Input> Requests<'a, R> {
    /// Creates the requests of an input, before the first is taken. The input is read at most 2^64 - 1 times. Allocates all
    /// memory that they need.
    #[tactic(auto, using(crate::proofs::TakingLemmas::all_coming))]
    pub fn new(alloc: Global, input: &'a mut R) -> Result<Requests<'a, R>, AllocError>
        ensures bytes { IfOk result (λ r. coming r.block r.reader ≡ R.remaining input.old) }
        ensures left { IfOk result (λ r. r.reader.left ≡ 2 ^ 64 - 1) }
        ensures failed { IfOk result (λ r. r.reader.failed ≡ false) }
        ensures reach { IfOk result (λ r. r.reach ≡ Reach.Open) }
    {
        Ok(Requests {
            reader: MarkedReader::new(input, READS),
            block: Block::new(alloc)?,
            line: KeptLine::new(alloc)?,
            reach: Reach::Open,
        })
    }

    // Takes the next line, and returns its request if it is one, or the end of the input.
    fn take_line(&mut self) -> Result<Option<Taken>, DeskFault>
        requires { self.old.reach ≡ Reach.Open }
        ensures takes { Takes self.old.reach (coming self.old.block self.old.reader) self.new.reach
            (coming self.new.block self.new.reader) (request_taken result self.new.line.bytes) }
        ensures kept { result ≡ Ok (Some Taken.Line) → (0 < length self.new.line.bytes) × (length self.new.line.bytes ≤ MAX_LINE) }
        ensures more { result ≡ Ok None → self.new.reach ≡ Reach.Open }
        ensures end { result ≡ Ok (Some Taken.End) → self.new.reach ≡ Reach.Ended }
        ensures failed { OnErr result (self.new.reach ≡ Reach.CutOff) }
        ensures measure { result ≡ Ok None
            → measure_of self.new.reader self.new.block < measure_of self.old.reader self.old.block }
    {
        self.line.clear();
        let completed = complete(&mut self.reader, &mut self.block, &mut self.line);
        self.reach = reached(completed);
        let is_complete = completed?;
        Ok(match self.line.close() {
            Closed::Line => Some(Taken::Line),
            Closed::TooLong => Some(Taken::TooLong),
            Closed::Empty if is_complete => None,
            Closed::Empty => Some(Taken::End),
        })
    }

    // Takes the next request of a reader that may have more.
    fn take(&mut self) -> Result<Taken, DeskFault>
        requires { self.old.reach ≡ Reach.Open }
        ensures takes { Takes self.old.reach (coming self.old.block self.old.reader) self.new.reach
            (coming self.new.block self.new.reader) (request_of result self.new.line.bytes) }
        ensures kept { result ≡ Ok Taken.Line → (0 < length self.new.line.bytes) × (length self.new.line.bytes ≤ MAX_LINE) }
        ensures end { result ≡ Ok Taken.End → self.new.reach ≡ Reach.Ended }
        ensures failed { OnErr result (self.new.reach ≡ Reach.CutOff) }
    {
        loop {
            if let Some(taken) = self.take_line()? {
                return Ok(taken);
            }
        }
    }

    // Takes the next request.
    pub(crate) fn next(&mut self) -> Result<Taken, DeskFault>
        ensures takes { Takes self.old.reach (coming self.old.block self.old.reader) self.new.reach
            (coming self.new.block self.new.reader) (request_of result self.new.line.bytes) }
        ensures kept { result ≡ Ok Taken.Line → (0 < length self.new.line.bytes) × (length self.new.line.bytes ≤ MAX_LINE) }
        ensures end { result ≡ Ok Taken.End → self.new.reach ≡ Reach.Ended }
        ensures failed { OnErr result (self.new.reach ≡ Reach.CutOff) }
    {
        match self.reach {
            Reach::Open => self.take(),
            Reach::Ended => Ok(Taken::End),
            Reach::CutOff => Err(DeskFault::Input),
        }
    }

    // Returns the request that was taken last.
    pub(crate) fn line(&self) -> &[u8]
        ensures { result.now ≡ self.now.line.bytes }
    {
        self.line.as_slice()
    }
}
