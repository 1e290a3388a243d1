//! The desk of the program: requests come from a reader, and answers go to a writer.
ghost use Rattle.std.specs.Prelude.{◌≡◌, OnErr, OnOk, false, true};
ghost use Rattle.writers.specs.Streams.{Says};

use crate::desk::{Desk, DeskFault, MAX_LINE, Taken};
use crate::intake::Requests;
use sources::input::Input;
use std::io;
use std::io::Write;
use writers::marked_writer::MarkedWriter;

/// A desk over two streams: it reads requests in blocks, and it writes and flushes each answer.
///
/// After any calls, the output has grown by exactly the answers, unless a write failed. The requests in the log are the
/// requests in the bytes that were taken from the input.
#[derive(Drop)]
pub struct StreamDesk<'a, R: Input, W: Write> {
    requests: Requests<'a, R>,
    output: &'a mut MarkedWriter<W>,
}

// Writes and flushes an answer.
fn send<W: Write>(output: &mut MarkedWriter<W>, text: &[u8]) -> io::Result<()>
    requires { output.old.failed ≡ false }
    ensures sent { OnOk result (Says output.old output.new text.now) }
    ensures flushed { OnOk result ((output.new.failed ≡ false) × (output.new.flushed ≡ true)) }
    ensures failed { OnErr result (output.new.failed ≡ true) }
{
    output.write_all(text)?;
    output.flush()
}

impl<'a, R: Input, W: Write> StreamDesk<'a, R, W> {
    /// Creates the desk over these requests and this output.
    pub fn new(requests: Requests<'a, R>, output: &'a mut MarkedWriter<W>) -> StreamDesk<'a, R, W>
        ensures requests { result.requests ≡ requests.entry }
        ensures name { result.output.ghost_name ≡ output.entry.ghost_name }
        ensures output { result.output.now ≡ output.old }
    {
        StreamDesk { requests, output }
    }

    /// Returns the output.
    pub fn close(self) -> &'a mut MarkedWriter<W>
        ensures name { result.ghost_name ≡ self.entry.output.ghost_name }
        ensures output { result.now ≡ self.entry.output.now }
    {
        let StreamDesk {
            requests: _,
            output,
        } = self;
        output
    }
}

impl<'a, R: Input, W: Write> Desk for StreamDesk<'a, R, W> {
    ghost use Rattle.desks.specs.Desks.{DealsAt};
    ghost use Rattle.desks.specs.Events.{Logs, asked_by, told_by};
    ghost use Rattle.desks.specs.declared.intake.Reach.TheVariants as reach;
    ghost use Rattle.sources.specs.Readings.{HasFailed};
    ghost use Rattle.std.specs.Prelude.{◌≡◌, ◌<◌, ◌≤◌, IfErr, Ok, OnOk, false, length, true};

    ghost log = { DealsAt };

    ghost line = { λ d. d.requests.line.bytes };

    ghost at_end = { λ d. d.requests.reach ≡ reach.Ended };

    ghost cut_off = { λ d. (d.requests.reach ≡ reach.CutOff) × HasFailed R.reads d.requests.reader };

    ghost unwritten = { λ d. d.output.now.failed ≡ true };

    ghost flushed = { λ d. (d.output.now.failed ≡ false) × (d.output.now.flushed ≡ true) };

    fn next(&mut self) -> Result<Taken, DeskFault>
        ensures log { Logs DealsAt self.old (asked_by result self.new.requests.line.bytes) self.new }
        ensures kept { result ≡ Ok Taken.Line
            → (0 < length self.new.requests.line.bytes) × (length self.new.requests.line.bytes ≤ MAX_LINE) }
        ensures end { result ≡ Ok Taken.End → self.new.requests.reach ≡ reach.Ended }
        ensures fault { IfErr result (λ e. (e ≡ DeskFault.Input)
            × ((self.new.requests.reach ≡ reach.CutOff) × HasFailed R.reads self.new.requests.reader)) }
    {
        match self.requests.next() {
            Ok(taken) => Ok(taken),
            Err(_) => Err(DeskFault::Input),
        }
    }

    fn line(&self) -> &[u8] {
        self.requests.line()
    }

    fn tell(&mut self, text: &[u8]) -> Result<(), DeskFault>
        ensures log { Logs DealsAt self.old (told_by result text.now) self.new }
        ensures flushed { OnOk result ((self.new.output.now.failed ≡ false) × (self.new.output.now.flushed ≡ true)) }
        ensures fault { IfErr result (λ e. (e ≡ DeskFault.Output) × (self.new.output.now.failed ≡ true)) }
    {
        if self.output.failed() {
            return Err(DeskFault::Output);
        }
        match send(self.output, text) {
            Ok(()) => Ok(()),
            Err(_) => Err(DeskFault::Output),
        }
    }
}
