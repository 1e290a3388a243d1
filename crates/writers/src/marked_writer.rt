//! Writers that remember whether a write failed.
ghost use Rattle.std.specs.Io.KnownBytes.{Appends, Keeps};
ghost use Rattle.std.specs.Prelude.{◌≡◌, IfSome, OnErr, OnOk, false, true};

use std::fmt::Display;
use std::io;
use std::io::Write;
use std::marker::Model;

/// A writer, and whether a write to it failed. Only a failed write or flush sets the error flag, and nothing clears it.
/// A caller whose contract promises its bytes with `Says` therefore has to attempt to write them. The writer also
/// remembers whether everything written was flushed.
#[derive(Drop)]
pub struct MarkedWriter<W: Write> {
    writer: W,
    failed: bool,
    flushed: bool,
}

impl<W: Write> Model for MarkedWriter<W> {
    ghost use Rattle.writers.specs.Streams.{Stream};

    ghost Value = { Stream };

    ghost view = { λ t. record { held = W.contents t.writer; failed = t.failed; flushed = t.flushed } };
}

impl<W: Write> MarkedWriter<W> {
    /// Returns a writer on which no write has failed.
    pub fn new(writer: W) -> MarkedWriter<W>
        ensures held { result.held ≡ W.contents writer }
        ensures failed { result.failed ≡ false }
        ensures flushed { result.flushed ≡ true }
    {
        MarkedWriter {
            writer,
            failed: false,
            flushed: true,
        }
    }

    /// Writes the bytes. A failure is remembered, and a part of the bytes may have been written before it.
    pub fn write_all(&mut self, bytes: &[u8]) -> io::Result<()>
        ensures written { OnOk result (Appends self.old.held self.new.held bytes.now) }
        ensures same { OnOk result (self.new.failed ≡ self.old.failed) }
        ensures failed { OnErr result (self.new.failed ≡ true) }
        ensures flushed { self.new.flushed ≡ false }
    {
        self.flushed = false;
        let result = self.writer.write_all(bytes);
        self.remember(result)
    }

    /// Writes a text, and remembers a failure. `write!` and `writeln!` call it.
    pub fn write_fmt<D: Display + Drop>(&mut self, text: D) -> io::Result<()>
        ensures written { OnOk result (IfSome (D.output text) (Appends self.old.held self.new.held)) }
        ensures same { OnOk result (self.new.failed ≡ self.old.failed) }
        ensures failed { OnErr result (self.new.failed ≡ true) }
        ensures flushed { self.new.flushed ≡ false }
    {
        self.flushed = false;
        let result = self.writer.write_fmt(text);
        self.remember(result)
    }

    /// Flushes the written bytes, and remembers a failure. The bytes of the writer do not change.
    pub fn flush(&mut self) -> io::Result<()>
        ensures held { Keeps self.old.held self.new.held }
        ensures same { OnOk result (self.new.failed ≡ self.old.failed) }
        ensures failed { OnErr result (self.new.failed ≡ true) }
        ensures flushed { OnOk result (self.new.flushed ≡ true) }
        ensures unflushed { OnErr result (self.new.flushed ≡ false) }
    {
        let result = self.writer.flush();
        self.flushed = result.is_ok();
        self.remember(result)
    }

    // Remembers a failure, and returns the result of the write.
    fn remember(&mut self, written: io::Result<()>) -> io::Result<()>
        ensures held { self.new.held ≡ self.old.held }
        ensures ok { OnOk result (self.new.failed ≡ self.old.failed) }
        ensures failed { OnErr result (self.new.failed ≡ true) }
        ensures flushed { self.new.flushed ≡ self.old.flushed }
        ensures handed { result ≡ written }
    {
        if written.is_err() {
            self.failed = true;
        }
        written
    }

    /// Returns whether a write or a flush failed.
    pub fn failed(&self) -> bool
        ensures { result ≡ self.now.failed }
    {
        self.failed
    }

    /// Returns the inner writer.
    pub fn into_inner(self) -> W
        ensures { W.contents result ≡ self.held }
    {
        self.writer
    }
}
