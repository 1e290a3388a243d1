//! Readers that count their reads, and remember whether one of them failed.
ghost use Rattle.sources.specs.Readings.{Tells};
ghost use Rattle.std.specs.Io.KnownBytes.{IsAtEnd, ReadConsumes};
ghost use Rattle.std.specs.Io.{ReadsAtMost};
ghost use Rattle.std.specs.Prelude.{◌+◌, ◌<◌, ◌≡◌, IfErr, IfOk, List, OnOk, false, length};

use crate::ReadFault;
use crate::input::Input;
use std::io;
use std::io::ErrorKind;
use std::marker::Model;

/// An input that is read at most a given number of times, and whether a read of it failed. Only a read that returns an error
/// sets the error flag, an interrupted read does not, and nothing clears the flag.
#[derive(Drop)]
pub struct MarkedReader<'a, R: Input> {
    input: &'a mut R,
    left: u64,
    failed: bool,
}

impl<'a, R: Input> Model for MarkedReader<'a, R> {
    ghost use Rattle.sources.specs.Readings.{LastFailed, Reading};
    ghost use Rattle.std.specs.Prelude.{◌≡◌, true};

    ghost Value = { Reading R };

    ghost view = { λ r. record { input = r.input.now; bytes = R.remaining r.input.now; left = r.left; failed = r.failed } };

    ghost invariant = { λ r. r.failed ≡ true → ∥ LastFailed R.reads r.input.now ∥₁ };
}

// Whether a read failed. An interrupted read is no failure.
fn is_failure(read: &io::Result<usize>) -> bool
    ensures { Tells result read.now }
{
    match read {
        Ok(_) => false,
        Err(error) => error.kind() != ErrorKind::Interrupted,
    }
}

impl<'a, R: Input> MarkedReader<'a, R> {
    ghost use Rattle.sources.specs.Readings.{HasFailed, MakesReads, ReadResult, Returns};

    /// Returns a reader that reads this input at most this number of times.
    pub fn new(input: &'a mut R, reads: u64) -> MarkedReader<'a, R>
        ensures input { result.input ≡ input.old }
        ensures bytes { result.bytes ≡ R.remaining input.old }
        ensures left { result.left ≡ reads }
        ensures failed { result.failed ≡ false }
    {
        MarkedReader {
            input,
            left: reads,
            failed: false,
        }
    }

    // Performs one read, and counts it.
    fn read_counted(&mut self, buffer: &mut [u8]) -> io::Result<usize>
        requires left { 0 < self.old.left }
        requires failed { self.old.failed ≡ false }
        ensures left { self.new.left + 1 ≡ self.old.left }
        ensures room { length buffer.new ≡ length buffer.old }
        ensures bound { ReadsAtMost result buffer.new }
        ensures bytes { ReadConsumes self.old.bytes self.new.bytes result buffer.new }
        ensures noted { R.reads self.old.input result self.new.input }
    {
        self.left -= 1;
        self.input.read_once(buffer)
    }

    // Performs one read, counts it, and remembers whether it failed.
    fn read_marked(&mut self, buffer: &mut [u8]) -> io::Result<usize>
        requires left { 0 < self.old.left }
        requires failed { self.old.failed ≡ false }
        ensures left { self.new.left + 1 ≡ self.old.left }
        ensures room { length buffer.new ≡ length buffer.old }
        ensures bound { ReadsAtMost result buffer.new }
        ensures bytes { ReadConsumes self.old.bytes self.new.bytes result buffer.new }
        ensures noted { R.reads self.old.input result self.new.input }
        ensures failed { Tells self.new.failed result }
    {
        let result = self.read_counted(buffer);
        self.failed = is_failure(&result);
        result
    }

    /// Reads into a buffer, and returns the number of bytes read, which is 0 only at the end. An interrupted read is
    /// repeated. Fails if a read fails or failed before, or if no reads are left.
    pub fn read(&mut self, buffer: &mut [u8]) -> Result<usize, ReadFault>
        requires room { 0 < length buffer.old }
        ensures room { length buffer.new ≡ length buffer.old }
        ensures bound { ReadsAtMost result buffer.new }
        ensures bytes { ReadConsumes self.old.bytes self.new.bytes result buffer.new }
        ensures end { IfOk result (λ n. n ≡ 0 → IsAtEnd self.new.bytes) }
        ensures made { (results : List ReadResult) × MakesReads R.reads self.old results self.new
            × Returns self.old results self.new result }
        ensures left { OnOk result (self.new.left < self.old.left) }
        ensures same { OnOk result (self.new.failed ≡ self.old.failed) }
        ensures fault { IfErr result (λ e. (e ≡ ReadFault.Failed) × HasFailed R.reads self.new) }
    {
        while !self.failed && self.left > 0 {
            if let Ok(count) = self.read_marked(buffer) {
                return Ok(count);
            }
        }
        Err(ReadFault::Failed)
    }

    /// Returns whether a read failed.
    pub fn failed(&self) -> bool
        ensures { result ≡ self.now.failed }
    {
        self.failed
    }
}
