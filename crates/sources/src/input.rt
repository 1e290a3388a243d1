//! Inputs: readers whose contract says which reads were made, and what each returned.
ghost use Rattle.std.specs.Io.KnownBytes.{ReadConsumes};
ghost use Rattle.std.specs.Io.{ReadsAtMost};

use std::io;
use std::io::Read;

/// A reader whose contract says what each read of it returned.
pub trait Input: Read {
    ghost use Rattle.std.specs.Prelude.{Result, ℕ};
    ghost use Rattle.std.specs.declared.io.Error.{Error};

    // States that a read of the input returned this result, and the input before and after the read. An implementation
    // need not define it. Code that is generic over inputs can obtain it only from a call of `read_once`, even for a file.
    ghost reads: { Self → Result ℕ Error → Self → Type 0 } = { λ _ _ _. Unit {0} };

    /// Performs one read, and returns its result.
    fn read_once(&mut self, buffer: &mut [u8]) -> io::Result<usize>
        ensures bound { ReadsAtMost result buffer.new }
        ensures bytes { ReadConsumes (Self.remaining self.old) (Self.remaining self.new) result buffer.new }
        ensures noted { reads self.old result self.new };
}

impl<R: Read> Input for R {
    fn read_once(&mut self, buffer: &mut [u8]) -> io::Result<usize> {
        self.read(buffer)
    }
}
