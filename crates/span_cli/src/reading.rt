//! Reads a file to its end, up to a limit.
ghost use Rattle.sources.specs.declared.TheConstants.{FILE_CAP};
ghost use Rattle.sources.specs.Readings.{MakesReads, ReadResult, Returns};
ghost use Rattle.span_cli.specs.FileReads.{EndsReading, ReadsFile};
ghost use Rattle.std.specs.Io.KnownBytes.{Consumes, IsAtEnd};
ghost use Rattle.std.specs.Prelude.{◌+◌, ◌<◌, ◌≡◌, ◌≤◌, ◌⊎◌, Err, IfOk, IfSome, List, OnOk, drop, length, take, true, vec_len};

use sources::input::Input;
use sources::marked_reader::MarkedReader;
use sources::{FILE_CAP, ReadFault};
use std::alloc::{AllocError, Global};

// The maximum number of bytes that a read asks for.
const PIECE: usize = 65_536;

// The number of times that a file is read at most: once for each byte that it may have, and once for its end.
const FILE_READS: u64 = FILE_CAP as u64 + 1;

// Makes the bytes longer than `filled`, by zeros, for a read of up to `PIECE` bytes.
fn make_room(bytes: &mut Vec<u8>, filled: usize) -> Result<(), AllocError>
    requires { filled ≤ vec_len bytes.old }
    ensures front { take filled bytes.new.items ≡ take filled bytes.old.items }
    ensures room { OnOk result (filled < vec_len bytes.new) }
{
    let capacity = bytes.capacity();
    if filled == capacity {
        bytes.reserve(PIECE)?;
    }
    let end = filled + (bytes.capacity() - filled).min(PIECE);
    if bytes.len() < end {
        bytes.resize(end, 0)?;
    }
    Ok(())
}

// Reads into the bytes from `filled` on.
fn read_after<R: Input>(
    reader: &mut MarkedReader<'_, R>,
    bytes: &mut [u8],
    filled: usize,
) -> Result<usize, ReadFault>
    requires { filled < length bytes.old }
    ensures front { take filled bytes.new ≡ take filled bytes.old }
    ensures bound { IfOk result (λ n. filled + n ≤ length bytes.new) }
    ensures bytes { IfOk result (λ n. Consumes reader.old.bytes reader.new.bytes (take n (drop filled bytes.new))) }
    ensures end { IfOk result (λ n. n ≡ 0 → IsAtEnd reader.new.bytes) }
    ensures made { (results : List ReadResult) × MakesReads R.reads reader.old results reader.new
        × Returns reader.old results reader.new result }
    ensures same { OnOk result (reader.new.failed ≡ reader.old.failed) }
{
    reader.read(&mut bytes[filled..])
}

// The bytes of a reader, at most `cap`, read in pieces into the room of a vector.
fn read_pieces<R: Input>(
    reader: &mut MarkedReader<'_, R>,
    mut bytes: Vec<u8>,
    cap: usize,
) -> Result<Vec<u8>, ReadFault>
    ensures whole { IfOk result (λ bytes. IfSome reader.old.bytes (λ all. bytes.items ≡ all)) }
    ensures within { IfOk result (λ bytes. vec_len bytes ≤ cap) }
    ensures same { OnOk result (reader.new.failed ≡ reader.old.failed) }
    ensures too_long { result ≡ Err ReadFault.TooLong → IfSome reader.old.bytes (λ all. cap < length all) }
    ensures made { (results : List ReadResult) × MakesReads R.reads reader.old results reader.new
        × EndsReading cap ((reader.new.left ≡ 0) ⊎ (reader.old.failed ≡ true)) results result }
{
    let mut filled = 0;
    while filled <= cap {
        if make_room(&mut bytes, filled).is_err() {
            return Err(ReadFault::OutOfMemory);
        }
        let count = read_after(reader, bytes.as_mut_slice(), filled)?;
        if count == 0 {
            bytes.truncate(filled);
            return Ok(bytes);
        }
        filled += count;
    }
    Err(ReadFault::TooLong)
}

// The room to begin with for a file that is said to have this number of bytes: one byte more, where its end is read. The
// number may be wrong, and it is 0 for a pipe.
fn first_room(size: u64, cap: usize) -> usize {
    match usize::try_from(size) {
        Ok(0) => PIECE,
        Ok(size) => size.min(cap).saturating_add(1),
        Err(_) => PIECE,
    }
}

/// Returns the bytes of a reader, at most `cap`. It is said to have `size` bytes, for which room is made at once; any other
/// number of bytes is read as well.
pub fn read_within<R: Input>(
    alloc: Global,
    reader: &mut MarkedReader<'_, R>,
    size: u64,
    cap: usize,
) -> Result<Vec<u8>, ReadFault>
    ensures whole { IfOk result (λ bytes. IfSome reader.old.bytes (λ all. bytes.items ≡ all)) }
    ensures within { IfOk result (λ bytes. vec_len bytes ≤ cap) }
    ensures same { OnOk result (reader.new.failed ≡ reader.old.failed) }
    ensures too_long { result ≡ Err ReadFault.TooLong → IfSome reader.old.bytes (λ all. cap < length all) }
    ensures made { (results : List ReadResult) × MakesReads R.reads reader.old results reader.new
        × EndsReading cap ((reader.new.left ≡ 0) ⊎ (reader.old.failed ≡ true)) results result }
{
    match Vec::with_capacity(alloc, first_room(size, cap)) {
        Ok(bytes) => read_pieces(reader, bytes, cap),
        Err(_) => Err(ReadFault::OutOfMemory),
    }
}

/// Returns the bytes of a file, at most `FILE_CAP`. It is said to have `size` bytes, and may have others. A longer file is
/// too long. A file whose end was not found after `FILE_CAP + 1` reads cannot be read.
pub fn read_file<R: Input + Drop>(
    alloc: Global,
    mut file: R,
    size: u64,
) -> Result<Vec<u8>, ReadFault>
    ensures whole { IfOk result (λ bytes. IfSome (R.remaining file) (λ all. bytes.items ≡ all)) }
    ensures within { IfOk result (λ bytes. vec_len bytes ≤ FILE_CAP) }
    ensures too_long { result ≡ Err ReadFault.TooLong → IfSome (R.remaining file) (λ all. FILE_CAP < length all) }
    ensures reads { ReadsFile R.reads file result }
{
    let mut reader = MarkedReader::new(&mut file, FILE_READS);
    read_within(alloc, &mut reader, size, FILE_CAP)
}
