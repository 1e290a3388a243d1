//! Exit statuses (docs/FORMATS.md, Fault lines and statuses).

/// Done.
pub const DONE: u8 = 0;

/// The arguments are not a valid command line, or the number of workers is not valid.
pub const USAGE: u8 = 2;

/// The parameters are rejected.
pub const PARAMETERS_REFUSED: u8 = 3;

/// The positions are rejected.
pub const POSITIONS_REFUSED: u8 = 4;

/// Out of memory.
pub const OUT_OF_MEMORY: u8 = 5;

/// A file cannot be read, or the output cannot be written.
pub const FILE_FAILED: u8 = 6;

/// The book or the shelf of a roll failed.
pub const BOOK_REFUSED: u8 = 7;
