//! Traits that distinguish the two standard streams.
use std::io::Write;
use std::rt::{Stderr, Stdout};

/// A writer for the output of a request. Of the two standard streams, only standard output is one.
pub trait OutputStream: Write {}

/// A writer for the line of a rejection. Of the two standard streams, only standard error is one.
pub trait ErrorStream: Write {}

impl OutputStream for Stdout {}

impl ErrorStream for Stderr {}

// Bytes in memory may take the role of either stream.
impl OutputStream for Vec<u8> {}

impl ErrorStream for Vec<u8> {}
