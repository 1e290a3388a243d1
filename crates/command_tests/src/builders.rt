//! What the tests share: a writer that fails, and the result of a command line.
use sources::Sources;
use span_cli::outputs::{ErrorStream, OutputStream};
use span_cli::serving::ServingMeans;
use span_cli::words::run_words;
use std::alloc::Global;
use std::io;
use std::io::{ErrorKind, Read, Write};
use std::sync::Wait;
use std::thread::Threads;
use std::time::Clock;
use worker_pool::gates::Gate;
use writers::marked_writer::MarkedWriter;

/// A status, and what was written on both streams.
#[derive(Drop)]
pub struct Given {
    pub status: u8,
    pub out: Vec<u8>,
    pub err: Vec<u8>,
}

impl Given {
    pub(crate) fn is(&self, status: u8, out: &[u8], err: &[u8]) -> bool {
        self.status == status && self.out.as_slice() == out && self.err.as_slice() == err
    }
}

/// Returns the result of a command line with these sources and this input. Its workers pass this gate.
pub(crate) fn run_over<S: Sources, I: Read + Drop, R: Threads + Wait + Clock + Sync, G: Gate>(
    rt: &R,
    alloc: Global,
    words: &[&str],
    sources: &mut S,
    gate: &G,
    mut input: I,
) -> Given {
    let mut out = MarkedWriter::new(Vec::new(alloc));
    let mut err = MarkedWriter::new(Vec::new(alloc));
    let lent = ServingMeans { rt, alloc, gate };
    let status = run_words(&lent, words, sources, &mut input, &mut out, &mut err);
    Given {
        status,
        out: out.into_inner(),
        err: err.into_inner(),
    }
}

/// Returns the result of a command line with these sources and an empty input. Its workers pass this gate.
pub(crate) fn run_on<S: Sources, R: Threads + Wait + Clock + Sync, G: Gate>(
    rt: &R,
    alloc: Global,
    words: &[&str],
    sources: &mut S,
    gate: &G,
) -> Given {
    run_over(rt, alloc, words, sources, gate, b"".as_slice())
}

/// A writer that takes a few bytes and then fails.
#[derive(Drop)]
pub struct Breaking {
    pub room: usize,
}

impl Write for Breaking {
    fn write(&mut self, buf: &[u8]) -> io::Result<usize> {
        if self.room == 0 {
            return Err(io::Error::from(ErrorKind::BrokenPipe));
        }
        let taken = self.room.min(buf.len());
        self.room -= taken;
        Ok(taken)
    }

    fn flush(&mut self) -> io::Result<()> {
        Ok(())
    }
}

impl OutputStream for Breaking {}

impl ErrorStream for Breaking {}
