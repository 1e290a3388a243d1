//! Writers that fail after each number of bytes: for a statement, a line of counts and the line of a fault.
use sample_files::one_future;
use sample_files::three_commodities::{PARAMS, POSITIONS, STATEMENT};
use span_cli::memory::InMemory;
use span_cli::requests::{Command, Request, Service};
use span_cli::serving::{ServingMeans, serve};
use std::alloc::Global;
use std::io;
use std::io::{ErrorKind, Write};
use std::sync::Wait;
use std::thread::Threads;
use std::time::Clock;
use worker_pool::gates::OpenGate;
use writers::marked_writer::MarkedWriter;

// Keeps what is written, up to a number of bytes, and then fails.
#[derive(Drop)]
struct Narrow {
    room: usize,
    kept: Vec<u8>,
}

impl Write for Narrow {
    fn write(&mut self, buf: &[u8]) -> io::Result<usize> {
        if self.room == 0 {
            return Err(io::Error::from(ErrorKind::StorageFull));
        }
        let taken = self.room.min(buf.len());
        self.kept.extend_from_slice(&buf[..taken])?;
        self.room -= taken;
        Ok(taken)
    }

    fn flush(&mut self) -> io::Result<()> {
        Ok(())
    }
}

/// Returns the status of a margin of two files in memory, and what was written on both streams, which have this much
/// room.
fn margin_into<R: Threads + Wait + Clock + Sync>(
    rt: &R,
    alloc: Global,
    params: &[u8],
    room: usize,
    error_room: usize,
) -> (u8, Vec<u8>, Vec<u8>) {
    let mut sources = InMemory {
        files: &[("params.csv", params), ("positions.csv", POSITIONS)],
    };
    let mut out = MarkedWriter::new(Narrow {
        room,
        kept: Vec::new(alloc),
    });
    let mut err = MarkedWriter::new(Narrow {
        room: error_room,
        kept: Vec::new(alloc),
    });
    let files = ["params.csv", "positions.csv"];
    let request = Request::new(Service::Once(Command::Margin(1)), &files);
    let lent = ServingMeans {
        rt,
        alloc,
        gate: &OpenGate,
    };
    let mut input = b"".as_slice();
    let status = serve(&lent, request, &mut sources, &mut input, &mut out, &mut err);
    (status, out.into_inner().kept, err.into_inner().kept)
}

// The beginning of the statement is written, and the error stream says that the output failed.
#[test]
fn output_that_fails(rt: HostRuntime) {
    for room in 0..STATEMENT.len() {
        let (status, out, err) = margin_into(&rt, rt.alloc(), PARAMS, room, 100);
        assert_eq!(rt; status, 6);
        assert_eq!(rt; out.as_slice(), &STATEMENT[..room]);
        assert_eq!(rt; err.as_slice(), b"file: output\n".as_slice());
    }
    let (status, out, err) = margin_into(&rt, rt.alloc(), PARAMS, STATEMENT.len(), 0);
    assert_eq!(rt; status, 0);
    assert_eq!(rt; out.as_slice(), STATEMENT);
    assert!(rt; err.is_empty());
}

const LINE: &[u8] = b"positions: B1 UnknownContract at record 2 account X\n";

// The status is the fault's, and the beginning of its line is written.
#[test]
fn line_that_fails(rt: HostRuntime) {
    for room in 0..=LINE.len() {
        let (status, out, err) = margin_into(&rt, rt.alloc(), one_future::PARAMS, 0, room);
        assert_eq!(rt; status, 4);
        assert!(rt; out.is_empty());
        assert_eq!(rt; err.as_slice(), &LINE[..room]);
    }
}

// If both streams fail, the status is 6, as for the output alone.
#[test]
fn both_that_fail(rt: HostRuntime) {
    let line = b"file: output\n".as_slice();
    for room in 0..=line.len() {
        let (status, out, err) = margin_into(&rt, rt.alloc(), PARAMS, 3, room);
        assert_eq!(rt; status, 6);
        assert_eq!(rt; out.as_slice(), &STATEMENT[..3]);
        assert_eq!(rt; err.as_slice(), &line[..room]);
    }
}
