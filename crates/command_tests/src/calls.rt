//! Each public call of `span_cli` whose contract lets it fail because memory runs out or because a reader or writer
//! fails. The tests check that it succeeds once if there is memory and nothing fails, and the texts of read faults.
use crate::builders::run_on;
use sample_files::calendar::{COUNTS, PARAMS};
use sources::marked_reader::MarkedReader;
use sources::{ReadFault, Sources};
use span_cli::disk::Disk;
use span_cli::memory::InMemory;
use span_cli::reading::{read_file, read_within};
use span_cli::serving::{ServingMeans, serve};
use span_cli::streams::Streams;
use span_cli::words::request;
use std::alloc::Global;
use std::fs::Metadata;
use std::process::Abort;
use std::rt::Files;
use std::sync::Wait;
use std::thread::Threads;
use std::time::Clock;
use worker_pool::gates::OpenGate;
use writers::marked_writer::MarkedWriter;

// The parameter file of a calendar spread, in memory.
const FILES: [(&str, &[u8]); 1] = [("params.csv", PARAMS)];

// Reading sources: files in memory, and a stream of the system.
fn of_sources<R: Files + Abort>(rt: &R, alloc: Global) {
    let mut sources = InMemory {
        files: &[("params.csv", b"P"), ("positions.csv", b"Q")],
    };
    let read = sources.read(alloc, "positions.csv").expect(rt, "a file");
    assert_eq!(rt; read.as_slice(), b"Q".as_slice());
    let mut disk = Disk::new(alloc, rt);
    let read = disk.read(alloc, "/dev/null").expect(rt, "a stream");
    assert!(rt; read.is_empty());
}

// Reading a reader to its end, as marked and as a file.
fn of_readers(rt: &impl Abort, alloc: Global) {
    let mut bytes = b"abc".as_slice();
    let mut reader = MarkedReader::new(&mut bytes, 4);
    let read = read_within(alloc, &mut reader, 3, 3).expect(rt, "bytes");
    assert_eq!(rt; read.as_slice(), b"abc".as_slice());
    let read = read_file(alloc, b"abc".as_slice(), 3).expect(rt, "a file");
    assert_eq!(rt; read.as_slice(), b"abc".as_slice());
}

// Keeping the name of a stream.
fn of_streams(rt: &impl Abort, alloc: Global) {
    let mut streams = Streams::new(alloc);
    streams.keep(alloc, "/dev/stdin").expect(rt, "room");
    let file = Metadata::of_file(3);
    streams
        .keep_unless_file(alloc, "params.csv", &file)
        .expect(rt, "room");
    assert!(rt; !streams.may_read("/dev/stdin"));
    assert!(rt; streams.may_read("params.csv"));
}

// Answering a command line.
fn of_lines<R: Threads + Wait + Clock + Sync + Abort>(rt: &R, alloc: Global) {
    let mut sources = InMemory { files: &FILES };
    let words = ["span", "check", "params.csv"];
    assert!(rt; run_on(rt, alloc, &words, &mut sources, &OpenGate).is(0, COUNTS, b""));
}

// Parsing arguments to a request, and answering it.
fn of_requests<R: Threads + Wait + Clock + Sync + Abort>(rt: &R, alloc: Global) {
    let mut sources = InMemory { files: &FILES };
    let mut out = MarkedWriter::new(Vec::new(alloc));
    let mut err = MarkedWriter::new(Vec::new(alloc));
    let words = ["span", "check", "params.csv"];
    let request = request(alloc, &words).expect(rt, "a command line");
    let lent = ServingMeans {
        rt,
        alloc,
        gate: &OpenGate,
    };
    let mut input = b"".as_slice();
    let status = serve(&lent, request, &mut sources, &mut input, &mut out, &mut err);
    assert_eq!(rt; status, 0);
    assert_eq!(rt; out.into_inner().as_slice(), COUNTS);
}

#[test]
fn calls_succeed(rt: HostRuntime) {
    let alloc = rt.alloc();
    of_sources(&rt, alloc);
    of_readers(&rt, alloc);
    of_streams(&rt, alloc);
    of_lines(&rt, alloc);
    of_requests(&rt, alloc);
}

// The fault is shown as this text.
fn is_shown(rt: &impl Abort, alloc: Global, fault: ReadFault, text: &str) {
    let shown = format!(in alloc; "{fault}").expect(rt, "a text");
    assert_eq!(rt; shown.as_str(), text);
}

#[test]
fn texts_of_faults(rt: HostRuntime) {
    is_shown(
        &rt,
        rt.alloc(),
        ReadFault::Failed,
        "the file cannot be read",
    );
    is_shown(&rt, rt.alloc(), ReadFault::TooLong, "the file is too long");
    is_shown(&rt, rt.alloc(), ReadFault::OutOfMemory, "memory");
}
