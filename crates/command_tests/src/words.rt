//! Command lines with a file that cannot be read, or a stream that fails.
use crate::builders::{Breaking, run_on};
use sample_files::one_future::{PARAMS, POSITIONS, STATEMENT};
use sources::{ReadFault, Sources};
use span_cli::memory::InMemory;
use span_cli::outputs::{ErrorStream, OutputStream};
use span_cli::serving::ServingMeans;
use span_cli::words::{refuse_words, run_words};
use std::alloc::Global;
use std::io;
use std::io::ErrorKind;
use std::sync::Wait;
use std::thread::Threads;
use std::time::Clock;
use worker_pool::gates::OpenGate;
use writers::marked_writer::MarkedWriter;

const FILES: [(&str, &[u8]); 4] = [
    ("params.csv", PARAMS),
    ("positions.csv", POSITIONS),
    (
        "short.csv",
        b"SET,D1,1,USD\nCOMMODITY,AA,0,SUM\nCONTRACT,FA,AA,F,2025\n",
    ),
    ("unknown.csv", b"X,FA,1\nY,FZ,1\n"),
];

// Returns the first file, and fails for the next.
#[derive(Drop)]
struct Second {
    reads: usize,
    fault: ReadFault,
}

impl Sources for Second {
    fn read(&mut self, alloc: Global, _name: &str) -> Result<Vec<u8>, ReadFault> {
        self.reads = self.reads.saturating_add(1);
        if self.reads > 1 {
            return Err(self.fault);
        }
        Vec::from_slice(alloc, PARAMS).map_err(|_| ReadFault::OutOfMemory)
    }
}

// Memory runs out for every file.
#[derive(Drop)]
struct Cramped;

impl Sources for Cramped {
    fn read(&mut self, _alloc: Global, _name: &str) -> Result<Vec<u8>, ReadFault> {
        Err(ReadFault::OutOfMemory)
    }
}

#[test]
fn refuses_what_cannot_be_read(rt: HostRuntime) {
    let alloc = rt.alloc();
    let margin = ["span", "margin", "p", "q"];
    let cases: [(ReadFault, u8, &[u8]); 3] = [
        (ReadFault::Failed, 6, b"file: q\n"),
        (ReadFault::TooLong, 6, b"file: q\n"),
        (ReadFault::OutOfMemory, 5, b"memory\n"),
    ];
    for (fault, status, line) in cases {
        let mut sources = Second { reads: 0, fault };
        let given = run_on(&rt, alloc, &margin, &mut sources, &OpenGate);
        assert!(rt; given.is(status, b"", line), "{fault}");
    }
    let check = ["span", "check", "p"];
    assert!(rt; run_on(&rt, alloc, &check, &mut Cramped, &OpenGate).is(5, b"", b"memory\n"));
}

// The status of a command line with `FILES`, and the two writers afterwards.
fn run_into<W: OutputStream, E: ErrorStream, R: Threads + Wait + Clock + Sync>(
    rt: &R,
    alloc: Global,
    words: &[&str],
    out: W,
    err: E,
) -> (u8, W, E) {
    let files = FILES;
    let mut sources = InMemory { files: &files };
    let mut out = MarkedWriter::new(out);
    let mut err = MarkedWriter::new(err);
    let lent = ServingMeans {
        rt,
        alloc,
        gate: &OpenGate,
    };
    let mut input = b"".as_slice();
    let status = run_words(&lent, words, &mut sources, &mut input, &mut out, &mut err);
    (status, out.into_inner(), err.into_inner())
}

#[test]
fn says_that_the_output_failed(rt: HostRuntime) {
    let alloc = rt.alloc();
    let lines: [&[&str]; 3] = [
        &["span", "margin", "params.csv", "positions.csv"],
        &["span", "check", "params.csv"],
        &["span", "--help"],
    ];
    for words in lines {
        for room in [0usize, 3] {
            let (status, _, err) = run_into(&rt, alloc, words, Breaking { room }, Vec::new(alloc));
            assert_eq!(rt; status, 6);
            assert!(rt; err.as_slice() == b"file: output\n".as_slice());
        }
    }
}

#[test]
fn keeps_its_status_where_the_error_stream_fails(rt: HostRuntime) {
    let alloc = rt.alloc();
    let lines: [(&[&str], u8, &[u8]); 5] = [
        (&["span", "margin", "short.csv", "positions.csv"], 3, b""),
        (&["span", "margin", "params.csv", "unknown.csv"], 4, b""),
        (&["span", "check", "none"], 6, b""),
        (&["span", "plot", "params.csv"], 2, b""),
        (
            &["span", "margin", "params.csv", "positions.csv"],
            0,
            STATEMENT,
        ),
    ];
    for (words, status, printed) in lines {
        let (given, out, _) = run_into(&rt, alloc, words, Vec::new(alloc), Breaking { room: 3 });
        assert_eq!(rt; given, status);
        assert_eq!(rt; out.as_slice(), printed);
    }
}

#[test]
fn keeps_its_status_where_both_streams_fail(rt: HostRuntime) {
    let words = ["span", "margin", "params.csv", "positions.csv"];
    let (status, _, _) = run_into(
        &rt,
        rt.alloc(),
        &words,
        Breaking { room: 5 },
        Breaking { room: 0 },
    );
    assert_eq!(rt; status, 6);
}

// An argument that is not UTF-8 is a usage error. Another error in reading the arguments is reported as out of memory.
#[test]
fn refuses_words_that_cannot_be_read(rt: HostRuntime) {
    let cases: [(ErrorKind, u8, &[u8]); 2] = [
        (
            ErrorKind::InvalidData,
            2,
            b"error: a word of the command line is not UTF-8\n",
        ),
        (ErrorKind::OutOfMemory, 5, b"memory\n"),
    ];
    for (kind, status, line) in cases {
        let mut err = MarkedWriter::new(Vec::new(rt.alloc()));
        assert_eq!(rt; refuse_words(&io::Error::from(kind), &mut err), status);
        assert!(rt; err.into_inner().as_slice() == line);
    }
}
