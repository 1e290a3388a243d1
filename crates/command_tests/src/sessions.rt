//! Sessions with inputs that end, that end within a line, that are interrupted and that fail, and with outputs that fail.
use crate::builders::{Breaking, Given, run_over};
use sample_files::one_future::{PARAMS, POSITIONS};
use span_cli::memory::InMemory;
use span_cli::requests::{Request, Service};
use span_cli::serving::{ServingMeans, serve};
use std::alloc::Global;
use std::io;
use std::io::{ErrorKind, Read};
use std::sync::Wait;
use std::thread::Threads;
use std::time::Clock;
use worker_pool::gates::OpenGate;
use writers::marked_writer::MarkedWriter;

const FILES: [(&str, &[u8]); 2] = [("params.csv", PARAMS), ("positions.csv", POSITIONS)];

const WORDS: [&str; 4] = ["span", "session", "params.csv", "positions.csv"];

// Returns its bytes, a few at a time, and then fails.
#[derive(Drop)]
struct Cut {
    bytes: &'static [u8],
}

impl Read for Cut {
    fn read(&mut self, buf: &mut [u8]) -> io::Result<usize> {
        if self.bytes.is_empty() {
            return Err(io::Error::from(ErrorKind::Other));
        }
        let count = self.bytes.len().min(buf.len()).min(3);
        let (given, rest) = self.bytes.split_at(count);
        buf[..count].copy_from_slice(given);
        self.bytes = rest;
        Ok(count)
    }
}

// Returns its bytes one at a time, and is interrupted before each of them and before its end.
#[derive(Drop)]
struct Interrupted {
    bytes: &'static [u8],
    is_interrupted: bool,
}

impl Read for Interrupted {
    fn read(&mut self, buf: &mut [u8]) -> io::Result<usize> {
        self.is_interrupted = !self.is_interrupted;
        if self.is_interrupted {
            return Err(io::Error::from(ErrorKind::Interrupted));
        }
        let count = self.bytes.len().min(buf.len()).min(1);
        let (given, rest) = self.bytes.split_at(count);
        buf[..count].copy_from_slice(given);
        self.bytes = rest;
        Ok(count)
    }
}

// The result of a session with the two files and this input.
fn session_over<I: Read + Drop, R: Threads + Wait + Clock + Sync>(
    rt: &R,
    alloc: Global,
    words: &[&str],
    input: I,
) -> Given {
    let files = FILES;
    let mut sources = InMemory { files: &files };
    run_over(rt, alloc, words, &mut sources, &OpenGate, input)
}

const REQUESTS: &[u8] = b"TRY,T,X,FA,1\nPOSITIONS";

const ANSWERS: &[u8] = b"\
OK,D1,1,1,0,0,0,0
done,0
CHANGE,T,X,D1,AA,1200,2400,1200
ORDER,T,X,D1,1200,2400,1200
done,1
X,FA,1
done,2
";

// The length of the answers with numbers 0 and 1.
const FIRST_ANSWERS: usize = 92;

#[test]
fn answers_to_the_end_of_the_input(rt: HostRuntime) {
    assert!(rt; session_over(&rt, rt.alloc(), &WORDS, REQUESTS).is(0, ANSWERS, b""));
}

// An interrupted read is repeated.
#[test]
fn reads_on_after_interruptions(rt: HostRuntime) {
    let input = Interrupted {
        bytes: REQUESTS,
        is_interrupted: false,
    };
    assert!(rt; session_over(&rt, rt.alloc(), &WORDS, input).is(0, ANSWERS, b""));
}

// A line that is cut off by a failure is not a request.
#[test]
fn says_that_the_input_failed(rt: HostRuntime) {
    let input = Cut { bytes: REQUESTS };
    let first = &ANSWERS[..FIRST_ANSWERS];
    assert!(rt; session_over(&rt, rt.alloc(), &WORDS, input).is(6, first, b"file: input\n"));
}

// Neither of the two files may be the stream of requests.
#[test]
fn refuses_the_stream_of_requests(rt: HostRuntime) {
    for words in [
        ["span", "session", "/dev/stdin", "positions.csv"],
        ["span", "session", "params.csv", "/dev/stdin"],
    ] {
        let given = session_over(&rt, rt.alloc(), &words, REQUESTS);
        assert!(rt; given.is(6, b"", b"file: /dev/stdin\n"));
    }
}

// An output that takes only a part of the answers.
#[test]
fn says_that_the_output_failed(rt: HostRuntime) {
    let alloc = rt.alloc();
    for room in [0usize, 5, 30] {
        let files = FILES;
        let mut sources = InMemory { files: &files };
        let mut out = MarkedWriter::new(Breaking { room });
        let mut err = MarkedWriter::new(Vec::new(alloc));
        let request = Request::new(Service::Session(1), &["params.csv", "positions.csv"]);
        let lent = ServingMeans {
            rt: &rt,
            alloc,
            gate: &OpenGate,
        };
        let mut input = REQUESTS;
        let status = serve(&lent, request, &mut sources, &mut input, &mut out, &mut err);
        assert_eq!(rt; status, 6);
        assert!(rt; err.into_inner().as_slice() == b"file: output\n".as_slice());
    }
}
