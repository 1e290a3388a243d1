//! Readers that return a few bytes at a time, are interrupted, fail, or never end.
use sources::ReadFault;
use sources::marked_reader::MarkedReader;
use span_cli::reading::read_within;
use std::alloc::Global;
use std::io;
use std::io::{ErrorKind, Read};

// What a reader does in a turn.
#[derive(Clone, Copy)]
enum Turn {
    Gives(&'static [u8]),
    Ends,
    IsInterrupted,
    Breaks,
}

// Takes its turns, and then repeats the last one forever.
#[derive(Drop)]
struct Script {
    turns: &'static [Turn],
    last: Turn,
    at: usize,
}

impl Read for Script {
    fn read(&mut self, buf: &mut [u8]) -> io::Result<usize> {
        let turn = self.turns.get(self.at).copied().unwrap_or(self.last);
        self.at = self.at.saturating_add(1);
        match turn {
            Turn::Gives(bytes) => {
                let n = bytes.len().min(buf.len());
                buf[..n].copy_from_slice(&bytes[..n]);
                Ok(n)
            }
            Turn::Ends => Ok(0),
            Turn::IsInterrupted => Err(ErrorKind::Interrupted.into()),
            Turn::Breaks => Err(ErrorKind::Other.into()),
        }
    }
}

// Reads at most three bytes, in at most eight reads.
fn read(alloc: Global, turns: &'static [Turn], last: Turn) -> Result<Vec<u8>, ReadFault> {
    let mut script = Script { turns, last, at: 0 };
    read_within(alloc, &mut MarkedReader::new(&mut script, 8), 3, 3)
}

#[test]
fn reads_to_the_end(rt: HostRuntime) {
    let cases: [(&'static [Turn], &[u8]); 5] = [
        (&[], b""),
        (&[Turn::Gives(b"ab")], b"ab"),
        // Exactly the largest number of bytes.
        (&[Turn::Gives(b"abc")], b"abc"),
        (
            &[Turn::Gives(b"a"), Turn::Gives(b"b"), Turn::Gives(b"c")],
            b"abc",
        ),
        (
            &[
                Turn::IsInterrupted,
                Turn::Gives(b"a"),
                Turn::IsInterrupted,
                Turn::IsInterrupted,
                Turn::Gives(b"bc"),
                Turn::IsInterrupted,
            ],
            b"abc",
        ),
    ];
    for (turns, bytes) in cases {
        match read(rt.alloc(), turns, Turn::Ends) {
            Ok(read) => assert_eq!(rt; read.as_slice(), bytes),
            Err(fault) => assert_eq!(rt; fault, ReadFault::OutOfMemory),
        }
    }
}

// Whether a reading fails with this fault.
fn is_refused(alloc: Global, turns: &'static [Turn], last: Turn, expected: ReadFault) -> bool {
    match read(alloc, turns, last) {
        Ok(_bytes) => false,
        Err(fault) => fault == expected,
    }
}

#[test]
fn refuses_one_byte_too_many(rt: HostRuntime) {
    let alloc = rt.alloc();
    let cases: [&'static [Turn]; 3] = [
        &[Turn::Gives(b"abcd")],
        &[Turn::Gives(b"abc"), Turn::IsInterrupted, Turn::Gives(b"d")],
        &[Turn::Gives(b"ab"), Turn::Gives(b"cd"), Turn::Breaks],
    ];
    for turns in cases {
        assert!(rt; is_refused(alloc, turns, Turn::Ends, ReadFault::TooLong));
    }
    assert!(rt; is_refused(alloc, &[], Turn::Gives(b"a"), ReadFault::TooLong));
}

#[test]
fn fails_where_a_turn_fails(rt: HostRuntime) {
    let alloc = rt.alloc();
    assert!(rt; is_refused(alloc, &[], Turn::Breaks, ReadFault::Failed));
    let turns = &[Turn::Gives(b"ab"), Turn::Breaks, Turn::Gives(b"c")];
    assert!(rt; is_refused(alloc, turns, Turn::Ends, ReadFault::Failed));
    let turns = &[Turn::IsInterrupted, Turn::Gives(b"abc"), Turn::Breaks];
    assert!(rt; is_refused(alloc, turns, Turn::Ends, ReadFault::Failed));
}

// A reader that is interrupted forever, one that ends after its reads are used up, and one that ends with its last read.
#[test]
fn fails_where_the_turns_run_out(rt: HostRuntime) {
    let alloc = rt.alloc();
    assert!(rt; is_refused(alloc, &[], Turn::IsInterrupted, ReadFault::Failed));
    assert!(rt;
        is_refused(
            alloc,
            &[Turn::Gives(b"abc")],
            Turn::IsInterrupted,
            ReadFault::Failed
        )
    );
    let turns = &[Turn::IsInterrupted; 8];
    assert!(rt; is_refused(alloc, turns, Turn::Ends, ReadFault::Failed));
    let turns = &[Turn::IsInterrupted; 7];
    assert!(rt; read(alloc, turns, Turn::Ends).is_ok());
}

#[test]
fn remembers_what_failed(rt: HostRuntime) {
    let alloc = rt.alloc();
    let mut script = Script {
        turns: &[Turn::IsInterrupted],
        last: Turn::Ends,
        at: 0,
    };
    let mut reader = MarkedReader::new(&mut script, 8);
    assert!(rt; read_within(alloc, &mut reader, 3, 3).is_ok() && !reader.failed());
    let mut script = Script {
        turns: &[],
        last: Turn::Breaks,
        at: 0,
    };
    let mut reader = MarkedReader::new(&mut script, 8);
    assert!(rt; read_within(alloc, &mut reader, 3, 3).is_err() && reader.failed());
}
