//! The lines of faults and their statuses, the texts of faults that calls return, which no contract has, and a line
//! that does not fit its buffer.
use binding::faults::BindFault;
use param_check::faults::CheckFault;
use plan_shelf::faults::ShelfFault;
use result_book::books::BookFault;
use span_csv::faults::{ParamFault, PositionFault};
use span_tables::name::Name;
use statement::fault_lines::{tell_fault, write_fault};
use statement::faults::{SpanFault, status};
use std::alloc::Global;
use std::fmt::Display;
use std::process::Abort;
use step_scheduler::boards::Refused;
use worker_pool::batch::PoolFault;
use writers::marked_writer::MarkedWriter;

// The account of the faults below.
fn account() -> Name {
    Name::new(b"ACC-1").unwrap_or(Name::default())
}

// Checks that each fault has this line and this status.
fn have_lines(rt: &impl Abort, alloc: Global, lines: &[(SpanFault, &str, u8)]) {
    for (fault, line, number) in lines {
        let mut written = Vec::new(alloc);
        assert!(rt; write_fault(fault, &mut written).is_ok());
        assert_eq!(rt; written.as_slice(), line.as_bytes());
        assert_eq!(rt; status(fault), *number);
    }
}

// One fault of each kind that names no account.
const LINES: [(SpanFault, &str, u8); 9] = [
    (
        SpanFault::Params(ParamFault::NoSet { at: 0 }),
        "parameters: P1 NoSet at record 0\n",
        3,
    ),
    (
        SpanFault::Check(CheckFault::DuplicateSpot { at: 12 }),
        "parameters: C11 DuplicateSpot at record 12\n",
        3,
    ),
    (
        SpanFault::Positions(PositionFault::TooManyAccounts { at: 12 }),
        "positions: Q5 TooManyAccounts at record 12\n",
        4,
    ),
    (
        SpanFault::NextParams(ParamFault::FieldCount { at: 2 }),
        "next parameters: P4 FieldCount at record 2\n",
        3,
    ),
    (
        SpanFault::NextCheck(CheckFault::OneSided { at: 9 }),
        "next parameters: C9 OneSided at record 9\n",
        3,
    ),
    (SpanFault::Workers, "workers: L1 Workers\n", 2),
    (
        SpanFault::Book(BookFault::AlreadyThere),
        "book: K2 AlreadyThere\n",
        7,
    ),
    (SpanFault::Shelf, "shelf\n", 7),
    (SpanFault::Memory, "memory\n", 5),
];

// One fault of each kind that names an account.
fn lines_of_accounts(rt: &impl Abort, alloc: Global) {
    let bound = BindFault::NetOutOfRange {
        at: 3,
        account: account(),
    };
    let bound_next = BindFault::TooManyHeld {
        at: 4,
        account: account(),
    };
    let lines = [
        (
            SpanFault::Bind(bound),
            "positions: B2 NetOutOfRange at record 3 account ACC-1\n",
            4,
        ),
        (
            SpanFault::NextBind(bound_next),
            "next positions: B3 TooManyHeld at record 4 account ACC-1\n",
            4,
        ),
        (
            SpanFault::UnknownAccount { account: account() },
            "positions: E1 UnknownAccount account ACC-1\n",
            4,
        ),
    ];
    have_lines(rt, alloc, &lines);
}

#[test]
fn lines_of_faults(rt: HostRuntime) {
    have_lines(&rt, rt.alloc(), &LINES);
    lines_of_accounts(&rt, rt.alloc());
}

// Checks that the value is displayed as this text.
fn is_shown<T: Display>(rt: &impl Abort, alloc: Global, value: &T, text: &str) {
    let shown = format!(in alloc; "{value}").expect(rt, "a text");
    assert_eq!(rt; shown.as_str(), text);
}

// The texts of faults that calls return, but that are not a reason to reject a statement.
fn of_calls(rt: &impl Abort, alloc: Global) {
    is_shown(rt, alloc, &ShelfFault::Readers, "Readers");
    is_shown(rt, alloc, &ShelfFault::Last, "Last");
    is_shown(rt, alloc, &PoolFault::Workers, "L1 Workers");
    is_shown(rt, alloc, &Refused::NotTaken, "NotTaken");
    is_shown(rt, alloc, &Refused::Failed, "Failed");
    is_shown(rt, alloc, &ShelfFault::OutOfMemory, "memory");
    is_shown(rt, alloc, &PoolFault::OutOfMemory, "memory");
}

#[test]
fn texts_of_faults(rt: HostRuntime) {
    of_calls(&rt, rt.alloc());
}

// A writer without room for the whole line fails.
#[test]
fn line_without_room(rt: HostRuntime) {
    let fault = SpanFault::Bind(BindFault::TooManyHeld {
        at: 9,
        account: account(),
    });
    let mut room = [0; 40];
    let mut out = &mut room[..];
    assert!(rt; write_fault(&fault, &mut out).is_err());
    assert_eq!(rt;
        room.as_slice(),
        b"positions: B3 TooManyHeld at record 9 ac".as_slice()
    );
    let mut room = [0; 40];
    let mut out = MarkedWriter::new(&mut room[..]);
    tell_fault(&fault, &mut out);
    assert!(rt; out.failed());
}
