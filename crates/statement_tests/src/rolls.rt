//! Rolls: the bytes of both statements, the thread that runs concurrently with the first batch, and the rows that stay
//! in the book.
use binding::faults::BindFault;
use result_book::books::ResultBook;
use sample_files::calendar::{BOTH_STATEMENTS, NEXT, NEXT_WITHOUT_A_CONTRACT, PARAMS, POSITIONS};
use span_csv::faults::ParamFault;
use span_tables::name::Name;
use statement::faults::SpanFault;
use statement::roll::roll;
use std::alloc::Global;
use std::process::Abort;
use std::sync::atomic::AtomicBool;
use std::sync::atomic::Ordering::SeqCst;
use std::sync::{Arc, Mutex, Wait};
use std::thread;
use std::thread::Threads;
use std::time::Clock;
use step_scheduler::rows::Row;
use worker_pool::batch::MAX_WORKERS;
use worker_pool::gates::{Gate, OpenGate};

// Checks that a roll from the first parameter set to the next one returns both statements.
fn gives_both<R: Threads + Wait + Clock + Sync + Abort, G: Gate>(
    rt: &R,
    alloc: Global,
    workers: usize,
    gate: &G,
    book: &Mutex<ResultBook>,
) {
    let text = roll(rt, alloc, PARAMS, NEXT, POSITIONS, workers, gate, book);
    assert_eq!(rt;
        text.expect(rt, "both statements").as_slice(),
        BOTH_STATEMENTS
    );
}

#[test]
fn two_statements_on_each_number_of_workers(rt: HostRuntime) {
    for workers in [1, 2, 4, MAX_WORKERS] {
        let book = Mutex::new(ResultBook::new(rt.alloc()));
        gives_both(&rt, rt.alloc(), workers, &OpenGate, &book);
    }
}

// The thread of the next parameter set and the first step of the first batch wait for each other. If one of them waits
// too long, `late` is set, and both stop waiting.
#[derive(Drop)]
struct Beside {
    of_set: AtomicBool,
    of_batch: AtomicBool,
    late: AtomicBool,
}

impl Beside {
    fn wait_for(&self, other: &AtomicBool) {
        for _ in 0..10_000_000 {
            if other.load(SeqCst) || self.late.load(SeqCst) {
                return;
            }
            thread::yield_now();
        }
        self.late.store(true, SeqCst);
    }
}

impl Gate for Beside {
    fn pass(&self, _worker: usize, _account: &Name, _step: usize) {
        self.of_batch.store(true, SeqCst);
        self.wait_for(&self.of_set);
    }

    fn beside(&self) {
        self.of_set.store(true, SeqCst);
        self.wait_for(&self.of_batch);
    }
}

#[test]
fn the_next_set_beside_the_first_batch(rt: HostRuntime) {
    let book = Mutex::new(ResultBook::new(rt.alloc()));
    let gate = Beside {
        of_set: AtomicBool::new(false),
        of_batch: AtomicBool::new(false),
        late: AtomicBool::new(false),
    };
    gives_both(&rt, rt.alloc(), 1, &gate, &book);
    assert!(rt; !gate.late.load(SeqCst));
}

// Whether a batch has only one row, which has the account X, this parameter set and this total.
fn is_only_row(rows: &[Arc<Row>], id: &[u8], total: i128) -> bool {
    match rows {
        [row] => {
            row.set_id().as_bytes() == id
                && row.account().as_bytes() == b"X".as_slice()
                && row.total().get() == total
        }
        _ => false,
    }
}

#[test]
fn rows_of_both_batches_in_the_book(rt: HostRuntime) {
    let book = Mutex::new(ResultBook::new(rt.alloc()));
    gives_both(&rt, rt.alloc(), 1, &OpenGate, &book);
    let book = book.into_inner();
    assert!(rt; is_only_row(&book.rows(1).expect(&rt, "rows"), b"D1", 1740));
    assert!(rt; is_only_row(&book.rows(2).expect(&rt, "rows"), b"D2", 1840));
    assert!(rt; book.rows(3).expect(&rt, "no rows").is_empty());
}

// Checks that a roll with this next parameter set fails with this fault, and that the rows of the first batch stay in
// the book.
fn rows_stay<R: Threads + Wait + Clock + Sync + Abort>(
    rt: &R,
    alloc: Global,
    next: &[u8],
    fault: SpanFault,
) {
    let book = Mutex::new(ResultBook::new(alloc));
    let refused = roll(rt, alloc, PARAMS, next, POSITIONS, 1, &OpenGate, &book);
    assert!(rt; refused == Err(fault));
    let rows = book.into_inner().rows(1).expect(rt, "rows");
    assert!(rt; is_only_row(&rows, b"D1", 1740));
}

#[test]
fn rows_of_the_first_batch_stay(rt: HostRuntime) {
    let account = Name::new(b"X").expect(&rt, "a name");
    let unknown = SpanFault::NextBind(BindFault::UnknownContract { at: 2, account });
    rows_stay(&rt, rt.alloc(), NEXT_WITHOUT_A_CONTRACT, unknown);
    let no_set = SpanFault::NextParams(ParamFault::NoSet { at: 0 });
    rows_stay(&rt, rt.alloc(), b"", no_set);
}

// The number of the first four batches that have only this row.
fn batches_with(rt: &impl Abort, book: &ResultBook, id: &[u8], total: i128) -> usize {
    let mut found = 0usize;
    for batch in 1..5 {
        if is_only_row(&book.rows(batch).expect(rt, "rows"), id, total) {
            found = found.saturating_add(1);
        }
    }
    found
}

#[test]
fn two_threads_on_one_book(rt: HostRuntime) {
    let book = Mutex::new(ResultBook::new(rt.alloc()));
    thread::join(
        &rt,
        || gives_both(&rt, rt.alloc(), 2, &OpenGate, &book),
        || gives_both(&rt, rt.alloc(), 2, &OpenGate, &book),
    );
    let book = book.into_inner();
    assert_eq!(rt; batches_with(&rt, &book, b"D1", 1740), 2);
    assert_eq!(rt; batches_with(&rt, &book, b"D2", 1840), 2);
    assert!(rt; book.rows(5).expect(&rt, "no rows").is_empty());
}
