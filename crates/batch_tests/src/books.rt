//! A book without a lock: the rows that it rejects and the rows that it keeps.
use result_book::books::{BookFault, PutRefused, ResultBook};
use sample_files::one_future::{PARAMS, POSITIONS};
use sample_sets::files::{account_of, set_of};
use span_tables::name::Name;
use std::alloc::Global;
use std::process::Abort;
use std::sync::Arc;
use step_scheduler::rows::Row;
use worker_pool::plain::Runs;

// The row of the account that is long one future.
fn row_of_one_future(rt: &impl Abort, alloc: Global) -> Arc<Row> {
    let set = set_of(alloc, PARAMS).expect(rt, "a set");
    let account = account_of(alloc, &set, POSITIONS).expect(rt, "an account");
    let mut runs = Runs::new(alloc, &set).expect(rt, "runs");
    runs.row(account).expect(rt, "a row")
}

// The row that is returned if it is rejected for this reason.
fn refused_for(rt: &impl Abort, put: Result<(), PutRefused>, fault: BookFault) -> Arc<Row> {
    match put {
        Err(refused) if refused.fault == fault => refused.row,
        _ => panic!(rt; "not refused for that"),
    }
}

// Puts a row in a batch that was never opened, then in the first batch, then in the first batch again.
fn put_thrice(rt: &impl Abort, book: &mut ResultBook, row: Arc<Row>) {
    let row = refused_for(rt, book.put(7, row), BookFault::NoSuchBatch);
    let again = Arc::try_clone(&row).expect(rt, "a hold on the row");
    assert!(rt; book.put(1, row).is_ok());
    let again = refused_for(rt, book.put(1, again), BookFault::AlreadyThere);
    assert!(rt; again.total().get() == 1200);
}

// The total of the account X in a batch.
fn total_in(book: &ResultBook, batch: u64) -> Option<i128> {
    Some(book.get(batch, &Name::new(b"X")?)?.total().get())
}

#[test]
fn calls_on_a_new_book(rt: HostRuntime) {
    let alloc = rt.alloc();
    let mut book = ResultBook::new(alloc);
    assert!(rt; book.open_batch() == Ok(1));
    assert!(rt; book.open_batch() == Ok(2));
    put_thrice(&rt, &mut book, row_of_one_future(&rt, alloc));
    assert!(rt; total_in(&book, 1) == Some(1200));
    assert!(rt; total_in(&book, 2) == None);
    assert!(rt; book.rows(1).expect(&rt, "rows").len() == 1);
    assert!(rt; book.rows(7).expect(&rt, "rows").is_empty());
}
