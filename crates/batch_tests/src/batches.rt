//! Batches on each number of workers. No contract states that an account gets its row if there is enough memory.
use plan_compiler::set::CompiledSet;
use sample_files::one_future::PARAMS;
use sample_sets::files::{accounts_of, set_of};
use std::alloc::Global;
use std::process::Abort;
use std::sync::{Arc, Wait};
use std::thread::Threads;
use std::time::Clock;
use worker_pool::batch::{MAX_WORKERS, run_batch};
use worker_pool::gates::OpenGate;
use worker_pool::outcomes::Outcome;

/// Two accounts in order of first appearance: the first is long two futures, the second is short one.
pub(crate) const TWO_ACCOUNTS: &[u8] = b"\
Y,FA,1
X,FA,-1
Y,FA,1
";

// Whether the outcome is a row of this account, with this total.
fn is_row(outcome: &Outcome, account: &[u8], total: i128) -> bool {
    match outcome {
        Outcome::Margined(row) => row.account().as_bytes() == account && row.total().get() == total,
        Outcome::NoMemory(_) => false,
    }
}

/// Returns whether the outcomes are the rows of the two accounts, with 1200 for each future.
pub(crate) fn are_rows_of_both(outcomes: &[Outcome]) -> bool {
    match outcomes {
        [first, second] => is_row(first, b"Y", 2400) && is_row(second, b"X", 1200),
        _ => false,
    }
}

// Runs the two accounts on a number of workers.
fn run_both<R: Threads + Wait + Clock + Sync + Abort>(
    rt: &R,
    alloc: Global,
    set: &Arc<CompiledSet>,
    workers: usize,
) {
    let accounts = accounts_of(alloc, set, TWO_ACCOUNTS).expect(rt, "accounts");
    let outcomes = run_batch(rt, alloc, set, accounts, workers, &OpenGate);
    assert!(rt;
        are_rows_of_both(&outcomes.expect(rt, "a batch")),
        "{workers} workers"
    );
}

#[test]
fn numbers_of_workers(rt: HostRuntime) {
    let set = set_of(rt.alloc(), PARAMS).expect(&rt, "a set");
    for workers in 1..=MAX_WORKERS {
        run_both(&rt, rt.alloc(), &set, workers);
    }
}

#[test]
fn a_hundred_batches(rt: HostRuntime) {
    let set = set_of(rt.alloc(), PARAMS).expect(&rt, "a set");
    for _ in 0..100 {
        run_both(&rt, rt.alloc(), &set, MAX_WORKERS);
    }
}
