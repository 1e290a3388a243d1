//! Each call of `worker_pool` that may fail, once, with enough memory. No contract states that it succeeds.
//!
//! `front_and_back` makes the calls of deques and of the queue.
use crate::batches::{TWO_ACCOUNTS, are_rows_of_both};
use plan_compiler::set::CompiledSet;
use sample_files::one_future::{PARAMS, POSITIONS};
use sample_sets::files::{account_of, accounts_of, set_of};
use std::alloc::Global;
use std::process::Abort;
use std::sync::{Arc, Wait};
use std::thread::Threads;
use std::time::Clock;
use worker_pool::batch::{MAX_WORKERS, run_batch, run_by_team};
use worker_pool::gates::OpenGate;
use worker_pool::plain::{Runs, run_plain};
use worker_pool::teams::Team;

// One account, which is long one future and loses at most 1200, without and with a gate.
fn of_one(rt: &impl Abort, alloc: Global, set: &Arc<CompiledSet>) {
    let account = account_of(alloc, set, POSITIONS).expect(rt, "an account");
    let mut runs = Runs::new(alloc, set).expect(rt, "runs");
    let row = runs.row(account).expect(rt, "a row");
    assert!(rt; row.total().get() == 1200);
    let account = account_of(alloc, set, POSITIONS).expect(rt, "an account");
    let row = runs
        .row_of(account, Team::ALONE, &OpenGate)
        .expect(rt, "a row");
    assert!(rt; row.total().get() == 1200);
}

// Two accounts on one worker.
fn of_two(rt: &impl Abort, alloc: Global, set: &Arc<CompiledSet>) {
    let accounts = accounts_of(alloc, set, TWO_ACCOUNTS).expect(rt, "accounts");
    let outcomes = run_plain(alloc, set, accounts).expect(rt, "outcomes");
    assert!(rt; are_rows_of_both(&outcomes));
}

// Two accounts on two workers.
fn of_two_workers<R: Threads + Wait + Clock + Sync + Abort>(
    rt: &R,
    alloc: Global,
    set: &Arc<CompiledSet>,
) {
    let accounts = accounts_of(alloc, set, TWO_ACCOUNTS).expect(rt, "accounts");
    let outcomes = run_batch(rt, alloc, set, accounts, 2, &OpenGate).expect(rt, "outcomes");
    assert!(rt; are_rows_of_both(&outcomes));
}

// Two accounts by a team whose workers have the last two numbers.
fn of_a_team<R: Threads + Wait + Clock + Sync + Abort>(
    rt: &R,
    alloc: Global,
    set: &Arc<CompiledSet>,
) {
    let accounts = accounts_of(alloc, set, TWO_ACCOUNTS).expect(rt, "accounts");
    let team = Team {
        first: MAX_WORKERS - 2,
        workers: 2,
    };
    let outcomes = run_by_team(rt, alloc, set, accounts, team, &OpenGate).expect(rt, "outcomes");
    assert!(rt; are_rows_of_both(&outcomes));
}

#[test]
fn calls_succeed(rt: HostRuntime) {
    let alloc = rt.alloc();
    let set = set_of(alloc, PARAMS).expect(&rt, "a set");
    of_one(&rt, alloc, &set);
    of_two(&rt, alloc, &set);
    of_two_workers(&rt, alloc, &set);
    of_a_team(&rt, alloc, &set);
}
