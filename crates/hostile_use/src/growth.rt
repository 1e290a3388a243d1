//! A push on a deque that cannot grow, because memory runs out.
use crate::full::params_of;
use crate::memory::{TwoAccounts, words_of_two, words_or_no_batch};
use crate::waits::{LOOKS, Waits, next_of};
use span_tables::limits::MAX_COMMODITIES;
use span_tables::name::Name;
use statement::faults::SpanFault;
use std::alloc::Global;
use std::process::Abort;
use std::sync::Wait;
use std::sync::atomic::AtomicUsize;
use std::sync::atomic::Ordering::SeqCst;
use std::test::Fail;
use std::thread::Threads;
use std::time::Clock;
use worker_pool::gates::Gate;

// A gate that holds the helper at its first step, when it has stolen at most four steps, until the coordinator passes.
#[derive(Drop)]
struct HeldHelper {
    waits: Waits,
    // How often the coordinator passed.
    passes: AtomicUsize,
    // How often the coordinator passed first with a step of Z, which is behind all steps of X in its deque.
    refused: AtomicUsize,
}

impl HeldHelper {
    /// Creates a gate that nobody has passed.
    fn new() -> HeldHelper {
        HeldHelper {
            waits: Waits::new(LOOKS),
            passes: AtomicUsize::new(0),
            refused: AtomicUsize::new(0),
        }
    }
}

impl Gate for HeldHelper {
    fn pass(&self, worker: usize, account: &Name, _step: usize) {
        if worker != 0 {
            self.waits.until(&self.passes, 1);
        } else if next_of(&self.passes) == 1 && account.as_bytes() == b"Z".as_slice() {
            next_of(&self.refused);
        }
    }
}

/// Returns the results of two accounts under 128 commodities and options with a value. They have 262 steps without
/// inputs, so the coordinator's deque of 256 places grows.
fn two_accounts<R: Threads + Wait + Clock + Sync + Abort>(
    rt: &R,
    alloc: Global,
    gate: &HeldHelper,
) -> Result<(&'static str, &'static str), SpanFault> {
    let params = params_of(alloc, 2, MAX_COMMODITIES)?;
    let accounts = TwoAccounts {
        params: params.as_bytes(),
        positions: b"X,F0,1\nZ,F1,3\n",
        first: b"X",
        first_total: 1200,
        second: b"Z",
        second_total: 3600,
    };
    words_of_two(rt, alloc, &accounts, 2, gate)
}

/// If the deque cannot grow, the coordinator evaluates the step of Z at once, and both accounts get their rows.
#[test]
fn deque_that_grows(rt: HostRuntime) -> Result<(), Fail> {
    let alloc = rt.alloc();
    let gate = HeldHelper::new();
    let words = words_or_no_batch(two_accounts(&rt, alloc, &gate))?;
    let (first, second) = words;
    let push = if gate.refused.load(SeqCst) > 0 {
        "failed"
    } else {
        "succeeded"
    };
    let _ = rt
        .stdout()
        .println(format_args!("a push {push}, X: {first}, Z: {second}"));
    if words != ("a row", "a row") {
        assert!(rt; two_accounts(&rt, alloc, &HeldHelper::new())? == ("a row", "a row"));
    }
    Ok(())
}
