//! A result that arrives when its account already has its outcome, because another step of the account ran out of
//! memory.
use crate::memory::{TwoAccounts, words_of_two, words_or_no_batch};
use crate::waits::{LOOKS, Waits, let_others_go_on};
use sample_files::three_commodities::PARAMS;
use span_tables::name::Name;
use statement::faults::SpanFault;
use std::alloc::Global;
use std::process::Abort;
use std::sync::Wait;
use std::sync::atomic::AtomicUsize;
use std::sync::atomic::Ordering::SeqCst;
use std::test::Fail;
use std::thread::Threads;
use std::time::Clock;
use worker_pool::gates::Gate;

// Holds a helper with a step of X until the coordinator reaches its first step of Z. The coordinator continues with X
// when the helper is held, and with Z when the helper has had time to hand in its result.
#[derive(Drop)]
struct HeldStep {
    waits: Waits,
    held: AtomicUsize,
    at_last: AtomicUsize,
    freed: AtomicUsize,
}

impl HeldStep {
    fn new() -> HeldStep {
        HeldStep {
            waits: Waits::new(LOOKS),
            held: AtomicUsize::new(0),
            at_last: AtomicUsize::new(0),
            freed: AtomicUsize::new(0),
        }
    }

    // Whether a helper was held, and released after the coordinator reached Z.
    fn was_held(&self) -> bool {
        self.freed.load(SeqCst) > 0 && self.waits.all_ended()
    }
}

impl Gate for HeldStep {
    fn pass(&self, worker: usize, account: &Name, _step: usize) {
        let is_first = account.as_bytes() == b"X".as_slice();
        match (worker, is_first) {
            (0, true) => self.waits.until(&self.held, 1),
            (0, false) => {
                if self.at_last.swap(1, SeqCst) == 0 {
                    self.waits.until(&self.freed, 1);
                    let_others_go_on();
                }
            }
            (_, true) => {
                self.held.store(1, SeqCst);
                self.waits.until(&self.at_last, 1);
                self.freed.store(1, SeqCst);
            }
            (_, false) => {}
        }
    }
}

// X holds the futures of all three commodities, and Z is long two of the second.
const HELD_AND_LAST: TwoAccounts<'static> = TwoAccounts {
    params: PARAMS,
    positions: b"X,FA,3\nX,FB,-1\nX,FC,-1\nZ,FB,2\n",
    first: b"X",
    first_total: 3450,
    second: b"Z",
    second_total: 1800,
};

// The results of the two accounts on two workers.
fn two_accounts<R: Threads + Wait + Clock + Sync + Abort>(
    rt: &R,
    alloc: Global,
    gate: &HeldStep,
) -> Result<(&'static str, &'static str), SpanFault> {
    words_of_two(rt, alloc, &HELD_AND_LAST, 2, gate)
}

// With enough memory a held result is not late, because its account waits for it. If another step of X ran out of
// memory, the held result is late: it does not change the outcome of X, and Z gets its row.
#[test]
fn result_after_the_outcome(rt: HostRuntime) -> Result<(), Fail> {
    let alloc = rt.alloc();
    let gate = HeldStep::new();
    let words = words_or_no_batch(two_accounts(&rt, alloc, &gate))?;
    let (first, second) = words;
    let step = if gate.was_held() { "held" } else { "not held" };
    let _ = rt.stdout().println(format_args!("a step of X {step}, X: {first}, Z: {second}"));
    assert!(rt; words != ("no memory", "no memory"));
    if words != ("a row", "a row") {
        assert!(rt; two_accounts(&rt, alloc, &HeldStep::new())? == ("a row", "a row"));
    }
    Ok(())
}
