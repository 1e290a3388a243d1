//! Workers: all of them take part, at the same time, and each step is evaluated once.
use crate::builders::{Given, run_on};
use sample_files::two_commodities::{PARAMS, POSITIONS, STATEMENT};
use span_cli::memory::InMemory;
use span_tables::name::Name;
use std::alloc::{AllocError, Global};
use std::process::Abort;
use std::sync::Wait;
use std::sync::atomic::Ordering::SeqCst;
use std::sync::atomic::{AtomicBool, AtomicU64, AtomicUsize};
use std::thread;
use std::thread::Threads;
use std::time::Clock;
use worker_pool::batch::MAX_WORKERS;
use worker_pool::gates::Gate;

/// The number of steps in the plan of two commodities with a spread between them.
const STEPS: usize = 23;
/// The order of the steps on one worker (docs/ARCHITECTURE.md): the steps of each commodity except its figures, the
/// steps between commodities, the figures, the totals.
const IN_ORDER: [usize; STEPS] = [
    0, 1, 2, 3, 4, 5, 6, 8, 9, 10, 11, 12, 13, 14, 16, 17, 18, 19, 7, 15, 20, 21, 22,
];

// A gate at which each pass waits until `awaited` workers have entered. If the turns of one pass are used up, it is too
// late, and everything may pass. It notes, as bits, which workers and steps passed, how many passes there were, and
// whether one was out of order.
#[derive(Drop)]
struct Together {
    awaited: u32,
    workers: AtomicU64,
    steps: AtomicU64,
    passes: AtomicUsize,
    astray: AtomicBool,
    late: AtomicBool,
}

impl Together {
    fn new(awaited: u32) -> Together {
        Together {
            awaited,
            workers: AtomicU64::new(0),
            steps: AtomicU64::new(0),
            passes: AtomicUsize::new(0),
            astray: AtomicBool::new(false),
            late: AtomicBool::new(false),
        }
    }

    // Whether exactly these workers passed, and no pass was too late. Worker 0 is the lowest bit.
    fn were_together(&self, workers: u64) -> bool {
        self.workers.load(SeqCst) == workers && !self.late.load(SeqCst)
    }

    // Whether each step of the plan passed exactly once.
    fn was_passed_once_by_each_step(&self) -> bool {
        self.steps.load(SeqCst) == (1 << STEPS) - 1 && self.passes.load(SeqCst) == STEPS
    }

    // Whether the steps of the plan passed in their order.
    fn was_passed_in_order(&self) -> bool {
        self.passes.load(SeqCst) == STEPS && !self.astray.load(SeqCst)
    }
}

impl Gate for Together {
    fn pass(&self, worker: usize, _account: &Name, step: usize) {
        let place = self.passes.fetch_add(1, SeqCst);
        if IN_ORDER.get(place) != Some(&step) {
            self.astray.store(true, SeqCst);
        }
        if worker < 64 {
            self.workers.fetch_or(1 << worker, SeqCst);
        }
        if step < 64 {
            self.steps.fetch_or(1 << step, SeqCst);
        }
        for _ in 0..10_000_000 {
            let entered = self.workers.load(SeqCst).count_ones();
            if entered >= self.awaited || self.late.load(SeqCst) {
                return;
            }
            thread::yield_now();
        }
        self.late.store(true, SeqCst);
    }
}

// The result of a command line with two files.
fn run<R: Threads + Wait + Clock + Sync>(
    rt: &R,
    alloc: Global,
    words: &[&str],
    params: &[u8],
    positions: &[u8],
    gate: &Together,
) -> Given {
    let mut sources = InMemory {
        files: &[("params.csv", params), ("positions.csv", positions)],
    };
    run_on(rt, alloc, words, &mut sources, gate)
}

const ALONE: [&str; 4] = ["span", "margin", "params.csv", "positions.csv"];

// One account, whose steps three workers share.
#[test]
fn three_workers_at_once(rt: HostRuntime) {
    let gate = Together::new(3);
    let words = [
        "span",
        "margin",
        "--workers",
        "3",
        "params.csv",
        "positions.csv",
    ];
    assert!(rt; run(&rt, rt.alloc(), &words, PARAMS, POSITIONS, &gate).is(0, STATEMENT, b""));
    assert!(rt; gate.were_together(0b111));
    assert!(rt; gate.was_passed_once_by_each_step());
}

// An order of a new account, whose steps three workers share.
#[test]
fn three_workers_at_one_order(rt: HostRuntime) {
    let gate = Together::new(3);
    let words = [
        "span",
        "whatif",
        "--workers=3",
        "params.csv",
        "positions.csv",
        "orders.csv",
    ];
    let mut sources = InMemory {
        files: &[
            ("params.csv", PARAMS),
            ("positions.csv", b""),
            ("orders.csv", b"TRY,X,FA,1\nTRY,X,FB,-2\n"),
        ],
    };
    let given = run_on(&rt, rt.alloc(), &words, &mut sources, &gate);
    let changes = b"\
CHANGE,TRY,X,D1,AA,0,600,600
CHANGE,TRY,X,D1,BB,0,1350,1350
ORDER,TRY,X,D1,0,1950,1950
";
    assert!(rt; given.is(0, changes, b""));
    assert!(rt; gate.were_together(0b111));
}

#[test]
fn each_step_once_in_order_on_one_worker(rt: HostRuntime) {
    let gate = Together::new(1);
    assert!(rt; run(&rt, rt.alloc(), &ALONE, PARAMS, POSITIONS, &gate).is(0, STATEMENT, b""));
    assert!(rt; gate.were_together(0b1));
    assert!(rt; gate.was_passed_once_by_each_step() && gate.was_passed_in_order());
}

/// The number of commodities in a parameter set under which many steps of an account are ready at once.
const MANY: usize = 16;

// One future for each of many commodities. It loses 100 when prices fall by the whole range.
fn wide_params(alloc: Global) -> Result<String, AllocError> {
    let mut text = format!(in alloc; "SET,D1,1,USD\n")?;
    for commodity in 0..MANY {
        text.write_fmt(format_args!("COMMODITY,C{commodity},0,SUM\n"))?;
    }
    for contract in 0..MANY {
        text.write_fmt(format_args!(
            "CONTRACT,K{contract},C{contract},F,202503,1,1,0,0,0,0,0,0,0,0,0,0,-100,-100,100,100,0,0\n"
        ))?;
    }
    Ok(text)
}

// Two accounts that are long each future.
fn wide_positions(alloc: Global) -> Result<String, AllocError> {
    let mut text = String::new(alloc);
    for account in ["X", "Y"] {
        for contract in 0..MANY {
            text.write_fmt(format_args!("{account},K{contract},1\n"))?;
        }
    }
    Ok(text)
}

// The result of these arguments with the parameter set of many commodities and its two accounts.
fn run_wide<R: Threads + Wait + Clock + Sync + Abort>(
    rt: &R,
    alloc: Global,
    words: &[&str],
    gate: &Together,
) -> Given {
    let params = wide_params(alloc).expect(rt, "a set");
    let positions = wide_positions(alloc).expect(rt, "positions");
    run(
        rt,
        alloc,
        words,
        params.as_bytes(),
        positions.as_bytes(),
        gate,
    )
}

// The accounts are cut into two slices, each for a team of eight.
#[test]
fn two_teams_of_eight(rt: HostRuntime) {
    let gate = Together::new(MAX_WORKERS as u32);
    let words = [
        "span",
        "margin",
        "--workers",
        "16",
        "params.csv",
        "positions.csv",
    ];
    let given = run_wide(&rt, rt.alloc(), &words, &gate);
    let alone = run_wide(&rt, rt.alloc(), &ALONE, &Together::new(1));
    assert!(rt; alone.status == 0 && given.is(0, alone.out.as_slice(), b""));
    assert!(rt; gate.were_together((1 << MAX_WORKERS) - 1));
}
