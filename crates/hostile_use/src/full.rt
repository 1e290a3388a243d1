//! Batches of a thousand accounts, with 64 open boards and a full result queue.
ghost use Rattle.std.specs.Prelude.{◌<◌};

use crate::memory::outcomes_of;
use crate::waits::{Waits, let_others_go_on, next_of};
use plan_compiler::set::CompiledSet;
use sample_sets::files::{accounts_of, set_of};
use span_tables::name::Name;
use statement::faults::SpanFault;
use statement_text::lines::push_row;
use std::alloc::{AllocError, Global};
use std::process::Abort;
use std::sync::atomic::AtomicUsize;
use std::sync::atomic::Ordering::SeqCst;
use std::sync::{Arc, Wait};
use std::test::Fail;
use std::thread;
use std::thread::Threads;
use std::time::Clock;
use worker_pool::batch::MAX_WORKERS;
use worker_pool::gates::Gate;
use worker_pool::outcomes::Outcome;
use worker_pool::plain::run_plain;

/// The number of accounts of a large batch.
const ACCOUNTS: usize = 1000;

/// The maximum number of boards that are open at one time.
const MOST_OPEN: usize = 64;

/// The number of times that a worker of a large batch checks the progress of another before it gives up.
const LOOKS: usize = 10_000_000;

/// Returns a parameter file with a number of commodities, each with one future, which loses at most 1200. Under version
/// 2, options have a value.
pub(crate) fn params_of(
    alloc: Global,
    version: u8,
    commodities: usize,
) -> Result<String, AllocError> {
    let value = if version == 1 { "" } else { ",0" };
    let mut text = format!(in alloc; "SET,D1,{version},USD\n")?;
    for number in 0..commodities {
        write!(text, "COMMODITY,C{number},0,SUM\n")?;
        write!(
            text,
            "CONTRACT,F{number},C{number},F,202503,1,1,0,0,-400,-400,400,400,-800,-800,800,800,"
        )?;
        write!(text, "-1200,-1200,1200,1200,-1188,1188{value}\n")?;
    }
    Ok(text)
}

/// Returns the positions of a thousand accounts. The first is long one future, the next two, and so on, in one
/// commodity after another.
fn positions_of(alloc: Global, commodities: usize) -> Result<String, AllocError>
    requires { 0 < commodities }
{
    let mut text = String::new(alloc);
    for account in 0..ACCOUNTS {
        let (quantity, commodity) = (account + 1, account % commodities);
        write!(text, "A{account},F{commodity},{quantity}\n")?;
    }
    Ok(text)
}

/// Returns the statement of a batch, or out of memory.
fn statement_of(alloc: Global, outcomes: Vec<Outcome>) -> Result<Vec<u8>, SpanFault> {
    let mut text = Vec::new(alloc);
    for outcome in outcomes {
        match outcome {
            Outcome::Margined(row) => push_row(&mut text, &row)?,
            Outcome::NoMemory(_) => return Err(SpanFault::Memory),
        }
    }
    Ok(text)
}

// A large batch, and its statement on one thread.
#[derive(Drop)]
struct LargeBatch {
    set: Arc<CompiledSet>,
    positions: String,
    statement: Vec<u8>,
    // The number of times that a worker checks the progress of another: 0 if no thread can be started.
    looks: usize,
}

impl LargeBatch {
    /// Creates a batch under a number of commodities, and runs it on one thread.
    fn new(alloc: Global, commodities: usize, looks: usize) -> Result<LargeBatch, SpanFault>
        requires { 0 < commodities }
    {
        let params = params_of(alloc, 1, commodities)?;
        let set = set_of(alloc, params.as_bytes()).ok_or(SpanFault::Memory)?;
        let positions = positions_of(alloc, commodities)?;
        let accounts = accounts_of(alloc, &set, positions.as_bytes()).ok_or(SpanFault::Memory)?;
        let statement = statement_of(alloc, run_plain(alloc, &set, accounts)?)?;
        Ok(LargeBatch {
            set,
            positions,
            statement,
            looks,
        })
    }

    /// Runs the batch on several workers, and holds them. The helpers can pass `most` times before the coordinator
    /// takes back a result, and one of them is held at its pass `held_pass`.
    fn run<R: Threads + Wait + Clock + Sync + Abort>(
        &self,
        rt: &R,
        alloc: Global,
        workers: usize,
        most: usize,
        held_pass: usize,
    ) -> Result<(), SpanFault> {
        let accounts = accounts_of(alloc, &self.set, self.positions.as_bytes());
        let accounts = accounts.ok_or(SpanFault::Memory)?;
        let gate = FullGate::new(alloc, self.looks, most, held_pass)?;
        let outcomes = outcomes_of(rt, alloc, &self.set, accounts, workers, &gate)?;
        let statement = statement_of(alloc, outcomes)?;
        assert!(rt;
            statement.as_slice() == self.statement.as_slice(),
            "{workers} workers"
        );
        let seen = gate.seen.load(SeqCst);
        assert!(rt;
            self.looks == 0 || gate.saw_all(),
            "{workers} workers, {seen} passes of helpers, {held_pass}"
        );
        Ok(())
    }
}

// A gate of a large batch. The helpers begin when the coordinator is at its first step. It has then opened 64 boards,
// handed out all of their steps without inputs, and taken back no result. There it is held until the helpers passed as
// often as they can before it takes back a result.
//
// One helper can be held at one of its steps, which it has partly stolen ahead, until the others did the rest.
//
// The helper that passes last is held longer, until more than 64 accounts began. Its own account is one of the first
// 64, and does not end before.
#[derive(Drop)]
struct FullGate {
    waits: Waits,
    // How often the helpers can pass before the coordinator takes back a result.
    most: usize,
    // The pass at which one helper is held: 5 is its fifth. It is 0 if no helper is held.
    held_pass: usize,
    // How often each worker passed.
    passes: Vec<AtomicUsize>,
    // Whether the coordinator is at its first step.
    opened: AtomicUsize,
    // How often the helpers passed.
    helped: AtomicUsize,
    // How often the helpers had passed when the coordinator went on.
    seen: AtomicUsize,
    // How many helpers came to the pass at which one is held.
    held: AtomicUsize,
    // How many accounts began: each has a step 0 without inputs.
    begun: AtomicUsize,
}

impl FullGate {
    /// Creates a gate that nobody has passed. Each wait has at most `looks` checks.
    fn new(
        alloc: Global,
        looks: usize,
        most: usize,
        held_pass: usize,
    ) -> Result<FullGate, AllocError> {
        let mut passes = Vec::new(alloc);
        for _ in 0..MAX_WORKERS {
            passes.push(AtomicUsize::new(0))?;
        }
        Ok(FullGate {
            waits: Waits::new(looks),
            most,
            held_pass,
            passes,
            opened: AtomicUsize::new(0),
            helped: AtomicUsize::new(0),
            seen: AtomicUsize::new(0),
            held: AtomicUsize::new(0),
            begun: AtomicUsize::new(0),
        })
    }

    /// Counts a pass of a worker, and returns which one it is: the first is 1.
    fn counted(&self, worker: usize) -> usize {
        match self.passes.get(worker) {
            Some(passes) => next_of(passes),
            None => 0,
        }
    }

    /// Holds the coordinator at its first pass, and notes how often the helpers passed.
    fn pass_coordinator(&self, pass: usize) {
        if pass == 1 {
            self.opened.store(1, SeqCst);
            self.waits.until(&self.helped, self.most);
            let_others_go_on();
            self.seen.store(self.helped.load(SeqCst), SeqCst);
        }
    }

    /// Counts a pass of a helper, and holds the helper if it is the one to be held or the last one.
    fn pass_helper(&self, pass: usize) {
        self.waits.until(&self.opened, 1);
        let helped = next_of(&self.helped);
        if pass == self.held_pass && next_of(&self.held) == 1 {
            self.waits.until(&self.helped, self.most);
        }
        if helped == self.most {
            self.waits.until(&self.begun, MOST_OPEN + 1);
        }
    }

    /// Returns whether the helpers passed exactly as often as they can, and nobody waited in vain.
    fn saw_all(&self) -> bool {
        let was_held = self.held_pass == 0 || self.held.load(SeqCst) > 0;
        was_held && self.seen.load(SeqCst) == self.most && self.waits.all_ended()
    }
}

impl Gate for FullGate {
    fn pass(&self, worker: usize, _account: &Name, step: usize) {
        if step == 0 {
            next_of(&self.begun);
        }
        let pass = self.counted(worker);
        if worker == 0 {
            self.pass_coordinator(pass);
        } else {
            self.pass_helper(pass);
        }
    }
}

/// Returns the number of times that a worker checks the progress of another. If no thread can be started, the test says
/// so, and nobody waits.
fn looks_of<R: Threads + Print>(rt: &R) -> usize {
    match thread::spawn(rt, || ()) {
        Ok(child) => {
            child.join(rt);
            LOOKS
        }
        Err(_) => {
            let _ = println!(rt; "no thread starts");
            0
        }
    }
}

/// Under eight commodities, 64 boards hand out 640 steps. The helpers fill the queue of 256 places, and each has one
/// step more.
#[test]
fn queue_that_is_full(rt: HostRuntime) -> Result<(), Fail> {
    let alloc = rt.alloc();
    let batch = LargeBatch::new(alloc, 8, looks_of(&rt))?;
    for (workers, most) in [(2, 257), (3, 258), (4, 259), (16, 271)] {
        batch.run(&rt, alloc, workers, most, 0)?;
    }
    Ok(())
}

/// Under one commodity, 64 boards hand out 192 steps. The coordinator has one of them, and the helpers do the others. A
/// helper that is held has stolen up to three of them, which the other helpers have to steal from it.
#[test]
fn helper_that_is_held(rt: HostRuntime) -> Result<(), Fail> {
    let alloc = rt.alloc();
    let batch = LargeBatch::new(alloc, 1, looks_of(&rt))?;
    for workers in [3, 4, 16] {
        for held_pass in 5..9 {
            batch.run(&rt, alloc, workers, 191, held_pass)?;
        }
    }
    Ok(())
}
