//! Whole boards: their history is the order in which steps ran, and their figures equal the figures of a board that
//! runs step by step.
use sample_files::{calendar, one_future, option_values, three_commodities, two_commodities};
use sample_sets::boards::{board_of, next_task};
use sample_sets::files::{job_of, set_of};
use std::alloc::Global;
use std::process::Abort;
use std::sync::Arc;
use std::sync::atomic::Ordering::SeqCst;
use std::sync::atomic::{AtomicBool, AtomicUsize};
use step_scheduler::boards::Board;
use step_scheduler::courses::Course;
use step_scheduler::evaluation::evaluate;
use step_scheduler::events::Event;
use step_scheduler::jobs::Job;
use step_scheduler::run_memory::RunMemory;
use step_scheduler::watches::Watch;

/// The files of an account: parameters and positions.
type Files = (&'static [u8], &'static [u8]);

/// Three commodities under a profile in which options have a value. The second commodity has two spreads, and there are
/// spreads between the first and each of the others.
const WITH_VALUES: &[u8] = b"\
SET,D2,2,USD
COMMODITY,AA,0,SUM
COMMODITY,BB,0,SUM
COMMODITY,CC,0,SUM
CONTRACT,FA,AA,F,202503,1,1,0,0,-400,-400,400,400,-800,-800,800,800,-1200,-1200,1200,1200,-1188,1188,0
CONTRACT,FB,BB,F,202503,1,1,0,0,-300,-300,300,300,-600,-600,600,600,-900,-900,900,900,-891,891,0
CONTRACT,GB,BB,F,202506,1,1,0,0,-300,-300,300,300,-600,-600,600,600,-900,-900,900,900,-891,891,0
CONTRACT,CC,CC,C,202503,0.5,1,-5,-3,-9,-7,-4,-2,-12,-11,-3,-1,-20,-19,-2,-1,-15,-1,120
TIER,BB,1,202503,202503
TIER,BB,2,202506,202506
INTRA,BB,1,100,1,A,1,2,B,1
INTRA,BB,2,200,1,B,1,2,A,1
INTER,1,5000,AA,A,1,BB,B,1
INTER,2,2000,AA,A,1,CC,B,1
";

/// Accounts under plans with and without spreads of each kind, and with the steps of option values. The last two
/// accounts have no holdings in the first commodity, or in the last two.
const ACCOUNTS: [Files; 7] = [
    (one_future::PARAMS, one_future::POSITIONS),
    (calendar::PARAMS, calendar::POSITIONS),
    (two_commodities::PARAMS, two_commodities::POSITIONS),
    (three_commodities::PARAMS, three_commodities::POSITIONS),
    (option_values::PARAMS, option_values::POSITIONS),
    (WITH_VALUES, b"X,FB,2\nX,GB,-3\nX,CC,-1\n"),
    (WITH_VALUES, b"X,FA,1\n"),
];

// A watch that expects these steps, in their order, and no others.
#[derive(Drop)]
struct InOrder {
    steps: Vec<u32>,
    told: AtomicUsize,
    astray: AtomicBool,
}

impl InOrder {
    // Returns a watch for the steps that these events take.
    fn of_takes(rt: &impl Abort, alloc: Global, events: &[Event]) -> InOrder {
        let mut steps = Vec::new(alloc);
        for event in events {
            if let Event::Take(step) = event {
                steps.push(*step).ok().expect(rt, "a step");
            }
        }
        InOrder {
            steps,
            told: AtomicUsize::new(0),
            astray: AtomicBool::new(false),
        }
    }

    // Whether the watch saw all of these steps and no others.
    fn was_told_all(&self) -> bool {
        self.told.load(SeqCst) == self.steps.len() && !self.astray.load(SeqCst)
    }
}

impl Watch for InOrder {
    fn pass(&self, step: usize) {
        let place = self.told.fetch_add(1, SeqCst);
        let is_next = match self.steps.as_slice().get(place) {
            Some(next) => *next as usize == step,
            None => false,
        };
        if !is_next {
            self.astray.store(true, SeqCst);
        }
    }
}

// Runs a board to its end by steps.
fn run_by_steps(rt: &impl Abort, alloc: Global, job: &Arc<Job>) -> Board {
    let mut board = board_of(alloc, job).expect(rt, "a board");
    for _ in 0..job.plan().len() {
        let task = next_task(&mut board).expect(rt, "a task");
        assert!(rt; board.finish(evaluate(alloc, task)) == Ok(()));
    }
    board
}

// Expects that two complete boards of a job have the same figures, total and option value.
fn expect_equal(rt: &impl Abort, one: &Board, other: &Board) {
    let commodities = one.job().set().tables().commodities().len();
    assert!(rt; one.is_complete() && other.is_complete());
    for commodity in 0..commodities {
        assert!(rt; one.figures(commodity) == other.figures(commodity));
    }
    assert!(rt; one.total() == other.total() && one.value() == other.value());
}

// The whole board of a job. Its history is the course of steps that its watch saw.
fn whole_board(rt: &impl Abort, alloc: Global, job: &Arc<Job>, memory: &mut RunMemory) -> Board {
    let course = Course::of(alloc, job.set()).expect(rt, "a course");
    let watch = InOrder::of_takes(rt, alloc, course.events());
    let hold = Arc::try_clone(job).expect(rt, "a hold on the job");
    let whole = Board::whole(alloc, hold, &course, memory, &watch).expect(rt, "a whole board");
    assert!(rt; watch.was_told_all() && whole.history() == course.events());
    whole
}

// For each account, a whole board with a watch, and a board that runs by steps. All whole boards use the same memory.
#[test]
fn whole_boards_beside_boards_by_steps(rt: HostRuntime) {
    let alloc = rt.alloc();
    let mut memory = RunMemory::new(alloc);
    for (params, positions) in ACCOUNTS {
        let job = job_of(alloc, params, positions).expect(&rt, "a job");
        let whole = whole_board(&rt, alloc, &job, &mut memory);
        expect_equal(&rt, &whole, &run_by_steps(&rt, alloc, &job));
    }
}

/// The order of the steps of two commodities with a spread between them (docs/ARCHITECTURE.md): the steps of each
/// commodity except its figures, the steps between commodities, the figures, the totals.
const OF_TWO_COMMODITIES: [usize; 23] = [
    0, 1, 2, 3, 4, 5, 6, 8, 9, 10, 11, 12, 13, 14, 16, 17, 18, 19, 7, 15, 20, 21, 22,
];

// A course takes and finishes one step at a time. The ready step with the lowest number comes first.
#[test]
fn lowest_ready_step_first(rt: HostRuntime) {
    let set = set_of(rt.alloc(), two_commodities::PARAMS).expect(&rt, "a set");
    let course = Course::of(rt.alloc(), &set).expect(&rt, "a course");
    let mut events = course.events().iter().copied();
    for step in OF_TWO_COMMODITIES {
        let number = step as u32;
        assert!(rt; events.next() == Some(Event::Take(number)));
        assert!(rt; events.next() == Some(Event::Finish(number)));
    }
    assert!(rt; events.next().is_none());
}
