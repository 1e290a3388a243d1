//! Results that are offered to a board. The board accepts only a result of a step that it handed out and that is not
//! finished.
ghost use Rattle.std.specs.Prelude.{◌≡◌};
ghost use Rattle.std.specs.Arc.{arc_value};

use sample_files::{one_future, three_commodities, two_commodities};
use sample_sets::boards::{board_of, next_task};
use sample_sets::files::job_of;
use span_money::amounts::Money;
use span_tables::portfolios::Portfolio;
use std::alloc::Global;
use std::process::Abort;
use std::sync::Arc;
use step_scheduler::boards::{Board, Refused};
use step_scheduler::evaluation::evaluate;
use step_scheduler::finished::Finished;
use step_scheduler::jobs::Job;
use step_scheduler::tasks::Task;

// Expects that a board hands out no step.
fn expect_none_ready(rt: &impl Abort, board: &mut Board)
    ensures { board.new.job ≡ board.old.job }
{
    assert!(rt; board.take_ready().expect(rt, "an answer").is_none());
}

// The task of the first step. A new board of one future hands out exactly three steps.
fn first_task(rt: &impl Abort, board: &mut Board) -> Task
    ensures board { board.new.job ≡ board.old.job }
    ensures task { result.job ≡ board.old.job }
{
    let mut first = None;
    for _ in 0..3 {
        let task = next_task(board).expect(rt, "a task");
        if task.step() == 0 {
            first = Some(task);
        }
    }
    expect_none_ready(rt, board);
    first.expect(rt, "the first step")
}

// The result of a step, from a new board of the job that runs until it hands out the step.
fn result_of(rt: &impl Abort, alloc: Global, job: &Arc<Job>, step: usize) -> Finished
    ensures { result.job ≡ arc_value job.now }
{
    let mut board = board_of(alloc, job).expect(rt, "a board");
    let mut finished = evaluate(alloc, next_task(&mut board).expect(rt, "a task"));
    for _ in 0..job.plan().len() {
        if finished.step() == step {
            return finished;
        }
        assert!(rt; board.finish(finished) == Ok(()));
        finished = evaluate(alloc, next_task(&mut board).expect(rt, "a task"));
    }
    finished
}

// Offers a board a result that it rejects for this reason. Its history stays the same.
fn expect_refused(
    rt: &impl Abort,
    alloc: Global,
    board: &mut Board,
    finished: Finished,
    reason: Refused,
)
    requires { finished.job ≡ board.old.job }
    ensures { board.new.job ≡ board.old.job }
{
    let before = Vec::from_slice(alloc, board.history()).expect(rt, "a history");
    assert!(rt; board.finish(finished) == Err(reason));
    assert!(rt; board.history() == before.as_slice());
}

// Two boards of one job, each with the task of its first step.
#[test]
fn results_on_other_boards(rt: HostRuntime) {
    let alloc = rt.alloc();
    let job = job_of(alloc, one_future::PARAMS, one_future::POSITIONS).expect(&rt, "a job");
    let mut a = board_of(alloc, &job).expect(&rt, "a board");
    let of_a = first_task(&rt, &mut a);
    let mut b = board_of(alloc, &job).expect(&rt, "a board");
    let of_b = first_task(&rt, &mut b);
    assert!(rt; a.finish(evaluate(alloc, of_a)) == Ok(()));
    expect_refused(&rt, alloc, &mut a, evaluate(alloc, of_b), Refused::NotTaken);
    let of_c = result_of(&rt, alloc, &job, 1);
    expect_refused(&rt, alloc, &mut b, of_c, Refused::NotTaken);
    a.fail();
    let of_c = result_of(&rt, alloc, &job, 10);
    expect_refused(&rt, alloc, &mut a, of_c, Refused::Failed);
    expect_none_ready(&rt, &mut a);
    assert!(rt; a.history().len() == 4 && b.history().len() == 3);
}

// Another job that is equal: the same parameter set, and an account with the same holdings.
fn equal_job(rt: &impl Abort, alloc: Global, job: &Arc<Job>) -> Arc<Job>
    ensures { arc_value result ≡ arc_value job.now }
{
    let set = Arc::try_clone(job.set()).expect(rt, "a hold on the set");
    let holdings = Vec::from_slice(alloc, job.portfolio().holdings()).expect(rt, "holdings");
    let portfolio = Portfolio::new(job.portfolio().account().copied(), holdings);
    let job = Job::new(set, portfolio, job.place());
    Arc::new(alloc, job).ok().expect(rt, "a job")
}

// Offers a board a result of each step, from new boards of an equal job. The board accepts none of them.
fn offer_strangers(rt: &impl Abort, alloc: Global, board: &mut Board, equal: &Arc<Job>)
    requires { board.old.job ≡ arc_value equal.now }
    ensures { board.new.job ≡ board.old.job }
{
    for step in 0..equal.plan().len() {
        let result = result_of(rt, alloc, equal, step);
        expect_refused(rt, alloc, board, result, Refused::NotTaken);
    }
}

// Runs a board to its end. Before each of its steps, and at the end, results of other boards are offered to it.
fn run_among_strangers(rt: &impl Abort, alloc: Global, board: &mut Board, equal: &Arc<Job>)
    requires { board.old.job ≡ arc_value equal.now }
{
    for _ in 0..equal.plan().len() {
        offer_strangers(rt, alloc, board, equal);
        let task = next_task(board).expect(rt, "a task");
        assert!(rt; board.finish(evaluate(alloc, task)) == Ok(()));
    }
    offer_strangers(rt, alloc, board, equal);
    expect_none_ready(rt, board);
}

// The seven figures of a commodity, in the order of an R line.
fn numbers_of(board: &Board, commodity: usize) -> Option<[i128; 7]> {
    Some(board.figures(commodity)?.numbers())
}

// Between its own steps, a board accepts no result of another board, whether the step is waiting or finished.
#[test]
fn results_of_strangers(rt: HostRuntime) {
    let alloc = rt.alloc();
    let job = job_of(
        alloc,
        three_commodities::PARAMS,
        three_commodities::POSITIONS,
    )
    .expect(&rt, "a job");
    let equal = equal_job(&rt, alloc, &job);
    let mut board = board_of(alloc, &job).expect(&rt, "a board");
    run_among_strangers(&rt, alloc, &mut board, &equal);
    assert!(rt; numbers_of(&board, 0) == Some([3600, 13, 0, 0, 840, 0, 2760]));
    assert!(rt; numbers_of(&board, 1) == Some([900, 11, 0, 0, 450, 0, 450]));
    assert!(rt; numbers_of(&board, 2) == Some([300, 11, 0, 0, 60, 0, 240]));
    assert!(rt; board.total() == Some(Money::new(3450)));
}

// On a new board all five inputs of a commodity's figures are missing.
#[test]
fn inputs_of_a_new_board(rt: HostRuntime) {
    let alloc = rt.alloc();
    let job = job_of(alloc, two_commodities::PARAMS, two_commodities::POSITIONS);
    let board = board_of(alloc, &job.expect(&rt, "a job")).expect(&rt, "a board");
    assert!(rt; board.job().plan().len() == 23);
    assert!(rt; board.missing(7) == 5);
}
