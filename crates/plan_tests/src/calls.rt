//! Each call that may fail, once, with enough memory: no clause says that it succeeds. The expected results were
//! computed by hand. The account is long one future, which loses at most 1200.
//!
//! The calls of a shelf are tested by `one_reader`.
ghost use Rattle.std.specs.Prelude.{◌≡◌, length, true};
ghost use Rattle.span_tables.specs.Holdings.{fits};

use plan_compiler::set::{CompiledSet, compile};
use plan_ir::evaluation::apply;
use plan_ir::listing::list;
use plan_ir::lists::NumberLists;
use plan_ir::nothing::NothingHeld;
use plan_ir::ops::Op;
use plan_ir::plans::Plan;
use plan_ir::values::Value;
use result_book::books::ResultBook;
use sample_files::one_future::{PARAMS, POSITIONS};
use sample_sets::boards::{board_of, next_task};
use sample_sets::files::{account_of, tables_of};
use span_tables::portfolios::Portfolio;
use span_tables::tables::Tables;
use std::alloc::Global;
use std::process::Abort;
use std::sync::Arc;
use step_scheduler::boards::Board;
use step_scheduler::courses::Course;
use step_scheduler::evaluation::evaluate;
use step_scheduler::jobs::Job;
use step_scheduler::rows::Row;
use step_scheduler::run_memory::RunMemory;
use step_scheduler::watches::NoWatch;

#[test]
fn calls_succeed(rt: HostRuntime) {
    let alloc = rt.alloc();
    plan_listed(&rt, alloc);
    let set = set_compiled(&rt, alloc);
    let account = account_of(alloc, &set, POSITIONS).expect(&rt, "an account");
    values_of_steps(&rt, alloc, set.tables(), &account);
    let job = Arc::new(alloc, Job::new(set, account, 0)).ok();
    let row = boards_run(&rt, alloc, &job.expect(&rt, "a job"));
    row_kept(&rt, alloc, row);
}

// `plan_ir`: a plan of two steps, and its text.
fn plan_listed(rt: &impl Abort, alloc: Global) {
    let mut inputs = NumberLists::new(alloc);
    inputs.push(&[]).expect(rt, "no inputs");
    inputs.push(&[0]).expect(rt, "an input");
    let ops = Vec::from_array(alloc, [Op::Gather(0), Op::Sums(0)]).ok();
    let plan = Plan::new(alloc, ops.expect(rt, "steps"), inputs).expect(rt, "a plan");
    let text = list(alloc, &plan).expect(rt, "a text");
    assert!(rt; text.as_slice() == b"0 Gather(0)\n1 Sums(0) 0\n".as_slice());
}

// `plan_compiler`: a compiled set with twelve steps, and another one that shares them.
fn set_compiled(rt: &impl Abort, alloc: Global) -> Arc<CompiledSet> {
    let set = compile(alloc, tables_of(alloc, PARAMS).expect(rt, "tables")).expect(rt, "a set");
    assert!(rt; set.plan().len() == 12);
    let another = set.with_own_constants(alloc).expect(rt, "another");
    assert!(rt; another.plan().len() == 12);
    Arc::new(alloc, another).ok().expect(rt, "a shared set")
}

// Whether the value is scenario sums with this greatest sum.
fn is_sums_to(value: &Value, greatest: i64) -> bool {
    match value {
        Value::Sums(sums) => sums.iter().max() == Some(&greatest),
        _ => false,
    }
}

// `plan_ir`: the held contracts, their scenario sums, and the sums without held contracts.
fn values_of_steps(rt: &impl Abort, alloc: Global, tables: &Tables, account: &Portfolio)
    requires { fits (length tables.now.contracts) account.now.holdings ≡ true }
{
    assert!(rt; tables.commodities().len() == 1);
    let held = apply(alloc, tables, account, &Op::Gather(0), &[]).expect(rt, "what is held");
    let held = Arc::new(alloc, held).ok().expect(rt, "a shared value");
    let sums = apply(alloc, tables, account, &Op::Sums(0), &[held]).expect(rt, "sums");
    assert!(rt; is_sums_to(&sums, 1200));
    let nothing = NothingHeld::new(alloc, tables).expect(rt, "values of nothing");
    assert!(rt; is_sums_to(nothing.sums(), 0));
}

// `step_scheduler` and `result_book`: a board that is run to its end by steps, and a whole board, with the rows of
// both.
fn boards_run(rt: &impl Abort, alloc: Global, job: &Arc<Job>) -> Arc<Row> {
    let mut board = board_of(alloc, job).expect(rt, "a board");
    for _ in 0..job.plan().len() {
        let task = next_task(&mut board).expect(rt, "a task");
        assert!(rt; board.finish(evaluate(alloc, task)) == Ok(()));
    }
    assert!(rt; board.is_complete());
    assert!(rt; whole_row(rt, alloc, job).total().get() == 1200);
    Row::of(alloc, &board).expect(rt, "a row")
}

// The row of a whole board, which runs along a copy of the course.
fn whole_row(rt: &impl Abort, alloc: Global, job: &Arc<Job>) -> Arc<Row> {
    let course = Course::of(alloc, job.set()).expect(rt, "a course");
    let course = course.with_own_parts(alloc).expect(rt, "a copy");
    let hold = Arc::try_clone(job).expect(rt, "a hold on the job");
    let mut memory = RunMemory::new(alloc);
    let board = Board::whole(alloc, hold, &course, &mut memory, &NoWatch).expect(
        rt,
        "a whole board",
    );
    Row::from_board(alloc, board).expect(rt, "its row")
}

// `result_book`: a row that is added to a batch, and found there.
fn row_kept(rt: &impl Abort, alloc: Global, row: Arc<Row>) {
    assert!(rt; row.total().get() == 1200);
    let mut book = ResultBook::new(alloc);
    assert!(rt; book.open_batch() == Ok(1));
    assert!(rt; book.put(1, row).is_ok());
    assert!(rt; book.rows(1).expect(rt, "rows").len() == 1);
}
