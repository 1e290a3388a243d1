//! The results of calls if one allocation fails: the same as with enough memory, or out of memory. Nothing is lost
//! then, and the next call works: a case that failed is run once more, and must then succeed.
ghost use Rattle.std.specs.Arc.{arc_value};
ghost use Rattle.std.specs.Prelude.{◌≡◌, All, IfOk, length, true};
ghost use Rattle.span_tables.specs.Holdings.{fits};

use binding::orders::{Orders, bind_orders};
use binding::positions::bind;
use param_check::check::check;
use plan_compiler::set::{CompiledSet, compile};
use plan_shelf::faults::ShelfFault;
use plan_shelf::history::{History, ShelfName};
use plan_shelf::publishers::{Publisher, Told};
use plan_shelf::readers::Reader;
use plan_shelf::shelves::shelf;
use result_book::books::{BookFault, ResultBook};
use sample_files::three_commodities::{PARAMS, POSITIONS, STATEMENT};
use sample_files::{calendar, one_future, two_commodities};
use sample_sets::boards::board_of;
use sample_sets::files::{accounts_of, job_of, set_of};
use span_csv::orders::read_orders;
use span_csv::params::read_params;
use span_csv::positions::read_positions;
use span_tables::name::Name;
use span_tables::portfolios::{Portfolio, Portfolios};
use span_tables::tables::Tables;
use statement::all_faults::{faults, faults_text};
use statement::faults::SpanFault;
use statement::margin::{margin, margin_plain};
use statement::roll::roll;
use std::alloc::Global;
use std::marker::Brand;
use std::process::Abort;
use std::sync::{Arc, Mutex, Wait};
use std::test::Fail;
use std::thread::Threads;
use std::time::Clock;
use step_scheduler::boards::{Board, Refused};
use step_scheduler::evaluation::evaluate;
use step_scheduler::jobs::Job;
use step_scheduler::rows::Row;
use step_scheduler::tasks::Task;
use whatif::trying::whatif;
use worker_pool::batch::{PoolFault, run_batch};
use worker_pool::gates::{Gate, OpenGate};
use worker_pool::outcomes::Outcome;
use worker_pool::plain::run_plain;

// Whether a case has to be run once more: it ran out of memory, and nothing else went wrong.
fn was_refused(answer: Result<(), SpanFault>) -> Result<bool, SpanFault> {
    match answer {
        Ok(()) => Ok(false),
        Err(SpanFault::Memory) => Ok(true),
        Err(fault) => Err(fault),
    }
}

// Reads and binds the positions of one account.
fn positions_bound<R: Abort>(
    rt: &R,
    alloc: Global,
    tables: &Tables,
) -> Result<Portfolios, SpanFault> {
    let positions = read_positions(alloc, POSITIONS)?;
    let portfolios = bind(alloc, tables, &positions)?;
    assert_eq!(rt; portfolios.as_slice().len(), 1);
    Ok(portfolios)
}

// Reads and binds two orders, one of them of that account.
fn orders_bound(
    alloc: Global,
    tables: &Tables,
    portfolios: Portfolios,
) -> Result<Orders, SpanFault> {
    let orders = read_orders(alloc, b"BUY,X,FA,1\nBUY,X,FB,1\nBUY,X,FA,2\nNEW,Y,FC,1\n")?;
    let orders = bind_orders(alloc, tables, portfolios, &orders)?;
    Ok(orders)
}

// The holdings of each order's account after the order.
fn orders_tried<R: Abort>(rt: &R, alloc: Global, orders: &Orders) -> Result<(), SpanFault> {
    assert_eq!(rt; orders.len(), 2);
    let after = orders
        .portfolios_with(alloc, 0, 2)
        .map_err(|_| SpanFault::Memory)?;
    assert_eq!(rt; after.len(), 2);
    Ok(())
}

// Each stage of positions and of orders under these tables.
fn under_tables<R: Abort>(rt: &R, alloc: Global, tables: &Tables) -> Result<(), SpanFault> {
    let portfolios = positions_bound(rt, alloc, tables)?;
    let orders = orders_bound(alloc, tables, portfolios)?;
    orders_tried(rt, alloc, &orders)
}

// Reads and checks the parameters, runs the stages under them, and compiles them.
fn each_stage<R: Abort>(rt: &R, alloc: Global) -> Result<(), SpanFault> {
    let tables = check(alloc, read_params(alloc, PARAMS)?)?;
    under_tables(rt, alloc, &tables)?;
    let set = compile(alloc, tables)?;
    assert_eq!(rt; set.plan().len(), 34);
    Ok(())
}

#[test]
fn stages(rt: HostRuntime) -> Result<(), Fail> {
    let alloc = rt.alloc();
    if was_refused(each_stage(&rt, alloc))? {
        each_stage(&rt, alloc)?;
    }
    Ok(())
}

// The answer is the statement of the files, or a fault.
fn is_statement<R: Abort>(rt: &R, answer: Result<Vec<u8>, SpanFault>) -> Result<(), SpanFault> {
    let text = answer?;
    assert_eq!(rt; text.as_slice(), STATEMENT);
    Ok(())
}

#[test]
fn statement_alone(rt: HostRuntime) -> Result<(), Fail> {
    let alloc = rt.alloc();
    if was_refused(is_statement(&rt, margin_plain(alloc, PARAMS, POSITIONS)))? {
        is_statement(&rt, margin_plain(alloc, PARAMS, POSITIONS))?;
    }
    Ok(())
}

fn statement_on<R: Threads + Wait + Clock + Sync + Abort>(
    rt: &R,
    alloc: Global,
    workers: usize,
) -> Result<(), SpanFault> {
    is_statement(rt, margin(rt, alloc, PARAMS, POSITIONS, workers, &OpenGate))
}

#[test]
fn statement_on_one_worker(rt: HostRuntime) -> Result<(), Fail> {
    let alloc = rt.alloc();
    if was_refused(statement_on(&rt, alloc, 1))? {
        statement_on(&rt, alloc, 1)?;
    }
    Ok(())
}

#[test]
fn statement_on_four_workers(rt: HostRuntime) -> Result<(), Fail> {
    let alloc = rt.alloc();
    if was_refused(statement_on(&rt, alloc, 4))? {
        statement_on(&rt, alloc, 4)?;
    }
    Ok(())
}

fn orders_on<R: Threads + Wait + Clock + Sync + Abort>(
    rt: &R,
    alloc: Global,
    workers: usize,
) -> Result<(), SpanFault> {
    let text = whatif(
        rt,
        alloc,
        two_commodities::PARAMS,
        two_commodities::TWO_ACCOUNTS,
        two_commodities::ORDERS,
        workers,
        &OpenGate,
    )?;
    assert_eq!(rt; text.as_slice(), two_commodities::CHANGES);
    Ok(())
}

#[test]
fn orders_on_one_worker_and_on_four(rt: HostRuntime) -> Result<(), Fail> {
    let alloc = rt.alloc();
    for workers in [1, 4] {
        if was_refused(orders_on(&rt, alloc, workers))? {
            orders_on(&rt, alloc, workers)?;
        }
    }
    Ok(())
}

// All faults of two files have these lines.
fn told<R: Abort>(
    rt: &R,
    alloc: Global,
    params: &[u8],
    positions: &[u8],
    lines: &[u8],
) -> Result<(), SpanFault> {
    let found = faults(alloc, params, Some(positions)).map_err(|_| SpanFault::Memory)?;
    let text = faults_text(alloc, &found).map_err(|_| SpanFault::Memory)?;
    assert_eq!(rt; text.as_slice(), lines);
    Ok(())
}

// Faults of reading both files, then faults of binding positions to an accepted parameter set.
fn all_told<R: Abort>(rt: &R, alloc: Global) -> Result<(), SpanFault> {
    let params = b"SET,D1,1\nCOMMODITY,AA,x,SUM\n".as_slice();
    let lines = b"\
parameters: P4 FieldCount at record 1
parameters: P6 BadNumber at record 2
positions: Q1 FieldCount at record 1
positions: Q3 BadNumber at record 2
"
        .as_slice();
    told(rt, alloc, params, b"X,FA\nX,FA,y\n".as_slice(), lines)?;
    let positions = b"X,FZ,1\nX,FA,100000\nX,FA,1\nY,FZ,2\n".as_slice();
    let lines = b"\
positions: B1 UnknownContract at record 1 account X
positions: B1 UnknownContract at record 4 account Y
positions: B2 NetOutOfRange at record 2 account X
"
        .as_slice();
    told(rt, alloc, PARAMS, positions, lines)
}

#[test]
fn all_faults(rt: HostRuntime) -> Result<(), Fail> {
    let alloc = rt.alloc();
    if was_refused(all_told(&rt, alloc))? {
        all_told(&rt, alloc)?;
    }
    Ok(())
}

// The word for an outcome of this account, which must have this total if it has a row.
fn word_of(outcome: &Outcome, account: &[u8], total: i128) -> Option<&'static str> {
    match outcome {
        Outcome::Margined(row) => {
            let is_right = row.account().as_bytes() == account && row.total().get() == total;
            is_right.then_some("a row")
        }
        Outcome::NoMemory(name) => (name.as_bytes() == account).then_some("no memory"),
    }
}

/// Two accounts under a parameter file, with the totals that they have if there is enough memory.
#[derive(Drop)]
pub(crate) struct TwoAccounts<'a> {
    pub(crate) params: &'a [u8],
    pub(crate) positions: &'static [u8],
    pub(crate) first: &'static [u8],
    pub(crate) first_total: i128,
    pub(crate) second: &'static [u8],
    pub(crate) second_total: i128,
}

/// Returns the outcomes of a batch, or out of memory.
pub(crate) fn outcomes_of<R: Threads + Wait + Clock + Sync + Abort, G: Gate>(
    rt: &R,
    alloc: Global,
    set: &Arc<CompiledSet>,
    portfolios: Vec<Portfolio>,
    workers: usize,
    gate: &G,
) -> Result<Vec<Outcome>, SpanFault>
    requires { All (λ p. fits (length (arc_value set.now).tables.contracts) p.holdings ≡ true) portfolios.items }
{
    match run_batch(rt, alloc, set, portfolios, workers, gate) {
        Ok(outcomes) => Ok(outcomes),
        Err(fault) => {
            assert!(rt; fault == PoolFault::OutOfMemory);
            Err(SpanFault::Memory)
        }
    }
}

// The words for the outcomes of two accounts.
fn words_of(
    rt: &impl Abort,
    accounts: &TwoAccounts<'_>,
    outcomes: &[Outcome],
) -> (&'static str, &'static str) {
    match outcomes {
        [first, second] => {
            let first = word_of(first, accounts.first, accounts.first_total);
            let second = word_of(second, accounts.second, accounts.second_total);
            (
                first.expect(rt, "the first account's outcome"),
                second.expect(rt, "the second account's outcome"),
            )
        }
        _ => panic!(rt; "not two outcomes"),
    }
}

/// Returns the words for the outcomes of a batch, or the words for a batch that ran out of memory.
pub(crate) fn words_or_no_batch(
    answer: Result<(&'static str, &'static str), SpanFault>,
) -> Result<(&'static str, &'static str), SpanFault> {
    match answer {
        Ok(words) => Ok(words),
        Err(SpanFault::Memory) => Ok(("no batch", "no batch")),
        Err(fault) => Err(fault),
    }
}

/// Runs a batch of two accounts and returns the word for the outcome of each.
pub(crate) fn words_of_two<R: Threads + Wait + Clock + Sync + Abort, G: Gate>(
    rt: &R,
    alloc: Global,
    accounts: &TwoAccounts<'_>,
    workers: usize,
    gate: &G,
) -> Result<(&'static str, &'static str), SpanFault> {
    let set = set_of(alloc, accounts.params).ok_or(SpanFault::Memory)?;
    let portfolios = accounts_of(alloc, &set, accounts.positions).ok_or(SpanFault::Memory)?;
    let outcomes = outcomes_of(rt, alloc, &set, portfolios, workers, gate)?;
    Ok(words_of(rt, accounts, &outcomes))
}

// Y is long two futures and X short one.
const LONG_AND_SHORT: TwoAccounts<'static> = TwoAccounts {
    params: one_future::PARAMS,
    positions: b"Y,FA,1\nX,FA,-1\nY,FA,1\n",
    first: b"Y",
    first_total: 2400,
    second: b"X",
    second_total: 1200,
};

fn two_accounts<R: Threads + Wait + Clock + Sync + Abort>(
    rt: &R,
    alloc: Global,
) -> Result<(&'static str, &'static str), SpanFault> {
    words_of_two(rt, alloc, &LONG_AND_SHORT, 1, &OpenGate)
}

// Prints the outcome of each account, to show that an account without memory does not get the row of the next one.
#[test]
fn batch_of_two_accounts(rt: HostRuntime) -> Result<(), Fail> {
    let alloc = rt.alloc();
    let words = words_or_no_batch(two_accounts(&rt, alloc))?;
    let (first, second) = words;
    let _ = rt.stdout().println(format_args!("Y: {first}, X: {second}"));
    if words != ("a row", "a row") {
        assert!(rt; two_accounts(&rt, alloc)? == ("a row", "a row"));
    }
    Ok(())
}

// The row of an account that is short one future, which loses 1200.
fn short_row(alloc: Global) -> Result<Arc<Row>, SpanFault> {
    let set = set_of(alloc, one_future::PARAMS).ok_or(SpanFault::Memory)?;
    let portfolios = accounts_of(alloc, &set, b"X,FA,-1\n").ok_or(SpanFault::Memory)?;
    match run_plain(alloc, &set, portfolios)?.pop() {
        Some(Outcome::Margined(row)) => Ok(row),
        _ => Err(SpanFault::Memory),
    }
}

// The total of X in a batch, if it has a row there.
fn total_in(book: &ResultBook, batch: u64) -> Option<i128> {
    let name = Name::new(b"X")?;
    Some(book.get(batch, &name)?.total().get())
}

// Puts a row in a batch. If this fails, the batch is still empty, and a second attempt succeeds.
fn put_again(
    rt: &impl Abort,
    book: &mut ResultBook,
    batch: u64,
    row: Arc<Row>,
) -> Result<(), SpanFault> {
    if let Err(refused) = book.put(batch, row) {
        assert!(rt; refused.fault == BookFault::OutOfMemory);
        assert_eq!(rt; refused.row.total().get(), 1200);
        assert!(rt; total_in(book, batch).is_none());
        assert!(rt; book.rows(batch)?.is_empty());
        assert!(rt; book.put(batch, refused.row).is_ok());
    }
    Ok(())
}

fn put_row(rt: &impl Abort, alloc: Global) -> Result<(), SpanFault> {
    let row = short_row(alloc)?;
    let mut book = ResultBook::new(alloc);
    let batch = book.open_batch()?;
    put_again(rt, &mut book, batch, row)?;
    assert_eq!(rt; book.rows(batch)?.len(), 1);
    assert!(rt; total_in(&book, batch) == Some(1200));
    Ok(())
}

#[test]
fn put(rt: HostRuntime) -> Result<(), Fail> {
    let alloc = rt.alloc();
    if was_refused(put_row(&rt, alloc))? {
        put_row(&rt, alloc)?;
    }
    Ok(())
}

// Publishes a parameter set. If this fails, no set is current, and a second attempt succeeds.
fn publish_again<S: ShelfName, R: Wait + Abort>(
    rt: &R,
    publisher: &mut Publisher<S, &R>,
    reader: &mut Reader<S>,
    set: Arc<CompiledSet>,
) -> Result<Told<S>, SpanFault> {
    match publisher.publish(set) {
        Ok(told) => Ok(told),
        Err(refused) => {
            assert!(rt; refused.cause == ShelfFault::OutOfMemory);
            assert!(rt; reader.current(rt)?.is_none());
            Ok(publisher.publish(refused.set)?)
        }
    }
}

// The reader finds the first publication, whose plan has twelve steps, once it has learned of it.
fn finds_first<S: ShelfName, R: Wait + Abort>(
    rt: &R,
    reader: &mut Reader<S>,
    told: Told<S>,
) -> Result<(), SpanFault> {
    assert_eq!(rt; told.number(), 1);
    reader.learn(told);
    let (number, set) = reader.current(rt)?.expect(rt, "a current set");
    assert_eq!(rt; number, 1);
    assert_eq!(rt; set.plan().len(), 12);
    Ok(())
}

fn publish_set<S: ShelfName, R: Wait + Abort>(
    rt: &R,
    alloc: Global,
    history: History,
) -> Result<(), SpanFault>
    requires { history.book ≡ S.book }
{
    let set = set_of(alloc, one_future::PARAMS).ok_or(SpanFault::Memory)?;
    let (mut publisher, mut readers) = shelf::<S, &R>(rt, alloc, history, 1)?;
    let mut reader = readers.pop().expect(rt, "a reader");
    let told = publish_again(rt, &mut publisher, &mut reader, set)?;
    finds_first(rt, &mut reader, told)
}

#[test]
fn publish(rt: HostRuntime) -> Result<(), Fail> {
    let alloc = rt.alloc();
    if was_refused(publish_set::<Brand, _>(&rt, alloc, History::new()))? {
        publish_set::<Brand, _>(&rt, alloc, History::new())?;
    }
    Ok(())
}

// Two statements, or out of memory. `totals` are the totals of the rows that were put before. A shelf that cannot be
// read because memory ran out is reported as a shelf without the parameter set.
fn is_roll<R: Abort>(
    rt: &R,
    totals: [Option<i128>; 2],
    answer: Result<Vec<u8>, SpanFault>,
) -> Result<(), SpanFault> {
    assert!(rt; totals[0] == Some(1740) || totals == [None, None]);
    assert!(rt; totals[1] == Some(1840) || totals[1] == None);
    match answer {
        Ok(text) => {
            assert_eq!(rt; text.as_slice(), calendar::BOTH_STATEMENTS);
            assert!(rt; totals == [Some(1740), Some(1840)]);
            Ok(())
        }
        Err(SpanFault::Shelf) => Err(SpanFault::Memory),
        Err(fault) => Err(fault),
    }
}

fn roll_once<R: Threads + Wait + Clock + Sync + Abort>(
    rt: &R,
    alloc: Global,
) -> Result<(), SpanFault> {
    let book = Mutex::new(ResultBook::new(alloc));
    let answer = roll(
        rt,
        alloc,
        calendar::PARAMS,
        calendar::NEXT,
        calendar::POSITIONS,
        1,
        &OpenGate,
        &book,
    );
    let book = book.into_inner();
    is_roll(rt, [total_in(&book, 1), total_in(&book, 2)], answer)
}

#[test]
fn rolled(rt: HostRuntime) -> Result<(), Fail> {
    let alloc = rt.alloc();
    if was_refused(roll_once(&rt, alloc))? {
        roll_once(&rt, alloc)?;
    }
    Ok(())
}

// The next task of a board that has one. If memory runs out, the board is unchanged and hands out the task at the
// second attempt.
fn next_task<R: Abort>(rt: &R, board: &mut Board) -> Result<Task, SpanFault>
    ensures board { board.new.job ≡ board.old.job }
    ensures task { IfOk result (λ task. task.job ≡ board.old.job) }
{
    let before = board.history().len();
    if let Ok(task) = board.take_ready() {
        return Ok(task.expect(rt, "a task"));
    }
    assert_eq!(rt; board.history().len(), before);
    Ok(board.take_ready()?.expect(rt, "a task"))
}

// A failed board accepts no result, here of the first task of this job, and hands out no task.
fn is_failed<R: Abort>(
    rt: &R,
    alloc: Global,
    job: &Arc<Job>,
    board: &mut Board,
) -> Result<(), SpanFault>
    requires { board.old.job ≡ arc_value job.now }
    ensures { board.new.job ≡ board.old.job }
{
    let mut other = board_of(alloc, job).ok_or(SpanFault::Memory)?;
    let task = next_task(rt, &mut other)?;
    let finished = evaluate(alloc, task);
    assert!(rt; board.finish(finished) == Err(Refused::Failed));
    assert!(rt; board.take_ready()?.is_none());
    assert!(rt; !board.is_complete() && board.total().is_none());
    Ok(())
}

// Runs each step of a board of this job. A value is kept, and the error flag for out of memory makes the board fail.
fn run<R: Abort>(rt: &R, alloc: Global, job: &Arc<Job>, board: &mut Board) -> Result<(), SpanFault>
    requires { board.old.job ≡ arc_value job.now }
    ensures { board.new.job ≡ board.old.job }
{
    for _ in 0..job.plan().len() {
        let task = next_task(rt, board)?;
        let finished = evaluate(alloc, task);
        let has_value = finished.value().is_some();
        assert!(rt; board.finish(finished) == Ok(()));
        if !has_value {
            is_failed(rt, alloc, job, board)?;
            return Err(SpanFault::Memory);
        }
    }
    Ok(())
}

fn run_steps<R: Abort>(rt: &R, alloc: Global) -> Result<(), SpanFault> {
    let job = job_of(alloc, PARAMS, POSITIONS).ok_or(SpanFault::Memory)?;
    let mut board = board_of(alloc, &job).ok_or(SpanFault::Memory)?;
    run(rt, alloc, &job, &mut board)?;
    assert!(rt; board.total().map(|total| total.get()) == Some(3450));
    Ok(())
}

#[test]
fn steps(rt: HostRuntime) -> Result<(), Fail> {
    let alloc = rt.alloc();
    if was_refused(run_steps(&rt, alloc))? {
        run_steps(&rt, alloc)?;
    }
    Ok(())
}
