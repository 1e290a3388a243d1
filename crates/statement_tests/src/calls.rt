//! Each public call of `statement`, `explanation`, `whatif`, `reasons` and `worker_teams` whose contract permits it to
//! fail, because memory runs out or a writer fails. Each is called once, with enough memory and no failing writer, and
//! must succeed.
ghost use Rattle.span_tables.specs.Holdings.{fits};
ghost use Rattle.std.specs.Prelude.{◌≡◌, ◌<◌, length, true};

use binding::positions::bind;
use explanation::explaining::explain;
use reasons::stages::{push_reasons, stages_of};
use result_book::books::ResultBook;
use sample_files::{calendar, one_future, two_commodities};
use sample_sets::files::tables_of;
use span_csv::positions::read_positions;
use span_money::line_fields::Field;
use span_tables::portfolios::{Portfolio, Portfolios};
use span_tables::tables::Tables;
use statement::accepting::{Accepted, accept, accept_together};
use statement::all_faults::{faults, faults_status, faults_text};
use statement::counts::{check_plain, write_counts};
use statement::fault_lines::{tell_fault, write_fault};
use statement::faults::SpanFault;
use statement::lines::{push_commodity_of, push_row, push_total_of, write};
use statement::margin::{margin, margin_plain};
use statement::plans::plan_plain;
use statement::roll::roll;
use std::alloc::{AllocError, Global};
use std::process::Abort;
use std::sync::{Arc, Mutex, Wait};
use std::thread::Threads;
use std::time::Clock;
use step_scheduler::rows::Row;
use whatif::trying::whatif;
use worker_pool::gates::OpenGate;
use worker_pool::outcomes::Outcome;
use worker_teams::rows::{rows_alone, rows_together};
use worker_teams::teams::run_in_teams;
use worker_teams::texts::{append_text, text_of, text_together};
use writers::marked_writer::MarkedWriter;

// The plan of a calendar spread.
const PLAN: &[u8] = b"\
0 Gather(0)
1 Sums(0) 0
2 ScanMax(0) 1
3 Months(0) 0
4 TierStart(0) 3
5 Spread(0,0) 4
6 Delivery(0) 3 5
7 Minimum(0) 0
8 Final(0) 2 5 6 7 10
9 InterStart()
10 InterLoad(0) 9 3 2
11 TotalStart()
12 TotalAdd(0) 11 8
";

// The check and the plan of a parameter file by itself.
fn of_parameters(rt: &impl Abort, alloc: Global) {
    let counts = check_plain(alloc, calendar::PARAMS).expect(rt, "counts");
    assert_eq!(rt; counts.as_slice(), calendar::COUNTS);
    let plan = plan_plain(alloc, calendar::PARAMS).expect(rt, "a plan");
    assert_eq!(rt; plan.as_slice(), PLAN);
    let tables = tables_of(alloc, calendar::PARAMS).expect(rt, "tables");
    let counts = write_counts(alloc, &tables).expect(rt, "counts of tables");
    assert_eq!(rt; counts.as_slice(), calendar::COUNTS);
}

// The statement of two files, without and with workers.
fn of_two_files<R: Threads + Wait + Clock + Sync + Abort>(rt: &R, alloc: Global) {
    let params = two_commodities::PARAMS;
    let positions = two_commodities::POSITIONS;
    let text = margin_plain(alloc, params, positions).expect(rt, "a statement");
    assert_eq!(rt; text.as_slice(), two_commodities::STATEMENT);
    let text = margin(rt, alloc, params, positions, 2, &OpenGate).expect(rt, "the same");
    assert_eq!(rt; text.as_slice(), two_commodities::STATEMENT);
}

// The statements under two parameter sets.
fn of_two_sets<R: Threads + Wait + Clock + Sync + Abort>(rt: &R, alloc: Global) {
    let book = Mutex::new(ResultBook::new(alloc));
    let text = roll(
        rt,
        alloc,
        calendar::PARAMS,
        calendar::NEXT,
        calendar::POSITIONS,
        2,
        &OpenGate,
        &book,
    );
    let text = text.expect(rt, "statements");
    assert_eq!(rt; text.as_slice(), calendar::BOTH_STATEMENTS);
}

// The rows of two files.
fn rows_of_two_files(rt: &impl Abort, alloc: Global) -> Vec<Arc<Row>> {
    let Accepted {
        set,
        portfolios,
        ..
    } = accept(alloc, two_commodities::PARAMS, two_commodities::POSITIONS).expect(rt, "files");
    rows_alone(alloc, &set, portfolios).expect(rt, "rows")
}

// The lines of a row, one after the other.
fn lines_of(rt: &impl Abort, alloc: Global, row: &Row) -> Vec<u8> {
    let mut out = Vec::new(alloc);
    for number in 0..row.set().tables().commodities().len() {
        push_commodity_of(&mut out, row, number).expect(rt, "a line");
    }
    push_total_of(&mut out, row).expect(rt, "the last line");
    out
}

// The statement of rows of one account, written in several ways.
fn of_rows(rt: &impl Abort, alloc: Global) {
    let rows = rows_of_two_files(rt, alloc);
    let text = write(alloc, &rows).expect(rt, "a statement");
    assert_eq!(rt; text.as_slice(), two_commodities::STATEMENT);
    let text = text_of(alloc, &rows).expect(rt, "a statement");
    assert_eq!(rt; text.as_slice(), two_commodities::STATEMENT);
    let mut out = Vec::new(alloc);
    append_text(&mut out, &rows).expect(rt, "a statement");
    assert_eq!(rt; out.as_slice(), two_commodities::STATEMENT);
    let row = rows.first().expect(rt, "a row");
    assert_eq!(rt;
        lines_of(rt, alloc, row).as_slice(),
        two_commodities::STATEMENT
    );
    let mut out = Vec::new(alloc);
    push_row(&mut out, row).expect(rt, "a row's lines");
    assert_eq!(rt; out.as_slice(), two_commodities::STATEMENT);
}

// The statement of two files that two workers read, bind and evaluate.
fn of_rows_together<R: Threads + Wait + Clock + Sync + Abort>(rt: &R, alloc: Global) {
    let params = two_commodities::PARAMS;
    let positions = two_commodities::POSITIONS;
    let Accepted {
        set,
        portfolios,
        ..
    } = accept_together(rt, alloc, params, positions, 2).expect(rt, "files");
    let rows = rows_together(rt, alloc, &set, portfolios, 2, &OpenGate).expect(rt, "rows");
    let text = write(alloc, &rows).expect(rt, "a statement");
    assert_eq!(rt; text.as_slice(), two_commodities::STATEMENT);
}

// The statement of two files on one worker, which writes it account by account, and on two, which share the account.
fn of_text_together<R: Threads + Wait + Clock + Sync + Abort>(rt: &R, alloc: Global) {
    for workers in 1..3 {
        let Accepted {
            set,
            portfolios,
            ..
        } = accept(alloc, two_commodities::PARAMS, two_commodities::POSITIONS).expect(rt, "files");
        let text = text_together(rt, alloc, &set, portfolios, workers, &OpenGate);
        assert_eq!(rt;
            text.expect(rt, "a statement").as_slice(),
            two_commodities::STATEMENT
        );
    }
}

// The total of an outcome that has a row.
fn total_of(outcome: &Outcome) -> Option<i128> {
    match outcome {
        Outcome::Margined(row) => Some(row.total().get()),
        Outcome::NoMemory(_) => None,
    }
}

// The outcomes of two accounts, each computed by a team: the first earns a credit, the second holds two futures at 900.
fn of_teams<R: Threads + Wait + Clock + Sync + Abort>(rt: &R, alloc: Global) {
    let positions = b"X,FA,1\nX,FB,-2\nY,FB,2\n";
    let Accepted {
        set,
        portfolios,
        ..
    } = accept(alloc, two_commodities::PARAMS, positions).expect(rt, "files");
    let outcomes = run_in_teams(rt, alloc, &set, portfolios.into_vec(), 2, &OpenGate);
    let outcomes = outcomes.expect(rt, "outcomes");
    assert_eq!(rt; outcomes.len(), 2);
    assert!(rt; outcomes.first().and_then(total_of) == Some(1950));
    assert!(rt; outcomes.last().and_then(total_of) == Some(1800));
}

// The explanation of two files.
fn of_reasons(rt: &impl Abort, alloc: Global) {
    let text = explain(
        alloc,
        two_commodities::PARAMS,
        two_commodities::POSITIONS,
        None,
    );
    let text = text.expect(rt, "an explanation");
    assert_eq!(rt; text.as_slice(), two_commodities::EXPLANATION);
}

// The explanations of two accounts, in order of first appearance.
fn of_two_accounts(rt: &impl Abort, alloc: Global) {
    let positions = b"Y,FA,-3\nX,FA,1\nY,FA,4\n";
    let text = explain(alloc, one_future::PARAMS, positions, None).expect(rt, "explanations");
    let mut expected = Vec::new(alloc);
    assert!(rt;
        expected
            .extend_from_slice(one_future::EXPLANATION_OF_Y)
            .is_ok()
    );
    assert!(rt; expected.extend_from_slice(one_future::EXPLANATION).is_ok());
    assert_eq!(rt; text.as_slice(), expected.as_slice());
}

// The changes of two orders, without and with workers.
fn of_orders<R: Threads + Wait + Clock + Sync + Abort>(rt: &R, alloc: Global) {
    for workers in [1usize, 2] {
        let text = whatif(
            rt,
            alloc,
            two_commodities::PARAMS,
            two_commodities::TWO_ACCOUNTS,
            two_commodities::ORDERS,
            workers,
            &OpenGate,
        );
        let text = text.expect(rt, "changes");
        assert_eq!(rt; text.as_slice(), two_commodities::CHANGES);
    }
}

// The explanation lines of the first commodity, for an account with a calendar spread.
fn reasons_of(alloc: Global, tables: &Tables, portfolio: &Portfolio) -> Result<Vec<u8>, AllocError>
    requires commodity { 0 < length tables.now.commodities }
    requires fits { fits (length tables.now.contracts) portfolio.now.holdings ≡ true }
{
    let stages = stages_of(alloc, tables, portfolio)?;
    portfolio.known();
    tables.known();
    let mut out = Vec::new(alloc);
    let ids = [Field::Text("X"), Field::Text("D1"), Field::Text("AA")];
    push_reasons(alloc, &mut out, &ids, tables, &stages, 0)?;
    Ok(out)
}

// The accounts of a calendar spread.
fn accounts_of(rt: &impl Abort, alloc: Global, tables: &Tables) -> Portfolios {
    let positions = read_positions(alloc, calendar::POSITIONS).expect(rt, "positions");
    bind(alloc, tables, &positions).expect(rt, "accounts")
}

// The explanation consists of the reasons followed by the statement.
fn of_stages(rt: &impl Abort, alloc: Global) {
    let tables = tables_of(alloc, calendar::PARAMS).expect(rt, "tables");
    let portfolios = accounts_of(rt, alloc, &tables);
    let portfolio = portfolios.as_slice().first().expect(rt, "an account");
    assert!(rt; portfolio.fits(&tables));
    assert!(rt; tables.commodities().len() == 1);
    let mut text = reasons_of(alloc, &tables, portfolio).expect(rt, "reasons");
    assert!(rt; text.extend_from_slice(calendar::STATEMENT).is_ok());
    assert_eq!(rt; text.as_slice(), calendar::EXPLANATION);
}

// All faults of a parameter file and of a position file, with their lines and their status.
fn of_all_faults(rt: &impl Abort, alloc: Global) {
    let params = b"SET,D1,1,USD\nCOMMODITY,AA,0,SUM\nCOMMODITY,AA,0,SUM\n".as_slice();
    let found = faults(alloc, params, Some(b"X,FA\n".as_slice())).expect(rt, "faults");
    assert_eq!(rt; faults_status(&found), 3);
    let lines = b"\
parameters: C1 DuplicateCommodity at record 3
positions: Q1 FieldCount at record 1
"
        .as_slice();
    let text = faults_text(alloc, &found).expect(rt, "lines");
    assert_eq!(rt; text.as_slice(), lines);
}

// The line of a fault.
fn of_faults(rt: &impl Abort, alloc: Global) {
    let line = b"workers: L1 Workers\n".as_slice();
    let mut out = Vec::new(alloc);
    assert!(rt; write_fault(&SpanFault::Workers, &mut out).is_ok());
    assert_eq!(rt; out.as_slice(), line);
    let mut out = MarkedWriter::new(Vec::new(alloc));
    tell_fault(&SpanFault::Workers, &mut out);
    assert!(rt; !out.failed());
    assert_eq!(rt; out.into_inner().as_slice(), line);
}

#[test]
fn calls_succeed(rt: HostRuntime) {
    let alloc = rt.alloc();
    of_parameters(&rt, alloc);
    of_two_files(&rt, alloc);
    of_two_sets(&rt, alloc);
    of_rows(&rt, alloc);
    of_rows_together(&rt, alloc);
    of_text_together(&rt, alloc);
    of_teams(&rt, alloc);
    of_reasons(&rt, alloc);
    of_two_accounts(&rt, alloc);
    of_orders(&rt, alloc);
    of_stages(&rt, alloc);
    of_all_faults(&rt, alloc);
    of_faults(&rt, alloc);
}
