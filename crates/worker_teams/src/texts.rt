//! The text of batches of accounts: of rows that are kept, or written account by account, so that no row is kept.
ghost use Rattle.plan_compiler.specs.Compiled.{SetView};
ghost use Rattle.span_tables.specs.Net.{AccountHoldings};
ghost use Rattle.statement_text.specs.Statement.{row_text, statement_text};
ghost use Rattle.std.specs.Arc.{arc_value};
ghost use Rattle.std.specs.Prelude.{◌≡◌, ◌++◌, ◌≤◌, IfOk, List, OnOk, map, vec_len};
ghost use Rattle.worker_pool.specs.Batches.{AllFit, FitsSet};
ghost use Rattle.worker_teams.specs.near.OutcomeRows.{rows_of_accounts};

use crate::crews::Crew;
use crate::cuts::last_slice;
use crate::rows::rows_together;
use plan_compiler::set::CompiledSet;
use span_tables::portfolios::{Portfolio, Portfolios};
use statement_text::lines::{push_row, push_rows, write};
use std::alloc::{AllocError, Global};
use std::sync::{Arc, Wait};
use std::thread;
use std::thread::Threads;
use std::time::Clock;
use step_scheduler::courses::Course;
use step_scheduler::rows::Row;
use worker_pool::batch::MAX_WORKERS;
use worker_pool::gates::Gate;
use worker_pool::plain::Runs;
use worker_pool::teams::Team;

/// Returns the statement of the rows of a batch.
pub fn text_of(alloc: Global, rows: &[Arc<Row>]) -> Result<Vec<u8>, AllocError>
    ensures { (set : SetView) (portfolios : List AccountHoldings) → map arc_value rows.now ≡ rows_of_accounts set portfolios
        → IfOk result (λ text. text.items ≡ statement_text set.tables portfolios) }
{
    write(alloc, rows)
}

/// Appends the statement of the rows of a batch.
pub fn append_text(out: &mut Vec<u8>, rows: &[Arc<Row>]) -> Result<(), AllocError>
    ensures { (set : SetView) (portfolios : List AccountHoldings) → map arc_value rows.now ≡ rows_of_accounts set portfolios
        → OnOk result (out.new.items ≡ out.old.items ++ statement_text set.tables portfolios) }
{
    push_rows(out, rows)
}

/// Appends the lines of an account, which the coordinator of a team margins by runs of its own. It passes the gate
/// before each evaluation. The row is dropped, so the next account can use its memory. Fails if memory runs out.
pub fn push_text<G: Gate>(
    out: &mut Vec<u8>,
    runs: &mut Runs,
    portfolio: Portfolio,
    team: Team,
    gate: &G,
) -> Result<(), AllocError>
    requires { FitsSet runs.old portfolio }
    ensures same { runs.new ≡ runs.old }
    ensures text { OnOk result (out.new.items ≡ out.old.items ++ row_text runs.old.tables portfolio) }
{
    let row = runs.row_of(portfolio, team, gate)?;
    push_row(out, &row)
}

// Returns the statement of a slice of accounts, which the coordinator of a team margins along its own copy of the
// course. It counts references to that copy alone, and so waits for no other team.
fn text_of_slice<G: Gate>(
    alloc: Global,
    course: &Course,
    slice: Vec<Portfolio>,
    team: Team,
    gate: &G,
) -> Result<Vec<u8>, AllocError>
    requires { AllFit course.now.set slice.items }
    ensures { IfOk result (λ text. text.items ≡ statement_text course.now.set.tables slice.items) }
{
    let mut runs = Runs::along(alloc, course.with_own_parts(alloc)?);
    let mut text = Vec::new(alloc);
    for portfolio in slice {
        push_text(&mut text, &mut runs, portfolio, team, gate)?;
    }
    Ok(text)
}

// Returns the statement of accounts, margined by a crew. A team in its own thread margins the last slice, and the other
// teams, started from this thread, the slices before it. If no thread starts, this thread margins the last slice
// afterwards.
#[cycle(texts)]
fn text_of_slices<R: Threads + Sync, G: Gate>(
    rt: &R,
    alloc: Global,
    course: &Course,
    portfolios: Vec<Portfolio>,
    crew: Crew,
    gate: &G,
) -> Result<Vec<u8>, AllocError>
    requires enough { crew.teams ≤ vec_len portfolios }
    requires fits { AllFit course.now.set portfolios.items }
    ensures { IfOk result (λ text. text.items ≡ statement_text course.now.set.tables portfolios.items) }
{
    if crew.teams == 1 {
        return text_of_slice(alloc, course, portfolios, crew.whole(), gate);
    }
    let mut portfolios = portfolios;
    let start = last_slice(course.set().plan().len(), &portfolios, crew.teams);
    let (rest, team) = crew.cut();
    let slice = portfolios.split_off(start)?;
    let (last, others) = thread::join(
        rt,
        move || -> Result<Vec<u8>, AllocError>
            requires { AllFit course.now.set slice.items }
            ensures { IfOk result (λ text. text.items ≡ statement_text course.entry.now.set.tables slice.items) }
        { text_of_slice(alloc, course, slice, team, gate) },
        move || -> Result<Vec<u8>, AllocError>
            requires { (rest.teams ≤ vec_len portfolios) × AllFit course.now.set portfolios.items }
            ensures { IfOk result (λ text. text.items ≡ statement_text course.entry.now.set.tables portfolios.items) }
        { text_of_slices(rt, alloc, course, portfolios, rest, gate) },
    );
    let mut text = others?;
    text.append(&mut last?)?;
    Ok(text)
}

/// Returns the statement of portfolios under a compiled parameter set, in account order, margined on 1 to 16 workers.
/// Fails if memory runs out for one account: a statement is complete, or not returned.
///
/// Each worker margins a slice of the accounts, and writes the lines of each account at once. Besides the text, memory is
/// needed for one row of each worker. If there are more workers than accounts, workers share the steps of an account
/// ([`run_in_teams`](crate::teams::run_in_teams)), and the rows of all accounts are written afterwards.
pub fn text_together<R: Threads + Wait + Clock + Sync, G: Gate>(
    rt: &R,
    alloc: Global,
    set: &Arc<CompiledSet>,
    portfolios: Portfolios,
    workers: usize,
    gate: &G,
) -> Result<Vec<u8>, AllocError>
    requires { AllFit (arc_value set.now) portfolios }
    ensures { IfOk result (λ text. text.items ≡ statement_text (arc_value set.now).tables portfolios) }
{
    if workers == 0 || workers > MAX_WORKERS || workers > portfolios.as_slice().len() {
        let rows = rows_together(rt, alloc, set, portfolios, workers, gate)?;
        return text_of(alloc, &rows);
    }
    let course = Course::of(alloc, set)?;
    let crew = Crew {
        workers,
        teams: workers,
    };
    text_of_slices(rt, alloc, &course, portfolios.into_vec(), crew, gate)
}
