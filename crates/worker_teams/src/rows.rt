//! The rows of batches of accounts under a compiled parameter set, computed on one thread or by teams of workers.
ghost use Rattle.plan_compiler.specs.Compiled.{SetView};
ghost use Rattle.span_tables.specs.Net.{AccountHoldings};
ghost use Rattle.worker_pool.specs.Batches.{AllFit};
ghost use Rattle.worker_teams.specs.near.OutcomeRows.{rows_of_accounts, AreRows};
ghost use Rattle.std.specs.Arc.{arc_value};
ghost use Rattle.std.specs.Prelude.{◌≡◌, IfOk, List, map};
ghost use Rattle.worker_pool.specs.Outcomes.{AreOutcomes};

use crate::teams::run_in_teams;
use plan_compiler::set::CompiledSet;
use span_tables::portfolios::Portfolios;
use std::alloc::{AllocError, Global};
use std::sync::{Arc, Wait};
use std::thread;
use std::thread::Threads;
use std::time::Clock;
use step_scheduler::rows::Row;
use worker_pool::gates::Gate;
use worker_pool::outcomes::Outcome;
use worker_pool::plain::run_plain;

// Returns the rows of all outcomes. Fails if an account is out of memory: a statement is complete, or not returned.
fn all_rows(alloc: Global, outcomes: Vec<Outcome>) -> Result<Vec<Arc<Row>>, AllocError>
    ensures { IfOk result (λ rows. AreRows outcomes.items (map arc_value rows.items)) }
{
    let mut rows = Vec::with_capacity(alloc, outcomes.len())?;
    for outcome in outcomes {
        match outcome {
            Outcome::Margined(row) => rows.push(row)?,
            Outcome::NoMemory(_) => return Err(AllocError),
        }
    }
    Ok(rows)
}

// Returns the rows of the outcomes of a batch. Fails if an account is out of memory.
fn rows_of(alloc: Global, outcomes: Vec<Outcome>) -> Result<Vec<Arc<Row>>, AllocError>
    ensures { (set : SetView) (portfolios : List AccountHoldings) → AreOutcomes set portfolios outcomes.items
        → IfOk result (λ rows. map arc_value rows.items ≡ rows_of_accounts set portfolios) }
{
    let rows = all_rows(alloc, outcomes)?;
    Ok(rows)
}

/// Returns the rows of portfolios under a compiled parameter set, in account order, computed on one thread. Fails if
/// one account is out of memory.
pub fn rows_alone(
    alloc: Global,
    set: &Arc<CompiledSet>,
    portfolios: Portfolios,
) -> Result<Vec<Arc<Row>>, AllocError>
    requires { AllFit (arc_value set.now) portfolios }
    ensures { IfOk result (λ rows. map arc_value rows.items ≡ rows_of_accounts (arc_value set.now) portfolios) }
{
    let outcomes = run_plain(alloc, set, portfolios.into_vec())?;
    rows_of(alloc, outcomes)
}

/// Returns the rows of portfolios under a compiled parameter set, in account order, computed on 1 to 16 workers in
/// teams. Fails if one account is out of memory.
pub fn rows_together<R: Threads + Wait + Clock + Sync, G: Gate>(
    rt: &R,
    alloc: Global,
    set: &Arc<CompiledSet>,
    portfolios: Portfolios,
    workers: usize,
    gate: &G,
) -> Result<Vec<Arc<Row>>, AllocError>
    requires { AllFit (arc_value set.now) portfolios }
    ensures { IfOk result (λ rows. map arc_value rows.items ≡ rows_of_accounts (arc_value set.now) portfolios) }
{
    match run_in_teams(rt, alloc, set, portfolios.into_vec(), workers, gate) {
        Ok(outcomes) => rows_of(alloc, outcomes),
        Err(_) => Err(AllocError),
    }
}
