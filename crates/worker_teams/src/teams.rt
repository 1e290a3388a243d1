//! Batches on several workers, in teams. Each team margins a slice of the accounts in its own thread.
ghost use Rattle.std.specs.Arc.{arc_value};
ghost use Rattle.std.specs.Prelude.{◌≡◌, ◌<◌, ◌≤◌, ◌⊎◌, ◌↔◌, Err, IfOk, vec_len};
ghost use Rattle.worker_pool.specs.Batches.{AllFit};
ghost use Rattle.worker_pool.specs.Outcomes.{AreOutcomes};
ghost use Rattle.worker_pool.specs.declared.batch.PoolFault.TheVariants as fault;

use crate::crews::Crew;
use crate::cuts::last_slice;
use plan_compiler::set::CompiledSet;
use span_tables::portfolios::Portfolio;
use std::alloc::{AllocError, Global};
use std::sync::{Arc, Wait};
use std::thread;
use std::thread::Threads;
use std::time::Clock;
use worker_pool::batch::{MAX_WORKERS, PoolFault, run_batch, run_by_team};
use worker_pool::gates::Gate;
use worker_pool::outcomes::Outcome;
use worker_pool::teams::Team;

// Returns the outcomes of a slice, computed by a team whose workers pass the gate under their numbers. The team counts
// references to its own copy of the parameter set, and so waits for no other team.
fn run_team<R: Threads + Wait + Clock + Sync, G: Gate>(
    rt: &R,
    alloc: Global,
    set: &Arc<CompiledSet>,
    slice: Vec<Portfolio>,
    team: Team,
    gate: &G,
) -> Result<Vec<Outcome>, AllocError>
    requires { AllFit (arc_value set.now) slice.items }
    ensures { IfOk result (λ outcomes. AreOutcomes (arc_value set.now) slice.items outcomes.items) }
{
    let own = Arc::new(alloc, set.with_own_constants(alloc)?)?;
    run_by_team(rt, alloc, &own, slice, team, gate)
}

// Returns the outcomes of accounts, computed by a crew. A team in its own thread runs the last slice, and the other
// teams, started from this thread, run the slices before it. If no thread starts, this thread runs the last slice
// afterwards.
#[cycle(slices)]
fn run_slices<R: Threads + Wait + Clock + Sync, G: Gate>(
    rt: &R,
    alloc: Global,
    set: &Arc<CompiledSet>,
    portfolios: Vec<Portfolio>,
    crew: Crew,
    gate: &G,
) -> Result<Vec<Outcome>, AllocError>
    requires enough { crew.teams ≤ vec_len portfolios }
    requires fits { AllFit (arc_value set.now) portfolios.items }
    ensures { IfOk result (λ outcomes. AreOutcomes (arc_value set.now) portfolios.items outcomes.items) }
{
    if crew.teams == 1 {
        return run_team(rt, alloc, set, portfolios, crew.whole(), gate);
    }
    let mut portfolios = portfolios;
    let start = last_slice(set.plan().len(), &portfolios, crew.teams);
    let (rest, team) = crew.cut();
    let slice = portfolios.split_off(start)?;
    let (last, others) = thread::join(
        rt,
        move || -> Result<Vec<Outcome>, AllocError>
            requires { AllFit (arc_value set.now) slice.items }
            ensures { IfOk result (λ outcomes. AreOutcomes (arc_value set.entry.now) slice.items outcomes.items) }
        { run_team(rt, alloc, set, slice, team, gate) },
        move || -> Result<Vec<Outcome>, AllocError>
            requires { (rest.teams ≤ vec_len portfolios) × AllFit (arc_value set.now) portfolios.items }
            ensures { IfOk result (λ outcomes. AreOutcomes (arc_value set.entry.now) portfolios.items outcomes.items) }
        { run_slices(rt, alloc, set, portfolios, rest, gate) },
    );
    let mut outcomes = others?;
    outcomes.append(&mut last?)?;
    Ok(outcomes)
}

/// Returns the outcomes of accounts under a parameter set, in account order, computed on 1 to 16 workers. The
/// portfolios fit the set's tables.
///
/// There are as many teams as workers, or as accounts if there are fewer accounts. Each team runs a slice of the
/// accounts as [`run_batch`] does. All teams run concurrently, the first in the calling thread. Rejects what
/// `run_batch` rejects. Each team also needs memory for its own copy of the parameter set. The workers of a batch have
/// numbers from 0 on, each its own.
pub fn run_in_teams<R: Threads + Wait + Clock + Sync, G: Gate>(
    rt: &R,
    alloc: Global,
    set: &Arc<CompiledSet>,
    portfolios: Vec<Portfolio>,
    workers: usize,
    gate: &G,
) -> Result<Vec<Outcome>, PoolFault>
    requires { AllFit (arc_value set.now) portfolios.items }
    ensures workers { (result ≡ Err fault.Workers) ↔ ((workers ≡ 0) ⊎ (16 < workers)) }
    ensures outcomes { IfOk result (λ outcomes. AreOutcomes (arc_value set.now) portfolios.items outcomes.items) }
{
    let teams = workers.min(portfolios.len());
    if teams < 2 || workers > MAX_WORKERS {
        return run_batch(rt, alloc, set, portfolios, workers, gate);
    }
    let crew = Crew { workers, teams };
    run_slices(rt, alloc, set, portfolios, crew, gate).map_err(|_| PoolFault::OutOfMemory)
}
