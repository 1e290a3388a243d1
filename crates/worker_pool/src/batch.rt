//! Batches on several workers, which steal steps from one another.
ghost use Rattle.std.specs.Arc.{arc_value};
ghost use Rattle.std.specs.Prelude.{◌≡◌, ◌+◌, ◌<◌, ◌⊎◌, ◌↔◌, ◌∷◌, Err, IfOk, map, vec_len};
ghost use Rattle.std.specs.List.{range_with_len};
ghost use Rattle.worker_pool.specs.Batches.{AllFit, jobs_of};
ghost use Rattle.worker_pool.specs.Outcomes.{AreOutcomes};
ghost use Rattle.worker_pool.specs.declared.batch.PoolFault.TheVariants as fault;
ghost use Rattle.worker_pool.specs.near.Places.{AreOutcomesOf};

use crate::accounts::{Outcomes, Waiting};
use crate::coordinator::Coordinator;
use crate::ends::ThiefEnd;
use crate::gates::Gate;
use crate::laws::{Batch, new_queue};
use crate::outcomes::Outcome;
use crate::plain::{COORDINATOR, run_on_one};
use crate::queue_ends::{ResultEnd, open_results};
use crate::teams::Team;
use crate::workers::Worker;
use plan_compiler::set::CompiledSet;
use span_tables::portfolios::Portfolio;
use std::alloc::{AllocError, Global};
use std::marker::Brand;
use std::sync::atomic::AtomicBool;
use std::sync::atomic::Ordering::SeqCst;
use std::sync::{Arc, Wait};
use std::thread;
use std::thread::Threads;
use std::time::Clock;
use thiserror::Error;

/// The maximum number of workers of a batch.
pub const MAX_WORKERS: usize = 16;

/// The reasons why a batch is not run.
#[derive(Clone, Copy, Debug, Drop, PartialEq, Eq, Error)]
pub enum PoolFault {
    /// There are no workers, or more than 16.
    #[error("L1 Workers")]
    Workers,
    /// Out of memory.
    #[error("memory")]
    OutOfMemory,
}

// Returns the helpers of a team. Their numbers follow the coordinator's. The thieves' ends of each helper's deque are
// appended to `left`, in the order of the helpers.
fn open_helpers<'a, B: Batch, G: Gate>(
    alloc: Global,
    gate: &'a G,
    team: Team,
    results: Vec<ResultEnd<'a, B>>,
    left: &mut Vec<Vec<ThiefEnd<B>>>,
) -> Result<Vec<Worker<'a, B, G>>, AllocError>
    requires { vec_len results < team.workers }
    ensures { IfOk result (λ helpers. map (λ h. h.number) helpers.items ≡ range_with_len (team.first + 1) (vec_len results.entry)) }
{
    let mut all = Vec::with_capacity(alloc, results.len())?;
    for results in results {
        let number = team.number(all.len() + 1);
        let (helper, thieves) = Worker::open(alloc, gate, number, results, team.helpers())?;
        left.push(thieves)?;
        all.push(helper)?;
    }
    Ok(all)
}

// Gives a thief's end of a deque to each helper except the deque's owner, which is identified by its number.
fn share_out<B: Batch, G: Gate>(
    thieves: Vec<ThiefEnd<B>>,
    owner: usize,
    helpers: &mut Vec<Worker<B, G>>,
) -> Result<(), AllocError>
    ensures { IfOk result (λ _. map (λ h. h.number) helpers.new.items ≡ map (λ h. h.number) helpers.old.items) }
{
    let mut thieves = thieves;
    for helper in helpers.iter_mut() {
        if helper.number != owner {
            if let Some(thief) = thieves.pop() {
                helper.thieves.push(thief)?;
            }
        }
    }
    Ok(())
}

// Shares out the thieves' ends of the helpers' deques. The coordinator and each other helper get one end of each deque.
fn share_out_all<B: Batch, G: Gate>(
    left: Vec<Vec<ThiefEnd<B>>>,
    coordinator: &mut Worker<B, G>,
    helpers: &mut Vec<Worker<B, G>>,
) -> Result<(), AllocError>
    ensures coordinator { IfOk result (λ _. coordinator.new.number ≡ coordinator.old.number) }
    ensures helpers { IfOk result (λ _. map (λ h. h.number) helpers.new.items ≡ map (λ h. h.number) helpers.old.items) }
{
    let mut owner = coordinator.number;
    for mut thieves in left {
        owner = owner.saturating_add(1);
        if let Some(thief) = thieves.pop() {
            coordinator.thieves.push(thief)?;
        }
        share_out(thieves, owner, helpers)?;
    }
    Ok(())
}

// Returns the coordinator's worker and the helpers, from their ends of the queue. Each worker has a thief's end of each
// other worker's deque, and a number of the team that no other worker has.
fn open_workers<'a, B: Batch, G: Gate>(
    alloc: Global,
    gate: &'a G,
    team: Team,
    results: ResultEnd<'a, B>,
    results_of_helpers: Vec<ResultEnd<'a, B>>,
) -> Result<(Worker<'a, B, G>, Vec<Worker<'a, B, G>>), AllocError>
    requires { vec_len results_of_helpers + 1 ≡ team.workers }
    ensures { IfOk result (λ all. all.0.number ∷ map (λ h. h.number) all.1.items ≡ range_with_len team.first team.workers) }
{
    let mut left = Vec::new(alloc);
    let mut crew = open_helpers(alloc, gate, team, results_of_helpers, &mut left)?;
    let number = team.number(COORDINATOR);
    let (mut coordinator, thieves) = Worker::open(alloc, gate, number, results, team.helpers())?;
    share_out(thieves, coordinator.number, &mut crew)?;
    share_out_all(left, &mut coordinator, &mut crew)?;
    Ok((coordinator, crew))
}

// Runs the coordinator here and each helper in its own thread. If a helper's thread does not start, the batch runs
// without it.
fn run_all<'a, B: Batch + Send + Sync, R: Threads + Wait + Clock + Sync, G: Gate>(
    rt: &R,
    coordinator: Coordinator<'a, B, G>,
    helpers: Vec<Worker<'a, B, G>>,
) -> Vec<Outcome>
    ensures { AreOutcomesOf B.jobs result.items }
{
    let stop = AtomicBool::new(false);
    let stop = &stop;
    thread::scope(
        thread::scope_env(),
        rt,
        move |scope| -> Vec<Outcome>
            ensures { AreOutcomesOf B.jobs result.items }
        {
            let mut coordinator = coordinator;
            for helper in helpers {
                let _ = scope.spawn(move || helper.help(rt, stop));
            }
            coordinator.run(rt);
            stop.store(true, SeqCst);
            coordinator.into_outcomes()
        },
    )
}

// Runs the batch by a team of more than one worker. The type parameter names the jobs, which no type of the caller's
// signature does.
fn run_on_many<B: Batch + Send + Sync, R: Threads + Wait + Clock + Sync, G: Gate>(
    rt: &R,
    alloc: Global,
    set: &Arc<CompiledSet>,
    portfolios: Vec<Portfolio>,
    team: Team,
    gate: &G,
) -> Result<Vec<Outcome>, AllocError>
    requires jobs { B.jobs ≡ jobs_of (arc_value set.now) portfolios.items }
    requires fits { AllFit (arc_value set.now) portfolios.items }
    ensures { IfOk result (λ outcomes. AreOutcomes (arc_value set.now) portfolios.items outcomes.items) }
{
    let outcomes = Outcomes::<B>::new(alloc, set, portfolios.as_slice())?;
    let waiting = Waiting::<B>::new(Arc::try_clone(set)?, portfolios);
    let (queue, pass) = new_queue::<B>(alloc)?;
    let (results, theirs) = open_results(alloc, &queue, pass, team.helpers())?;
    let (worker, crew) = open_workers(alloc, gate, team, results, theirs)?;
    let coordinator = Coordinator::new(worker, waiting, outcomes)?;
    Ok(run_all(rt, coordinator, crew))
}

/// Returns the outcomes of accounts under a parameter set, in account order. They are computed by a team whose workers
/// pass the gate under their numbers. The portfolios fit the set's tables.
///
/// Fails if there is no memory for the deques, the queue, their passes or the lists of the batch. An account has the
/// outcome `NoMemory` if there is no memory for its job, its board, a step or its row. For one worker no thread is
/// started: the batch runs as in [`run_plain`](crate::plain::run_plain), and passes the gate.
pub fn run_by_team<R: Threads + Wait + Clock + Sync, G: Gate>(
    rt: &R,
    alloc: Global,
    set: &Arc<CompiledSet>,
    portfolios: Vec<Portfolio>,
    team: Team,
    gate: &G,
) -> Result<Vec<Outcome>, AllocError>
    requires { AllFit (arc_value set.now) portfolios.items }
    ensures { IfOk result (λ outcomes. AreOutcomes (arc_value set.now) portfolios.items outcomes.items) }
{
    if team.helpers() == 0 {
        run_on_one(alloc, set, portfolios, team, gate)
    } else {
        run_on_many::<Brand, R, G>(rt, alloc, set, portfolios, team, gate)
    }
}

/// Returns the outcomes of accounts under a parameter set, in account order, computed on 1 to 16 workers. The
/// portfolios fit the set's tables.
///
/// A number of workers that is 0 or over 16 is rejected before anything is allocated. Otherwise the batch runs as in
/// [`run_by_team`], with one team whose numbers begin with 0. Fails with `OutOfMemory` if that call fails.
pub fn run_batch<R: Threads + Wait + Clock + Sync, G: Gate>(
    rt: &R,
    alloc: Global,
    set: &Arc<CompiledSet>,
    portfolios: Vec<Portfolio>,
    workers: usize,
    gate: &G,
) -> Result<Vec<Outcome>, PoolFault>
    requires { AllFit (arc_value set.now) portfolios.items }
    ensures workers { (result ≡ Err fault.Workers) ↔ ((workers ≡ 0) ⊎ (16 < workers)) }
    ensures outcomes { IfOk result (λ outcomes. AreOutcomes (arc_value set.now) portfolios.items outcomes.items) }
{
    if workers == 0 || workers > MAX_WORKERS {
        return Err(PoolFault::Workers);
    }
    let team = Team { first: 0, workers };
    run_by_team(rt, alloc, set, portfolios, team, gate).map_err(|_| PoolFault::OutOfMemory)
}
