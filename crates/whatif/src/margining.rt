//! Batches of portfolios that are margined (docs/FORMATS.md, "Evaluated orders").
ghost use Rattle.std.specs.Arc.{arc_value};
ghost use Rattle.std.specs.Prelude.{◌≡◌, IfOk, map};
ghost use Rattle.worker_pool.specs.Batches.{AllFit};
ghost use Rattle.worker_teams.specs.near.OutcomeRows.{rows_of_accounts};

use plan_compiler::set::CompiledSet;
use span_tables::portfolios::{Portfolio, Portfolios};
use std::alloc::{AllocError, Global};
use std::sync::{Arc, Wait};
use std::thread::Threads;
use std::time::Clock;
use step_scheduler::rows::Row;
use worker_pool::gates::Gate;
use worker_teams::rows::rows_together;

/// The maximum number of portfolios of a batch.
pub(crate) const MOST_AT_ONCE: usize = 512;

/// What batches borrow: a runtime, an allocator, the parameter set, the number of workers, and the gate that they pass.
#[derive(Drop)]
pub(crate) struct BatchMeans<'a, R, G: Gate> {
    pub(crate) rt: &'a R,
    pub(crate) alloc: Global,
    pub(crate) set: &'a Arc<CompiledSet>,
    pub(crate) workers: usize,
    pub(crate) gate: &'a G,
}

/// Returns the rows of portfolios, in their order.
pub(crate) fn rows_of<R: Threads + Wait + Clock + Sync, G: Gate>(
    lent: &BatchMeans<'_, R, G>,
    portfolios: Vec<Portfolio>,
) -> Result<Vec<Arc<Row>>, AllocError>
    requires { AllFit (arc_value lent.now.set.now) portfolios.items }
    ensures { IfOk result (λ rows. map arc_value rows.items ≡ rows_of_accounts (arc_value lent.now.set.now) portfolios.items) }
{
    rows_together(
        lent.rt,
        lent.alloc,
        lent.set,
        Portfolios::new(portfolios),
        lent.workers,
        lent.gate,
    )
}
