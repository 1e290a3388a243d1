//! From the bytes of both files to the bytes of a statement.
ghost use Rattle.statement_text.specs.Gives.{Gives};
ghost use Rattle.statement.specs.Margin.{margin_of};
ghost use Rattle.statement_text.specs.Statement.{statement_of, statement_text};
ghost use Rattle.std.specs.Arc.{arc_value};
ghost use Rattle.std.specs.Prelude.{◌≡◌, ◌<◌, ◌⊎◌, ◌↔◌, Err, IfOk};
ghost use Rattle.worker_pool.specs.Batches.{AllFit};
ghost use Rattle.statement_text.specs.declared.faults.SpanFault.TheVariants as fault;

use acceptance::accepting::{Accepted, accept, accept_together};
use plan_compiler::set::CompiledSet;
use span_tables::portfolios::Portfolios;
use statement_text::faults::SpanFault;
use std::alloc::{AllocError, Global};
use std::sync::{Arc, Wait};
use std::thread::Threads;
use std::time::Clock;
use worker_pool::batch::MAX_WORKERS;
use worker_pool::gates::Gate;
use worker_teams::rows::rows_alone;
use worker_teams::texts::{text_of, text_together};

/// Returns the statement of two files, or the first fault in reading the parameters, checking them, reading the
/// positions and binding them (docs/METHOD.md has the figures, docs/FORMATS.md the faults). Fails with `Memory` if
/// memory runs out.
pub fn margin_plain(alloc: Global, params: &[u8], positions: &[u8]) -> Result<Vec<u8>, SpanFault>
    ensures { Gives (λ text. text.items) result (statement_of params.now positions.now) }
{
    let Accepted {
        set,
        portfolios,
        ..
    } = accept(alloc, params, positions)?;
    let rows = rows_alone(alloc, &set, portfolios)?;
    let text = text_of(alloc, &rows)?;
    Ok(text)
}

/// Returns the statement of portfolios under a compiled parameter set, on 1 to 16 workers. If memory runs out for one
/// account, there is no statement.
pub fn margin_of_portfolios<R: Threads + Wait + Clock + Sync, G: Gate>(
    rt: &R,
    alloc: Global,
    set: &Arc<CompiledSet>,
    portfolios: Portfolios,
    workers: usize,
    gate: &G,
) -> Result<Vec<u8>, AllocError>
    requires { AllFit (arc_value set.now) portfolios }
    ensures { IfOk result (λ text. text.items ≡ statement_text (arc_value set.now).tables portfolios) }
{
    text_together(rt, alloc, set, portfolios, workers, gate)
}

/// Returns the statement of two files on a number of workers, which may finish the steps in any order. The text or the
/// fault is the same as with [`margin_plain`], unless memory runs out.
///
/// A number of workers that is 0 or over 16 is rejected before anything else. The workers call the hook `gate` before
/// each step.
#[tactic(auto, unfolding(crate::specs::Margin::margin_of))]
pub fn margin<R: Threads + Wait + Clock + Sync, G: Gate>(
    rt: &R,
    alloc: Global,
    params: &[u8],
    positions: &[u8],
    workers: usize,
    gate: &G,
) -> Result<Vec<u8>, SpanFault>
    ensures workers { (result ≡ Err fault.Workers) ↔ ((workers ≡ 0) ⊎ (16 < workers)) }
    ensures text { Gives (λ text. text.items) result (margin_of workers params.now positions.now) }
{
    if workers == 0 || workers > MAX_WORKERS {
        return Err(SpanFault::Workers);
    }
    let Accepted {
        set,
        portfolios,
        ..
    } = accept_together(rt, alloc, params, positions, workers)?;
    let text = margin_of_portfolios(rt, alloc, &set, portfolios, workers, gate)?;
    Ok(text)
}
