//! A worker's end of the result queue of a batch.
ghost use Rattle.crossbeam_queue.specs.Passes.{IsPassOf, view};
ghost use Rattle.std.specs.Prelude.{◌≡◌, ◌<◌, [], IfOk, vec_len};
ghost use Rattle.worker_pool.specs.Balance.{ALL_PARTS, knows};
ghost use Rattle.worker_pool.specs.declared.batch.TheConstants.{MAX_WORKERS};

use crate::ends::FinishedOf;
use crate::laws::{Batch, ResultPass, Results, pop_result, push_result, split_queue_pass};
use std::alloc::{AllocError, Global};
use std::marker::Model;
use std::sync::Wait;

/// An end of the result queue, with its pass.
#[derive(Drop)]
pub(crate) struct ResultEnd<'a, B: Batch> {
    queue: &'a Results<B>,
    pass: ResultPass,
}

impl<'a, B: Batch> Model for ResultEnd<'a, B> {
    ghost use Rattle.std.specs.Prelude.{◌≡◌, ◌<◌};
    ghost use Rattle.crossbeam_queue.specs.Passes.{IsPassOf, view as pass_view};

    ghost Value = { Unit {0} };

    ghost view = { λ _. tt };

    ghost invariant = { λ e. IsPassOf e.queue.now e.pass × ((pass_view e.pass).batch ≡ B.jobs) × (0 < (pass_view e.pass).parts) };
}

/// Returns the coordinator's end, and one end for each helper.
pub(crate) fn open_results<'a, B: Batch>(
    alloc: Global,
    queue: &'a Results<B>,
    pass: ResultPass,
    helpers: usize,
) -> Result<(ResultEnd<'a, B>, Vec<ResultEnd<'a, B>>), AllocError>
    requires queue { IsPassOf queue.now pass }
    requires view { view pass ≡ knows B.jobs ALL_PARTS [] [] }
    requires helpers { helpers < MAX_WORKERS }
    ensures { IfOk result (λ ends. vec_len ends.1 ≡ helpers) }
{
    let mut pass = pass;
    let mut ends = Vec::with_capacity(alloc, helpers)?;
    for _ in 0..helpers {
        let cut = split_queue_pass(queue, &mut pass);
        ends.push(ResultEnd { queue, pass: cut })?;
    }
    Ok((ResultEnd { queue, pass }, ends))
}

impl<B: Batch> ResultEnd<'_, B> {
    /// Adds a result at the back. Returns the result only if the queue was full.
    pub(crate) fn push<R: Wait>(
        &mut self,
        rt: &R,
        done: FinishedOf<B>,
    ) -> Result<(), FinishedOf<B>> {
        match push_result(rt, self.queue, &mut self.pass, done.into_finished()) {
            Ok(()) => Ok(()),
            Err(finished) => Err(FinishedOf::new(finished)),
        }
    }

    /// Takes the result at the front.
    pub(crate) fn pop<R: Wait>(&mut self, rt: &R) -> Option<FinishedOf<B>> {
        let finished = pop_result(rt, self.queue, &mut self.pass)?;
        Some(FinishedOf::new(finished))
    }
}
