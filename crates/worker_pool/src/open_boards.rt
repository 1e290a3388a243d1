//! Open boards: the runs of a batch's accounts that have not ended.
ghost use Rattle.std.specs.Arc.{arc_value};
ghost use Rattle.std.specs.Prelude.{◌≡◌, ◌↔◌, ◌++◌, ◌∷◌, [], ℕ, IfNone, IfOk, IfSome, IsSome, None, OnErr, OnOk, Some, false};
ghost use Rattle.std.specs.Prelude.{slice_get};
ghost use Rattle.step_scheduler.specs.Boards.{IfHanded, IsComplete};
ghost use Rattle.step_scheduler.specs.Runs.{CanGoOn, IsReady, IsUnderWay, is_taken};
ghost use Rattle.step_scheduler.specs.declared.events.Event.TheVariants.{Finish, Take};

use crate::accounts::RowOf;
use crate::ends::{FinishedOf, TaskOf};
use crate::gates::Gate;
use crate::laws::Batch;
use crate::workers::Worker;
use std::alloc::{AllocError, Global};
use std::marker::PhantomData;
use std::sync::Arc;
use step_scheduler::boards::Board;
use step_scheduler::jobs::Job;
use step_scheduler::rows::Row;

/// The board of an account of the batch. It has not failed: if memory runs out, the account ends, and the board is
/// dropped.
#[derive(Drop)]
pub(crate) struct OpenBoard<B: Batch> {
    board: Board,
    batch: PhantomData<B>,
    ghost of_batch: { slice_get B.jobs board.job.place ≡ Some board.job },
    ghost live: { board.failed ≡ false },
}

impl<B: Batch> OpenBoard<B> {
    /// Creates the board of a job.
    pub(crate) fn new(alloc: Global, job: Arc<Job>) -> Result<OpenBoard<B>, AllocError>
        requires { slice_get B.jobs (arc_value job).place ≡ Some (arc_value job) }
        ensures { IfOk result (λ board. board.board.job ≡ arc_value job) }
    {
        let board = Board::new(alloc, job)?;
        Ok(OpenBoard {
            board,
            batch: PhantomData,
        })
    }

    /// Returns the index of the board's account.
    pub(crate) fn place(&self) -> usize
        ensures { result ≡ self.now.board.job.place }
    {
        self.board.job().place()
    }

    /// Stores a result of the board's account, and pushes all tasks that become ready. Returns the row of the account
    /// if the board is then complete.
    pub(crate) fn go_on<G: Gate>(
        &mut self,
        done: FinishedOf<B>,
        worker: &mut Worker<B, G>,
    ) -> Result<Option<RowOf<B>>, AllocError>
        requires { done.finished.job.place ≡ self.old.board.job.place }
        ensures { IfOk result (λ r. IfSome r (λ row. row.place ≡ done.finished.job.place)) }
    {
        self.finish(done)?;
        self.hand_out(worker)?;
        self.row(worker.alloc)
    }

    /// Pushes all ready tasks on a worker's deque. If the worker evaluates a task at once, stores its result.
    pub(crate) fn hand_out<G: Gate>(&mut self, worker: &mut Worker<B, G>) -> Result<(), AllocError>
        ensures same_job { self.new.board.job ≡ self.old.board.job }
        ensures all { OnOk result ((k : ℕ) → IsReady self.new.board.job.set.plan self.new.board.history k → ⊥) }
    {
        while let Some(task) = self.take()? {
            let done = worker.push(task);
            self.finish_if_done(done)?;
        }
        Ok(())
    }

    // Stores the result of a task that was evaluated at once, if there is one.
    fn finish_if_done(&mut self, done: Option<FinishedOf<B>>) -> Result<(), AllocError>
        requires { IfSome done (λ done. done.finished.job.place ≡ self.old.board.job.place) }
        ensures same_job { self.new.board.job ≡ self.old.board.job }
        ensures taken { (k : ℕ) → is_taken self.new.board.history k ≡ is_taken self.old.board.history k }
    {
        match done {
            Some(done) => self.finish(done),
            None => Ok(()),
        }
    }

    /// Stores the result of a step that is under way. The result is of this board's job, since both are of the batch
    /// and have the same index.
    ///
    /// A board rejects only results that it has no use for. Fails exactly if the result has no value, because there was
    /// no memory for it.
    pub(crate) fn finish(&mut self, done: FinishedOf<B>) -> Result<(), AllocError>
        requires { done.finished.job.place ≡ self.old.board.job.place }
        ensures same_job { self.new.board.job ≡ self.old.board.job }
        ensures taken { (k : ℕ) → is_taken self.new.board.history k ≡ is_taken self.old.board.history k }
        ensures kept { OnOk result (IsUnderWay self.old.board.history done.finished.step
            → self.new.board ≡ record self.old.board { history = self.old.board.history ++ Finish done.finished.step ∷ [] }) }
        ensures no_memory { OnErr result (done.finished.value ≡ None) }
    {
        let finished = done.into_finished();
        let _value = finished.value().ok_or(AllocError)?;
        let _ = self.board.finish(finished);
        Ok(())
    }

    /// Returns the row of the board's account if the board is complete. Before that it returns `None`, and a step can
    /// go on.
    pub(crate) fn row(&self, alloc: Global) -> Result<Option<RowOf<B>>, AllocError>
        ensures place { IfOk result (λ r. IfSome r (λ row. row.place ≡ self.now.board.job.place)) }
        ensures complete { IfOk result (λ r. IsSome r ↔ IsComplete self.now.board) }
        ensures goes_on { IfOk result (λ r. IfNone r
            ((k : ℕ) × CanGoOn self.now.board.job.set.plan self.now.board.history k)) }
    {
        if !self.board.is_complete() {
            return Ok(None);
        }
        let row = Row::of(alloc, &self.board)?;
        Ok(Some(RowOf::new(row, self.place())))
    }

    // Takes a step that is ready.
    fn take(&mut self) -> Result<Option<TaskOf<B>>, AllocError>
        ensures same_job { self.new.board.job ≡ self.old.board.job }
        ensures ready { IfHanded result (λ task. IsReady self.old.board.job.set.plan self.old.board.history task.task.step) }
        ensures job { IfHanded result (λ task. task.task.job ≡ self.old.board.job) }
        ensures taken { IfHanded result (λ task.
            self.new.board ≡ record self.old.board { history = self.old.board.history ++ Take task.task.step ∷ [] }) }
        ensures none { IfOk result (λ r. IfNone r ((k : ℕ)
            → IsReady self.new.board.job.set.plan self.new.board.history k → ⊥)) }
    {
        match self.board.take_ready()? {
            Some(task) => Ok(Some(TaskOf::new(task))),
            None => Ok(None),
        }
    }
}
