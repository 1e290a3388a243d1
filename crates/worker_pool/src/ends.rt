//! A worker's ends of the deques of a batch. The invariants of the types say that all tasks and results are of the
//! batch, so that the callers need no clause for it.
ghost use Rattle.crossbeam_deque.specs.Handles.{IsPassOf, stealer_deque, view, worker_deque, worker_view};
ghost use Rattle.std.specs.Prelude.{◌≡◌, ◌<◌, IfErr};
ghost use Rattle.worker_pool.specs.Batches.{IsResultOf, IsTaskOf};
ghost use Rattle.worker_pool.specs.declared.batch.TheConstants.{MAX_WORKERS};

use crate::gates::Gate;
use crate::laws::{
    Batch, Deque, DequePass, Thief, new_deque, pop_task, push_task, split_deque_pass, steal_task,
};
use crossbeam_deque::Steal;
use std::alloc::{AllocError, Global};
use std::marker::{Model, PhantomData};
use step_scheduler::evaluation::evaluate;
use step_scheduler::finished::Finished;
use step_scheduler::tasks::Task;

/// A task of the batch.
#[derive(Drop)]
pub(crate) struct TaskOf<B: Batch> {
    pub(crate) task: Task,
    batch: PhantomData<B>,
    pub(crate) ghost of_batch: { IsTaskOf B.jobs task },
}

/// A result of the batch.
#[derive(Drop)]
pub(crate) struct FinishedOf<B: Batch> {
    pub(crate) finished: Finished,
    batch: PhantomData<B>,
    pub(crate) ghost of_batch: { IsResultOf B.jobs finished },
}

impl<B: Batch> TaskOf<B> {
    pub(crate) fn new(task: Task) -> TaskOf<B>
        requires { IsTaskOf B.jobs task }
        ensures { result.task ≡ task }
    {
        TaskOf {
            task,
            batch: PhantomData,
        }
    }

    /// Passes the gate with the task under a worker's number, then evaluates the task and returns its result.
    pub(crate) fn evaluate<G: Gate>(self, alloc: Global, gate: &G, worker: usize) -> FinishedOf<B>
        requires { worker < MAX_WORKERS }
        ensures { result.finished.job ≡ self.task.job }
    {
        let TaskOf { task, .. } = self;
        gate.pass(worker, task.job().portfolio().account(), task.step());
        FinishedOf::new(evaluate(alloc, task))
    }
}

impl<B: Batch> FinishedOf<B> {
    pub(crate) fn new(finished: Finished) -> FinishedOf<B>
        requires { IsResultOf B.jobs finished }
        ensures { result.finished ≡ finished }
    {
        FinishedOf {
            finished,
            batch: PhantomData,
        }
    }

    /// Returns the index of the result's account.
    pub(crate) fn place(&self) -> usize
        ensures { result ≡ self.now.finished.job.place }
    {
        self.finished.job().place()
    }

    /// Returns the finished step.
    pub(crate) fn into_finished(self) -> Finished
        ensures finished { result ≡ self.finished }
        ensures batch { IsResultOf B.jobs result }
    {
        let FinishedOf { finished, .. } = self;
        finished
    }
}

/// The owner's end of a deque.
#[derive(Drop)]
pub(crate) struct OwnEnd<B: Batch> {
    deque: Deque<B>,
}

impl<B: Batch> Model for OwnEnd<B> {
    ghost use Rattle.std.specs.Prelude.{◌≡◌, ◌<◌};
    ghost use Rattle.crossbeam_deque.specs.Handles.{worker_view};

    ghost Value = { Unit {0} };

    ghost view = { λ _. tt };

    ghost invariant = { λ e. ((worker_view e.deque).batch ≡ B.jobs) × (0 < (worker_view e.deque).parts) };
}

/// A thief's end of a deque, with its pass.
#[derive(Drop)]
pub(crate) struct ThiefEnd<B: Batch> {
    thief: Thief<B>,
    pass: DequePass,
}

impl<B: Batch> Model for ThiefEnd<B> {
    ghost use Rattle.std.specs.Prelude.{◌≡◌, ◌<◌};
    ghost use Rattle.crossbeam_deque.specs.Handles.{IsPassOf, stealer_deque, view as pass_view};

    ghost Value = { Unit {0} };

    ghost view = { λ _. tt };

    ghost invariant = { λ e. IsPassOf (stealer_deque e.thief) e.pass × ((pass_view e.pass).batch ≡ B.jobs)
        × (0 < (pass_view e.pass).parts) };
}

/// Creates a deque with the given initial capacity, and returns its ends for the owner and for the given number of
/// thieves.
pub(crate) fn open_deque<B: Batch>(
    alloc: Global,
    places: usize,
    thieves: usize,
) -> Result<(OwnEnd<B>, Vec<ThiefEnd<B>>), AllocError>
    requires { thieves < MAX_WORKERS }
{
    let mut deque = new_deque::<B>(alloc, places)?;
    let mut ends = Vec::with_capacity(alloc, thieves)?;
    for _ in 0..thieves {
        let thief = deque.stealer()?;
        let pass = split_deque_pass(&mut deque);
        ends.push(ThiefEnd { thief, pass })?;
    }
    Ok((OwnEnd { deque }, ends))
}

impl<B: Batch> OwnEnd<B> {
    /// Adds a task at the back. If the push fails, returns the task.
    pub(crate) fn push(&mut self, task: TaskOf<B>) -> Result<(), TaskOf<B>>
        ensures { IfErr result (λ back. back.task ≡ task.task) }
    {
        let TaskOf { task, .. } = task;
        match push_task(&mut self.deque, task) {
            Ok(()) => Ok(()),
            Err(task) => Err(TaskOf::new(task)),
        }
    }

    /// Takes the task at the front.
    pub(crate) fn pop(&mut self) -> Option<TaskOf<B>> {
        let task = pop_task(&mut self.deque)?;
        Some(TaskOf::new(task))
    }
}

impl<B: Batch> ThiefEnd<B> {
    /// Takes the task at the front, unless another worker took it meanwhile.
    pub(crate) fn steal(&mut self) -> Option<TaskOf<B>> {
        match steal_task(&self.thief, &mut self.pass) {
            Steal::Success(task) => Some(TaskOf::new(task)),
            Steal::Empty => None,
            Steal::Retry => None,
        }
    }
}
