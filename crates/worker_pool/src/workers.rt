//! The workers of a batch, including the coordinator, and how a helper helps.
ghost use Rattle.std.specs.Prelude.{◌≡◌, ◌<◌, IfOk, IfSome};
ghost use Rattle.worker_pool.specs.declared.batch.TheConstants.{MAX_WORKERS};

use crate::ends::{FinishedOf, OwnEnd, TaskOf, ThiefEnd, open_deque};
use crate::gates::Gate;
use crate::idle::Patience;
use crate::laws::Batch;
use crate::queue_ends::ResultEnd;
use std::alloc::{AllocError, Global};
use std::sync::Wait;
use std::sync::atomic::AtomicBool;
use std::sync::atomic::Ordering::SeqCst;
use std::time::Clock;

/// The initial capacity of a deque, in tasks. A deque grows.
const DEQUE_PLACES: usize = 256;

/// The maximum number of tasks that a helper steals at once.
const MOST_STOLEN: usize = 4;

/// A worker: its number at the gate, its end of the result queue, its own deque, and a thief's end of each other
/// worker's deque.
#[derive(Drop)]
pub(crate) struct Worker<'a, B: Batch, G: Gate> {
    pub(crate) alloc: Global,
    pub(crate) gate: &'a G,
    pub(crate) number: usize,
    pub(crate) results: ResultEnd<'a, B>,
    pub(crate) own: OwnEnd<B>,
    pub(crate) thieves: Vec<ThiefEnd<B>>,
    pub(crate) ghost below: { number < MAX_WORKERS },
}

impl<'a, B: Batch, G: Gate> Worker<'a, B, G> {
    /// Creates a worker that has no thief's end yet, and the thieves' ends of its deque, one for each other worker.
    pub(crate) fn open(
        alloc: Global,
        gate: &'a G,
        number: usize,
        results: ResultEnd<'a, B>,
        others: usize,
    ) -> Result<(Worker<'a, B, G>, Vec<ThiefEnd<B>>), AllocError>
        requires number { number < MAX_WORKERS }
        requires others { others < MAX_WORKERS }
        ensures { IfOk result (λ opened. opened.0.number ≡ number) }
    {
        let (own, thieves) = open_deque::<B>(alloc, DEQUE_PLACES, others)?;
        let worker = Worker {
            alloc,
            gate,
            number,
            results,
            own,
            thieves: Vec::new(alloc),
        };
        Ok((worker, thieves))
    }

    /// Evaluates a task here under the worker's number, and returns its result.
    pub(crate) fn evaluate(&self, task: TaskOf<B>) -> FinishedOf<B>
        ensures { result.finished.job ≡ task.task.job }
    {
        task.evaluate(self.alloc, self.gate, self.number)
    }

    /// Pushes a task on the worker's own deque. If the push fails, evaluates the task here and returns its result.
    pub(crate) fn push(&mut self, task: TaskOf<B>) -> Option<FinishedOf<B>>
        ensures { IfSome result (λ done. done.finished.job ≡ task.task.job) }
    {
        match self.own.push(task) {
            Ok(()) => None,
            Err(task) => Some(self.evaluate(task)),
        }
    }

    /// Steals a task from the first other worker whose deque gives one.
    pub(crate) fn steal(&mut self) -> Option<TaskOf<B>> {
        for thief in self.thieves.iter_mut() {
            if let Some(task) = thief.steal() {
                return Some(task);
            }
        }
        None
    }

    /// Helps the coordinator until the stop flag is set.
    pub(crate) fn help<R: Wait + Clock>(mut self, rt: &R, stop: &AtomicBool) {
        let mut patience = Patience::of_helper();
        for _ in rt.forever() {
            if stop.load(SeqCst) {
                return;
            }
            match self.find_task(rt, stop) {
                Some(task) => {
                    patience.renew();
                    let done = self.evaluate(task);
                    self.hand_in(rt, stop, done);
                }
                None => patience.wait(rt),
            }
        }
    }

    // Returns a task of the helper's own deque. If there is none, up to four are stolen one by one, and all but the
    // first are pushed on the helper's own deque. If such a push fails, the task is evaluated and its result is handed
    // in at once.
    fn find_task<R: Wait + Clock>(&mut self, rt: &R, stop: &AtomicBool) -> Option<TaskOf<B>> {
        if let Some(task) = self.own.pop() {
            return Some(task);
        }
        let first = self.steal()?;
        for _ in 1..MOST_STOLEN {
            let Some(task) = self.steal() else {
                break;
            };
            if let Some(done) = self.push(task) {
                self.hand_in(rt, stop, done);
            }
        }
        Some(first)
    }

    // Hands a result in. Retries while the queue is full and the stop flag is not set.
    fn hand_in<R: Wait + Clock>(&mut self, rt: &R, stop: &AtomicBool, done: FinishedOf<B>) {
        let mut patience = Patience::of_helper();
        let mut left = done;
        for _ in rt.forever() {
            match self.results.push(rt, left) {
                Ok(()) => return,
                Err(back) => left = back,
            }
            if stop.load(SeqCst) {
                return;
            }
            patience.wait(rt);
        }
    }
}
