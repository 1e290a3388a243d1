//! The worker that opens the boards of a batch, hands out their steps, takes back the results, and keeps the outcomes.
ghost use Rattle.std.specs.Arc.{arc_value};
ghost use Rattle.std.specs.Prelude.{◌≡◌, IfOk, IfSome, MatchOption, MatchResult, Some, slice_get, slice_set};
ghost use Rattle.worker_pool.specs.declared.outcomes.Outcome.TheVariants.{Margined};
ghost use Rattle.worker_pool.specs.near.Places.{AreOutcomesOf, one_ended};

use crate::accounts::{Outcomes, RowOf, Waiting};
use crate::ends::FinishedOf;
use crate::gates::Gate;
use crate::idle::Patience;
use crate::laws::Batch;
use crate::open_boards::OpenBoard;
use crate::outcomes::Outcome;
use crate::workers::Worker;
use std::alloc::AllocError;
use std::sync::{Arc, Wait};
use std::time::Clock;
use step_scheduler::jobs::Job;
use step_scheduler::rows::Row;

/// The maximum number of boards that are open at one time.
const MOST_OPEN: usize = 64;

/// The state of the coordinator.
#[derive(Drop)]
pub(crate) struct Coordinator<'a, B: Batch, G: Gate> {
    worker: Worker<'a, B, G>,
    waiting: Waiting<B>,
    boards: Vec<OpenBoard<B>>,
    outcomes: Outcomes<B>,
}

impl<'a, B: Batch, G: Gate> Coordinator<'a, B, G> {
    /// Creates a coordinator of these accounts, with no open board.
    pub(crate) fn new(
        worker: Worker<'a, B, G>,
        waiting: Waiting<B>,
        outcomes: Outcomes<B>,
    ) -> Result<Coordinator<'a, B, G>, AllocError> {
        let boards = Vec::with_capacity(worker.alloc, MOST_OPEN)?;
        Ok(Coordinator {
            worker,
            waiting,
            boards,
            outcomes,
        })
    }

    /// Runs until each account has ended.
    pub(crate) fn run<R: Wait + Clock>(&mut self, rt: &R) {
        let mut patience = Patience::of_coordinator();
        for _ in rt.forever() {
            self.open_more();
            if self.outcomes.is_done() {
                return;
            }
            match self.find_result(rt) {
                Some(done) => {
                    patience.renew();
                    self.take_back(done);
                }
                None => patience.wait(rt),
            }
        }
    }

    /// Returns the outcomes, in account order.
    pub(crate) fn into_outcomes(self) -> Vec<Outcome>
        ensures list { result.items ≡ self.entry.outcomes.list }
        ensures of_jobs { AreOutcomesOf B.jobs result.items }
    {
        let Coordinator { outcomes, .. } = self;
        outcomes.into_vec()
    }

    // Returns a result that waits in the queue. If none waits, pops or steals a task, evaluates it here, and returns
    // its result.
    fn find_result<R: Wait>(&mut self, rt: &R) -> Option<FinishedOf<B>> {
        let worker = &mut self.worker;
        if let Some(done) = worker.results.pop(rt) {
            return Some(done);
        }
        let task = match worker.own.pop() {
            Some(task) => task,
            None => worker.steal()?,
        };
        Some(worker.evaluate(task))
    }

    // Opens boards in account order, while accounts wait and fewer than `MOST_OPEN` boards are open.
    fn open_more(&mut self) {
        for _ in 0..self.waiting.len() {
            if self.boards.len() >= MOST_OPEN {
                return;
            }
            match self.waiting.next_job(self.worker.alloc) {
                Ok(Some(job)) => {
                    let opened = self.open_board(job);
                    self.end_account(opened);
                }
                Ok(None) => return,
                Err(AllocError) => self.outcomes.count_ended(),
            }
        }
    }

    // Opens the board of a job, and pushes all tasks that it hands out. Returns the row of its account if the board is
    // then complete.
    fn open_board(&mut self, job: Arc<Job>) -> Result<Option<RowOf<B>>, AllocError>
        requires { slice_get B.jobs (arc_value job).place ≡ Some (arc_value job) }
        ensures { IfOk result (λ r. IfSome r (λ row. row.place ≡ (arc_value job).place)) }
    {
        let mut board = OpenBoard::new(self.worker.alloc, job)?;
        board.hand_out(&mut self.worker)?;
        match board.row(self.worker.alloc)? {
            Some(row) => Ok(Some(row)),
            None => {
                self.boards.push(board)?;
                Ok(None)
            }
        }
    }

    // Gives a result to the board of its index, and pushes all tasks that become ready. Drops the result if that board
    // is not open.
    fn take_back(&mut self, done: FinishedOf<B>) {
        let place = done.place();
        let Some(at) = self.boards.iter().position(|board| board.place() == place) else {
            return;
        };
        let went = self.boards[at].go_on(done, &mut self.worker);
        if !matches!(went, Ok(None)) {
            let _ = self.boards.swap_remove(at);
        }
        self.end_account(went);
    }

    // Ends an account, with its row or as out of memory. With `None` no account ends.
    fn end_account(&mut self, went: Result<Option<RowOf<B>>, AllocError>)
        ensures { MatchResult went
            (λ r. MatchOption r (self.new.outcomes ≡ self.old.outcomes)
            (λ row. self.new.outcomes ≡ one_ended (record self.old.outcomes {
              list = slice_set self.old.outcomes.list row.place (Margined row.row);
            })))
            (λ _. self.new.outcomes ≡ one_ended self.old.outcomes) }
    {
        match went {
            Ok(None) => return,
            Ok(Some(row)) => self.outcomes.set(row),
            Err(AllocError) => {}
        }
        self.outcomes.count_ended();
    }
}
