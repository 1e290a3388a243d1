//! Boards, which run the plan of a job.
ghost use Rattle.std.specs.Prelude.{◌≡◌, ◌<◌, ◌↔◌, ◌++◌, ◌∷◌, [], ℕ, true, false, Err};
ghost use Rattle.std.specs.Prelude.{IfOk, IfSome, IfNone, IsTrue, OnOk, OnErr};
ghost use Rattle.std.specs.Prelude.{IsSome, length};
ghost use Rattle.std.specs.Arc.{arc_value};
ghost use Rattle.plan_ir.specs.Figures.{figures_of, option_value_of, total_to};
ghost use Rattle.plan_ir.specs.Plans.{inputs_at};
ghost use Rattle.step_scheduler.specs.Boards.{IfHanded, IsComplete};
ghost use Rattle.step_scheduler.specs.near.Figures.{AreHeldFigures};
ghost use Rattle.step_scheduler.specs.near.Forms.{history_of};
ghost use Rattle.step_scheduler.specs.Jobs.{inputs_for, meaning_at};
ghost use Rattle.step_scheduler.specs.Runs.{CanGoOn, IsOnce, IsReady, IsRun, IsUnderWay, is_finished};
ghost use Rattle.step_scheduler.specs.Runs.{run_values, unfinished};
ghost use Rattle.step_scheduler.specs.declared.events.Event.TheVariants.{Take, Finish};

use crate::counters::{counters, last_of, release};
use crate::courses::Course;
use crate::events::Event;
use crate::finished::Finished;
use crate::handing::task_of;
use crate::held_figures::HeldFigures;
use crate::jobs::Job;
use crate::opening::found_values;
use crate::progress::{Progress, all_done, is_under_way};
use crate::run_memory::RunMemory;
use crate::stepped::Stepped;
use crate::tasks::Task;
use crate::watches::{Upcoming, Watch};
use crate::whole::Whole;
use plan_ir::figures::Figures;
use plan_ir::values::Value;
use span_money::amounts::Money;
use std::alloc::{AllocError, Global};
use std::marker::Model;
use std::sync::Arc;
use thiserror::Error;

/// The reason why a board rejects a finished step.
#[derive(Clone, Copy, Debug, Drop, PartialEq, Eq, Error)]
pub enum Refused {
    /// The step is waiting, is ready, or already has its value.
    #[error("NotTaken")]
    NotTaken,
    /// The board has failed.
    #[error("Failed")]
    Failed,
}

// How a board runs its plan: either its steps are handed out one by one, or all of them were run in one call.
#[derive(Drop)]
enum Form {
    Stepped(Stepped),
    Whole(Whole),
}

impl Form {
    // Returns the events so far, in order.
    fn history(&self) -> &[Event]
        ensures { result.now ≡ history_of self.now }
    {
        match self {
            Form::Stepped(stepped) => stepped.history.as_slice(),
            Form::Whole(whole) => whole.events.as_slice(),
        }
    }
}

/// The run of a job's plan: the events so far and the values of the steps.
///
/// Contracts see the job, the history, and whether the board has failed. Each stored value is the meaning of its step.
#[derive(Drop)]
pub struct Board {
    alloc: Global,
    job: Arc<Job>,
    failed: bool,
    form: Form,
}

impl Model for Board {
    ghost use Rattle.std.specs.Arc.{arc_value};
    ghost use Rattle.step_scheduler.specs.Boards.{BoardView};
    ghost use Rattle.step_scheduler.specs.near.Forms.{IsBoard, history_of};

    ghost Value = { BoardView };

    ghost view = { λ b. record { job = arc_value b.job; history = history_of b.form; failed = b.failed } };

    ghost invariant = { λ b. IsBoard (arc_value b.job) b.form };
}

impl Board {
    /// Creates a board of a job, with an empty history.
    ///
    /// Allocates all memory that the board itself will ever need. Fails if memory runs out.
    pub fn new(alloc: Global, job: Arc<Job>) -> Result<Board, AllocError>
        ensures { IfOk result (λ b. b ≡ record { job = arc_value job; history = []; failed = false }) }
    {
        let count = job.plan().len();
        let steps = vec![in alloc; Progress::Waiting; count]?;
        let (missing, ready) = counters(alloc, job.set())?;
        let slots = found_values(alloc, &job)?;
        let history = Vec::with_capacity(alloc, 2 * count)?;
        let stepped = Stepped {
            steps,
            missing,
            ready,
            slots,
            history,
        };
        Ok(Board {
            alloc,
            job,
            failed: false,
            form: Form::Stepped(stepped),
        })
    }

    /// Creates a board of a job and runs every step of its plan in one call. Its history is the course of the parameter
    /// set, which it shares. Fails if memory runs out.
    ///
    /// Calls the watch for each step in the order of that history: for the steps of a commodity in front of their
    /// evaluation, for the steps between commodities in front of theirs, and for figures and totals in front of theirs.
    /// The watch is also called for the steps of commodities that are not held, for which nothing is evaluated. What an
    /// earlier run left in `memory` has no effect.
    pub fn whole<W: Watch>(
        alloc: Global,
        job: Arc<Job>,
        course: &Course,
        memory: &mut RunMemory,
        watch: &W,
    ) -> Result<Board, AllocError>
        requires { course.now.set ≡ (arc_value job).set }
        ensures value { IfOk result (λ b. b ≡ record { job = arc_value job; history = course.now.events; failed = false }) }
        ensures complete { IfOk result (λ b. IsComplete b) }
    {
        // This call is for its contract: the plan satisfies the plan law, and the portfolio fits the tables.
        let _plan = job.plan();
        let mut upcoming = Upcoming::all(course.events(), watch);
        let whole = Whole::new(alloc, &job, course, &mut upcoming, memory)?;
        Ok(Board {
            alloc,
            job,
            failed: false,
            form: Form::Whole(whole),
        })
    }

    /// Returns the job.
    pub fn job(&self) -> &Arc<Job>
        ensures { arc_value result.now ≡ self.now.job }
    {
        &self.job
    }

    /// Hands out a ready step, with the values of its inputs.
    ///
    /// Returns `None` if no step is ready or the board has failed. Fails if memory runs out. The board does not change
    /// after `None` or `Err`.
    pub fn take_ready(&mut self) -> Result<Option<Task>, AllocError>
        ensures same_job { self.new.job ≡ self.old.job }
        ensures ready { IfHanded result (λ task. IsReady self.old.job.set.plan self.old.history task.step) }
        ensures live { IfHanded result (λ task. self.old.failed ≡ false) }
        ensures job { IfHanded result (λ task. task.job ≡ self.old.job) }
        ensures inputs { IfHanded result (λ task. task.inputs ≡ inputs_for self.old.job task.step) }
        ensures taken { IfHanded result (λ task.
            self.new ≡ record self.old { history = self.old.history ++ Take task.step ∷ [] }) }
        ensures none { IfOk result (λ r. IfNone r (self.old.failed ≡ false
            → (k : ℕ) → IsReady self.old.job.set.plan self.old.history k → ⊥)) }
        ensures unchanged { IfOk result (λ r. IfNone r (self.new ≡ self.old)) }
        ensures err { OnErr result (self.new ≡ self.old) }
    {
        if self.failed {
            return Ok(None);
        }
        match &mut self.form {
            Form::Stepped(stepped) => {
                let Some(step) = last_of(stepped.ready.as_slice()) else {
                    return Ok(None);
                };
                let task = task_of(self.alloc, &self.job, stepped.slots.as_slice(), step)?;
                stepped.ready.truncate(stepped.ready.len() - 1);
                stepped.steps[step as usize] = Progress::Taken;
                stepped.history.push_reserved(Event::Take(step));
                Ok(Some(task))
            }
            Form::Whole(_) => Ok(None),
        }
    }

    /// Stores the value of a step that was handed out, without allocating memory. The step's job has to be the board's
    /// job.
    ///
    /// If memory ran out for the value, the board fails. A board that has failed rejects every step. A board that has
    /// not failed rejects a step that is not under way. A rejected step does not change the board.
    pub fn finish(&mut self, finished: Finished) -> Result<(), Refused>
        requires { finished.job ≡ self.old.job }
        ensures same_job { self.new.job ≡ self.old.job }
        ensures failed { (result ≡ Err Refused.Failed) ↔ (self.old.failed ≡ true) }
        ensures not_taken { (result ≡ Err Refused.NotTaken)
            ↔ ((self.old.failed ≡ false) × (IsUnderWay self.old.history finished.step → ⊥)) }
        ensures refused { OnErr result (self.new ≡ self.old) }
        ensures value { OnOk result (IfSome finished.value (λ v.
            self.new ≡ record self.old { history = self.old.history ++ Finish finished.step ∷ [] })) }
        ensures no_memory { OnOk result (IfNone finished.value (self.new ≡ record self.old { failed = true })) }
    {
        if self.failed {
            return Err(Refused::Failed);
        }
        let (step, value) = finished.into_parts();
        if !self.is_under_way(step) {
            return Err(Refused::NotTaken);
        }
        match value {
            Some(value) => self.store_value(step, value),
            None => self.failed = true,
        }
        Ok(())
    }

    // Returns whether a step was handed out and has no value.
    fn is_under_way(&self, step: u32) -> bool
        requires { step < length self.now.job.set.plan }
        ensures { IsTrue result ↔ IsUnderWay self.now.history step }
    {
        match &self.form {
            Form::Stepped(stepped) => is_under_way(stepped.steps.as_slice(), step as usize),
            Form::Whole(_) => false,
        }
    }

    // Stores the value of a step that is under way.
    fn store_value(&mut self, step: u32, value: Arc<Value>)
        requires in_range { step < length self.old.job.set.plan }
        requires under_way { IsUnderWay self.old.history step }
        requires means { arc_value value ≡ meaning_at self.old.job step }
        ensures { self.new ≡ record self.old { history = self.old.history ++ Finish step ∷ [] } }
    {
        match &mut self.form {
            Form::Stepped(stepped) => {
                let place = step as usize;
                stepped.steps[place] = Progress::Done;
                stepped.slots[place] = Some(value);
                stepped.history.push_reserved(Event::Finish(step));
                release(
                    self.job.plan().users(place),
                    &mut stepped.missing,
                    &mut stepped.ready,
                );
            }
            Form::Whole(_) => unreachable!(),
        }
    }

    /// Makes the board fail, and keeps its history.
    pub fn fail(&mut self)
        ensures { self.new ≡ record self.old { failed = true } }
    {
        self.failed = true;
    }

    /// Returns whether every step has its value and the board has not failed.
    pub fn is_complete(&self) -> bool
        ensures complete { IsTrue result ↔ IsComplete self.now }
        ensures goes_on { result ≡ false → self.now.failed ≡ false
            → (k : ℕ) × CanGoOn self.now.job.set.plan self.now.history k }
    {
        if self.failed {
            return false;
        }
        match &self.form {
            Form::Stepped(stepped) => all_done(stepped.steps.as_slice(), stepped.history.len()),
            Form::Whole(_) => true,
        }
    }

    /// Returns the number of inputs of step k that have no value.
    pub fn missing(&self, k: usize) -> usize
        requires { k < length self.now.job.set.plan }
        ensures { result ≡ unfinished self.now.history (inputs_at self.now.job.set.plan k) }
    {
        match &self.form {
            Form::Stepped(stepped) => stepped.missing[k] as usize,
            Form::Whole(_) => 0,
        }
    }

    /// Returns the events so far, in order.
    pub fn history(&self) -> &[Event]
        ensures history { result.now ≡ self.now.history }
        ensures run { IsRun self.now.job.set.plan self.now.history }
        ensures once { IsOnce self.now.history }
        ensures values { (k : ℕ) → is_finished self.now.history k ≡ true
            → run_values self.now.job self.now.history k ≡ meaning_at self.now.job k }
    {
        self.form.history()
    }

    /// Returns the figures of a commodity by its number. Returns `None` if the board is not complete or there is no
    /// such commodity.
    pub fn figures(&self, commodity: usize) -> Option<Figures>
        ensures complete { IsSome result ↔ (IsComplete self.now × (commodity < length self.now.job.set.tables.commodities)) }
        ensures value { IfSome result (λ f. f ≡ figures_of self.now.job.set.tables self.now.job.portfolio.holdings commodity) }
    {
        if !self.is_complete() || commodity >= self.job.set().tables().commodities().len() {
            return None;
        }
        Some(match &self.form {
            Form::Stepped(stepped) => stepped.figures(&self.job, commodity),
            Form::Whole(whole) => *whole.figures.of(commodity),
        })
    }

    /// Returns the total, in minor units, or `None` if the board is not complete.
    pub fn total(&self) -> Option<Money>
        ensures complete { IsSome result ↔ IsComplete self.now }
        ensures value { IfSome result (λ total. total ≡ total_to self.now.job.set.tables
            self.now.job.portfolio.holdings (length self.now.job.set.tables.commodities)) }
    {
        if !self.is_complete() {
            return None;
        }
        Some(match &self.form {
            Form::Stepped(stepped) => stepped.total(&self.job),
            Form::Whole(whole) => whole.total,
        })
    }

    /// Returns the account's option value, in minor units, or `None` if the board is not complete. The option value is
    /// 0 under a profile in which options have none.
    pub fn value(&self) -> Option<Money>
        ensures complete { IsSome result ↔ IsComplete self.now }
        ensures value { IfSome result (λ value. value ≡ option_value_of self.now.job.set.tables self.now.job.portfolio.holdings) }
    {
        if !self.is_complete() {
            return None;
        }
        Some(match &self.form {
            Form::Stepped(stepped) => stepped.value(&self.job),
            Form::Whole(whole) => whole.value,
        })
    }

    // Returns the figures of all commodities: one element for each held commodity, and one for all others. The board is
    // complete.
    pub(crate) fn held_figures(&self, alloc: Global) -> Result<HeldFigures, AllocError>
        requires { IsComplete self.now }
        ensures { IfOk result (λ held. AreHeldFigures self.now.job.set.tables self.now.job.portfolio.holdings held) }
    {
        match &self.form {
            Form::Stepped(stepped) => stepped.held_figures(alloc, &self.job),
            Form::Whole(whole) => whole.figures.copied(alloc),
        }
    }

    // Consumes the board, and returns the same figures.
    pub(crate) fn into_held_figures(self, alloc: Global) -> Result<HeldFigures, AllocError>
        requires { IsComplete self }
        ensures { IfOk result (λ held. AreHeldFigures self.job.set.tables self.job.portfolio.holdings held) }
    {
        let Board {
            alloc: _,
            job,
            failed: _,
            form,
        } = self;
        match form {
            Form::Stepped(stepped) => stepped.held_figures(alloc, &job),
            Form::Whole(whole) => Ok(whole.figures),
        }
    }
}
