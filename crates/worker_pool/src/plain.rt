//! Batches on one thread, one complete board after another.
ghost use Rattle.std.specs.Prelude.{◌≡◌, IfOk};
ghost use Rattle.std.specs.Arc.{arc_value};
ghost use Rattle.worker_pool.specs.Batches.{AllFit, FitsSet};
ghost use Rattle.worker_pool.specs.Outcomes.{AreOutcomes, IsOutcome};

use crate::gates::{Gate, OpenGate};
use crate::outcomes::Outcome;
use crate::teams::Team;
use plan_compiler::set::CompiledSet;
use span_tables::name::Name;
use span_tables::portfolios::Portfolio;
use std::alloc::{AllocError, Global};
use std::marker::Model;
use std::sync::Arc;
use step_scheduler::boards::Board;
use step_scheduler::courses::Course;
use step_scheduler::jobs::Job;
use step_scheduler::rows::Row;
use step_scheduler::run_memory::RunMemory;
use step_scheduler::watches::{NoWatch, Watch};

/// The index in its team of the worker that hands out steps. If there are no helpers, it is the only worker.
pub(crate) const COORDINATOR: usize = 0;

// The steps of an account, as a gate gets them.
#[derive(Drop)]
struct StepsOf<'a, G: Gate> {
    gate: &'a G,
    team: Team,
    account: &'a Name,
}

impl<G: Gate> Watch for StepsOf<'_, G> {
    fn pass(&self, step: usize) {
        self.gate
            .pass(self.team.number(COORDINATOR), self.account, step);
    }

    fn is_idle(&self) -> bool {
        self.gate.is_idle()
    }
}

/// Runs of one account after another under a parameter set, on one thread. They follow one course of the set, and share
/// their working memory.
///
/// The value of this type in contracts is the parameter set.
#[derive(Drop)]
pub struct Runs {
    alloc: Global,
    course: Course,
    memory: RunMemory,
}

impl Model for Runs {
    ghost use Rattle.plan_compiler.specs.Compiled.{SetView};

    ghost Value = { SetView };

    ghost view = { λ runs. (runs.course).set };
}

impl Runs {
    /// Creates the runs under a parameter set, before the first run.
    pub fn new(alloc: Global, set: &Arc<CompiledSet>) -> Result<Runs, AllocError>
        ensures { IfOk result (λ runs. runs ≡ arc_value set.now) }
    {
        let course = Course::of(alloc, set)?;
        Ok(Runs::along(alloc, course))
    }

    /// Creates the runs along a course, under its parameter set, before the first run.
    pub fn along(alloc: Global, course: Course) -> Runs
        ensures { result ≡ course.set }
    {
        Runs {
            alloc,
            course,
            memory: RunMemory::new(alloc),
        }
    }

    /// Returns the row of an account. The portfolio fits the set's tables. If memory runs out, the next account can
    /// still be run.
    pub fn row(&mut self, portfolio: Portfolio) -> Result<Arc<Row>, AllocError>
        requires { FitsSet self.old portfolio }
        ensures same { self.new ≡ self.old }
        ensures row { IfOk result (λ row. arc_value row ≡ record { set = self.old; portfolio = portfolio }) }
    {
        self.watched_row(portfolio, &NoWatch)
    }

    /// Returns the row of an account, computed by the coordinator of a team, which passes a gate before each
    /// evaluation. Otherwise like [`Runs::row`].
    pub fn row_of<G: Gate>(
        &mut self,
        portfolio: Portfolio,
        team: Team,
        gate: &G,
    ) -> Result<Arc<Row>, AllocError>
        requires { FitsSet self.old portfolio }
        ensures same { self.new ≡ self.old }
        ensures row { IfOk result (λ row. arc_value row ≡ record { set = self.old; portfolio = portfolio }) }
    {
        let account = portfolio.account().copied();
        let steps = StepsOf {
            gate,
            team,
            account: &account,
        };
        self.watched_row(portfolio, &steps)
    }

    // Returns the row of an account. Calls the watch for each step. The account is a batch of its own.
    fn watched_row<W: Watch>(
        &mut self,
        portfolio: Portfolio,
        watch: &W,
    ) -> Result<Arc<Row>, AllocError>
        requires { FitsSet self.old portfolio }
        ensures same { self.new ≡ self.old }
        ensures row { IfOk result (λ row. arc_value row ≡ record { set = self.old; portfolio = portfolio }) }
    {
        let set = Arc::try_clone(self.course.set())?;
        let job = Arc::new(self.alloc, Job::new(set, portfolio, 0))?;
        let board = Board::whole(self.alloc, job, &self.course, &mut self.memory, watch)?;
        Row::from_board(self.alloc, board)
    }

    // Returns the outcome of an account. Passes the gate before each evaluation.
    fn outcome<G: Gate>(&mut self, portfolio: Portfolio, team: Team, gate: &G) -> Outcome
        requires { FitsSet self.old portfolio }
        ensures same { self.new ≡ self.old }
        ensures outcome { IsOutcome self.old portfolio result }
    {
        let account = portfolio.account().copied();
        let row = self.row_of(portfolio, team, gate);
        Outcome::of(account, row)
    }
}

/// Returns the outcomes of accounts under a parameter set, computed on the coordinator of a team, which passes a gate
/// before each evaluation. Otherwise like [`run_plain`].
pub(crate) fn run_on_one<G: Gate>(
    alloc: Global,
    set: &Arc<CompiledSet>,
    portfolios: Vec<Portfolio>,
    team: Team,
    gate: &G,
) -> Result<Vec<Outcome>, AllocError>
    requires { AllFit (arc_value set.now) portfolios.items }
    ensures { IfOk result (λ outcomes. AreOutcomes (arc_value set.now) portfolios.items outcomes.items) }
{
    let mut runs = Runs::new(alloc, set)?;
    let mut outcomes = Vec::with_capacity(alloc, portfolios.len())?;
    for portfolio in portfolios {
        outcomes.push(runs.outcome(portfolio, team, gate))?;
    }
    Ok(outcomes)
}

/// Returns the outcomes of accounts under a parameter set, in account order. The portfolios fit the set's tables.
///
/// The accounts run one after another, and all steps of an account run in one call. An account has the outcome
/// `NoMemory` if there is no memory for its job, its board or its row. The set's course and the list of outcomes are
/// made once for all accounts. Fails if there is no memory for them.
pub fn run_plain(
    alloc: Global,
    set: &Arc<CompiledSet>,
    portfolios: Vec<Portfolio>,
) -> Result<Vec<Outcome>, AllocError>
    requires { AllFit (arc_value set.now) portfolios.items }
    ensures { IfOk result (λ outcomes. AreOutcomes (arc_value set.now) portfolios.items outcomes.items) }
{
    run_on_one(alloc, set, portfolios, Team::ALONE, &OpenGate)
}
