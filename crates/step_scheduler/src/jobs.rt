//! Jobs: portfolios that are to be margined.
ghost use Rattle.std.specs.Prelude.{◌≡◌, length, true};
ghost use Rattle.std.specs.Arc.{arc_value};
ghost use Rattle.span_tables.specs.Holdings.{fits};
ghost use Rattle.plan_compiler.specs.Compiled.{Fits, IsCompiled};

use plan_compiler::set::CompiledSet;
use plan_ir::plans::Plan;
use span_tables::portfolios::Portfolio;
use std::marker::Model;
use std::sync::Arc;

/// An account's portfolio that is to be margined under a parameter set, and the account's index in its batch.
#[derive(Drop)]
pub struct Job {
    set: Arc<CompiledSet>,
    portfolio: Portfolio,
    place: usize,
}

impl Model for Job {
    ghost use Rattle.std.specs.Arc.{arc_value};
    ghost use Rattle.plan_compiler.specs.Compiled.{Fits};
    ghost use Rattle.step_scheduler.specs.Jobs.{JobView};

    ghost Value = { JobView };

    ghost view = { λ j. record { set = arc_value j.set; portfolio = j.portfolio; place = j.place } };

    ghost invariant = { λ j. Fits (arc_value j.set).tables (j.portfolio).holdings };
}

impl Job {
    /// Creates the job of a portfolio under a parameter set, with an index in its batch. The portfolio has to fit the
    /// set's tables.
    pub fn new(set: Arc<CompiledSet>, portfolio: Portfolio, place: usize) -> Job
        requires { fits (length (arc_value set).tables.contracts) portfolio.holdings ≡ true }
        ensures { result ≡ record { set = arc_value set; portfolio = portfolio; place = place } }
    {
        portfolio.known();
        Job {
            set,
            portfolio,
            place,
        }
    }

    /// Returns the parameter set.
    pub fn set(&self) -> &Arc<CompiledSet>
        ensures set { arc_value result.now ≡ self.now.set }
        ensures fits { Fits self.now.set.tables self.now.portfolio.holdings }
    {
        &self.set
    }

    /// Returns the plan of the parameter set, which satisfies the plan law.
    pub fn plan(&self) -> &Plan
        ensures plan { result.now ≡ self.now.set.plan }
        ensures compiled { IsCompiled self.now.set }
        ensures fits { Fits self.now.set.tables self.now.portfolio.holdings }
    {
        self.set.plan()
    }

    /// Returns the portfolio.
    pub fn portfolio(&self) -> &Portfolio
        ensures { result.now ≡ self.now.portfolio }
    {
        &self.portfolio
    }

    /// Returns the account's index in its batch, from 0.
    pub fn place(&self) -> usize
        ensures { result ≡ self.now.place }
    {
        self.place
    }
}
