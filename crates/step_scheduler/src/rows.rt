//! Rows of results (docs/METHOD.md, "Minimum and requirement" and "Option value").
ghost use Rattle.std.specs.Prelude.{◌≡◌, ◌<◌, IfOk, length};
ghost use Rattle.std.specs.Arc.{arc_value};
ghost use Rattle.plan_ir.specs.Figures.{figures_of, is_commodity_held, option_value_of, total_to};
ghost use Rattle.step_scheduler.specs.Boards.{IsComplete};
ghost use Rattle.step_scheduler.specs.near.Figures.{AreHeldFigures};
ghost use Rattle.step_scheduler.specs.Rows.{row_of};
ghost use Rattle.step_scheduler.specs.near.Rows.{AreTotals};

use crate::boards::Board;
use crate::held_figures::HeldFigures;
use crate::jobs::Job;
use plan_compiler::set::CompiledSet;
use plan_ir::figures::Figures;
use span_money::amounts::Money;
use span_tables::name::Name;
use span_tables::portfolios::Portfolio;
use std::alloc::{AllocError, Global};
use std::marker::Model;
use std::sync::Arc;

/// The results of a complete run for an account: its figures in each commodity of the parameter set, its total and its
/// option value.
///
/// Contracts see the parameter set and the portfolio of a row. The figures, the total and the option value are the ones
/// that the method defines for them. Only a complete board gives a row.
#[derive(Drop)]
pub struct Row {
    job: Arc<Job>,
    figures: HeldFigures,
    totals: Totals,
}

impl Model for Row {
    ghost use Rattle.std.specs.Arc.{arc_value};
    ghost use Rattle.step_scheduler.specs.Rows.{RowView, row_of};
    ghost use Rattle.step_scheduler.specs.near.Rows.{IsRow};

    ghost Value = { RowView };

    ghost view = { λ r. row_of (arc_value r.job) };

    ghost invariant = { λ r. IsRow (arc_value r.job) r.figures r.totals };
}

impl Row {
    /// Returns the row of a complete board. Fails if memory runs out.
    pub fn of(alloc: Global, board: &Board) -> Result<Arc<Row>, AllocError>
        requires { IsComplete board.now }
        ensures { IfOk result (λ row. arc_value row ≡ row_of board.now.job) }
    {
        let job = Arc::try_clone(board.job())?;
        let figures = board.held_figures(alloc)?;
        Row::of_job(alloc, job, figures, Totals::of(board))
    }

    /// Consumes a complete board, and returns its row. Fails if memory runs out.
    pub fn from_board(alloc: Global, board: Board) -> Result<Arc<Row>, AllocError>
        requires { IsComplete board }
        ensures { IfOk result (λ row. arc_value row ≡ row_of board.job) }
    {
        let job = Arc::try_clone(board.job())?;
        let totals = Totals::of(&board);
        let figures = board.into_held_figures(alloc)?;
        Row::of_job(alloc, job, figures, totals)
    }

    // Returns the row of a job with its figures and totals.
    fn of_job(
        alloc: Global,
        job: Arc<Job>,
        figures: HeldFigures,
        totals: Totals,
    ) -> Result<Arc<Row>, AllocError>
        requires figures { AreHeldFigures (arc_value job).set.tables (arc_value job).portfolio.holdings figures }
        requires totals { AreTotals (arc_value job).set.tables (arc_value job).portfolio.holdings totals }
        ensures { IfOk result (λ row. arc_value row ≡ row_of (arc_value job)) }
    {
        let row = Row {
            job,
            figures,
            totals,
        };
        Ok(Arc::new(alloc, row)?)
    }

    /// Returns the parameter set under which the account was margined.
    pub fn set(&self) -> &Arc<CompiledSet>
        ensures { arc_value result.now ≡ self.now.set }
    {
        self.job.set()
    }

    /// Returns the portfolio of the account.
    pub fn portfolio(&self) -> &Portfolio
        ensures { result.now ≡ self.now.portfolio }
    {
        self.job.portfolio()
    }

    /// Returns the account's name.
    pub fn account(&self) -> &Name
        ensures { result.now ≡ self.now.portfolio.account }
    {
        self.portfolio().account()
    }

    /// Returns the id of the parameter set.
    pub fn set_id(&self) -> &Name
        ensures { result.now ≡ self.now.set.tables.set_id }
    {
        self.job.set().tables().set_id()
    }

    /// Returns the profile of the parameter set.
    pub fn profile(&self) -> u8
        ensures { result ≡ self.now.set.tables.profile }
    {
        self.job.set().tables().profile()
    }

    /// Returns the figures of a commodity by its number.
    pub fn figures(&self, commodity: usize) -> &Figures
        requires { commodity < length self.now.set.tables.commodities }
        ensures { result.now ≡ figures_of self.now.set.tables self.now.portfolio.holdings commodity }
    {
        self.figures.of(commodity)
    }

    /// Returns whether the account holds a contract of a commodity, by the commodity's number.
    pub fn held(&self, commodity: usize) -> bool
        requires { commodity < length self.now.set.tables.commodities }
        ensures { result ≡ is_commodity_held self.now.set.tables self.now.portfolio.holdings commodity }
    {
        self.figures.holds(commodity)
    }

    /// Returns the sum of the requirements of all commodities, in minor units.
    pub fn total(&self) -> Money
        ensures { result ≡ total_to self.now.set.tables self.now.portfolio.holdings (length self.now.set.tables.commodities) }
    {
        self.totals.total
    }

    /// Returns the account's option value, in minor units. It is 0 under a profile in which options have none.
    pub fn value(&self) -> Money
        ensures { result ≡ option_value_of self.now.set.tables self.now.portfolio.holdings }
    {
        self.totals.option_value
    }
}

// The total and the option value of an account, in minor units.
#[derive(Clone, Copy)]
struct Totals {
    total: Money,
    option_value: Money,
}

impl Totals {
    // Returns the totals of a complete board.
    fn of(board: &Board) -> Totals
        requires { IsComplete board.now }
        ensures { AreTotals board.now.job.set.tables board.now.job.portfolio.holdings result }
    {
        match (board.total(), board.value()) {
            (Some(total), Some(option_value)) => Totals {
                total,
                option_value,
            },
            _ => unreachable!(),
        }
    }
}
