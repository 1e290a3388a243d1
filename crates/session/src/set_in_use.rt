//! The parameter set that a session uses.
ghost use Rattle.binding.specs.Binding.{is_memory};
ghost use Rattle.binding.specs.Trades.{traded};
ghost use Rattle.session.specs.Answers.{total_text};
ghost use Rattle.session.specs.Requests.{AreTradable};
ghost use Rattle.span_tables.specs.Gives.{Gives};
ghost use Rattle.span_tables.specs.Holdings.{ArePortfolio, fits};
ghost use Rattle.std.specs.Arc.{arc_value};
ghost use Rattle.std.specs.Prelude.{◌≡◌, ◌↔◌, ◌++◌, IfOk, IsTrue, OnOk, length, true};
ghost use Rattle.whatif.specs.Whatif.{order_text};
ghost use Rattle.worker_pool.specs.Batches.{FitsSet};

use binding::faults::BindFault;
use binding::trades::{Trade, Trader};
use plan_compiler::set::CompiledSet;
use span_tables::name::Name;
use span_tables::portfolios::{Holding, Portfolio, copied};
use span_tables::tables::Tables;
use statement_text::lines::push_total_of;
use std::alloc::{AllocError, Global};
use std::marker::Model;
use std::sync::Arc;
use step_scheduler::rows::Row;
use whatif::lines::Trial;
use worker_pool::plain::Runs;

// Whether two lists of holdings are the same.
fn are_same(some: &[Holding], others: &[Holding]) -> bool
    ensures { IsTrue result ↔ (some.now ≡ others.now) }
{
    if some.len() != others.len() {
        return false;
    }
    for place in 0..some.len() {
        let (one, other) = (some[place], others[place]);
        if one.contract != other.contract || one.net != other.net {
            return false;
        }
    }
    true
}

/// A compiled parameter set, with what is prepared once for it: runs under it, and a trader in its contracts. Contracts
/// see the set.
#[derive(Drop)]
pub(crate) struct SetInUse {
    alloc: Global,
    set: Arc<CompiledSet>,
    runs: Runs,
    trader: Trader,
    // The row before the last order, since several orders are often tried on one account.
    before: Option<Arc<Row>>,
}

impl Model for SetInUse {
    ghost use Rattle.plan_compiler.specs.Compiled.{SetView};
    ghost use Rattle.session.specs.near.InUse.{IsInUse};
    ghost use Rattle.std.specs.Arc.{arc_value};
    ghost use Rattle.std.specs.Prelude.{◌≡◌, IfSome};

    ghost Value = { SetView };

    ghost view = { λ s. arc_value s.set };

    ghost invariant = { λ s. IsInUse (arc_value s.set) s.runs s.trader
        × IfSome s.before (λ row. (arc_value row).set ≡ arc_value s.set) };
}

impl SetInUse {
    /// Prepares a parameter set for use.
    pub(crate) fn new(alloc: Global, set: Arc<CompiledSet>) -> Result<Box<SetInUse>, AllocError>
        ensures { IfOk result (λ s. s.value ≡ arc_value set) }
    {
        let runs = Runs::new(alloc, &set)?;
        let trader = Trader::new(alloc, set.tables())?;
        let set = SetInUse {
            alloc,
            set,
            runs,
            trader,
            before: None,
        };
        Ok(Box::new(alloc, set)?)
    }

    /// Returns the compiled parameter set.
    pub(crate) fn set(&self) -> &Arc<CompiledSet>
        ensures { arc_value result.now ≡ self.now }
    {
        &self.set
    }

    /// Returns the tables of the parameter set.
    pub(crate) fn tables(&self) -> &Tables
        ensures { result.now ≡ self.now.tables }
    {
        self.set.tables()
    }

    /// Returns the row of a portfolio under the parameter set.
    pub(crate) fn row(&mut self, portfolio: Portfolio) -> Result<Arc<Row>, AllocError>
        requires { FitsSet self.old portfolio }
        ensures same { self.new ≡ self.old }
        ensures row { IfOk result (λ row. arc_value row ≡ record { set = self.old; portfolio = portfolio }) }
    {
        self.runs.row(portfolio)
    }

    /// Returns the portfolio of an account after trades, from its holdings before them, or the fault of the trades, B1
    /// to B3.
    pub(crate) fn after(
        &mut self,
        account: &Name,
        held: &[Holding],
        trades: &[Trade],
    ) -> Result<Portfolio, BindFault>
        requires held { ArePortfolio held.now }
        requires trades { AreTradable trades.now }
        ensures same { self.new ≡ self.old }
        ensures after { Gives is_memory result (traded self.old.tables.contracts held.now account.now trades.now) }
        ensures fits { IfOk result (FitsSet self.old) }
    {
        self.trader.after(self.alloc, account, held, trades)
    }

    // The row of an account with these holdings, which is kept for the next order.
    fn row_before(&mut self, account: &Name, held: &[Holding]) -> Result<Arc<Row>, AllocError>
        requires held { ArePortfolio held.now }
        requires fits { fits (length self.old.tables.contracts) held.now ≡ true }
        ensures same { self.new ≡ self.old }
        ensures row { IfOk result (λ row. arc_value row
            ≡ record { set = self.old; portfolio = record { account = account.now; holdings = held.now } }) }
    {
        if let Some(row) = &self.before {
            if row.account() == account && are_same(row.portfolio().holdings(), held) {
                return Arc::try_clone(row);
            }
        }
        let holdings = Vec::from_slice(self.alloc, held)?;
        let row = self.row(Portfolio::new(account.copied(), holdings))?;
        self.before = Some(Arc::try_clone(&row)?);
        Ok(row)
    }

    /// Appends the lines of an order, from the holdings of its account before it and the portfolio after it.
    pub(crate) fn push_change(
        &mut self,
        out: &mut Vec<u8>,
        order: &Name,
        account: &Name,
        held: &[Holding],
        after: Portfolio,
    ) -> Result<(), AllocError>
        requires held { ArePortfolio held.now }
        requires before { fits (length self.old.tables.contracts) held.now ≡ true }
        requires after { FitsSet self.old after }
        ensures same { self.new ≡ self.old }
        ensures lines { OnOk result (out.new.items ≡ out.old.items ++ order_text self.old.tables
            (record { order = order.now; before = record { account = account.now; holdings = held.now }; after = after })) }
    {
        let before = self.row_before(account, held)?;
        let after = self.row(after)?;
        Trial::new(order, &before, &after).push_to(out)
    }

    /// Appends the T line of an account, which has its total.
    pub(crate) fn push_total(
        &mut self,
        out: &mut Vec<u8>,
        portfolio: &Portfolio,
    ) -> Result<(), AllocError>
        requires { FitsSet self.old portfolio.now }
        ensures same { self.new ≡ self.old }
        ensures line { OnOk result (out.new.items ≡ out.old.items ++ total_text self.old.tables portfolio.now) }
    {
        let row = self.row(copied(self.alloc, portfolio)?)?;
        push_total_of(out, &row)
    }
}
