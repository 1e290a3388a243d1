//! The holdings of accounts (docs/METHOD.md, "Positions").
ghost use Rattle.std.specs.Prelude.{◌≡◌, length, IfOk};
ghost use Rattle.span_tables.specs.Holdings.{ArePortfolio, fits};

use crate::name::Name;
use crate::tables::Tables;
use std::alloc::{AllocError, Global};
use std::marker::Model;

/// The number of a contract in the tables, with an account's net quantity in it, in contracts. A short quantity is
/// negative.
#[derive(Clone, Copy, Debug)]
pub struct Holding {
    pub contract: u32,
    pub net: i32,
}

/// An account, and its net quantity in each contract that it holds, by rising contract number.
///
/// No net is 0 or exceeds `MAX_NET` in size, and at most `MAX_HELD` contracts are held.
#[derive(Drop)]
pub struct Portfolio {
    account: Name,
    holdings: Vec<Holding>,
}

impl Model for Portfolio {
    ghost use Rattle.span_tables.specs.Net.{AccountHoldings};
    ghost use Rattle.span_tables.specs.Holdings.{ArePortfolio};

    ghost Value = { AccountHoldings };

    ghost view = { λ p. record { account = p.account; holdings = p.holdings.items } };

    ghost invariant = { λ p. ArePortfolio p.holdings.items };
}

impl Portfolio {
    ghost use Rattle.span_tables.specs.Net.{AccountHoldings};

    /// Returns the portfolio of an account with these holdings.
    pub fn new(account: Name, holdings: Vec<Holding>) -> Portfolio
        requires { ArePortfolio holdings.items }
        ensures { result ≡ record { account = account; holdings = holdings.items } }
    {
        Portfolio { account, holdings }
    }

    /// Returns the account's name.
    pub fn account(&self) -> &Name
        ensures { result.now ≡ self.now.account }
    {
        &self.account
    }

    /// Returns the holdings by rising contract number.
    pub fn holdings(&self) -> &[Holding]
        ensures value { result.now ≡ self.now.holdings }
        ensures kept { ArePortfolio self.now.holdings }
    {
        &self.holdings
    }

    /// Does nothing. Its contract states the invariant of the holdings.
    pub fn known(&self)
        ensures { ArePortfolio self.now.holdings }
    {
        let _ = &self.holdings;
    }

    /// Returns whether every holding is of a contract of these tables.
    pub fn fits(&self, tables: &Tables) -> bool
        ensures { result ≡ fits (length tables.now.contracts) self.now.holdings }
    {
        fits_within(&self.holdings, tables.contracts().len())
    }
}

/// Returns a copy of a portfolio. Fails only if memory runs out.
pub fn copied(alloc: Global, portfolio: &Portfolio) -> Result<Portfolio, AllocError>
    ensures { IfOk result (λ copy. copy ≡ portfolio.now) }
{
    let holdings = Vec::from_slice(alloc, portfolio.holdings())?;
    Ok(Portfolio::new(portfolio.account().copied(), holdings))
}

// Returns whether every holding has a contract number below `contracts`.
fn fits_within(holdings: &[Holding], contracts: usize) -> bool
    ensures { result ≡ fits contracts holdings.now }
{
    holdings
        .iter()
        .all(|holding| (holding.contract as usize) < contracts)
}

/// The portfolios of a position file, in the order in which its accounts first appear.
#[derive(Drop)]
pub struct Portfolios {
    portfolios: Vec<Portfolio>,
}

impl Model for Portfolios {
    ghost use Rattle.std.specs.Prelude.{List};
    ghost use Rattle.span_tables.specs.Net.{AccountHoldings};

    ghost Value = { List AccountHoldings };

    ghost view = { λ p. p.portfolios.items };
}

impl Portfolios {
    /// Returns these portfolios, in the same order.
    pub fn new(portfolios: Vec<Portfolio>) -> Portfolios
        ensures { result ≡ portfolios.items }
    {
        Portfolios { portfolios }
    }

    /// Returns the portfolios in order.
    pub fn as_slice(&self) -> &[Portfolio]
        ensures { result.now ≡ self.now }
    {
        &self.portfolios
    }

    /// Returns the portfolios in order, by value.
    pub fn into_vec(self) -> Vec<Portfolio>
        ensures { result.items ≡ self }
    {
        self.portfolios
    }
}
