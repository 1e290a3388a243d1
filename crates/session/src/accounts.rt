//! The accounts of a session and their holdings.
ghost use Rattle.session.specs.Accounts.{account_named, lost_record, position_records, under_contracts, with_account};
ghost use Rattle.session.specs.Positions.{position_lines};
ghost use Rattle.session.specs.Refusals.{refused_by};
ghost use Rattle.session.specs.Refusals as refused;
ghost use Rattle.session.specs.near.Answering.{is_memory};
ghost use Rattle.session.specs.near.Kept.{AreOnce};
ghost use Rattle.span_tables.specs.Holdings.{ArePortfolio, fits};
ghost use Rattle.span_tables.specs.Orders.{holdings_among};
ghost use Rattle.std.specs.Prelude.{◌≡◌, ◌++◌, [], ⊤, All, IfErr, IfOk, MatchBool, None, OnErr, OnOk, Some, length, map};
ghost use Rattle.std.specs.Prelude.{option_copied, option_map, true};

use crate::carried::{carried, numbers_in};
use crate::positions::push_records;
use crate::refusals::Refusal;
use indexmap::IndexMap;
use span_tables::name::Name;
use span_tables::portfolios::{Holding, Portfolio, Portfolios, copied};
use span_tables::records::Contract;
use span_tables::tables::Tables;
use std::alloc::{AllocError, Global};
use std::marker::Model;

/// The accounts of a session with their holdings, in their order, found by name. Contracts see the list of portfolios.
#[derive(Drop)]
pub(crate) struct Accounts {
    by_name: IndexMap<Name, Portfolio>,
}

impl Model for Accounts {
    ghost use Rattle.std.specs.Prelude.{List};
    ghost use Rattle.std.specs.Map.{values_of};
    ghost use Rattle.span_tables.specs.Net.{AccountHoldings};
    ghost use Rattle.session.specs.near.Kept.{AreUnderNames};

    ghost Value = { List AccountHoldings };

    ghost view = { λ a. values_of a.by_name.entries };

    ghost invariant = { λ a. AreUnderNames a.by_name.entries };
}

impl Accounts {
    // No accounts, with capacity for this many.
    fn with_capacity(alloc: Global, count: usize) -> Result<Accounts, AllocError>
        ensures { IfOk result (λ accounts. accounts ≡ []) }
    {
        Ok(Accounts {
            by_name: IndexMap::with_capacity(alloc, count)?,
        })
    }

    /// Creates the accounts of these portfolios, in their order. The portfolios must have distinct accounts.
    pub(crate) fn new(alloc: Global, portfolios: Portfolios) -> Result<Accounts, AllocError>
        requires { AreOnce portfolios }
        ensures { IfOk result (λ accounts. accounts ≡ portfolios) }
    {
        let portfolios = portfolios.into_vec();
        let mut accounts = Accounts::with_capacity(alloc, portfolios.len())?;
        for portfolio in portfolios {
            accounts.put(portfolio)?;
        }
        Ok(accounts)
    }

    /// Returns the portfolios of all accounts, in their order.
    pub(crate) fn portfolios(&self, alloc: Global) -> Result<Portfolios, AllocError>
        ensures { IfOk result (λ portfolios. portfolios ≡ self.now) }
    {
        let mut all = Vec::with_capacity(alloc, self.len())?;
        for portfolio in self.by_name.values() {
            all.push(copied(alloc, portfolio)?)?;
        }
        Ok(Portfolios::new(all))
    }

    /// Returns the accounts with the same holdings under another parameter set. Otherwise returns the first contract
    /// that the set lacks, in the order of the accounts and, within an account, in the order of the earlier contracts.
    pub(crate) fn under_set(
        &self,
        alloc: Global,
        old: &Tables,
        new: &Tables,
    ) -> Result<Accounts, Refusal<'static>>
        requires { All (λ p. fits (length old.now.contracts) p.holdings ≡ true) self.now }
        ensures accounts { IfOk result (λ accounts. accounts ≡ map (under_contracts old.now.contracts new.now.contracts) self.now) }
        ensures known { OnOk result (lost_record old.now.contracts new.now.contracts self.now ≡ None) }
        ensures lost { IfErr result (λ r. MatchBool (is_memory r) ⊤ (option_map (λ held. refused.Lost held.account held.contract)
            (lost_record old.now.contracts new.now.contracts self.now) ≡ Some (refused_by r))) }
    {
        self.known();
        let numbers = numbers_in(alloc, old, new)?;
        let mut all = Vec::with_capacity(alloc, self.len())?;
        for portfolio in self.by_name.values() {
            let carried = carried(alloc, old, new, &numbers, portfolio)?;
            all.push(carried).map_err(AllocError::from)?;
        }
        Ok(Accounts::new(alloc, Portfolios::new(all))?)
    }

    /// Returns the number of accounts.
    pub(crate) fn len(&self) -> usize
        ensures { result ≡ length self.now }
    {
        self.by_name.len()
    }

    /// Returns the account with this name, if there is one.
    pub(crate) fn get(&self, name: &Name) -> Option<&Portfolio>
        ensures { option_copied result ≡ account_named self.now name.now }
    {
        self.by_name.get(name)
    }

    /// Returns the holdings of the account with this name. An unknown account holds nothing.
    pub(crate) fn holdings_of(&self, name: &Name) -> &[Holding]
        ensures value { result.now ≡ holdings_among self.now name.now }
        ensures kept { ArePortfolio (holdings_among self.now name.now) }
    {
        match self.get(name) {
            Some(portfolio) => portfolio.holdings(),
            None => &[],
        }
    }

    /// Replaces the portfolio of an account, or appends it if the account is new. If memory runs out, the accounts stay
    /// unchanged.
    pub(crate) fn put(&mut self, portfolio: Portfolio) -> Result<(), AllocError>
        ensures put { OnOk result (self.new ≡ with_account self.old portfolio) }
        ensures refused { OnErr result (self.new ≡ self.old) }
        ensures once { AreOnce self.new }
    {
        let name = portfolio.account().copied();
        self.by_name.insert(name, portfolio)?;
        Ok(())
    }

    /// Appends the position records of all accounts, in their order.
    pub(crate) fn push_records(
        &self,
        out: &mut Vec<u8>,
        contracts: &[Contract],
    ) -> Result<(), AllocError>
        requires { All (λ p. fits (length contracts.now) p.holdings ≡ true) self.now }
        ensures { OnOk result (out.new.items ≡ out.old.items ++ position_lines (position_records contracts.now self.now)) }
    {
        for portfolio in self.by_name.values() {
            push_records(out, contracts, portfolio)?;
        }
        Ok(())
    }

    /// Does nothing. Its contract states that the accounts are distinct.
    pub(crate) fn known(&self)
        ensures { AreOnce self.now }
    {
        let _ = self.by_name.len();
    }
}
