//! The contracts of one commodity that an account holds (docs/METHOD.md, "Positions").
ghost use Rattle.std.specs.Prelude.{[], ◌≡◌, ◌==◌, ◌<◌, ◌≤◌, ℕ, false, true, not};
ghost use Rattle.std.specs.Prelude.{length, map, nat_abs, slice_get, slice_index_or};
ghost use Rattle.std.specs.Prelude.{All, IfOk, IfSome};
ghost use Rattle.std.specs.Arc.{arc_value};
ghost use Rattle.span_tables.specs.Tables.{commodity_id};
ghost use Rattle.span_tables.specs.Holdings.{AreHeld, AreHoldings, fits};
ghost use Rattle.span_tables.specs.Net.{held_contracts, held_of};
ghost use Rattle.span_tables.specs.declared.limits.TheConstants.{MAX_NET};
ghost use Rattle.span_tables.specs.near.Gathered.{holdings_in};
ghost use Rattle.span_tables.specs.near.Terms.{AreTermsOf, IsTerms};

use crate::contracts::{Contracts, Terms};
use crate::groups::{empty_lists, push_at};
use crate::limits::MAX_COMMODITIES;
use crate::portfolios::{Holding, Portfolio};
use crate::records::Contract;
use crate::tables::Tables;
use std::alloc::{AllocError, Global};
use std::marker::Model;
use std::sync::Arc;

/// The contracts of one commodity that an account holds, by rising contract number, each with its net quantity.
///
/// In contract clauses it is the list of the held contracts, each with its whole record. Nothing is copied: the value
/// borrows the contracts of the tables and the holdings.
#[derive(Drop)]
pub struct Held<'a> {
    contracts: &'a Contracts,
    holdings: &'a [Holding],
}

impl<'a> Model for Held<'a> {
    ghost use Rattle.std.specs.Prelude.{List};
    ghost use Rattle.span_tables.specs.Holdings.{AreHoldings};
    ghost use Rattle.span_tables.specs.Net.{HeldContract, held_contracts};

    ghost Value = { List HeldContract };

    ghost view = { λ held. held_contracts held.contracts.now.records held.holdings.now };

    ghost invariant = { λ held. AreHoldings held.contracts.now.records held.holdings.now };
}

impl<'a> Held<'a> {
    /// Returns the held contracts of these holdings. The holdings are within their limit, each is of a contract of the
    /// tables, and each net is in range.
    pub fn of(tables: &'a Tables, holdings: &'a [Holding]) -> Held<'a>
        requires { AreHoldings tables.now.contracts holdings.now }
        ensures { result ≡ held_contracts tables.now.contracts holdings.now }
    {
        Held {
            contracts: tables.with_terms(),
            holdings,
        }
    }

    /// Returns the number of held contracts.
    pub fn len(&self) -> usize
        ensures value { result ≡ length self.now }
        ensures kept { AreHeld self.now }
    {
        self.holdings.len()
    }

    /// Returns the record of the held contract at index `place`.
    pub fn contract(&self, place: usize) -> &Contract
        requires { place < length self.now }
        ensures { IfSome (slice_get self.now place) (λ held. result.now ≡ held.contract) }
    {
        self.contracts.at(self.holdings[place].contract)
    }

    /// Returns the terms of the held contract at index `place`.
    pub fn terms(&self, place: usize) -> &Terms
        requires { place < length self.now }
        ensures value { IfSome (slice_get self.now place) (λ held. AreTermsOf held.contract result.now) }
        ensures in_range { IsTerms result.now }
    {
        self.contracts.terms(self.holdings[place].contract)
    }

    /// Returns the net quantity of the held contract at index `place`, in contracts. A short quantity is negative.
    pub fn net(&self, place: usize) -> i64
        requires { place < length self.now }
        ensures value { IfSome (slice_get self.now place) (λ held. result ≡ held.net) }
        ensures in_range { nat_abs result ≤ MAX_NET }
    {
        let holdings = self.holdings;
        i64::from(holdings[place].net)
    }
}

/// The contracts of one commodity that an account holds, as a value of its own.
///
/// In contract clauses it is the list of the held contracts, each with its whole record. No record is copied: the value
/// has a shared reference to the contracts of the tables.
#[derive(Drop)]
pub struct OwnedHeld {
    contracts: Arc<Contracts>,
    holdings: Vec<Holding>,
}

impl Model for OwnedHeld {
    ghost use Rattle.std.specs.Prelude.{List};
    ghost use Rattle.std.specs.Arc.{arc_value};
    ghost use Rattle.span_tables.specs.Holdings.{AreHoldings};
    ghost use Rattle.span_tables.specs.Net.{HeldContract, held_contracts};

    ghost Value = { List HeldContract };

    ghost view = { λ held. held_contracts (arc_value held.contracts).records held.holdings.items };

    ghost invariant = { λ held. AreHoldings (arc_value held.contracts).records held.holdings.items };
}

impl OwnedHeld {
    /// Returns the held contracts of these holdings. The holdings are within their limit, each is of one of these
    /// contracts, and each net and record is in range.
    pub fn new(contracts: Arc<Contracts>, holdings: Vec<Holding>) -> OwnedHeld
        requires { AreHoldings (arc_value contracts).records holdings.items }
        ensures { result ≡ held_contracts (arc_value contracts).records holdings.items }
    {
        OwnedHeld {
            contracts,
            holdings,
        }
    }

    /// Returns an empty list of held contracts under these tables.
    pub fn none(alloc: Global, tables: &Tables) -> Result<OwnedHeld, AllocError>
        ensures { IfOk result (λ held. held ≡ []) }
    {
        Ok(OwnedHeld::new(tables.share_contracts()?, Vec::new(alloc)))
    }

    /// Returns the same held contracts, borrowed.
    pub fn as_held(&self) -> Held<'_>
        ensures { result ≡ self.now }
    {
        Held {
            contracts: &self.contracts,
            holdings: &self.holdings,
        }
    }

    /// Returns whether no contract is held.
    pub fn is_empty(&self) -> bool
        ensures { result ≡ (length self.now == 0) }
    {
        self.holdings.is_empty()
    }
}

/// Returns the contracts of the commodity with this number that an account holds, each with its whole record and its
/// net quantity.
pub fn gather(
    alloc: Global,
    tables: &Tables,
    portfolio: &Portfolio,
    commodity: usize,
) -> Result<OwnedHeld, AllocError>
    requires fits { fits (length tables.now.contracts) portfolio.now.holdings ≡ true }
    requires commodity { commodity < length tables.now.commodities }
    ensures { IfOk result (λ held. held ≡ held_of tables.now.contracts portfolio.now.holdings (commodity_id tables.now commodity)) }
{
    tables.known();
    let mut held = Vec::new(alloc);
    for holding in portfolio.holdings() {
        if tables.commodity_of(holding.contract) == commodity {
            held.push(*holding)?;
        }
    }
    Ok(OwnedHeld::new(tables.share_contracts()?, held))
}

// Returns the holdings of each commodity, indexed by commodity number.
fn holdings_by_commodity(
    alloc: Global,
    tables: &Tables,
    portfolio: &Portfolio,
) -> Result<Vec<Vec<Holding>>, AllocError>
    requires { fits (length tables.now.contracts) portfolio.now.holdings ≡ true }
    ensures { IfOk result (λ lists. map (λ v. v.items) lists.items
        ≡ map (λ c. holdings_in tables.now.contracts portfolio.now.holdings c.id) tables.now.commodities) }
{
    tables.known();
    let mut lists = empty_lists(alloc, tables.commodities().len())?;
    for holding in portfolio.holdings() {
        push_at(&mut lists, tables.commodity_of(holding.contract), *holding)?;
    }
    Ok(lists)
}

// Returns the held contracts of each list of holdings.
fn with_records(
    alloc: Global,
    tables: &Tables,
    mut lists: Vec<Vec<Holding>>,
) -> Result<Vec<OwnedHeld>, AllocError>
    requires { All (λ l. AreHoldings tables.now.contracts l.items) lists.items }
    ensures { IfOk result (λ held. held.items ≡ map (λ l. held_contracts tables.now.contracts l.items) lists.items) }
{
    let mut all = Vec::with_capacity(alloc, lists.len())?;
    while let Some(holdings) = lists.pop() {
        all.push(OwnedHeld::new(tables.share_contracts()?, holdings))?;
    }
    all.reverse();
    Ok(all)
}

/// Returns the held contracts of each commodity, indexed by commodity number. They are the results of `gather` for each
/// commodity, found in one pass over the holdings.
pub fn gather_all(
    alloc: Global,
    tables: &Tables,
    portfolio: &Portfolio,
) -> Result<Vec<OwnedHeld>, AllocError>
    requires { fits (length tables.now.contracts) portfolio.now.holdings ≡ true }
    ensures { IfOk result (λ held. held.items
        ≡ map (λ c. held_of tables.now.contracts portfolio.now.holdings c.id) tables.now.commodities) }
{
    tables.known();
    portfolio.known();
    let lists = holdings_by_commodity(alloc, tables, portfolio)?;
    with_records(alloc, tables, lists)
}

/// Returns, for each commodity number, whether an account holds a contract of the commodity. It makes one pass over the
/// holdings and allocates nothing.
pub fn held_commodities(tables: &Tables, portfolio: &Portfolio) -> [bool; MAX_COMMODITIES]
    requires { fits (length tables.now.contracts) portfolio.now.holdings ≡ true }
    ensures { (c : ℕ) → c < length tables.now.commodities → slice_index_or result c false
        ≡ not (length (held_of tables.now.contracts portfolio.now.holdings (commodity_id tables.now c)) == 0) }
{
    tables.known();
    let mut held = [false; MAX_COMMODITIES];
    for holding in portfolio.holdings() {
        held[tables.commodity_of(holding.contract)] = true;
    }
    held
}
