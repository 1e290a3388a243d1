//! The binding of orders to tables and to the portfolios of accounts.
pub(crate) mod kept_orders;

ghost use Rattle.std.specs.Prelude.{◌≡◌, ◌≤◌, ◌<◌, [], All, IfOk, List, MatchOption, Some, drop, length, map, option_map, slice_get, take};
ghost use Rattle.binding.specs.OrderBinding.{is_memory, orders_bound};
ghost use Rattle.binding.specs.near.Holdings.{excess_of, found_faults};
ghost use Rattle.binding.specs.near.Orders.{HasPlace, kept_after, order_fault, portfolio_before};
ghost use Rattle.span_tables.specs.Gives.{Gives};
ghost use Rattle.span_tables.specs.Holdings.{ArePortfolio};
ghost use Rattle.span_tables.specs.declared.limits.TheConstants.{MAX_CONTRACTS};

use crate::contract_ids::ids_of;
use crate::contract_sums::Sums;
use crate::faults::{BindFault, OrderBindFault};
use crate::ledgers::gather;
use crate::orders::kept_orders::{
    KeptOrder, OrderAccount, kept_orders, order_excesses, portfolio_after, portfolios_after,
    some_of,
};
use crate::over_limits::{all_faults, first};
use indexmap::IndexSet;
use span_tables::name::Name;
use span_tables::portfolios::{Portfolio, Portfolios};
use span_tables::raw::{RawOrders, RawPositions};
use span_tables::tables::Tables;
use std::alloc::{AllocError, Global};
use std::marker::Model;

/// The orders of a file, in the order of first appearance, and the portfolios of the accounts on which they are
/// evaluated. Contracts see the name of each order, and the portfolio of its account without it and with it. These
/// portfolios are made on request.
#[derive(Drop)]
pub struct Orders {
    contracts: u32,
    portfolios: Portfolios,
    orders: Vec<KeptOrder>,
}

impl Model for Orders {
    ghost use Rattle.std.specs.Prelude.{All, map};
    ghost use Rattle.binding.specs.OrderBinding.{TriedOrders};
    ghost use Rattle.binding.specs.near.Orders.{IsKept, kept_order};

    ghost Value = { TriedOrders };

    ghost view = { λ o. record { portfolios = o.portfolios; orders = map (kept_order o.contracts o.portfolios) o.orders.items } };

    ghost invariant = { λ o. All (IsKept o.contracts o.portfolios) o.orders.items };
}

impl Orders {
    /// Returns the number of orders.
    pub fn len(&self) -> usize
        ensures { result ≡ length self.now.orders }
    {
        self.orders.len()
    }

    /// Returns the portfolios of the accounts, in their order.
    pub fn portfolios(&self) -> &[Portfolio]
        ensures { result.now ≡ self.now.portfolios }
    {
        self.portfolios.as_slice()
    }

    /// Returns the name of an order, given by its number from 0.
    pub fn name(&self, order: usize) -> &Name
        requires { order < length self.now.orders }
        ensures { option_map (λ o. o.order) (slice_get self.now.orders order) ≡ Some result.now }
    {
        &self.orders[order].name
    }

    /// Returns the index of the portfolio of an order's account, or `None` if the account has no holdings without the
    /// order.
    pub fn place(&self, order: usize) -> Option<usize>
        requires { order < length self.now.orders }
        ensures { MatchOption result
            (option_map (λ o. o.before.holdings) (slice_get self.now.orders order) ≡ Some [])
            (λ place. (place < length self.now.portfolios)
            × (option_map (λ o. o.before) (slice_get self.now.orders order) ≡ slice_get self.now.portfolios place)) }
    {
        match &self.orders[order].account {
            OrderAccount::Known(place) => Some(*place),
            OrderAccount::New(_) => None,
        }
    }

    /// Returns the portfolios of the accounts of `count` orders from number `first` on, each with its order.
    pub fn portfolios_with(
        &self,
        alloc: Global,
        first: usize,
        count: usize,
    ) -> Result<Vec<Portfolio>, AllocError>
        ensures { IfOk result (λ all. all.items ≡ map (λ o. o.after) (take count (drop first self.now.orders))) }
    {
        let orders = some_of(&self.orders, first, count);
        portfolios_after(alloc, self.contracts, self.portfolios.as_slice(), orders)
    }
}

// A fault of order records that were read as positions under the orders' names, as a fault of orders.
fn order_fault(fault: BindFault) -> OrderBindFault
    ensures { result ≡ order_fault fault }
{
    match fault {
        BindFault::UnknownContract { at, account } => {
            OrderBindFault::UnknownContract { at, order: account }
        }
        BindFault::NetOutOfRange { at, account } => {
            OrderBindFault::NetOutOfRange { at, order: account }
        }
        BindFault::TooManyHeld { at, account } => OrderBindFault::TooManyHeld {
            at,
            order: account,
        },
        BindFault::OutOfMemory => OrderBindFault::OutOfMemory,
    }
}

// All faults of the records of orders, read as positions. The faults of records of unknown contracts are given.
fn faults_of(
    alloc: Global,
    numbers: &IndexSet<Name>,
    unknown: Vec<BindFault>,
    portfolios: &[Portfolio],
    orders: &[KeptOrder],
    positions: &RawPositions,
) -> Result<Vec<BindFault>, AllocError>
    requires few { length numbers.now.keys ≤ MAX_CONTRACTS }
    requires places { All (λ o. HasPlace portfolios.now o.account) orders.now }
    ensures faults { IfOk result (λ faults. faults.items ≡ found_faults numbers.now.keys unknown.items
        (map (λ o. excess_of (kept_after (length numbers.now.keys) portfolios.now o)) orders.now) positions.now) }
    ensures before { IfOk result (λ faults. All (λ o. ArePortfolio (portfolio_before portfolios.now o.account).holdings) orders.now) }
{
    let contracts = numbers.len() as u32;
    let mut sums = Sums::new(alloc, contracts)?;
    let excesses = order_excesses(alloc, &mut sums, contracts, portfolios, orders)?;
    all_faults(alloc, numbers, unknown, &excesses, positions)
}

/// Returns the orders of a file, evaluated on the portfolios of accounts, or the fault of the orders, B1 to B3
/// (docs/FORMATS.md, "Faults").
pub fn bind_orders(
    alloc: Global,
    tables: &Tables,
    portfolios: Portfolios,
    records: &RawOrders,
) -> Result<Orders, OrderBindFault>
    ensures { Gives is_memory result (orders_bound tables.now.contracts portfolios records.now) }
{
    let numbers = ids_of(alloc, tables)?;
    let positions = records.by_order();
    let gathered = gather(alloc, &numbers, positions)?;
    let held = portfolios.as_slice();
    let orders = kept_orders(
        alloc,
        held,
        positions.accounts(),
        records.accounts(),
        gathered.ledgers,
    )?;
    let unknown = gathered.unknown;
    let faults = faults_of(alloc, &numbers, unknown, held, &orders, positions)?;
    match first(faults) {
        Some(fault) => Err(order_fault(fault)),
        None => Ok(Orders {
            contracts: numbers.len() as u32,
            portfolios,
            orders,
        }),
    }
}
