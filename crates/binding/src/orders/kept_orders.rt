//! Stored orders, and the holdings of their accounts with them.
ghost use Rattle.std.specs.Option.{option_or};
ghost use Rattle.std.specs.Prelude.{◌≡◌, ℕ, All, List, None, Some, bytes_eq, drop, if◌then◌else◌, length, map, take, IfOk, OnOk};
ghost use Rattle.indexmap.specs.IndexMap.{get};
ghost use Rattle.binding.specs.near.Holdings.{excess_of};
ghost use Rattle.binding.specs.near.Orders.{account_at, all_kept_as, kept_after, kept_order, place_among};
ghost use Rattle.binding.specs.near.Orders.{portfolio_before, HasPlace, IsKept};
ghost use Rattle.span_tables.specs.Holdings.{ArePortfolio};

use crate::contract_sums::Sums;
use crate::ledgers::Ledger;
use crate::nets::{AccountNets, account_nets};
use crate::over_limits::{Excess, excess_of};
use indexmap::IndexMap;
use span_tables::name::Name;
use span_tables::portfolios::{Holding, Portfolio};
use std::alloc::{AllocError, Global};

/// The account of an order.
#[derive(Drop)]
pub(crate) enum OrderAccount {
    /// An account with a portfolio, at this index.
    Known(usize),
    /// An account without holdings, apart from the order.
    New(Name),
}

/// A stored order: its name, its account, and the entries that it adds to nets.
#[derive(Drop)]
pub(crate) struct KeptOrder {
    pub(crate) name: Name,
    pub(crate) account: OrderAccount,
    pub(crate) entries: Ledger,
}

// Gives an account an index, unless it has one.
fn place_first(
    places: &mut IndexMap<Name, usize>,
    account: &Name,
    place: usize,
) -> Result<(), AllocError>
    ensures { OnOk result ((name : List ℕ) → get bytes_eq places.new name
        ≡ option_or (get bytes_eq places.old name) (if bytes_eq account.now name then Some place else None)) }
{
    if let Some(_) = places.get(account) {
        return Ok(());
    }
    places.insert(account.copied(), place)?;
    Ok(())
}

// The index of each account among portfolios, the first one if it has several portfolios.
fn places_of(alloc: Global, portfolios: &[Portfolio]) -> Result<IndexMap<Name, usize>, AllocError>
    ensures { IfOk result (λ places. (name : List ℕ) → get bytes_eq places name ≡ place_among portfolios.now name) }
{
    let mut places = IndexMap::new(alloc);
    for (place, portfolio) in portfolios.iter().enumerate() {
        place_first(&mut places, portfolio.account(), place)?;
    }
    Ok(places)
}

// The account of an order, from the indexes of accounts.
fn order_account(places: &IndexMap<Name, usize>, account: &Name) -> OrderAccount
    ensures { result ≡ account_at (get bytes_eq places.now account.now) account.now }
{
    match places.get(account) {
        Some(place) => OrderAccount::Known(*place),
        None => OrderAccount::New(account.copied()),
    }
}

/// Returns the orders of these names and accounts, with their entries.
pub(crate) fn kept_orders(
    alloc: Global,
    portfolios: &[Portfolio],
    names: &[Name],
    accounts: &[Name],
    ledgers: Vec<Ledger>,
) -> Result<Vec<KeptOrder>, AllocError>
    requires names { length ledgers.items ≡ length names.now }
    requires accounts { length ledgers.items ≡ length accounts.now }
    ensures { IfOk result (λ orders. orders.items ≡ all_kept_as portfolios.now names.now accounts.now ledgers.items) }
{
    let places = places_of(alloc, portfolios)?;
    let mut orders = Vec::with_capacity(alloc, names.len())?;
    for entries in ledgers {
        let order = orders.len();
        orders.push(KeptOrder {
            name: names[order].copied(),
            account: order_account(&places, &accounts[order]),
            entries,
        })?;
    }
    Ok(orders)
}

/// Returns the holdings of an order's account without the order.
pub(crate) fn held_before<'a>(portfolios: &'a [Portfolio], account: &OrderAccount) -> &'a [Holding]
    requires { HasPlace portfolios.now account.now }
    ensures value { result.now ≡ (portfolio_before portfolios.now account.now).holdings }
    ensures kept { ArePortfolio (portfolio_before portfolios.now account.now).holdings }
{
    match account {
        OrderAccount::Known(place) => portfolios[*place].holdings(),
        OrderAccount::New(_) => &[],
    }
}

// The holdings of an order's account with the order, in the given number of contracts, with nets of any size.
fn nets_after(
    alloc: Global,
    sums: &mut Sums,
    contracts: u32,
    portfolios: &[Portfolio],
    order: &KeptOrder,
) -> Result<AccountNets, AllocError>
    requires { HasPlace portfolios.now order.now.account }
    ensures nets { IfOk result (λ nets. nets ≡ kept_after contracts portfolios.now order.now) }
    ensures before { ArePortfolio (portfolio_before portfolios.now order.now.account).holdings }
{
    let held = held_before(portfolios, &order.account);
    let ledger = Ledger::after(alloc, held, &order.entries)?;
    account_nets(alloc, sums, contracts, &ledger)
}

/// Returns, for each order, the part of its account's holdings with the order that is over a limit.
pub(crate) fn order_excesses(
    alloc: Global,
    sums: &mut Sums,
    contracts: u32,
    portfolios: &[Portfolio],
    orders: &[KeptOrder],
) -> Result<Vec<Excess>, AllocError>
    requires { All (λ o. HasPlace portfolios.now o.account) orders.now }
    ensures excesses { IfOk result (λ excesses. excesses.items
        ≡ map (λ o. excess_of (kept_after contracts portfolios.now o)) orders.now) }
    ensures before { IfOk result (λ excesses. All (λ o. ArePortfolio (portfolio_before portfolios.now o.account).holdings) orders.now) }
{
    let mut excesses = Vec::with_capacity(alloc, orders.len())?;
    for order in orders {
        let nets = nets_after(alloc, sums, contracts, portfolios, order)?;
        excesses.push(excess_of(alloc, &nets)?)?;
    }
    Ok(excesses)
}

// The name of the account of an order.
fn account_of<'a>(portfolios: &'a [Portfolio], account: &'a OrderAccount) -> &'a Name
    requires { HasPlace portfolios.now account.now }
    ensures { result.now ≡ (portfolio_before portfolios.now account.now).account }
{
    match account {
        OrderAccount::Known(place) => portfolios[*place].account(),
        OrderAccount::New(name) => name,
    }
}

/// Returns the portfolio of an order's account with the order, in the given number of contracts.
pub(crate) fn portfolio_after(
    alloc: Global,
    sums: &mut Sums,
    contracts: u32,
    portfolios: &[Portfolio],
    order: &KeptOrder,
) -> Result<Portfolio, AllocError>
    requires { IsKept contracts portfolios.now order.now }
    ensures { IfOk result (λ after. after ≡ (kept_order contracts portfolios.now order.now).after) }
{
    let nets = nets_after(alloc, sums, contracts, portfolios, order)?;
    let account = account_of(portfolios, &order.account).copied();
    Ok(Portfolio::new(account, nets.into_vec()))
}

/// Returns the portfolio of each order's account with the order, in the given number of contracts.
pub(crate) fn portfolios_after(
    alloc: Global,
    contracts: u32,
    portfolios: &[Portfolio],
    orders: &[KeptOrder],
) -> Result<Vec<Portfolio>, AllocError>
    requires { All (IsKept contracts portfolios.now) orders.now }
    ensures { IfOk result (λ all. all.items ≡ map (λ o. (kept_order contracts portfolios.now o).after) orders.now) }
{
    let mut sums = Sums::new(alloc, contracts)?;
    let mut all = Vec::with_capacity(alloc, orders.len())?;
    for order in orders {
        all.push(portfolio_after(alloc, &mut sums, contracts, portfolios, order)?)?;
    }
    Ok(all)
}

/// Returns `count` orders from number `first` on, or fewer at the end of the list.
pub(crate) fn some_of(orders: &[KeptOrder], first: usize, count: usize) -> &[KeptOrder]
    ensures { result.now ≡ take count (drop first orders.now) }
{
    let rest = &orders[first.min(orders.len())..];
    &rest[..count.min(rest.len())]
}
