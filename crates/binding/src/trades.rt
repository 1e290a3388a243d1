//! Trades on the holdings of one account.
ghost use Rattle.std.specs.Option.{option_or};
ghost use Rattle.std.specs.Prelude.{◌≡◌, ◌<◌, ◌≤◌, ◌+◌, ◌++◌, ⊤, All, IfErr, IfOk, IfSome, List, MatchBool, None, OnOk, Some, false};
ghost use Rattle.std.specs.Prelude.{if◌then◌else◌, length, map, nat_abs, option_map, position};
ghost use Rattle.std.specs.List.Sorted.{IsStrictlyIncreasing};
ghost use Rattle.std.specs.List.{list_any};
ghost use Rattle.binding.specs.Binding.{is_memory};
ghost use Rattle.binding.specs.Trades.{traded};
ghost use Rattle.binding.specs.declared.faults.BindFault.TheVariants as bind;
ghost use Rattle.binding.specs.near.Holdings.{are_many, ids_of, is_over_at};
ghost use Rattle.binding.specs.near.Ledgers.{contract_place, held_entries, known_entry, AreNumbers};
ghost use Rattle.binding.specs.near.Trades.{is_unlisted, trade_entry};
ghost use Rattle.span_tables.specs.Gives.{Gives};
ghost use Rattle.span_tables.specs.Holdings.{ArePortfolio};
ghost use Rattle.span_tables.specs.declared.limits.TheConstants.{MAX_CONTRACTS, MAX_QUANTITY};
ghost use Rattle.span_tables.specs.declared.records.Contract.{Contract};

use crate::contract_ids::{ids_of, place_of};
use crate::contract_sums::Sums;
use crate::faults::BindFault;
use crate::ledgers::{Entry, Ledger};
use crate::nets::{AccountNets, account_nets};
use crate::over_limits::{are_many, has_over, is_over_at};
use indexmap::IndexSet;
use span_tables::name::Name;
use span_tables::portfolios::{Holding, Portfolio};
use span_tables::tables::Tables;
use std::alloc::{AllocError, Global};
use std::marker::Model;

/// A traded contract and its quantity, in contracts. The quantity of a sale is negative.
#[derive(Drop)]
pub struct Trade {
    pub contract: Name,
    pub quantity: i32,
}

// The entry of a trade, or `None` if its contract is not known.
#[tactic(auto, unfolding(crate::specs::near::Ledgers::known_entry))]
fn known_trade(numbers: &IndexSet<Name>, trade: &Trade) -> Option<Entry>
    requires { length numbers.now.keys ≤ MAX_CONTRACTS }
    ensures entry { result ≡ known_entry numbers.now.keys trade.now.contract trade.now.quantity }
    ensures quantity { IfSome result (λ entry. entry.quantity ≡ trade.now.quantity) }
{
    let contract = numbers.get_index_of(&trade.contract)?;
    Some(Entry {
        contract: contract as u32,
        quantity: trade.quantity,
    })
}

// The holdings of an account and then its trades, as entries, or the first trade in an unknown contract.
fn entries_with(
    alloc: Global,
    numbers: &IndexSet<Name>,
    account: &Name,
    held: &[Holding],
    trades: &[Trade],
) -> Result<Ledger, BindFault>
    requires few { length numbers.now.keys ≤ MAX_CONTRACTS }
    requires held { ArePortfolio held.now }
    requires trades { All (λ trade. nat_abs trade.quantity ≤ MAX_QUANTITY) trades.now }
    ensures entries { IfOk result (λ ledger. ledger ≡ held_entries held.now ++ map (trade_entry numbers.now.keys) trades.now) }
    ensures known { OnOk result (list_any (is_unlisted numbers.now.keys) trades.now ≡ false) }
    ensures unknown { IfErr result (λ e. MatchBool (is_memory e) ⊤ (option_map (λ index. bind.UnknownContract (index + 1) account.now)
        (position (is_unlisted numbers.now.keys) trades.now) ≡ Some e)) }
{
    let mut ledger = Ledger::of_held(alloc, held, trades.len())?;
    for (number, trade) in trades.iter().enumerate() {
        let Some(entry) = known_trade(numbers, trade) else {
            return Err(BindFault::UnknownContract {
                at: number + 1,
                account: account.copied(),
            });
        };
        ledger.push(entry)?;
    }
    Ok(ledger)
}

// The index of the first trade in whose contract the net is over the limit.
fn first_over(numbers: &IndexSet<Name>, nets: &[Holding], trades: &[Trade]) -> Option<usize>
    requires few { length numbers.now.keys ≤ MAX_CONTRACTS }
    requires rising { IsStrictlyIncreasing (map (λ h. h.contract) nets.now) }
    ensures { result ≡ position (λ trade. is_over_at (contract_place numbers.now.keys trade.contract) nets.now) trades.now }
{
    if !has_over(nets) {
        return None;
    }
    trades.iter().position(|trade| is_over_at(
        nets,
        usize::from(place_of(numbers, &trade.contract)),
    ))
}

// The fault of an account's nets after trades in known contracts: B2 at the first trade in whose contract the net is
// over the limit, otherwise B3 at the first trade.
fn limit_fault(
    numbers: &IndexSet<Name>,
    account: &Name,
    nets: &AccountNets,
    trades: &[Trade],
) -> Option<BindFault>
    requires few { length numbers.now.keys ≤ MAX_CONTRACTS }
    ensures { result ≡ option_or (option_map (λ index. bind.NetOutOfRange (index + 1) account.now)
        (position (λ trade. is_over_at (contract_place numbers.now.keys trade.contract) nets.now) trades.now))
        (if are_many nets.now then Some (bind.TooManyHeld 1 account.now) else None) }
{
    if let Some(index) = first_over(numbers, nets.as_slice(), trades) {
        return Some(BindFault::NetOutOfRange {
            at: index + 1,
            account: account.copied(),
        });
    }
    if are_many(nets.as_slice()) {
        return Some(BindFault::TooManyHeld {
            at: 1,
            account: account.copied(),
        });
    }
    None
}

// The portfolio of an account after trades in the contracts of these ids, or their fault.
fn after_trades(
    alloc: Global,
    numbers: &IndexSet<Name>,
    sums: &mut Sums,
    account: &Name,
    held: &[Holding],
    trades: &[Trade],
) -> Result<Portfolio, BindFault>
    requires numbers { AreNumbers numbers.now.keys }
    requires held { ArePortfolio held.now }
    requires some { 0 < length trades.now }
    requires trades { All (λ trade. nat_abs trade.quantity ≤ MAX_QUANTITY) trades.now }
    ensures { (contracts : List Contract) → ids_of contracts ≡ numbers.now.keys
        → Gives is_memory result (traded contracts held.now account.now trades.now) }
{
    let ledger = entries_with(alloc, numbers, account, held, trades)?;
    let nets = account_nets(alloc, sums, numbers.len() as u32, &ledger)?;
    match limit_fault(numbers, account, &nets, trades) {
        Some(fault) => Err(fault),
        None => Ok(Portfolio::new(account.copied(), nets.into_vec())),
    }
}

/// Evaluates trades on the holdings of an account. Contracts see the list of the contracts' ids, by contract number.
///
/// A trader is made once for a parameter set, and evaluates any number of trades. A call costs one word for each 64
/// contracts of the set. Otherwise its cost depends only on the trades and the holdings of their account.
#[derive(Drop)]
pub struct Trader {
    numbers: IndexSet<Name>,
    sums: Sums,
}

impl Model for Trader {
    ghost use Rattle.std.specs.Prelude.{ℕ, List};
    ghost use Rattle.binding.specs.near.Ledgers.{AreNumbers};

    ghost Value = { List (List ℕ) };

    ghost view = { λ trader. trader.numbers.keys };

    ghost invariant = { λ trader. AreNumbers trader.numbers.keys };
}

impl Trader {
    /// Returns a trader in the contracts of these tables. It fails only if it runs out of memory.
    pub fn new(alloc: Global, tables: &Tables) -> Result<Trader, AllocError>
        ensures { IfOk result (λ trader. trader ≡ ids_of tables.now.contracts) }
    {
        let numbers = ids_of(alloc, tables)?;
        let sums = Sums::new(alloc, numbers.len() as u32)?;
        Ok(Trader { numbers, sums })
    }

    /// Returns the portfolio of an account after trades, from its holdings before them, or the fault of the trades, B1
    /// to B3 (docs/FORMATS.md, "Faults"). A fault has the number of a trade, from 1.
    pub fn after(
        &mut self,
        alloc: Global,
        account: &Name,
        held: &[Holding],
        trades: &[Trade],
    ) -> Result<Portfolio, BindFault>
        requires held { ArePortfolio held.now }
        requires some { 0 < length trades.now }
        requires trades { All (λ trade. nat_abs trade.quantity ≤ MAX_QUANTITY) trades.now }
        ensures after { (contracts : List Contract) → ids_of contracts ≡ self.old
            → Gives is_memory result (traded contracts held.now account.now trades.now) }
        ensures same { self.new ≡ self.old }
    {
        after_trades(alloc, &self.numbers, &mut self.sums, account, held, trades)
    }
}
