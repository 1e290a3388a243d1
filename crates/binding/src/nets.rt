//! The net quantities of one account.
ghost use Rattle.std.specs.Prelude.{◌≡◌, ◌<◌, ◌≤◌, ◌+◌, ◌^◌, ◌+ℤ◌, All};
ghost use Rattle.std.specs.Prelude.{filter, length, map, nat_abs, replicate, pos, slice_index_or, slice_set, IfOk};
ghost use Rattle.std.specs.List.{range_with_len};
ghost use Rattle.binding.specs.near.Holdings.{is_over};
ghost use Rattle.binding.specs.near.Nets.{entry_net};
ghost use Rattle.binding.specs.near.Sums.{kept_holdings};
ghost use Rattle.span_tables.specs.declared.limits.TheConstants.{MAX_CONTRACTS, MAX_QUANTITY};

use crate::contract_sums::Sums;
use crate::ledgers::{Entry, Ledger};
use indexmap::IndexSet;
use span_tables::limits::MAX_NET;
use span_tables::name::Name;
use span_tables::portfolios::Holding;
use std::alloc::{AllocError, Global};
use std::marker::Model;

/// The holdings of one account, with nets of any size. A net over the limit is stored as `MAX_NET + 1`. Contracts see
/// the list of the holdings.
#[derive(Drop)]
pub struct AccountNets {
    holdings: Vec<Holding>,
}

impl Model for AccountNets {
    ghost use Rattle.std.specs.Prelude.{List, map};
    ghost use Rattle.std.specs.List.Sorted.{IsStrictlyIncreasing};
    ghost use Rattle.span_tables.specs.declared.portfolios.Holding.{Holding};

    ghost Value = { List Holding };

    ghost view = { λ n. n.holdings.items };

    ghost invariant = { λ n. IsStrictlyIncreasing (map (λ h. h.contract) n.holdings.items) };
}

/// Returns whether a net is over the limit, long or short.
pub(crate) fn is_over(holding: &Holding) -> bool
    ensures { result ≡ is_over holding.now }
{
    u64::from(holding.net.unsigned_abs()) > MAX_NET
}

// The nets that are over the limit, long or short.
fn all_over(alloc: Global, holdings: &[Holding]) -> Result<Vec<Holding>, AllocError>
    ensures { IfOk result (λ over. over.items ≡ filter is_over holdings.now) }
{
    holdings
        .iter()
        .filter(|holding| is_over(holding))
        .copied()
        .collect(alloc)
}

impl AccountNets {
    ghost use Rattle.std.specs.Prelude.{map};
    ghost use Rattle.std.specs.List.Sorted.{IsStrictlyIncreasing};

    /// Returns the holdings by increasing contract number.
    pub(crate) fn as_slice(&self) -> &[Holding]
        ensures value { result.now ≡ self.now }
        ensures rising { IsStrictlyIncreasing (map (λ h. h.contract) self.now) }
    {
        &self.holdings
    }

    /// Returns the nets that are over the limit, long or short.
    pub(crate) fn over(&self, alloc: Global) -> Result<AccountNets, AllocError>
        ensures { IfOk result (λ nets. nets ≡ filter is_over self.now) }
    {
        let holdings = all_over(alloc, &self.holdings)?;
        Ok(AccountNets { holdings })
    }

    /// Converts the nets into the list of holdings by increasing contract number.
    pub(crate) fn into_vec(self) -> Vec<Holding>
        ensures { result.items ≡ self }
    {
        self.holdings
    }
}

// Adds an entry's quantity to the net of its contract. An entry of an unknown contract is ignored.
fn add(nets: &mut Sums, entry: &Entry)
    requires quantity { nat_abs entry.now.quantity ≤ MAX_QUANTITY }
    requires room { nat_abs (slice_index_or nets.old entry.now.contract (pos 0)) + MAX_QUANTITY < 2 ^ 127 }
    ensures { nets.new ≡ slice_set nets.old entry.now.contract
        (slice_index_or nets.old entry.now.contract (pos 0) +ℤ entry.now.quantity) }
{
    nets.add(entry.contract as usize, entry.quantity);
}

// Adds each entry's quantity to the net of its contract. All nets are 0 at the start.
fn add_all(nets: &mut Sums, entries: &[Entry])
    requires zero { nets.old ≡ replicate (length nets.old) (pos 0) }
    requires quantities { All (λ e. nat_abs e.quantity ≤ MAX_QUANTITY) entries.now }
    ensures { nets.new ≡ map (entry_net entries.now) (range_with_len 0 (length nets.old)) }
{
    for entry in entries {
        add(nets, entry);
    }
}

/// Returns the holdings of an account with these entries, in the given number of contracts. The previous sums are lost.
pub(crate) fn account_nets(
    alloc: Global,
    sums: &mut Sums,
    contracts: u32,
    ledger: &Ledger,
) -> Result<AccountNets, AllocError>
    ensures { IfOk result (λ nets. nets ≡ kept_holdings contracts ledger.now) }
{
    let entries = ledger.as_slice();
    sums.start(alloc, contracts)?;
    add_all(sums, entries);
    let holdings = sums.holdings(alloc, entries.len().min(sums.len()))?;
    Ok(AccountNets { holdings })
}

/// Returns the holdings of the account of each ledger, in the contracts of these ids.
pub(crate) fn all_nets(
    alloc: Global,
    numbers: &IndexSet<Name>,
    ledgers: Vec<Ledger>,
) -> Result<Vec<AccountNets>, AllocError>
    requires { length numbers.now.keys ≤ MAX_CONTRACTS }
    ensures { IfOk result (λ nets. nets.items ≡ map (kept_holdings (length numbers.now.keys)) ledgers.items) }
{
    let contracts = numbers.len() as u32;
    let mut sums = Sums::new(alloc, contracts)?;
    let mut nets = Vec::with_capacity(alloc, ledgers.len())?;
    for ledger in ledgers {
        nets.push(account_nets(alloc, &mut sums, contracts, &ledger)?)?;
    }
    Ok(nets)
}
