//! The binding of positions to tables.
ghost use Rattle.std.specs.Prelude.{◌≡◌, length, All, IfOk, List};
ghost use Rattle.binding.specs.Binding.{bind_faults, bindings_of, is_memory};
ghost use Rattle.binding.specs.near.Holdings.{ids_of, portfolios_from};
ghost use Rattle.binding.specs.near.Ledgers.{AreGathered};
ghost use Rattle.span_tables.specs.Gives.{Gives};
ghost use Rattle.span_tables.specs.Holdings.{ArePortfolio};
ghost use Rattle.span_tables.specs.declared.records.Contract.{Contract};

use crate::contract_ids::ids_of;
use crate::faults::BindFault;
use crate::ledgers::gather;
use crate::nets::{AccountNets, all_nets};
use crate::over_limits::{all_faults, excesses_of, first};
use indexmap::IndexSet;
use span_tables::name::Name;
use span_tables::portfolios::{Portfolio, Portfolios};
use span_tables::raw::RawPositions;
use span_tables::tables::Tables;
use std::alloc::{AllocError, Global};

// The portfolios of accounts with these nets.
fn portfolios_from(
    alloc: Global,
    accounts: &[Name],
    nets: Vec<AccountNets>,
) -> Result<Portfolios, AllocError>
    requires as_many { length nets.items ≡ length accounts.now }
    requires fit { All ArePortfolio nets.items }
    ensures { IfOk result (λ all. all ≡ portfolios_from accounts.now nets.items) }
{
    let mut all = Vec::with_capacity(alloc, accounts.len())?;
    for held in nets {
        let account = accounts[all.len()].copied();
        all.push(Portfolio::new(account, held.into_vec()))?;
    }
    Ok(Portfolios::new(all))
}

// All faults of positions whose accounts have these nets. The faults of records of unknown contracts are given.
fn faults_of(
    alloc: Global,
    numbers: &IndexSet<Name>,
    unknown: Vec<BindFault>,
    nets: &[AccountNets],
    positions: &RawPositions,
) -> Result<Vec<BindFault>, AllocError>
    requires { AreGathered numbers.now.keys positions.now unknown.items nets.now }
    ensures { (contracts : List Contract) → ids_of contracts ≡ numbers.now.keys
        → IfOk result (λ faults. faults.items ≡ bind_faults contracts positions.now) }
{
    let excesses = excesses_of(alloc, nets)?;
    all_faults(alloc, numbers, unknown, &excesses, positions)
}

/// Returns the portfolios of accounts with these nets, or the first fault of the positions.
pub(crate) fn portfolios_or_fault(
    alloc: Global,
    numbers: &IndexSet<Name>,
    unknown: Vec<BindFault>,
    nets: Vec<AccountNets>,
    positions: &RawPositions,
) -> Result<Portfolios, BindFault>
    requires { AreGathered numbers.now.keys positions.now unknown.items nets.items }
    ensures { (contracts : List Contract) → ids_of contracts ≡ numbers.now.keys
        → Gives is_memory result (bindings_of contracts positions.now) }
{
    let faults = faults_of(alloc, numbers, unknown, &nets, positions)?;
    if let Some(fault) = first(faults) {
        return Err(fault);
    }
    let all = portfolios_from(alloc, positions.accounts(), nets)?;
    Ok(all)
}

/// Returns all faults of the positions, B1 to B3 (docs/FORMATS.md, "All faults"). First comes each record whose
/// contract the tables do not have. Then follow each net out of range and each account that holds too many contracts,
/// computed without these records.
pub fn bind_faults(
    alloc: Global,
    tables: &Tables,
    positions: &RawPositions,
) -> Result<Vec<BindFault>, AllocError>
    ensures { IfOk result (λ faults. faults.items ≡ bind_faults tables.now.contracts positions.now) }
{
    let numbers = ids_of(alloc, tables)?;
    let gathered = gather(alloc, &numbers, positions)?;
    let nets = all_nets(alloc, &numbers, gathered.ledgers)?;
    faults_of(alloc, &numbers, gathered.unknown, &nets, positions)
}

/// Returns the holdings of each account, in the order of the accounts' first appearance (docs/METHOD.md, "Positions"),
/// or the fault of the positions, B1 to B3 (docs/FORMATS.md, "Faults"). Nets are in contracts, and a short net is
/// negative.
pub fn bind(
    alloc: Global,
    tables: &Tables,
    positions: &RawPositions,
) -> Result<Portfolios, BindFault>
    ensures { Gives is_memory result (bindings_of tables.now.contracts positions.now) }
{
    let numbers = ids_of(alloc, tables)?;
    let gathered = gather(alloc, &numbers, positions)?;
    let nets = all_nets(alloc, &numbers, gathered.ledgers)?;
    portfolios_or_fault(alloc, &numbers, gathered.unknown, nets, positions)
}
