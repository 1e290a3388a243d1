//! The numbers of contracts by their ids.
ghost use Rattle.std.specs.Prelude.{◌≡◌, ◌≤◌, length, map, nat_lt, IfOk};
ghost use Rattle.std.specs.List.{list_all};
ghost use Rattle.span_tables.specs.declared.limits.TheConstants.{MAX_CONTRACTS};
ghost use Rattle.binding.specs.near.Holdings.{ids_of};
ghost use Rattle.binding.specs.near.Ledgers.{contract_place, AreNumbers};

use indexmap::IndexSet;
use span_tables::name::Name;
use span_tables::records::NumberedPosition;
use span_tables::tables::Tables;
use std::alloc::{AllocError, Global};

/// Returns the ids of the contracts of tables. The index of an id is the number of its contract. Fails only if memory
/// runs out.
pub fn ids_of(alloc: Global, tables: &Tables) -> Result<IndexSet<Name>, AllocError>
    ensures value { IfOk result (λ numbers. numbers.keys ≡ ids_of tables.now.contracts) }
    ensures known { IfOk result (λ numbers. AreNumbers numbers.keys) }
{
    let mut numbers = IndexSet::new(alloc);
    for contract in tables.contracts() {
        numbers.insert(contract.id.copied())?;
    }
    Ok(numbers)
}

/// Returns the index of a contract among the ids, or the number of ids if it is not among them.
pub(crate) fn place_of(numbers: &IndexSet<Name>, contract: &Name) -> u16
    requires { length numbers.now.keys ≤ MAX_CONTRACTS }
    ensures { result ≡ contract_place numbers.now.keys contract.now }
{
    match numbers.get_index_of(contract) {
        Some(number) => number as u16,
        None => numbers.len() as u16,
    }
}

/// Returns the index of each record's contract among the ids, or the number of ids if it is not among them.
pub(crate) fn places_found(
    alloc: Global,
    numbers: &IndexSet<Name>,
    records: &[NumberedPosition],
) -> Result<Vec<u16>, AllocError>
    requires { length numbers.now.keys ≤ MAX_CONTRACTS }
    ensures { IfOk result (λ found. found.items ≡ map (λ p. contract_place numbers.now.keys p.contract) records.now) }
{
    let mut found = Vec::with_capacity(alloc, records.len())?;
    for position in records {
        found.push(place_of(numbers, &position.contract))?;
    }
    Ok(found)
}

/// Returns whether all indexes are below a bound.
pub(crate) fn all_below(places: &[u16], bound: usize) -> bool
    ensures { result ≡ list_all (λ place. nat_lt place bound) places.now }
{
    places.iter().all(|place| usize::from(*place) < bound)
}
