//! The holdings of accounts under another parameter set (docs/SESSIONS.md, A new parameter set).
ghost use Rattle.binding.specs.Binding.{is_unknown};
ghost use Rattle.session.specs.Accounts.{contract_of, held_records, under_contracts};
ghost use Rattle.session.specs.Refusals.{refused_by};
ghost use Rattle.session.specs.Refusals as refused;
ghost use Rattle.session.specs.near.Answering.{is_memory};
ghost use Rattle.session.specs.near.Carried.{numbers_in};
ghost use Rattle.span_tables.specs.Holdings.{fits};
ghost use Rattle.span_tables.specs.declared.limits.TheConstants.{MAX_CONTRACTS};
ghost use Rattle.std.specs.Prelude.{◌≡◌, ◌<◌, ◌≤◌, ⊤, IfErr, IfOk, MatchBool, None, OnOk, Some, bytes_eq, find, length, option_map};
ghost use Rattle.std.specs.Prelude.{position, true};

use crate::positions::contract_of;
use crate::refusals::Refusal;
use binding::contract_ids::ids_of;
use indexmap::IndexSet;
use span_tables::name::Name;
use span_tables::portfolios::{Holding, Portfolio};
use span_tables::tables::Tables;
use std::alloc::{AllocError, Global};

// The index of an id, if it is among the ids.
fn index_of(ids: &IndexSet<Name>, id: &Name) -> Option<u32>
    requires { length ids.now.keys ≤ MAX_CONTRACTS }
    ensures { result ≡ position (bytes_eq id.now) ids.now.keys }
{
    let index = ids.get_index_of(id)?;
    Some(index as u32)
}

/// Returns for each contract of a parameter set its number in another one, or `None` if the other set lacks it.
pub(crate) fn numbers_in(
    alloc: Global,
    old: &Tables,
    new: &Tables,
) -> Result<Vec<Option<u32>>, AllocError>
    ensures { IfOk result (λ numbers. numbers.items ≡ numbers_in old.now.contracts new.now.contracts) }
{
    new.known();
    let ids = ids_of(alloc, new)?;
    let mut numbers = Vec::with_capacity(alloc, old.contracts().len())?;
    for contract in old.contracts() {
        numbers.push(index_of(&ids, &contract.id))?;
    }
    Ok(numbers)
}

// The refusal for a holding whose contract another parameter set lacks.
fn lost(old: &Tables, portfolio: &Portfolio, holding: &Holding) -> Refusal<'static>
    requires { holding.now.contract < length old.now.contracts }
    ensures { refused_by result ≡ refused.Lost portfolio.now.account (contract_of old.now.contracts holding.now) }
{
    Refusal::Lost {
        account: portfolio.account().copied(),
        contract: contract_of(old.contracts(), holding).copied(),
    }
}

/// Returns the holdings of an account under another parameter set, or the first contract that the set lacks.
/// `numbers` has for each contract its number in the other set.
pub(crate) fn carried(
    alloc: Global,
    old: &Tables,
    new: &Tables,
    numbers: &[Option<u32>],
    portfolio: &Portfolio,
) -> Result<Portfolio, Refusal<'static>>
    requires fits { fits (length old.now.contracts) portfolio.now.holdings ≡ true }
    requires numbers { numbers.now ≡ numbers_in old.now.contracts new.now.contracts }
    ensures carried { IfOk result (λ p. p ≡ under_contracts old.now.contracts new.now.contracts portfolio.now) }
    ensures known { OnOk result (find (is_unknown new.now.contracts) (held_records old.now.contracts portfolio.now) ≡ None) }
    ensures lost { IfErr result (λ r. MatchBool (is_memory r) ⊤ (option_map (λ held. refused.Lost held.account held.contract)
        (find (is_unknown new.now.contracts) (held_records old.now.contracts portfolio.now)) ≡ Some (refused_by r))) }
{
    old.known();
    new.known();
    let mut moved = Vec::with_capacity(alloc, portfolio.holdings().len())?;
    for holding in portfolio.holdings() {
        let Some(contract) = numbers[holding.contract as usize] else {
            return Err(lost(old, portfolio, holding));
        };
        let net = holding.net;
        moved
            .push(Holding { contract, net })
            .map_err(AllocError::from)?;
    }
    moved.sort_by_key(|holding| holding.contract)?;
    Ok(Portfolio::new(portfolio.account().copied(), moved))
}
