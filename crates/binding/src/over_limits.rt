//! The records whose net or whose account exceeds a limit.
ghost use Rattle.std.specs.Prelude.{◌≡◌, ◌&&◌, ◌||◌, not, Some, bytes_eq, map, position, IfOk, OnOk};
ghost use Rattle.std.specs.List.Sorted.{IsStrictlyIncreasing};
ghost use Rattle.std.specs.List.{list_any};
ghost use Rattle.binding.specs.near.Holdings.{are_many, exceeds_any, exceeds_at, exceeds_in, excess_of, fault_of};
ghost use Rattle.binding.specs.near.Holdings.{found_faults, is_over, is_over_at, is_same_told, is_told, limit_faults, told_as};
ghost use Rattle.span_tables.specs.Faults.{first_of};

use crate::faults::BindFault;
use crate::nets::{AccountNets, is_over};
use indexmap::IndexSet;
use span_tables::limits::MAX_HELD;
use span_tables::name::Name;
use span_tables::portfolios::Holding;
use span_tables::raw::RawPositions;
use span_tables::records::NumberedPosition;
use std::alloc::{AllocError, Global};

/// The limits of an account.
#[derive(Clone, Copy)]
pub(crate) enum Limit {
    /// B2: the limit of the net in a contract, long or short.
    Net,
    /// B3: the limit of the number of contracts held.
    Held,
}

/// The part of an account's holdings that is over a limit.
#[derive(Drop)]
pub(crate) struct Excess {
    // The nets over the limit.
    over: AccountNets,
    // Whether more contracts are held than allowed.
    many: bool,
}

/// Returns whether some net is over the limit.
pub(crate) fn has_over(holdings: &[Holding]) -> bool
    ensures { result ≡ list_any is_over holdings.now }
{
    holdings.iter().any(|holding| is_over(holding))
}

/// Returns whether the net in a contract, given by its number, is over the limit.
pub(crate) fn is_over_at(holdings: &[Holding], contract: usize) -> bool
    requires { IsStrictlyIncreasing (map (λ h. h.contract) holdings.now) }
    ensures { result ≡ is_over_at contract holdings.now }
{
    match holdings.binary_search_by_key(&contract, |holding| holding.contract as usize) {
        Ok(place) => is_over(&holdings[place]),
        Err(_) => false,
    }
}

/// Returns whether more contracts are held than allowed.
pub(crate) fn are_many(holdings: &[Holding]) -> bool
    ensures { result ≡ are_many holdings.now }
{
    holdings.len() > MAX_HELD
}

/// Returns the part of an account's holdings that is over a limit.
pub(crate) fn excess_of(alloc: Global, nets: &AccountNets) -> Result<Excess, AllocError>
    ensures { IfOk result (λ excess. excess ≡ excess_of nets.now) }
{
    let over = nets.over(alloc)?;
    let many = are_many(nets.as_slice());
    Ok(Excess { over, many })
}

/// Returns the part of each account's holdings that is over a limit.
pub(crate) fn excesses_of(alloc: Global, nets: &[AccountNets]) -> Result<Vec<Excess>, AllocError>
    ensures { IfOk result (λ excesses. excesses.items ≡ map excess_of nets.now) }
{
    let mut excesses = Vec::with_capacity(alloc, nets.len())?;
    for account in nets {
        excesses.push(excess_of(alloc, account)?)?;
    }
    Ok(excesses)
}

// Whether some net of the holdings, or the number of contracts, exceeds a limit.
fn exceeds_any(limit: Limit, excess: &Excess) -> bool
    ensures { result ≡ exceeds_any limit excess.now }
{
    match limit {
        Limit::Net => has_over(excess.over.as_slice()),
        Limit::Held => excess.many,
    }
}

// Whether the holdings of some account exceed a limit.
fn some_exceeds(limit: Limit, excesses: &[Excess]) -> bool
    ensures { result ≡ list_any (exceeds_any limit) excesses.now }
{
    excesses.iter().any(|excess| exceeds_any(limit, excess))
}

// Whether an account's holdings exceed a limit at a contract. A known contract has a number.
fn exceeds_in(limit: Limit, excess: &Excess, contract: Option<usize>) -> bool
    ensures { result ≡ exceeds_in limit contract excess.now }
{
    match (limit, contract) {
        (Limit::Net, Some(contract)) => is_over_at(excess.over.as_slice(), contract),
        (Limit::Held, Some(_)) => excess.many,
        (_, None) => false,
    }
}

// Whether a record exceeds a limit.
#[tactic(auto, using(crate::proofs::LimitLaws::none_held))]
fn exceeds_at(
    limit: Limit,
    numbers: &IndexSet<Name>,
    excesses: &[Excess],
    numbered: &NumberedPosition,
) -> bool
    ensures { result ≡ exceeds_at limit (Some numbered.now.account)
        (position (bytes_eq numbered.now.contract) numbers.now.keys) excesses.now }
{
    match excesses.get(numbered.account as usize) {
        Some(excess) => exceeds_in(limit, excess, numbers.get_index_of(&numbered.contract)),
        None => false,
    }
}

// The fault of a record that exceeds a limit.
fn fault_of(limit: Limit, at: usize, account: Name) -> BindFault
    ensures { result ≡ fault_of limit at account }
{
    match limit {
        Limit::Net => BindFault::NetOutOfRange { at, account },
        Limit::Held => BindFault::TooManyHeld { at, account },
    }
}

/// The key under which a record is reported: its account, and for a net also the contract.
#[derive(Debug, Drop, PartialEq, Eq, Hash)]
pub(crate) struct Told {
    account: Name,
    contract: Option<Name>,
}

// The key of a record of an account and a contract.
fn told_as(limit: Limit, account: &Name, contract: &Name) -> Told
    ensures { result ≡ told_as limit account.now contract.now }
{
    Told {
        account: account.copied(),
        contract: match limit {
            Limit::Net => Some(contract.copied()),
            Limit::Held => None,
        },
    }
}

// Adds a key to the keys so far, and returns whether it is new.
fn is_new(told: &mut IndexSet<Told>, next: Told) -> Result<bool, AllocError>
    ensures fresh { IfOk result (λ fresh. fresh ≡ not (is_told told.old.keys next)) }
    ensures members { OnOk result ((t : Told)
        → is_told told.new.keys t ≡ (is_told told.old.keys t || is_same_told next t)) }
{
    let is_new = told.insert(next)?;
    Ok(is_new)
}

// Whether a record of an account exceeds a limit and no record with the same key did before. If so, the key is added.
fn exceeds_anew(
    limit: Limit,
    numbers: &IndexSet<Name>,
    excesses: &[Excess],
    told: &mut IndexSet<Told>,
    account: &Name,
    numbered: &NumberedPosition,
) -> Result<bool, AllocError>
    ensures anew { IfOk result (λ anew. anew
        ≡ (not (is_told told.old.keys (told_as limit account.now numbered.now.contract))
        && exceeds_at limit (Some numbered.now.account) (position (bytes_eq numbered.now.contract) numbers.now.keys) excesses.now)) }
    ensures members { OnOk result ((t : Told) → is_told told.new.keys t
        ≡ (is_told told.old.keys t || (is_same_told (told_as limit account.now numbered.now.contract) t
        && exceeds_at limit (Some numbered.now.account) (position (bytes_eq numbered.now.contract) numbers.now.keys) excesses.now))) }
{
    if !exceeds_at(limit, numbers, excesses, numbered) {
        return Ok(false);
    }
    is_new(told, told_as(limit, account, &numbered.contract))
}

// The faults of the records that exceed a limit, from the excess of each account. There is one fault for each account
// and contract, or for each account, at its first record over the limit.
fn limit_faults(
    alloc: Global,
    limit: Limit,
    numbers: &IndexSet<Name>,
    excesses: &[Excess],
    positions: &RawPositions,
) -> Result<Vec<BindFault>, AllocError>
    ensures { IfOk result (λ faults. faults.items ≡ limit_faults limit numbers.now.keys excesses.now positions.now) }
{
    let mut faults = Vec::new(alloc);
    if !some_exceeds(limit, excesses) {
        return Ok(faults);
    }
    let accounts = positions.accounts();
    let mut told = IndexSet::new(alloc);
    for (number, position) in positions.records().iter().enumerate() {
        let account = &accounts[position.account as usize];
        if exceeds_anew(limit, numbers, excesses, &mut told, account, position)? {
            faults.push(fault_of(limit, number + 1, account.copied()))?;
        }
    }
    Ok(faults)
}

/// Returns all faults of records, from the excess of each account. First come the given faults of unknown contracts,
/// then nets over the limit, and then accounts with too many contracts.
pub(crate) fn all_faults(
    alloc: Global,
    numbers: &IndexSet<Name>,
    unknown: Vec<BindFault>,
    excesses: &[Excess],
    positions: &RawPositions,
) -> Result<Vec<BindFault>, AllocError>
    ensures { IfOk result (λ faults. faults.items ≡ found_faults numbers.now.keys unknown.items excesses.now positions.now) }
{
    let mut over = limit_faults(alloc, Limit::Net, numbers, excesses, positions)?;
    let mut many = limit_faults(alloc, Limit::Held, numbers, excesses, positions)?;
    let mut faults = unknown;
    faults.append(&mut over)?;
    faults.append(&mut many)?;
    Ok(faults)
}

/// Returns the first of a list of faults, if there is one.
pub(crate) fn first(faults: Vec<BindFault>) -> Option<BindFault>
    ensures { result ≡ first_of faults.items }
{
    faults.into_iter().next()
}
