//! The entries of each account, gathered from the records of a position file.
ghost use Rattle.std.specs.Prelude.{◌≡◌, ◌<◌, ◌≤◌, ◌+◌, ◌++◌, ◌∷◌, [], drop, false, map, take};
ghost use Rattle.std.specs.Prelude.{length, nat_abs, replicate, slice_index_or, All, IfOk, IfSome, OnOk};
ghost use Rattle.std.specs.List.{AllWithin};
ghost use Rattle.span_tables.specs.declared.limits.TheConstants.{MAX_CONTRACTS, MAX_QUANTITY};
ghost use Rattle.binding.specs.near.Ledgers.{contract_place, foreign_faults, held_entries, is_of, known_entry, listed_records};
ghost use Rattle.binding.specs.near.Nets.{entries_of};
ghost use Rattle.span_tables.specs.Net.{accounts_of};
ghost use Rattle.span_tables.specs.Holdings.{ArePortfolio};

use crate::faults::BindFault;
use indexmap::IndexSet;
use span_tables::name::Name;
use span_tables::portfolios::Holding;
use span_tables::raw::RawPositions;
use span_tables::records::NumberedPosition;
use std::alloc::{AllocError, Global};
use std::marker::Model;

/// A position record of an account: the number of its contract, and its quantity in contracts.
#[derive(Clone, Copy)]
pub(crate) struct Entry {
    pub(crate) contract: u32,
    pub(crate) quantity: i32,
}

/// The entries of one account, in file order. Contracts see the list of the entries.
#[derive(Drop)]
pub(crate) struct Ledger {
    entries: Vec<Entry>,
}

impl Model for Ledger {
    ghost use Rattle.std.specs.Prelude.{◌≤◌, All, List, nat_abs};
    ghost use Rattle.binding.specs.declared.ledgers.Entry.{Entry};
    ghost use Rattle.span_tables.specs.declared.limits.TheConstants.{MAX_QUANTITY};

    ghost Value = { List Entry };

    ghost view = { λ b. b.entries.items };

    ghost invariant = { λ b. All (λ e. nat_abs e.quantity ≤ MAX_QUANTITY) b.entries.items };
}

impl Ledger {
    fn with_room(alloc: Global, room: usize) -> Result<Ledger, AllocError>
        ensures { IfOk result (λ ledger. ledger ≡ []) }
    {
        Ok(Ledger {
            entries: Vec::with_capacity(alloc, room)?,
        })
    }

    /// Appends an entry.
    pub(crate) fn push(&mut self, entry: Entry) -> Result<(), AllocError>
        requires { nat_abs entry.quantity ≤ MAX_QUANTITY }
        ensures { OnOk result (self.new ≡ self.old ++ entry ∷ []) }
    {
        self.entries.push(entry)?;
        Ok(())
    }

    /// Returns holdings as entries, with room for `more` entries.
    pub(crate) fn of_held(
        alloc: Global,
        holdings: &[Holding],
        more: usize,
    ) -> Result<Ledger, AllocError>
        requires { ArePortfolio holdings.now }
        ensures { IfOk result (λ ledger. ledger ≡ held_entries holdings.now) }
    {
        let mut ledger = Ledger {
            entries: Vec::with_capacity(alloc, holdings.len().saturating_add(more))?,
        };
        for holding in holdings {
            ledger.push(Entry {
                contract: holding.contract,
                quantity: holding.net,
            })?;
        }
        Ok(ledger)
    }

    /// Returns holdings as entries, followed by the entries of an order.
    pub(crate) fn after(
        alloc: Global,
        holdings: &[Holding],
        order: &Ledger,
    ) -> Result<Ledger, AllocError>
        requires { ArePortfolio holdings.now }
        ensures { IfOk result (λ ledger. ledger ≡ held_entries holdings.now ++ order.now) }
    {
        let mut ledger = Ledger::of_held(alloc, holdings, order.entries.len())?;
        ledger.entries.extend_from_slice(&order.entries)?;
        Ok(ledger)
    }

    /// Returns the entries in their order.
    pub(crate) fn as_slice(&self) -> &[Entry]
        ensures value { result.now ≡ self.now }
        ensures quantities { All (λ e. nat_abs e.quantity ≤ MAX_QUANTITY) self.now }
    {
        &self.entries
    }
}

// The entry of a record, or `None` if its contract is not known.
#[tactic(auto, unfolding(crate::specs::near::Ledgers::known_entry))]
fn known_entry(numbers: &IndexSet<Name>, position: &NumberedPosition) -> Option<Entry>
    requires { length numbers.now.keys ≤ MAX_CONTRACTS }
    ensures entry { result ≡ known_entry numbers.now.keys position.now.contract position.now.quantity }
    ensures quantity { IfSome result (λ entry. entry.quantity ≡ position.now.quantity) }
{
    let contract = numbers.get_index_of(&position.contract)?;
    Some(Entry {
        contract: contract as u32,
        quantity: position.quantity,
    })
}

// Whether a record is of one of `count` accounts from number `first` on.
#[inline(always)]
fn is_of(position: &NumberedPosition, first: usize, count: usize) -> bool
    ensures { result ≡ is_of first count position.now }
{
    let account = position.account as usize;
    first <= account && account - first < count
}

// The number of records before the first record of these accounts.
fn records_before(records: &[NumberedPosition], first: usize, count: usize) -> usize
    ensures bound { result ≤ length records.now }
    ensures others { AllWithin (λ p. is_of first count p ≡ false) records.now 0 result }
{
    let mut start = 0;
    while start < records.len() && !is_of(&records[start], first, count) {
        start += 1;
    }
    start
}

// The end of the records of these accounts: the index after the last one.
fn records_end(records: &[NumberedPosition], first: usize, count: usize) -> usize
    ensures bound { result ≤ length records.now }
    ensures others { AllWithin (λ p. is_of first count p ≡ false) records.now result (length records.now) }
{
    let mut end = records.len();
    while end > 0 && !is_of(&records[end - 1], first, count) {
        end -= 1;
    }
    end
}

// The number of these records for each of `count` accounts from number `first` on, which is the room that its ledger
// needs.
fn rooms(
    alloc: Global,
    records: &[NumberedPosition],
    first: usize,
    count: usize,
) -> Result<Vec<usize>, AllocError>
    ensures { IfOk result (λ rooms. length rooms.items ≡ count) }
{
    let mut rooms = vec![in alloc; 0usize; count]?;
    for position in records {
        let place = (position.account as usize).wrapping_sub(first);
        if place < count {
            rooms[place] = rooms[place].wrapping_add(1);
        }
    }
    Ok(rooms)
}

// An empty ledger for each of `count` accounts from number `first` on, with room for its entries in these records.
fn empty_ledgers(
    alloc: Global,
    records: &[NumberedPosition],
    first: usize,
    count: usize,
) -> Result<Vec<Ledger>, AllocError>
    ensures { IfOk result (λ ledgers. ledgers.items ≡ replicate count []) }
{
    let rooms = rooms(alloc, records, first, count)?;
    let mut ledgers = Vec::with_capacity(alloc, count)?;
    for room in &rooms {
        ledgers.push(Ledger::with_room(alloc, *room)?)?;
    }
    Ok(ledgers)
}

/// The gathered records of a position file.
#[derive(Drop)]
pub(crate) struct Gathered {
    /// The entries of each account, from the records of known contracts.
    pub(crate) ledgers: Vec<Ledger>,
    /// The faults of the other records.
    pub(crate) unknown: Vec<BindFault>,
}

/// Returns the ledgers of the accounts of positions, and the faults of the records whose contracts are not among the
/// ids.
#[tactic(auto, unfolding(crate::specs::near::Ledgers::known_entry))]
pub(crate) fn gather(
    alloc: Global,
    numbers: &IndexSet<Name>,
    positions: &RawPositions,
) -> Result<Gathered, AllocError>
    requires { length numbers.now.keys ≤ MAX_CONTRACTS }
    ensures unknown { IfOk result (λ gathered. gathered.unknown.items ≡ foreign_faults numbers.now.keys positions.now) }
    ensures ledgers { IfOk result (λ gathered. gathered.ledgers.items
        ≡ map (entries_of numbers.now.keys (listed_records numbers.now.keys positions.now)) (accounts_of positions.now)) }
{
    let accounts = positions.accounts();
    let mut ledgers = empty_ledgers(alloc, positions.records(), 0, accounts.len())?;
    let mut unknown = Vec::new(alloc);
    for (number, position) in positions.records().iter().enumerate() {
        let account = position.account as usize;
        let Some(entry) = known_entry(numbers, position) else {
            unknown.push(BindFault::UnknownContract {
                at: number + 1,
                account: accounts[account].copied(),
            })?;
            continue;
        };
        ledgers[account].push(entry)?;
    }
    Ok(Gathered { ledgers, unknown })
}

// The entry of a record, given by its number from 0, from the found indexes of the contracts of all records.
fn found_entry(found: &[u16], number: usize, position: &NumberedPosition) -> Entry
    requires { number < length found.now }
    ensures { result ≡ record { contract = slice_index_or found.now number 0; quantity = position.now.quantity } }
{
    Entry {
        contract: u32::from(found[number]),
        quantity: position.quantity,
    }
}

/// Returns the ledgers of `count` accounts from number `first` on, from the found indexes of the contracts of all
/// records. A contract that is not among the ids has the number of ids as its index. If the file is sorted by account,
/// each record of another account is read only once.
pub(crate) fn ledgers_from(
    alloc: Global,
    numbers: &IndexSet<Name>,
    found: &[u16],
    positions: &RawPositions,
    first: usize,
    count: usize,
) -> Result<Vec<Ledger>, AllocError>
    requires found { found.now ≡ map (λ p. contract_place numbers.now.keys p.contract) positions.now }
    requires within { first + count ≤ length (accounts_of positions.now) }
    ensures { IfOk result (λ ledgers. ledgers.items
        ≡ map (entries_of numbers.now.keys positions.now) (take count (drop first (accounts_of positions.now)))) }
{
    let records = positions.records();
    let start = records_before(records, first, count);
    let end = records_end(records, first, count).max(start);
    let mut ledgers = empty_ledgers(alloc, &records[start..end], first, count)?;
    for number in start..end {
        let position = &records[number];
        if is_of(position, first, count) {
            let place = position.account as usize - first;
            ledgers[place].push(found_entry(found, number, position))?;
        }
    }
    Ok(ledgers)
}
