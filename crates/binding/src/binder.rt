//! The binding of positions in steps. Steps over slices of the records, or of the accounts, can run concurrently.
ghost use Rattle.std.specs.Prelude.{◌≡◌, ◌+◌, ◌≤◌, IfOk, List, length, map, not};
ghost use Rattle.std.specs.List.{list_any};
ghost use Rattle.binding.specs.Binding.{bindings_of, is_memory};
ghost use Rattle.binding.specs.near.Holdings.{ids_of};
ghost use Rattle.binding.specs.near.Ledgers.{contract_place, is_foreign, slice_nets, AreNets};
ghost use Rattle.span_tables.specs.Gives.{Gives};
ghost use Rattle.span_tables.specs.Net.{accounts_of};
ghost use Rattle.span_tables.specs.declared.records.Contract.{Contract};
ghost use Rattle.span_tables.specs.declared.records.PositionRecord.{PositionRecord};

use crate::contract_ids::{all_below, ids_of, places_found};
use crate::faults::BindFault;
use crate::ledgers::ledgers_from;
use crate::nets::{AccountNets, all_nets};
use crate::positions::portfolios_or_fault;
use indexmap::IndexSet;
use span_tables::name::Name;
use span_tables::portfolios::Portfolios;
use span_tables::raw::RawPositions;
use span_tables::records::NumberedPosition;
use span_tables::tables::Tables;
use std::alloc::{AllocError, Global};
use std::marker::Model;

/// The ids of the contracts that positions are bound to, by contract number. Contracts see the list of the ids.
///
/// If all contracts are known, four steps bind a position file as [`bind`](crate::positions::bind) does:
///
/// - [`find`](Binder::find), on slices of the records
/// - [`knows_all`](Binder::knows_all)
/// - [`nets`](Binder::nets), on slices of the accounts
/// - [`bound`](Binder::bound)
#[derive(Drop)]
pub struct Binder {
    numbers: IndexSet<Name>,
}

impl Model for Binder {
    ghost use Rattle.std.specs.Prelude.{ℕ, List};
    ghost use Rattle.binding.specs.near.Ledgers.{AreNumbers};

    ghost Value = { List (List ℕ) };

    ghost view = { λ binder. binder.numbers.keys };

    ghost invariant = { λ binder. AreNumbers binder.numbers.keys };
}

impl Binder {
    /// Returns a binder to the contracts of these tables. `Err` is out of memory.
    pub fn new(alloc: Global, tables: &Tables) -> Result<Binder, AllocError>
        ensures { IfOk result (λ binder. binder ≡ ids_of tables.now.contracts) }
    {
        let numbers = ids_of(alloc, tables)?;
        Ok(Binder { numbers })
    }

    /// Returns the index of each record's contract among the ids. An unknown contract has the number of ids instead.
    pub fn find(&self, alloc: Global, records: &[NumberedPosition]) -> Result<Vec<u16>, AllocError>
        ensures { IfOk result (λ found. found.items ≡ map (λ p. contract_place self.now p.contract) records.now) }
    {
        places_found(alloc, &self.numbers, records)
    }

    /// Returns whether all records are of known contracts, from the indexes of their contracts.
    pub fn knows_all(&self, found: &[u16]) -> bool
        ensures { (positions : List PositionRecord) → found.now ≡ map (λ p. contract_place self.now p.contract) positions
            → result ≡ not (list_any (is_foreign self.now) positions) }
    {
        all_below(found, self.numbers.len())
    }

    /// Returns the holdings of `count` accounts from number `first` on, with nets of any size. `found` has the indexes
    /// of the contracts of all records.
    #[tactic(auto, unfolding(crate::specs::near::Ledgers::slice_nets))]
    pub fn nets(
        &self,
        alloc: Global,
        found: &[u16],
        positions: &RawPositions,
        first: usize,
        count: usize,
    ) -> Result<Vec<AccountNets>, AllocError>
        requires found { found.now ≡ map (λ p. contract_place self.now p.contract) positions.now }
        requires within { first + count ≤ length (accounts_of positions.now) }
        ensures { IfOk result (λ nets. nets.items ≡ slice_nets self.now positions.now first count) }
    {
        let ledgers = ledgers_from(alloc, &self.numbers, found, positions, first, count)?;
        all_nets(alloc, &self.numbers, ledgers)
    }

    /// Returns the holdings of each account, from the nets of all accounts, or the fault of the positions (B2 or B3).
    pub fn bound(
        &self,
        alloc: Global,
        nets: Vec<AccountNets>,
        positions: &RawPositions,
    ) -> Result<Portfolios, BindFault>
        requires { AreNets self.now positions.now nets.items }
        ensures { (contracts : List Contract) → ids_of contracts ≡ self.now
            → Gives is_memory result (bindings_of contracts positions.now) }
    {
        portfolios_or_fault(alloc, &self.numbers, Vec::new(alloc), nets, positions)
    }
}
