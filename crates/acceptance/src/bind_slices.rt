//! Positions that are bound by several threads.
ghost use Rattle.binding.specs.Binding.{bindings_of, is_memory};
ghost use Rattle.binding.specs.near.Ledgers.{contract_place, slice_nets};
ghost use Rattle.span_tables.specs.Gives.{Gives};
ghost use Rattle.span_tables.specs.Net.{accounts_of};
ghost use Rattle.span_tables.specs.declared.limits.TheConstants.{MAX_ORDERS};
ghost use Rattle.std.specs.Prelude.{◌≡◌, ◌≤◌, ◌+◌, IfOk, length, map};

use crate::slices::cut_at;
use binding::binder::Binder;
use binding::faults::BindFault;
use binding::nets::AccountNets;
use binding::positions::bind;
use span_tables::portfolios::Portfolios;
use span_tables::raw::RawPositions;
use span_tables::records::NumberedPosition;
use span_tables::tables::Tables;
use std::alloc::{AllocError, Global};
use std::thread;
use std::thread::Threads;

// The minimum number of records for each slice.
const SLICE_RECORDS: usize = 2048;

// The indices of the contracts of records. They are looked up in this many slices, each in its own thread if one can be
// started.
#[cycle(find)]
fn find_in_slices<R: Threads + Sync>(
    rt: &R,
    alloc: Global,
    binder: &Binder,
    records: &[NumberedPosition],
    slices: usize,
) -> Result<Vec<u16>, AllocError>
    ensures { IfOk result (λ found. found.items ≡ map (λ p. contract_place binder.now p.contract) records.now) }
{
    if slices < 2 {
        return binder.find(alloc, records);
    }
    let half = slices / 2;
    let rest = slices - half;
    let (front, back) = records.split_at(cut_at(records.len(), half, slices));
    let (first, second) = thread::join(
        rt,
        || -> Result<Vec<u16>, AllocError>
            ensures { IfOk result (λ found. found.items ≡ map (λ p. contract_place binder.entry.now p.contract) front.entry.now) }
        { find_in_slices(rt, alloc, binder, front, half) },
        || -> Result<Vec<u16>, AllocError>
            ensures { IfOk result (λ found. found.items ≡ map (λ p. contract_place binder.entry.now p.contract) back.entry.now) }
        { find_in_slices(rt, alloc, binder, back, rest) },
    );
    let mut found = first?;
    found.append(&mut second?)?;
    Ok(found)
}

// The holdings of a range of accounts. They are added up in this many slices, each in its own thread if one can be
// started.
#[cycle(nets)]
fn nets_in_slices<R: Threads + Sync>(
    rt: &R,
    alloc: Global,
    binder: &Binder,
    found: &[u16],
    positions: &RawPositions,
    from: usize,
    count: usize,
    slices: usize,
) -> Result<Vec<AccountNets>, AllocError>
    requires found { found.now ≡ map (λ p. contract_place binder.now p.contract) positions.now }
    requires within { from + count ≤ length (accounts_of positions.now) }
    requires few { length (accounts_of positions.now) ≤ MAX_ORDERS }
    ensures { IfOk result (λ nets. nets.items ≡ slice_nets binder.now positions.now from count) }
{
    if slices < 2 {
        return binder.nets(alloc, found, positions, from, count);
    }
    let half = slices / 2;
    let rest = slices - half;
    let front = cut_at(count, half, slices);
    let back = count - front;
    let cut = from + front;
    let (first, second) = thread::join(
        rt,
        || -> Result<Vec<AccountNets>, AllocError>
            requires { (found.now ≡ map (λ p. contract_place binder.now p.contract) positions.now)
                × (from + front ≤ length (accounts_of positions.now)) × (length (accounts_of positions.now) ≤ MAX_ORDERS) }
            ensures { IfOk result (λ nets. nets.items ≡ slice_nets binder.entry.now positions.entry.now from front) }
        { nets_in_slices(rt, alloc, binder, found, positions, from, front, half) },
        || -> Result<Vec<AccountNets>, AllocError>
            requires { (found.now ≡ map (λ p. contract_place binder.now p.contract) positions.now)
                × (cut + back ≤ length (accounts_of positions.now)) × (length (accounts_of positions.now) ≤ MAX_ORDERS) }
            ensures { IfOk result (λ nets. nets.items ≡ slice_nets binder.entry.now positions.entry.now cut back) }
        { nets_in_slices(rt, alloc, binder, found, positions, cut, back, rest) },
    );
    let mut nets = first?;
    nets.append(&mut second?)?;
    Ok(nets)
}

// The holdings of each account, or the fault of the positions, as [`bind`] returns them, computed in this many slices.
// If a record has an unknown contract, `bind` finds the fault.
fn bind_in_slices<R: Threads + Sync>(
    rt: &R,
    alloc: Global,
    tables: &Tables,
    positions: &RawPositions,
    slices: usize,
) -> Result<Portfolios, BindFault>
    ensures { Gives is_memory result (bindings_of tables.now.contracts positions.now) }
{
    let binder = Binder::new(alloc, tables)?;
    let found = find_in_slices(rt, alloc, &binder, positions.records(), slices)?;
    if !binder.knows_all(&found) {
        return bind(alloc, tables, positions);
    }
    let accounts = positions.accounts().len();
    let nets = nets_in_slices(rt, alloc, &binder, &found, positions, 0, accounts, slices)?;
    binder.bound(alloc, nets, positions)
}

/// Returns the holdings of each account, or the fault of the positions, as [`bind`] does. For a large position file,
/// the contracts are looked up and the nets added up in at most as many slices as there are workers, each in its own
/// thread if one can be started.
pub(crate) fn bind_together<R: Threads + Sync>(
    rt: &R,
    alloc: Global,
    tables: &Tables,
    positions: &RawPositions,
    workers: usize,
) -> Result<Portfolios, BindFault>
    ensures { Gives is_memory result (bindings_of tables.now.contracts positions.now) }
{
    let slices = workers.min(positions.records().len() / SLICE_RECORDS);
    if slices < 2 {
        return bind(alloc, tables, positions);
    }
    bind_in_slices(rt, alloc, tables, positions, slices)
}
