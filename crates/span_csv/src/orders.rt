//! The reader of order files. Each record is read as a position under its order's name, and the account of each order
//! is kept next to it.
ghost use Rattle.std.specs.Prelude.{◌≡◌, ◌≤◌, ◌++◌, ◌∷◌, [], ⊤, IfOk, MatchBool, MatchResult, OnOk, Ok, Err, false, length, true};
ghost use Rattle.span_csv.specs.OrderFaults.{is_memory, orders_of};
ghost use Rattle.span_csv.specs.declared.faults.OrderFault.TheVariants as fault;
ghost use Rattle.span_csv.specs.near.OrderReading.{accounts_with, is_of_another, next_order, numbered_order, numbered_orders};
ghost use Rattle.span_csv.specs.near.RecordReading.{records_after};
ghost use Rattle.span_tables.specs.Gives.{Gives};
ghost use Rattle.span_tables.specs.Names.{is_name};
ghost use Rattle.span_tables.specs.near.Positions.{AreNumbered};
ghost use Rattle.span_tables.specs.declared.limits.TheConstants.{MAX_ORDERS};

use crate::faults::OrderFault;
use crate::numbered::{next_position, stands_at};
use crate::row::{Row, field};
use crate::rows::Rows;
use indexmap::IndexSet;
use span_tables::limits::MAX_ORDERS;
use span_tables::name::Name;
use span_tables::raw::{RawOrders, RawPositions};
use span_tables::records::NumberedPosition;
use std::alloc::Global;

// The number of names in a record before its quantity: the order's, the account's and the contract's.
const ORDER_NAMES: usize = 3;

// Takes the account that a record gives the order at an index. The first record of an order has the index after all
// known orders.
fn take_account(
    at: usize,
    accounts: &mut Vec<Name>,
    place: u16,
    account: &[u8],
) -> Result<(), OrderFault>
    requires name { is_name account.now ≡ true }
    requires known { place ≤ length accounts.old.items }
    ensures same { MatchResult result
        (λ _. is_of_another accounts.old.items place account.now ≡ false)
        (λ e. MatchBool (is_memory e) ⊤ ((e ≡ fault.SecondAccount at) × (is_of_another accounts.old.items place account.now ≡ true))) }
    ensures taken { OnOk result (accounts.new.items ≡ accounts_with accounts.old.items place account.now) }
{
    if place as usize == accounts.len() {
        accounts.push(Name::of(account))?;
        return Ok(());
    }
    if !stands_at(accounts, place, account) {
        return Err(OrderFault::SecondAccount { at });
    }
    Ok(())
}

// Returns the order record after the earlier ones, which are numbered by these orders. `accounts` has the account of
// each order.
fn next_order(
    earlier: &[NumberedPosition],
    orders: &mut IndexSet<Name>,
    accounts: &mut Vec<Name>,
    row: &Row,
) -> Result<NumberedPosition, OrderFault>
    requires numbered { AreNumbered orders.old.keys earlier.now }
    requires each { length accounts.old.items ≡ length orders.old.keys }
    ensures found { MatchResult result
        (λ p. next_order (numbered_orders orders.old.keys accounts.old.items earlier.now) row.now
        ≡ Ok (numbered_order orders.new.keys accounts.new.items p))
        (λ e. MatchBool (is_memory e) ⊤
        (next_order (numbered_orders orders.old.keys accounts.old.items earlier.now) row.now ≡ Err e)) }
    ensures named { IfOk result (λ p. numbered_orders orders.new.keys accounts.new.items (earlier.now ++ p ∷ [])
        ≡ numbered_orders orders.old.keys accounts.old.items earlier.now
        ++ numbered_order orders.new.keys accounts.new.items p ∷ []) }
    ensures numbered { IfOk result (λ p. AreNumbered orders.new.keys (earlier.now ++ p ∷ [])) }
    ensures each { OnOk result (length accounts.new.items ≡ length orders.new.keys) }
{
    let position = next_position(ORDER_NAMES, MAX_ORDERS, earlier, orders, row)?;
    take_account(earlier.len() + 1, accounts, position.account, field(row, 1))?;
    Ok(position)
}

// Appends each remaining row of a file to `records`. A new order is added to `orders`, and its account to `accounts`.
fn read_order_rows<'a>(
    rows: &mut Rows<'a>,
    row: &mut Row<'a>,
    orders: &mut IndexSet<Name>,
    accounts: &mut Vec<Name>,
    records: &mut Vec<NumberedPosition>,
) -> Result<(), OrderFault>
    requires numbered { AreNumbered orders.old.keys records.old.items }
    requires each { length accounts.old.items ≡ length orders.old.keys }
    ensures read { MatchResult result
        (λ _. records_after next_order (numbered_orders orders.old.keys accounts.old.items records.old.items) rows.old
        ≡ Ok (numbered_orders orders.new.keys accounts.new.items records.new.items))
        (λ e. MatchBool (is_memory e) ⊤
        (records_after next_order (numbered_orders orders.old.keys accounts.old.items records.old.items) rows.old ≡ Err e)) }
    ensures numbered { OnOk result (AreNumbered orders.new.keys records.new.items) }
    ensures each { OnOk result (length accounts.new.items ≡ length orders.new.keys) }
{
    while rows.next(row)? {
        let order = next_order(records, orders, accounts, row)?;
        records.push(order)?;
    }
    Ok(())
}

/// Reads the records of an order file. Fails with the lowest-numbered fault, O1 to O6, of the first record that has one
/// (docs/FORMATS.md, "Order file" and "Faults").
pub fn read_orders(alloc: Global, bytes: &[u8]) -> Result<RawOrders, OrderFault>
    ensures { Gives is_memory result (orders_of bytes.now) }
{
    let mut rows = Rows::new(alloc, bytes);
    let mut row = Row::new(alloc);
    let mut orders = IndexSet::new(alloc);
    let mut accounts: Vec<Name> = Vec::new(alloc);
    let mut records: Vec<NumberedPosition> = Vec::new(alloc);
    read_order_rows(
        &mut rows,
        &mut row,
        &mut orders,
        &mut accounts,
        &mut records,
    )?;
    Ok(RawOrders::new(RawPositions::new(orders, records), accounts))
}
