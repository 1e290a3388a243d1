//! The records of a file, as the reader returns them.
ghost use Rattle.std.specs.Prelude.{◌≡◌, ◌<◌, ◌≤◌, All, length, map, nat_abs, true};
ghost use Rattle.span_tables.specs.near.Limits.{is_readable};
ghost use Rattle.span_tables.specs.Net.{accounts_of};
ghost use Rattle.span_tables.specs.Orders.{account_of_order, orders_in};
ghost use Rattle.span_tables.specs.near.Orders.{order_records, under_order};
ghost use Rattle.span_tables.specs.near.Positions.{named_positions, AreNumbered};
ghost use Rattle.span_tables.specs.declared.limits.TheConstants.{MAX_ORDERS, MAX_QUANTITY};

use crate::name::Name;
use crate::records::{NumberedPosition, Record};
use indexmap::IndexSet;
use std::marker::Model;

/// The records of a parameter file without a fault, in file order. In contract clauses it is the list of records.
///
/// Records are numbered from 1 in file order.
#[derive(Drop)]
pub struct RawTables {
    records: Vec<Record>,
}

impl Model for RawTables {
    ghost use Rattle.std.specs.Prelude.{◌≡◌, List, true};
    ghost use Rattle.span_tables.specs.near.Limits.{is_readable};
    ghost use Rattle.span_tables.specs.declared.records.Record.{Record};

    ghost Value = { List Record };

    ghost view = { λ raw. raw.records.items };

    ghost invariant = { λ raw. is_readable raw.records.items ≡ true };
}

impl RawTables {
    /// Returns the records of a file. Each is in its ranges, the number of each kind is within its limit, and option
    /// values are present only under a profile that has them.
    pub fn new(records: Vec<Record>) -> RawTables
        requires { is_readable records.items ≡ true }
        ensures { result ≡ records.items }
    {
        RawTables { records }
    }

    /// Returns the records in file order.
    pub fn records(&self) -> &[Record]
        ensures value { result.now ≡ self.now }
        ensures readable { is_readable self.now ≡ true }
    {
        &self.records
    }

    /// Returns the records in file order, by value.
    pub fn into_records(self) -> Vec<Record>
        ensures value { result.items ≡ self }
        ensures readable { is_readable self ≡ true }
    {
        self.records
    }
}

/// The records of a position file without a fault, in file order. In contract clauses it is the list of records, each
/// with the name of its account.
///
/// Records are numbered from 1 in file order.
#[derive(Drop)]
pub struct RawPositions {
    accounts: IndexSet<Name>,
    records: Vec<NumberedPosition>,
}

impl Model for RawPositions {
    ghost use Rattle.std.specs.Prelude.{List};
    ghost use Rattle.span_tables.specs.near.Positions.{named_positions, AreNumbered};
    ghost use Rattle.span_tables.specs.declared.records.PositionRecord.{PositionRecord};

    ghost Value = { List PositionRecord };

    ghost view = { λ raw. named_positions raw.accounts.keys raw.records.items };

    ghost invariant = { λ raw. AreNumbered raw.accounts.keys raw.records.items };
}

impl RawPositions {
    /// Returns the records of a file, numbered by these accounts.
    pub fn new(accounts: IndexSet<Name>, records: Vec<NumberedPosition>) -> RawPositions
        requires { AreNumbered accounts.keys records.items }
        ensures { result ≡ named_positions accounts.keys records.items }
    {
        RawPositions { accounts, records }
    }

    /// Returns the accounts in the order of first appearance. A record refers to its account by index in this list.
    pub fn accounts(&self) -> &[Name]
        ensures value { result.now ≡ accounts_of self.now }
        ensures few { length result.now ≤ MAX_ORDERS }
    {
        self.accounts.as_slice()
    }

    /// Returns the records in file order, with the numbers of their accounts.
    pub fn records(&self) -> &[NumberedPosition]
        ensures value { named_positions (accounts_of self.now) result.now ≡ self.now }
        ensures known { All (λ p. p.account < length (accounts_of self.now)) result.now }
        ensures small { All (λ p. nat_abs p.quantity ≤ MAX_QUANTITY) result.now }
    {
        &self.records
    }

    /// Returns the records in file order, by value, with the numbers of their accounts.
    pub fn into_records(self) -> Vec<NumberedPosition>
        ensures value { named_positions (accounts_of self) result.items ≡ self }
        ensures known { All (λ p. p.account < length (accounts_of self)) result.items }
        ensures small { All (λ p. nat_abs p.quantity ≤ MAX_QUANTITY) result.items }
    {
        self.records
    }
}

/// The records of an order file without a fault, in file order. In contract clauses it is the list of records.
///
/// Records are numbered from 1 in file order.
#[derive(Drop)]
pub struct RawOrders {
    // The records as positions that have the names of their orders as accounts.
    by_order: RawPositions,
    // The account of each order.
    accounts: Vec<Name>,
}

impl Model for RawOrders {
    ghost use Rattle.std.specs.Prelude.{◌≡◌, List, length};
    ghost use Rattle.span_tables.specs.Net.{accounts_of};
    ghost use Rattle.span_tables.specs.near.Orders.{order_records};
    ghost use Rattle.span_tables.specs.declared.records.OrderRecord.{OrderRecord};

    ghost Value = { List OrderRecord };

    ghost view = { λ raw. order_records raw.accounts.items raw.by_order };

    ghost invariant = { λ raw. length raw.accounts.items ≡ length (accounts_of raw.by_order) };
}

impl RawOrders {
    /// Returns the records of a file, given as positions that have the names of their orders as accounts, with the
    /// account of each order.
    pub fn new(by_order: RawPositions, accounts: Vec<Name>) -> RawOrders
        requires { length accounts.items ≡ length (accounts_of by_order) }
        ensures { result ≡ order_records accounts.items by_order }
    {
        RawOrders { by_order, accounts }
    }

    /// Returns the records in file order as positions that have the names of their orders as accounts.
    pub fn by_order(&self) -> &RawPositions
        ensures { result.now ≡ map under_order self.now }
    {
        &self.by_order
    }

    /// Returns the account of each order, with the orders in the order of first appearance. All records of an order
    /// have the same account.
    pub fn accounts(&self) -> &[Name]
        ensures value { result.now ≡ map (account_of_order self.now) (orders_in self.now) }
        ensures one { All (λ r. r.account ≡ account_of_order self.now r.order) self.now }
    {
        &self.accounts
    }
}
