//! The faults with which files are rejected. `at` is the number of a record, starting with 1.
ghost use Rattle.span_csv.specs.declared.faults.OrderFault.TheVariants as order;
ghost use Rattle.span_csv.specs.declared.faults.ParamFault.TheVariants as param;
ghost use Rattle.span_csv.specs.declared.faults.PositionFault.TheVariants as position;
ghost use Rattle.std.specs.Prelude.{◌≡◌};

use std::alloc::{AllocError, AllocFailed};
use std::fmt;
use std::fmt::Display;
use thiserror::Error;

/// A reason to reject a parameter file.
#[derive(Clone, Copy, Debug, Drop, PartialEq, Eq, Error)]
pub enum ParamFault {
    /// P1: the first record is not a SET, or there is no record (`at` is then 0).
    NoSet { at: usize },
    /// P2: a SET that is not the first record.
    SecondSet { at: usize },
    /// P3: the first field names no kind of record.
    UnknownKind { at: usize },
    /// P4: the number of fields does not match the kind.
    FieldCount { at: usize },
    /// P5: an invalid name, currency, method, type or side.
    BadName { at: usize },
    /// P6: an invalid whole number, decimal or month.
    BadNumber { at: usize },
    /// P7: a number or month outside its range.
    OutOfRange { at: usize },
    /// P8: one record more than the limit.
    TooMany { at: usize },
    /// Out of memory.
    OutOfMemory,
}

/// A reason to reject a position file.
#[derive(Clone, Copy, Debug, Drop, PartialEq, Eq, Error)]
pub enum PositionFault {
    /// Q1: not three fields.
    FieldCount { at: usize },
    /// Q2: the account or the contract is not a name.
    BadName { at: usize },
    /// Q3: the quantity is not a whole number.
    BadNumber { at: usize },
    /// Q4: the quantity is outside its range.
    OutOfRange { at: usize },
    /// Q5: the first record of the first account beyond the limit.
    TooManyAccounts { at: usize },
    /// Out of memory.
    OutOfMemory,
}

/// A reason to reject an order file.
#[derive(Clone, Copy, Debug, Drop, PartialEq, Eq, Error)]
pub enum OrderFault {
    /// O1: not four fields.
    FieldCount { at: usize },
    /// O2: the order, the account or the contract is not a name.
    BadName { at: usize },
    /// O3: the quantity is not a whole number.
    BadNumber { at: usize },
    /// O4: the quantity is outside its range.
    OutOfRange { at: usize },
    /// O5: the first record of the first order beyond the limit.
    TooManyOrders { at: usize },
    /// O6: the account differs from the account of the order's first record.
    SecondAccount { at: usize },
    /// Out of memory.
    OutOfMemory,
}

impl Display for ParamFault {
    ghost use Rattle.span_csv.specs.FaultTexts.{param_text};
    ghost use Rattle.std.specs.Prelude.{Some};

    ghost output = { λ fault. Some (param_text fault) };

    fn fmt<W: fmt::Write>(&self, f: &mut fmt::Formatter<W>) -> fmt::Result {
        match self {
            ParamFault::NoSet { at } => write!(f, "P1 NoSet at record {at}"),
            ParamFault::SecondSet { at } => write!(f, "P2 SecondSet at record {at}"),
            ParamFault::UnknownKind { at } => write!(f, "P3 UnknownKind at record {at}"),
            ParamFault::FieldCount { at } => write!(f, "P4 FieldCount at record {at}"),
            ParamFault::BadName { at } => write!(f, "P5 BadName at record {at}"),
            ParamFault::BadNumber { at } => write!(f, "P6 BadNumber at record {at}"),
            ParamFault::OutOfRange { at } => write!(f, "P7 OutOfRange at record {at}"),
            ParamFault::TooMany { at } => write!(f, "P8 TooMany at record {at}"),
            ParamFault::OutOfMemory => write!(f, "memory"),
        }
    }
}

impl Display for PositionFault {
    ghost use Rattle.span_csv.specs.FaultTexts.{position_text};
    ghost use Rattle.std.specs.Prelude.{Some};

    ghost output = { λ fault. Some (position_text fault) };

    fn fmt<W: fmt::Write>(&self, f: &mut fmt::Formatter<W>) -> fmt::Result {
        match self {
            PositionFault::FieldCount { at } => write!(f, "Q1 FieldCount at record {at}"),
            PositionFault::BadName { at } => write!(f, "Q2 BadName at record {at}"),
            PositionFault::BadNumber { at } => write!(f, "Q3 BadNumber at record {at}"),
            PositionFault::OutOfRange { at } => write!(f, "Q4 OutOfRange at record {at}"),
            PositionFault::TooManyAccounts { at } => write!(f, "Q5 TooManyAccounts at record {at}"),
            PositionFault::OutOfMemory => write!(f, "memory"),
        }
    }
}

impl Display for OrderFault {
    ghost use Rattle.span_csv.specs.FaultTexts.{order_text};
    ghost use Rattle.std.specs.Prelude.{Some};

    ghost output = { λ fault. Some (order_text fault) };

    fn fmt<W: fmt::Write>(&self, f: &mut fmt::Formatter<W>) -> fmt::Result {
        match self {
            OrderFault::FieldCount { at } => write!(f, "O1 FieldCount at record {at}"),
            OrderFault::BadName { at } => write!(f, "O2 BadName at record {at}"),
            OrderFault::BadNumber { at } => write!(f, "O3 BadNumber at record {at}"),
            OrderFault::OutOfRange { at } => write!(f, "O4 OutOfRange at record {at}"),
            OrderFault::TooManyOrders { at } => write!(f, "O5 TooManyOrders at record {at}"),
            OrderFault::SecondAccount { at } => write!(f, "O6 SecondAccount at record {at}"),
            OrderFault::OutOfMemory => write!(f, "memory"),
        }
    }
}

impl From<AllocError> for ParamFault {
    ghost from_gives = { λ _ e. e ≡ param.OutOfMemory };

    fn from(_error: AllocError) -> ParamFault {
        ParamFault::OutOfMemory
    }
}

impl<T: Drop> From<AllocFailed<T>> for ParamFault {
    ghost from_gives = { λ _ e. e ≡ param.OutOfMemory };

    fn from(_error: AllocFailed<T>) -> ParamFault {
        ParamFault::OutOfMemory
    }
}

impl From<AllocError> for PositionFault {
    ghost from_gives = { λ _ e. e ≡ position.OutOfMemory };

    fn from(_error: AllocError) -> PositionFault {
        PositionFault::OutOfMemory
    }
}

impl<T: Drop> From<AllocFailed<T>> for PositionFault {
    ghost from_gives = { λ _ e. e ≡ position.OutOfMemory };

    fn from(_error: AllocFailed<T>) -> PositionFault {
        PositionFault::OutOfMemory
    }
}

/// Converts the fault that an order's record has as a position under its order's name.
impl From<PositionFault> for OrderFault {
    ghost use Rattle.span_csv.specs.near.OrderReading.{as_order_fault};

    ghost from_gives = { λ fault e. e ≡ as_order_fault fault };

    fn from(fault: PositionFault) -> OrderFault {
        match fault {
            PositionFault::FieldCount { at } => OrderFault::FieldCount { at },
            PositionFault::BadName { at } => OrderFault::BadName { at },
            PositionFault::BadNumber { at } => OrderFault::BadNumber { at },
            PositionFault::OutOfRange { at } => OrderFault::OutOfRange { at },
            PositionFault::TooManyAccounts { at } => OrderFault::TooManyOrders { at },
            PositionFault::OutOfMemory => OrderFault::OutOfMemory,
        }
    }
}

impl From<AllocError> for OrderFault {
    ghost from_gives = { λ _ e. e ≡ order.OutOfMemory };

    fn from(_error: AllocError) -> OrderFault {
        OrderFault::OutOfMemory
    }
}

impl<T: Drop> From<AllocFailed<T>> for OrderFault {
    ghost from_gives = { λ _ e. e ≡ order.OutOfMemory };

    fn from(_error: AllocFailed<T>) -> OrderFault {
        OrderFault::OutOfMemory
    }
}
