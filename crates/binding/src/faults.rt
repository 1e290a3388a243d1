//! The reasons why positions and orders do not fit accepted tables. `at` is a record's number, from 1.
ghost use Rattle.binding.specs.declared.faults.BindFault.TheVariants as bind;
ghost use Rattle.binding.specs.declared.faults.OrderBindFault.TheVariants as order;
ghost use Rattle.std.specs.Prelude.{◌≡◌};

use span_tables::name::Name;
use std::alloc::AllocError;
use std::fmt;
use std::fmt::Display;
use thiserror::Error;

/// The reasons why positions do not fit the tables.
#[derive(Debug, Drop, PartialEq, Eq, Error)]
pub enum BindFault {
    /// B1: a contract that the tables do not have.
    UnknownContract { at: usize, account: Name },
    /// B2: a net quantity out of range.
    NetOutOfRange { at: usize, account: Name },
    /// B3: too many contracts held.
    TooManyHeld { at: usize, account: Name },
    /// Out of memory.
    OutOfMemory,
}

/// The reasons why orders do not fit the tables and the portfolios of accounts.
#[derive(Debug, Drop, PartialEq, Eq, Error)]
pub enum OrderBindFault {
    /// B1: a contract that the tables do not have.
    UnknownContract { at: usize, order: Name },
    /// B2: a net quantity of the account, with the order, out of range.
    NetOutOfRange { at: usize, order: Name },
    /// B3: too many contracts held, with the order.
    TooManyHeld { at: usize, order: Name },
    /// Out of memory.
    OutOfMemory,
}

impl Display for BindFault {
    ghost use Rattle.binding.specs.BindTexts.{bind_text};
    ghost use Rattle.std.specs.Prelude.{Some};

    ghost output = { λ fault. Some (bind_text fault) };

    fn fmt<W: fmt::Write>(&self, f: &mut fmt::Formatter<W>) -> fmt::Result {
        match self {
            BindFault::UnknownContract { at, account } => write!(
                f,
                "B1 UnknownContract at record {at} account {account}"
            ),
            BindFault::NetOutOfRange { at, account } => write!(
                f,
                "B2 NetOutOfRange at record {at} account {account}"
            ),
            BindFault::TooManyHeld { at, account } => write!(
                f,
                "B3 TooManyHeld at record {at} account {account}"
            ),
            BindFault::OutOfMemory => write!(f, "memory"),
        }
    }
}

impl Display for OrderBindFault {
    ghost use Rattle.binding.specs.BindTexts.{order_bind_text};
    ghost use Rattle.std.specs.Prelude.{Some};

    ghost output = { λ fault. Some (order_bind_text fault) };

    fn fmt<W: fmt::Write>(&self, f: &mut fmt::Formatter<W>) -> fmt::Result {
        match self {
            OrderBindFault::UnknownContract { at, order } => write!(
                f,
                "B1 UnknownContract at record {at} order {order}"
            ),
            OrderBindFault::NetOutOfRange { at, order } => write!(
                f,
                "B2 NetOutOfRange at record {at} order {order}"
            ),
            OrderBindFault::TooManyHeld { at, order } => write!(
                f,
                "B3 TooManyHeld at record {at} order {order}"
            ),
            OrderBindFault::OutOfMemory => write!(f, "memory"),
        }
    }
}

impl From<AllocError> for BindFault {
    ghost from_gives = { λ _ e. e ≡ bind.OutOfMemory };

    fn from(_error: AllocError) -> BindFault {
        BindFault::OutOfMemory
    }
}

impl From<AllocError> for OrderBindFault {
    ghost from_gives = { λ _ e. e ≡ order.OutOfMemory };

    fn from(_error: AllocError) -> OrderBindFault {
        OrderBindFault::OutOfMemory
    }
}
