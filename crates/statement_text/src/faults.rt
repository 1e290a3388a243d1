//! Why there is no statement, and the exit status for it (docs/FORMATS.md, Fault lines and statuses).
ghost use Rattle.statement_text.specs.FaultLines.{fault_status, is_memory};
ghost use Rattle.binding.specs.Binding as bind;
ghost use Rattle.param_check.specs.CheckFaults as check;
ghost use Rattle.binding.specs.OrderBinding as bind_orders;
ghost use Rattle.span_csv.specs.OrderFaults as orders;
ghost use Rattle.span_csv.specs.ParamFaults as params;
ghost use Rattle.span_csv.specs.PositionFaults as positions;
ghost use Rattle.statement_text.specs.near.SpanFaults.{of_book, of_shelf, of_stage};
ghost use Rattle.statement_text.specs.declared.faults.SpanFault.TheVariants as fault;
ghost use Rattle.std.specs.Prelude.{◌≡◌};

use crate::statuses::{BOOK_REFUSED, OUT_OF_MEMORY, PARAMETERS_REFUSED, POSITIONS_REFUSED, USAGE};
use binding::faults::{BindFault, OrderBindFault};
use param_check::faults::CheckFault;
use plan_shelf::faults::{NotPublished, ShelfFault};
use result_book::books::BookFault;
use span_csv::faults::{OrderFault, ParamFault, PositionFault};
use span_tables::name::Name;
use std::alloc::AllocError;
use std::fmt;
use std::fmt::Display;
use thiserror::Error;

/// Why there is no statement.
#[derive(Debug, Drop, PartialEq, Eq, Error)]
pub enum SpanFault {
    /// The parameter file cannot be read.
    Params(ParamFault),
    /// The records of the parameter file break a rule.
    Check(CheckFault),
    /// The position file cannot be read.
    Positions(PositionFault),
    /// The positions do not fit the tables.
    Bind(BindFault),
    /// The order file cannot be read.
    Orders(OrderFault),
    /// The orders do not fit the tables and the accounts.
    BindOrders(OrderBindFault),
    /// The parameter file of the next parameter set cannot be read.
    NextParams(ParamFault),
    /// The records of the next parameter file break a rule.
    NextCheck(CheckFault),
    /// The positions do not fit the tables of the next parameter set.
    NextBind(BindFault),
    /// E1: no accepted position record has this account.
    UnknownAccount { account: Name },
    /// The number of workers is 0 or over 16.
    Workers,
    /// The book has no number left for a batch, or cannot take its rows.
    Book(BookFault),
    /// The current parameter set of the shelf is not the next one.
    Shelf,
    /// Out of memory.
    Memory,
}

impl Display for SpanFault {
    ghost use Rattle.statement_text.specs.FaultLines.{fault_text};
    ghost use Rattle.std.specs.Prelude.{Some};

    ghost output = { λ fault. Some (fault_text fault) };

    fn fmt<W: fmt::Write>(&self, f: &mut fmt::Formatter<W>) -> fmt::Result {
        match self {
            SpanFault::Params(fault) => write!(f, "parameters: {fault}"),
            SpanFault::Check(fault) => write!(f, "parameters: {fault}"),
            SpanFault::Positions(fault) => write!(f, "positions: {fault}"),
            SpanFault::Bind(fault) => write!(f, "positions: {fault}"),
            SpanFault::Orders(fault) => write!(f, "orders: {fault}"),
            SpanFault::BindOrders(fault) => write!(f, "orders: {fault}"),
            SpanFault::NextParams(fault) => write!(f, "next parameters: {fault}"),
            SpanFault::NextCheck(fault) => write!(f, "next parameters: {fault}"),
            SpanFault::NextBind(fault) => write!(f, "next positions: {fault}"),
            SpanFault::UnknownAccount { account } => {
                write!(f, "positions: E1 UnknownAccount account {account}")
            }
            SpanFault::Workers => write!(f, "workers: L1 Workers"),
            SpanFault::Book(fault) => write!(f, "book: {fault}"),
            SpanFault::Shelf => write!(f, "shelf"),
            SpanFault::Memory => write!(f, "memory"),
        }
    }
}

impl From<ParamFault> for SpanFault {
    ghost from_gives = { λ e answer. answer ≡ of_stage params.is_memory fault.Params e };

    fn from(error: ParamFault) -> SpanFault {
        match error {
            ParamFault::OutOfMemory => SpanFault::Memory,
            fault => SpanFault::Params(fault),
        }
    }
}

impl From<CheckFault> for SpanFault {
    ghost from_gives = { λ e answer. answer ≡ of_stage check.is_memory fault.Check e };

    fn from(error: CheckFault) -> SpanFault {
        match error {
            CheckFault::OutOfMemory => SpanFault::Memory,
            fault => SpanFault::Check(fault),
        }
    }
}

impl From<PositionFault> for SpanFault {
    ghost from_gives = { λ e answer. answer ≡ of_stage positions.is_memory fault.Positions e };

    fn from(error: PositionFault) -> SpanFault {
        match error {
            PositionFault::OutOfMemory => SpanFault::Memory,
            fault => SpanFault::Positions(fault),
        }
    }
}

impl From<BindFault> for SpanFault {
    ghost from_gives = { λ e answer. answer ≡ of_stage bind.is_memory fault.Bind e };

    fn from(error: BindFault) -> SpanFault {
        match error {
            BindFault::OutOfMemory => SpanFault::Memory,
            fault => SpanFault::Bind(fault),
        }
    }
}

impl From<OrderFault> for SpanFault {
    ghost from_gives = { λ e answer. answer ≡ of_stage orders.is_memory fault.Orders e };

    fn from(error: OrderFault) -> SpanFault {
        match error {
            OrderFault::OutOfMemory => SpanFault::Memory,
            fault => SpanFault::Orders(fault),
        }
    }
}

impl From<OrderBindFault> for SpanFault {
    ghost from_gives = { λ e answer. answer ≡ of_stage bind_orders.is_memory fault.BindOrders e };

    fn from(error: OrderBindFault) -> SpanFault {
        match error {
            OrderBindFault::OutOfMemory => SpanFault::Memory,
            fault => SpanFault::BindOrders(fault),
        }
    }
}

impl From<BookFault> for SpanFault {
    ghost from_gives = { λ e answer. answer ≡ of_book e };

    fn from(error: BookFault) -> SpanFault {
        match error {
            BookFault::OutOfMemory => SpanFault::Memory,
            fault => SpanFault::Book(fault),
        }
    }
}

impl From<ShelfFault> for SpanFault {
    ghost from_gives = { λ e answer. answer ≡ of_shelf e };

    fn from(error: ShelfFault) -> SpanFault {
        match error {
            ShelfFault::OutOfMemory => SpanFault::Memory,
            ShelfFault::Readers | ShelfFault::Last => SpanFault::Shelf,
        }
    }
}

impl From<NotPublished> for SpanFault {
    ghost from_gives = { λ e answer. answer ≡ of_shelf e.cause };

    fn from(error: NotPublished) -> SpanFault {
        SpanFault::from(error.cause)
    }
}

impl From<AllocError> for SpanFault {
    ghost from_gives = { λ _ answer. answer ≡ fault.Memory };

    fn from(_error: AllocError) -> SpanFault {
        SpanFault::Memory
    }
}

impl SpanFault {
    /// Returns whether memory ran out, in any stage.
    pub fn is_memory(&self) -> bool
        ensures { result ≡ is_memory self.now }
    {
        match self {
            SpanFault::Params(ParamFault::OutOfMemory)
            | SpanFault::Check(CheckFault::OutOfMemory)
            | SpanFault::Positions(PositionFault::OutOfMemory)
            | SpanFault::Bind(BindFault::OutOfMemory)
            | SpanFault::Orders(OrderFault::OutOfMemory)
            | SpanFault::BindOrders(OrderBindFault::OutOfMemory)
            | SpanFault::NextParams(ParamFault::OutOfMemory)
            | SpanFault::NextCheck(CheckFault::OutOfMemory)
            | SpanFault::NextBind(BindFault::OutOfMemory)
            | SpanFault::Book(BookFault::OutOfMemory)
            | SpanFault::Memory => true,
            _ => false,
        }
    }
}

/// Returns the exit status of a fault: for rejected parameters, rejected positions or orders, a usage error, an error
/// of a book or shelf, or out of memory.
pub fn status(fault: &SpanFault) -> u8
    ensures { result ≡ fault_status fault.now }
{
    if fault.is_memory() {
        return OUT_OF_MEMORY;
    }
    match fault {
        SpanFault::Params(_)
        | SpanFault::Check(_)
        | SpanFault::NextParams(_)
        | SpanFault::NextCheck(_) => PARAMETERS_REFUSED,
        SpanFault::Positions(_)
        | SpanFault::Bind(_)
        | SpanFault::Orders(_)
        | SpanFault::BindOrders(_)
        | SpanFault::NextBind(_)
        | SpanFault::UnknownAccount { .. } => POSITIONS_REFUSED,
        SpanFault::Workers => USAGE,
        SpanFault::Book(_) | SpanFault::Shelf => BOOK_REFUSED,
        SpanFault::Memory => OUT_OF_MEMORY,
    }
}
