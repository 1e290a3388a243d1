//! Why a request is rejected. `field` counts the fields of its line from 1.
use std::alloc::AllocError;
use std::fmt;
use std::fmt::Display;
use thiserror::Error;

/// Why a line is not a valid request. If a line has several faults, the lowest-numbered one is reported.
#[derive(Clone, Copy, Debug, Drop, PartialEq, Eq, Error)]
pub enum RequestFault {
    /// X1: the line has more than 4096 bytes.
    LineTooLong,
    /// X2: the first field is not the name of a request.
    UnknownRequest,
    /// X3: a request with this name cannot have this number of fields.
    FieldCount,
    /// X4: the name of an order, account or contract is malformed, or a file name is empty or not UTF-8.
    BadName { field: usize },
    /// X5: a quantity is not a whole number.
    BadNumber { field: usize },
    /// X6: a quantity is out of range.
    OutOfRange { field: usize },
    /// Out of memory.
    OutOfMemory,
}

impl Display for RequestFault {
    ghost use Rattle.session.specs.Refusals.{form_text};
    ghost use Rattle.std.specs.Prelude.{Some};

    ghost output = { λ fault. Some (form_text fault) };

    fn fmt<W: fmt::Write>(&self, f: &mut fmt::Formatter<W>) -> fmt::Result {
        match self {
            RequestFault::LineTooLong => write!(f, "request: X1 LineTooLong at field 0"),
            RequestFault::UnknownRequest => write!(f, "request: X2 UnknownRequest at field 1"),
            RequestFault::FieldCount => write!(f, "request: X3 FieldCount at field 0"),
            RequestFault::BadName { field } => write!(f, "request: X4 BadName at field {field}"),
            RequestFault::BadNumber { field } => {
                write!(f, "request: X5 BadNumber at field {field}")
            }
            RequestFault::OutOfRange { field } => {
                write!(f, "request: X6 OutOfRange at field {field}")
            }
            RequestFault::OutOfMemory => write!(f, "memory"),
        }
    }
}

impl From<AllocError> for RequestFault {
    ghost use Rattle.session.specs.declared.faults.RequestFault.TheVariants as fault;
    ghost use Rattle.std.specs.Prelude.{◌≡◌};

    ghost from_gives = { λ _ e. e ≡ fault.OutOfMemory };

    fn from(_error: AllocError) -> RequestFault {
        RequestFault::OutOfMemory
    }
}
