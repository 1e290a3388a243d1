//! Why a request is rejected, and the text of its answer.

use crate::faults::RequestFault;
use span_tables::name::Name;
use statement_text::faults::SpanFault;
use std::alloc::AllocError;
use std::fmt;
use std::fmt::Display;
use thiserror::Error;

/// Why a request is rejected. A rejected request changes nothing. `field` counts the fields of the request from 1.
#[derive(Debug, Drop, Error)]
pub enum Refusal<'a> {
    /// X1 to X6: the line is not a valid request.
    Form(RequestFault),
    /// E1: no account has this name.
    UnknownAccount,
    /// Q5: the account is new, and there are as many accounts as the limit allows.
    TooManyAccounts,
    /// B1: the parameter set lacks a contract.
    UnknownContract { field: u128 },
    /// B2: a net of the account would be out of range.
    NetOutOfRange { field: u128 },
    /// B3: the account would hold too many contracts.
    TooManyHeld { field: u128 },
    /// The parameter file cannot be read, or breaks a rule.
    Parameters(SpanFault),
    /// B1: the parameter file lacks a contract that an account holds.
    Lost { account: Name, contract: Name },
    /// The file with this name cannot be read.
    File { name: &'a str },
    /// Out of memory.
    Memory,
}

impl Display for Refusal<'_> {
    ghost use Rattle.session.specs.Refusals.{refusal_text, refused_by};
    ghost use Rattle.std.specs.Prelude.{Some};

    ghost output = { λ refusal. Some (refusal_text (refused_by refusal)) };

    fn fmt<W: fmt::Write>(&self, f: &mut fmt::Formatter<W>) -> fmt::Result {
        match self {
            Refusal::Form(fault) => write!(f, "{fault}"),
            Refusal::UnknownAccount => write!(f, "request: E1 UnknownAccount at field 2"),
            Refusal::TooManyAccounts => write!(f, "request: Q5 TooManyAccounts at field 2"),
            Refusal::UnknownContract { field } => {
                write!(f, "request: B1 UnknownContract at field {field}")
            }
            Refusal::NetOutOfRange { field } => {
                write!(f, "request: B2 NetOutOfRange at field {field}")
            }
            Refusal::TooManyHeld { field } => {
                write!(f, "request: B3 TooManyHeld at field {field}")
            }
            Refusal::Parameters(fault) => write!(f, "{fault}"),
            Refusal::Lost { account, contract } => write!(
                f,
                "positions: B1 UnknownContract account {account} contract {contract}"
            ),
            Refusal::File { name } => write!(f, "file: {name}"),
            Refusal::Memory => write!(f, "memory"),
        }
    }
}

impl From<AllocError> for Refusal<'_> {
    ghost use Rattle.session.specs.declared.refusals.Refusal.TheVariants as refusal;
    ghost use Rattle.std.specs.Prelude.{◌≡◌};

    ghost from_gives = { λ _ e. e ≡ refusal.Memory };

    fn from(_error: AllocError) -> Self {
        Refusal::Memory
    }
}
