//! The rules that the records of a parameter file can break. `at` is the number of a record, starting with 1.
ghost use Rattle.param_check.specs.declared.faults.CheckFault.TheVariants as check;
ghost use Rattle.std.specs.Prelude.{◌≡◌};

pub use binding::faults::{BindFault, OrderBindFault};
use std::alloc::AllocError;
use std::fmt;
use std::fmt::Display;
use thiserror::Error;

/// A rule that a record of a parameter file breaks.
#[derive(Clone, Copy, Debug, Drop, PartialEq, Eq, Error)]
pub enum CheckFault {
    /// C1: the record has the id of an earlier COMMODITY.
    DuplicateCommodity { at: usize },
    /// C2: a commodity without a COMMODITY record.
    UnknownCommodity { at: usize },
    /// C3: the record has the id of an earlier CONTRACT.
    DuplicateContract { at: usize },
    /// C4: the record has the commodity and number of an earlier TIER.
    DuplicateTier { at: usize },
    /// C5: the first month is after the last.
    TierBackwards { at: usize },
    /// C6: the record shares a month with an earlier TIER of its commodity.
    TierOverlap { at: usize },
    /// C7: a leg has a tier that its commodity does not have.
    UnknownTier { at: usize },
    /// C8: two legs have the same tier and side, or the same commodity.
    RepeatedLeg { at: usize },
    /// C9: no leg is on side A, or none is on side B.
    OneSided { at: usize },
    /// C10: the record has the priority of an earlier spread of its kind (and commodity).
    DuplicatePriority { at: usize },
    /// C11: the record has the commodity and month of an earlier SPOT.
    DuplicateSpot { at: usize },
    /// Out of memory.
    OutOfMemory,
}

impl Display for CheckFault {
    ghost use Rattle.param_check.specs.CheckFaults.{check_text};
    ghost use Rattle.std.specs.Prelude.{Some};

    ghost output = { λ fault. Some (check_text fault) };

    fn fmt<W: fmt::Write>(&self, f: &mut fmt::Formatter<W>) -> fmt::Result {
        match self {
            CheckFault::DuplicateCommodity { at } => write!(
                f,
                "C1 DuplicateCommodity at record {at}"
            ),
            CheckFault::UnknownCommodity { at } => write!(f, "C2 UnknownCommodity at record {at}"),
            CheckFault::DuplicateContract { at } => write!(
                f,
                "C3 DuplicateContract at record {at}"
            ),
            CheckFault::DuplicateTier { at } => write!(f, "C4 DuplicateTier at record {at}"),
            CheckFault::TierBackwards { at } => write!(f, "C5 TierBackwards at record {at}"),
            CheckFault::TierOverlap { at } => write!(f, "C6 TierOverlap at record {at}"),
            CheckFault::UnknownTier { at } => write!(f, "C7 UnknownTier at record {at}"),
            CheckFault::RepeatedLeg { at } => write!(f, "C8 RepeatedLeg at record {at}"),
            CheckFault::OneSided { at } => write!(f, "C9 OneSided at record {at}"),
            CheckFault::DuplicatePriority { at } => write!(
                f,
                "C10 DuplicatePriority at record {at}"
            ),
            CheckFault::DuplicateSpot { at } => write!(f, "C11 DuplicateSpot at record {at}"),
            CheckFault::OutOfMemory => write!(f, "memory"),
        }
    }
}

impl From<AllocError> for CheckFault {
    ghost from_gives = { λ _ e. e ≡ check.OutOfMemory };

    fn from(_error: AllocError) -> CheckFault {
        CheckFault::OutOfMemory
    }
}
