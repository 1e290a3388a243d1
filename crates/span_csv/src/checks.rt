//! The value of a single record, or its fault: its kind, its number of fields, and their forms and ranges.
ghost use Rattle.std.specs.Prelude.{◌≡◌, ◌++◌, MatchResult, Some};
ghost use Rattle.span_csv.specs.near.Checks.{IsFaultOf, IsFree, IsOfKind, field_faults, kind_faults};
ghost use Rattle.span_csv.specs.ParamFaults.{is_set};
ghost use Rattle.span_csv.specs.Records.{kind_of, record_of_kind};

use crate::contents::record_of_kind;
use crate::faults::ParamFault;
use crate::grammar::{FieldTest, Kind, kind_named};
use crate::row::{Row, text_at};
use span_tables::records::Record;

/// Returns whether a record is a SET.
pub(crate) fn is_set(row: &Row) -> bool
    ensures { result ≡ is_set row.now }
{
    text_at(row, 0) == b"SET".as_slice()
}

// Returns the kind of a record. The first record has to be a SET, and no other record may be one.
fn check_kind(first: bool, at: usize, row: &Row) -> Result<Kind, ParamFault>
    ensures { MatchResult result
        (λ kind. (kind_of row.now ≡ Some kind) × IsFree (kind_faults first row.now))
        (λ e. IsFaultOf (kind_faults first row.now) at e) }
{
    let set = is_set(row);
    if first && !set {
        return Err(ParamFault::NoSet { at });
    }
    if !first && set {
        return Err(ParamFault::SecondSet { at });
    }
    match kind_named(text_at(row, 0)) {
        Some(kind) => Ok(kind),
        None => Err(ParamFault::UnknownKind { at }),
    }
}

// Returns the value of a record of a kind under a profile. Checks the number of its fields, and their forms and ranges.
fn check_fields(at: usize, profile: u8, kind: Kind, row: &Row) -> Result<Record, ParamFault>
    requires { kind_of row.now ≡ Some kind }
    ensures { MatchResult result
        (λ x. (x ≡ record_of_kind kind row.now) × IsFree (field_faults profile row.now))
        (λ e. IsFaultOf (field_faults profile row.now) at e) }
{
    let Some(layout) = kind.layout(profile, row) else {
        return Err(ParamFault::FieldCount { at });
    };
    // A record without a fault needs only one pass over its fields.
    if let Some(record) = record_of_kind(kind, profile, row) {
        return Ok(record);
    }
    if !layout.all_have(FieldTest::Word, row) {
        return Err(ParamFault::BadName { at });
    }
    if layout.all_have(FieldTest::Number, row) {
        Err(ParamFault::OutOfRange { at })
    } else {
        Err(ParamFault::BadNumber { at })
    }
}

/// Returns the value of a record whose fields have their forms under a profile, or its lowest-numbered fault. Limits
/// are not checked here. Of the earlier records only their presence and their profile matter.
pub(crate) fn check_form(
    first: bool,
    at: usize,
    profile: u8,
    row: &Row,
) -> Result<Record, ParamFault>
    ensures { MatchResult result
        (λ x. IsOfKind row.now x × IsFree (kind_faults first row.now ++ field_faults profile row.now))
        (λ e. IsFaultOf (kind_faults first row.now ++ field_faults profile row.now) at e) }
{
    let kind = check_kind(first, at, row)?;
    check_fields(at, profile, kind, row)
}
