//! The reader of parameter files.
ghost use Rattle.std.specs.Prelude.{◌≡◌, ◌+◌, ◌<◌, ◌^◌, [], Err, IfOk, List, MatchBool, MatchResult, Ok, OnOk, length, ⊤};
ghost use Rattle.span_csv.specs.near.Checks.{HasTallied, NextIs, Tallies, params_in};
ghost use Rattle.span_csv.specs.near.Telling.{Tells};
ghost use Rattle.span_csv.specs.ParamFaults.{faults_in, is_memory, param_faults, params_of};
ghost use Rattle.span_csv.specs.Records.{Fields, param_record};
ghost use Rattle.span_tables.specs.Gives.{Gives};

use crate::checks::check_form;
use crate::faults::ParamFault;
use crate::row::Row;
use crate::rows::Rows;
use crate::tally::{Tally, limit_of};
use span_tables::raw::RawTables;
use span_tables::records::Record;
use std::alloc::{AllocError, Global};

// Returns the value of the record after `earlier` others. The tally counts records without any of P1 to P7, and so
// counts this one even if it is one too many.
fn next_record(tally: &mut Tally, earlier: usize, row: &Row) -> Result<Record, ParamFault>
    requires tallied { HasTallied tally.old earlier }
    requires room { earlier + 1 < 2 ^ 64 }
    ensures judged { (rs : List Fields) → length rs ≡ earlier → Tallies tally.old rs → NextIs rs row.now result tally.new }
    ensures said { IfOk result (λ x. x ≡ param_record row.now) }
{
    let at = earlier + 1;
    let profile = tally.profile();
    tally.keep_profile(earlier == 0, row);
    let record = check_form(earlier == 0, at, profile, row)?;
    let count = tally.count(&record);
    tally.add(&record)?;
    if count == limit_of(&record) {
        return Err(ParamFault::TooMany { at });
    }
    Ok(record)
}

// Returns the records of a file.
fn params_in<'a>(
    alloc: Global,
    rows: &mut Rows<'a>,
    row: &mut Row<'a>,
    tally: &mut Tally,
) -> Result<Vec<Record>, ParamFault>
    requires { Tallies tally.old [] }
    ensures { MatchResult result (λ records. params_in rows.old ≡ Ok records.items)
        (λ e. MatchBool (is_memory e) ⊤ (params_in rows.old ≡ Err e)) }
{
    let mut records = Vec::new(alloc);
    while rows.next(row)? {
        let record = next_record(tally, records.len(), row)?;
        records.push(record)?;
    }
    if records.is_empty() {
        return Err(ParamFault::NoSet { at: 0 });
    }
    Ok(records)
}

// Returns the records of a file with these bytes.
fn read_records(alloc: Global, bytes: &[u8]) -> Result<Vec<Record>, ParamFault>
    ensures { MatchResult result (λ records. params_of bytes.now ≡ Ok records.items)
        (λ e. MatchBool (is_memory e) ⊤ (params_of bytes.now ≡ Err e)) }
{
    let mut rows = Rows::new(alloc, bytes);
    let mut row = Row::new(alloc);
    let mut tally = Tally::new(alloc);
    params_in(alloc, &mut rows, &mut row, &mut tally)
}

/// Reads the records of a parameter file. Fails with the lowest-numbered fault, P1 to P8, of the first record that has
/// one (docs/FORMATS.md, "Parameter file" and "Faults").
pub fn read_params(alloc: Global, bytes: &[u8]) -> Result<RawTables, ParamFault>
    ensures { Gives is_memory result (params_of bytes.now) }
{
    Ok(RawTables::new(read_records(alloc, bytes)?))
}

// Appends the fault of a record to `faults`, if the answer for the record is a fault.
fn tell(answer: Result<Record, ParamFault>, faults: &mut Vec<ParamFault>) -> Result<(), AllocError>
    ensures { OnOk result (Tells is_memory answer faults.old.items faults.new.items) }
{
    match answer {
        Ok(_) => Ok(()),
        Err(ParamFault::OutOfMemory) => Err(AllocError),
        Err(fault) => Ok(faults.push(fault)?),
    }
}

// Returns the fault of each row of a file that has one.
fn faults_in<'a>(
    alloc: Global,
    rows: &mut Rows<'a>,
    row: &mut Row<'a>,
    tally: &mut Tally,
) -> Result<Vec<ParamFault>, AllocError>
    requires tallied { Tallies tally.old [] }
    requires room { length rows.old < 2 ^ 64 }
    ensures { IfOk result (λ faults. faults.items ≡ faults_in rows.old) }
{
    let mut faults = Vec::new(alloc);
    let mut read = 0;
    while rows.next(row)? {
        tell(next_record(tally, read, row), &mut faults)?;
        read += 1;
    }
    if read == 0 {
        faults.push(ParamFault::NoSet { at: 0 })?;
    }
    Ok(faults)
}

/// Returns all faults of a parameter file by rising record number: for each faulty record its lowest-numbered fault, P1
/// to P8. A file without a record has P1 with record 0 (docs/FORMATS.md, "All faults").
pub fn param_faults(alloc: Global, bytes: &[u8]) -> Result<Vec<ParamFault>, AllocError>
    ensures { IfOk result (λ faults. faults.items ≡ param_faults bytes.now) }
{
    let mut rows = Rows::new(alloc, bytes);
    let mut row = Row::new(alloc);
    let mut tally = Tally::new(alloc);
    faults_in(alloc, &mut rows, &mut row, &mut tally)
}
