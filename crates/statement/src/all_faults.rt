//! All faults of a parameter file, and of a position file that is checked with it, in one list.
ghost use Rattle.param_check.specs.CheckFaults.{checked};
ghost use Rattle.span_csv.specs.ParamFaults as param;
ghost use Rattle.span_csv.specs.PositionFaults as position;
ghost use Rattle.span_csv.specs.PositionFaults.{positions_of};
ghost use Rattle.statement.specs.AllFaults.{broken_rules, faults_of, faults_of_params, faults_status, faults_text, unbound_positions};
ghost use Rattle.statement.specs.AllFaults.{unread_params, unread_positions};
ghost use Rattle.statement_text.specs.Statement.{accepted_of};
ghost use Rattle.std.specs.Prelude.{◌≡◌, ◌++◌, IfOk, option_map};
ghost use Rattle.std.specs.Result.{result_ok};

use binding::positions::bind_faults;
use param_check::check::{check, check_faults};
use span_csv::faults::{ParamFault, PositionFault};
use span_csv::params::{param_faults, read_params};
use span_csv::positions::{position_faults, read_positions};
use span_tables::raw::{RawPositions, RawTables};
use span_tables::tables::Tables;
use statement_text::fault_lines::write_fault;
use statement_text::faults::{SpanFault, status};
use statement_text::statuses::DONE;
use std::alloc::{AllocError, Global};

// Whether a parameter file could not be read because memory ran out.
fn params_want_memory(fault: &ParamFault) -> bool
    ensures { result ≡ param.is_memory fault.now }
{
    matches!(fault, ParamFault::OutOfMemory)
}

// Whether a position file could not be read because memory ran out.
fn positions_want_memory(fault: &PositionFault) -> bool
    ensures { result ≡ position.is_memory fault.now }
{
    matches!(fault, PositionFault::OutOfMemory)
}

// All faults of reading a parameter file.
fn unread_params(alloc: Global, params: &[u8]) -> Result<Vec<SpanFault>, AllocError>
    ensures { IfOk result (λ faults. faults.items ≡ unread_params params.now) }
{
    let faults = param_faults(alloc, params)?;
    faults.into_iter().map(SpanFault::Params).collect(alloc)
}

// All rules that the records of a parameter file break.
fn broken_rules(alloc: Global, records: &RawTables) -> Result<Vec<SpanFault>, AllocError>
    ensures { IfOk result (λ faults. faults.items ≡ broken_rules (Some records.now)) }
{
    let faults = check_faults(alloc, records)?;
    faults.into_iter().map(SpanFault::Check).collect(alloc)
}

// All faults of reading a position file.
fn unread_positions(alloc: Global, positions: &[u8]) -> Result<Vec<SpanFault>, AllocError>
    ensures { IfOk result (λ faults. faults.items ≡ unread_positions positions.now) }
{
    let faults = position_faults(alloc, positions)?;
    faults.into_iter().map(SpanFault::Positions).collect(alloc)
}

// All faults of binding positions to accepted tables.
fn unbound_positions(
    alloc: Global,
    tables: &Tables,
    records: &RawPositions,
) -> Result<Vec<SpanFault>, AllocError>
    ensures { IfOk result (λ faults. faults.items ≡ unbound_positions (Some tables.now) (Some records.now)) }
{
    let faults = bind_faults(alloc, tables, records)?;
    faults.into_iter().map(SpanFault::Bind).collect(alloc)
}

// The tables of a parameter file, if it is accepted, and all its faults.
#[derive(Drop)]
struct JudgedParams {
    tables: Option<Tables>,
    faults: Vec<SpanFault>,
}

// The tables of the records of a parameter file, if they keep the rules, and all rules that they break.
fn judge_records(alloc: Global, records: RawTables) -> Result<JudgedParams, AllocError>
    ensures tables { IfOk result (λ judged. judged.tables ≡ result_ok (checked records)) }
    ensures faults { IfOk result (λ judged. judged.faults.items ≡ broken_rules (Some records)) }
{
    let faults = broken_rules(alloc, &records)?;
    if !faults.is_empty() {
        return Ok(JudgedParams {
            tables: None,
            faults,
        });
    }
    match check(alloc, records) {
        Ok(tables) => Ok(JudgedParams {
            tables: Some(tables),
            faults,
        }),
        Err(_) => Err(AllocError),
    }
}

// The tables of a parameter file, if it is accepted, and all its faults. A file that is accepted is read once.
#[tactic(auto, unfolding(crate::specs::AllFaults::faults_of_params, statement_text::specs::Statement::accepted_of))]
fn judge_params(alloc: Global, params: &[u8]) -> Result<JudgedParams, AllocError>
    ensures tables { IfOk result (λ judged. judged.tables ≡ result_ok (accepted_of params.now)) }
    ensures faults { IfOk result (λ judged. judged.faults.items ≡ faults_of_params params.now) }
{
    match read_params(alloc, params) {
        Ok(records) => judge_records(alloc, records),
        Err(fault) => {
            if params_want_memory(&fault) {
                return Err(AllocError);
            }
            let faults = unread_params(alloc, params)?;
            Ok(JudgedParams {
                tables: None,
                faults,
            })
        }
    }
}

// All faults of a position file with these tables, or without tables if the parameters are not accepted.
fn judge_positions(
    alloc: Global,
    tables: Option<&Tables>,
    positions: &[u8],
) -> Result<Vec<SpanFault>, AllocError>
    ensures { IfOk result (λ faults. faults.items ≡ unread_positions positions.now
        ++ unbound_positions (option_map (λ tables. tables.now) tables.entry) (result_ok (positions_of positions.now))) }
{
    match read_positions(alloc, positions) {
        Ok(records) => match tables {
            Some(tables) => unbound_positions(alloc, tables, &records),
            None => Ok(Vec::new(alloc)),
        },
        Err(fault) => {
            if positions_want_memory(&fault) {
                return Err(AllocError);
            }
            unread_positions(alloc, positions)
        }
    }
}

/// Returns all faults of a parameter file followed by all faults of a position file, if there is one. The list is empty
/// if the files are accepted (docs/FORMATS.md, "All faults").
#[tactic(auto, unfolding(crate::specs::AllFaults::faults_of, crate::specs::AllFaults::faults_of_positions))]
pub fn faults(
    alloc: Global,
    params: &[u8],
    positions: Option<&[u8]>,
) -> Result<Vec<SpanFault>, AllocError>
    ensures { IfOk result (λ faults. faults.items ≡ faults_of params.now (option_map (λ bytes. bytes.now) positions.entry)) }
{
    let JudgedParams { tables, mut faults } = judge_params(alloc, params)?;
    let Some(positions) = positions else {
        return Ok(faults);
    };
    let mut others = judge_positions(alloc, tables.as_ref(), positions)?;
    faults.append(&mut others)?;
    Ok(faults)
}

/// Returns the lines of faults, in their order.
#[tactic(auto, unfolding(crate::specs::AllFaults::faults_text))]
pub fn faults_text(alloc: Global, faults: &[SpanFault]) -> Result<Vec<u8>, AllocError>
    ensures { IfOk result (λ text. text.items ≡ faults_text faults.now) }
{
    let mut text = Vec::new(alloc);
    for fault in faults {
        match write_fault(fault, &mut text) {
            Ok(()) => {}
            Err(_) => return Err(AllocError),
        }
    }
    Ok(text)
}

/// Returns the exit status of a list of faults: the status of the first, or `DONE` if there is none.
pub fn faults_status(faults: &[SpanFault]) -> u8
    ensures { result ≡ faults_status faults.now }
{
    match faults.first() {
        Some(first) => status(first),
        None => DONE,
    }
}
