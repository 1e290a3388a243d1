//! The reader of position files.
ghost use Rattle.std.specs.Prelude.{◌≡◌, ◌≤◌, ◌<◌, ◌+◌, ◌^◌, [], List, ⊤, IfOk, MatchBool, MatchResult};
ghost use Rattle.std.specs.Prelude.{OnOk, Ok, Err, length};
ghost use Rattle.span_csv.specs.PositionFaults.{is_memory, position_faults, positions_of, record_fault};
ghost use Rattle.span_csv.specs.Records.{Fields};
ghost use Rattle.span_csv.specs.near.NumberedReading.{next_position};
ghost use Rattle.span_csv.specs.near.Pieces.{piece_of};
ghost use Rattle.span_csv.specs.near.RecordReading.{records_after};
ghost use Rattle.span_csv.specs.near.Telling.{accounts_counted, CheckIs, Tells};
ghost use Rattle.span_tables.specs.Faults.{all_faults};
ghost use Rattle.span_tables.specs.Gives.{Gives};
ghost use Rattle.span_tables.specs.near.Positions.{named_positions, AreNumbered};
ghost use Rattle.span_tables.specs.declared.limits.TheConstants.{MAX_ACCOUNTS};

use crate::faults::PositionFault;
use crate::numbered::{next_position, place, quantity, stands_at};
use crate::row::{Row, field};
use crate::rows::Rows;
use indexmap::IndexSet;
use span_tables::limits::MAX_ACCOUNTS;
use span_tables::name::Name;
use span_tables::raw::RawPositions;
use span_tables::records::NumberedPosition;
use std::alloc::{AllocError, Global};

// The number of names in a record before its quantity: the account's and the contract's.
const POSITION_NAMES: usize = 2;

// Appends the next rows to `records`, as long as each is a position of the last record's account in a plain line.
fn read_same_account(
    rows: &mut Rows,
    accounts: &[Name],
    records: &mut Vec<NumberedPosition>,
) -> Result<(), AllocError>
    requires numbered { AreNumbered accounts.now records.old.items }
    requires few { length accounts.now ≤ MAX_ACCOUNTS }
    ensures read { OnOk result
        (records_after (next_position POSITION_NAMES MAX_ACCOUNTS) (named_positions accounts.now records.new.items) rows.new
        ≡ records_after (next_position POSITION_NAMES MAX_ACCOUNTS) (named_positions accounts.now records.old.items) rows.old) }
    ensures left { OnOk result (length rows.new ≤ length rows.old) }
    ensures numbered { OnOk result (AreNumbered accounts.now records.new.items) }
{
    let Some(last) = records.last() else {
        return Ok(());
    };
    let number = last.account;
    let account = &accounts[number as usize];
    while let Some((contract, quantity)) = rows.next_of(account) {
        records.push(NumberedPosition {
            contract,
            account: number,
            quantity,
        })?;
    }
    Ok(())
}

/// Appends each remaining row of a file to `records`, and adds its account to `accounts` if it is new.
pub(crate) fn read_rows<'a>(
    rows: &mut Rows<'a>,
    row: &mut Row<'a>,
    accounts: &mut IndexSet<Name>,
    records: &mut Vec<NumberedPosition>,
) -> Result<(), PositionFault>
    requires numbered { AreNumbered accounts.old.keys records.old.items }
    requires few { length accounts.old.keys ≤ MAX_ACCOUNTS }
    ensures read { MatchResult result
        (λ _. records_after (next_position POSITION_NAMES MAX_ACCOUNTS) (named_positions accounts.old.keys records.old.items) rows.old
        ≡ Ok (named_positions accounts.new.keys records.new.items))
        (λ e. MatchBool (is_memory e) ⊤
        (records_after (next_position POSITION_NAMES MAX_ACCOUNTS) (named_positions accounts.old.keys records.old.items) rows.old
        ≡ Err e)) }
    ensures numbered { OnOk result (AreNumbered accounts.new.keys records.new.items) }
{
    while rows.next(row)? {
        let position = next_position(POSITION_NAMES, MAX_ACCOUNTS, records, accounts, row)?;
        records.push(position)?;
        read_same_account(rows, accounts.as_slice(), records)?;
    }
    Ok(())
}

/// Reads the records of a position file. Fails with the lowest-numbered fault, Q1 to Q5, of the first record that has
/// one (docs/FORMATS.md, "Position file" and "Faults").
pub fn read_positions(alloc: Global, bytes: &[u8]) -> Result<RawPositions, PositionFault>
    ensures { Gives is_memory result (positions_of bytes.now) }
{
    let mut rows = Rows::new(alloc, bytes);
    let mut row = Row::new(alloc);
    let mut accounts = IndexSet::new(alloc);
    let mut records: Vec<NumberedPosition> = Vec::new(alloc);
    read_rows(&mut rows, &mut row, &mut accounts, &mut records)?;
    Ok(RawPositions::new(accounts, records))
}

/// Reads the records of a piece of a position file. Returns `None` exactly if the piece by itself has a fault: one of
/// Q1 to Q4, or Q5 for its own accounts. Calling [`read_positions`] on the whole file then finds the fault of the file.
pub fn read_piece(alloc: Global, bytes: &[u8]) -> Result<Option<RawPositions>, AllocError>
    ensures { IfOk result (λ piece. piece ≡ piece_of bytes.now) }
{
    match read_positions(alloc, bytes) {
        Ok(piece) => Ok(Some(piece)),
        Err(PositionFault::OutOfMemory) => Err(AllocError),
        Err(_) => Ok(None),
    }
}

// Checks the record with number `at` after others. `accounts` has the accounts of the earlier counted records. The
// record's account is added if it is counted and new. Once there is one account too many, only the fields of further
// records can have faults.
fn check_row(at: usize, accounts: &mut IndexSet<Name>, row: &Row) -> Result<(), PositionFault>
    ensures { (rs : List Fields) → length rs + 1 ≡ at → accounts.old.keys ≡ accounts_counted rs
        → CheckIs rs row.now result accounts.new.keys }
{
    quantity(POSITION_NAMES, 0, at, row)?;
    if accounts.len() > MAX_ACCOUNTS {
        return Ok(());
    }
    let last = accounts.len().saturating_sub(1) as u16;
    let stands = stands_at(accounts.as_slice(), last, field(row, 0));
    place(MAX_ACCOUNTS, at, stands, last, accounts, field(row, 0))?;
    Ok(())
}

// Appends the fault of a record to `faults`, if the answer for the record is a fault.
fn tell(
    answer: Result<(), PositionFault>,
    faults: &mut Vec<PositionFault>,
) -> Result<(), AllocError>
    ensures { OnOk result (Tells is_memory answer faults.old.items faults.new.items) }
{
    match answer {
        Ok(_) => Ok(()),
        Err(PositionFault::OutOfMemory) => Err(AllocError),
        Err(fault) => Ok(faults.push(fault)?),
    }
}

// Returns the fault of each row of a file that has one. `accounts` is empty before.
fn faults_in<'a>(
    alloc: Global,
    rows: &mut Rows<'a>,
    row: &mut Row<'a>,
    accounts: &mut IndexSet<Name>,
) -> Result<Vec<PositionFault>, AllocError>
    requires no_accounts { accounts.old.keys ≡ [] }
    requires room { length rows.old < 2 ^ 64 }
    ensures { IfOk result (λ faults. faults.items ≡ all_faults record_fault rows.old) }
{
    let mut faults = Vec::new(alloc);
    let mut read = 0;
    while rows.next(row)? {
        read += 1;
        tell(check_row(read, accounts, row), &mut faults)?;
    }
    Ok(faults)
}

/// Returns all faults of a position file by rising record number: for each faulty record its lowest-numbered fault, Q1
/// to Q5 (docs/FORMATS.md, "All faults").
pub fn position_faults(alloc: Global, bytes: &[u8]) -> Result<Vec<PositionFault>, AllocError>
    ensures { IfOk result (λ faults. faults.items ≡ position_faults bytes.now) }
{
    let mut rows = Rows::new(alloc, bytes);
    let mut row = Row::new(alloc);
    let mut accounts = IndexSet::new(alloc);
    faults_in(alloc, &mut rows, &mut row, &mut accounts)
}
