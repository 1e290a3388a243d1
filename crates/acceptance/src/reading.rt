//! Position files that are read by several threads.
ghost use Rattle.span_csv.specs.PositionFaults.{is_memory, positions_of};
ghost use Rattle.span_csv.specs.near.Pieces.{piece_of, records_together, HasAccounts, StandFor};
ghost use Rattle.span_tables.specs.Gives.{Gives};
ghost use Rattle.span_csv.specs.Records.{records_of};
ghost use Rattle.std.specs.Prelude.{◌≡◌, IfOk, IfSome, List, Ok, Some, flat_map, map, option_to_list, ℕ};

use span_csv::cuts::cut_at_lines;
use span_csv::faults::PositionFault;
use span_csv::positions::{read_piece, read_positions};
use span_csv::together::AllAccounts;
use span_tables::raw::RawPositions;
use span_tables::records::NumberedPosition;
use std::alloc::{AllocError, Global};
use std::thread;
use std::thread::Threads;

// The records of each of these pieces, read one after the other. `None` if one of them has a fault.
fn read_in_turn(alloc: Global, pieces: &[&[u8]]) -> Result<Option<Vec<RawPositions>>, AllocError>
    ensures { IfOk result (λ answer. IfSome answer (λ read. map Some read.items ≡ map (λ piece. piece_of piece.now) pieces.now)) }
{
    let mut read = Vec::with_capacity(alloc, pieces.len())?;
    for piece in pieces {
        let Some(piece) = read_piece(alloc, piece)? else {
            return Ok(None);
        };
        read.push(piece)?;
    }
    Ok(Some(read))
}

// The records of each of these pieces, each read in its own thread if one can be started. `None` if one of them has a
// fault.
#[cycle(pieces)]
fn read_pieces<R: Threads + Sync>(
    rt: &R,
    alloc: Global,
    pieces: &[&[u8]],
) -> Result<Option<Vec<RawPositions>>, AllocError>
    ensures { IfOk result (λ answer. IfSome answer (λ read. map Some read.items ≡ map (λ piece. piece_of piece.now) pieces.now)) }
{
    if pieces.len() < 2 {
        return read_in_turn(alloc, pieces);
    }
    let (front, back) = pieces.split_at(pieces.len() / 2);
    let (first, second) = thread::join(
        rt,
        || -> Result<Option<Vec<RawPositions>>, AllocError>
            ensures { IfOk result (λ answer. IfSome answer (λ read.
                map Some read.items ≡ map (λ piece. piece_of piece.now) front.entry.now)) }
        { read_pieces(rt, alloc, front) },
        || -> Result<Option<Vec<RawPositions>>, AllocError>
            ensures { IfOk result (λ answer. IfSome answer (λ read.
                map Some read.items ≡ map (λ piece. piece_of piece.now) back.entry.now)) }
        { read_pieces(rt, alloc, back) },
    );
    let Some(mut read) = first? else {
        return Ok(None);
    };
    let Some(mut rest) = second? else {
        return Ok(None);
    };
    read.append(&mut rest)?;
    Ok(Some(read))
}

// The records of the piece, if there is one, with accounts numbered over all pieces.
fn number_one(
    alloc: Global,
    accounts: &AllAccounts,
    piece: Option<RawPositions>,
) -> Result<Vec<NumberedPosition>, AllocError>
    requires { HasAccounts accounts.now (records_together (option_to_list piece)) }
    ensures { IfOk result (λ records. StandFor accounts.now (records_together (option_to_list piece)) records.items) }
{
    match piece {
        Some(piece) => accounts.numbered(alloc, piece),
        None => Ok(Vec::new(alloc)),
    }
}

// The records of pieces, one piece after the other, with accounts numbered over all pieces. Each piece is numbered in
// its own thread if one can be started.
#[cycle(numbering)]
fn number_pieces<R: Threads + Sync>(
    rt: &R,
    alloc: Global,
    accounts: &AllAccounts,
    pieces: Vec<RawPositions>,
) -> Result<Vec<NumberedPosition>, AllocError>
    requires { HasAccounts accounts.now (records_together pieces.items) }
    ensures { IfOk result (λ records. StandFor accounts.now (records_together pieces.items) records.items) }
{
    let mut pieces = pieces;
    if pieces.len() < 2 {
        return number_one(alloc, accounts, pieces.pop());
    }
    let back = pieces.split_off(pieces.len() / 2)?;
    let (front, rear) = thread::join(
        rt,
        move || -> Result<Vec<NumberedPosition>, AllocError>
            requires { HasAccounts accounts.now (records_together pieces.items) }
            ensures { IfOk result (λ records. StandFor accounts.entry.now (records_together pieces.items) records.items) }
        { number_pieces(rt, alloc, accounts, pieces) },
        move || -> Result<Vec<NumberedPosition>, AllocError>
            requires { HasAccounts accounts.now (records_together back.items) }
            ensures { IfOk result (λ records. StandFor accounts.entry.now (records_together back.items) records.items) }
        { number_pieces(rt, alloc, accounts, back) },
    );
    let mut records = front?;
    records.append(&mut rear?)?;
    Ok(records)
}

// The records of a position file that is cut into these pieces. The pieces are read and then numbered over all
// accounts, concurrently. `None` if a piece has a fault, or if all pieces together have too many accounts.
fn put_together<R: Threads + Sync>(
    rt: &R,
    alloc: Global,
    pieces: &[&[u8]],
) -> Result<Option<RawPositions>, AllocError>
    ensures { IfOk result (λ answer. IfSome answer (λ positions. (bytes : List ℕ)
        → flat_map (λ piece. records_of piece.now) pieces.now ≡ records_of bytes → positions_of bytes ≡ Ok positions)) }
{
    let Some(read) = read_pieces(rt, alloc, pieces)? else {
        return Ok(None);
    };
    let Some(accounts) = AllAccounts::of(alloc, &read)? else {
        return Ok(None);
    };
    let records = number_pieces(rt, alloc, &accounts, read)?;
    Ok(Some(accounts.positions(records)))
}

/// Returns the records of a position file, or its first fault, as [`read_positions`] does. A large file without a
/// double quote is read in at most as many pieces as there are workers, each in its own thread if one can be started.
/// If it has a fault, what was read is dropped, and the whole file is read again on one thread.
pub(crate) fn read_together<R: Threads + Sync>(
    rt: &R,
    alloc: Global,
    bytes: &[u8],
    workers: usize,
) -> Result<RawPositions, PositionFault>
    ensures { Gives is_memory result (positions_of bytes.now) }
{
    let pieces = cut_at_lines(alloc, bytes, workers)?;
    if pieces.len() < 2 {
        return read_positions(alloc, bytes);
    }
    match put_together(rt, alloc, &pieces)? {
        Some(positions) => Ok(positions),
        None => read_positions(alloc, bytes),
    }
}
