//! The records of bytes without a double quote and a carriage return: each non-empty line is a record, and each comma
//! in it ends a field.
ghost use Rattle.std.specs.Prelude.{◌≡◌, ◌∷◌, [], ◌<◌, IfOk, MatchBool, length, true, IfSome};
ghost use Rattle.csv.specs.Reading.{strip_bom};
ghost use Rattle.csv.specs.Records.{fields_of, partial_of};
ghost use Rattle.csv.specs.declared.parser.State.TheVariants as state;
ghost use Rattle.memchr.specs.Find.{is_byte2, IsFirstByte};
ghost use Rattle.span_csv.specs.near.Rows.{rows, rows_in, texts_of, AreLines};

use crate::row::{LENT_FIELDS, Row};
use arrayvec::ArrayVec;
use csv::ByteRecord;
use memchr::memchr2;
use std::alloc::AllocError;

// The byte order mark.
const MARK: [u8; 3] = [0xEF, 0xBB, 0xBF];

/// Returns whether bytes have no double quote and no carriage return.
pub(crate) fn are_lines(bytes: &[u8]) -> bool
    ensures { result ≡ true → AreLines bytes.now }
{
    memchr2(b'"', b'\r', bytes).is_none()
}

/// Returns the bytes after a byte order mark, or all bytes if they do not begin with one.
#[tactic(auto, using(crate::proofs::PlainLines::mark_taken))]
pub(crate) fn without_mark(bytes: &[u8]) -> &[u8]
    ensures { result.now ≡ strip_bom bytes.now }
{
    if bytes.starts_with(&MARK) {
        &bytes[MARK.len()..]
    } else {
        bytes
    }
}

// Returns the bytes without the line feeds at their start, which are empty lines.
fn without_empty_lines(bytes: &[u8]) -> &[u8]
    requires { AreLines bytes.now }
    ensures lines { AreLines result.now }
    ensures same { rows_in result.now ≡ rows_in bytes.now }
    ensures begins { 0 < length result.now → rows_in result.now ≡ rows state.StartField [] [] result.now }
{
    let mut left = bytes;
    while let [b'\n', rest @ ..] = left {
        left = rest;
    }
    left
}

// Returns the index of the first comma or line feed.
fn field_end(bytes: &[u8]) -> Option<usize>
    ensures { IsFirstByte (is_byte2 44 10) bytes.now result }
{
    bytes
        .iter()
        .position(|byte| *byte == b',' || *byte == b'\n')
}

/// Appends the fields of the first line, which are borrowed from the bytes. Returns the bytes after the line, or `None`
/// if there is no room for all its fields.
pub(crate) fn lend_fields<'a>(
    fields: &mut ArrayVec<&'a [u8], LENT_FIELDS>,
    bytes: &'a [u8],
) -> Option<&'a [u8]>
    requires { AreLines bytes.now }
    ensures lines { IfSome result (λ rest. AreLines rest.now) }
    ensures row { IfSome result (λ rest. rows state.StartField (texts_of fields.old.items) [] bytes.now
        ≡ texts_of fields.new.items ∷ rows_in rest.now) }
{
    let mut left = bytes;
    while let Some(end) = field_end(left) {
        if fields.is_full() {
            return None;
        }
        fields.push(&left[..end]);
        let ends_line = left[end] == b'\n';
        left = &left[end + 1..];
        if ends_line {
            return Some(left);
        }
    }
    if fields.is_full() {
        return None;
    }
    fields.push(left);
    Some(&[])
}

/// Appends the fields of the first line to a row. Returns the bytes after the line.
pub(crate) fn push_fields<'a>(row: &mut ByteRecord, bytes: &'a [u8]) -> Result<&'a [u8], AllocError>
    requires lines { AreLines bytes.now }
    requires whole { partial_of row.old ≡ [] }
    ensures lines { IfOk result (λ rest. AreLines rest.now) }
    ensures row { IfOk result (λ rest. rows state.StartField (fields_of row.old) [] bytes.now ≡ fields_of row.new ∷ rows_in rest.now) }
{
    let mut left = bytes;
    while let Some(end) = field_end(left) {
        row.push_field(&left[..end])?;
        let ends_line = left[end] == b'\n';
        left = &left[end + 1..];
        if ends_line {
            return Ok(left);
        }
    }
    row.push_field(left)?;
    Ok(&[])
}

/// Reads the next record into `row` and removes it from `left`. Returns whether there was one.
pub(crate) fn next_line<'a>(left: &mut &'a [u8], row: &mut Row<'a>) -> Result<bool, AllocError>
    requires { AreLines left.old.now }
    ensures found { IfOk result (λ found. MatchBool found (rows_in left.old.now ≡ row.new ∷ rows_in left.new.now)
        (rows_in left.old.now ≡ [])) }
    ensures lines { AreLines left.new.now }
{
    let bytes = without_empty_lines(left);
    if bytes.is_empty() {
        return Ok(false);
    }
    *left = row.take_line(bytes)?;
    Ok(true)
}
