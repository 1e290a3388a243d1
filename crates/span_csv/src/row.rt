//! The fields of a record: borrowed from the bytes of the file if the record is a plain line, and otherwise copied.
ghost use Rattle.std.specs.Prelude.{◌≡◌, ◌<◌, ◌∷◌, [], IfOk, MatchBool, length};
ghost use Rattle.csv.specs.Records.{fields_of};
ghost use Rattle.csv.specs.declared.parser.State.TheVariants as state;
ghost use Rattle.span_csv.specs.Records.{text_at};
ghost use Rattle.span_csv.specs.near.Rows.{rows, rows_in, rows_left, AreLines, CanRead};

use crate::lines::{lend_fields, push_fields};
use arrayvec::ArrayVec;
use csv::{ByteRecord, Reader};
use std::alloc::{AllocError, Global};
use std::marker::Model;

/// The maximum number of fields of a line that are borrowed. No kind of record has more. The fields of a longer line
/// are copied.
pub(crate) const LENT_FIELDS: usize = 32;

/// The fields of a record: borrowed from the bytes of the file if the record is a plain line, and otherwise copied.
#[derive(Drop)]
pub(crate) struct Row<'a> {
    is_lent: bool,
    lent: ArrayVec<&'a [u8], LENT_FIELDS>,
    copied: ByteRecord,
}

impl<'a> Model for Row<'a> {
    ghost use Rattle.std.specs.Prelude.{if◌then◌else◌};
    ghost use Rattle.csv.specs.Records.{fields_of};
    ghost use Rattle.span_csv.specs.Records.{Fields};
    ghost use Rattle.span_csv.specs.near.Rows.{texts_of};

    ghost Value = { Fields };

    ghost view = { λ row. if row.is_lent then texts_of row.lent.items else fields_of row.copied };
}

// Reads the next record into `row`. Returns whether there was one.
fn read_record(reader: &mut Reader<&[u8]>, row: &mut ByteRecord) -> Result<bool, AllocError>
    requires { CanRead reader.old }
    ensures found { IfOk result (λ found. MatchBool found (rows_left reader.old ≡ fields_of row.new ∷ rows_left reader.new)
        (rows_left reader.old ≡ [])) }
    ensures goes_on { CanRead reader.new }
{
    // The source is a slice, and a record may have any number of fields. So the only possible error is out of memory.
    let Ok(found) = reader.read_byte_record(row) else {
        return Err(AllocError);
    };
    Ok(found)
}

impl<'a> Row<'a> {
    /// Returns an empty row to read records into.
    pub(crate) fn new(alloc: Global) -> Row<'a> {
        Row {
            is_lent: false,
            lent: ArrayVec::new(),
            copied: ByteRecord::new(alloc),
        }
    }

    /// Takes the fields of the first line of the bytes. Returns the bytes after the line.
    pub(crate) fn take_line(&mut self, bytes: &'a [u8]) -> Result<&'a [u8], AllocError>
        requires { AreLines bytes.now }
        ensures lines { IfOk result (λ rest. AreLines rest.now) }
        ensures row { IfOk result (λ rest. rows state.StartField [] [] bytes.now ≡ self.new ∷ rows_in rest.now) }
    {
        self.lent.clear();
        if let Some(rest) = lend_fields(&mut self.lent, bytes) {
            self.is_lent = true;
            return Ok(rest);
        }
        self.is_lent = false;
        self.copied.clear();
        push_fields(&mut self.copied, bytes)
    }

    /// Takes the fields of the next record that `csv` reads, if there is one. Returns whether there was one.
    pub(crate) fn take_record(&mut self, reader: &mut Reader<&[u8]>) -> Result<bool, AllocError>
        requires { CanRead reader.old }
        ensures found { IfOk result (λ found. MatchBool found (rows_left reader.old ≡ self.new ∷ rows_left reader.new)
            (rows_left reader.old ≡ [])) }
        ensures goes_on { CanRead reader.new }
    {
        self.is_lent = false;
        read_record(reader, &mut self.copied)
    }

    /// Returns the number of fields.
    pub(crate) fn len(&self) -> usize
        ensures { result ≡ length self.now }
    {
        if self.is_lent {
            self.lent.len()
        } else {
            self.copied.len()
        }
    }
}

/// Returns the field at an index.
pub(crate) fn field<'r>(row: &'r Row, i: usize) -> &'r [u8]
    requires { i < length row.now }
    ensures { result.now ≡ text_at row.now i }
{
    if row.is_lent {
        row.lent[i]
    } else {
        row.copied.get(i).unwrap()
    }
}

/// Returns the field at an index, or an empty text past the end.
pub(crate) fn text_at<'r>(row: &'r Row, i: usize) -> &'r [u8]
    ensures { result.now ≡ text_at row.now i }
{
    if i < row.len() { field(row, i) } else { &[] }
}
