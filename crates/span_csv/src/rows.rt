//! The records of a file, one after another.
ghost use Rattle.std.specs.Prelude.{◌≡◌, [], ◌∷◌, IfOk, MatchBool};
ghost use Rattle.span_csv.specs.near.PlainPositions.{IsPositionIn};

use crate::lines::{are_lines, next_line, without_mark};
use crate::plain_positions::next_position_in;
use crate::row::Row;
use csv::{Reader, ReaderBuilder};
use span_tables::limits::SCENARIOS;
use span_tables::name::Name;
use std::alloc::{AllocError, Global};
use std::marker::Model;

/// The index of the first value of a CONTRACT's risk array.
pub(crate) const FIRST_VALUE: usize = 7;

/// The index of the first field that a profile adds, after the risk array.
pub(crate) const EXTRAS: usize = FIRST_VALUE + SCENARIOS;

// The rest of a file: bytes whose lines are its records, or a `csv` reader.
#[derive(Drop)]
pub enum Form<'a> {
    Lines(&'a [u8]),
    Csv(Reader<&'a [u8]>),
}

/// The records that are left of a file. After an allocation failure there may be none.
#[derive(Drop)]
pub(crate) struct Rows<'a> {
    form: Form<'a>,
}

impl<'a> Model for Rows<'a> {
    ghost use Rattle.std.specs.Prelude.{ℕ, List};
    ghost use Rattle.span_csv.specs.near.Rows.{rows_of, GoesOn};

    ghost Value = { List (List (List ℕ)) };

    ghost view = { λ rows. rows_of rows.form };

    ghost invariant = { λ rows. GoesOn rows.form };
}

impl<'a> Rows<'a> {
    ghost use Rattle.std.specs.Prelude.{None, IfSome};
    ghost use Rattle.span_csv.specs.Records.{records_of};

    /// Returns the records of a file with these bytes.
    ///
    /// If it has no double quote and no carriage return, its lines are read directly. `csv` reads any other file.
    #[tactic(auto, unfolding(crate::specs::Records::records_of))]
    pub(crate) fn new(alloc: Global, bytes: &'a [u8]) -> Rows<'a>
        ensures { result ≡ records_of bytes.now }
    {
        if are_lines(bytes) {
            return Rows {
                form: Form::Lines(without_mark(bytes)),
            };
        }
        let reader = ReaderBuilder::new()
            .has_headers(false)
            .flexible(true)
            .from_reader(alloc, bytes);
        Rows {
            form: Form::Csv(reader),
        }
    }

    /// Reads the next record into `row`. Returns whether there was one.
    pub(crate) fn next(&mut self, row: &mut Row<'a>) -> Result<bool, AllocError>
        ensures found { IfOk result (λ found. MatchBool found (self.old ≡ row.new ∷ self.new) (self.old ≡ [])) }
    {
        match &mut self.form {
            Form::Lines(bytes) => next_line(bytes, row),
            Form::Csv(reader) => row.take_record(reader),
        }
    }

    /// Returns the contract and the quantity of the next record, if it is a position of this account in a plain line.
    #[inline(always)]
    pub(crate) fn next_of(&mut self, account: &Name) -> Option<(Name, i32)>
        ensures found { IfSome result (λ p. IsPositionIn account.now p.0 p.1 self.new self.old) }
        ensures none { result ≡ None → self.new ≡ self.old }
    {
        match &mut self.form {
            Form::Lines(bytes) => next_position_in(bytes, account),
            Form::Csv(_) => None,
        }
    }
}
