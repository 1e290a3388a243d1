//! Lines of fields: a word, its fields with a comma in front of each, and a line feed (docs/FORMATS.md, Statement).
ghost use Rattle.std.specs.Fmt.{decimal, signed_decimal};
ghost use Rattle.std.specs.Prelude.{◌≡◌, ◌++◌, ◌∷◌, ◌<◌, ◌≤◌, [], OnOk, flat_map, map};
ghost use Rattle.span_money.specs.ExactDecimals.{exact_decimal};
ghost use Rattle.span_money.specs.LineFields.{field, line};
ghost use Rattle.span_money.specs.near.Fields.{field_text};

use crate::exact::push_exact;
use itoa::{Buffer, write_digits};
use std::alloc::AllocError;

// The number of bytes that are copied for a short number.
const COPIED: usize = 16;

/// The value of a field: a text, a whole number, half of a number, or a number in units of 10^-4 or of 10^-8.
#[derive(Clone, Copy)]
pub enum Field<'a> {
    Text(&'a str),
    Bytes(&'a [u8]),
    Whole(i128),
    Half(u64),
    FourPlaces(i128),
    EightPlaces(i128),
}

// Appends a comma and the bytes of a field.
fn push_field(out: &mut Vec<u8>, text: &[u8]) -> Result<(), AllocError>
    ensures { OnOk result (out.new.items ≡ out.old.items ++ field text.now) }
{
    out.push(b',')?;
    out.extend_from_slice(text)
}

// Appends a comma and a number of at most 15 digits. It copies more bytes than there are and cuts off the rest, since a copy
// of a fixed length has no branch.
#[inline(always)]
fn push_short(out: &mut Vec<u8>, n: u64) -> Result<(), AllocError>
    requires { n < 1000000000000000 }
    ensures { OnOk result (out.new.items ≡ out.old.items ++ field (decimal n)) }
{
    let mut text = [b','; 2 * COPIED];
    let comma = write_digits(n, &mut text, COPIED) - 1;
    let end = out.len() + (COPIED - comma);
    out.extend_from_slice(&text[comma..comma + COPIED])?;
    out.truncate(end);
    Ok(())
}

/// Appends a comma and a whole number.
pub fn push_number(out: &mut Vec<u8>, n: i128) -> Result<(), AllocError>
    ensures { OnOk result (out.new.items ≡ out.old.items ++ field (signed_decimal n)) }
{
    match u64::try_from(n) {
        Ok(small) if small < 1_000_000_000_000_000 => push_short(out, small),
        _ => push_field(out, Buffer::new().format(n).as_bytes()),
    }
}

// Appends whole numbers, each with a comma in front of it.
fn push_numbers(out: &mut Vec<u8>, numbers: &[i128]) -> Result<(), AllocError>
    ensures { OnOk result (out.new.items ≡ out.old.items ++ flat_map field (map signed_decimal numbers.now)) }
{
    for n in numbers {
        push_number(out, *n)?;
    }
    Ok(())
}

// Appends a comma and an exact decimal.
fn push_exact_field(out: &mut Vec<u8>, number: i128, places: usize) -> Result<(), AllocError>
    requires { places ≤ 18 }
    ensures { OnOk result (out.new.items ≡ out.old.items ++ field (exact_decimal places number)) }
{
    out.push(b',')?;
    push_exact(out, number, places)
}

// Appends a comma and the text of a field.
fn push_shown(out: &mut Vec<u8>, shown: Field<'_>) -> Result<(), AllocError>
    ensures { OnOk result (out.new.items ≡ out.old.items ++ field (field_text shown.entry)) }
{
    match shown {
        Field::Text(text) => push_field(out, text.as_bytes()),
        Field::Bytes(bytes) => push_field(out, bytes),
        Field::Whole(number) => push_number(out, number),
        Field::Half(doubled) => push_exact_field(out, i128::from(doubled) * 5, 1),
        Field::FourPlaces(number) => push_exact_field(out, number, 4),
        Field::EightPlaces(number) => push_exact_field(out, number, 8),
    }
}

// Appends fields, each with a comma in front of it.
fn push_fields(out: &mut Vec<u8>, fields: &[Field<'_>]) -> Result<(), AllocError>
    ensures { OnOk result (out.new.items ≡ out.old.items ++ flat_map field (map field_text fields.now)) }
{
    for shown in fields {
        push_shown(out, *shown)?;
    }
    Ok(())
}

/// Appends the start of a line: its word and its ids.
pub fn push_start(out: &mut Vec<u8>, word: &str, ids: &[Field<'_>]) -> Result<(), AllocError>
    ensures { OnOk result (out.new.items ≡ out.old.items ++ word.now ++ flat_map field (map field_text ids.now)) }
{
    out.extend_from_slice(word.as_bytes())?;
    push_fields(out, ids)
}

/// Appends a line: its word, its ids, and its fields.
pub fn push_line(
    out: &mut Vec<u8>,
    word: &str,
    ids: &[Field<'_>],
    fields: &[Field<'_>],
) -> Result<(), AllocError>
    ensures { OnOk result (out.new.items ≡ out.old.items
        ++ line (record { word = word.now; fields = map field_text ids.now ++ map field_text fields.now })) }
{
    push_start(out, word, ids)?;
    push_fields(out, fields)?;
    out.push(b'\n')?;
    Ok(())
}

/// Appends the rest of a line after its start: the bytes of a field, and whole numbers.
#[tactic(auto, using(crate::proofs::LinePartLemmas::rest_in_parts))]
pub fn push_rest_of_numbers(
    out: &mut Vec<u8>,
    id: &[u8],
    numbers: &[i128],
) -> Result<(), AllocError>
    ensures { OnOk result (out.new.items ≡ out.old.items ++ (flat_map field (id.now ∷ map signed_decimal numbers.now) ++ 10 ∷ [])) }
{
    push_field(out, id)?;
    push_numbers(out, numbers)?;
    out.push(b'\n')?;
    Ok(())
}

/// Appends a line whose fields after its ids are whole numbers.
pub fn push_line_of_numbers(
    out: &mut Vec<u8>,
    word: &str,
    ids: &[Field<'_>],
    numbers: &[i128],
) -> Result<(), AllocError>
    ensures { OnOk result (out.new.items ≡ out.old.items
        ++ line (record { word = word.now; fields = map field_text ids.now ++ map signed_decimal numbers.now })) }
{
    push_start(out, word, ids)?;
    push_numbers(out, numbers)?;
    out.push(b'\n')?;
    Ok(())
}
