//! Positions in plain lines, which are most of a file: the account of the record before, a contract and a quantity.
ghost use Rattle.std.specs.Prelude.{◌≡◌, ◌++◌, ◌∷◌, ℕ, List, None, Some, IfSome, true};
ghost use Rattle.span_money.specs.Numbers.{whole_number};
ghost use Rattle.span_csv.specs.near.NumberedReading.{is_quantity};
ghost use Rattle.span_csv.specs.near.PlainPositions.{IsPlainLine, IsPositionIn};
ghost use Rattle.span_csv.specs.near.Rows.{rows_in, AreLines};
ghost use Rattle.span_tables.specs.Names.{is_name};

use crate::numbered::is_quantity;
use span_money::texts::split_whole;
use span_tables::name::Name;

// Returns the bytes after a field and its comma, if the bytes begin with them.
fn behind_field<'a>(bytes: &'a [u8], field: &[u8]) -> Option<&'a [u8]>
    ensures { IfSome result (λ rest. bytes.now ≡ field.now ++ 44 ∷ rest.now) }
{
    let end = field.len();
    if end < bytes.len() && bytes[end] == b',' && bytes.starts_with(field) {
        Some(&bytes[end + 1..])
    } else {
        None
    }
}

// Returns the name at the start of the bytes and the bytes after its comma, if a comma ends it.
fn split_name(bytes: &[u8]) -> Option<(Name, &[u8])>
    ensures parts { IfSome result (λ p. bytes.now ≡ p.0 ++ 44 ∷ p.1.now) }
    ensures is_name { IfSome result (λ p. is_name p.0 ≡ true) }
{
    match Name::split_front(bytes)? {
        (name, [b',', rest @ ..]) => Some((name, rest)),
        _ => None,
    }
}

// Returns the quantity at the start of the bytes and the bytes after its line, if a line feed ends it.
fn split_quantity(bytes: &[u8]) -> Option<(i32, &[u8])>
    ensures { IfSome result (λ p. (text : List ℕ) × (bytes.now ≡ text ++ 10 ∷ p.1.now) × (whole_number text ≡ Some p.0)
        × (is_quantity p.0 ≡ true)) }
{
    match split_whole(bytes)? {
        (quantity, [b'\n', rest @ ..]) if is_quantity(quantity) => Some((quantity as i32, rest)),
        _ => None,
    }
}

// The contract and the quantity of a position, and the bytes after its line.
struct PlainPosition<'a> {
    contract: Name,
    quantity: i32,
    rest: &'a [u8],
}

// Returns the position in the first line, if that is a plain line of this account.
fn position_in<'a>(bytes: &'a [u8], account: &[u8]) -> Option<PlainPosition<'a>>
    ensures { IfSome result (λ p. IsPlainLine account.now p.contract p.quantity p.rest.now bytes.now) }
{
    let (contract, bytes) = split_name(behind_field(bytes, account)?)?;
    let (quantity, rest) = split_quantity(bytes)?;
    Some(PlainPosition {
        contract,
        quantity,
        rest,
    })
}

/// Returns the contract and the quantity of the next position and removes it from `left`, if it is a plain line of this
/// account.
#[inline(always)]
pub(crate) fn next_position_in(left: &mut &[u8], account: &Name) -> Option<(Name, i32)>
    requires { AreLines left.old.now }
    ensures found { IfSome result (λ p. IsPositionIn account.now p.0 p.1 (rows_in left.new.now) (rows_in left.old.now)) }
    ensures none { result ≡ None → left.new ≡ left.old }
    ensures lines { AreLines left.new.now }
{
    let PlainPosition {
        contract,
        quantity,
        rest,
    } = position_in(left, account.as_bytes())?;
    *left = rest;
    Some((contract, quantity))
}
