//! Records that are numbered by the name in front: a position's account, or an order in the role of an account.
ghost use Rattle.std.specs.Prelude.{◌≡◌, ◌+◌, ◌<◌, ◌++◌, ◌∷◌, [], ◌≤◌, ⊤, ℕ, IfOk, IsTrue, ◌↔◌, MatchBool};
ghost use Rattle.std.specs.Prelude.{cond, MatchResult, OnOk, Ok, Err, Some, false, length, nat_abs, slice_get, true};
ghost use Rattle.span_money.specs.Numbers.{whole_number};
ghost use Rattle.span_csv.specs.PositionFaults.{is_memory};
ghost use Rattle.span_csv.specs.Records.{text_at};
ghost use Rattle.span_csv.specs.declared.faults.PositionFault.TheVariants as fault;
ghost use Rattle.span_csv.specs.near.NumberedReading.{are_names, is_one_too_many, is_quantity, next_position};
ghost use Rattle.span_csv.specs.near.NumberedReading.{quantity_alone, quantity_from, with_name};
ghost use Rattle.span_tables.specs.Names.{is_name};
ghost use Rattle.span_tables.specs.near.Positions.{named_position, named_positions, AreNumbered};
ghost use Rattle.span_tables.specs.declared.limits.TheConstants.{MAX_ORDERS, MAX_QUANTITY};

use crate::faults::PositionFault;
use crate::row::{Row, field, text_at};
use indexmap::IndexSet;
use span_money::texts::parse_whole;
use span_tables::limits::MAX_QUANTITY;
use span_tables::name::{Name, is_name};
use span_tables::records::NumberedPosition;

/// Returns whether a quantity is in its range.
pub(crate) fn is_quantity(quantity: i64) -> bool
    ensures value { result ≡ is_quantity quantity }
    ensures size { result ≡ true → nat_abs quantity ≤ MAX_QUANTITY }
{
    quantity.unsigned_abs() <= u64::from(MAX_QUANTITY)
}

// Returns the quantity of a text.
fn quantity_from(at: usize, text: &[u8]) -> Result<i32, PositionFault>
    ensures value { result ≡ quantity_from at (whole_number text.now) }
    ensures size { IfOk result (λ quantity. nat_abs quantity ≤ MAX_QUANTITY) }
{
    let Some(quantity) = parse_whole(text) else {
        return Err(PositionFault::BadNumber { at });
    };
    if !is_quantity(quantity) {
        return Err(PositionFault::OutOfRange { at });
    }
    Ok(quantity as i32)
}

// Returns how many names at the start of a record need no test: the first one, if it is the name at a known index.
fn known_names(stands: bool) -> usize
    ensures { result ≡ cond stands 1 0 }
{
    if stands { 1 } else { 0 }
}

// Returns whether the first `names` fields are names. The first `tested` of them are known to be.
#[inline(always)]
fn are_names(row: &Row, tested: usize, names: usize) -> bool
    requires few { tested ≤ names }
    requires room { names ≤ length row.now }
    requires tested { are_names tested row.now ≡ true }
    ensures value { result ≡ are_names names row.now }
    ensures each { result ≡ true → (i : ℕ) → i < names → is_name (text_at row.now i) ≡ true }
{
    for i in tested..names {
        if !is_name(field(row, i)) {
            return false;
        }
    }
    true
}

/// Returns the quantity of a record with this number of names. `at` is the number of the record. The first `tested`
/// names are known to be names.
#[inline(always)]
#[tactic(auto, unfolding(crate::specs::near::NumberedReading::quantity_alone))]
pub(crate) fn quantity(
    names: usize,
    tested: usize,
    at: usize,
    row: &Row,
) -> Result<i32, PositionFault>
    requires few { names ≤ 3 }
    requires front { tested ≤ names }
    requires tested { are_names tested row.now ≡ true }
    ensures value { result ≡ quantity_alone names at row.now }
    ensures fields { OnOk result (length row.now ≡ names + 1) }
    ensures named { OnOk result ((i : ℕ) → i < names → is_name (text_at row.now i) ≡ true) }
    ensures size { IfOk result (λ quantity. nat_abs quantity ≤ MAX_QUANTITY) }
{
    if row.len() != names + 1 {
        return Err(PositionFault::FieldCount { at });
    }
    if !are_names(row, tested, names) {
        return Err(PositionFault::BadName { at });
    }
    quantity_from(at, field(row, names))
}

/// Returns whether the name at an index is this one.
pub(crate) fn stands_at(known: &[Name], place: u16, name: &[u8]) -> bool
    ensures at { IsTrue result ↔ (slice_get known.now place ≡ Some name.now) }
    ensures is_name { IsTrue result → is_name name.now ≡ true }
{
    match known.get(place as usize) {
        Some(known) => known.as_bytes() == name,
        None => false,
    }
}

// Returns whether a name is new, and the maximum number of names is already known.
fn is_one_too_many(known: &IndexSet<Name>, most: usize, name: &Name) -> bool
    ensures { result ≡ is_one_too_many most known.now.keys name.now }
{
    !known.contains(name) && known.len() == most
}

/// Returns the index of a name. A new name is appended, even if it is one too many. If `stands` is true, the name is at
/// the index `last`.
#[inline(always)]
#[tactic(auto, using(span_tables::proofs::NumberedLaws::among_at))]
pub(crate) fn place(
    most: usize,
    at: usize,
    stands: bool,
    last: u16,
    known: &mut IndexSet<Name>,
    name: &[u8],
) -> Result<u16, PositionFault>
    requires name { is_name name.now ≡ true }
    requires stands { IsTrue stands → slice_get known.old.keys last ≡ Some name.now }
    requires few { length known.old.keys ≤ most }
    requires most { most ≤ MAX_ORDERS }
    ensures room { MatchResult result
        (λ place. is_one_too_many most known.old.keys name.now ≡ false)
        (λ e. MatchBool (is_memory e) ⊤ ((e ≡ fault.TooManyAccounts at) × (is_one_too_many most known.old.keys name.now ≡ true)
        × (known.new.keys ≡ with_name known.old.keys name.now))) }
    ensures taken { OnOk result (known.new.keys ≡ with_name known.old.keys name.now) }
    ensures at { IfOk result (λ place. slice_get known.new.keys place ≡ Some name.now) }
{
    if stands {
        return Ok(last);
    }
    let name = Name::of(name);
    let too_many = is_one_too_many(known, most, &name);
    let (place, _) = known.insert_full(name)?;
    if too_many {
        return Err(PositionFault::TooManyAccounts { at });
    }
    Ok(place as u16)
}

// Returns a position in a contract whose name has been tested.
fn position_at(account: u16, quantity: i32, contract: &[u8]) -> NumberedPosition
    requires { is_name contract.now ≡ true }
    ensures { result ≡ record { contract = contract.now; account = account; quantity = quantity } }
{
    NumberedPosition {
        contract: Name::of(contract),
        account,
        quantity,
    }
}

// Returns the index of the last record's name, or 0 if there is no record.
fn last_place(earlier: &[NumberedPosition]) -> u16 {
    earlier.last().map_or(0, |position| position.account)
}

/// Returns the position of the record after the earlier ones, which are numbered by the known names. `names` is the
/// number of names before its quantity: the first numbers it, and the last is its contract's. At most `most` names may
/// number records. The last record's name is compared first, since it needs no test.
#[inline(always)]
pub(crate) fn next_position(
    names: usize,
    most: usize,
    earlier: &[NumberedPosition],
    known: &mut IndexSet<Name>,
    row: &Row,
) -> Result<NumberedPosition, PositionFault>
    requires at_least { 1 ≤ names }
    requires at_most { names ≤ 3 }
    requires numbered { AreNumbered known.old.keys earlier.now }
    requires few { length known.old.keys ≤ most }
    requires most { most ≤ MAX_ORDERS }
    ensures found { MatchResult result
        (λ p. next_position names most (named_positions known.old.keys earlier.now) row.now
        ≡ Ok (named_position known.new.keys p))
        (λ e. MatchBool (is_memory e) ⊤
        (next_position names most (named_positions known.old.keys earlier.now) row.now ≡ Err e)) }
    ensures named { IfOk result (λ p. named_positions known.new.keys (earlier.now ++ p ∷ [])
        ≡ named_positions known.old.keys earlier.now ++ named_position known.new.keys p ∷ []) }
    ensures numbered { IfOk result (λ p. AreNumbered known.new.keys (earlier.now ++ p ∷ [])) }
    ensures few { OnOk result (length known.new.keys ≤ most) }
    ensures fields { OnOk result (length row.now ≡ names + 1) }
    ensures names { OnOk result ((i : ℕ) → i < names → is_name (text_at row.now i) ≡ true) }
{
    let at = earlier.len() + 1;
    let last = last_place(earlier);
    let stands = stands_at(known.as_slice(), last, text_at(row, 0));
    let quantity = quantity(names, known_names(stands), at, row)?;
    let account = place(most, at, stands, last, known, field(row, 0))?;
    Ok(position_at(account, quantity, field(row, names - 1)))
}
