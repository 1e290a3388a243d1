//! The values of fields: a field is parsed once, to its value or to none if it fails a test of its form.
ghost use Rattle.std.specs.Prelude.{◌≡◌, ◌≤◌, ◌<◌, ◌^◌, IfSome, neg_ℤ, pos, unwrap_or};
ghost use Rattle.span_csv.specs.declared.grammar.FieldForm.TheVariants as form;
ghost use Rattle.span_csv.specs.near.Grammar.{IsRead, is_right};
ghost use Rattle.span_csv.specs.Records.{a_version, an_array_value, count_at, decimal_at, is_within, method_at, product_at};
ghost use Rattle.span_csv.specs.Records.{ratio_at, side_at, text_at, whole_at};
ghost use Rattle.span_money.specs.Numbers.{positive_part};
ghost use Rattle.span_tables.specs.declared.limits.TheConstants.{MAX_DELTA, MAX_RATIO, MAX_SCALE};

use crate::grammar::is_currency;
use crate::row::{Row, text_at};
use span_money::amounts::{Delta, Ratio, Scale};
use span_money::texts::{is_month, parse_decimal, parse_month, parse_whole};
use span_tables::limits::{MAX_ARRAY_VALUE, MAX_DELTA, MAX_PROFILE, MAX_RATIO, MAX_SCALE};
use span_tables::name::Name;
use span_tables::records::{MinimumMethod, ProductKind};
use span_tables::sides::Side;

/// Returns the name at an index.
pub(crate) fn name_in(row: &Row, i: usize) -> Option<Name>
    ensures { IsRead (is_right form.Name (text_at row.now i)) (text_at row.now i) result }
{
    Name::new(text_at(row, i))
}

/// Returns the currency at an index.
pub(crate) fn currency_in(row: &Row, i: usize) -> Option<[u8; 3]>
    ensures { IsRead (is_right form.Currency (text_at row.now i)) (text_at row.now i) result }
{
    let text = text_at(row, i);
    if !is_currency(text) {
        return None;
    }
    let mut currency = [0; 3];
    currency.copy_from_slice(text);
    Some(currency)
}

/// Returns the kind of contract at an index.
pub(crate) fn product_in(row: &Row, i: usize) -> Option<ProductKind>
    ensures { IsRead (is_right form.Product (text_at row.now i)) (product_at row.now i) result }
{
    match text_at(row, i) {
        b"F" => Some(ProductKind::Future),
        b"C" => Some(ProductKind::Call),
        b"P" => Some(ProductKind::Put),
        _ => None,
    }
}

/// Returns the minimum method at an index.
pub(crate) fn method_in(row: &Row, i: usize) -> Option<MinimumMethod>
    ensures { IsRead (is_right form.Method (text_at row.now i)) (method_at row.now i) result }
{
    match text_at(row, i) {
        b"SUM" => Some(MinimumMethod::Sum),
        b"MAX" => Some(MinimumMethod::Max),
        _ => None,
    }
}

/// Returns the side at an index.
pub(crate) fn side_in(row: &Row, i: usize) -> Option<Side>
    ensures { IsRead (is_right form.Side (text_at row.now i)) (side_at row.now i) result }
{
    match text_at(row, i) {
        b"A" => Some(Side::A),
        b"B" => Some(Side::B),
        _ => None,
    }
}

// Returns the number, if it is between the lowest and the highest value.
fn count_within(low: u32, high: u32, number: Option<i64>) -> Option<u32>
    ensures value { IsRead (is_within (pos low) (pos high) number) (positive_part (unwrap_or number (pos 0))) result }
    ensures most { IfSome result (λ n. n ≤ high) }
{
    match number {
        Some(n) if i64::from(low) <= n && n <= i64::from(high) => Some(n as u32),
        _ => None,
    }
}

// Returns the number, if its absolute value is at most this one.
fn size_within(most: u32, number: Option<i64>) -> Option<i32>
    requires { most < 2 ^ 31 }
    ensures { IsRead (is_within (neg_ℤ (pos most)) (pos most) number) (unwrap_or number (pos 0)) result }
{
    match number {
        Some(n) if -i64::from(most) <= n && n <= i64::from(most) => Some(n as i32),
        _ => None,
    }
}

/// Returns the whole number from `low` to `high` at an index.
pub(crate) fn count_in(row: &Row, i: usize, low: u32, high: u32) -> Option<u32>
    ensures value { IsRead (is_right (form.Whole (pos low) (pos high)) (text_at row.now i)) (count_at row.now i) result }
    ensures most { IfSome result (λ n. n ≤ high) }
{
    count_within(low, high, parse_whole(text_at(row, i)))
}

/// Returns the profile for the version at an index.
pub(crate) fn profile_in(row: &Row, i: usize) -> Option<u8>
    ensures { IsRead (is_right a_version (text_at row.now i)) (count_at row.now i) result }
{
    let version = count_in(row, i, 1, u32::from(MAX_PROFILE))?;
    Some(version as u8)
}

/// Returns the month `yyyymm` at an index.
pub(crate) fn month_in(row: &Row, i: usize) -> Option<u32>
    ensures { IsRead (is_right form.Month (text_at row.now i)) (count_at row.now i) result }
{
    match parse_month(text_at(row, i)) {
        Some(month) if is_month(month) => Some(month),
        _ => None,
    }
}

/// Returns the array value at an index.
pub(crate) fn array_value_in(row: &Row, i: usize) -> Option<i32>
    ensures { IsRead (is_right an_array_value (text_at row.now i)) (whole_at row.now i) result }
{
    size_within(MAX_ARRAY_VALUE, parse_whole(text_at(row, i)))
}

/// Returns the delta at an index, in 10^-4.
pub(crate) fn delta_in(row: &Row, i: usize) -> Option<Delta>
    ensures { IsRead (is_right (form.Decimal (neg_ℤ (pos MAX_DELTA)) (pos MAX_DELTA)) (text_at row.now i)) (decimal_at row.now i) result }
{
    let delta = size_within(MAX_DELTA, parse_decimal(text_at(row, i)))?;
    Some(Delta::new(delta))
}

/// Returns the scale at an index, in 10^-4.
pub(crate) fn scale_in(row: &Row, i: usize) -> Option<Scale>
    ensures { IsRead (is_right (form.Decimal (pos 1) (pos MAX_SCALE)) (text_at row.now i)) (ratio_at row.now i) result }
{
    let scale = count_within(1, MAX_SCALE, parse_decimal(text_at(row, i)))?;
    Some(Scale::new(scale))
}

/// Returns the ratio at an index, in 10^-4.
pub(crate) fn ratio_in(row: &Row, i: usize) -> Option<Ratio>
    ensures { IsRead (is_right (form.Decimal (pos 1) (pos MAX_RATIO)) (text_at row.now i)) (ratio_at row.now i) result }
{
    let ratio = count_within(1, MAX_RATIO, parse_decimal(text_at(row, i)))?;
    Some(Ratio::new(ratio))
}
