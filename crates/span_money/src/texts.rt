//! Number texts (docs/FORMATS.md, Names and numbers): reading whole numbers, decimals with at most four decimal places
//! and months, and writing plain decimals.
ghost use Rattle.std.specs.Prelude.{◌≡◌, ◌+◌, ◌*◌, ◌-◌, ◌^◌, ◌<◌, ◌≤◌, ◌++◌, ℕ, List, true, if◌then◌else◌, length};
ghost use Rattle.std.specs.Prelude.{drop, Some, None, IfSome, OnSome, option_map, pos, nat_abs};
ghost use Rattle.std.specs.Char.{is_ascii_digit};
ghost use Rattle.std.specs.Fmt.{signed_decimal};
ghost use Rattle.std.specs.List.{prefix_len, take_while};
ghost use Rattle.span_money.specs.Numbers.{are_digits, decimal_number, digits_value, fraction, has_minus, is_month};
ghost use Rattle.span_money.specs.Numbers.{month_number, unsigned_decimal, whole_number, with_sign, without_minus};

use arrayvec::ArrayString;
use itoa::Buffer;

// The maximum number of digits of a whole number.
const WHOLE_DIGITS: usize = 18;
// The maximum number of digits before the point of a decimal.
const INTEGER_DIGITS: usize = 6;
// The maximum number of digits after the point of a decimal.
const PLACES: usize = 4;
// One, in the unit of decimals, 10^-4.
const ONE: u64 = 10_000;
// The number of digits of a month.
const MONTH_DIGITS: usize = 6;
// The first year of a valid month.
const FIRST_YEAR: u32 = 1900;
// The last year of a valid month.
const LAST_YEAR: u32 = 2999;

// Returns the number that 1 to `most` digits spell, or `None` for any other text.
fn parse_digits(text: &[u8], most: usize) -> Option<u64>
    requires { most ≤ 18 }
    ensures value { result ≡ (if are_digits most text.now then Some (digits_value text.now) else None) }
    ensures below { IfSome result (λ n. n < 10 ^ length text.now) }
    ensures small { IfSome result (λ n. n < 10 ^ most) }
    ensures within { OnSome result ((0 < length text.now) × (length text.now ≤ most)) }
{
    if text.is_empty() || text.len() > most {
        return None;
    }
    let mut n: u64 = 0;
    for byte in text {
        if !byte.is_ascii_digit() {
            return None;
        }
        n = n * 10 + u64::from(*byte - b'0');
    }
    Some(n)
}

// Returns whether a text begins with a minus, and the text after it.
fn split_minus(text: &[u8]) -> (bool, &[u8])
    ensures minus { result.0 ≡ has_minus text.now }
    ensures rest { result.1.now ≡ without_minus text.now }
{
    match text {
        [b'-', rest @ ..] => (true, rest),
        _ => (false, text),
    }
}

// Returns the number, negated if the flag is set.
fn with_minus(negative: bool, n: u64) -> i64
    requires { n < 2 ^ 63 }
    ensures value { result ≡ with_sign negative n }
    ensures size { nat_abs result ≡ n }
{
    if negative { -(n as i64) } else { n as i64 }
}

/// Reads a whole number: an optional `-` and 1 to 18 digits. Returns `None` for any other text.
pub fn parse_whole(text: &[u8]) -> Option<i64>
    ensures value { result ≡ whole_number text.now }
    ensures bound { IfSome result (λ z. nat_abs z < 10 ^ 18) }
{
    let (negative, digits) = split_minus(text);
    let n = parse_digits(digits, WHOLE_DIGITS)?;
    Some(with_minus(negative, n))
}

// Splits a text after the digits that it begins with, at most `WHOLE_DIGITS` of them, and returns the number that they
// spell and the rest of the text.
fn split_number(text: &[u8]) -> Option<(u64, &[u8])>
    ensures parts { IfSome result (λ p. (digits : List ℕ) × (text.now ≡ digits ++ p.1.now) × (are_digits 18 digits ≡ true)
        × (p.0 ≡ digits_value digits)) }
    ensures small { IfSome result (λ p. p.0 < 10 ^ 18) }
{
    let most = text.len().min(WHOLE_DIGITS);
    let mut n: u64 = 0;
    let mut len = 0;
    while len < most && text[len].is_ascii_digit() {
        n = n * 10 + u64::from(text[len] - b'0');
        len += 1;
    }
    if len == 0 {
        return None;
    }
    Some((n, &text[len..]))
}

/// Splits a text after the whole number that it begins with: an optional `-` and 1 to 18 digits. Returns the number and
/// the rest of the text, or `None` if the text does not begin with a whole number.
pub fn split_whole(text: &[u8]) -> Option<(i64, &[u8])>
    ensures { IfSome result (λ p. (front : List ℕ) × (text.now ≡ front ++ p.1.now) × (whole_number front ≡ Some p.0)) }
{
    let (negative, digits) = split_minus(text);
    let (n, rest) = split_number(digits)?;
    Some((with_minus(negative, n), rest))
}

// Returns the number of digits that a text begins with.
fn count_leading_digits(text: &[u8]) -> usize
    ensures { result ≡ prefix_len is_ascii_digit text.now }
{
    text.iter().take_while(|byte| byte.is_ascii_digit()).count()
}

// Splits a text into its leading digits and the remaining bytes.
fn split_digits(text: &[u8]) -> (&[u8], &[u8])
    ensures front { result.0.now ≡ take_while is_ascii_digit text.now }
    ensures back { result.1.now ≡ drop (length (take_while is_ascii_digit text.now)) text.now }
{
    text.split_at(count_leading_digits(text))
}

// Returns the value of this number of digits after a point, in 10^-4.
fn scaled(part: u64, digits: usize) -> u64
    requires some { 1 ≤ digits }
    requires few { digits ≤ 4 }
    requires small { part < 10 ^ digits }
    ensures value { result ≡ part * 10 ^ (4 - digits) }
    ensures bound { result < 10000 }
{
    match digits {
        1 => part * 1000,
        2 => part * 100,
        3 => part * 10,
        _ => part,
    }
}

// Reads the text after the digits of a decimal, in 10^-4: nothing, or a point and 1 to 4 digits.
fn parse_fraction(text: &[u8]) -> Option<u64>
    ensures value { result ≡ fraction text.now }
    ensures bound { IfSome result (λ n. n < 10000) }
{
    match text {
        [] => Some(0),
        [b'.', digits @ ..] => {
            let part = parse_digits(digits, PLACES)?;
            Some(scaled(part, digits.len()))
        }
        _ => None,
    }
}

// Reads a decimal without its sign, in 10^-4: 1 to 6 digits and a fraction.
fn parse_unsigned_decimal(text: &[u8]) -> Option<u64>
    ensures value { result ≡ unsigned_decimal text.now }
    ensures bound { IfSome result (λ n. n < 10 ^ 10) }
{
    let (front, rest) = split_digits(text);
    let whole = parse_digits(front, INTEGER_DIGITS)?;
    let part = parse_fraction(rest)?;
    Some(whole * ONE + part)
}

/// Reads a decimal, in 10^-4: an optional `-`, 1 to 6 digits, and optionally a point and 1 to 4 digits. Returns `None`
/// for any other text.
pub fn parse_decimal(text: &[u8]) -> Option<i64>
    ensures value { result ≡ decimal_number text.now }
    ensures bound { IfSome result (λ z. nat_abs z < 10 ^ 10) }
{
    let (negative, digits) = split_minus(text);
    let n = parse_unsigned_decimal(digits)?;
    Some(with_minus(negative, n))
}

/// Reads six digits `yyyymm` as a number, and returns `None` for any other text. `is_month` checks whether the number
/// is a valid month.
pub fn parse_month(text: &[u8]) -> Option<u32>
    ensures value { option_map pos result ≡ month_number text.now }
    ensures bound { IfSome result (λ n. n < 10 ^ 6) }
{
    if text.len() != MONTH_DIGITS {
        return None;
    }
    let n = parse_digits(text, MONTH_DIGITS)?;
    Some(n as u32)
}

/// Returns whether the number is a month `yyyymm` of the years 1900 to 2999.
pub fn is_month(month: u32) -> bool
    ensures { result ≡ is_month month }
{
    let year = month / 100;
    let month_of_year = month % 100;
    FIRST_YEAR <= year && year <= LAST_YEAR && 1 <= month_of_year && month_of_year <= 12
}

/// Returns the text of a whole number as a plain decimal.
pub fn decimal(n: i128) -> ArrayString<40>
    ensures { result.bytes ≡ signed_decimal n }
{
    let mut buffer = Buffer::new();
    let mut text = ArrayString::new();
    text.push_str(buffer.format(n));
    text
}
