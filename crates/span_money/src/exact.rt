//! Writing exact decimals (docs/FORMATS.md, Explanation): the text of a number in units of 10^-places, with no digit
//! rounded away and no trailing zero.
ghost use Rattle.std.specs.Prelude.{◌≡◌, ◌++◌, ◌/◌, ◌%◌, ◌^◌, ◌<◌, ◌≤◌, OnOk, decimal};
ghost use Rattle.span_money.specs.ExactDecimals.{exact_decimal, fraction_digits, fraction_text, unsigned_exact};

use itoa::Buffer;
use std::alloc::AllocError;

// The powers of ten, indexed by exponent.
const POWERS: [u64; 19] = [
    1,
    10,
    100,
    1_000,
    10_000,
    100_000,
    1_000_000,
    10_000_000,
    100_000_000,
    1_000_000_000,
    10_000_000_000,
    100_000_000_000,
    1_000_000_000_000,
    10_000_000_000_000,
    100_000_000_000_000,
    1_000_000_000_000_000,
    10_000_000_000_000_000,
    100_000_000_000_000_000,
    1_000_000_000_000_000_000,
];

// Returns 10 to this power.
fn power(exponent: usize) -> u64
    requires { exponent ≤ 18 }
    ensures value { result ≡ 10 ^ exponent }
    ensures positive { 0 < result }
{
    POWERS[exponent]
}

// Splits a number into its whole part and its fraction.
fn split(number: u128, one: u64) -> (u128, u64)
    requires { 0 < one }
    ensures whole { result.0 ≡ number / one }
    ensures rest { result.1 ≡ number % one }
    ensures below { result.1 < one }
{
    match u64::try_from(number) {
        Ok(small) => (u128::from(small / one), small % one),
        Err(_) => (number / u128::from(one), (number % u128::from(one)) as u64),
    }
}

fn push_whole(out: &mut Vec<u8>, whole: u128) -> Result<(), AllocError>
    ensures { OnOk result (out.new.items ≡ out.old.items ++ decimal whole) }
{
    let mut buffer = Buffer::new();
    match u64::try_from(whole) {
        Ok(small) => out.extend_from_slice(buffer.format(small).as_bytes()),
        Err(_) => out.extend_from_slice(buffer.format(whole).as_bytes()),
    }
}

// Appends the digits of a fraction with this number of decimal places, up to the last digit that is not 0.
fn push_digits(out: &mut Vec<u8>, fraction: u64, places: usize) -> Result<(), AllocError>
    requires few { places ≤ 18 }
    requires below { fraction < 10 ^ places }
    ensures { OnOk result (out.new.items ≡ out.old.items ++ fraction_digits places fraction) }
{
    let mut rest = fraction;
    let mut left = places;
    while rest > 0 {
        left -= 1;
        let one = power(left);
        out.push(b'0' + (rest / one) as u8)?;
        rest %= one;
    }
    Ok(())
}

// Appends a point and the digits of a fraction, or nothing if the fraction is 0.
fn push_fraction(out: &mut Vec<u8>, fraction: u64, places: usize) -> Result<(), AllocError>
    requires few { places ≤ 18 }
    requires below { fraction < 10 ^ places }
    ensures { OnOk result (out.new.items ≡ out.old.items ++ fraction_text places fraction) }
{
    if fraction == 0 {
        return Ok(());
    }
    out.push(b'.')?;
    push_digits(out, fraction, places)
}

// Appends the exact decimal of a number that is not negative.
fn push_unsigned(out: &mut Vec<u8>, number: u128, places: usize) -> Result<(), AllocError>
    requires { places ≤ 18 }
    ensures { OnOk result (out.new.items ≡ out.old.items ++ unsigned_exact places number) }
{
    let (whole, fraction) = split(number, power(places));
    push_whole(out, whole)?;
    push_fraction(out, fraction, places)
}

/// Appends the exact decimal of a number in units of 10^-`places` (docs/FORMATS.md, Explanation): 50000000 with 8
/// places is `0.5`. If the result is an `Err`, part of the text may have been appended.
#[tactic(auto, unfolding(crate::specs::ExactDecimals::exact_decimal))]
pub fn push_exact(out: &mut Vec<u8>, number: i128, places: usize) -> Result<(), AllocError>
    requires { places ≤ 18 }
    ensures { OnOk result (out.new.items ≡ out.old.items ++ exact_decimal places number) }
{
    if number < 0 {
        out.push(b'-')?;
    }
    push_unsigned(out, number.unsigned_abs(), places)
}
