//! Exact division, which rounds every figure (docs/METHOD.md, Rounding).
ghost use Rattle.std.specs.Prelude.{◌≡◌, ◌*◌, ◌/◌, ◌<◌, ◌≤◌};
ghost use Rattle.std.specs.Int.{div_ceil};

use crate::amounts::Ratio;
use crate::divisor::Divisor;

/// Returns the quotient, rounded down.
pub fn floor_div(n: u128, d: u128) -> u128
    requires { 0 < d }
    ensures { result ≡ n / d }
{
    n / d
}

/// Returns the quotient, rounded up.
pub fn ceil_div(n: u128, d: u128) -> u128
    requires { 0 < d }
    ensures { result ≡ div_ceil n d }
{
    // Nearly all numbers fit in 64 bits, which the processor divides in hardware.
    match (u64::try_from(n), u64::try_from(d)) {
        (Ok(n), Ok(d)) => u128::from(n.div_ceil(d)),
        _ => n.div_ceil(d),
    }
}

/// Returns the greatest n such that `n * ratio` is at most `rest` (in units of 10^-8). It is the number of spreads that
/// fit, in 10^-4 spreads. Code that divides by the same ratio often keeps its `Divisor`.
pub fn greatest_fit(rest: u64, ratio: Ratio) -> u64
    requires { 0 < ratio }
    ensures value { result ≡ rest / ratio }
    ensures fits { result * ratio ≤ rest }
{
    Divisor::new(ratio).greatest_fit(rest)
}
