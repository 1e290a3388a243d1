//! Ratios by which units are divided without a division (docs/METHOD.md, Rounding).
ghost use Rattle.std.specs.Prelude.{◌≡◌, ◌*◌, ◌/◌, ◌<◌, ◌≤◌};

use crate::amounts::Ratio;
use std::marker::Model;

/// The delta ratio of a leg of a spread, in 10^-4, with its reciprocal. A division by the ratio is then a
/// multiplication, which the processor does several times faster.
#[derive(Clone, Copy, Debug, Default, PartialEq, Eq, PartialOrd, Ord)]
pub struct Divisor {
    ten_thousandths: u32,
    // 2^64 - 1 divided by the ratio, rounded down, or 0 if the ratio is 0.
    reciprocal: u64,
}

impl Model for Divisor {
    ghost use Rattle.std.specs.Prelude.{ℕ, ◌≡◌};
    ghost use Rattle.span_money.specs.near.Reciprocals.{reciprocal_of};

    ghost Value = { ℕ };

    ghost view = { λ x. x.ten_thousandths };

    ghost invariant = { λ x. x.reciprocal ≡ reciprocal_of x.ten_thousandths };

    ghost inverse = { λ n. record { ten_thousandths = n; reciprocal = reciprocal_of n } };
}

impl Divisor {
    /// Returns the divisor of a ratio.
    pub fn new(ratio: Ratio) -> Divisor
        ensures { result ≡ ratio }
    {
        let ten_thousandths = ratio.get();
        Divisor {
            ten_thousandths,
            reciprocal: u64::MAX
                .checked_div(u64::from(ten_thousandths))
                .unwrap_or(0),
        }
    }

    /// Returns the ratio in ten-thousandths.
    pub fn get(self) -> u32
        ensures { result ≡ self }
    {
        self.ten_thousandths
    }

    /// Returns the greatest n such that `n * ratio` is at most `rest` (in units of 10^-8). It is the number of spreads
    /// that fit, in 10^-4 spreads.
    pub fn greatest_fit(self, rest: u64) -> u64
        requires { 0 < self }
        ensures value { result ≡ rest / self }
        ensures fits { result * self ≤ rest }
    {
        // The product with the reciprocal is the number of spreads that fit, or one less.
        let fit = ((u128::from(rest) * u128::from(self.reciprocal)) >> 64) as u64;
        let ratio = u64::from(self.ten_thousandths);
        if rest - fit * ratio >= ratio {
            fit + 1
        } else {
            fit
        }
    }
}
