//! The quantities of the methodology, each a whole number of its unit (docs/METHOD.md, Units).
ghost use Rattle.std.specs.Prelude.{◌≡◌, ◌≤◌, nat_abs};
ghost use Rattle.span_money.specs.declared.amounts.TheConstants.{MAX_MONEY};

use std::marker::Model;

/// The maximum size of an amount of money, in minor units.
pub const MAX_MONEY: u128 = 1_000_000_000_000_000_000_000_000_000;

/// An amount of money in minor units, of size at most `MAX_MONEY`. A loss or a charge is positive.
#[derive(Clone, Copy, Debug, PartialEq, Eq, PartialOrd, Ord)]
pub struct Money {
    minor_units: i128,
}

impl Model for Money {
    ghost use Rattle.std.specs.Prelude.{ℤ, ◌≤◌, nat_abs};
    ghost use Rattle.span_money.specs.declared.amounts.TheConstants.{MAX_MONEY};

    ghost Value = { ℤ };

    ghost view = { λ money. money.minor_units };

    ghost invariant = { λ money. nat_abs money.minor_units ≤ MAX_MONEY };

    ghost inverse = { λ z. record { minor_units = z } };
}

impl Money {
    /// Returns the amount of this number of minor units.
    pub fn new(minor_units: i128) -> Money
        requires { nat_abs minor_units ≤ MAX_MONEY }
        ensures { result ≡ minor_units }
    {
        Money { minor_units }
    }

    /// Returns the amount in minor units.
    pub fn get(self) -> i128
        ensures value { result ≡ self }
        ensures bound { nat_abs result ≤ MAX_MONEY }
    {
        self.minor_units
    }
}

/// A delta position, in units of 10^-8 deltas. A long position is positive.
#[derive(Clone, Copy, Debug, PartialEq, Eq, PartialOrd, Ord)]
pub struct Units {
    hundred_millionths: i64,
}

impl Model for Units {
    ghost use Rattle.std.specs.Prelude.{ℤ};

    ghost Value = { ℤ };

    ghost view = { λ x. x.hundred_millionths };

    ghost inverse = { λ n. record { hundred_millionths = n } };
}

impl Units {
    /// Returns the position of this number of units of 10^-8.
    pub fn new(hundred_millionths: i64) -> Units
        ensures { result ≡ hundred_millionths }
    {
        Units { hundred_millionths }
    }

    /// Returns the position in units of 10^-8.
    pub fn get(self) -> i64
        ensures { result ≡ self }
    {
        self.hundred_millionths
    }
}

/// The composite delta of a contract, in 10^-4.
#[derive(Clone, Copy, Debug, PartialEq, Eq, PartialOrd, Ord)]
pub struct Delta {
    ten_thousandths: i32,
}

impl Model for Delta {
    ghost use Rattle.std.specs.Prelude.{ℤ};

    ghost Value = { ℤ };

    ghost view = { λ x. x.ten_thousandths };

    ghost inverse = { λ n. record { ten_thousandths = n } };
}

impl Delta {
    /// Returns the delta of this number of ten-thousandths.
    pub fn new(ten_thousandths: i32) -> Delta
        ensures { result ≡ ten_thousandths }
    {
        Delta { ten_thousandths }
    }

    /// Returns the delta in ten-thousandths.
    pub fn get(self) -> i32
        ensures { result ≡ self }
    {
        self.ten_thousandths
    }
}

/// The delta scaling factor of a contract, in 10^-4.
#[derive(Clone, Copy, Debug, PartialEq, Eq, PartialOrd, Ord)]
pub struct Scale {
    ten_thousandths: u32,
}

impl Model for Scale {
    ghost use Rattle.std.specs.Prelude.{ℕ};

    ghost Value = { ℕ };

    ghost view = { λ x. x.ten_thousandths };

    ghost inverse = { λ n. record { ten_thousandths = n } };
}

impl Scale {
    /// Returns the factor of this number of ten-thousandths.
    pub fn new(ten_thousandths: u32) -> Scale
        ensures { result ≡ ten_thousandths }
    {
        Scale { ten_thousandths }
    }

    /// Returns the factor in ten-thousandths.
    pub fn get(self) -> u32
        ensures { result ≡ self }
    {
        self.ten_thousandths
    }
}

/// The delta ratio of a leg of a spread, in 10^-4.
#[derive(Clone, Copy, Debug, Default, PartialEq, Eq, PartialOrd, Ord)]
pub struct Ratio {
    ten_thousandths: u32,
}

impl Model for Ratio {
    ghost use Rattle.std.specs.Prelude.{ℕ};

    ghost Value = { ℕ };

    ghost view = { λ x. x.ten_thousandths };

    ghost inverse = { λ n. record { ten_thousandths = n } };
}

impl Ratio {
    /// Returns the ratio of this number of ten-thousandths.
    pub fn new(ten_thousandths: u32) -> Ratio
        ensures { result ≡ ten_thousandths }
    {
        Ratio { ten_thousandths }
    }

    /// Returns the ratio in ten-thousandths.
    pub fn get(self) -> u32
        ensures { result ≡ self }
    {
        self.ten_thousandths
    }
}
