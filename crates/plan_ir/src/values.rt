//! The values of a plan's steps.
ghost use Rattle.std.specs.Prelude.{◌≡◌};
ghost use Rattle.plan_ir.specs.Values.{IsHeld, IsSums, IsScan, IsMonths, IsTiers, IsAmount, IsFigures, IsInterState, IsTotal};
ghost use Rattle.plan_ir.specs.Values.{IsPremium, premium_in};
ghost use Rattle.plan_ir.specs.Values.{held_in, sums_in, scan_in, months_in, tier_state_in, amount_in, figures_in, states_in, total_in};

use crate::figures::Figures;
use inter_credit::state::InterState;
use scan_risk::Scan;
use span_money::amounts::Money;
use span_tables::held::{Held, OwnedHeld};
use spread_stage::months::Months;
use spread_stage::tiers::TierState;

/// The value of a step. Each operation gives values of one kind.
#[derive(Drop)]
pub enum Value {
    /// The contracts of a commodity that the account holds, with their net quantities, in contracts.
    Held(OwnedHeld),
    /// The sums of the scenarios 1 to 16, in minor units.
    Sums([i64; 16]),
    /// The scan of a commodity's sums: scan risk and doubled price risk, in minor units, and two scenarios.
    Scan(Scan),
    /// The held months of a commodity with their deltas, in 10^-8.
    Months(Months),
    /// The remaining deltas of the months after intracommodity spreads, in 10^-8, and the exact charge so far, in 10^-4
    /// minor units.
    Tiers(TierState),
    /// The delivery charge, the short option minimum or the option value of a commodity, in minor units.
    Amount(Money),
    /// The figures of a commodity.
    Figures(Figures),
    /// The states of all commodities in the intercommodity stage: net and remaining deltas, doubled price risks and
    /// weights.
    Inter(InterState),
    /// The sum of the requirements of the commodities so far, in minor units.
    Total(Money),
    /// The sum of the option values of the commodities so far, in minor units.
    Premium(Money),
}

impl Value {
    /// Returns the held contracts. The value must be of that kind.
    pub fn held(&self) -> Held<'_>
        requires { IsHeld self.now }
        ensures { result ≡ held_in self.now }
    {
        match self {
            Value::Held(held) => held.as_held(),
            _ => unreachable!(),
        }
    }

    /// Returns the sums of the scenarios 1 to 16, in minor units. The value must be of that kind.
    pub fn sums(&self) -> &[i64; 16]
        requires { IsSums self.now }
        ensures { result.now ≡ sums_in self.now }
    {
        match self {
            Value::Sums(sums) => sums,
            _ => unreachable!(),
        }
    }

    /// Returns the scan. The value must be of that kind.
    pub fn scan(&self) -> &Scan
        requires { IsScan self.now }
        ensures { result.now ≡ scan_in self.now }
    {
        match self {
            Value::Scan(scan) => scan,
            _ => unreachable!(),
        }
    }

    /// Returns the months. The value must be of that kind.
    pub fn months(&self) -> &Months
        requires { IsMonths self.now }
        ensures { result.now ≡ months_in self.now }
    {
        match self {
            Value::Months(months) => months,
            _ => unreachable!(),
        }
    }

    /// Returns the months after spreads. The value must be of that kind.
    pub fn tiers(&self) -> &TierState
        requires { IsTiers self.now }
        ensures { result.now ≡ tier_state_in self.now }
    {
        match self {
            Value::Tiers(tiers) => tiers,
            _ => unreachable!(),
        }
    }

    /// Returns the amount, in minor units. The value must be of that kind.
    pub fn amount(&self) -> Money
        requires { IsAmount self.now }
        ensures { result ≡ amount_in self.now }
    {
        match self {
            Value::Amount(amount) => *amount,
            _ => unreachable!(),
        }
    }

    /// Returns the figures. The value must be of that kind.
    pub fn figures(&self) -> &Figures
        requires { IsFigures self.now }
        ensures { result.now ≡ figures_in self.now }
    {
        match self {
            Value::Figures(figures) => figures,
            _ => unreachable!(),
        }
    }

    /// Returns the commodities in the intercommodity stage. The value must be of that kind.
    pub fn inter(&self) -> &InterState
        requires { IsInterState self.now }
        ensures { result.now ≡ states_in self.now }
    {
        match self {
            Value::Inter(inter) => inter,
            _ => unreachable!(),
        }
    }

    /// Returns the total, in minor units. The value must be of that kind.
    pub fn total(&self) -> Money
        requires { IsTotal self.now }
        ensures { result ≡ total_in self.now }
    {
        match self {
            Value::Total(total) => *total,
            _ => unreachable!(),
        }
    }

    /// Returns the sum of option values, in minor units. The value must be of that kind.
    pub fn premium(&self) -> Money
        requires { IsPremium self.now }
        ensures { result ≡ premium_in self.now }
    {
        match self {
            Value::Premium(premium) => *premium,
            _ => unreachable!(),
        }
    }
}
