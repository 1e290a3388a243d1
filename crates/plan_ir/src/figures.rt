//! The figures of a commodity (docs/METHOD.md, "Minimum and requirement").
ghost use Rattle.std.specs.Prelude.{◌≡◌, ◌*◌, ◌<◌, ◌≤◌, length, nat_abs};
ghost use Rattle.inter_credit.specs.declared.requirement.TheConstants.{MAX_PART};
ghost use Rattle.plan_ir.specs.Figures.{figures_from, numbers_of};
ghost use Rattle.plan_ir.specs.Values.{no_figures};
ghost use Rattle.span_tables.specs.declared.limits.TheConstants.{MAX_RATE, MAX_UNITS};

use inter_credit::credit::credit;
use inter_credit::requirement::requirement;
use inter_credit::state::InterState;
use scan_risk::Scan;
use span_money::amounts::Money;
use span_tables::limits::{MAX_HELD, MAX_NET, MAX_PRICE2, MAX_RATE, MAX_SUM};
use spread_stage::charges::{MAX_DELIVERY_CHARGE, MAX_INTRA_CHARGE, rounded_charge};

/// The largest size of a commodity's requirement, in minor units: scan risk, charges, credit and minimum are each at
/// their largest. (The credit is at most half of the doubled price risk.)
pub const MAX_REQUIREMENT: u128 = MAX_SUM as u128
    + MAX_INTRA_CHARGE
    + MAX_DELIVERY_CHARGE
    + MAX_PRICE2 as u128
    + MAX_RATE as u128 * MAX_HELD as u128 * MAX_NET as u128;

/// The figures of a commodity of an account. Amounts are in minor units.
#[derive(Clone, Copy, Debug, PartialEq, Eq)]
pub struct Figures {
    /// Scan risk.
    pub scan: Money,
    /// The active scenario, from 1 to 16.
    pub active: u8,
    /// The intracommodity charge.
    pub intra: Money,
    /// The delivery charge.
    pub delivery: Money,
    /// The intercommodity credit.
    pub credit: Money,
    /// The short option minimum.
    pub minimum: Money,
    /// The requirement.
    pub requirement: Money,
}

impl Figures {
    /// Returns the figures in the order in which a statement prints them (docs/FORMATS.md, Statement: the R line).
    pub fn numbers(&self) -> [i128; 7]
        ensures { result ≡ numbers_of self.now }
    {
        [
            self.scan.get(),
            i128::from(self.active),
            self.intra.get(),
            self.delivery.get(),
            self.credit.get(),
            self.minimum.get(),
            self.requirement.get(),
        ]
    }

    /// Returns the figures of a commodity, given by its number, from the values of its stages (docs/METHOD.md, "Minimum
    /// and requirement"). These are its scan, the exact charge of its intracommodity spreads (in 10^-4 minor units),
    /// its delivery charge, its short option minimum, and the commodities after all intercommodity spreads.
    pub fn of_stages(
        scan: &Scan,
        charge: u128,
        delivery: Money,
        minimum: Money,
        states: &InterState,
        commodity: usize,
    ) -> Figures
        requires risk { nat_abs (scan.now).risk ≤ MAX_PART }
        requires charge { charge ≤ MAX_RATE * MAX_UNITS }
        requires delivery { nat_abs delivery ≤ MAX_PART }
        requires minimum { nat_abs minimum ≤ MAX_PART }
        requires commodity { commodity < length states.now }
        ensures { result ≡ figures_from scan.now charge delivery minimum states.now commodity }
    {
        let intra = rounded_charge(charge);
        let credit = credit(states, commodity);
        Figures {
            scan: scan.risk,
            active: scan.active,
            intra,
            delivery,
            credit,
            minimum,
            requirement: requirement(scan.risk, intra, delivery, credit, minimum),
        }
    }

    /// Returns the figures of a commodity without held contracts: amounts of 0, in scenario 1.
    pub fn of_nothing() -> Figures
        ensures { result ≡ no_figures }
    {
        let none = Money::new(0);
        Figures {
            scan: none,
            active: 1,
            intra: none,
            delivery: none,
            credit: none,
            minimum: none,
            requirement: none,
        }
    }
}
