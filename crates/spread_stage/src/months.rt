//! Months with their delta positions (docs/METHOD.md, Deltas).
ghost use Rattle.std.specs.Prelude.{◌≡◌, ◌≤◌, nat_abs, []};
ghost use Rattle.span_tables.specs.declared.limits.TheConstants.{MAX_UNITS};
ghost use Rattle.spread_stage.specs.Deltas.{net_delta};
ghost use Rattle.spread_stage.specs.Months.{AreMonths};

use span_money::amounts::Units;
use std::alloc::Global;
use std::marker::Model;
use std::mem;

/// A month (`yyyymm`) and its month delta or remaining delta, in units of 10^-8.
#[derive(Clone, Copy, Debug, PartialEq, Eq)]
pub struct MonthUnits {
    pub month: u32,
    pub units: Units,
}

/// The months in which an account holds contracts of a commodity, strictly ascending, each with its delta.
#[derive(Drop)]
pub struct Months {
    months: Vec<MonthUnits>,
}

impl Model for Months {
    ghost use Rattle.std.specs.Prelude.{List};
    ghost use Rattle.spread_stage.specs.Months.{AreMonths};
    ghost use Rattle.spread_stage.specs.declared.months.MonthUnits.{MonthUnits};

    ghost Value = { List MonthUnits };

    ghost view = { λ m. m.months.items };

    ghost invariant = { λ m. AreMonths m.months.items };
}

// Returns the sum of the units of months, in units of 10^-8.
fn net_delta(months: &[MonthUnits]) -> i64
    requires { AreMonths months.now }
    ensures value { result ≡ net_delta months.now }
    ensures bound { nat_abs result ≤ MAX_UNITS }
{
    let mut net = 0;
    for month in months {
        net += month.units.get();
    }
    net
}

impl Months {
    /// Returns an empty list of months, which takes no memory.
    pub fn none(alloc: Global) -> Months
        ensures { result ≡ [] }
    {
        Months {
            months: Vec::new(alloc),
        }
    }

    /// Wraps months that are strictly ascending.
    pub(crate) fn new(months: Vec<MonthUnits>) -> Months
        requires { AreMonths months.items }
        ensures { result ≡ months.items }
    {
        Months { months }
    }

    /// Moves the months out and leaves none.
    pub(crate) fn take(&mut self) -> Vec<MonthUnits>
        ensures taken { result.items ≡ self.old }
        ensures left { self.new ≡ [] }
    {
        let alloc = *self.months.allocator();
        mem::replace(&mut self.months, Vec::new(alloc))
    }

    /// Returns the months in ascending order, each with its delta.
    pub fn as_slice(&self) -> &[MonthUnits]
        ensures value { result.now ≡ self.now }
        ensures kept { AreMonths self.now }
    {
        &self.months
    }

    /// Returns the net delta, which is the sum over the months, in units of 10^-8.
    pub fn net(&self) -> Units
        ensures value { result ≡ net_delta self.now }
        ensures bound { nat_abs result ≤ MAX_UNITS }
    {
        Units::new(net_delta(&self.months))
    }
}
