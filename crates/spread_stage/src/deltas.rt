//! The deltas of the months in which an account holds contracts of a commodity (docs/METHOD.md, Deltas).
ghost use Rattle.std.specs.Prelude.{◌≡◌, ◌+◌, ◌*◌, ◌≤◌, ◌*ℤ◌, nat_abs, [], OnOk, OnErr, IfOk};
ghost use Rattle.std.specs.List.Sorted.{IsNonDecreasingBy};
ghost use Rattle.span_tables.specs.near.Terms.{IsTerms};
ghost use Rattle.span_tables.specs.declared.limits.TheConstants.{MAX_DELTA, MAX_NET, MAX_SCALE, MAX_UNITS};
ghost use Rattle.spread_stage.specs.Deltas.{month_deltas};
ghost use Rattle.spread_stage.specs.Months.{AreMonths, total_size};
ghost use Rattle.spread_stage.specs.near.Uses.{gathered, with_units_last};

use crate::months::{MonthUnits, Months};
use span_money::amounts::Units;
use span_tables::contracts::Terms;
use span_tables::held::Held;
use std::alloc::{AllocError, Global};

// Returns the delta of a net quantity of a contract, in units of 10^-8.
fn units_of(terms: &Terms, net: i64) -> i64
    requires net { nat_abs net ≤ MAX_NET }
    requires terms { IsTerms terms.now }
    ensures value { result ≡ net *ℤ (terms.now).units }
    ensures bound { nat_abs result ≤ MAX_NET * MAX_DELTA * MAX_SCALE }
{
    net * i64::from(terms.units)
}

// Adds units to the last month, or appends a new month if the last month is another one.
fn add(months: &mut Vec<MonthUnits>, month: u32, units: i64) -> Result<(), AllocError>
    requires small { total_size months.old.items + nat_abs units ≤ MAX_UNITS }
    ensures { OnOk result (months.new.items ≡ with_units_last month units months.old.items) }
{
    match months.last() {
        Some(last) if last.month == month => {
            let sum = last.units.get() + units;
            let place = months.len() - 1;
            months[place].units = Units::new(sum);
        }
        _ => months.push(MonthUnits {
            month,
            units: Units::new(units),
        })?,
    }
    Ok(())
}

// Returns the months of a list that is sorted by month, each once, with the sum of its units.
fn joined(alloc: Global, sorted: &[MonthUnits]) -> Result<Vec<MonthUnits>, AllocError>
    requires sorted { IsNonDecreasingBy (λ m. m.month) sorted.now }
    requires small { total_size sorted.now ≤ MAX_UNITS }
    ensures { IfOk result (λ months. months.items ≡ gathered sorted.now) }
{
    let mut months = Vec::with_capacity(alloc, sorted.len())?;
    for i in 0..sorted.len() {
        let next = &sorted[i];
        add(&mut months, next.month, next.units.get())?;
    }
    Ok(months)
}

// Returns the months of a list in any order, strictly ascending, each with the sum of its units.
fn rising(mut months: Vec<MonthUnits>) -> Result<Vec<MonthUnits>, AllocError>
    requires { total_size months.items ≤ MAX_UNITS }
    ensures { IfOk result (λ rising. rising.items ≡ gathered months.items) }
{
    months.sort_by_key(|m| m.month)?;
    joined(*months.allocator(), months.as_slice())
}

// Returns the months in which contracts are held, strictly ascending, each with the sum of its contracts' deltas.
// Reuses the memory of the list that is passed.
//
// If the contracts are in ascending order of month, as they usually are, one pass is enough and nothing is sorted.
#[tactic(auto, unfolding(crate::specs::Deltas::month_deltas))]
fn refilled(mut months: Vec<MonthUnits>, held: &Held<'_>) -> Result<Vec<MonthUnits>, AllocError>
    ensures value { IfOk result (λ months. months.items ≡ month_deltas held.now) }
    ensures kept { IfOk result (λ months. AreMonths months.items) }
{
    months.clear();
    months.reserve(held.len())?;
    let mut latest = 0;
    let mut rise = true;
    for i in 0..held.len() {
        let terms = held.terms(i);
        rise = rise && latest <= terms.month;
        latest = terms.month;
        add(&mut months, terms.month, units_of(terms, held.net(i)))?;
    }
    if rise {
        return Ok(months);
    }
    rising(months)
}

impl Months {
    /// Replaces the months by those in which contracts are held, as `month_deltas` returns them, and reuses their
    /// memory.
    ///
    /// If memory runs out, there are no months.
    pub fn refill(&mut self, held: &Held<'_>) -> Result<(), AllocError>
        ensures ok { OnOk result (self.new ≡ month_deltas held.now) }
        ensures err { OnErr result (self.new ≡ []) }
    {
        let months = refilled(self.take(), held)?;
        *self = Months::new(months);
        Ok(())
    }
}

/// Returns the months (`yyyymm`) in which contracts are held, strictly ascending, each with the sum of its contracts'
/// deltas in units of 10^-8. Fails if memory runs out.
pub fn month_deltas(alloc: Global, held: &Held<'_>) -> Result<Months, AllocError>
    ensures { IfOk result (λ months. months ≡ month_deltas held.now) }
{
    let mut months = Months::none(alloc);
    months.refill(held)?;
    Ok(months)
}
