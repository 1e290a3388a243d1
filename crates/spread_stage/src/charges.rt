//! The intracommodity charge and the delivery charge (docs/METHOD.md, Charges).
ghost use Rattle.std.specs.Prelude.{◌≡◌, ◌+◌, ◌*◌, ◌/◌, ◌<◌, ◌≤◌, true, false, slice_index_or, length, All, sum_by, nat_abs, pos};
ghost use Rattle.span_tables.specs.Accepted.{IsSpot};
ghost use Rattle.span_tables.specs.declared.limits.TheConstants.{MAX_RATE, MAX_SPOT_MONTHS, MAX_UNITS};
ghost use Rattle.spread_stage.specs.Charges.{delivery_charge, intra_charge, left_of, spot_charge, used_of};
ghost use Rattle.spread_stage.specs.Deltas.{units_at};
ghost use Rattle.spread_stage.specs.Months.{AreMonths, MonthsRise, Shrinks};
ghost use Rattle.spread_stage.specs.declared.months.MonthUnits.{MonthUnits};
ghost use Rattle.spread_stage.specs.near.SpotIndex.{AreSpots};
ghost use Rattle.spread_stage.specs.near.Uses.{IsBehind, IsFirst};

use crate::months::{MonthUnits, Months};
use crate::spot_index::SpotIndex;
use crate::tiers::{TierState, at_rate};
use span_money::amounts::{Money, Units};
use span_money::bits::take_first;
use span_money::division::ceil_div;
use span_tables::limits::{MAX_RATE, MAX_SPOT_MONTHS, MAX_UNITS};
use span_tables::records::Spot;

// One spread in 10^-4 spreads, which is also one minor unit in the exact sum of spreads times rates.
const WHOLE_SPREAD: u128 = 10_000;
// One delta in units of 10^-8, which is also one minor unit in the exact sum of units times rates.
const WHOLE_DELTA: u128 = 100_000_000;

/// The largest intracommodity charge, in minor units: as many 10^-4 spreads as there are units, at the largest rate.
pub const MAX_INTRA_CHARGE: u128 = MAX_UNITS as u128 * MAX_RATE as u128 / WHOLE_SPREAD;

/// The largest delivery charge, in minor units: in each spot month, all units both used and left, at the largest rate.
pub const MAX_DELIVERY_CHARGE: u128 = 2
    * MAX_UNITS as u128
    * MAX_RATE as u128
    * MAX_SPOT_MONTHS as u128
    / WHOLE_DELTA;

/// Returns the intracommodity charge in minor units, rounded up once, for the exact sum of spreads times rates in 10^-4
/// minor units.
#[tactic(auto, unfolding(crate::specs::Charges::intra_charge))]
pub fn rounded_charge(exact: u128) -> Money
    requires { exact ≤ MAX_RATE * MAX_UNITS }
    ensures value { result ≡ pos (intra_charge exact) }
    ensures bound { nat_abs result ≤ MAX_INTRA_CHARGE }
{
    Money::new(ceil_div(exact, WHOLE_SPREAD) as i128)
}

/// Returns the intracommodity charge of the spreads formed, in minor units, rounded up once.
pub fn intra_charge(tiers: &TierState) -> Money
    ensures value { result ≡ pos (intra_charge tiers.now.charge) }
    ensures bound { nat_abs result ≤ MAX_INTRA_CHARGE }
{
    rounded_charge(tiers.charge())
}

/// What spreads used and left of a spot month's delta, as sizes in units of 10^-8, and the month's exact charge in
/// 10^-8 minor units.
#[derive(Clone, Copy, Debug, PartialEq, Eq)]
pub struct SpotUse {
    pub used: u64,
    pub left: u64,
    pub charge: u128,
}

// Returns whether all months in front of a place are below a month (`yyyymm`).
#[inline(always)]
fn is_behind(months: &[MonthUnits], place: usize, month: u32) -> bool
    requires { MonthsRise months.now }
    ensures within { result ≡ true → place ≤ length months.now }
    ensures behind { result ≡ true → IsBehind months.now place month }
{
    place == 0 || place <= months.len() && months[place - 1].month < month
}

// Returns the place of the first month that is not below a month (`yyyymm`), or the number of months if all are below it.
// It looks from a place on if all months in front of that place are below the month.
#[inline(always)]
fn first_from(months: &[MonthUnits], near: usize, month: u32) -> usize
    requires { MonthsRise months.now }
    ensures { IsFirst months.now result month }
{
    let mut place = if is_behind(months, near, month) {
        near
    } else {
        0
    };
    while place < months.len() && months[place].month < month {
        place += 1;
    }
    place
}

// Returns whether a month (`yyyymm`) is held. If it is, it has this place, since the place is the place of the first month
// that is not below it.
#[inline(always)]
fn is_at(months: &[MonthUnits], first: usize, month: u32) -> bool
    requires rise { MonthsRise months.now }
    requires first { IsFirst months.now first month }
    ensures within { result ≡ true → first < length months.now }
    ensures at { result ≡ true → (m : MonthUnits) → (slice_index_or months.now first m).month ≡ month }
    ensures none { result ≡ false → units_at months.now month ≡ pos 0 }
{
    first < months.len() && months[first].month == month
}

// Returns what spreads used and left of a month's delta, as sizes in units of 10^-8. `first` is the place of the first
// month that is not below the month. The months and the remaining deltas have the same places.
#[inline(always)]
fn used_and_left(
    months: &[MonthUnits],
    rests: &[MonthUnits],
    first: usize,
    month: u32,
) -> (u64, u64)
    requires months { AreMonths months.now }
    requires shrinks { Shrinks months.now rests.now }
    requires first { IsFirst months.now first month }
    ensures used { result.0 ≡ used_of months.now rests.now month }
    ensures left { result.1 ≡ left_of rests.now month }
    ensures bound { result.0 + result.1 ≤ MAX_UNITS }
{
    if !is_at(months, first, month) {
        return (0, 0);
    }
    let left = rests[first].units.get().unsigned_abs();
    let whole = months[first].units.get().unsigned_abs();
    (whole - left, left)
}

// Returns what spreads used and left of a spot month's delta, and its charge.
#[inline(always)]
fn use_of(months: &[MonthUnits], rests: &[MonthUnits], first: usize, spot: &Spot) -> SpotUse
    requires months { AreMonths months.now }
    requires shrinks { Shrinks months.now rests.now }
    requires first { IsFirst months.now first spot.now.month }
    requires spot { IsSpot spot.now }
    ensures used { result.used ≡ used_of months.now rests.now spot.now.month }
    ensures left { result.left ≡ left_of rests.now spot.now.month }
    ensures charge { result.charge ≡ spot_charge months.now rests.now spot.now }
    ensures units_bound { result.used + result.left ≤ MAX_UNITS }
    ensures charge_bound { result.charge ≤ 2 * (MAX_UNITS * MAX_RATE) }
{
    let (used, left) = used_and_left(months, rests, first, spot.month);
    let charge = at_rate(used, spot.spread_rate) + at_rate(left, spot.outright_rate);
    SpotUse { used, left, charge }
}

// Returns the sum of the charges of spot months, in 10^-8 minor units. It leaves out each spot month that the index does
// not find among the months. It looks for each month from the place of the month before on, since spot months usually rise.
fn spot_charges(
    months: &[MonthUnits],
    rests: &[MonthUnits],
    spots: &[Spot],
    index: &SpotIndex,
) -> u128
    requires months { AreMonths months.now }
    requires shrinks { Shrinks months.now rests.now }
    requires few { length spots.now ≤ MAX_SPOT_MONTHS }
    requires spots { All IsSpot spots.now }
    requires index { AreSpots index.now spots.now }
    ensures value { result ≡ sum_by (spot_charge months.now rests.now) spots.now }
    ensures bound { result ≤ 2 * (MAX_UNITS * MAX_RATE) * MAX_SPOT_MONTHS }
{
    let mut sum = 0;
    let mut first = 0;
    let mut left = index.among(months);
    while let Some(number) = take_first(&mut left) {
        if let Some(spot) = spots.get(number) {
            first = first_from(months, first, spot.month);
            sum += use_of(months, rests, first, spot).charge;
        }
    }
    sum
}

/// Returns the delivery charge of the spot months, in minor units, rounded up once. In each month, the delta that
/// spreads used is charged at the spread rate, and the remaining delta at the outright rate.
#[tactic(auto, unfolding(crate::specs::Charges::delivery_charge))]
pub(crate) fn delivery_of(
    months: &Months,
    rests: &[MonthUnits],
    spots: &[Spot],
    index: &SpotIndex,
) -> Money
    requires shrinks { Shrinks months.now rests.now }
    requires few { length spots.now ≤ MAX_SPOT_MONTHS }
    requires spots { All IsSpot spots.now }
    requires index { AreSpots index.now spots.now }
    ensures value { result ≡ pos (delivery_charge months.now rests.now spots.now) }
    ensures bound { nat_abs result ≤ MAX_DELIVERY_CHARGE }
{
    let sum = spot_charges(months.as_slice(), rests, spots, index);
    Money::new(ceil_div(sum, WHOLE_DELTA) as i128)
}

/// Returns the delivery charge of the spot months after the spreads of a state, in minor units, rounded up once.
pub fn delivery(months: &Months, tiers: &TierState, spots: &[Spot]) -> Money
    requires shrinks { Shrinks months.now tiers.now.rests }
    requires few { length spots.now ≤ MAX_SPOT_MONTHS }
    requires spots { All IsSpot spots.now }
    ensures value { result ≡ pos (delivery_charge months.now tiers.now.rests spots.now) }
    ensures bound { nat_abs result ≤ MAX_DELIVERY_CHARGE }
{
    delivery_of(months, tiers.rests(), spots, &SpotIndex::new(spots))
}

/// Returns what spreads used and left of a spot month's delta, and its charge at the month's two rates. If the month
/// has no delta, all three are 0.
pub fn spot_use(months: &Months, tiers: &TierState, spot: &Spot) -> SpotUse
    requires shrinks { Shrinks months.now tiers.now.rests }
    requires spot { IsSpot spot.now }
    ensures used { result.used ≡ used_of months.now tiers.now.rests spot.now.month }
    ensures left { result.left ≡ left_of tiers.now.rests spot.now.month }
    ensures charge { result.charge ≡ spot_charge months.now tiers.now.rests spot.now }
    ensures units_bound { result.used + result.left ≤ MAX_UNITS }
    ensures charge_bound { result.charge ≤ 2 * (MAX_UNITS * MAX_RATE) }
{
    let months = months.as_slice();
    let first = first_from(months, 0, spot.month);
    use_of(months, tiers.rests(), first, spot)
}

/// Returns the delta of a month (`yyyymm`), in units of 10^-8, or 0 if the month is not held.
pub fn month_units(months: &Months, month: u32) -> Units
    ensures { result ≡ units_at months.now month }
{
    let months = months.as_slice();
    let first = first_from(months, 0, month);
    if !is_at(months, first, month) {
        return Units::new(0);
    }
    months[first].units
}
