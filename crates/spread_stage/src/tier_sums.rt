//! The spreads of a commodity in a whole run, formed over the sums of the sides of its tiers (docs/METHOD.md,
//! Intracommodity spreads).
ghost use Rattle.std.specs.Prelude.{◌≡◌, ℕ, ◌+◌, ◌-◌, ◌*◌, ◌/◌, ◌^◌, ◌<◌, ◌≤◌, List, [], ◌∷◌, length, map, fold, All};
ghost use Rattle.std.specs.Prelude.{◌==◌, false, if◌then◌else◌, nat_abs};
ghost use Rattle.span_tables.specs.Accepted.{IsIntra};
ghost use Rattle.span_tables.specs.Names.{has_repeat};
ghost use Rattle.span_tables.specs.Rules.{share_month};
ghost use Rattle.span_tables.specs.Sides.{market_side, part_on, spreads_formed};
ghost use Rattle.span_tables.specs.declared.limits.TheConstants.{MAX_RATE, MAX_TIERS, MAX_UNITS};
ghost use Rattle.span_tables.specs.declared.sides.Direction.TheVariants.{ALong, AShort};
ghost use Rattle.span_tables.specs.declared.sides.MarketSide.{MarketSide};
ghost use Rattle.spread_stage.specs.Months.{AreMonths, MonthsRise, Shrinks, total_size};
ghost use Rattle.spread_stage.specs.Spreads.{rests_after, spread_both_ways, spread_one_way, tier_rooms, unspread};
ghost use Rattle.spread_stage.specs.near.SetPlans.{IsByTiers};
ghost use Rattle.spread_stage.specs.near.TierPlans.{AreKnown, IsKnown, intra_of};
ghost use Rattle.spread_stage.specs.near.TierSums.{AreOpen, AreSums, AreTiers, IsChanged, IsClosed, no_span};
ghost use Rattle.spread_stage.specs.near.TierSums.{side_place, span_of, span_with, sum_of, sum_on, sum_rooms};
ghost use Rattle.spread_stage.specs.declared.months.MonthUnits.{MonthUnits};

use crate::charges::delivery_of;
use crate::months::{MonthUnits, Months};
use crate::tier_index::TierIndex;
use crate::tier_plans::{TierLeg, TierPlan, TierSpread};
use crate::tiers::{Span, at_rate, use_leg};
use span_money::amounts::{Money, Units};
use span_money::bits::{has, take_first};
use span_tables::limits::MAX_TIERS;
use span_tables::records::{Spot, Tier};
use span_tables::sides::{Direction, MarketSide, market_side, part_on};
use span_tables::slots::OpenSides;
use std::alloc::{AllocError, Global};
use std::marker::Model;

/// The sums of the parts of a tier's months on each side of the market, long and short, in units of 10^-8.
#[derive(Clone, Copy, Default)]
pub struct TierSum {
    pub sides: [u64; 2],
}

/// For each tier of a commodity by number, its sums and the places of its months among the months.
#[derive(Clone, Copy)]
pub struct TierSums {
    pub sums: [TierSum; MAX_TIERS],
    pub spans: [Span; MAX_TIERS],
}

// Returns the place of a side of the market in a tier's sums.
#[inline(always)]
fn place_of(on: MarketSide) -> usize
    ensures { result ≡ side_place on }
{
    match on {
        MarketSide::Long => 0,
        MarketSide::Short => 1,
    }
}

impl TierSum {
    // Returns the sum of a side of the market.
    #[inline(always)]
    fn on(&self, on: MarketSide) -> u64
        ensures { result ≡ sum_on on self.now }
    {
        self.sides[place_of(on)]
    }

    // Replaces the sum of a side of the market.
    #[inline(always)]
    fn set(&mut self, on: MarketSide, sum: u64)
        ensures here { sum_on on self.new ≡ sum }
        ensures others { (other : MarketSide) → (other ≡ on → ⊥) → sum_on other self.new ≡ sum_on other self.old }
    {
        self.sides[place_of(on)] = sum;
    }

    // Returns the sums with the units of one more month.
    #[inline(always)]
    fn with(&self, units: Units) -> TierSum
        requires { (on : MarketSide) → sum_on on self.now + nat_abs units ≤ MAX_UNITS }
        ensures { (on : MarketSide) → sum_on on result ≡ sum_on on self.now + part_on on units }
    {
        TierSum {
            sides: [
                self.on(MarketSide::Long) + part_on(MarketSide::Long, units),
                self.on(MarketSide::Short) + part_on(MarketSide::Short, units),
            ],
        }
    }
}

impl Span {
    // Returns the span with one more place at its end.
    #[inline(always)]
    fn with(self, place: usize) -> Span
        requires { place + 1 < 2 ^ 64 }
        ensures { result ≡ span_with self place }
    {
        let first = if self.end == 0 { place } else { self.first };
        Span {
            first,
            end: place + 1,
        }
    }
}

impl TierSums {
    /// Returns sums that are all 0.
    fn none() -> TierSums {
        TierSums {
            sums: [TierSum::default(); MAX_TIERS],
            spans: [Span::default(); MAX_TIERS],
        }
    }

    // Clears the sums and the spans of the first tiers.
    #[inline(always)]
    fn clear(&mut self, tiers: usize)
        requires { tiers ≤ MAX_TIERS }
        ensures sums { (on : MarketSide) (k : ℕ) → k < tiers → sum_of self.new on k ≡ 0 }
        ensures spans { (k : ℕ) → k < tiers → span_of self.new k ≡ no_span }
    {
        for tier in 0..tiers {
            self.sums[tier] = TierSum::default();
            self.spans[tier] = Span::default();
        }
    }

    // Returns the sum of a side of a tier.
    #[inline(always)]
    fn on(&self, on: MarketSide, tier: usize) -> u64
        requires { tier < MAX_TIERS }
        ensures { result ≡ sum_of self.now on tier }
    {
        self.sums[tier].on(on)
    }

    // Adds the units of a month at a place to the sums of its tier.
    #[inline(always)]
    fn add(&mut self, tier: usize, place: usize, units: Units)
        requires tier { tier < MAX_TIERS }
        requires place { place + 1 < 2 ^ 64 }
        requires room { (on : MarketSide) → sum_of self.old on tier + nat_abs units ≤ MAX_UNITS }
        ensures sums { (on : MarketSide) (k : ℕ) → k < MAX_TIERS → sum_of self.new on k
            ≡ sum_of self.old on k + (if tier == k then part_on on units else 0) }
        ensures spans { (k : ℕ) → k < MAX_TIERS → span_of self.new k
            ≡ (if tier == k then span_with (span_of self.old k) place else span_of self.old k) }
    {
        self.sums[tier] = self.sums[tier].with(units);
        self.spans[tier] = self.spans[tier].with(place);
    }

    // Lowers the sum of a side of a tier by what was used of it, and to 0 at the least.
    #[inline(always)]
    fn lower(&mut self, on: MarketSide, tier: usize, used: u64)
        requires { tier < MAX_TIERS }
        ensures sums { IsChanged on tier (sum_of self.old on tier - used) self.old self.new }
        ensures spans { (k : ℕ) → span_of self.new k ≡ span_of self.old k }
    {
        let sum = self.on(on, tier).saturating_sub(used);
        self.sums[tier].set(on, sum);
    }
}

// Returns the number of spreads that a leg has room for, in 10^-4 spreads.
#[inline(always)]
fn room(sums: &TierSums, direction: Direction, leg: &TierLeg) -> u64
    requires tier { leg.now.tier < MAX_TIERS }
    requires ratio { 0 < leg.now.months.ratio }
    ensures { result ≡ spreads_formed (sum_rooms direction (leg.now ∷ []) sums.now) }
{
    let side = sums.on(
        market_side(direction, leg.months.side),
        usize::from(leg.tier),
    );
    leg.months.ratio.greatest_fit(side)
}

// Returns the number of spreads that all legs have room for, in 10^-4 spreads.
fn spreads_formed(sums: &TierSums, direction: Direction, legs: &[TierLeg]) -> u64
    requires tiers { All (λ leg. leg.tier < MAX_TIERS) legs.now }
    requires ratios { All (λ leg. 0 < leg.months.ratio) legs.now }
    ensures { result ≡ spreads_formed (sum_rooms direction legs.now sums.now) }
{
    match legs {
        [] => 0,
        [leg] => room(sums, direction, leg),
        [leg, others @ ..] => {
            room(sums, direction, leg).min(spreads_formed(sums, direction, others))
        }
    }
}

// Uses what each leg needs for the number of spreads, one leg after the other.
fn use_legs(
    rests: &mut [MonthUnits],
    sums: &mut TierSums,
    tiers: &[Tier],
    direction: Direction,
    legs: &[TierLeg],
    formed: u64,
)
    requires rise { MonthsRise rests.old }
    requires small { total_size rests.old ≤ MAX_UNITS }
    requires tiers { AreTiers tiers.now }
    requires sums { AreSums tiers.now rests.old sums.old }
    requires known { All (IsKnown tiers.now) legs.now }
    requires fit { All (λ leg. formed * leg.months.ratio ≤ MAX_UNITS) legs.now }
    ensures rests { rests.new ≡ rests_after direction formed (map (λ leg. leg.months) legs.now) rests.old }
    ensures sums { AreSums tiers.now rests.new sums.new }
{
    for leg in legs {
        let needed = formed * u64::from(leg.months.ratio.get());
        let on = market_side(direction, leg.months.side);
        let tier = usize::from(leg.tier);
        use_leg(rests, sums.spans[tier], on, &leg.months, needed);
        sums.lower(on, tier, needed);
    }
}

// Forms a spread in one direction, and returns the number of spreads formed, in 10^-4 spreads.
fn form(
    rests: &mut [MonthUnits],
    sums: &mut TierSums,
    tiers: &[Tier],
    direction: Direction,
    legs: &[TierLeg],
) -> u64
    requires rise { MonthsRise rests.old }
    requires small { total_size rests.old ≤ MAX_UNITS }
    requires tiers { AreTiers tiers.now }
    requires sums { AreSums tiers.now rests.old sums.old }
    requires known { All (IsKnown tiers.now) legs.now }
    requires legs { 0 < length legs.now }
    requires ratios { All (λ leg. 0 < leg.months.ratio) legs.now }
    ensures formed { result ≡ spreads_formed (tier_rooms direction (map (λ leg. leg.months) legs.now) rests.old) }
    ensures rests { rests.new ≡ rests_after direction result (map (λ leg. leg.months) legs.now) rests.old }
    ensures rise { MonthsRise rests.new }
    ensures less { result + total_size rests.new ≤ total_size rests.old }
    ensures shrinks { (months : List MonthUnits) → Shrinks months rests.old → Shrinks months rests.new }
    ensures sums { AreSums tiers.now rests.new sums.new }
{
    let formed = spreads_formed(sums, direction, legs);
    if formed > 0 {
        use_legs(rests, sums, tiers, direction, legs, formed);
    }
    formed
}

// Forms a spread in one direction, and returns the exact sum of the spreads formed times the rate, in 10^-4 minor
// units.
#[inline(never)]
fn spread_one_way(
    rests: &mut [MonthUnits],
    sums: &mut TierSums,
    tiers: &[Tier],
    direction: Direction,
    spread: &TierSpread,
) -> u128
    requires rise { MonthsRise rests.old }
    requires small { total_size rests.old ≤ MAX_UNITS }
    requires tiers { AreTiers tiers.now }
    requires sums { AreSums tiers.now rests.old sums.old }
    requires known { AreKnown tiers.now spread.now }
    requires intra { IsIntra (intra_of spread.now) }
    ensures value { (charge : ℕ) → record { rests = rests.new; charge = charge + result }
        ≡ spread_one_way (intra_of spread.now) direction (record { rests = rests.old; charge = charge }) }
    ensures rise { MonthsRise rests.new }
    ensures less { result + MAX_RATE * total_size rests.new ≤ MAX_RATE * total_size rests.old }
    ensures shrinks { (months : List MonthUnits) → Shrinks months rests.old → Shrinks months rests.new }
    ensures sums { AreSums tiers.now rests.new sums.new }
{
    let formed = form(rests, sums, tiers, direction, &spread.legs);
    at_rate(formed, spread.rate)
}

// Returns the first direction that is not closed, if there is one.
#[inline(always)]
fn first_way(a_long: bool) -> Direction
    ensures { result ≡ (if a_long then ALong else AShort) }
{
    if a_long {
        Direction::ALong
    } else {
        Direction::AShort
    }
}

// Forms a spread in the directions that are not closed, with side A long first, and returns the exact sum of the
// spreads formed times the rate, in 10^-4 minor units. In most cases only one direction is not closed.
#[inline(always)]
fn spread_open_ways(
    rests: &mut [MonthUnits],
    sums: &mut TierSums,
    tiers: &[Tier],
    spread: &TierSpread,
    a_long: bool,
    a_short: bool,
) -> u128
    requires rise { MonthsRise rests.old }
    requires small { total_size rests.old ≤ MAX_UNITS }
    requires tiers { AreTiers tiers.now }
    requires sums { AreSums tiers.now rests.old sums.old }
    requires known { AreKnown tiers.now spread.now }
    requires intra { IsIntra (intra_of spread.now) }
    requires not_a_long { a_long ≡ false → IsClosed ALong rests.old (intra_of spread.now) }
    requires not_a_short { a_short ≡ false → IsClosed AShort rests.old (intra_of spread.now) }
    ensures value { (charge : ℕ) → record { rests = rests.new; charge = charge + result }
        ≡ spread_both_ways (record { rests = rests.old; charge = charge }) (intra_of spread.now) }
    ensures rise { MonthsRise rests.new }
    ensures less { result + MAX_RATE * total_size rests.new ≤ MAX_RATE * total_size rests.old }
    ensures shrinks { (months : List MonthUnits) → Shrinks months rests.old → Shrinks months rests.new }
    ensures sums { AreSums tiers.now rests.new sums.new }
{
    let first = first_way(a_long);
    let charge = spread_one_way(rests, sums, tiers, first, spread);
    if !(a_long && a_short) {
        return charge;
    }
    charge + spread_one_way(rests, sums, tiers, Direction::AShort, spread)
}

// Forms the spreads of a commodity in order, and returns the exact sum of the spreads formed times their rates, in
// 10^-4 minor units. It leaves out the spreads that the index does not find among the sides that are open at the start.
fn form_spreads(
    rests: &mut [MonthUnits],
    sums: &mut TierSums,
    sides: &OpenSides,
    tiers: &[Tier],
    plan: &TierPlan,
) -> u128
    requires rise { MonthsRise rests.old }
    requires small { total_size rests.old ≤ MAX_UNITS }
    requires tiers { AreTiers tiers.now }
    requires sums { AreSums tiers.now rests.old sums.old }
    requires sides { AreOpen tiers.now sums.old sides.now }
    requires plan { IsByTiers tiers.now plan.now }
    requires intras { All IsIntra (map intra_of plan.now.spreads.items) }
    ensures value { record { rests = rests.new; charge = result }
        ≡ fold spread_both_ways (unspread rests.old) (map intra_of plan.now.spreads.items) }
    ensures rise { MonthsRise rests.new }
    ensures less { result + MAX_RATE * total_size rests.new ≤ MAX_RATE * total_size rests.old }
    ensures shrinks { (months : List MonthUnits) → Shrinks months rests.old → Shrinks months rests.new }
{
    let mut charge = 0;
    let found = plan.index.may_form(sides);
    let mut left = found.either();
    while let Some(number) = take_first(&mut left) {
        if let Some(spread) = plan.spreads.get(number) {
            let a_long = has(found.a_long, number);
            let a_short = has(found.a_short, number);
            charge += spread_open_ways(rests, sums, tiers, spread, a_long, a_short);
        }
    }
    charge
}

// Replaces the sums by the sums of months, and returns the sides of tiers that are open.
fn add_months(
    sums: &mut TierSums,
    months: &[MonthUnits],
    tiers: &[Tier],
    near: &TierIndex,
) -> OpenSides
    requires months { AreMonths months.now }
    requires tiers { AreTiers tiers.now }
    ensures sums { AreSums tiers.now months.now sums.new }
    ensures sides { AreOpen tiers.now sums.new result }
{
    sums.clear(tiers.len());
    let mut sides = OpenSides::none();
    for place in 0..months.len() {
        let month = &months[place];
        let tier = near.number_of(tiers, month.month);
        if tier < tiers.len() {
            sums.add(tier, place, month.units);
            sides = sides.with(tier, month.units);
        }
    }
    sides
}

/// The working memory of the spreads of a commodity in a whole run. In contract clauses it is the remaining deltas of
/// the commodity's months and the exact sum of the spreads formed times their rates.
#[derive(Drop)]
pub struct TierRun {
    rests: Vec<MonthUnits>,
    charge: u128,
    sums: TierSums,
}

impl Model for TierRun {
    ghost use Rattle.spread_stage.specs.Months.{AreTierRests};
    ghost use Rattle.spread_stage.specs.Spreads.{TierRests};

    ghost Value = { TierRests };

    ghost view = { λ t. record { rests = t.rests.items; charge = t.charge } };

    ghost invariant = { λ t. AreTierRests (record { rests = t.rests.items; charge = t.charge }) };
}

impl TierRun {
    ghost use Rattle.std.specs.Prelude.{◌≡◌, ◌*◌, ◌≤◌, [], length, map, nat_abs, pos, All, OnOk};
    ghost use Rattle.span_tables.specs.Accepted.{IsSpot};
    ghost use Rattle.span_tables.specs.declared.limits.TheConstants.{MAX_SPOT_MONTHS};
    ghost use Rattle.span_tables.specs.declared.records.Intra.{Intra};
    ghost use Rattle.spread_stage.specs.Charges.{delivery_charge};
    ghost use Rattle.spread_stage.specs.declared.charges.TheConstants.{MAX_DELIVERY_CHARGE};
    ghost use Rattle.spread_stage.specs.Months.{AreTierRests, Shrinks};
    ghost use Rattle.spread_stage.specs.Spreads.{after_spreads, unspread};
    ghost use Rattle.spread_stage.specs.near.SpotIndex.{AreSpots};

    /// Returns memory without months and without charge. It allocates nothing.
    pub fn none(alloc: Global) -> TierRun
        ensures { result ≡ unspread [] }
    {
        TierRun {
            rests: Vec::new(alloc),
            charge: 0,
            sums: TierSums::none(),
        }
    }

    /// Forms the spreads of a commodity in order, with side A long first, on the deltas of its months. Fails if memory
    /// runs out.
    pub fn run(
        &mut self,
        months: &Months,
        tiers: &[Tier],
        plan: &TierPlan,
    ) -> Result<(), AllocError>
        requires few { length tiers.now ≤ MAX_TIERS }
        requires apart { has_repeat share_month tiers.now ≡ false }
        requires plan { IsByTiers tiers.now plan.now }
        requires intras { All IsIntra (map intra_of plan.now.spreads.items) }
        ensures value { OnOk result (self.new ≡ after_spreads (map intra_of plan.now.spreads.items) months.now) }
        ensures shrinks { OnOk result (Shrinks months.now self.new.rests) }
    {
        let months = months.as_slice();
        self.charge = 0;
        self.rests.clear();
        self.rests.extend_from_slice(months)?;
        let sides = add_months(&mut self.sums, months, tiers, &plan.tiers);
        self.charge = form_spreads(&mut self.rests, &mut self.sums, &sides, tiers, plan);
        Ok(())
    }

    /// Returns the months in ascending order, each with its remaining delta.
    pub fn rests(&self) -> &[MonthUnits]
        ensures value { result.now ≡ self.now.rests }
        ensures kept { AreTierRests self.now }
    {
        &self.rests
    }

    /// Returns the exact sum of the spreads formed times their rates, in 10^-4 minor units.
    pub fn charge(&self) -> u128
        ensures value { result ≡ self.now.charge }
        ensures bound { result ≤ MAX_RATE * MAX_UNITS }
    {
        self.charge
    }

    /// Returns the delivery charge of the spot months after these spreads, in minor units, rounded up once.
    pub fn delivery(&self, months: &Months, spots: &[Spot], plan: &TierPlan) -> Money
        requires shrinks { Shrinks months.now self.now.rests }
        requires few { length spots.now ≤ MAX_SPOT_MONTHS }
        requires spots { All IsSpot spots.now }
        requires plan { AreSpots plan.now.spots spots.now }
        ensures value { result ≡ pos (delivery_charge months.now self.now.rests spots.now) }
        ensures bound { nat_abs result ≤ MAX_DELIVERY_CHARGE }
    {
        delivery_of(months, &self.rests, spots, &plan.spots)
    }
}
