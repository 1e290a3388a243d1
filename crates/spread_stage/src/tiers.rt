//! The remaining deltas of months after intracommodity spreads, and the exact charge of the spreads (docs/METHOD.md,
//! Intracommodity spreads; Charges).
ghost use Rattle.std.specs.Prelude.{◌≡◌, false, ◌+◌, ◌*◌, ◌<◌, ◌≤◌, if◌then◌else◌, List, [], ◌∷◌, length, All, IfOk, OnOk, OnErr};
ghost use Rattle.span_tables.specs.Accepted.{IsIntra};
ghost use Rattle.span_tables.specs.Sides.{part_on, spreads_formed};
ghost use Rattle.span_tables.specs.declared.limits.TheConstants.{MAX_RATE, MAX_UNITS};
ghost use Rattle.spread_stage.specs.Months.{AreTierRests, MonthsRise, Shrinks, total_size};
ghost use Rattle.spread_stage.specs.Spreads.{formed_both, formed_in, is_in_tier, rests_after, rests_after_leg, spread_both_ways};
ghost use Rattle.spread_stage.specs.Spreads.{spread_one_way, tier_rooms, tier_side, unspread};
ghost use Rattle.spread_stage.specs.near.Uses.{IsSpan};
ghost use Rattle.spread_stage.specs.declared.months.MonthUnits.{MonthUnits};

use crate::months::{MonthUnits, Months};
use span_tables::legs::MonthLeg;
use span_tables::records::Intra;
use span_tables::sides::{Direction, MarketSide, SpreadsFormed, less_used, market_side, part_on};
use std::alloc::{AllocError, Global};
use std::marker::Model;

/// The remaining delta of each month, and the exact sum of the spreads formed times their rates.
///
/// The charge is in 10^-4 minor units, since spreads are counted in 10^-4 spreads.
#[derive(Drop)]
pub struct TierState {
    rests: Vec<MonthUnits>,
    charge: u128,
}

impl Model for TierState {
    ghost use Rattle.spread_stage.specs.Months.{AreTierRests};
    ghost use Rattle.spread_stage.specs.Spreads.{TierRests};

    ghost Value = { TierRests };

    ghost view = { λ t. record { rests = t.rests.items; charge = t.charge } };

    ghost invariant = { λ t. AreTierRests (record { rests = t.rests.items; charge = t.charge }) };
}

impl TierState {
    /// Returns the state without months and without charge, which takes no memory.
    pub fn none(alloc: Global) -> TierState
        ensures { result ≡ unspread [] }
    {
        TierState {
            rests: Vec::new(alloc),
            charge: 0,
        }
    }

    /// Replaces the state by the state of the months before any spread, as `start` returns it, and reuses its memory.
    ///
    /// If memory runs out, there are no months and the charge is 0.
    #[tactic(auto, using(crate::proofs::SizeLemmas::shrinks_none))]
    pub fn restart(&mut self, months: &Months) -> Result<(), AllocError>
        ensures value { OnOk result (self.new ≡ unspread months.now) }
        ensures shrinks { OnOk result (Shrinks months.now self.new.rests) }
        ensures err { OnErr result (self.new ≡ unspread []) }
    {
        self.charge = 0;
        self.rests.clear();
        self.rests.extend_from_slice(months.as_slice())
    }

    /// Returns the months in ascending order, each with its remaining delta.
    pub fn rests(&self) -> &[MonthUnits]
        ensures value { result.now ≡ self.now.rests }
        ensures kept { AreTierRests self.now }
    {
        &self.rests
    }

    /// Returns the exact sum of the spreads formed times their rates, in 10^-4 minor units.
    pub fn charge(&self) -> u128
        ensures value { result ≡ self.now.charge }
        ensures bound { result ≤ MAX_RATE * MAX_UNITS }
    {
        self.charge
    }

    /// Returns a copy of the state. Fails if memory runs out.
    pub fn copied(&self, alloc: Global) -> Result<TierState, AllocError>
        ensures { IfOk result (λ tiers. tiers ≡ self.now) }
    {
        let rests = Vec::from_slice(alloc, &self.rests)?;
        Ok(TierState {
            rests,
            charge: self.charge,
        })
    }

    /// Returns whether a spread forms. If `false`, the spread changes nothing.
    #[tactic(auto, using(crate::proofs::ClosedLemmas::both_ways_none))]
    pub fn may_spread(&self, intra: &Intra) -> bool
        requires { IsIntra intra.now }
        ensures { result ≡ false → spread_both_ways self.now intra.now ≡ self.now }
    {
        spreads_formed(&self.rests, Direction::ALong, intra.legs()) > 0
            || spreads_formed(&self.rests, Direction::AShort, intra.legs()) > 0
    }

    /// Forms one more spread in both directions, with side A long first.
    pub fn spread(&mut self, intra: &Intra)
        requires { IsIntra intra.now }
        ensures value { self.new ≡ spread_both_ways self.old intra.now }
        ensures shrinks { (months : List MonthUnits) → Shrinks months self.old.rests → Shrinks months self.new.rests }
    {
        self.spread_counted(intra);
    }

    /// Forms one more spread as `spread` does, and returns the number of spreads formed in each direction, in 10^-4
    /// spreads.
    #[tactic(auto, unfolding(crate::specs::Spreads::spread_both_ways))]
    pub fn spread_counted(&mut self, intra: &Intra) -> SpreadsFormed
        requires { IsIntra intra.now }
        ensures value { self.new ≡ spread_both_ways self.old intra.now }
        ensures formed { result ≡ formed_both self.old intra.now }
        ensures shrinks { (months : List MonthUnits) → Shrinks months self.old.rests → Shrinks months self.new.rests }
    {
        let a_long = self.spread_one_way(Direction::ALong, intra);
        let a_short = self.spread_one_way(Direction::AShort, intra);
        SpreadsFormed { a_long, a_short }
    }

    // Forms a spread in one direction, and returns the number of spreads formed, in 10^-4 spreads.
    #[tactic(auto, using(crate::proofs::SizeLemmas::shrinks_none))]
    fn spread_one_way(&mut self, direction: Direction, intra: &Intra) -> u64
        requires { IsIntra intra.now }
        ensures value { self.new ≡ spread_one_way intra.now direction self.old }
        ensures formed { result ≡ formed_in intra.now direction self.old }
        ensures shrinks { (months : List MonthUnits) → Shrinks months self.old.rests → Shrinks months self.new.rests }
    {
        let formed = form(&mut self.rests, direction, intra.legs());
        self.charge += at_rate(formed, intra.rate());
        formed
    }
}

// Returns the part of a month on a side of the market, in units of 10^-8, or 0 if the month is not in a leg's tier.
fn part_in_tier(month: &MonthUnits, on: MarketSide, leg: &MonthLeg) -> u64
    ensures { result ≡ (if is_in_tier leg.now month.now then part_on on month.now.units else 0) }
{
    if leg.first <= month.month && month.month <= leg.last {
        part_on(on, month.units)
    } else {
        0
    }
}

// Returns the side of a leg's tier, in units of 10^-8, which is the sum of its months' parts.
fn tier_side(rests: &[MonthUnits], on: MarketSide, leg: &MonthLeg) -> u64
    requires { total_size rests.now ≤ MAX_UNITS }
    ensures { result ≡ tier_side rests.now on leg.now }
{
    rests.iter().map(|month| part_in_tier(month, on, leg)).sum()
}

// Returns the number of spreads that a leg has room for, in 10^-4 spreads.
fn room(rests: &[MonthUnits], direction: Direction, leg: &MonthLeg) -> u64
    requires small { total_size rests.now ≤ MAX_UNITS }
    requires ratio { 0 < leg.now.ratio }
    ensures { result ≡ spreads_formed (tier_rooms direction (leg.now ∷ []) rests.now) }
{
    let side = tier_side(rests, market_side(direction, leg.side), leg);
    leg.ratio.greatest_fit(side)
}

// Returns the number of spreads that all legs have room for, in 10^-4 spreads.
fn spreads_formed(rests: &[MonthUnits], direction: Direction, legs: &[MonthLeg]) -> u64
    requires small { total_size rests.now ≤ MAX_UNITS }
    requires ratios { All (λ leg. 0 < leg.ratio) legs.now }
    ensures { result ≡ spreads_formed (tier_rooms direction legs.now rests.now) }
{
    match legs {
        [] => 0,
        [leg] => room(rests, direction, leg),
        [leg, others @ ..] => {
            let formed = room(rests, direction, leg);
            if formed == 0 {
                return 0;
            }
            formed.min(spreads_formed(rests, direction, others))
        }
    }
}

/// A range of places among months. It has the place `first`, and ends before the place `end`.
#[derive(Clone, Copy, Default)]
pub struct Span {
    pub first: usize,
    pub end: usize,
}

// Uses what a leg needs of its tier's side, from the earliest month on. All months of the tier are in the span.
#[inline(always)]
pub(crate) fn use_leg(
    rests: &mut [MonthUnits],
    span: Span,
    on: MarketSide,
    leg: &MonthLeg,
    needed: u64,
)
    requires rise { MonthsRise rests.old }
    requires small { total_size rests.old ≤ MAX_UNITS }
    requires span { IsSpan rests.old leg.now span }
    ensures { rests.new ≡ rests_after_leg on needed rests.old leg.now }
{
    let mut left = needed;
    for place in span.first..span.end {
        let month = &mut rests[place];
        let used = part_in_tier(month, on, leg).min(left);
        month.units = less_used(on, month.units, used);
        left -= used;
    }
}

// Uses what each leg needs for the number of spreads, one leg after the other.
fn use_legs(rests: &mut [MonthUnits], direction: Direction, legs: &[MonthLeg], formed: u64)
    requires rise { MonthsRise rests.old }
    requires small { total_size rests.old ≤ MAX_UNITS }
    requires fit { All (λ leg. formed * leg.ratio ≤ MAX_UNITS) legs.now }
    ensures { rests.new ≡ rests_after direction formed legs.now rests.old }
{
    for leg in legs {
        let needed = formed * u64::from(leg.ratio.get());
        let all = Span {
            first: 0,
            end: rests.len(),
        };
        use_leg(rests, all, market_side(direction, leg.side), leg, needed);
    }
}

// Forms a spread in one direction, and returns the number of spreads formed, in 10^-4 spreads.
fn form(rests: &mut [MonthUnits], direction: Direction, legs: &[MonthLeg]) -> u64
    requires rise { MonthsRise rests.old }
    requires small { total_size rests.old ≤ MAX_UNITS }
    requires legs { 0 < length legs.now }
    requires ratios { All (λ leg. 0 < leg.ratio) legs.now }
    ensures formed { result ≡ spreads_formed (tier_rooms direction legs.now rests.old) }
    ensures rests { rests.new ≡ rests_after direction result legs.now rests.old }
    ensures rise { MonthsRise rests.new }
    ensures less { result + total_size rests.new ≤ total_size rests.old }
    ensures shrinks { (months : List MonthUnits) → Shrinks months rests.old → Shrinks months rests.new }
{
    let formed = spreads_formed(rests, direction, legs);
    if formed > 0 {
        use_legs(rests, direction, legs, formed);
    }
    formed
}

// Returns an amount times a rate: in 10^-8 minor units for units of delta, in 10^-4 minor units for 10^-4 spreads.
pub(crate) fn at_rate(units: u64, rate: u32) -> u128
    requires units { units ≤ MAX_UNITS }
    requires rate { rate ≤ MAX_RATE }
    ensures value { result ≡ units * rate }
    ensures bound { result ≤ MAX_RATE * units }
{
    u128::from(units) * u128::from(rate)
}

/// Returns the state before any spread: each month's remaining delta is its month delta, and the charge is 0. Fails if
/// memory runs out.
pub fn start(alloc: Global, months: &Months) -> Result<TierState, AllocError>
    ensures value { IfOk result (λ tiers. tiers ≡ unspread months.now) }
    ensures shrinks { IfOk result (λ tiers. Shrinks months.now tiers.rests) }
{
    let mut tiers = TierState::none(alloc);
    tiers.restart(months)?;
    Ok(tiers)
}

/// Returns the state after one more spread, formed in both directions, with side A long first. Fails if memory runs
/// out.
pub fn spread(alloc: Global, tiers: &TierState, intra: &Intra) -> Result<TierState, AllocError>
    requires { IsIntra intra.now }
    ensures value { IfOk result (λ t. t ≡ spread_both_ways tiers.now intra.now) }
    ensures shrinks { (months : List MonthUnits) → Shrinks months tiers.now.rests → IfOk result (λ t. Shrinks months t.rests) }
{
    let mut tiers = tiers.copied(alloc)?;
    tiers.spread(intra);
    Ok(tiers)
}
