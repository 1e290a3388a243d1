//! The sides and directions of a spread, the market sides of its legs, and the part of a remaining delta on a market
//! side (docs/METHOD.md, "Intracommodity spreads" and "Intercommodity spreads").
ghost use Rattle.std.specs.Prelude.{◌≡◌, ◌+◌, ◌≤◌, nat_abs};
ghost use Rattle.span_tables.specs.Sides.{IsLeftOf, less_used, market_side, part_on};
ghost use Rattle.span_tables.specs.declared.limits.TheConstants.{MAX_UNITS};

use span_money::amounts::Units;

/// The side of a spread that a leg is on.
#[derive(Clone, Copy, Debug, Default, PartialEq, Eq)]
pub enum Side {
    #[default]
    A,
    B,
}

/// The direction of a spread: side A long and B short, or side A short and B long.
#[derive(Clone, Copy, Debug, PartialEq, Eq)]
pub enum Direction {
    ALong,
    AShort,
}

/// A side of the market.
#[derive(Clone, Copy, Debug, PartialEq, Eq)]
pub enum MarketSide {
    Long,
    Short,
}

/// The number of spreads that a spread forms in each direction, in 10^-4 spreads. The direction with A long comes
/// first.
#[derive(Clone, Copy, Debug, PartialEq, Eq)]
pub struct SpreadsFormed {
    pub a_long: u64,
    pub a_short: u64,
}

/// Returns the market side of a leg's side, in a direction.
#[inline(always)]
pub fn market_side(direction: Direction, side: Side) -> MarketSide
    ensures { result ≡ market_side direction side }
{
    match (direction, side) {
        (Direction::ALong, Side::A) | (Direction::AShort, Side::B) => MarketSide::Long,
        (Direction::ALong, Side::B) | (Direction::AShort, Side::A) => MarketSide::Short,
    }
}

/// Returns the part of a remaining delta on a market side, in units of 10^-8. A positive remaining delta is long, a
/// negative one is short.
pub fn part_on(side: MarketSide, rest: Units) -> u64
    ensures value { result ≡ part_on side rest }
    ensures bound { result ≤ nat_abs rest }
{
    let on_side = match side {
        MarketSide::Long => rest.get().max(0),
        MarketSide::Short => rest.get().min(0),
    };
    on_side.unsigned_abs()
}

/// Returns a remaining delta after `used` units on a market side were used, in units of 10^-8.
pub fn less_used(side: MarketSide, rest: Units, used: u64) -> Units
    requires rest { nat_abs rest ≤ MAX_UNITS }
    requires used { used ≤ part_on side rest }
    ensures value { result ≡ less_used side rest used }
    ensures left { IsLeftOf rest result }
    ensures used { nat_abs result + used ≡ nat_abs rest }
{
    match side {
        MarketSide::Long => Units::new(rest.get() - used as i64),
        MarketSide::Short => Units::new(rest.get() + used as i64),
    }
}
