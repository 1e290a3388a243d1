//! Intercommodity spreads: the number that is formed in a direction, and the units that it uses of each commodity
//! (docs/METHOD.md, Intercommodity spreads).
ghost use Rattle.std.specs.Prelude.{◌≡◌, ◌<◌, ◌≤◌, ◌*◌, ◌/◌, ◌+◌, length, false, All};
ghost use Rattle.span_tables.specs.Accepted.{IsInter};
ghost use Rattle.span_tables.specs.Sides.{market_side, part_on, spreads_formed};
ghost use Rattle.span_tables.specs.declared.limits.TheConstants.{MAX_BASIS_POINTS};
ghost use Rattle.inter_credit.specs.Credits.{change_at, commodity_rooms, inter_formed_both, inter_formed_in, inter_both_ways};
ghost use Rattle.inter_credit.specs.Credits.{inter_one_way, leg_side, state_after, states_after};
ghost use Rattle.inter_credit.specs.near.Rooms.{HaveRoom};
ghost use Rattle.inter_credit.specs.near.CommodityStates.{IsCommodityState};

use crate::commodity_state::CommodityState;
use span_tables::records::{CommodityLeg, Inter};
use span_tables::sides::{Direction, MarketSide, SpreadsFormed, less_used, market_side, part_on};

// Returns the number of spreads that a leg's commodity has room for, in 10^-4 spreads.
fn room(states: &[CommodityState], leg: &CommodityLeg, direction: Direction) -> u64
    requires known { leg.now.commodity < length states.now }
    requires ratio { 0 < leg.now.ratio }
    ensures { result ≡ leg_side direction leg.now states.now / leg.now.ratio }
{
    let on = market_side(direction, leg.side);
    let side = part_on(on, states[leg.commodity].rest);
    if side == 0 {
        return 0;
    }
    leg.ratio.greatest_fit(side)
}

// Returns the number of spreads formed in a direction, in 10^-4 spreads. It is the greatest that each leg has room for.
fn spreads_formed(states: &[CommodityState], legs: &[CommodityLeg], direction: Direction) -> u64
    requires known { All (λ leg. leg.commodity < length states.now) legs.now }
    requires ratios { All (λ leg. 0 < leg.ratio) legs.now }
    ensures { result ≡ spreads_formed (commodity_rooms direction legs.now states.now) }
{
    match legs {
        [] => 0,
        [leg] => room(states, leg, direction),
        [leg, others @ ..] => {
            let formed = room(states, leg, direction);
            if formed == 0 {
                return 0;
            }
            formed.min(spreads_formed(states, others, direction))
        }
    }
}

// Returns a commodity after units of 10^-8 deltas on a market side were used, at a number of basis points.
fn state_after(
    state: CommodityState,
    on: MarketSide,
    used: u64,
    basis_points: u32,
) -> CommodityState
    requires state { IsCommodityState state }
    requires used { used ≤ part_on on state.rest }
    requires basis_points { basis_points ≤ MAX_BASIS_POINTS }
    ensures value { result ≡ state_after on used basis_points state }
    ensures state { IsCommodityState result }
{
    CommodityState {
        rest: less_used(on, state.rest, used),
        weight: state.weight + u128::from(used) * u128::from(basis_points),
        ..state
    }
}

// Uses a leg for `formed` spreads.
fn use_leg(
    states: &mut [CommodityState],
    leg: &CommodityLeg,
    direction: Direction,
    formed: u64,
    basis_points: u32,
)
    requires known { leg.now.commodity < length states.old }
    requires states { All IsCommodityState states.old }
    requires room { formed * leg.now.ratio ≤ leg_side direction leg.now states.old }
    requires basis_points { basis_points ≤ MAX_BASIS_POINTS }
    ensures value { states.new ≡ change_at
        (state_after (market_side direction leg.now.side) (formed * leg.now.ratio) basis_points) leg.now.commodity states.old }
    ensures states { All IsCommodityState states.new }
{
    let on = market_side(direction, leg.side);
    let used = formed * u64::from(leg.ratio.get());
    states[leg.commodity] = state_after(states[leg.commodity], on, used, basis_points);
}

// Uses each leg for `formed` spreads.
fn use_legs(
    states: &mut [CommodityState],
    legs: &[CommodityLeg],
    direction: Direction,
    formed: u64,
    basis_points: u32,
)
    requires states { All IsCommodityState states.old }
    requires room { HaveRoom direction formed legs.now states.old }
    requires basis_points { basis_points ≤ MAX_BASIS_POINTS }
    ensures value { states.new ≡ states_after direction formed basis_points legs.now states.old }
    ensures states { All IsCommodityState states.new }
{
    for leg in legs {
        use_leg(states, leg, direction, formed, basis_points);
    }
}

// Forms a spread in one direction, and returns the number formed.
fn form(states: &mut [CommodityState], spread: &Inter, direction: Direction) -> u64
    requires states { All IsCommodityState states.old }
    requires spread { IsInter (length states.old) spread.now }
    ensures value { states.new ≡ inter_one_way spread.now direction states.old }
    ensures formed { result ≡ inter_formed_in spread.now direction states.old }
    ensures states { All IsCommodityState states.new }
{
    let legs = spread.legs();
    let formed = spreads_formed(states, legs, direction);
    if formed > 0 {
        use_legs(states, legs, direction, formed, spread.basis_points());
    }
    formed
}

// Forms a spread in both directions, with A long first, and returns the number formed in each.
#[tactic(auto, unfolding(crate::specs::Credits::inter_both_ways))]
pub(crate) fn form_both_ways(states: &mut [CommodityState], spread: &Inter) -> SpreadsFormed
    requires states { All IsCommodityState states.old }
    requires spread { IsInter (length states.old) spread.now }
    ensures value { states.new ≡ inter_both_ways states.old spread.now }
    ensures formed { result ≡ inter_formed_both states.old spread.now }
    ensures states { All IsCommodityState states.new }
{
    let a_long = form(states, spread, Direction::ALong);
    let a_short = form(states, spread, Direction::AShort);
    SpreadsFormed { a_long, a_short }
}

// Returns whether a spread forms in one of the directions. If `false`, the spread changes nothing.
pub(crate) fn forms(states: &[CommodityState], spread: &Inter) -> bool
    requires { IsInter (length states.now) spread.now }
    ensures { result ≡ false → inter_both_ways states.now spread.now ≡ states.now }
{
    let legs = spread.legs();
    spreads_formed(states, legs, Direction::ALong) > 0
        || spreads_formed(states, legs, Direction::AShort) > 0
}
