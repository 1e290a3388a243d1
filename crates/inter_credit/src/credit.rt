//! The credit of a commodity (docs/METHOD.md, Intercommodity spreads).
ghost use Rattle.std.specs.Prelude.{◌≡◌, ◌<◌, ◌≤◌, ◌*◌, ◌^◌, length, pos, nat_abs};
ghost use Rattle.inter_credit.specs.Credits.{credit_of, credit_at, state_at};
ghost use Rattle.inter_credit.specs.near.CommodityStates.{IsCommodityState};
ghost use Rattle.span_tables.specs.declared.limits.TheConstants.{MAX_PRICE2};

use crate::commodity_state::CommodityState;
use crate::state::InterState;
use span_money::amounts::Money;
use span_money::division::floor_div;

// The basis points of a whole.
const WHOLE: u128 = 10_000;
// The divisor of a credit for each unit of net delta: price risk is stored doubled, and weights are in basis points.
const DOUBLED_WHOLE: u128 = 2 * WHOLE;

// Returns twice the price risk times the weight, in minor units times 10^-8 deltas times basis points.
#[tactic(auto, using(crate::proofs::CreditBounds::product_small))]
fn product(state: &CommodityState) -> u128
    requires { IsCommodityState state.now }
    ensures value { result ≡ state.now.price2 * state.now.weight }
    ensures bound { result < 2 ^ 127 }
{
    u128::from(state.price2) * state.weight
}

// Returns the credit of a state, in minor units, rounded down once.
#[tactic(auto, unfolding(crate::specs::Credits::credit_of))]
fn credit_of(state: &CommodityState) -> u128
    requires { IsCommodityState state.now }
    ensures value { result ≡ credit_of state.now }
    ensures bound { 2 * result ≤ MAX_PRICE2 }
{
    let net = state.net.get().unsigned_abs();
    if net == 0 {
        return 0;
    }
    floor_div(product(state), DOUBLED_WHOLE * u128::from(net))
}

/// Returns the intercommodity credit of a commodity number, in minor units, rounded down once. It is 0 if the net delta
/// is 0. The dividend, twice the price risk times the weight, fits in a signed 128-bit number.
#[tactic(auto, using(crate::proofs::CreditBounds::products_small))]
pub fn credit(state: &InterState, commodity: usize) -> Money
    requires { commodity < length state.now }
    ensures value { result ≡ pos (credit_at state.now commodity) }
    ensures bound { 2 * nat_abs result ≤ MAX_PRICE2 }
    ensures product { (state_at state.now commodity).price2 * (state_at state.now commodity).weight < 2 ^ 127 }
{
    Money::new(credit_of(&state.states()[commodity]) as i128)
}
