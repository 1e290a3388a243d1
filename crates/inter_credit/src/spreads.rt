//! Intercommodity spreads on the state of all commodities (docs/METHOD.md, "Intercommodity spreads").
ghost use Rattle.std.specs.Prelude.{◌≡◌, IfOk, length};
ghost use Rattle.inter_credit.specs.Credits.{inter_both_ways};
ghost use Rattle.span_tables.specs.Accepted.{IsInter};

use crate::state::InterState;
use span_tables::records::Inter;
use std::alloc::{AllocError, Global};

/// Returns the state after a spread in both directions, with A long first.
///
/// In each direction it forms the greatest number that every leg has room for.
pub fn inter_spread(
    alloc: Global,
    state: &InterState,
    spread: &Inter,
) -> Result<InterState, AllocError>
    requires { IsInter (length state.now) spread.now }
    ensures value { IfOk result (λ next. next ≡ inter_both_ways state.now spread.now) }
    ensures length { IfOk result (λ next. length next ≡ length state.now) }
{
    let mut state = state.copied(alloc)?;
    state.spread(spread);
    Ok(state)
}
