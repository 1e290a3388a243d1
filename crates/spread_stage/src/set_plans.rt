//! The plans of all commodities of a parameter set.
ghost use Rattle.std.specs.Prelude.{IfOk};
ghost use Rattle.spread_stage.specs.near.SetPlans.{ArePlans};

use crate::tier_plans::TierPlan;
use span_tables::tables::Tables;
use std::alloc::{AllocError, Global};

/// Returns the plan of each commodity of a parameter set, by commodity number. Fails if memory runs out.
pub fn plans_of(alloc: Global, tables: &Tables) -> Result<Vec<TierPlan>, AllocError>
    ensures { IfOk result (λ plans. ArePlans tables.now plans.items) }
{
    let commodities = tables.commodities().len();
    let mut plans = Vec::with_capacity(alloc, commodities)?;
    for commodity in 0..commodities {
        let tiers = tables.tiers_of(commodity);
        let spots = tables.spots(commodity);
        plans.push(TierPlan::new(alloc, tiers, tables.intras(commodity), spots)?)?;
    }
    Ok(plans)
}
