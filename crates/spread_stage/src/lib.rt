//! Month deltas, intracommodity spreads, and the intracommodity and delivery charges (docs/METHOD.md, Deltas;
//! Intracommodity spreads; Charges).
#![tactic(auto)]

pub mod charges;
pub mod deltas;
pub mod laws;
pub mod month_slots;
pub mod months;
pub mod set_plans;
pub mod spot_index;
pub mod tier_index;
pub mod tier_plans;
pub mod tier_sums;
pub mod tiers;
mod worked;
