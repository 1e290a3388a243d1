//! Intercommodity spreads and their credits, the short option minimum, the requirement of a commodity, and the value of an
//! account's options (docs/METHOD.md, Intercommodity spreads; Minimum and requirement; Option value).
#![tactic(auto)]

pub mod commodity_state;
pub mod credit;
mod forming;
pub mod index;
pub mod laws;
pub mod option_value;
pub mod requirement;
pub mod spreads;
pub mod state;
mod worked;
