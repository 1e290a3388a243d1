//! The binding of positions and of orders to accepted tables.
#![tactic(auto)]

pub mod binder;
pub mod contract_ids;
mod contract_sums;
pub mod faults;
pub mod laws;
mod ledgers;
pub mod nets;
pub mod order_laws;
pub mod orders;
mod over_limits;
pub mod positions;
pub mod trades;
mod worked;
