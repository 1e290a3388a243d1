//! The steps of a compiled plan: their operations, their values, and the value of an operation on its inputs.
#![tactic(auto)]

pub mod evaluation;
pub mod figures;
pub mod laws;
pub mod limit_digits;
pub mod listing;
pub mod lists;
pub mod nothing;
pub mod ops;
pub mod plans;
mod users;
pub mod values;
mod worked;
