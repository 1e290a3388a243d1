//! Compiled sets: accepted tables with the plan of their steps (docs/METHOD.md, "The plan of steps").
#![tactic(auto)]

mod counters;
pub mod laws;
pub mod layout;
mod operations;
pub mod set;
mod worked;
