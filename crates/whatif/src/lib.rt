//! What-if orders: from the bytes of a parameter file, a position file and an order file to each order's change of its
//! account's margin.
#![tactic(auto)]

mod batches;
mod befores;
pub mod laws;
pub mod lines;
mod margining;
pub mod trying;
mod worked;
