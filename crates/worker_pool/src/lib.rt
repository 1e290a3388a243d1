//! Batches of accounts that are margined under one parameter set.
#![tactic(auto)]

mod accounts;
pub mod batch;
mod coordinator;
mod ends;
pub mod gates;
mod idle;
pub mod laws;
mod open_boards;
pub mod outcomes;
pub mod passes;
pub mod plain;
mod queue_ends;
pub mod teams;
mod workers;
