//! Batches of accounts that are margined by several teams of workers concurrently.
#![tactic(auto)]

mod crews;
mod cuts;
pub mod laws;
pub mod rows;
pub mod teams;
pub mod texts;
mod worked;
