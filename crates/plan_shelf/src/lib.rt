//! The shelf of the current parameter set: one publisher, and readers that never go back to an earlier set.
#![tactic(auto)]

pub mod faults;
pub mod history;
pub mod publishers;
pub mod readers;
pub mod shelves;
mod slots;
