//! Writers that remember whether a write failed.
#![tactic(auto)]

pub mod marked_writer;
