//! The text of statements: the lines of rows and faults, exit statuses, and the statement of two files as a definition.
//! This crate does not use threads.
#![tactic(auto)]

pub mod fault_lines;
pub mod faults;
pub mod laws;
pub mod lines;
pub mod statuses;
pub mod worked;
