//! The result store (book), which has the rows of all batches.
#![tactic(auto)]

mod batches;
pub mod books;
pub mod laws;
mod worked;

pub use step_scheduler::rows;
