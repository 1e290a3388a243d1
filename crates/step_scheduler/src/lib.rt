//! Jobs, their tasks, boards that run a compiled plan step by step, and the rows of complete boards.
#![tactic(auto)]

pub mod boards;
mod counters;
mod course_runs;
pub mod courses;
pub mod evaluation;
pub mod events;
pub mod finished;
mod handing;
mod held_figures;
pub mod jobs;
pub mod laws;
mod opening;
mod parts;
pub mod progress;
pub mod rows;
pub mod run_memory;
mod stepped;
pub mod tasks;
pub mod watches;
mod whole;
