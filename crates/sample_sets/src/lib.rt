//! The content of sample files: tables, compiled parameter sets, accounts, jobs and boards, for tests of more than one
//! crate. Each call returns `None` if memory runs out or a file is rejected.
#![tactic(auto)]

pub mod boards;
pub mod files;
