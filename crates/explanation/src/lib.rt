//! Explanations: from the bytes of a parameter file and a position file to the lines that explain each figure.
#![tactic(auto)]

pub mod accounts;
pub mod explaining;
pub mod laws;
mod worked;
