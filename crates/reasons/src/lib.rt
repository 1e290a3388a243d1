//! The lines that explain the figures of a commodity (docs/FORMATS.md, Explanation).
#![tactic(auto)]

mod commodities;
mod held;
pub mod laws;
pub mod line_laws;
mod months;
pub mod shown;
pub mod stages;
mod words;
