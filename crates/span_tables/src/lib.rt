//! The records of parameter, position and order files, accepted tables, portfolios, and the held contracts of a
//! commodity.
#![tactic(auto)]

pub mod contracts;
pub mod groups;
pub mod held;
mod kinds;
pub mod laws;
pub mod leg_index;
pub mod legs;
pub mod limit_digits;
pub mod limits;
pub mod name;
pub mod portfolios;
pub mod profiles;
pub mod raw;
pub mod records;
pub mod runs;
pub mod sides;
pub mod slots;
mod spreads;
pub mod tables;
