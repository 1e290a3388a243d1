//! Parameter and position files that tests of more than one crate use, each with its statement, which was worked out by
//! hand. The crate has no code: `tools/samples` writes the bytes of the constants from the cases that their comments
//! name.
#![tactic(auto)]

pub mod calendar;
pub mod one_future;
pub mod option_values;
pub mod three_commodities;
pub mod two_commodities;
