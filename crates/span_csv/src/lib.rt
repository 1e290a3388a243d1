//! The readers of parameter, position and order files.
#![tactic(auto)]

pub mod accepted_files;
mod checks;
mod contents;
pub mod cuts;
pub mod faults;
mod fields;
mod grammar;
mod lines;
mod numbered;
pub mod order_laws;
pub mod orders;
pub mod param_laws;
pub mod params;
mod plain_positions;
pub mod position_laws;
pub mod positions;
mod row;
mod rows;
mod tally;
pub mod together;
mod worked;
