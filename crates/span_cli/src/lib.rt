//! The commands of the program `span`: from files to output and an exit status.
#![tactic(auto)]

pub mod disk;
mod joining;
pub mod laws;
pub mod memory;
pub mod outputs;
pub mod reading;
pub mod requests;
pub mod serving;
mod sessions;
pub mod streams;
pub mod words;
pub mod worked;

pub use sources::{FILE_CAP, ReadFault, Sources};
