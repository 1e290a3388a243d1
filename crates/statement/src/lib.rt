//! Statements: from the bytes of a parameter file and a position file to the bytes of a statement.
#![tactic(auto)]

pub mod all_faults;
pub mod counts;
mod in_book;
pub mod laws;
pub mod margin;
pub mod plans;
pub mod roll;
pub mod worked;

pub use acceptance::accepting;
pub use statement_text::{fault_lines, faults, lines, statuses};
