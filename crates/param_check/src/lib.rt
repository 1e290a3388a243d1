//! The checker of parameter files. It re-exports `bind`, `bind_faults` and the orders of the crate `binding`.
#![tactic(auto)]

pub mod check;
pub mod fault_laws;
pub mod faults;
pub mod laws;
mod worked;

pub use binding::orders;
pub use binding::positions::{bind, bind_faults};
