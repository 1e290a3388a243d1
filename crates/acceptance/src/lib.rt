//! Acceptance of two files: they are read, checked, compiled and bound, on one thread or on several, or rejected for
//! their first fault.
#![tactic(auto)]

pub mod accepting;
mod bind_slices;
mod reading;
pub mod slices;
